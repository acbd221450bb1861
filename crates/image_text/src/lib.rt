//! The lines of images: what each says, and how it is printed.
#![tactic(auto)]

mod number;
mod printing;
mod reading;

pub use printing::{push_attribute, push_beginning, push_directory, push_end, push_object};
pub use reading::{Beginning, EntryLine, read_attribute, read_beginning, read_entry_line};
