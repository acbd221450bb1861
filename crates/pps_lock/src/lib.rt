//! One engine under one lock, with the trace of what it was asked and what it answered.
#![tactic(auto)]

mod book;
mod entry;
mod message;
mod segment;
mod shared;

pub use book::{Book, Receipt, Stepped, TraceFull};
pub use entry::Entry;
pub use message::Message;
pub use segment::Segment;
pub use shared::Shared;
