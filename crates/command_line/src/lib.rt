//! The command line of the program `pps`: its commands and options, and what words ask for.
#![tactic(auto)]

mod asked;
mod fault;
mod reading;
mod rules;

pub use asked::{Asked, Beginning, RunOptions, ServeOptions, ServiceOptions, Workers};
pub use fault::WordsFault;
pub use reading::read_words;
