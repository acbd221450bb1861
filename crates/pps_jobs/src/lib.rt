//! The jobs of the program `pps` that need no threads: a service begins, runs a script or serves a stream of requests, and
//! is saved, over any input, output and files.
#![tactic(auto)]

mod fault;
mod frames;
mod images;
mod jobs;
mod script;
mod script_file;
mod wording;

pub use fault::{Failure, Fault, ServingFault};
pub use images::cannot_replace;
pub use jobs::{run_frames, run_script};
pub use script_file::read_file;
pub use wording::write_report;
