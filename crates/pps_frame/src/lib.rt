//! The service over a stream of bytes: each frame that is read is a request, and is answered by a frame.
#![tactic(auto)]

mod closing;
mod ends;
mod serving;

pub use ends::RunError;
pub use serving::run;
