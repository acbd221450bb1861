//! Scripts, served: each line that is read is a request, and is answered by a line.
#![tactic(auto)]

mod fault;
mod line;
mod manner;
mod serving;
mod session;

pub use fault::ScriptFault;
pub use manner::{BadLines, Manner};
pub use serving::serve_script;
