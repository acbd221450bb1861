//! What is asked of one connection or of one of its handles, as Attach, Detach, Read, Notify, Receive, Write and Close:
//! how it is checked, what it answers, and the memory that it takes ahead. Nothing changes yet.
#![tactic(auto)]

mod address;
mod attaching;
mod backlog;
mod closing;
mod directories;
mod draft;
mod gathering;
mod message;
mod notifying;
mod owed;
mod own;
mod reading;
mod ready;
mod sources;
mod told;
mod writer;
mod writing;

pub use attaching::{attach, receive};
pub use closing::{Closing, close, detach};
pub use notifying::{Notified, notify};
pub use reading::{ReadDone, read};
pub use writing::write;
