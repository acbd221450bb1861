//! A server object's handles: those of its server and of its clients, each with the queue of what it is owed. And the
//! handles on any object or directory, its readers or a server object's, by the same calls (`Topic`).
#![tactic(auto)]

mod full;
mod glance;
mod made;
mod offers;
mod rooms;
mod server_handles;
mod shares;
mod sight;
mod span;
mod topic;
mod topic_copies;
mod unused;
mod woken;

pub use server_handles::ServerHandles;
pub use shares::Shares;
pub use topic::Topic;
pub use unused::{Target, Unused};
