//! What the server of a server object, or one of its clients, is owed: messages, and notices of clients.
#![tactic(auto)]

mod counts;
mod entry;
mod fitting;
mod plan;
mod printed;
mod queue;
mod same;
mod sender;
mod shown;

pub use entry::Entry;
pub use fitting::{Fitting, too_small};
pub use plan::GivenBlocks;
pub use queue::Queue;
pub use sender::Sender;
pub use shown::Shown;
