//! The names of a service, with the objects and the directories that they lead to.
#![tactic(auto)]

mod compared;
mod copies;
mod laws;
mod members;
mod named;
mod names;
mod paths;

pub use alloc_tree::Lent;
pub use laws::{members_are_listed, moves_are_told, questions_are_told};
pub use members::Objects;
pub use named::{NamedDirectory, NamedObject};
pub use names::{NamedDirectories, NamedObjects, Names};
pub use paths::{last_name, parent};
