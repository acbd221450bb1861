//! The open handles of a service under their numbers, and by the object or directory that each is on.
#![tactic(auto)]

mod change;
mod compared;
mod copies;
mod handles;
mod new_site;
mod places;
mod shared_record;
mod woken;

pub use handles::{Handles, Looked, Opened};
pub use new_site::NewSite;
pub use shared_record::SharedRecord;
