//! The engine: the service as a machine with one step for each event, planned with all the memory that it needs, and then
//! carried out without any: what an event does, the pulses and late replies that follow from it, and what an image saves.
#![tactic(auto)]

mod asking;
mod at_once;
mod doing;
mod done;
mod engine;
mod image_entries;
mod order;
mod planned;
mod private;
mod requests;
mod restoring;
mod saved_attributes;
mod saved_entry;
mod saving;
mod settled;
mod settled_attributes;
mod settled_members;
mod settled_objects;
mod settled_replies;
mod settling;
mod woken;

pub use engine::{Engine, Plan};
pub use order::path_order;
pub use planned::{Pending, Planned, carry_out, plan};
pub use private::{BothAnswers, run_both};
pub use saved_attributes::{SavedAttribute, SavedAttributes};
pub use saved_entry::SavedEntry;
pub use settling::settle;
