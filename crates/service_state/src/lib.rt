//! All that stands of a service: names, open handles and connections, kept together and changed in place.
#![tactic(auto)]

mod begin_room;
mod beginning;
mod checks;
mod coming;
mod copies;
mod creating;
mod directories;
mod entries;
mod following;
mod gathering;
mod room;
mod tables;
mod telling;
mod unheard;
mod unheard_objects;
mod waiting;

pub use begin_room::{begin_ready, numbers_are_within};
pub use beginning::Beginning;
pub use creating::{NewObject, Replacement};
pub use entries::{entry_about, record_of};
pub use gathering::{entries_in, tell};
pub use tables::Tables;
