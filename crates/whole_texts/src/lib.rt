//! The texts that reads and lists answer: everything of an object or of a directory, what a read gives by what is owed,
//! and listings; and what follows from an event for a handle that its records wake, its pulse and the late reply to the
//! read that waits on it, planned from the content before the event.
#![tactic(auto)]

mod after;
mod answer;
mod blocks;
mod following;
mod limits;
mod listed;
mod member;
mod parts;
mod read;
mod reply;
mod whole;
mod woken;

pub use after::after_record;
pub use answer::{Answer, Effect};
pub use following::{Following, follow};
pub use limits::gives_everything;
pub use listed::{Listed, listing, listing_len, listings_are_told};
pub use member::Member;
pub use read::{answers_are_read, read_answer};
pub use reply::{Reply, late_answer};
pub use whole::Whole;
pub use woken::{TargetAfter, Woken};
