//! Filters: which lines of attributes a subscriber is given.
#![tactic(auto)]

mod filter;
mod name;
mod number;
mod pieces;
mod read;

pub use filter::{Filter, Part, matches};
pub use name::Name;
pub use pieces::first_plain_piece;
pub use read::{read_filter, read_parts};
