//! A table of values under numbers that rise: each is found by its number, and they leave in any order.
#![tactic(auto)]

mod index;
mod iter;
mod table;

pub use iter::Iter;
pub use table::Table;
