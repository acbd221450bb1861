//! The table of blocks: what a record looks like to a handle of each kind, how long its block is, and its printing.
#![tactic(auto)]

mod block;
mod lines;
mod table;

pub use block::Block;
pub use lines::lines_len;
pub use table::is_visible;
