//! Names below the mount point as a tree of objects and directories, over any allocator.
#![tactic(auto)]

mod compare;
mod copies;
mod directory;
mod edit;
mod entries;
mod kind;
mod listed;
mod tree;

pub use listed::{Lent, Member, Standing};
pub use tree::Tree;
