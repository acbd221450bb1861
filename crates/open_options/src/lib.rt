//! The texts of opens, a path and options behind `?`, and paths alone.
#![tactic(auto)]

mod open;
mod options;
mod path;

pub use open::{OpenSpec, read_open};
pub use options::HandleOptions;
pub use path::{Path, read_path};
