//! What is asked by a path, as Open, Unlink, Mkdir and List: the checks in their order, the answer, the memory that is
//! taken ahead, and how an open is carried out, until which nothing changes. And the calls that restore an image, each
//! carried out at once.
#![tactic(auto)]

mod checks;
mod creating;
mod listing;
mod mkdir;
mod new_handle;
mod on_found;
mod opening;
mod paths;
mod planned_open;
mod records;
mod replacing;
mod restored_directories;
mod restored_lines;
mod restored_objects;
mod unlinking;
mod ways;

pub use listing::list;
pub use mkdir::make_directory;
pub use opening::open;
pub use planned_open::{Opens, carry_out};
pub use restored_directories::restore_directory;
pub use restored_lines::restore_line;
pub use restored_objects::restore_object;
pub use unlinking::{Unlinked, unlink};
