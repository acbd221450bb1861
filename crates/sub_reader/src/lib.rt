//! An object or a directory with the handles that read it, and the list of records that they share.
#![tactic(auto)]

mod audience;
mod copies;
mod counts;
mod cut;
mod glance;
mod kinds;
mod opening;
mod owed;
mod passed;
mod place;
mod progress;
mod questions;
mod row;
mod rows;
mod shown;
mod sight;
mod slots;
mod subscribers;
mod woken;

pub use glance::Glance;
pub use kinds::{is_directory_kind, is_full, number_of};
pub use opening::{Opening, Pulse};
pub use progress::Progress;
pub use row::{HandleRow, Slot};
pub use rows::HandleRows;
pub use shown::{Turn, put_record};
pub use sight::is_visible;
pub use slots::{First, first_row};
pub use subscribers::Subscribers;
