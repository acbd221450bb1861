//! Images of the service: loaded and saved, exactly.
#![tactic(auto)]

mod again;
mod entries;
mod errors;
mod files;
mod filing;
mod input;
mod lines;
mod loading;
mod output;
mod pieces;
mod place;
mod saving;

pub use again::loaded_is_saved_alike;
pub use errors::{LoadError, SaveError};
pub use files::{Contents, FileFault, ImageFiles, OpenedFile};
pub use filing::{load_from, save_to};
pub use loading::load;
pub use saving::save;
