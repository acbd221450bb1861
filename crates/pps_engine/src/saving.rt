//! What an image saves.
ghost use Rattle.std.specs.Prelude.{◌≡◌, IfOk, IfErr};
ghost use Rattle.pps_types.specs.declared.refusal.Refusal.TheVariants.{OutOfMemory};
ghost use Rattle.pps_types.specs.Image as image;
ghost use Rattle.image_laws.specs.Laws.{IsReadAgain};
ghost use Rattle.image_laws.specs.Savable.{CanBeSaved};

use crate::engine::Engine;
use crate::image_entries::saved_entries;
use crate::saved_entry::SavedEntry;
use image_laws::saved_is_read_again;
use pps_types::Refusal;

impl Engine {
    /// What an image of the service saves: the directories other than the root and the persistent plain objects, in the
    /// order of their paths.
    ///
    /// The service lends them, so no text is copied. It costs n log n for n directories and objects. OutOfMemory is the
    /// only error.
    pub fn entries(&self) -> Result<Vec<SavedEntry<'_>>, Refusal>
        ensures saved { IfOk result (λ entries. entries.items ≡ image.saved self.now.content) }
        ensures wants { IfErr result (λ r. r ≡ OutOfMemory) }
    {
        let entries = saved_entries(self.alloc, self.tables.names())?;
        Ok(entries)
    }

    /// Does nothing. Its contract is the law that the state can be saved, and that its image is read as what was saved,
    /// whether the engine was just made, copied or stepped, or an image was restored in it.
    pub fn can_be_saved(&self)
        ensures can { CanBeSaved self.now.content }
        ensures read { IsReadAgain self.now.content.default_limit self.now.content }
    {
        saved_is_read_again();
        let _ = &self.tables;
    }
}
