//! What is loaded of what was saved.
ghost use Rattle.pps_persist.specs.Loads.{IsLoadedAlike};

use image_laws::read_is_saved_alike;
use pps_engine::Engine;

/// Does nothing. Its contract is the law that an engine which `load` made of just what `save` wrote of another would be
/// saved alike: both have the same directories, kept objects and persistent attributes, and the same default limit.
/// Whatever was done to the engine that was saved, nothing is asked of it.
pub fn loaded_is_saved_alike(saved: &Engine, loaded: &Engine)
    ensures { IsLoadedAlike saved.now.content loaded.now }
{
    saved.can_be_saved();
    read_is_saved_alike();
    let _ = loaded;
}
