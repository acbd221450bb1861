//! Paths as texts.
ghost use Rattle.std.specs.Prelude.{◌≡◌, Some, IfOk, IfErr};
ghost use Rattle.pps_types.specs.OpenText as meant;
ghost use Rattle.open_options.specs.Refused.{IsPathRefusal};

use open_options::read_path;
use pps_types::{Bytes, Refusal};
use std::alloc::Global;

/// The names of a path. It is BadPath where the text is none, and else OutOfMemory is the only error.
pub(crate) fn read_names(alloc: Global, text: &Bytes) -> Result<Vec<Bytes>, Refusal>
    ensures ok { IfOk result (λ path. meant.path_text text.now ≡ Some path.items) }
    ensures err { IfErr result (IsPathRefusal (meant.path_text text.now)) }
{
    match read_path(alloc, text.as_slice()) {
        Err(refusal) => Err(refusal),
        Ok(path) => Ok(path.into_names()),
    }
}
