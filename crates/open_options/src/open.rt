//! The text of an open.
ghost use Rattle.std.specs.Prelude.{◌≡◌, IfOk, IfErr};
ghost use Rattle.std.specs.Option.{option_copied};
ghost use Rattle.pps_types.specs.OpenText as meant;
ghost use Rattle.open_options.specs.Refused.{IsOpenRefusal};
ghost use Rattle.open_options.specs.Seen.{handle_options_seen};

use crate::options::{HandleOptions, Options, read_options};
use crate::path::{OpenPath, Path, read_open_path};
use pps_filter::Filter;
use pps_types::{Refusal, split_at_first};
use std::alloc::Global;
use std::marker::Model;

/// What an open asks for: a path, whether `.all` stands behind it, and options.
#[derive(Debug, Drop)]
pub struct OpenSpec {
    path: OpenPath,
    options: Options,
}

impl Model for OpenSpec {
    ghost use Rattle.pps_types.specs.OpenText.{OpenSpec as SpecMeant, open_spec};

    ghost Value = { SpecMeant };

    ghost use Rattle.open_options.specs.Seen.{path_seen, options_seen};

    ghost view = { λ a. open_spec (path_seen a.path) (options_seen a.options) };
}

impl OpenSpec {
    /// The names on the way to what is opened. The element `.all` is none of them.
    pub fn path(&self) -> &Path
        ensures { result.now ≡ self.now.names }
    {
        &self.path.names
    }

    /// Whether the path ends in `.all`: the objects that lie directly in a directory are opened together.
    pub fn all(&self) -> bool
        ensures { result ≡ self.now.all }
    {
        self.path.all
    }

    /// `delta`: the handle reads each change since it last read.
    pub fn delta(&self) -> bool
        ensures { result ≡ self.now.options.delta }
    {
        self.options.delta
    }

    /// `deltadir`, which is our own: names alone, of members that are and that come and go.
    pub fn deltadir(&self) -> bool
        ensures { result ≡ self.now.options.deltadir }
    {
        self.options.deltadir
    }

    /// `wait`: a read that finds nothing new is parked.
    pub fn wait(&self) -> bool
        ensures { result ≡ self.now.options.of_handle.wait }
    {
        self.options.of_handle.wait
    }

    /// `nopersist`: an object that this open creates is never saved.
    pub fn nopersist(&self) -> bool
        ensures { result ≡ self.now.options.nopersist }
    {
        self.options.nopersist
    }

    /// `reflect`: the handle is also given the changes that it made itself.
    pub fn reflect(&self) -> bool
        ensures { result ≡ self.now.options.of_handle.reflect }
    {
        self.options.of_handle.reflect
    }

    /// `server`: the handle becomes the server of a server object.
    pub fn server(&self) -> bool
        ensures { result ≡ self.now.options.server }
    {
        self.options.server
    }

    /// `critical`, which is our own: when the handle closes, the object's nonpersistent attributes go with it.
    pub fn critical(&self) -> bool
        ensures { result ≡ self.now.options.of_handle.critical }
    {
        self.options.of_handle.critical
    }

    /// `f=`: which lines the handle is shown. Without it, all.
    pub fn filter(&self) -> Option<&Filter>
        ensures { option_copied result ≡ self.now.options.of_handle.filter }
    {
        self.options.of_handle.filter.as_ref()
    }

    /// `limit=`, which is our own: how much the handle may be owed, 1 to 65,535. Without it, the service's default.
    pub fn limit(&self) -> Option<u32>
        ensures { result ≡ self.now.options.limit }
    {
        self.options.limit
    }

    /// The path, and the options that the handle keeps. It takes no memory.
    pub fn into_parts(self) -> (Path, HandleOptions)
        ensures path { result.0 ≡ self.names }
        ensures options { handle_options_seen result.1 ≡ self.options.of_handle }
    {
        let OpenSpec { path, options } = self;
        (path.names, options.of_handle)
    }
}

/// The path before the first `?`, and the options behind it.
fn open_parts(text: &[u8]) -> (&[u8], &[u8])
    ensures { (result.0.now, result.1.now) ≡ meant.open_parts text.now }
{
    match split_at_first(b'?', text) {
        Some(parts) => parts,
        None => (text, &text[text.len()..]),
    }
}

/// Reads the text of an open: a path, and options behind `?`, with a comma between each two.
///
/// The path is one that [`read_path`](crate::read_path) reads, or such a one with `/.all` behind it; the bytes of that
/// count among the 1,024, and it is none of the 32 names. There are at most 4,096 bytes of options, without a line feed.
/// `limit=` and `f=` stand once at most; the other options may stand again, and an empty one says nothing. `deltadir`
/// goes only with `.all`, and with neither `delta` nor `f=`; `server` and `critical` do not go with `.all`.
///
/// It is BadPath where the path is none, and only then; else it is BadOption where the options are none, or do not go
/// together; and else OutOfMemory is the only error. Options behind `?` are QNX's (PPS Developer's Guide, pathname open
/// options); `limit=`, `critical`, `deltadir`, the operators of filters, and what does not go together, are our own.
pub fn read_open(alloc: Global, text: &[u8]) -> Result<OpenSpec, Refusal>
    ensures ok { IfOk result (λ spec. meant.open_text text.now ≡ Ok spec) }
    ensures err { IfErr result (IsOpenRefusal text.now) }
{
    let (path, options) = open_parts(text);
    let path = read_open_path(alloc, path)?;
    let options = read_options(alloc, path.all, options)?;
    Ok(OpenSpec { path, options })
}
