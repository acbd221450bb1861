//! What is read in pieces: a device over a reader, or an opened file.
ghost use Rattle.std.specs.Prelude.{ℕ, List, Option};
ghost use Rattle.std.specs.Io.{ReadsAtMost};
ghost use Rattle.std.specs.Io.KnownBytes.{ReadConsumes};
ghost use Rattle.pps_persist.specs.Loads.{WorksOn, FailsFrom};

use crate::files::OpenedFile;
use pps_types::Device;
use std::io;
use std::io::Read;

/// What is read in pieces.
pub(crate) trait Input {
    // The bytes that reads will give from here on, where they are known.
    ghost remaining: { Self → Option (List ℕ) };

    // From the first to the second it was read so often, and no read failed.
    ghost works: { Self → Self → ℕ → Type 0 };

    // From the first to the second a read failed.
    ghost fails: { Self → Self → Type 0 };

    /// Reads once.
    fn read_some(&mut self, buf: &mut [u8]) -> io::Result<usize>
        ensures bound { ReadsAtMost result buf.new }
        ensures bytes { ReadConsumes (remaining self.old) (remaining self.new) result buf.new }
        ensures works { WorksOn works self.old self.new result }
        ensures fails { FailsFrom works fails self.old self.new result };
}

impl<R: Read> Input for Device<R> {
    ghost use Rattle.std.specs.Prelude.{◌≡◌, true};
    ghost use Rattle.pps_types.specs.Device.{device_inner, device_failed};
    ghost use Rattle.pps_persist.specs.Loads.{HasRead};

    ghost remaining = { λ d. R.remaining (device_inner d) };

    ghost works = { HasRead };

    ghost fails = { λ _ new. device_failed new ≡ true };

    fn read_some(&mut self, buf: &mut [u8]) -> io::Result<usize> {
        self.read(buf)
    }
}

/// An opened file. It fails only if it might when it was opened.
#[derive(Drop)]
pub(crate) struct Opened<R> {
    pub(crate) file: R,
}

impl<R: OpenedFile> Input for Opened<R> {
    ghost remaining = { λ it. R.remaining it.file };

    ghost works = { λ old new _. R.may_fail new.file → R.may_fail old.file };

    ghost fails = { λ old _. R.may_fail old.file };

    fn read_some(&mut self, buf: &mut [u8]) -> io::Result<usize> {
        self.file.read_some(buf)
    }
}
