//! Files that images are loaded from and saved to.
ghost use Rattle.std.specs.Prelude.{◌≡◌, ℕ, List, Option, false, IfOk, OnErr};
ghost use Rattle.pps_types.specs.Device.{device_inner, device_failed};
ghost use Rattle.pps_types.specs.Writing.{Sends};
ghost use Rattle.std.specs.Io.{ReadsAtMost};
ghost use Rattle.std.specs.Io.KnownBytes.{ReadConsumes};
ghost use Rattle.pps_persist.specs.Files.{AnswersFileFault, FailsOnlyIf, MayFailNoMore, OpensAt, Replaced, Replaces};
ghost use Rattle.pps_persist.specs.declared.files.FileFault.TheVariants as faults;

use pps_types::Device;
use std::alloc::{AllocError, Global};
use std::io;
use std::io::{Read, Write};

/// Why a file was not opened, or not replaced.
#[derive(Clone, Copy, Debug, PartialEq, Eq)]
pub enum FileFault {
    /// Memory was wanting.
    OutOfMemory,
    /// It cannot be read, or cannot be written.
    Failed,
}

impl From<AllocError> for FileFault {
    ghost from_gives = { λ _ fault. fault ≡ faults.OutOfMemory };

    fn from(_error: AllocError) -> FileFault {
        FileFault::OutOfMemory
    }
}

/// What a file is to hold.
pub trait Contents {
    // The bytes of it.
    ghost bytes: { Self → List ℕ };

    /// Writes all of its bytes, and nothing else. If that fails, the first of them may be written.
    ///
    /// Failed comes only where the device failed, or took none of some bytes.
    fn write_to<W: Write>(&self, alloc: Global, device: &mut Device<W>) -> Result<(), FileFault>
        requires { device_failed device.old ≡ false }
        ensures sends { Sends
            (W.contents (device_inner device.old)) (W.contents (device_inner device.new))
            (bytes self.now) result }
        ensures fault { AnswersFileFault device.old device.new result };
}

/// A file that was opened, to be read.
pub trait OpenedFile: Read {
    // Whether a read of it may fail.
    ghost may_fail: { Self → Type 0 };

    /// Reads once, as `read` does. It fails only if it may.
    fn read_some(&mut self, buf: &mut [u8]) -> io::Result<usize>
        ensures bound { ReadsAtMost result buf.new }
        ensures bytes { ReadConsumes
            (Self.remaining self.old) (Self.remaining self.new) result buf.new }
        ensures fails { OnErr result (may_fail self.old) }
        ensures stays { may_fail self.new → may_fail self.old };
}

/// Bytes in memory, which can always be read.
impl OpenedFile for &[u8] {
    ghost may_fail = { λ _. ⊥ };

    fn read_some(&mut self, buf: &mut [u8]) -> io::Result<usize> {
        self.read(buf)
    }
}

/// Files under their names. Each is read as it is, and replaced as a whole.
///
/// What they hold, and which were replaced by what, is for clauses alone, and need not be known. Of the files of a system
/// nothing is known: what becomes there of what is handed over is to be tested.
pub trait ImageFiles {
    /// A file that is read.
    type Image: OpenedFile + Drop;

    // The bytes that the file of a name holds, if they are known.
    ghost held: { Self → List ℕ → Option (List ℕ) };

    // The files that were replaced, in order, if they are known.
    ghost replaced: { Self → Option (List Replaced) };

    // Whether the file of a name may fail: to be opened, read, or replaced.
    ghost may_fail: { Self → List ℕ → Type 0 };

    /// Opens a file, to be read from its first byte. It fails only if it may, and so do its reads.
    fn open(&self, file: &str) -> Result<Self::Image, FileFault>
        ensures opens { IfOk result (λ image.
            OpensAt (held self.now file.now) (Self.Image.remaining image)) }
        ensures reads { IfOk result (λ image.
            Self.Image.may_fail image → may_fail self.now file.now) }
        ensures fault { FailsOnlyIf (may_fail self.now file.now) result };

    /// Replaces a file by one that holds just this. If that fails, no file is replaced.
    ///
    /// Failed comes only if the file may fail. No more files may fail than before.
    fn replace<C: Contents>(
        &mut self,
        alloc: Global,
        file: &str,
        contents: &C,
    ) -> Result<(), FileFault>
        ensures replaces { Replaces
            (replaced self.old) (replaced self.new) file.now (C.bytes contents.now) result }
        ensures fault { FailsOnlyIf (may_fail self.old file.now) result }
        ensures stays { MayFailNoMore (may_fail self.old) (may_fail self.new) };
}
