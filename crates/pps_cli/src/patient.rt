//! A reader or a writer that is asked again if it was interrupted.
ghost use Rattle.std.specs.Prelude.{◌≢◌, IfErr};
ghost use Rattle.std.specs.Io.{ReadsAtMost, WritesAtMost};
ghost use Rattle.std.specs.Io.KnownBytes.{Keeps, ReadConsumes, WriteAppends};
ghost use Rattle.std.specs.IoError.{error_kind};

use pps_persist::OpenedFile;
use std::io;
use std::io::{ErrorKind, Read, Write};

/// How many reads are made in all, and how often one write is made, interrupted ones included.
const CALLS_MAX: u32 = 4_294_967_295;

/// A reader or a writer that is asked again if a call was interrupted: that is no fault of what is read or written. It
/// gives up after 4,294,967,295 reads in all, or as many tries of one write.
#[derive(Drop)]
pub(crate) struct Patient<D> {
    inner: D,
    reads_left: u32,
}

impl<D> Patient<D> {
    /// That reader or writer, asked patiently.
    pub(crate) fn new(inner: D) -> Patient<D> {
        Patient {
            inner,
            reads_left: CALLS_MAX,
        }
    }
}

impl<I: Read> Read for Patient<I> {
    ghost remaining = { λ a. I.remaining a.inner };

    fn read(&mut self, buf: &mut [u8]) -> io::Result<usize>
        ensures bound { ReadsAtMost result buf.new }
        ensures bytes { ReadConsumes
            (I.remaining self.old.inner) (I.remaining self.new.inner) result buf.new }
        ensures retried { IfErr result (λ e. error_kind e ≢ ErrorKind.Interrupted) }
    {
        'reads: for _ in 0..self.reads_left {
            self.reads_left = self.reads_left.saturating_sub(1);
            match self.inner.read(buf) {
                Err(e) if e.kind() == ErrorKind::Interrupted => {}
                answer => return answer,
            }
        }
        Err(ErrorKind::TimedOut.into())
    }
}

/// A file of the system, of which each read may fail.
impl<I: Read> OpenedFile for Patient<I> {
    ghost may_fail = { λ _. Unit {0} };

    fn read_some(&mut self, buf: &mut [u8]) -> io::Result<usize> {
        self.read(buf)
    }
}

impl<O: Write> Write for Patient<O> {
    ghost contents = { λ a. O.contents a.inner };

    fn write(&mut self, buf: &[u8]) -> io::Result<usize>
        ensures bound { WritesAtMost result buf.now }
        ensures bytes { WriteAppends
            (O.contents self.old.inner) (O.contents self.new.inner) result buf.now }
        ensures retried { IfErr result (λ e. error_kind e ≢ ErrorKind.Interrupted) }
    {
        'tries: for _ in 0..CALLS_MAX {
            match self.inner.write(buf) {
                Err(e) if e.kind() == ErrorKind::Interrupted => {}
                answer => return answer,
            }
        }
        Err(ErrorKind::TimedOut.into())
    }

    fn flush(&mut self) -> io::Result<()>
        ensures bytes { Keeps (O.contents self.old.inner) (O.contents self.new.inner) }
    {
        self.inner.flush()
    }
}
