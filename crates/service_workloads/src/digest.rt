//! What a work gives, as a number.

use std::alloc::Global;
use std::fmt::{self, Display, Formatter};
use std::io;

/// How many bytes are held, at least, before they are added.
const BLOCK: usize = 65_536;

/// The digest of what was written: its length, the sum of its words of eight bytes, and the sum of these sums, as
/// Fletcher's checksum has them. It does not show in which pieces it was written.
#[derive(Drop)]
pub(crate) struct Digest {
    held: Vec<u8>,
    len: u64,
    sum: u64,
    sums: u64,
}

impl Digest {
    pub(crate) fn new(alloc: Global) -> Digest {
        Digest {
            held: Vec::new(alloc),
            len: 0,
            sum: 0,
            sums: 0,
        }
    }

    // The whole words of what is held are added.
    fn add_words(&mut self) {
        let (words, rest) = self.held.as_slice().as_chunks::<8>();
        for word in words {
            self.sum = self.sum.wrapping_add(u64::from_le_bytes(*word));
            self.sums = self.sums.wrapping_add(self.sum);
        }
        let (whole, rest) = (self.held.len() - rest.len(), rest.len());
        self.held.as_mut_slice().copy_within(whole.., 0);
        self.held.truncate(rest);
    }

    /// The digest at the end, where what is left is added as a word that ends in zeros.
    pub(crate) fn finish(mut self) -> Result<Sums, io::Error> {
        self.held.extend_from_slice(&[0; 8])?;
        self.add_words();
        Ok(Sums {
            len: self.len,
            sum: self.sum,
            sums: self.sums,
        })
    }
}

impl io::Write for Digest {
    fn write(&mut self, buf: &[u8]) -> io::Result<usize> {
        self.held.extend_from_slice(buf)?;
        self.len = self.len.wrapping_add(buf.len() as u64);
        if self.held.len() >= BLOCK {
            self.add_words();
        }
        Ok(buf.len())
    }

    fn flush(&mut self) -> io::Result<()> {
        Ok(())
    }
}

/// A digest that is ready.
#[derive(Clone, Copy, Debug, Drop)]
pub(crate) struct Sums {
    len: u64,
    sum: u64,
    sums: u64,
}

impl Display for Sums {
    fn fmt<W: fmt::Write>(&self, f: &mut Formatter<W>) -> Result<(), fmt::Error> {
        write!(f, "{} bytes, {} {}", self.len, self.sum, self.sums)
    }
}
