//! Readers and writers that fail.

use pps_types::Device;
use std::io;
use std::io::{Read, Write};
use std::test::Fail;

/// Gives one byte at each call, and fails where none is left.
#[derive(Drop)]
struct Source {
    bytes: &'static [u8],
}

impl Read for Source {
    fn read(&mut self, buf: &mut [u8]) -> io::Result<usize> {
        if self.bytes.is_empty() {
            return Err(io::ErrorKind::Other.into());
        }
        if buf.is_empty() {
            return Ok(0);
        }
        buf[0] = self.bytes[0];
        self.bytes = &self.bytes[1..];
        Ok(1)
    }
}

/// Takes one byte at each call until it has as many as it may, and fails from then on.
#[derive(Drop)]
struct Sink {
    taken: Vec<u8>,
    most: usize,
}

impl Write for Sink {
    fn write(&mut self, buf: &[u8]) -> io::Result<usize> {
        if self.taken.len() >= self.most {
            return Err(io::ErrorKind::BrokenPipe.into());
        }
        match buf {
            [] => Ok(0),
            [first, ..] => {
                self.taken.push(*first)?;
                Ok(1)
            }
        }
    }

    fn flush(&mut self) -> io::Result<()> {
        Ok(())
    }
}

#[test]
fn a_reader_is_read_until_it_fails(rt: HostRuntime) -> Result<(), Fail> {
    let mut device = Device::new(Source { bytes: b"ab" });
    let mut buf = [0; 4];
    assert_eq!(rt; device.read(&mut buf)?, 1);
    assert_eq!(rt; buf[0], b'a');
    assert_eq!(rt; device.read(&mut buf)?, 1);
    assert_eq!(rt; buf[0], b'b');
    assert!(rt; !device.failed());
    assert!(rt; device.read(&mut buf).is_err());
    assert!(rt; device.failed());
    assert_eq!(rt; device.into_inner().bytes.len(), 0);
    Ok(())
}

#[test]
fn a_writer_is_written_until_it_fails(rt: HostRuntime) -> Result<(), Fail> {
    let mut device = Device::new(Sink {
        taken: Vec::new(rt.alloc()),
        most: 1,
    });
    assert_eq!(rt; device.write(b"xy")?, 1);
    assert!(rt; !device.failed());
    assert!(rt; device.write(b"y").is_err());
    assert!(rt; device.failed());
    assert_eq!(rt; device.into_inner().taken.as_slice(), b"x".as_slice());
    Ok(())
}
