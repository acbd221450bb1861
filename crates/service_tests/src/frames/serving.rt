//! Streams that are served.

use crate::scripts::new_engine;
use frame_codec::Ended;
use pps_engine::Engine;
use pps_frame::{RunError, run};
use pps_types::{Device, Exchange};
use std::alloc::{AllocError, Global};
use std::io;
use std::io::{ErrorKind, Read, Write};
use std::process::Abort;
use std::test::Fail;

/// The first path: one connection writes an object, and another reads it.
const REQUESTS: &[u8] = b"\0\0\0\x03\x01\0\x01\
\0\0\0\x08\x03\0\x01\x07/gps\
\0\0\0\x12\x05\0\x01\0\0\0\x01speed:n:65\n\
\0\0\0\x03\x01\0\x02\
\0\0\0\x08\x03\0\x02\x01/gps\
\0\0\0\x0b\x04\0\x02\0\0\0\x02\0\0\x10\0\
\0\0\0\x06\x09\0\x02/ab";

const ANSWERS: &[u8] = b"\0\0\0\x03\0\x01\x01\
\0\0\0\x07\0\x01\x02\0\0\0\x01\
\0\0\0\x07\0\x01\x04\0\0\0\x0b\
\0\0\0\x03\0\x02\x01\
\0\0\0\x07\0\x02\x02\0\0\0\x02\
\0\0\0\x13\0\x02\x03@gps\nspeed:n:65\n\
\0\0\0\x08\0\x02\0\x07\0\0\0\0";

const BAD_FRAME: &[u8] = b"\0\0\0\x08\0\0\0\x02\0\0\0\0";

/// Gives so many bytes a read, and fails at a read.
#[derive(Drop)]
struct Slow<'b> {
    bytes: &'b [u8],
    size: usize,
    reads: usize,
}

impl Read for Slow<'_> {
    fn read(&mut self, buf: &mut [u8]) -> io::Result<usize> {
        if self.reads == 0 {
            return Err(ErrorKind::TimedOut.into());
        }
        self.reads -= 1;
        let count = self.size.min(self.bytes.len()).min(buf.len());
        buf[..count].copy_from_slice(&self.bytes[..count]);
        self.bytes = &self.bytes[count..];
        Ok(count)
    }
}

/// Takes one byte a write, and fails once it has so many.
#[derive(Drop)]
struct Narrow {
    taken: Vec<u8>,
    room: usize,
}

impl Write for Narrow {
    fn write(&mut self, buf: &[u8]) -> io::Result<usize> {
        let Some(byte) = buf.first() else {
            return Ok(0);
        };
        if self.taken.len() >= self.room {
            return Err(ErrorKind::TimedOut.into());
        }
        self.taken.push(*byte)?;
        Ok(1)
    }

    fn flush(&mut self) -> io::Result<()> {
        Ok(())
    }
}

/// Serves a stream to an engine, with a reader that gives so many bytes a read and fails after so many reads, and a writer
/// that takes one byte a call and has room for so many. Gives how that ended.
fn served(
    alloc: Global,
    engine: &mut Engine,
    bytes: &[u8],
    size: usize,
    reads: usize,
    writer: &mut Narrow,
) -> Result<Result<Ended, RunError>, AllocError> {
    let reader = Slow { bytes, size, reads };
    let mut exchange = Exchange::new(alloc, Device::new(reader), Device::new(writer))?;
    Ok(run(alloc, engine, &mut exchange))
}

/// How a run has to end, and whether it has to write all of these answers.
#[derive(Clone, Copy)]
struct Wanted {
    ended: Result<Ended, RunError>,
    is_whole: bool,
}

/// Serves that to a new engine, and compares how it ends and what it writes.
fn assert_served(
    rt: &impl Abort,
    alloc: Global,
    bytes: &[u8],
    devices: [usize; 3],
    wanted: Wanted,
    answers: &[u8],
) -> Result<(), AllocError> {
    let [size, reads, room] = devices;
    let mut engine = new_engine(alloc)?;
    let mut writer = Narrow {
        taken: Vec::new(alloc),
        room,
    };
    let ended = served(alloc, &mut engine, bytes, size, reads, &mut writer)?;
    assert_eq!(rt; ended, wanted.ended);
    assert!(rt; answers.starts_with(writer.taken.as_slice()));
    assert!(rt; !wanted.is_whole || writer.taken.len() == answers.len());
    Ok(())
}

/// A run that ends so and writes all answers.
fn whole(ended: Result<Ended, RunError>) -> Wanted {
    Wanted {
        ended,
        is_whole: true,
    }
}

#[test]
fn each_frame_is_answered_by_one(rt: HostRuntime) -> Result<(), Fail> {
    let wanted = whole(Ok(Ended::Clean));
    for size in [1, 7, 64, 1_000] {
        let devices = [size, 1_000, 1_000];
        assert_served(&rt, rt.alloc(), REQUESTS, devices, wanted, ANSWERS)?;
    }
    Ok(())
}

#[test]
fn a_rest_and_a_malformed_frame_are_told(rt: HostRuntime) -> Result<(), Fail> {
    let ends: [(&[u8], Ended, &[u8]); 4] = [
        (b"", Ended::Clean, b""),
        (b"\0\0\0\x03\x01\0", Ended::Truncated, BAD_FRAME),
        (b"\0", Ended::Truncated, BAD_FRAME),
        (b"\0\0\0\0", Ended::Malformed, BAD_FRAME),
    ];
    for (bytes, ended, told) in ends {
        let wanted = whole(Ok(ended));
        assert_served(&rt, rt.alloc(), bytes, [1, 1_000, 1_000], wanted, told)?;
    }
    Ok(())
}

#[test]
fn devices_that_fail_leave_the_first_answers(rt: HostRuntime) -> Result<(), Fail> {
    let wanted = whole(Err(RunError::WriteFault));
    for room in 0..ANSWERS.len() {
        let devices = [1_000, 1_000, room];
        assert_served(&rt, rt.alloc(), REQUESTS, devices, wanted, &ANSWERS[..room])?;
    }
    let wanted = Wanted {
        ended: Err(RunError::ReadFault),
        is_whole: false,
    };
    for reads in 0..=REQUESTS.len() {
        assert_served(
            &rt,
            rt.alloc(),
            REQUESTS,
            [1, reads, 1_000],
            wanted,
            ANSWERS,
        )?;
    }
    Ok(())
}
