//! Images, loaded and saved.

use pps_engine::Engine;
use pps_persist::{LoadError, load, save};
use pps_types::Device;
use std::alloc::Global;
use std::process::Abort;
use std::test::Fail;

const IMAGE: &[u8] = b"PPSIMAGE 2 256\nO /gps 1\na::1\nE 1\n";

/// Bytes, and what is saved if they are loaded, or the line at which they are no image.
const CASES: [(&[u8], &[u8], u64); 9] = [
    (IMAGE, IMAGE, 0),
    (b"PPSIMAGE 2 8\nE 0\n", b"PPSIMAGE 2 8\nE 0\n", 0),
    (b"PPSIMAGE 1\nO /gps 1\na::1\nE 1\n", IMAGE, 0),
    (b"", b"", 1),
    (b"PPSIMAGE 2 256\nO /gps 1\na::1\nE 1", b"", 4),
    (b"PPSIMAGE 2 256\nO /gps 1\na::1\nE 1\n\n", b"", 5),
    (b"PPSIMAGE 2 256\nO /b 0\nO /a 0\nE 2\n", b"", 3),
    (b"PPSIMAGE 2 256\nO /a 1025\n", b"", 2),
    (b"PPSIMAGE 2 256\nE 1\n", b"", 2),
];

/// Sees that an engine is saved as that image.
fn assert_saved(rt: &impl Abort, alloc: Global, engine: &Engine, image: &[u8]) {
    let mut output = Vec::new(alloc);
    let saved = save(alloc, engine, &mut Device::new(&mut output));
    assert_eq!(rt; saved, Ok(image.len() as u64));
    assert_eq!(rt; output.as_slice(), image);
}

/// Sees that bytes are loaded and saved as that image, or are no image from that line on.
fn assert_case(rt: &impl Abort, alloc: Global, bytes: &[u8], image: &[u8], line: u64) {
    let mut input = bytes;
    match load(alloc, &mut Device::new(&mut input)) {
        Ok(engine) => {
            assert_eq!(rt; line, 0);
            assert_saved(rt, alloc, &engine, image);
        }
        Err(error) => assert_eq!(rt; bad_line(&error), Some(line)),
    }
}

/// The line at which bytes were no image.
fn bad_line(error: &LoadError) -> Option<u64> {
    match error {
        LoadError::BadImage { line } => Some(*line),
        _ => None,
    }
}

#[test]
fn images_are_loaded_and_saved(rt: HostRuntime) -> Result<(), Fail> {
    for (bytes, image, line) in CASES {
        assert_case(&rt, rt.alloc(), bytes, image, line);
    }
    Ok(())
}
