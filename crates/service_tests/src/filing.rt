//! Images, loaded from files and saved to them. The files are in memory, so all that there is to know of them is known.

use pps_persist::{Contents, FileFault, ImageFiles, LoadError, load_from, save_to};
use pps_types::Device;
use std::alloc::Global;
use std::test::Fail;

/// The only file that can be read.
const NAME: &str = "/image";

const IMAGE: &[u8] = b"PPSIMAGE 2 8\nD /a\nO /a/b 1\nc::1\nE 2\n";

/// A file that was replaced.
#[derive(Drop)]
struct Replacement {
    file: String,
    bytes: Vec<u8>,
}

/// A file that can be read, and those that were replaced.
#[derive(Drop)]
struct MemoryFiles {
    image: &'static [u8],
    replaced: Vec<Replacement>,
    /// Whether there is no room for more.
    full: bool,
}

impl MemoryFiles {
    fn new(alloc: Global, image: &'static [u8]) -> MemoryFiles {
        MemoryFiles {
            image,
            replaced: Vec::new(alloc),
            full: false,
        }
    }
}

impl ImageFiles for MemoryFiles {
    ghost use Rattle.std.specs.Prelude.{◌≡◌, ◌≢◌, ◌⊎◌, map, string_bytes, Some, true};
    ghost use Rattle.service_tests.specs.declared.filing.TheConstants.{NAME};

    type Image = &'static [u8];

    ghost held = { λ it _. Some it.image.now };

    ghost replaced = { λ it. Some (map
        (λ r. record { file = string_bytes r.file; bytes = r.bytes.items }) it.replaced.items) };

    ghost may_fail = { λ it file. (it.full ≡ true) ⊎ (file ≢ NAME.now) };

    fn open(&self, file: &str) -> Result<&'static [u8], FileFault> {
        if file == NAME {
            return Ok(self.image);
        }
        Err(FileFault::Failed)
    }

    fn replace<C: Contents>(
        &mut self,
        alloc: Global,
        file: &str,
        contents: &C,
    ) -> Result<(), FileFault> {
        let file = String::from_str(alloc, file)?;
        let mut device = Device::new(Vec::new(alloc));
        // A vector takes no byte only for want of memory.
        if contents.write_to(alloc, &mut device).is_err() {
            return Err(FileFault::OutOfMemory);
        }
        if self.full {
            return Err(FileFault::Failed);
        }
        let bytes = device.into_inner();
        self.replaced.reserve(1)?;
        self.replaced.push_reserved(Replacement { file, bytes });
        Ok(())
    }
}

#[test]
fn what_was_loaded_is_saved(rt: HostRuntime) -> Result<(), Fail> {
    let mut files = MemoryFiles::new(rt.alloc(), IMAGE);
    match load_from(rt.alloc(), &files, NAME) {
        Err(error) => assert_eq!(rt; error, LoadError::OutOfMemory),
        Ok(engine) => {
            let saved = save_to(rt.alloc(), &mut files, "/saved", &engine);
            assert_eq!(rt; saved, Ok(()));
            assert_eq!(rt; files.replaced.len(), 1);
            for one in files.replaced.iter() {
                assert_eq!(rt; one.file.as_str(), "/saved");
                assert_eq!(rt; one.bytes.as_slice(), IMAGE);
            }
            files.full = true;
            let saved = save_to(rt.alloc(), &mut files, "/again", &engine);
            assert_eq!(rt; saved, Err(FileFault::Failed));
            assert_eq!(rt; files.replaced.len(), 1);
        }
    }
    Ok(())
}

#[test]
fn no_image_is_loaded(rt: HostRuntime) -> Result<(), Fail> {
    let files = MemoryFiles::new(rt.alloc(), b"PPSIMAGE 2 8\nE 1\n");
    let loaded = load_from(rt.alloc(), &files, NAME).err();
    assert_eq!(rt; loaded, Some(LoadError::BadImage { line: 2 }));
    let loaded = load_from(rt.alloc(), &files, "/other").err();
    assert_eq!(rt; loaded, Some(LoadError::ReadFault));
    Ok(())
}
