//! Images: each is loaded and saved again.

use crate::chance::Chance;
use crate::digest::{Digest, Sums};
use crate::fault::Fault;
use crate::text::Text;
use pps_persist::{load, save};
use pps_types::Device;
use std::alloc::Global;

const DIRECTORIES: u32 = 100;

const OBJECTS_EACH: u32 = 250;

const ATTRIBUTES: [&[u8]; 6] = [
    b"brightness",
    b"color.temperature",
    b"locale",
    b"owner",
    b"room",
    b"volume",
];

const WORDS: [&[u8]; 4] = [
    b"living room",
    b"a text that is too long for its own place",
    b"on",
    b"warm white, dimmed",
];

// An object with some of the attributes.
fn object(text: &mut Text, chance: &mut Chance, directory: u32, number: u32) -> Result<(), Fault> {
    let count = 1 + chance.below(6);
    text.add(b"O /settings/group")?;
    text.add_number(directory.wrapping_add(100))?;
    text.add(b"/object")?;
    text.add_number(number.wrapping_add(100))?;
    text.add(b" ")?;
    text.add_number(count)?;
    text.add(b"\n")?;
    for name in ATTRIBUTES.iter().take(count as usize) {
        if chance.once_in(2) {
            text.set(name, chance.below(100_000))?;
        } else {
            text.add(name)?;
            text.add(b"::")?;
            text.add(chance.one_of(WORDS.as_slice()).copied().unwrap_or(b""))?;
            text.add(b"\n")?;
        }
    }
    Ok(())
}

// An image of 25,000 objects in 100 directories.
fn image(alloc: Global, chance: &mut Chance) -> Result<Text, Fault> {
    let mut text = Text::new(alloc);
    text.add(b"PPSIMAGE 2 256\nD /settings\n")?;
    for directory in 0..DIRECTORIES {
        text.add(b"D /settings/group")?;
        text.add_number(directory.wrapping_add(100))?;
        text.add(b"\n")?;
        for number in 0..OBJECTS_EACH {
            object(&mut text, chance, directory, number)?;
        }
    }
    text.add(b"E ")?;
    text.add_number(1 + DIRECTORIES * (1 + OBJECTS_EACH))?;
    text.add(b"\n")?;
    Ok(text)
}

/// So many images are loaded and saved, one behind the other.
pub(crate) fn kept(alloc: Global, chance: &mut Chance, rounds: u32) -> Result<Sums, Fault> {
    let mut writer = Device::new(Digest::new(alloc));
    for _ in 0..rounds {
        let text = image(alloc, chance)?;
        let mut reader = Device::new(text.as_slice());
        let engine = load(alloc, &mut reader)?;
        if writer.failed() {
            return Err(Fault::NotSaved);
        }
        save(alloc, &engine, &mut writer)?;
    }
    Ok(writer.into_inner().finish()?)
}
