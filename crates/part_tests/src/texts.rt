use crate::samples::set_line;
use object_state::Object;
use pps_filter::read_filter;
use pps_types::{HandleKind, HeldLine, Kind, Lines, Refusal};
use server_queue::GivenBlocks;
use std::alloc::{AllocError, Global};
use std::process::Abort;
use std::test::Fail;
use whole_texts::{
    Effect, Listed, Member, Whole, after_record, answers_are_read, listing, listing_len,
    listings_are_told, read_answer,
};

/// A line that sets an attribute, without an encoding.
fn line(alloc: Global, name: &[u8], value: &[u8]) -> Result<HeldLine, Refusal> {
    set_line(alloc, name, b"", value, false)
}

/// An object with two attributes.
fn object(alloc: Global) -> Result<Object, Refusal> {
    let mut object = Object::new(alloc);
    let lines = [line(alloc, b"a", b"1")?, line(alloc, b"b", b"2")?];
    object.apply(&lines)?;
    Ok(object)
}

/// This is what is printed as a whole, and its length.
fn assert_prints(
    rt: &impl Abort,
    alloc: Global,
    whole: &Whole<'_>,
    wanted: &[u8],
    is_dead: bool,
) -> Result<(), Refusal> {
    assert_eq!(rt; whole.len(), Some(wanted.len()));
    assert_eq!(rt; whole.print(alloc)?.as_slice(), wanted);
    assert_eq!(rt; whole.is_dead(), is_dead);
    Ok(())
}

/// Everything of an object, also of one past its limit; and what a filter lets through.
#[test]
fn everything_of_an_object(rt: HostRuntime) -> Result<(), Fail> {
    let alloc = rt.alloc();
    let object = object(alloc)?;
    let members = [Member::alive(b"gps", &object)];
    let delta = HandleKind::Object { delta: true };
    let whole = Whole::new(delta, None, false, true, &members);
    assert_prints(&rt, alloc, &whole, b"@gps\na::1\nb::2\n", false)?;
    let over = Whole::new(delta, None, true, true, &members);
    assert_prints(&rt, alloc, &over, b"!@gps\na::1\nb::2\n", false)?;
    // a_filter_lets_some_through
    let filter = read_filter(alloc, b"b")?;
    let full = HandleKind::Object { delta: false };
    let some = Whole::new(full, Some(&filter), false, true, &members);
    assert_prints(&rt, alloc, &some, b"@gps\nb::2\n", false)?;
    Ok(())
}

#[test]
fn a_dead_object_is_told(rt: HostRuntime) -> Result<(), Fail> {
    let alloc = rt.alloc();
    let members = [Member::dead(b"gps")];
    assert_eq!(rt; members[0].name(), b"gps".as_slice());
    let kind = HandleKind::Object { delta: true };
    let whole = Whole::new(kind, None, true, false, &members);
    assert_prints(&rt, alloc, &whole, b"-@gps\n", true)?;
    let none = fitted(alloc, 0, b"")?;
    let refusal = read_answer(alloc, &whole, true, 100, Some(none)).err();
    assert_eq!(rt; refusal, Some(Refusal::Gone));
    Ok(())
}

/// Everything of a directory of two objects, if so many bytes are read.
fn directory(alloc: Global, kind: HandleKind, max: u32) -> Result<Vec<u8>, Refusal> {
    let object = object(alloc)?;
    let empty = Object::new(alloc);
    let members = [
        Member::alive(b"gps", &object),
        Member::alive(b"nav", &empty),
    ];
    let whole = Whole::new(kind, None, true, true, &members);
    whole.answer(alloc, max)
}

#[test]
fn everything_of_a_directory(rt: HostRuntime) -> Result<(), Fail> {
    let alloc = rt.alloc();
    let everything = directory(alloc, HandleKind::Directory { delta: true }, 100)?;
    assert_eq!(rt; everything.len(), 27);
    // names_of_a_directory
    let names = directory(alloc, HandleKind::Names, 17)?;
    assert_eq!(rt; names.as_slice(), b"!@.all\n@gps\n@nav\n".as_slice());
    // what_does_not_fit_is_needed
    let refusal = directory(alloc, HandleKind::Names, 16).err();
    assert_eq!(rt; refusal, Some(Refusal::TooSmall { need: 17 }));
    Ok(())
}

/// So many blocks that fit, of this text.
fn fitted(alloc: Global, count: usize, text: &[u8]) -> Result<GivenBlocks, AllocError> {
    Ok(GivenBlocks {
        count,
        text: text.to_vec(alloc)?,
    })
}

/// What a read of 100 bytes of an object without attributes leaves of its handle.
fn effect(alloc: Global, wait: bool, owed: Option<(usize, &[u8])>) -> Result<Effect, Refusal> {
    let object = Object::new(alloc);
    let members = [Member::alive(b"gps", &object)];
    let kind = HandleKind::Object { delta: true };
    let whole = Whole::new(kind, None, false, true, &members);
    let fitting = match owed {
        None => None,
        Some((count, text)) => Some(fitted(alloc, count, text)?),
    };
    Ok(read_answer(alloc, &whole, wait, 100, fitting)?.effect(100))
}

/// Whether a read waits, what fits of what is owed, and what the read leaves of its handle.
const EFFECTS: &[(bool, Option<(usize, &[u8])>, Effect)] = &[
    // everything_catches_up
    (true, None, Effect::CatchesUp),
    // blocks_are_passed
    (true, Some((1, b"@gps\na::1\n")), Effect::Advances(1)),
    // a_read_waits
    (true, Some((0, b"")), Effect::Parks(100)),
    // nothing_is_read
    (false, Some((0, b"")), Effect::Stays),
];

#[test]
fn answers_leave_handles_so(rt: HostRuntime) -> Result<(), Fail> {
    for (wait, owed, wanted) in EFFECTS {
        assert_eq!(rt; effect(rt.alloc(), *wait, *owed)?, *wanted);
    }
    answers_are_read();
    Ok(())
}

#[test]
fn a_listing_tells_directories_apart(rt: HostRuntime) -> Result<(), Fail> {
    let entries = [Listed::new(b"gps", false), Listed::new(b"nav", true)];
    assert_eq!(rt; listing_len(&entries), Some(9));
    let text = listing(rt.alloc(), &entries)?;
    assert_eq!(rt; text.as_slice(), b"gps\nnav/\n".as_slice());
    listings_are_told();
    Ok(())
}

/// The object's attributes have so many bytes after a record.
fn assert_has_after(
    rt: &impl Abort,
    alloc: Global,
    kind: &Kind,
    wanted: usize,
) -> Result<(), Refusal> {
    let object = object(alloc)?;
    let after = after_record(alloc, &object, kind)?;
    assert_eq!(rt; after.text_len(), wanted);
    Ok(())
}

/// An object is read as it will be: also drops and truncations are foreseen.
#[test]
fn an_object_is_read_as_it_will_be(rt: HostRuntime) -> Result<(), Fail> {
    let alloc = rt.alloc();
    let mut lines = Vec::new(alloc);
    lines.push(line(alloc, b"a", b"34")?)?;
    assert_has_after(&rt, alloc, &Kind::Change(Lines::new(lines)), 11)?;
    // drops_and_truncations_are_foreseen
    assert_has_after(&rt, alloc, &Kind::Dropped, 10)?;
    assert_has_after(&rt, alloc, &Kind::Truncated, 0)?;
    Ok(())
}
