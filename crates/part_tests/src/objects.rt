//! The attributes of one object.

use crate::samples::{assert_met, deletion, set_line};
use attr_text::{read_single, read_write};
use object_state::{AttributeRef, Object};
use pps_filter::{Name, read_filter};
use pps_types::{Bytes, HeldLine, Refusal};
use std::alloc::{AllocError, Global};
use std::process::Abort;
use std::test::Fail;

/// Resolves the lines of a written text, and applies them.
fn write(alloc: Global, object: &mut Object, text: &[u8]) -> Result<(), Refusal> {
    let (_, lines) = read_write(alloc, text)?.into_parts();
    let lines = object.resolve(lines)?;
    object.apply(lines.as_slice())
}

/// An object that this was written to, and then that.
fn written(alloc: Global, first: &[u8], second: &[u8]) -> Result<Object, Refusal> {
    let mut object = Object::new(alloc);
    write(alloc, &mut object, first)?;
    write(alloc, &mut object, second)?;
    Ok(object)
}

/// Whether this is what is printed of the object, and its length.
fn prints(object: &Object, wanted: &[u8]) -> Result<bool, Refusal> {
    let printed = object.print(None)?;
    Ok(
        printed.as_slice() == wanted
            && object.print_len(None) == wanted.len()
            && object.text_len() == wanted.len(),
    )
}

/// Whether this is printed of the attributes that a filter lets through.
fn prints_some(
    alloc: Global,
    object: &Object,
    filter: &[u8],
    wanted: &[u8],
) -> Result<bool, Refusal> {
    let filter = read_filter(alloc, filter)?;
    let len = object.print_len(Some(&filter));
    let printed = object.print(Some(&filter))?;
    let mut out = Vec::with_capacity(alloc, len)?;
    object.push_print(&mut out, Some(&filter));
    Ok(len == wanted.len() && printed.as_slice() == wanted && out.as_slice() == wanted)
}

fn has(alloc: Global, object: &Object, name: &[u8]) -> Result<bool, AllocError> {
    Ok(object.has(&Name::new(Bytes::from_slice(alloc, name)?)))
}

/// Whether an object that this was written to, and then that, is the same or not.
fn same_as_written(
    alloc: Global,
    object: &Object,
    first: &[u8],
    second: &[u8],
    is: bool,
) -> Result<bool, Refusal> {
    let other = written(alloc, first, second)?;
    Ok(object.same(&other) == is && other.same(object) == is)
}

/// Makes the lines of a written text ready.
fn make_ready(alloc: Global, object: &mut Object, text: &[u8]) -> Result<(), Refusal> {
    let (_, lines) = read_write(alloc, text)?.into_parts();
    let lines = object.resolve(lines)?;
    object.apply_ready(lines.as_slice())
}

/// Makes them ready, and applies them then.
fn commit(alloc: Global, object: &mut Object, text: &[u8]) -> Result<(), Refusal> {
    let (_, lines) = read_write(alloc, text)?.into_parts();
    let lines = object.resolve(lines)?;
    object.apply_ready(lines.as_slice())?;
    object.apply_commit(lines.as_slice());
    Ok(())
}

/// The same of a text of one line, which is resolved alone.
fn commit_alone(alloc: Global, object: &mut Object, text: &[u8]) -> Result<(), Refusal> {
    let Some(line) = read_single(alloc, text)? else {
        return Err(Refusal::BadText { line: 1 });
    };
    let lines = [object.resolve_one(line)?];
    object.apply_ready(&lines)?;
    object.apply_commit(&lines);
    Ok(())
}

/// The name of that number.
fn numbered(number: u32) -> [u8; 3] {
    [
        b'a' + (number / 676 % 26) as u8,
        b'a' + (number / 26 % 26) as u8,
        b'a' + (number % 26) as u8,
    ]
}

/// A line on the attribute of that number: it sets a value of that length, nonpersistent where so, or it deletes.
#[derive(Clone, Copy)]
enum Change {
    Set(u32, usize),
    SetNonpersistent(u32, usize),
    Del(u32),
}

fn set(alloc: Global, number: u32, len: usize, n: bool) -> Result<HeldLine, Refusal> {
    let value = vec![in alloc; b'v'; len]?;
    set_line(alloc, &numbered(number), b"", value.as_slice(), n)
}

fn line_of(alloc: Global, change: Change) -> Result<HeldLine, Refusal> {
    match change {
        Change::Set(number, len) => set(alloc, number, len, false),
        Change::SetNonpersistent(number, len) => set(alloc, number, len, true),
        Change::Del(number) => Ok(deletion(alloc, &numbered(number))?),
    }
}

/// Lines that set the attributes of the numbers below the end, and then these.
fn lines_of(alloc: Global, end: u32, changes: &[Change]) -> Result<Vec<HeldLine>, Refusal> {
    let mut lines = Vec::new(alloc);
    for number in 0..end {
        lines.push(set(alloc, number, 1, false)?)?;
    }
    for change in changes {
        lines.push(line_of(alloc, *change)?)?;
    }
    Ok(lines)
}

fn apply(alloc: Global, object: &mut Object, end: u32, changes: &[Change]) -> Result<(), Refusal> {
    let lines = lines_of(alloc, end, changes)?;
    object.apply(lines.as_slice())
}

/// Whether lines are refused as too large. If memory was refused, that is the answer.
fn is_too_large(answer: Result<(), Refusal>) -> Result<bool, Refusal> {
    match answer {
        Ok(()) => Ok(false),
        Err(Refusal::TooLarge) => Ok(true),
        Err(refusal) => Err(refusal),
    }
}

/// Whether the object refuses the lines as too large, and is as it was.
fn refuses(
    alloc: Global,
    object: &mut Object,
    end: u32,
    changes: &[Change],
) -> Result<bool, Refusal> {
    let lines = lines_of(alloc, end, changes)?;
    let before = object.copy()?;
    let ready = object.apply_ready(lines.as_slice());
    if !object.same(&before) {
        return Ok(false);
    }
    let applied = object.apply(lines.as_slice());
    if !object.same(&before) {
        return Ok(false);
    }
    Ok(is_too_large(ready)? && is_too_large(applied)?)
}

/// A call of an object, or what it has to answer.
#[derive(Clone, Copy)]
enum Step {
    /// The object is one that this was written to, and then that, from here on.
    Written(&'static [u8], &'static [u8]),
    Write(&'static [u8]),
    /// The lines of a written text are made ready.
    MakeReady(&'static [u8]),
    /// They are made ready, and applied then.
    Commit(&'static [u8]),
    /// The same, of a line alone.
    CommitAlone(&'static [u8]),
    DropNonpersistent,
    Truncate,
    /// Lines that set the attributes of the numbers below the end are applied, and then these.
    Apply(u32, &'static [Change]),
    /// The other object is a copy of this one from here on.
    Copy,
    /// The steps after this one are of the other object.
    Swap,
    /// This is what is printed, and its length.
    Prints(&'static [u8]),
    /// This is printed of the attributes that a filter lets through.
    PrintsSome(&'static [u8], &'static [u8]),
    /// So many bytes are printed.
    PrintedLen(usize),
    TextLen(usize),
    Len(usize),
    IsEmpty(bool),
    Has(&'static [u8], bool),
    Attribute(usize, Option<AttributeRef<'static>>),
    /// The same lines as of `Apply` are refused as too large, and the object is as it was.
    Refuses(u32, &'static [Change]),
    /// Whether both objects are the same.
    Same(bool),
    /// Whether the object is the same as one that this was written to, and then that.
    SameAsWritten(&'static [u8], &'static [u8], bool),
}

/// An object and another.
#[derive(Drop)]
struct Pair {
    object: Object,
    other: Object,
}

/// Carries out a call. Whether the step is one.
fn is_carried_out(alloc: Global, pair: &mut Pair, step: Step) -> Result<bool, Refusal> {
    let object = &mut pair.object;
    match step {
        Step::Written(first, second) => *object = written(alloc, first, second)?,
        Step::Write(text) => write(alloc, object, text)?,
        Step::MakeReady(text) => make_ready(alloc, object, text)?,
        Step::Commit(text) => commit(alloc, object, text)?,
        Step::CommitAlone(text) => commit_alone(alloc, object, text)?,
        Step::DropNonpersistent => object.drop_nonpersistent(),
        Step::Truncate => object.truncate(),
        Step::Apply(end, changes) => apply(alloc, object, end, changes)?,
        Step::Copy => pair.other = object.copy()?,
        Step::Swap => std::mem::swap(&mut pair.object, &mut pair.other),
        _ => return Ok(false),
    }
    Ok(true)
}

/// Whether the object answers as the step says.
fn is_answered(alloc: Global, pair: &mut Pair, step: Step) -> Result<bool, Refusal> {
    let object = &mut pair.object;
    match step {
        Step::Prints(wanted) => prints(object, wanted),
        Step::PrintsSome(filter, wanted) => prints_some(alloc, object, filter, wanted),
        Step::PrintedLen(len) => Ok(object.print(None)?.len() == len),
        Step::TextLen(len) => Ok(object.text_len() == len),
        Step::Len(len) => Ok(object.len() == len),
        Step::IsEmpty(is) => Ok(object.is_empty() == is),
        Step::Has(name, is) => Ok(has(alloc, object, name)? == is),
        Step::Attribute(place, wanted) => Ok(object.attribute(place) == wanted),
        Step::Refuses(end, changes) => refuses(alloc, object, end, changes),
        Step::Same(is) => Ok(object.same(&pair.other) == is && pair.other.same(object) == is),
        Step::SameAsWritten(first, second, is) => same_as_written(alloc, object, first, second, is),
        _ => Ok(false),
    }
}

/// Steps under the name of what they show.
#[derive(Clone, Copy)]
struct Steps {
    name: &'static str,
    list: &'static [Step],
}

/// Plays the steps in turn, of two objects that begin empty.
fn play(rt: &impl Abort, alloc: Global, steps: &Steps) -> Result<(), Refusal> {
    let mut pair = Pair {
        object: Object::new(alloc),
        other: Object::new(alloc),
    };
    for (number, step) in steps.list.iter().enumerate() {
        let is_met = is_carried_out(alloc, &mut pair, *step)?
            || is_answered(alloc, &mut pair, *step)?;
        assert_met(rt, is_met, steps.name, number);
    }
    Ok(())
}

/// Steps of texts that are written.
const OF_TEXTS: &[Steps] = &[
    Steps {
        name: "lines_take_effect_in_turn_and_keep_the_order",
        list: &[
            Step::Written(b"[n]a::1\nb::2\nc::3\n", b"a::4\n"),
            Step::Prints(b"[n]a::4\nb::2\nc::3\n"),
            Step::Written(b"[n]a::4\nb::2\nc::3\n", b"-a\na::9\nb::7\n"),
            Step::Prints(b"b::7\nc::3\na::9\n"),
            Step::Written(b"b::7\nc::3\n", b"-b\n-x\nd:e:f:g\n"),
            Step::Prints(b"c::3\nd:e:f:g\n"),
            Step::Written(b"a::0\n", b"a::1\nb::2\na::3\n"),
            Step::Prints(b"a::3\nb::2\n"),
            Step::Written(b"a::0\nb::0\n", b"-a\na::1\n-a\n"),
            Step::Prints(b"b::0\n"),
            Step::Written(b"a::0\nb::0\n", b"-a\n-a\na::2\n"),
            Step::Prints(b"b::0\na::2\n"),
            Step::Written(b"a::0\n", b"[n]a::1\n-a\na::2\n"),
            Step::Prints(b"a::2\n"),
            Step::Written(b"", b"[n]b::1\n[-n]b::2\n[n]b::3\nb::4\n"),
            Step::Prints(b"[n]b::4\n"),
            Step::Written(b"[n]b::1\n", b"[-n]b::2\nb::3\n"),
            Step::Prints(b"b::3\n"),
        ],
    },
    Steps {
        name: "long_texts_are_applied_as_short_ones_are",
        list: &[
            Step::Commit(b"a::34567890123456789012345\nb::4567890123456789012345678\n"),
            Step::Prints(b"a::34567890123456789012345\nb::4567890123456789012345678\n"),
            Step::Commit(b"a::1\nb:a_long_encoding_of_27_bytes:2\n"),
            Step::Commit(b"[n]an_attribute_of_25_letters::1\nb::2\n"),
            Step::Prints(b"a::1\nb::2\n[n]an_attribute_of_25_letters::1\n"),
            Step::MakeReady(b"a_name_that_is_not_applied::1\n"),
            Step::Commit(b"a::3\n"),
            Step::Commit(b"-an_attribute_of_25_letters\nb::3\n"),
            Step::Prints(b"a::3\nb::3\n"),
        ],
    },
    Steps {
        name: "the_mark_of_a_line_alone_is_that_of_its_attribute",
        list: &[
            Step::Commit(b"a::1\n"),
            Step::CommitAlone(b"a::2\n"),
            Step::Prints(b"a::2\n"),
            Step::CommitAlone(b"[n]b::1\n"),
            Step::CommitAlone(b"b::2\n"),
            Step::CommitAlone(b"a::3\n"),
            Step::Prints(b"a::3\n[n]b::2\n"),
            Step::Copy,
            Step::DropNonpersistent,
            Step::CommitAlone(b"b::3\n"),
            Step::Prints(b"a::3\nb::3\n"),
            Step::Swap,
            Step::CommitAlone(b"b::3\n"),
            Step::Prints(b"a::3\n[n]b::3\n"),
            Step::CommitAlone(b"[-n]b::4\n"),
            Step::CommitAlone(b"-a\n"),
            Step::Prints(b"b::4\n"),
        ],
    },
    Steps {
        name: "attributes_are_found_by_their_names",
        list: &[
            Step::Written(b"c::3\n", b"[n]d:e:f:g\n"),
            Step::Has(b"d", true),
            Step::Has(b"e", false),
        ],
    },
    Steps {
        name: "attributes_are_lent_by_their_places",
        list: &[
            Step::Written(b"c::3\n", b"[n]d:e:f:g\n"),
            Step::Attribute(
                1,
                Some(AttributeRef {
                    name: b"d",
                    enc: b"e",
                    value: b"f:g",
                    n: true,
                }),
            ),
            Step::Attribute(2, None),
            Step::Len(2),
        ],
    },
    Steps {
        name: "those_that_match_are_printed",
        list: &[
            Step::Written(b"speed:n:61\n[n]alt::9\n", b"city::Rome\n"),
            Step::PrintsSome(b"speed>60+city", b"speed:n:61\ncity::Rome\n"),
            Step::PrintsSome(b"alt", b"[n]alt::9\n"),
            Step::PrintsSome(b"speed>61", b""),
            Step::PrintsSome(b"city!=Ottawa+alt=9", b"[n]alt::9\ncity::Rome\n"),
            Step::PrintsSome(b"alt=8+none+alt<10+alt", b"[n]alt::9\n"),
            Step::PrintsSome(
                b"city+alt+speed+city",
                b"speed:n:61\n[n]alt::9\ncity::Rome\n",
            ),
        ],
    },
    Steps {
        name: "nonpersistent_attributes_are_dropped_and_not_from_a_copy",
        list: &[
            Step::Written(b"a::1\n[n]b::2\n", b"c::3\n[n]d::4\n"),
            Step::Copy,
            Step::DropNonpersistent,
            Step::Prints(b"a::1\nc::3\n"),
            Step::Swap,
            Step::Prints(b"a::1\n[n]b::2\nc::3\n[n]d::4\n"),
        ],
    },
    Steps {
        name: "a_copy_is_the_same_until_one_is_changed",
        list: &[
            Step::Written(b"a::1\n[n]b::2\n", b"c::3\n[n]d::4\n"),
            Step::Copy,
            Step::DropNonpersistent,
            Step::Same(false),
            Step::Swap,
            Step::Copy,
            Step::Same(true),
        ],
    },
    Steps {
        name: "a_dropped_attribute_comes_back_at_the_end",
        list: &[
            Step::Written(b"a::1\n[n]b::2\n", b"c::3\n[n]d::4\n"),
            Step::DropNonpersistent,
            Step::Write(b"b::5\n"),
            Step::Prints(b"a::1\nc::3\nb::5\n"),
        ],
    },
    // The other object is a new one.
    Steps {
        name: "a_truncated_object_is_as_a_new_one",
        list: &[
            Step::Written(b"a::1\n[n]b::2\n", b"c::3\n"),
            Step::Truncate,
            Step::IsEmpty(true),
            Step::Same(true),
            Step::Write(b"z::1\n"),
            Step::Prints(b"z::1\n"),
        ],
    },
    Steps {
        name: "what_was_made_ready_is_applied_at_the_commit",
        list: &[
            Step::Written(b"a::1\n", b"b::2\n"),
            Step::MakeReady(b"d::5\n"),
            Step::Prints(b"a::1\nb::2\n"),
            Step::Commit(b"-a\nc::3\nb::4\n"),
            Step::Prints(b"b::4\nc::3\n"),
        ],
    },
    Steps {
        name: "same_tells_order_marks_and_values_apart",
        list: &[
            Step::Written(b"a:x:1\n", b"b::2\n"),
            Step::SameAsWritten(b"b::9\n-b\n", b"b::2\na:x:1\n", false),
            Step::SameAsWritten(b"b::9\n-b\n", b"a:x:1\nb::3\n", false),
            Step::SameAsWritten(b"b::9\n-b\n", b"a:y:1\nb::2\n", false),
            Step::SameAsWritten(b"b::9\n-b\n", b"c:x:1\nb::2\n", false),
            Step::SameAsWritten(b"b::9\n-b\n", b"[n]a:x:1\nb::2\n", false),
            Step::SameAsWritten(b"b::9\n-b\n", b"a:x:1\nb::2\n", true),
        ],
    },
];

#[test]
fn objects_answer_in_turn(rt: HostRuntime) -> Result<(), Fail> {
    for steps in OF_TEXTS {
        play(&rt, rt.alloc(), steps)?;
    }
    Ok(())
}

/// Writes the text, and once more if memory was refused. After a refusal the object is as it was.
fn write_again(
    rt: &impl Abort,
    alloc: Global,
    object: &mut Object,
    text: &[u8],
) -> Result<(), Refusal> {
    let before = object.copy()?;
    if write(alloc, object, text) != Err(Refusal::OutOfMemory) {
        return Ok(());
    }
    assert!(rt; object.same(&before));
    write(alloc, object, text)
}

/// Run with requests for memory refused (`tools/refuse_in_tests`).
#[test]
fn a_write_without_memory_leaves_the_object(rt: HostRuntime) -> Result<(), Fail> {
    let mut object = Object::new(rt.alloc());
    let texts: [&[u8]; 4] = [
        b"a::1\n[n]b::2\nc::3\n",
        b"a::4\n-b\nd::5\n",
        b"b::6\n-x\n-a\na::7\n",
        b"e::1\nf::2\ng::3\nh::4\ni::5\nj::6\nk::7\n",
    ];
    for text in texts {
        write_again(&rt, rt.alloc(), &mut object, text)?;
    }
    let wanted = b"c::3\nd::5\nb::6\na::7\ne::1\nf::2\ng::3\nh::4\ni::5\nj::6\nk::7\n";
    assert!(rt; prints(&object, wanted)?);
    Ok(())
}

const A_FULL_OBJECT: Steps = Steps {
    name: "a_full_object_takes_others_for_those_that_it_deletes",
    list: &[
        Step::Apply(1024, &[]),
        Step::Refuses(0, &[Change::Set(2000, 1)]),
        Step::Refuses(
            0,
            &[Change::Del(5), Change::Set(2000, 1), Change::Set(2001, 1)],
        ),
        Step::Apply(0, &[Change::Set(2000, 1), Change::Del(5)]),
        Step::Len(1024),
        Step::Apply(0, &[Change::SetNonpersistent(2000, 2), Change::Set(7, 3)]),
        Step::Len(1024),
        // Each line has 7 bytes, but for these two.
        Step::TextLen(7174),
    ],
};

#[test]
fn a_full_object_takes_others_for_those_that_it_deletes(rt: HostRuntime) -> Result<(), Fail> {
    play(&rt, rt.alloc(), &A_FULL_OBJECT)?;
    Ok(())
}

const OF_1025_ATTRIBUTES: Steps = Steps {
    name: "a_write_of_1025_attributes_has_to_delete_one",
    list: &[
        Step::Refuses(1025, &[]),
        Step::IsEmpty(true),
        Step::Apply(1025, &[Change::Del(3)]),
        Step::Len(1024),
    ],
};

#[test]
fn a_write_of_1025_attributes_has_to_delete_one(rt: HostRuntime) -> Result<(), Fail> {
    play(&rt, rt.alloc(), &OF_1025_ATTRIBUTES)?;
    Ok(())
}

/// Steps at the limit on bytes.
const OF_BYTES: &[Steps] = &[
    Steps {
        name: "printed_lines_have_up_to_65536_bytes",
        list: &[
            Step::Refuses(0, &[Change::Set(1, 65_531)]),
            Step::Apply(0, &[Change::Set(1, 65_530)]),
            Step::PrintedLen(65_536),
        ],
    },
    Steps {
        name: "printed_lines_have_up_to_65536_bytes, with a mark",
        list: &[
            Step::Refuses(0, &[Change::SetNonpersistent(1, 65_528)]),
            Step::Apply(0, &[Change::SetNonpersistent(1, 65_527)]),
            Step::PrintedLen(65_536),
        ],
    },
    Steps {
        name: "the_limit_on_bytes_is_that_after_all_lines",
        list: &[
            Step::Apply(0, &[Change::Set(1, 65_530)]),
            Step::Refuses(0, &[Change::Set(2, 0)]),
            Step::Apply(0, &[Change::Set(2, 65_520), Change::Set(1, 4)]),
            Step::TextLen(65_536),
            Step::Apply(0, &[Change::Set(3, 65_530), Change::Del(1), Change::Del(2)]),
            Step::Refuses(0, &[Change::Del(3), Change::Set(3, 65_531)]),
            Step::TextLen(65_536),
        ],
    },
];

#[test]
fn printed_lines_have_up_to_65536_bytes(rt: HostRuntime) -> Result<(), Fail> {
    for steps in OF_BYTES {
        play(&rt, rt.alloc(), steps)?;
    }
    Ok(())
}
