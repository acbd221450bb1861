//! Everything of a directory. Its length is told before any memory is taken.
ghost use Rattle.std.specs.Prelude.{◌≡◌, ◌≤◌, ◌^◌, true, length, IfOk, IfSome, IfNone};
ghost use Rattle.pps_types.specs.Reading as reading;
ghost use Rattle.pps_types.specs.Content.{member};
ghost use Rattle.name_table.specs.Standing.{known_of};
ghost use Rattle.whole_texts.specs.Whole.{print_opening};
ghost use Rattle.whole_texts.specs.Answered.{meant};
ghost use Rattle.handle_requests.specs.Directories.{members_of, part_len, parts_len, everything_len, whole_given, directory_answer};
ghost use Rattle.handle_requests.specs.Reads.{RefusesAs, LacksMemoryFor};

use name_table::{NamedObject, Objects};
use pps_filter::Filter;
use pps_types::{HandleKind, Refusal};
use server_queue::{GivenBlocks, too_small};
use std::alloc::{AllocError, Global};
use whole_texts::{Answer, Member, Whole, read_answer};

// An alive object.
fn member_of(object: &NamedObject) -> Member<'_>
    ensures { result ≡ member (known_of object.now) }
{
    Member::alive(object.name(), object.attributes())
}

// The length of an object's part of everything.
fn part_len(kind: HandleKind, filter: Option<&Filter>, object: &NamedObject) -> Option<usize>
    requires { reading.is_directory_kind kind ≡ true }
    ensures some { IfSome result (λ len. len ≡ part_len kind filter.entry object.now) }
    ensures none { IfNone result (2 ^ 64 ≤ part_len kind filter.entry object.now) }
{
    let members = [member_of(object)];
    Whole::new(kind, filter, false, true, &members).len()
}

// The length of the parts of all objects.
fn parts_len(kind: HandleKind, filter: Option<&Filter>, objects: &Objects<'_>) -> Option<usize>
    requires { reading.is_directory_kind kind ≡ true }
    ensures some { IfSome result (λ len. len ≡ parts_len kind filter.entry objects.now) }
    ensures none { IfNone result (2 ^ 64 ≤ parts_len kind filter.entry objects.now) }
{
    let mut total: usize = 0;
    'places: for place in 0..objects.len() {
        if let Some(object) = objects.get(place) {
            let len = part_len(kind, filter, object)?;
            total = total.checked_add(len)?;
        }
    }
    Some(total)
}

// The length of what stands before the parts.
fn opening_len(kind: HandleKind, filter: Option<&Filter>, over: bool) -> Option<usize>
    requires { reading.is_directory_kind kind ≡ true }
    ensures some { IfSome result (λ len. len ≡ length (print_opening kind over)) }
    ensures none { IfNone result (2 ^ 64 ≤ length (print_opening kind over)) }
{
    Whole::new(kind, filter, over, true, &[]).len()
}

// How many bytes everything has, where that is a number of 64 bits. It takes no memory.
fn everything_len(
    kind: HandleKind,
    filter: Option<&Filter>,
    over: bool,
    objects: &Objects<'_>,
) -> Option<usize>
    requires { reading.is_directory_kind kind ≡ true }
    ensures some { IfSome result (λ len. len ≡ everything_len kind filter.entry over objects.now) }
    ensures none { IfNone result (2 ^ 64 ≤ everything_len kind filter.entry over objects.now) }
{
    let opening = opening_len(kind, filter, over)?;
    let parts = parts_len(kind, filter, objects)?;
    opening.checked_add(parts)
}

// All objects, in their order.
fn members_of<'a>(alloc: Global, objects: &Objects<'a>) -> Result<Vec<Member<'a>>, AllocError>
    ensures { IfOk result (λ members. members.items ≡ members_of objects.now) }
{
    let mut members = Vec::new(alloc);
    'places: for place in 0..objects.len() {
        if let Some(object) = objects.get(place) {
            members.push(member_of(object))?;
        }
    }
    Ok(members)
}

// Everything, where at most so many bytes are read. It is TooSmall, with the size, where it does not fit, before any memory
// is taken; else OutOfMemory is the only error.
fn everything_of(
    alloc: Global,
    kind: HandleKind,
    filter: Option<&Filter>,
    over: bool,
    objects: &Objects<'_>,
    size: u32,
) -> Result<Vec<u8>, Refusal>
    requires { reading.is_directory_kind kind ≡ true }
    ensures ok { IfOk result (λ given. reading.Everything given.items
        ≡ whole_given kind filter.entry over objects.now size) }
    ensures refusal { RefusesAs result (whole_given kind filter.entry over objects.now size) }
    ensures memory { LacksMemoryFor result (whole_given kind filter.entry over objects.now size) }
{
    let Some(len) = everything_len(kind, filter, over, objects) else {
        return Err(Refusal::OutOfMemory);
    };
    if len > size as usize {
        return Err(too_small(Some(len)));
    }
    let members = members_of(alloc, objects)?;
    Whole::new(kind, filter, over, true, &members).print_sized(alloc, len)
}

/// What a read of a directory answers by what is owed: everything where no blocks are lent, and else the blocks, or where
/// there are none, that the read waits, if such reads wait, or nothing.
///
/// It is TooSmall, with the size, where everything does not fit, before any memory is taken; else OutOfMemory is the only
/// error, where everything is to be given.
pub(crate) fn answer_of(
    alloc: Global,
    kind: HandleKind,
    filter: Option<&Filter>,
    over: bool,
    objects: &Objects<'_>,
    waits: bool,
    size: u32,
    owed: Option<GivenBlocks>,
) -> Result<Answer, Refusal>
    requires { reading.is_directory_kind kind ≡ true }
    ensures ok { IfOk result (λ a. meant a
        ≡ directory_answer kind filter.entry over objects.now waits size owed) }
    ensures refusal { RefusesAs result
        (directory_answer kind filter.entry over objects.now waits size owed) }
    ensures memory { LacksMemoryFor result
        (directory_answer kind filter.entry over objects.now waits size owed) }
{
    match owed {
        None => match everything_of(alloc, kind, filter, over, objects, size) {
            Err(refusal) => Err(refusal),
            Ok(text) => Ok(Answer::Everything(text)),
        },
        Some(owed) => {
            let whole = Whole::new(kind, filter, over, true, &[]);
            read_answer(alloc, &whole, waits, size, Some(owed))
        }
    }
}
