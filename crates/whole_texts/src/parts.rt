//! A member's part of everything, and what stands before the members.
ghost use Rattle.std.specs.Prelude.{◌≡◌, ◌≤◌, length, vec_capacity, IfSome, IfNone, true, not, ◌&&◌};
ghost use Rattle.std.specs.Option.{option_to_list, ForSome};
ghost use Rattle.pps_types.specs.Reading as reading;
ghost use Rattle.pps_types.specs.Text as text;
ghost use Rattle.attr_text.specs.Printed.{HasRoomFor};
ghost use Rattle.whole_texts.specs.Lengths.{IsLenOf, IsTooLong, Gains};
ghost use Rattle.whole_texts.specs.Whole.{print_opening, marked_text, part_text};

use crate::member::Member;
use attr_text::{header_len, push_header};
use pps_filter::Filter;
use pps_types::HandleKind;
use sub_reader::is_directory_kind;

// The mark of an object's header where more was owed than the limit.
fn overflow_mark(over: bool) -> Option<u8>
    ensures is { option_to_list result ≡ reading.overflow_mark over }
    ensures marks { ForSome result (λ byte. text.is_header_mark byte ≡ true) }
{
    if over {
        return Some(b'!');
    }
    None
}

// The length of a header and of a member's attributes.
fn full_len(member: &Member<'_>, filter: Option<&Filter>, mark: Option<u8>) -> Option<usize>
    ensures some { IfSome result (IsLenOf (marked_text mark filter.entry member.now)) }
    ensures none { IfNone result (IsTooLong (marked_text mark filter.entry member.now)) }
{
    let header = header_len(mark, member.name())?;
    header.checked_add(member.lines_len(filter))
}

/// The length of a member's part of everything, where it is a length. It takes no memory.
pub(crate) fn member_len(
    kind: HandleKind,
    filter: Option<&Filter>,
    over: bool,
    alive: bool,
    member: &Member<'_>,
) -> Option<usize>
    ensures some { IfSome result (IsLenOf (part_text kind filter.entry over alive member.now)) }
    ensures none { IfNone result (IsTooLong (part_text kind filter.entry over alive member.now)) }
{
    match kind {
        HandleKind::Object { .. } => {
            if !alive {
                return header_len(Some(b'-'), member.name());
            }
            full_len(member, filter, overflow_mark(over))
        }
        HandleKind::Directory { .. } => full_len(member, filter, None),
        HandleKind::Names => header_len(None, member.name()),
        HandleKind::Server => Some(0),
        HandleKind::Client => Some(0),
    }
}

/// Whether it is an object's, which is not alive.
#[inline(always)]
pub(crate) fn is_dead(kind: HandleKind, alive: bool) -> bool
    ensures { result ≡ (not (reading.is_directory_kind kind) && not alive) }
{
    !is_directory_kind(kind) && !alive
}

/// The length of the line that tells of what the limit left out, where a directory's reader is told.
pub(crate) fn opening_len(kind: HandleKind, over: bool) -> usize
    ensures { result ≡ length (print_opening kind over) }
{
    match kind {
        HandleKind::Object { .. } => return 0,
        HandleKind::Server => return 0,
        HandleKind::Client => return 0,
        HandleKind::Directory { .. } => {}
        HandleKind::Names => {}
    }
    if over {
        return b"!@.all\n".len();
    }
    0
}

// Pushes a header and a member's attributes, for which there is room.
fn push_full(out: &mut Vec<u8>, member: &Member<'_>, filter: Option<&Filter>, mark: Option<u8>)
    requires marked { ForSome mark (λ byte. text.is_header_mark byte ≡ true) }
    requires room { HasRoomFor out.old (marked_text mark filter member.now) }
    ensures items { Gains out.old out.new (marked_text mark filter.entry member.now) }
    ensures capacity { vec_capacity out.old ≤ vec_capacity out.new }
{
    push_header(out, mark, member.name());
    member.push_lines(out, filter);
}

/// Pushes a member's part of everything, for which there is room. It takes no memory.
pub(crate) fn push_member(
    out: &mut Vec<u8>,
    kind: HandleKind,
    filter: Option<&Filter>,
    over: bool,
    alive: bool,
    member: &Member<'_>,
)
    requires { HasRoomFor out.old (part_text kind filter over alive member.now) }
    ensures items { Gains out.old out.new (part_text kind filter.entry over alive member.now) }
    ensures capacity { vec_capacity out.old ≤ vec_capacity out.new }
{
    match kind {
        HandleKind::Object { .. } => {
            if !alive {
                return push_header(out, Some(b'-'), member.name());
            }
            push_full(out, member, filter, overflow_mark(over))
        }
        HandleKind::Directory { .. } => push_full(out, member, filter, None),
        HandleKind::Names => push_header(out, None, member.name()),
        HandleKind::Server => {}
        HandleKind::Client => {}
    }
}

/// Pushes that line, for which there is room. It takes no memory.
pub(crate) fn push_opening(out: &mut Vec<u8>, kind: HandleKind, over: bool)
    requires { HasRoomFor out.old (print_opening kind over) }
    ensures items { Gains out.old out.new (print_opening kind over) }
    ensures capacity { vec_capacity out.old ≤ vec_capacity out.new }
{
    match kind {
        HandleKind::Object { .. } => return,
        HandleKind::Server => return,
        HandleKind::Client => return,
        HandleKind::Directory { .. } => {}
        HandleKind::Names => {}
    }
    if over {
        push_header(out, Some(b'!'), b".all");
    }
}
