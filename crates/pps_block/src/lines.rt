//! The lines of a block: those that are all printed, and of others those that match.
ghost use Rattle.std.specs.Prelude.{◌≡◌, ◌≤◌, ◌+◌, ◌++◌, ◌^◌, is_some, length, take, vec_len, vec_capacity, IfSome, IfNone};
ghost use Rattle.pps_types.specs.Text as text;
ghost use Rattle.pps_block.specs.Matching.{some_match, matching_text, StartsWithMatch, HaveSameMatches};

use attr_text::{line_len, push_line, write_line};
use pps_filter::{Filter, matches};
use pps_types::HeldLine;

/// The lines from the first that matches on, where one does. It asks about no line behind that one.
#[inline]
pub(crate) fn from_first_match<'a>(
    filter: Option<&Filter>,
    lines: &'a [HeldLine],
) -> Option<&'a [HeldLine]>
    ensures matches { is_some result ≡ some_match filter.entry lines.now }
    ensures first { IfSome result (λ rest. StartsWithMatch filter.entry rest.now) }
    ensures same { IfSome result (λ rest. HaveSameMatches filter.entry rest.now lines.now) }
{
    let mut rest = lines;
    'rest: while let [line, after @ ..] = rest {
        if matches(filter, line) {
            return Some(rest);
        }
        rest = after;
    }
    None
}

/// How long lines are, printed, where that is a length. It takes no memory.
#[inline]
pub fn lines_len(lines: &[HeldLine]) -> Option<usize>
    ensures some { IfSome result (λ len. len ≡ length (text.print_lines lines.now)) }
    ensures none { IfNone result (2 ^ 64 ≤ length (text.print_lines lines.now)) }
{
    let mut total: usize = 0;
    'lines: for line in lines {
        total = total.checked_add(line_len(line)?)?;
    }
    Some(total)
}

/// How long the lines that match are, printed, where that is a length. It takes no memory.
#[inline]
pub(crate) fn matching_len(filter: Option<&Filter>, lines: &[HeldLine]) -> Option<usize>
    ensures some { IfSome result (λ len. len ≡ length (matching_text filter.entry lines.now)) }
    ensures none { IfNone result (2 ^ 64 ≤ length (matching_text filter.entry lines.now)) }
{
    let mut total: usize = 0;
    'lines: for line in lines {
        if matches(filter, line) {
            let len = line_len(line)?;
            total = total.checked_add(len)?;
        }
    }
    Some(total)
}

/// Pushes the printing of lines, for which there is room. It takes no memory.
#[inline]
pub(crate) fn push_lines(out: &mut Vec<u8>, lines: &[HeldLine])
    requires { vec_len out.old + length (text.print_lines lines.now) ≤ vec_capacity out.old }
    ensures items { out.new.items ≡ out.old.items ++ text.print_lines lines.now }
    ensures capacity { vec_capacity out.old ≤ vec_capacity out.new }
{
    'lines: for line in lines {
        push_line(out, line);
    }
}

/// Pushes the printing of the lines that match, for which there is room. It takes no memory.
#[inline]
pub(crate) fn push_matching(out: &mut Vec<u8>, filter: Option<&Filter>, lines: &[HeldLine])
    requires { vec_len out.old + length (matching_text filter lines.now) ≤ vec_capacity out.old }
    ensures items { out.new.items ≡ out.old.items ++ matching_text filter.entry lines.now }
    ensures capacity { vec_capacity out.old ≤ vec_capacity out.new }
{
    'lines: for line in lines {
        if matches(filter, line) {
            push_line(out, line);
        }
    }
}

/// Writes the printing of lines over the bytes from `start` on, and reports where it ends. It takes no memory.
#[inline]
pub(crate) fn write_lines(out: &mut [u8], start: usize, lines: &[HeldLine]) -> usize
    requires { start + length (text.print_lines lines.now) ≤ length out.old }
    ensures text { take result out.new ≡ take start out.old ++ text.print_lines lines.now }
    ensures end { result ≡ start + length (text.print_lines lines.now) }
{
    let mut at = start;
    'lines: for line in lines {
        at = write_line(out, at, line);
    }
    at
}

/// Writes the printing of the lines that match over the bytes from `start` on, and reports where it ends. It takes no
/// memory.
#[inline]
pub(crate) fn write_matching(
    out: &mut [u8],
    start: usize,
    filter: Option<&Filter>,
    lines: &[HeldLine],
) -> usize
    requires { start + length (matching_text filter lines.now) ≤ length out.old }
    ensures text { take result out.new ≡ take start out.old ++ matching_text filter.entry lines.now }
    ensures end { result ≡ start + length (matching_text filter.entry lines.now) }
{
    let mut at = start;
    'lines: for line in lines {
        if matches(filter, line) {
            at = write_line(out, at, line);
        }
    }
    at
}
