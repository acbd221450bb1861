//! Blocks, before they are printed and as they are printed.
ghost use Rattle.std.specs.Prelude.{◌≡◌, ◌≤◌, ◌+◌, ◌++◌, ◌^◌, ◌∷◌, [], Some, true, length, take, vec_len, vec_capacity, IfSome, IfNone};
ghost use Rattle.std.specs.Option.{option_to_list, ForSome};
ghost use Rattle.pps_types.specs.Reading as reading;
ghost use Rattle.pps_types.specs.Text as text;
ghost use Rattle.pps_block.specs.Matching.{matching_in, StartsWithMatch};
ghost use Rattle.pps_block.specs.Printed.{header_for, printed_for};

use crate::lines::{
    lines_len, matching_len, push_lines, push_matching, write_lines, write_matching,
};
use attr_text::{
    client_header_len, header_len, push_client_header, push_header, write_client_header,
    write_header,
};
use pps_filter::Filter;
use pps_types::{Handle, HeldLine};
use std::marker::Model;

/// What a handle is given of a record, before it is printed. It has lines that are all printed, and after them lines of
/// which those are printed that match its filter. So the filter is not asked again about a line that is known to match.
///
/// A contract sees what it shows: the mark before `@`, what stands behind the object's name, and its lines.
#[derive(Drop)]
pub struct Block<'a> {
    mark: Option<u8>,
    client: Option<Handle>,
    // All of these are printed.
    given: &'a [HeldLine],
    // Of these, those that match the filter.
    more: &'a [HeldLine],
    filter: Option<&'a Filter>,
}

impl<'a> Model for Block<'a> {
    ghost use Rattle.pps_types.specs.Reading.{Shown};

    ghost Value = { Shown };

    ghost use Rattle.pps_block.specs.Inside.{shows, IsMarked};

    ghost view = { shows };

    ghost invariant = { IsMarked };
}

impl<'a> Block<'a> {
    // A header alone.
    pub(crate) fn header(mark: u8) -> Block<'a>
        requires { text.is_header_mark mark ≡ true }
        ensures { Some result ≡ reading.header_only (mark ∷ []) }
    {
        Block {
            mark: Some(mark),
            client: None,
            given: &[],
            more: &[],
            filter: None,
        }
    }

    // All of these lines.
    pub(crate) fn all(lines: &'a [HeldLine]) -> Block<'a>
        ensures { Some result ≡ reading.with_lines lines.now }
    {
        Block {
            mark: None,
            client: None,
            given: lines,
            more: &[],
            filter: None,
        }
    }

    // Lines of a server's client, or about it.
    pub(crate) fn of_client(mark: Option<u8>, client: Handle, lines: &'a [HeldLine]) -> Block<'a>
        requires { ForSome mark (λ byte. text.is_header_mark byte ≡ true) }
        ensures { Some result ≡ reading.with_client (option_to_list mark) client lines.now }
    {
        Block {
            mark,
            client: Some(client),
            given: lines,
            more: &[],
            filter: None,
        }
    }

    // The lines that match, of which the first is one. Without a filter each of them is.
    #[tactic(auto, using(crate::proofs::Kept::filter_none))]
    pub(crate) fn matching(filter: Option<&'a Filter>, lines: &'a [HeldLine]) -> Block<'a>
        requires { StartsWithMatch filter lines.now }
        ensures { Some result ≡ reading.with_lines (matching_in filter.entry lines.now) }
    {
        let known = if filter.is_some() { 1 } else { lines.len() };
        let (given, more) = lines.split_at(known);
        Block {
            mark: None,
            client: None,
            given,
            more,
            filter,
        }
    }

    #[inline]
    fn header_len(&self, name: &[u8]) -> Option<usize>
        ensures some { IfSome result (λ len. len ≡ length (header_for name.now self.now)) }
        ensures none { IfNone result (2 ^ 64 ≤ length (header_for name.now self.now)) }
    {
        match self.client {
            None => header_len(self.mark, name),
            Some(client) => client_header_len(self.mark, name, client),
        }
    }

    /// How long it is, printed for an object of that name, where that is a length. It takes no memory, and asks the
    /// filter about each of its lines at most once, and never about the first.
    #[inline]
    #[tactic(auto, using(crate::proofs::Printing::printing))]
    pub fn print_len(&self, name: &[u8]) -> Option<usize>
        ensures some { IfSome result (λ len. len ≡ length (printed_for name.now self.now)) }
        ensures none { IfNone result (2 ^ 64 ≤ length (printed_for name.now self.now)) }
    {
        let header = self.header_len(name)?;
        let given = lines_len(self.given)?;
        let more = matching_len(self.filter, self.more)?;
        header.checked_add(given)?.checked_add(more)
    }

    #[inline]
    fn push_header(&self, out: &mut Vec<u8>, name: &[u8])
        requires { vec_len out.old + length (header_for name.now self.now) ≤ vec_capacity out.old }
        ensures items { out.new.items ≡ out.old.items ++ header_for name.now self.now }
        ensures capacity { vec_capacity out.old ≤ vec_capacity out.new }
    {
        match self.client {
            None => push_header(out, self.mark, name),
            Some(client) => push_client_header(out, self.mark, name, client),
        }
    }

    /// Pushes its printing for an object of that name, for which there is room. It takes no memory, and asks the filter
    /// about each of its lines at most once, and never about the first.
    #[inline]
    #[tactic(auto, using(crate::proofs::Printing::printing))]
    pub fn push(&self, out: &mut Vec<u8>, name: &[u8])
        requires { vec_len out.old + length (printed_for name.now self.now) ≤ vec_capacity out.old }
        ensures items { out.new.items ≡ out.old.items ++ printed_for name.now self.now }
        ensures capacity { vec_capacity out.old ≤ vec_capacity out.new }
    {
        self.push_header(out, name);
        push_lines(out, self.given);
        push_matching(out, self.filter, self.more);
    }

    // Writes its header at the start.
    #[inline]
    fn write_header(&self, out: &mut [u8], name: &[u8]) -> usize
        requires { length (header_for name.now self.now) ≤ length out.old }
        ensures text { take result out.new ≡ header_for name.now self.now }
        ensures len { result ≡ length (header_for name.now self.now) }
    {
        match self.client {
            None => write_header(out, 0, self.mark, name),
            Some(client) => write_client_header(out, 0, self.mark, name, client),
        }
    }

    /// Writes its printing for an object of that name at the start of bytes that are at least as many, and reports how
    /// long it is. It takes no memory, and asks the filter about each of its lines at most once, and never about the
    /// first.
    #[inline]
    #[tactic(auto, using(crate::proofs::Printing::printing))]
    pub fn write(&self, out: &mut [u8], name: &[u8]) -> usize
        requires { length (printed_for name.now self.now) ≤ length out.old }
        ensures text { take result out.new ≡ printed_for name.now self.now }
        ensures len { result ≡ length (printed_for name.now self.now) }
    {
        let headed = self.write_header(out, name);
        let at = write_lines(out, headed, self.given);
        write_matching(out, at, self.filter, self.more)
    }
}
