//! Listings of directories.
ghost use Rattle.std.specs.Prelude.{◌≡◌, ◌≤◌, ◌<◌, length, vec_capacity, IfOk, IfSome, IfNone, OnErr, IsOkUnless};
ghost use Rattle.attr_text.specs.Printed.{HasRoomFor};
ghost use Rattle.whole_texts.specs.Lengths.{IsLenOf, IsTooLong, Gains};
ghost use Rattle.whole_texts.specs.Listed.{suffix, print_entry, print_listing, ListingsAreTold};

use pps_types::Refusal;
use std::alloc::Global;
use std::marker::Model;

/// What a directory holds: an object, or a directory, of that name.
///
/// A contract sees the name, and what stands behind it in a listing.
#[derive(Drop)]
pub struct Listed<'a> {
    name: &'a [u8],
    is_directory: bool,
}

impl<'a> Model for Listed<'a> {
    ghost use Rattle.std.specs.Prelude.{ℕ, List};
    ghost use Rattle.whole_texts.specs.Listed.{suffix};

    ghost Value = { List ℕ × List ℕ };

    ghost view = { λ e. (e.name.now, suffix e.is_directory) };
}

impl<'a> Listed<'a> {
    /// An object or a directory of that name.
    pub fn new(name: &'a [u8], is_directory: bool) -> Listed<'a>
        ensures { result ≡ (name.now, suffix is_directory) }
    {
        Listed { name, is_directory }
    }

    fn len(&self) -> Option<usize>
        ensures some { IfSome result (IsLenOf (print_entry self.now)) }
        ensures none { IfNone result (IsTooLong (print_entry self.now)) }
    {
        let behind: usize = if self.is_directory { 2 } else { 1 };
        behind.checked_add(self.name.len())
    }

    // Pushes its line, for which there is room.
    fn push(&self, out: &mut Vec<u8>)
        requires { HasRoomFor out.old (print_entry self.now) }
        ensures items { Gains out.old out.new (print_entry self.now) }
        ensures capacity { vec_capacity out.old ≤ vec_capacity out.new }
    {
        out.extend_from_slice(self.name).unwrap();
        if self.is_directory {
            out.push_reserved(b'/');
        }
        out.push_reserved(b'\n');
    }
}

/// How many bytes the listing of these has, where that is a number of 64 bits. It takes no memory.
pub fn listing_len(entries: &[Listed<'_>]) -> Option<usize>
    ensures some { IfSome result (IsLenOf (print_listing entries.now)) }
    ensures none { IfNone result (IsTooLong (print_listing entries.now)) }
{
    let mut total: usize = 0;
    'entries: for entry in entries {
        let len = entry.len()?;
        total = total.checked_add(len)?;
    }
    Some(total)
}

// Pushes the lines of these, for which there is room.
fn push_entries(out: &mut Vec<u8>, entries: &[Listed<'_>])
    requires { HasRoomFor out.old (print_listing entries.now) }
    ensures { Gains out.old out.new (print_listing entries.now) }
{
    'entries: for entry in entries {
        entry.push(out);
    }
}

/// The listing of these, in the order that they stand in: each name, a directory's with `/` behind it, and a line feed.
/// All memory is taken at once. OutOfMemory is the only error, and comes only where there are bytes.
pub fn listing(alloc: Global, entries: &[Listed<'_>]) -> Result<Vec<u8>, Refusal>
    ensures ok { IfOk result (λ printed. printed.items ≡ print_listing entries.now) }
    ensures err { IsOkUnless result Refusal.OutOfMemory }
    ensures lacking { OnErr result (0 < length (print_listing entries.now)) }
{
    let Some(len) = listing_len(entries) else {
        return Err(Refusal::OutOfMemory);
    };
    let Ok(mut out) = Vec::with_capacity(alloc, len) else {
        return Err(Refusal::OutOfMemory);
    };
    push_entries(&mut out, entries);
    Ok(out)
}

/// Does nothing. Its contract is the law that a directory's listing is that of its objects and directories, in byte
/// order of names.
pub fn listings_are_told()
    ensures { ListingsAreTold }
{}
