//! What a handle is given of a record, before it is put into an answer.
ghost use Rattle.std.specs.Prelude.{◌≡◌, ◌≤◌, ◌+◌, ◌++◌, ◌^◌, length, vec_len, vec_capacity, IfSome, IfNone};

use crate::entry::Entry;
use pps_block::Block;

/// What a handle is given of a record.
#[derive(Drop)]
pub enum Shown<'a> {
    /// A text that is printed already.
    Text(&'a [u8]),
    /// A block, which is printed when it is put.
    Block(Block<'a>),
}

impl<'a> Shown<'a> {
    ghost use Rattle.server_queue.specs.Shown.{printed_as};
    ghost use Rattle.server_queue.specs.Blocks.{queue_block};

    /// What a queue of a server object gives of a record. It takes no memory.
    pub(crate) fn in_queue(entry: &'a Entry) -> Shown<'a>
        ensures { printed_as entry.now.name result ≡ queue_block entry.now }
    {
        match Block::in_queue(&entry.record().kind) {
            None => Shown::Text(&[]),
            Some(block) => Shown::Block(block),
        }
    }

    /// How long it is, printed for the object of this record, if that is a length. It takes no memory.
    pub(crate) fn len(&self, entry: &Entry) -> Option<usize>
        ensures some { IfSome result (λ len. len ≡ length (printed_as entry.now.name self.now)) }
        ensures none { IfNone result (2 ^ 64 ≤ length (printed_as entry.now.name self.now)) }
    {
        match self {
            Shown::Text(text) => Some(text.len()),
            Shown::Block(block) => block.print_len(entry.name()),
        }
    }

    /// Pushes its printing for the object of this record, for which there is room. It takes no memory.
    pub(crate) fn push(&self, out: &mut Vec<u8>, entry: &Entry)
        requires { vec_len out.old + length (printed_as entry.now.name self.now) ≤ vec_capacity out.old }
        ensures items { out.new.items ≡ out.old.items ++ printed_as entry.now.name self.now }
    {
        match self {
            Shown::Text(text) => out.extend_from_slice(text).unwrap(),
            Shown::Block(block) => block.push(out, entry.name()),
        }
    }
}
