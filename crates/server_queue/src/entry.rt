//! Records that queues share.
ghost use Rattle.std.specs.Prelude.{◌≡◌, ◌↔◌, ◌+◌, ◌-◌, ◌≤◌, IsTrue, IfOk, length, take, drop};
ghost use Rattle.std.specs.Option.{option_copied};
ghost use Rattle.server_queue.specs.Printed.{printed_text, label, name_in};

use crate::printed::{labelled, object_lines};
use crate::same::{same_name, same_record};
use crate::sender::{Sender, said_by};
use pps_block::lines_len;
use pps_types::{Bytes, Record};
use std::alloc::{AllocError, Global};
use std::marker::Model;
use std::sync::Arc;

/// A record, with the directory and the name of its object.
#[derive(Drop)]
struct NamedRecord {
    directory: u64,
    /// The object's name; or, if the record has lines of the object, these as they are printed for all its handles that
    /// have no filter, with the name in their header.
    text: Bytes,
    made: Record,
    ghost labelled: { text ≡ label (name_in text made.kind) made.kind },
}

/// A record in the history, with the directory and the name of its object. Queues share it.
pub struct Entry {
    told: Arc<NamedRecord>,
}

// Written out, since each crate that drops one would prove a derived drop anew, with those of all its parts.
impl Drop for Entry {
    #[inline(always)]
    fn drop(self) {
        let Entry { told: _ } = self;
    }
}

impl Model for Entry {
    ghost use Rattle.std.specs.Arc.{arc_value};
    ghost use Rattle.pps_types.specs.History.{Entry as Held};
    ghost use Rattle.server_queue.specs.Printed.{name_in};

    ghost Value = { Held };

    ghost view = { λ a. record { directory = (arc_value a.told).directory; name = name_in (arc_value a.told).text (arc_value a.told).made.kind; record_of = (arc_value a.told).made } };
}

// The name in a text that begins with a header and ends with lines of so many bytes.
#[inline(always)]
fn name_between(text: &[u8], lines_len: usize) -> &[u8]
    requires { lines_len + 2 ≤ length text.now }
    ensures { result.now ≡ take (length text.now - (lines_len + 2)) (drop 1 text.now) }
{
    &text[1..text.len() - lines_len - 1]
}

impl Entry {
    ghost use Rattle.server_queue.specs.Senders.{client_messages_in};
    ghost use Rattle.server_queue.specs.Shared.{shared_entry};

    /// This record, so that it can be shared, with the number of the directory that its object is in, and the object's
    /// name. Lines of an object are printed, once for all handles.
    ///
    /// AllocError comes only where memory is wanting.
    pub fn new(
        alloc: Global,
        directory: u64,
        name: Bytes,
        made: Record,
    ) -> Result<Entry, AllocError>
        ensures { IfOk result (λ entry. entry ≡ shared_entry directory name made) }
    {
        let text = labelled(alloc, name, &made.kind)?;
        let told = Arc::new(
            alloc,
            NamedRecord {
                directory,
                text,
                made,
            },
        )?;
        Ok(Entry { told })
    }

    /// The number of the directory that its object is in.
    pub fn directory(&self) -> u64
        ensures { result ≡ self.now.directory }
    {
        self.told.directory
    }

    /// The name of its object, without the directory.
    pub fn name(&self) -> &[u8]
        ensures { result.now ≡ self.now.name }
    {
        let told = &*self.told;
        let text = told.text.as_slice();
        let Some(lines) = object_lines(&told.made.kind) else {
            return text;
        };
        let Some(len) = lines_len(lines) else {
            unreachable!();
        };
        name_between(text, len)
    }

    /// The record itself.
    pub fn record(&self) -> &Record
        ensures { result.now ≡ self.now.record_of }
    {
        &self.told.made
    }

    /// Its lines, where it has some of its object, as they are printed for a handle that has no filter.
    pub fn text(&self) -> Option<&[u8]>
        ensures { option_copied result ≡ printed_text self.now.name self.now.record_of.kind }
    {
        match object_lines(&self.told.made.kind) {
            None => None,
            Some(_) => Some(self.told.text.as_slice()),
        }
    }

    /// How many messages of clients it is: one, or none. A queue counts these by client.
    pub fn client_messages(&self) -> usize
        ensures { result ≡ client_messages_in self.now }
    {
        match said_by(&self.told.made.kind) {
            Some(Sender::Client(_)) => 1,
            _ => 0,
        }
    }

    /// Whether both are the same record, of an object of the same name in the same directory.
    pub fn same(&self, other: &Entry) -> bool
        ensures { IsTrue result ↔ (self.now ≡ other.now) }
    {
        self.directory() == other.directory()
            && same_name(self.name(), other.name())
            && same_record(self.record(), other.record())
    }

    /// One more share of the same record. A share may be refused memory.
    pub fn share(&self) -> Result<Entry, AllocError>
        ensures { IfOk result (λ entry. entry ≡ self.now) }
    {
        let told = Arc::try_clone(&self.told)?;
        Ok(Entry { told })
    }
}
