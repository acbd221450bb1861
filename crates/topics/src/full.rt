//! Clients that are owed as many messages of their server as they take.
ghost use Rattle.std.specs.Prelude.{◌≡◌, find, option_map};
ghost use Rattle.sub_reader.specs.Rows.{number_in, rows_in};
ghost use Rattle.topics.specs.QueueRows.{is_full_client};

use pps_types::{Handle, HandleKind};
use server_queue::{Queue, Sender};
use sub_reader::{HandleRow, Slot};

// Whether it is a client's, and is owed as many messages of its server as it takes.
fn is_full_client(row: &HandleRow<Queue>) -> bool
    ensures { result ≡ is_full_client row.now }
{
    matches!(row.opening.kind, HandleKind::Client) && !row.progress.can_take(Sender::Server)
}

/// The first client that is owed as many messages of its server as it takes.
pub(crate) fn find_full(slots: &[Slot<Queue>]) -> Option<Handle>
    ensures { result ≡ option_map number_in (find is_full_client (rows_in slots.now)) }
{
    'slots: for slot in slots {
        if let Slot::Row(row) = slot {
            if is_full_client(row) {
                return Some(row.opening.number);
            }
        }
    }
    None
}
