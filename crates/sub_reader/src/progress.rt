//! How far a handle has read, as targets of several kinds keep it.
ghost use Rattle.std.specs.Prelude.{◌≡◌, ◌↔◌, ℕ, IsTrue, IfOk, IfErr};
ghost use Rattle.pps_types.specs.declared.refusal.Refusal.TheVariants.{OutOfMemory};
ghost use Rattle.sub_reader.specs.Alike.{place_from, queue_from};

use crate::place::Place;
use pps_types::Refusal;
use server_queue::Queue;

/// How far a handle has read: a place among records that handles share, or a queue of its own.
pub trait Progress: Drop {
    /// What stands of it, where the records of its target begin at a position.
    ghost told: { ℕ → Self → Self };

    /// The same once more, without room.
    ///
    /// OutOfMemory is the only error.
    fn copied(&self) -> Result<Self, Refusal>
        ensures ok { IfOk result (λ copy. told 0 copy ≡ told 0 self.now) }
        ensures err { IfErr result (λ r. r ≡ OutOfMemory) };

    /// Whether the same stands of both, each told from where the records of its target begin. It takes no memory.
    fn same_from(&self, start: u64, other: &Self, other_start: u64) -> bool
        ensures { IsTrue result ↔ (told start self.now ≡ told other_start other.now) };
}

// A place, told from where the records begin.
fn from_start(start: u64, place: Place) -> Place
    ensures { result ≡ place_from start place }
{
    match place {
        Place::At { first, owed } => Place::At {
            first: first.saturating_sub(start),
            owed,
        },
        _ => place,
    }
}

impl Progress for Place {
    ghost told = { place_from };

    fn copied(&self) -> Result<Place, Refusal> {
        Ok(*self)
    }

    fn same_from(&self, start: u64, other: &Place, other_start: u64) -> bool {
        from_start(start, *self) == from_start(other_start, *other)
    }
}

impl Progress for Queue {
    ghost told = { queue_from };

    fn copied(&self) -> Result<Queue, Refusal> {
        self.copy()
    }

    fn same_from(&self, _start: u64, other: &Queue, _other_start: u64) -> bool {
        self.same(other)
    }
}
