//! What the service answers, and what it queues.
ghost use Rattle.std.specs.Prelude.{◌≡◌, IfOk, OnErr, true};

use crate::numbers::Handle;
use crate::refusal::Refusal;
use crate::shared::SharedBytes;
use std::alloc::AllocError;

/// What waits in a connection's queue until it is received.
#[derive(Debug, PartialEq, Eq, Drop)]
pub enum Item {
    Pulse {
        code: u8,
        value: u32,
    },
    /// The late reply to a read that was parked.
    ReadDone {
        handle: Handle,
        result: Result<SharedBytes, Refusal>,
    },
}

/// What an event answers where it is not refused.
#[derive(Debug, PartialEq, Eq)]
pub enum Outcome {
    Done,
    Opened(Handle),
    Data(SharedBytes),
    Wrote(u32),
    Parked,
    Input(bool),
    Item(Item),
    Empty,
}

// Written out, since each crate that drops one would prove a derived drop anew, with those of all its parts.
impl Drop for Outcome {
    #[inline(always)]
    fn drop(self) {
        match self {
            Outcome::Done | Outcome::Parked | Outcome::Empty => {}
            Outcome::Opened(_) | Outcome::Wrote(_) | Outcome::Input(_) => {}
            Outcome::Data(_) => {}
            Outcome::Item(_) => {}
        }
    }
}

impl Item {
    ghost use Rattle.pps_types.specs.Outcome.{item_has_bytes};

    /// The same item once more. A share of its bytes may be refused memory; an item without bytes takes none.
    pub fn share(&self) -> Result<Item, AllocError>
        ensures ok { IfOk result (λ item. item ≡ self.now) }
        ensures err { OnErr result (item_has_bytes self.now ≡ true) }
    {
        match self {
            Item::Pulse { code, value } => Ok(Item::Pulse {
                code: *code,
                value: *value,
            }),
            Item::ReadDone { handle, result } => {
                let handle = *handle;
                let result = match result {
                    Ok(bytes) => Ok(bytes.share()?),
                    Err(refusal) => Err(*refusal),
                };
                Ok(Item::ReadDone { handle, result })
            }
        }
    }
}

impl Outcome {
    ghost use Rattle.pps_types.specs.Outcome.{has_bytes};

    /// The same outcome once more. A share of its bytes may be refused memory; an outcome without bytes takes none.
    pub fn share(&self) -> Result<Outcome, AllocError>
        ensures ok { IfOk result (λ outcome. outcome ≡ self.now) }
        ensures err { OnErr result (has_bytes self.now ≡ true) }
    {
        match self {
            Outcome::Done => Ok(Outcome::Done),
            Outcome::Opened(handle) => Ok(Outcome::Opened(*handle)),
            Outcome::Data(bytes) => Ok(Outcome::Data(bytes.share()?)),
            Outcome::Wrote(count) => Ok(Outcome::Wrote(*count)),
            Outcome::Parked => Ok(Outcome::Parked),
            Outcome::Input(now) => Ok(Outcome::Input(*now)),
            Outcome::Item(item) => Ok(Outcome::Item(item.share()?)),
            Outcome::Empty => Ok(Outcome::Empty),
        }
    }
}
