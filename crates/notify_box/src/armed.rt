//! An armed pulse.
ghost use Rattle.std.specs.Prelude.{◌≡◌};

use crate::rising::Numbered;
use pps_types::{Handle, Item};
use std::marker::Model;

/// A pulse that is armed on a handle: its code and its value.
#[derive(Clone, Copy, PartialEq, Eq)]
pub(crate) struct Armed {
    pub(crate) handle: Handle,
    pub(crate) code: u8,
    pub(crate) value: u32,
}

impl Model for Armed {
    ghost use Rattle.std.specs.Prelude.{ℕ};
    ghost use Rattle.pps_types.specs.Outbox.{PulseOf};

    ghost Value = { ℕ × PulseOf };

    ghost view = { λ a. (a.handle, (a.code, a.value)) };

    ghost inverse = { λ v. record { handle = v.0; code = v.1.0; value = v.1.1 } };
}

impl Armed {
    /// The pulse as it is queued.
    pub(crate) fn item(self) -> Item
        ensures { result ≡ Item.Pulse self.1.0 self.1.1 }
    {
        Item::Pulse {
            code: self.code,
            value: self.value,
        }
    }
}

impl Numbered for Armed {
    ghost number_of = { λ a. a.0 };

    fn number(&self) -> u32 {
        self.handle.number()
    }
}
