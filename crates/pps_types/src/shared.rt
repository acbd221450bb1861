//! Bytes that several values share. A contract sees them as a list.
ghost use Rattle.std.specs.Prelude.{◌≡◌, ◌↔◌, IfOk, IsTrue, [], length, nat_eq};
ghost use Rattle.std.proofs.Common.{rules};
ghost use Rattle.std.specs.Cmp.Rules.{comparing};
ghost use lib.Pointwise.{pointwise};

use std::alloc::{AllocError, Global};
use std::marker::Model;
use std::sync::Arc;

/// Where shared bytes are.
#[derive(Debug, Drop)]
enum Held {
    /// There are none, and no memory is taken for them.
    Nothing,
    Shared(Arc<Vec<u8>>),
}

/// Bytes that several values share. No bytes take no memory.
#[derive(Debug)]
pub struct SharedBytes {
    held: Held,
}

// Written out, since each crate that drops one would prove a derived drop anew, with those of all its parts.
impl Drop for SharedBytes {
    #[inline(always)]
    fn drop(self) {
        let SharedBytes { held: _ } = self;
    }
}

impl Model for SharedBytes {
    ghost use Rattle.std.specs.Prelude.{List, ℕ};
    ghost use Rattle.pps_types.specs.HeldBytes.{shared_bytes};

    ghost Value = { List ℕ };

    ghost view = { λ a. shared_bytes a.held };
}

impl SharedBytes {
    /// These bytes, so that they can be shared.
    pub fn new(alloc: Global, content: Vec<u8>) -> Result<SharedBytes, AllocError>
        ensures { IfOk result (λ shared. shared ≡ content.items) }
    {
        if content.is_empty() {
            return Ok(SharedBytes {
                held: Held::Nothing,
            });
        }
        let content = Arc::new(alloc, content)?;
        Ok(SharedBytes {
            held: Held::Shared(content),
        })
    }

    pub fn as_slice(&self) -> &[u8]
        ensures { result.now ≡ self.now }
    {
        match &self.held {
            Held::Nothing => &[],
            Held::Shared(content) => content.as_slice(),
        }
    }

    pub fn len(&self) -> usize
        ensures { result ≡ length self.now }
    {
        self.as_slice().len()
    }

    pub fn is_empty(&self) -> bool
        ensures { IsTrue result ↔ (self.now ≡ []) }
    {
        self.as_slice().is_empty()
    }

    /// One more share of the same bytes. A share may be refused memory.
    pub fn share(&self) -> Result<SharedBytes, AllocError>
        ensures { IfOk result (λ shared. shared ≡ self.now) }
    {
        let held = match &self.held {
            Held::Nothing => Held::Nothing,
            Held::Shared(content) => Held::Shared(Arc::try_clone(content)?),
        };
        Ok(SharedBytes { held })
    }
}

impl PartialEq for SharedBytes {
    ghost eq = { pointwise nat_eq };

    ghost laws = { Prim.search (comparing, rules) };

    fn eq(&self, other: &SharedBytes) -> bool {
        self.as_slice() == other.as_slice()
    }
}

impl Eq for SharedBytes {
    ghost laws = { Prim.search (comparing, rules) };
}
