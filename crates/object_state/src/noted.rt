//! What is noted of names, while the lines of a write are gone through.
ghost use Rattle.std.specs.Prelude.{◌≡◌, ◌==◌, ◌↔◌, [], IsTrue, IfOk, OnOk, nat_eq};
ghost use Rattle.std.specs.Option.{option_copied};
ghost use Rattle.std.specs.Ordering.{as_partial_cmp, eq_of_both, on};
ghost use Rattle.std.specs.Cmp.{partial_order_from_own_ties};
ghost use Rattle.std.specs.Cmp.Rules.{comparing};
ghost use Rattle.std.proofs.Common.{rules};
ghost use lib.Pointwise.{pointwise};
ghost use Rattle.object_state.specs.Digest.{name_digest, name_order};
ghost use Rattle.object_state.specs.Effect.{noted_in};
ghost use Rattle.object_state.specs.Notes.{Notes};

use pps_filter::Name;
use pps_types::Bytes;
use std::alloc::{AllocError, Global};
use std::cmp::Ordering;
use std::collections::BTreeMap;
use std::marker::Model;

/// The bytes of a name as digits to the base 31, modulo 2 ^ 64.
fn digest_of(name: &[u8]) -> u64
    ensures { result ≡ name_digest name.now }
{
    name.iter().fold(0u64, |sum, byte| {
        sum.wrapping_mul(31).wrapping_add(u64::from(*byte))
    })
}

/// A name, in the order of its digest, and then of its bytes: those that differ are mostly told apart by one comparison
/// of numbers.
#[derive(Drop)]
pub(crate) struct OrderedName {
    digest: u64,
    name: Name,
}

impl Model for OrderedName {
    ghost use Rattle.std.specs.Prelude.{◌≡◌, List, ℕ};
    ghost use Rattle.object_state.specs.Digest.{name_digest};

    ghost Value = { List ℕ };

    ghost view = { λ a. a.name };

    ghost invariant = { λ a. a.digest ≡ name_digest a.name };
}

impl OrderedName {
    pub(crate) fn new(bytes: Bytes) -> OrderedName
        ensures { result ≡ bytes }
    {
        let digest = digest_of(bytes.as_slice());
        OrderedName {
            digest,
            name: Name::new(bytes),
        }
    }

    pub(crate) fn as_name(&self) -> &Name
        ensures { result.now ≡ self.now }
    {
        &self.name
    }
}

impl PartialEq for OrderedName {
    ghost eq = { eq_of_both (on name_digest ◌==◌) (pointwise nat_eq) };

    ghost laws = { Prim.search (comparing, rules) };

    fn eq(&self, other: &OrderedName) -> bool {
        self.digest == other.digest && self.name == other.name
    }
}

impl Eq for OrderedName {
    ghost laws = { Prim.search (comparing, rules) };
}

impl PartialOrd for OrderedName {
    ghost partial_cmp = { as_partial_cmp name_order };

    ghost laws = { partial_order_from_own_ties (Prim.search (comparing, rules)) (Prim.search (comparing, rules)) };

    fn partial_cmp(&self, other: &OrderedName) -> Option<Ordering> {
        Some(self.cmp(other))
    }
}

impl Ord for OrderedName {
    ghost cmp = { name_order };

    ghost total = { Prim.search (comparing, rules) };

    ghost matches_partial_cmp = { Prim.search (comparing, rules) };

    ghost matches_eq = { Prim.search (comparing, rules) };

    fn cmp(&self, other: &OrderedName) -> Ordering {
        if self.digest != other.digest {
            return self.digest.cmp(&other.digest);
        }
        self.name.as_slice().cmp(&other.name.as_slice())
    }
}

/// What was noted last of each name. It is found in as many steps as the logarithm of how many names there are, whatever
/// names these are.
#[derive(Drop)]
pub(crate) struct Noted<T> {
    by_name: BTreeMap<OrderedName, T>,
}

impl<T> Model for Noted<T> {
    ghost use Rattle.std.specs.Prelude.{List, ℕ};

    ghost Value = { List (List ℕ × T) };

    ghost view = { λ n. n.by_name.entries };
}

impl<T: Drop> Noted<T> {
    pub(crate) fn new(alloc: Global) -> Noted<T>
        ensures { result ≡ [] }
    {
        Noted {
            by_name: BTreeMap::new(alloc),
        }
    }

    /// Whether nothing was noted.
    pub(crate) fn is_empty(&self) -> bool
        ensures { IsTrue result ↔ (self.now ≡ []) }
    {
        self.by_name.is_empty()
    }

    pub(crate) fn get(&self, name: &OrderedName) -> Option<&T>
        ensures { option_copied result ≡ noted_in self.now name.now }
    {
        self.by_name.get(name)
    }

    /// Notes it in place of what was noted of that name, which it gives.
    pub(crate) fn insert(&mut self, name: OrderedName, value: T) -> Result<Option<T>, AllocError>
        ensures before { IfOk result (λ before. before ≡ noted_in self.old name) }
        ensures noted { OnOk result (Notes name value self.old self.new) }
    {
        Ok(self.by_name.insert(name, value)?)
    }
}
