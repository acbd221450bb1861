//! Copies of all that stands, and what is held of it.
ghost use Rattle.std.specs.Prelude.{◌≡◌, ◌↔◌, IsTrue, IfOk, IfErr};
ghost use Rattle.pps_types.specs.declared.refusal.Refusal.TheVariants.{OutOfMemory};
ghost use Rattle.service_state.specs.Tables.{content_in, AreAlike};
ghost use Rattle.service_state.specs.Places.{HoldsSameRecords, HoldsJustOwed};

use crate::tables::Tables;
use pps_types::Refusal;

impl Tables {
    /// Tables in which the same stands. Nothing is ready in them, and they have no room. OutOfMemory is the only error.
    pub fn copy(&self) -> Result<Tables, Refusal>
        ensures content { IfOk result (λ copy. content_in copy ≡ content_in self.now) }
        ensures kept { IfOk result (λ copy. HoldsSameRecords self.now.handles copy.handles) }
        ensures err { IfErr result (λ r. r ≡ OutOfMemory) }
    {
        let names = self.names.copy()?;
        let handles = self.handles.copy()?;
        let connections = self.connections.copy()?;
        Ok(Tables {
            default_limit: self.default_limit,
            records: self.records,
            names,
            handles,
            connections,
        })
    }

    // Whether each part is the same in both.
    fn has_same_parts(&self, other: &Tables) -> bool
        ensures { IsTrue result ↔ AreAlike self.now other.now }
    {
        self.default_limit == other.default_limit
            && self.records == other.records
            && self.names.same(&other.names)
            && self.handles.same(&other.handles)
            && self.connections.same(&other.connections)
    }

    /// Whether the same stands in both. It takes no memory.
    pub fn same(&self, other: &Tables) -> bool
        ensures { IsTrue result ↔ (content_in self.now ≡ content_in other.now) }
    {
        self.are_tied();
        other.are_tied();
        self.has_same_parts(other)
    }

    /// Does nothing. Its contract is the law that of each object and directory just those records are held that have to be
    /// kept: the longest rest that a handle on it is owed.
    pub fn holds_what_is_owed(&self)
        ensures { HoldsJustOwed self.now }
    {
        self.handles.is_exact();
    }
}
