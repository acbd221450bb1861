//! Filters, and which lines they match.
ghost use Rattle.std.specs.Prelude.{◌≡◌, ◌↔◌, List, IfOk, IsTrue, IsOkUnless};
ghost use Rattle.std.specs.Option.{option_copied};
ghost use Rattle.pps_types.specs.Filter as meant;
ghost use Rattle.pps_types.specs.Filter.{part_matches};
ghost use Rattle.pps_filter.specs.Seen.{condition_seen, part_seen, line_setting, some_part_matches};

use crate::name::Name;
use crate::number::whole_number;
use pps_types::{Bytes, HeldLine, Line, LineRef, Refusal};
use std::alloc::{AllocError, Global};
use std::marker::Model;

/// What a filter asks of a value.
#[derive(Debug, PartialEq, Eq, Drop)]
pub(crate) enum Condition {
    Always,
    IsValue(Bytes),
    IsOtherValue(Bytes),
    IsBelow(i64),
    IsAbove(i64),
}

impl Condition {
    fn is_met_by(&self, value: &[u8]) -> bool
        ensures { result ≡ meant.value_meets (condition_seen self.now) value.now }
    {
        match self {
            Condition::Always => true,
            Condition::IsValue(wanted) => value == wanted.as_slice(),
            Condition::IsOtherValue(unwanted) => value != unwanted.as_slice(),
            Condition::IsBelow(bound) => whole_number(value).is_some_and(|number| number < *bound),
            Condition::IsAbove(bound) => whole_number(value).is_some_and(|number| number > *bound),
        }
    }

    fn copy(&self) -> Result<Condition, AllocError>
        ensures { IfOk result (λ copy. copy ≡ self.now) }
    {
        match self {
            Condition::Always => Ok(Condition::Always),
            Condition::IsValue(wanted) => Ok(Condition::IsValue(wanted.copy()?)),
            Condition::IsOtherValue(unwanted) => Ok(Condition::IsOtherValue(unwanted.copy()?)),
            Condition::IsBelow(bound) => Ok(Condition::IsBelow(*bound)),
            Condition::IsAbove(bound) => Ok(Condition::IsAbove(*bound)),
        }
    }
}

/// What a filter asks of the attributes of one name.
#[derive(Debug, PartialEq, Eq, Drop)]
pub struct Part {
    pub(crate) name: Name,
    pub(crate) condition: Condition,
}

impl Part {
    /// The name of the attributes that it asks about.
    pub fn name(&self) -> &Name
        ensures { result.now ≡ (part_seen self.now).name }
    {
        &self.name
    }

    /// Whether the value of an attribute of its name meets it. It takes no memory.
    pub fn is_met_by(&self, value: &[u8]) -> bool
        ensures { result ≡ meant.value_meets (part_seen self.now).condition value.now }
    {
        self.condition.is_met_by(value)
    }

    fn matches_removal(&self, name: &[u8]) -> bool
        ensures { result ≡ part_matches (Line.Del name.now) (part_seen self.now) }
    {
        name == self.name.as_slice()
    }

    fn matches_set(&self, name: &[u8], value: &[u8]) -> bool
        ensures { result ≡ part_matches (line_setting name.now value.now) (part_seen self.now) }
    {
        name == self.name.as_slice() && self.condition.is_met_by(value)
    }

    fn copy(&self) -> Result<Part, AllocError>
        ensures { IfOk result (λ copy. copy ≡ self.now) }
    {
        Ok(Part {
            name: self.name.clone()?,
            condition: self.condition.copy()?,
        })
    }
}

fn any_matches_removal(parts: &[Part], name: &[u8]) -> bool
    ensures { result ≡ some_part_matches (Line.Del name.now) parts.now }
{
    parts.iter().any(|part| part.matches_removal(name))
}

fn any_matches_set(parts: &[Part], name: &[u8], value: &[u8]) -> bool
    ensures { result ≡ some_part_matches (line_setting name.now value.now) parts.now }
{
    parts.iter().any(|part| part.matches_set(name, value))
}

fn are_same(parts: &[Part], others: &[Part]) -> bool
    ensures { IsTrue result ↔ (parts.now ≡ others.now) }
{
    parts == others
}

/// Which lines a subscriber is given. It matches a line where one of its parts does.
#[derive(Debug)]
pub struct Filter {
    parts: Vec<Part>,
}

// Written out, since each crate that drops one would prove a derived drop anew, with those of all its parts.
impl Drop for Filter {
    #[inline(always)]
    fn drop(self) {
        let Filter { parts: _ } = self;
    }
}

impl Model for Filter {
    ghost use Rattle.std.specs.Prelude.{List};
    ghost use Rattle.pps_types.specs.Filter.{Part as PartMeant};
    ghost use Rattle.pps_filter.specs.Seen.{parts_seen};

    ghost Value = { List PartMeant };

    ghost view = { λ a. parts_seen a.parts.items };
}

impl Filter {
    ghost use Rattle.pps_filter.specs.Seen.{parts_seen};

    pub(crate) fn new(parts: Vec<Part>) -> Filter
        ensures { result ≡ parts_seen parts.items }
    {
        Filter { parts }
    }

    /// Its parts, of which one has to match.
    pub fn parts(&self) -> &[Part]
        ensures { parts_seen result.now ≡ self.now }
    {
        self.parts.as_slice()
    }

    /// Whether one of its parts matches the line. It takes no memory.
    ///
    /// A part `name` matches every set line of that name, `name=v` and `name!=v` those whose value is `v`, or is not.
    /// `name<i` and `name>i` match those whose value is a whole number below or above `i`. A removal matches wherever
    /// a part has its name. Filters are QNX's (PPS Developer's Guide, filtering); the operators are our own.
    pub fn matches(&self, line: &HeldLine) -> bool
        ensures { result ≡ meant.matches (Some self.now) line.now }
    {
        match line.parts() {
            LineRef::Set { name, content } => {
                any_matches_set(self.parts.as_slice(), name, content.value())
            }
            LineRef::Del { name } => any_matches_removal(self.parts.as_slice(), name),
        }
    }

    /// A copy of its own, which matches the same lines.
    pub fn copy(&self) -> Result<Filter, Refusal>
        ensures ok { IfOk result (λ copy. copy ≡ self.now) }
        ensures err { IsOkUnless result Refusal.OutOfMemory }
    {
        let alloc: Global = *self.parts.allocator();
        let mut parts = Vec::with_capacity(alloc, self.parts.len())?;
        for part in &self.parts {
            parts.push(part.copy()?)?;
        }
        Ok(Filter { parts })
    }

    /// Whether the two have the same parts in the same order. It takes no memory.
    pub fn same(&self, other: &Filter) -> bool
        ensures { IsTrue result ↔ (self.now ≡ other.now) }
    {
        are_same(self.parts.as_slice(), other.parts.as_slice())
    }
}

/// Whether the filter matches the line. Without a filter every line matches. It takes no memory.
pub fn matches(filter: Option<&Filter>, line: &HeldLine) -> bool
    ensures { result ≡ meant.matches (option_copied filter.entry) line.now }
{
    match filter {
        None => true,
        Some(filter) => filter.matches(line),
    }
}
