//! One object's attributes.
ghost use Rattle.std.specs.Prelude.{◌≡◌, ◌^◌, ◌+◌, ◌≤◌, ◌<◌, ◌++◌, ◌↔◌, IsTrue, IfOk, OnOk, OnErr, IsOkUnless, None, [], option_map, slice_get, length, vec_len, vec_capacity};
ghost use Rattle.std.specs.List.{list_any};
ghost use Rattle.pps_types.specs.Bytes.{same};
ghost use Rattle.pps_types.specs.History.{text_length, persistent, resolve, resolved};
ghost use Rattle.pps_types.specs.Names as names;
ghost use Rattle.object_state.specs.Entries.{attribute_of};
ghost use Rattle.object_state.specs.Lent.{lent};
ghost use Rattle.object_state.specs.Held.{matching_text, AppliesLines, IsReadyFor};
ghost use Rattle.object_state.specs.Limits.{lines_pass_limits, length_with, IsLimitRefusal};
ghost use Rattle.object_state.specs.Short.{AreCopiesFor};

use crate::attributes::Attributes;
use crate::changes::{apply_ready, drop_nonpersistent};
use crate::effect::would_pass_limits;
use crate::lent::AttributeRef;
use crate::lines::{LineCopy, copies_for, len_with, set_marks};
use crate::marks::{resolve, resolve_one};
use crate::print::{matching_len, push_all, push_matching};
use attr_text::passes_limits;
use pps_filter::{Filter, Name};
use pps_types::{AttributeContent, HeldLine, Refusal, WrittenLine};
use std::alloc::{AllocError, Global};
use std::marker::Model;

// An attribute, as it is lent.
fn lend<'a>(name: &'a Name, content: &'a AttributeContent) -> AttributeRef<'a>
    ensures { lent result ≡ attribute_of (name.now, content.now) }
{
    let content = content.lend();
    AttributeRef {
        name: name.as_slice(),
        enc: content.enc(),
        value: content.value(),
        n: content.n(),
    }
}

/// The attributes of one object, in the order in which they were created.
///
/// There are at most 1,024 of them, and their printed lines have at most 65,536 bytes together. Both limits are our own.
pub struct Object {
    map: Attributes,
    // How long the printed lines are together. It fits, since there is a limit.
    text_len: u32,
    // Whether an attribute may be nonpersistent. If not, no mark needs to be looked up.
    has_marks: bool,
    // Of the lines that were made ready, if some of their texts are too long to be copied without memory.
    copies: Option<Box<Vec<LineCopy>>>,
}

// Written out, since each crate that drops one would prove a derived drop anew, with those of all its parts.
impl Drop for Object {
    fn drop(self) {
        let Object {
            map: _,
            text_len: _,
            has_marks: _,
            copies: _,
        } = self;
    }
}

impl Model for Object {
    ghost use Rattle.object_state.specs.Held.{Held};

    ghost Value = { Held };

    ghost use Rattle.object_state.specs.HeldView.{held, IsHeldInside};

    ghost view = { held };

    ghost invariant = { IsHeldInside };
}

impl Object {
    /// An object without attributes. It takes no memory.
    pub fn new(alloc: Global) -> Object
        ensures attributes { result.attributes ≡ [] }
        ensures copies { result.copies ≡ None }
    {
        Object {
            map: Attributes::new(alloc),
            text_len: 0,
            has_marks: false,
            copies: None,
        }
    }

    /// How many attributes there are.
    pub fn len(&self) -> usize
        ensures len { result ≡ length self.now.attributes }
        ensures limit { result ≤ 1024 }
    {
        self.map.len()
    }

    /// Whether there are no attributes.
    pub fn is_empty(&self) -> bool
        ensures { IsTrue result ↔ (self.now.attributes ≡ []) }
    {
        self.map.is_empty()
    }

    /// The attribute in that place, counted from 0, where there is one. It takes no memory.
    pub fn attribute(&self, index: usize) -> Option<AttributeRef<'_>>
        ensures { option_map lent result ≡ slice_get self.now.attributes index }
    {
        let (name, content) = self.map.get_index(index)?;
        Some(lend(name, content))
    }

    /// Whether there is an attribute of that name.
    pub fn has(&self, name: &Name) -> bool
        ensures { result ≡ list_any (λ a. same a.name name.now) self.now.attributes }
    {
        self.map.get_index_of(name).is_some()
    }

    /// How many bytes the printed lines of all attributes have. It is kept, so it costs nothing.
    pub fn text_len(&self) -> usize
        ensures len { result ≡ text_length self.now.attributes }
        ensures limit { result ≤ 65536 }
    {
        self.text_len as usize
    }

    /// How many bytes the printed lines of those attributes have that match. It takes no memory.
    #[tactic(auto, using(crate::proofs::Printing::matching_le))]
    pub fn print_len(&self, filter: Option<&Filter>) -> usize
        ensures { result ≡ length (matching_text filter.entry self.now) }
    {
        match filter {
            None => self.text_len as usize,
            Some(filter) => matching_len(&self.map, filter),
        }
    }

    /// Pushes the printed lines of those attributes that match, for which there is room. It takes no memory.
    pub fn push_print(&self, out: &mut Vec<u8>, filter: Option<&Filter>)
        requires { vec_len out.old + length (matching_text filter self.now) ≤ vec_capacity out.old }
        ensures items { out.new.items ≡ out.old.items ++ matching_text filter.entry self.now }
        ensures capacity { vec_capacity out.old ≤ vec_capacity out.new }
    {
        match filter {
            None => push_all(out, &self.map, self.text_len as usize),
            Some(filter) => push_matching(out, &self.map, filter),
        }
    }

    /// The printed lines of those attributes that match. Without a filter all match.
    ///
    /// A line is `name:encoding:value`, behind `[n]` where the attribute is nonpersistent (QNX PPS guide, on the format
    /// of objects). OutOfMemory is the only error.
    #[tactic(auto, using(crate::proofs::Printing::matching_le))]
    pub fn print(&self, filter: Option<&Filter>) -> Result<Vec<u8>, Refusal>
        ensures ok { IfOk result (λ printed. printed.items ≡ matching_text filter.entry self.now) }
        ensures err { IsOkUnless result Refusal.OutOfMemory }
    {
        let alloc = self.map.alloc();
        let mut printed = Vec::with_capacity(alloc, self.print_len(filter))?;
        self.push_print(&mut printed, filter);
        Ok(printed)
    }

    /// Deletes all attributes. It takes no memory.
    pub fn truncate(&mut self)
        ensures attributes { self.new.attributes ≡ [] }
        ensures copies { self.new.copies ≡ None }
    {
        self.copies = None;
        self.map.truncate(0);
        self.text_len = 0;
        self.has_marks = false;
    }

    /// Deletes the nonpersistent attributes. The others keep their order. It takes no memory.
    pub fn drop_nonpersistent(&mut self)
        ensures attributes { self.new.attributes ≡ persistent self.old.attributes }
        ensures copies { self.new.copies ≡ None }
    {
        self.copies = None;
        self.text_len = drop_nonpersistent(&mut self.map) as u32;
        self.has_marks = false;
    }

    /// What the lines of a write come to: each with its mark resolved where those before it took effect.
    ///
    /// Without a bracket an attribute stays persistent or nonpersistent, as it was just before its line, and a new one
    /// is persistent (QNX PPS guide, on persistence). OutOfMemory is the only error.
    pub fn resolve(&self, lines: Vec<WrittenLine>) -> Result<Vec<HeldLine>, Refusal>
        ensures ok { IfOk result (λ made. made.items ≡ resolve self.now.attributes lines.items) }
        ensures err { IsOkUnless result Refusal.OutOfMemory }
    {
        let alloc = self.map.alloc();
        Ok(resolve(alloc, &self.map, lines)?)
    }

    /// What a line of a write comes to that has no other line with it, as [`resolve`](Object::resolve) says. Its
    /// mark is looked up, and memory taken for that, only if there may be nonpersistent attributes.
    #[inline]
    pub fn resolve_one(&self, line: WrittenLine) -> Result<HeldLine, AllocError>
        ensures { IfOk result (λ made. made ≡ resolved self.now.attributes line) }
    {
        if !self.has_marks {
            return Ok(line.into_line());
        }
        let alloc = self.map.alloc();
        resolve_one(alloc, &self.map, line)
    }

    // Whether the attributes would pass a limit with these lines, which with the text are that long. Where they are few
    // and short enough, nothing is simulated.
    fn is_too_large(&self, lines: &[HeldLine], whole_len: usize) -> Result<bool, AllocError>
        requires { whole_len ≡ length_with self.now.attributes lines.now }
        ensures { IfOk result (λ passes. passes ≡ lines_pass_limits self.now.attributes lines.now) }
    {
        if !passes_limits(self.map.len() + lines.len(), whole_len) {
            return Ok(false);
        }
        let alloc = self.map.alloc();
        would_pass_limits(alloc, &self.map, self.text_len as usize, lines)
    }

    // The copies that are held of lines that do not pass a limit.
    fn checked_copies(&self, lines: &[HeldLine]) -> Result<Option<Box<Vec<LineCopy>>>, Refusal>
        ensures refusal { IsLimitRefusal (names.refusal_of result) self.now.attributes lines.now }
        ensures ok { IfOk result (AreCopiesFor lines.now) }
        ensures len { OnOk result (length_with self.now.attributes lines.now < 2 ^ 64) }
    {
        let Some(whole_len) = len_with(self.text_len as usize, lines) else {
            return Err(Refusal::OutOfMemory);
        };
        if self.is_too_large(lines, whole_len)? {
            return Err(Refusal::TooLarge);
        }
        let alloc = self.map.alloc();
        let copies = copies_for(alloc, lines)?;
        Ok(copies)
    }

    /// Takes all memory that applying these lines can want, and applies nothing. Copies that were held of other lines are
    /// given back.
    ///
    /// It is TooLarge exactly where the object would have more than 1,024 attributes, or more than 65,536 bytes of
    /// printed lines, after all of these lines. Else OutOfMemory is the only error.
    pub fn apply_ready(&mut self, lines: &[HeldLine]) -> Result<(), Refusal>
        ensures refusal { IsLimitRefusal (names.refusal_of result) self.old.attributes lines.now }
        ensures ok { OnOk result (IsReadyFor lines.now self.new) }
        ensures same { self.new.attributes ≡ self.old.attributes }
        ensures err { OnErr result (self.new.copies ≡ None) }
    {
        self.copies = None;
        let copies = self.checked_copies(lines)?;
        self.map.reserve(lines.len())?;
        self.copies = copies;
        Ok(())
    }

    /// Applies lines, each after those before it, or refuses them all.
    ///
    /// A line that sets an absent attribute makes it the last, one that sets an attribute that is there changes it in
    /// its place, and a deletion leaves the others in their order (QNX PPS guide, on changing attributes). It is refused
    /// as [`apply_ready`](Object::apply_ready) is.
    pub fn apply(&mut self, lines: &[HeldLine]) -> Result<(), Refusal>
        ensures refusal { IsLimitRefusal (names.refusal_of result) self.old.attributes lines.now }
        ensures attributes { OnOk result (AppliesLines lines.now self.old self.new) }
        ensures err { OnErr result (self.new.attributes ≡ self.old.attributes) }
        ensures copies { self.new.copies ≡ None }
    {
        self.apply_ready(lines)?;
        self.apply_commit(lines);
        Ok(())
    }

    /// Applies these lines, which were made ready. It takes no memory: short lines are copied as they are applied, and of
    /// others the copies are there.
    pub fn apply_commit(&mut self, lines: &[HeldLine])
        requires { IsReadyFor lines.now self.old }
        ensures attributes { AppliesLines lines.now self.old self.new }
        ensures copies { self.new.copies ≡ None }
    {
        self.has_marks |= set_marks(lines);
        let copies = self.copies.take();
        let text_len = self.text_len as usize;
        self.text_len = apply_ready(&mut self.map, text_len, copies, lines) as u32;
    }

    /// Another object with the same attributes. No copies of lines are in it. OutOfMemory is the only error.
    pub fn copy(&self) -> Result<Object, Refusal>
        ensures attributes { IfOk result (λ copy. copy.attributes ≡ self.now.attributes) }
        ensures copies { IfOk result (λ copy. copy.copies ≡ None) }
        ensures err { IsOkUnless result Refusal.OutOfMemory }
    {
        let map = self.map.copy()?;
        Ok(Object {
            map,
            text_len: self.text_len,
            has_marks: self.has_marks,
            copies: None,
        })
    }

    /// Whether both have the same attributes in the same order. It takes no memory.
    pub fn same(&self, other: &Object) -> bool
        ensures { IsTrue result ↔ (self.now.attributes ≡ other.now.attributes) }
    {
        self.text_len == other.text_len && self.map.same(&other.map)
    }
}
