//! Everything of a target: how long it is, and its text.
ghost use Rattle.std.specs.Prelude.{◌≡◌, ◌<◌, length, IfOk, IfSome, IfNone, OnErr, IsOkUnless};
ghost use Rattle.attr_text.specs.Printed.{HasRoomFor};
ghost use Rattle.pps_types.specs.Refused.{IsRefusedAs, LacksMemory};
ghost use Rattle.whole_texts.specs.Lengths.{IsLenOf, IsTooLong, Gains};
ghost use Rattle.whole_texts.specs.Whole.{everything, is_dead, everything_answer, lent_source, parts_text, whole_text, IsWholeAnswer};
ghost use Rattle.whole_texts.specs.Answered.{refusal_in, NeedsMemory};

use crate::member::Member;
use crate::parts::{is_dead, member_len, opening_len, push_member, push_opening};
use pps_filter::Filter;
use pps_types::{HandleKind, Refusal};
use server_queue::too_small;
use std::alloc::Global;
use std::marker::Model;

/// What everything is read from: the kind and the filter of the handle, whether it is owed more than its limit, whether
/// the target is alive, and its members. An object, a dead one too, is its own one member; a directory's are its alive
/// objects in byte order of names.
#[derive(Drop)]
pub struct Whole<'a> {
    kind: HandleKind,
    filter: Option<&'a Filter>,
    over: bool,
    alive: bool,
    members: &'a [Member<'a>],
}

impl<'a> Model for Whole<'a> {
    ghost use Rattle.std.specs.Option.{option_copied};
    ghost use Rattle.whole_texts.specs.Whole.{Source};

    ghost Value = { Source };

    ghost view = { λ w. record { kind = w.kind; parts = option_copied w.filter; over = w.over; alive = w.alive; members = w.members.now } };
}

// The length of what stands before the members, and of their parts.
fn parts_len(
    kind: HandleKind,
    filter: Option<&Filter>,
    over: bool,
    alive: bool,
    members: &[Member<'_>],
) -> Option<usize>
    ensures some { IfSome result (IsLenOf (whole_text kind filter.entry over alive members.now)) }
    ensures none { IfNone result (IsTooLong (whole_text kind filter.entry over alive members.now)) }
{
    let mut total = opening_len(kind, over);
    'members: for member in members {
        let len = member_len(kind, filter, over, alive, member)?;
        total = total.checked_add(len)?;
    }
    Some(total)
}

// Pushes the members' parts, for which there is room.
fn push_members(
    out: &mut Vec<u8>,
    kind: HandleKind,
    filter: Option<&Filter>,
    over: bool,
    alive: bool,
    members: &[Member<'_>],
)
    requires { HasRoomFor out.old (parts_text kind filter over alive members.now) }
    ensures items { Gains out.old out.new (parts_text kind filter.entry over alive members.now) }
{
    'members: for member in members {
        push_member(out, kind, filter, over, alive, member);
    }
}

impl<'a> Whole<'a> {
    /// All that everything is read from. It takes no memory.
    pub fn new(
        kind: HandleKind,
        filter: Option<&'a Filter>,
        over: bool,
        alive: bool,
        members: &'a [Member<'a>],
    ) -> Whole<'a>
        ensures { result ≡ lent_source kind filter.entry over alive members.now }
    {
        Whole {
            kind,
            filter,
            over,
            alive,
            members,
        }
    }

    /// Whether it is an object's, which is deleted.
    pub fn is_dead(&self) -> bool
        ensures { result ≡ is_dead self.now }
    {
        is_dead(self.kind, self.alive)
    }

    /// How many bytes everything has, where that is a number of 64 bits. It takes no memory.
    #[tactic(auto, using(crate::proofs::Pieces::everything_is))]
    pub fn len(&self) -> Option<usize>
        ensures some { IfSome result (IsLenOf (everything self.now)) }
        ensures none { IfNone result (IsTooLong (everything self.now)) }
    {
        parts_len(self.kind, self.filter, self.over, self.alive, self.members)
    }

    /// Everything, whose length is known. All memory is taken at once. OutOfMemory is the only error, and comes only where
    /// there are bytes.
    #[tactic(auto, using(crate::proofs::Pieces::everything_is))]
    pub fn print_sized(&self, alloc: Global, len: usize) -> Result<Vec<u8>, Refusal>
        requires { len ≡ length (everything self.now) }
        ensures ok { IfOk result (λ printed. printed.items ≡ everything self.now) }
        ensures err { IsOkUnless result Refusal.OutOfMemory }
        ensures lacking { OnErr result (0 < length (everything self.now)) }
    {
        let Ok(mut out) = Vec::with_capacity(alloc, len) else {
            return Err(Refusal::OutOfMemory);
        };
        push_opening(&mut out, self.kind, self.over);
        push_members(
            &mut out,
            self.kind,
            self.filter,
            self.over,
            self.alive,
            self.members,
        );
        Ok(out)
    }

    /// Everything. All memory is taken at once. OutOfMemory is the only error, and comes only where there are bytes.
    pub fn print(&self, alloc: Global) -> Result<Vec<u8>, Refusal>
        ensures ok { IfOk result (λ printed. printed.items ≡ everything self.now) }
        ensures err { IsOkUnless result Refusal.OutOfMemory }
        ensures lacking { OnErr result (0 < length (everything self.now)) }
    {
        let Some(len) = self.len() else {
            return Err(Refusal::OutOfMemory);
        };
        self.print_sized(alloc, len)
    }

    /// Everything, where at most `max` bytes are read. It is TooSmall, with the size, where it does not fit, before any
    /// memory is taken; else OutOfMemory is the only error, and comes only where there are bytes to give, or where the
    /// size is no number of 32 bits.
    pub fn answer(&self, alloc: Global, max: u32) -> Result<Vec<u8>, Refusal>
        ensures ok { IfOk result (λ given. IsWholeAnswer self.now max given.items) }
        ensures refusal { IsRefusedAs result (refusal_in (everything_answer self.now max)) }
        ensures lacking { LacksMemory result → NeedsMemory (everything_answer self.now max) }
    {
        let Some(len) = self.len() else {
            return Err(Refusal::OutOfMemory);
        };
        if len > max as usize {
            return Err(too_small(Some(len)));
        }
        self.print_sized(alloc, len)
    }
}
