//! A stream of requests that comes in pieces.
ghost use Rattle.std.specs.Prelude.{◌≡◌, ◌≤◌, ◌↔◌, List, ℕ, Option, take, drop, [], true, false, length, IfOk, OnErr, IsErrOf};
ghost use Rattle.std.specs.Io.KnownBytes.{IsAtEnd};
ghost use Rattle.pps_types.specs.Frame.{IsPartial};
ghost use Rattle.frame_codec.specs.Front.{IsFirst, Takes, lacks, AddsLacking, IsGathered, FeedsPiece, FeedsBytes};
ghost use Rattle.frame_codec.specs.Ends.{IsTail};

use crate::ends::Ended;
use crate::fault::FeedFault;
use crate::reading::push_event;
use crate::requests::BODY_MAX;
use pps_types::{Event, drop_front};
use std::alloc::{AllocError, Global};
use std::marker::Model;

/// What stands at the front of a stream: a request's frame of that many bytes, less than a frame, or a malformed one.
#[derive(Clone, Copy)]
pub(crate) enum Front {
    Whole { len: usize },
    Partial,
    Malformed,
}

/// How many bytes of a stream the frames at its front take, and whether a malformed one follows.
#[derive(Clone, Copy)]
pub(crate) struct Taken {
    used: usize,
    bad: bool,
}

/// The requests that a piece made whole, and whether a malformed frame follows them.
#[derive(Drop)]
pub struct Fed {
    pub events: Vec<Event>,
    pub bad: bool,
}

/// Takes a stream of requests in pieces. It holds less than a frame from one piece to the next.
#[derive(Drop)]
pub struct Decoder {
    held: Vec<u8>,
    failed: bool,
}

impl Model for Decoder {
    ghost use Rattle.pps_types.specs.Frame.{Held};

    ghost Value = { Held };

    ghost view = { λ d. record { rest = d.held.items; failed = d.failed } };

    ghost use Rattle.pps_types.specs.Frame.{IsPartial};

    ghost invariant = { λ d. IsPartial d.held.items };
}

// What stands at the front of the bytes. The request of a whole frame is added.
#[tactic(auto, unfolding(pps_types::specs::Frame::front_of))]
fn first_frame(alloc: Global, bytes: &[u8], events: &mut Vec<Event>) -> Result<Front, AllocError>
    ensures { IfOk result (IsFirst bytes.now events.old.items events.new.items) }
{
    let [a, b, c, d, rest @ ..] = bytes else {
        return Ok(Front::Partial);
    };
    let len = u32::from_be_bytes([*a, *b, *c, *d]) as usize;
    if len < 3 || len > BODY_MAX {
        return Ok(Front::Malformed);
    }
    if rest.len() < len {
        return Ok(Front::Partial);
    }
    if push_event(alloc, events, &rest[..len])? {
        Ok(Front::Whole { len: len + 4 })
    } else {
        Ok(Front::Malformed)
    }
}

// Takes the frames at the front of the bytes, and adds their requests.
fn take_frames(alloc: Global, bytes: &[u8], events: &mut Vec<Event>) -> Result<Taken, AllocError>
    ensures { IfOk result (Takes bytes.now events.old.items events.new.items) }
{
    let mut used = 0;
    'frames: loop {
        match first_frame(alloc, &bytes[used..], events)? {
            Front::Partial => return Ok(Taken { used, bad: false }),
            Front::Malformed => return Ok(Taken { used, bad: true }),
            Front::Whole { len } => used += len,
        }
    }
}

// How many bytes more the frame that begins so wants, as far as that can be seen: its length first, and then its body.
fn lacking(held: &[u8]) -> usize
    ensures { result ≡ lacks held.now }
{
    let [a, b, c, d, rest @ ..] = held else {
        return if held.is_empty() { 0 } else { 4 - held.len() };
    };
    let len = u32::from_be_bytes([*a, *b, *c, *d]) as usize;
    if len > BODY_MAX {
        return 0;
    }
    len.saturating_sub(rest.len())
}

// Adds what is lacking, as far as it is there. Gives how many bytes that are.
fn extend(held: &mut Vec<u8>, piece: &[u8]) -> Result<usize, AllocError>
    ensures ok { IfOk result (λ cut. AddsLacking held.old.items piece.now cut held.new.items) }
    ensures err { OnErr result (held.new.items ≡ held.old.items) }
{
    let cut = lacking(held).min(piece.len());
    held.extend_from_slice(&piece[..cut])?;
    Ok(cut)
}

// Gathers the frame that has begun: first its length, and then its body. Gives how many bytes of the piece are its.
fn gather(held: &mut Vec<u8>, piece: &[u8]) -> Result<usize, AllocError>
    requires { IsPartial held.old.items }
    ensures ok { IfOk result (λ cut. IsGathered held.old.items piece.now cut held.new.items) }
    ensures err { OnErr result (take (length held.old.items) held.new.items ≡ held.old.items) }
{
    let first = extend(held, piece)?;
    let second = extend(held, &piece[first..])?;
    Ok(first + second)
}

// Takes a piece behind what is held. From a malformed frame on nothing is held. Where memory is wanting, more may be held
// than before.
fn take_piece(alloc: Global, held: &mut Vec<u8>, piece: &[u8]) -> Result<Fed, AllocError>
    requires { IsPartial held.old.items }
    ensures ok { IfOk result (λ fed. FeedsBytes held.old.items piece.now fed held.new.items) }
    ensures err { OnErr result (take (length held.old.items) held.new.items ≡ held.old.items) }
{
    let mut events = Vec::new(alloc);
    let cut = gather(held, piece)?;
    let front = take_frames(alloc, held, &mut events)?;
    if front.bad {
        held.clear();
        return Ok(Fed { events, bad: true });
    }
    let behind = take_frames(alloc, &piece[cut..], &mut events)?;
    if behind.bad {
        held.clear();
        return Ok(Fed { events, bad: true });
    }
    held.extend_from_slice(&piece[cut + behind.used..])?;
    drop_front(held, front.used);
    Ok(Fed { events, bad: false })
}

impl Decoder {
    /// A decoder at the beginning of a stream. It takes no memory.
    pub fn new(alloc: Global) -> Self
        ensures rest { result.rest ≡ [] }
        ensures failed { result.failed ≡ false }
    {
        Decoder {
            held: Vec::new(alloc),
            failed: false,
        }
    }

    /// How many bytes are held that are no whole frame. There are none from a malformed frame on.
    pub fn rest(&self) -> usize
        ensures { result ≡ length self.now.rest }
    {
        self.held.len()
    }

    /// How a stream ended that has no more bytes than were fed.
    pub fn ended(&self) -> Ended
        ensures malformed { (result ≡ Ended.Malformed) ↔ (self.now.failed ≡ true) }
        ensures tail { self.now.failed ≡ false
            → (left : Option (List ℕ)) → IsAtEnd left → IsTail result self.now.rest left }
    {
        if self.failed {
            return Ended::Malformed;
        }
        if self.held.is_empty() {
            Ended::Clean
        } else {
            Ended::Truncated
        }
    }

    /// Takes the next piece of the stream, and gives the requests that are whole now. The bytes of one that is whole
    /// in the piece are copied once, into the request; one that comes in several pieces is gathered first.
    ///
    /// From a malformed frame on each call answers Failed. Else OutOfMemory is the only error, and the decoder is as it
    /// was.
    pub fn feed(&mut self, alloc: Global, piece: &[u8]) -> Result<Fed, FeedFault>
        ensures fed { IfOk result (λ fed. FeedsPiece self.old.rest piece.now fed self.new) }
        ensures failed { IsErrOf result FeedFault.Failed ↔ (self.old.failed ≡ true) }
        ensures err { OnErr result (self.new ≡ self.old) }
    {
        if self.failed {
            return Err(FeedFault::Failed);
        }
        let before = self.rest();
        match take_piece(alloc, &mut self.held, piece) {
            Ok(fed) => {
                self.failed = fed.bad;
                Ok(fed)
            }
            Err(_) => {
                self.held.truncate(before);
                Err(FeedFault::OutOfMemory)
            }
        }
    }
}
