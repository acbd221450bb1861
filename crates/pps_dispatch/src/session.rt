//! The messages of one connection, with what they were answered.
ghost use Rattle.std.specs.Prelude.{◌≡◌, ◌==◌, true, map, IfOk, IfErr};
ghost use Rattle.std.specs.List.{list_any};
ghost use Rattle.pps_types.specs.Merge.{are_distinct};
ghost use Rattle.pps_dispatch.specs.History.{with_messages_of};
ghost use Rattle.pps_dispatch.specs.Sessions.{unanswered, are_of, AreFrames, RefusesFrames, RefusesSession};

use frame_codec::{Decoder, Fed};
use pps_lock::{Message, Receipt};
use pps_types::{Conn, Event, Refusal};
use std::alloc::{AllocError, Global};
use std::marker::Model;
use std::mem;

/// The messages of one connection, in order, and what they were answered so far.
#[derive(Drop)]
pub struct Session {
    alloc: Global,
    pub(crate) conn: Conn,
    pub(crate) messages: Vec<Message>,
    pub(crate) replies: Vec<u8>,
    pub(crate) receipts: Vec<Receipt>,
}

impl Model for Session {
    ghost use Rattle.pps_dispatch.specs.Sessions.{Conversation};

    ghost Value = { Conversation };

    ghost view = { λ s. record { connection = s.conn; events = s.messages.items; replies = s.replies.items; receipts = s.receipts.items } };
}

// Whether each event is of this connection.
fn all_are_of(conn: Conn, events: &[Event]) -> bool
    ensures { result ≡ are_of conn events.now }
{
    events.iter().all(|event| event.conn == conn)
}

// The events as messages, which can be shared.
fn messages_of(alloc: Global, events: Vec<Event>) -> Result<Vec<Message>, AllocError>
    ensures { IfOk result (λ messages. messages.items ≡ events.items) }
{
    let mut messages = Vec::with_capacity(alloc, events.len())?;
    for event in events {
        messages.reserve(1)?;
        messages.push_reserved(Message::new(alloc, event)?);
    }
    Ok(messages)
}

// A share of each message.
fn shares_of(alloc: Global, messages: &[Message]) -> Result<Vec<Message>, AllocError>
    ensures { IfOk result (λ shares. shares.items ≡ messages.now) }
{
    let mut shares = Vec::with_capacity(alloc, messages.len())?;
    for message in messages {
        shares.reserve(1)?;
        shares.push_reserved(message.share()?);
    }
    Ok(shares)
}

// The events whose frames these bytes are. BadFrame where they are no events' frames.
#[tactic(auto, using(crate::proofs::Frames::whole_frames))]
fn events_of(alloc: Global, bytes: &[u8]) -> Result<Vec<Event>, Refusal>
    ensures ok { IfOk result (λ events. AreFrames bytes.now events.items) }
    ensures err { IfErr result (λ r. RefusesFrames bytes.now r) }
{
    let mut decoder = Decoder::new(alloc);
    let Ok(Fed { events, bad }) = decoder.feed(alloc, bytes) else {
        return Err(Refusal::OutOfMemory);
    };
    if bad {
        return Err(Refusal::BadFrame);
    }
    if decoder.rest() != 0 {
        return Err(Refusal::BadFrame);
    }
    Ok(events)
}

impl Session {
    /// A session of these messages, of which nothing is answered yet.
    pub(crate) fn starting(alloc: Global, conn: Conn, messages: Vec<Message>) -> Session
        ensures { result ≡ unanswered conn messages.items }
    {
        Session {
            alloc,
            conn,
            messages,
            replies: Vec::new(alloc),
            receipts: Vec::new(alloc),
        }
    }

    /// A session of the requests whose frames these bytes are. Nothing of it is answered yet.
    ///
    /// It is BadFrame where the bytes are not whole frames, and behind that BadArgument where one of them is of another
    /// connection. OutOfMemory may stand in the place of any answer.
    pub fn from_frames(alloc: Global, conn: Conn, bytes: &[u8]) -> Result<Session, Refusal>
        ensures ok { IfOk result (λ s. s ≡ unanswered conn s.events) }
        ensures frames { IfOk result (λ s. AreFrames bytes.now s.events) }
        ensures own { IfOk result (λ s. are_of conn s.events ≡ true) }
        ensures err { IfErr result (λ r. RefusesSession conn bytes.now r) }
    {
        let events = events_of(alloc, bytes)?;
        if !all_are_of(conn, &events) {
            return Err(Refusal::BadArgument);
        }
        let messages = messages_of(alloc, events)?;
        Ok(Session::starting(alloc, conn, messages))
    }

    /// Its connection.
    pub fn conn(&self) -> Conn
        ensures { result ≡ self.now.connection }
    {
        self.conn
    }

    /// Its messages, in order.
    pub(crate) fn messages(&self) -> &[Message]
        ensures { result.now ≡ self.now.events }
    {
        self.messages.as_slice()
    }

    /// The frames of the answers so far, in order.
    pub fn replies(&self) -> &[u8]
        ensures { result.now ≡ self.now.replies }
    {
        self.replies.as_slice()
    }

    /// The names of the entries that have these answers, in order.
    pub fn receipts(&self) -> &[Receipt]
        ensures { result.now ≡ self.now.receipts }
    {
        self.receipts.as_slice()
    }

    /// Takes the messages of another session over, and gives it its own.
    pub(crate) fn exchange_messages(&mut self, other: &mut Session)
        ensures { self.new ≡ with_messages_of self.old other.old }
    {
        mem::swap(&mut self.messages, &mut other.messages);
    }

    /// A session of the same messages, of which nothing is answered yet.
    pub(crate) fn anew(&self) -> Result<Session, AllocError>
        ensures { IfOk result (λ s. s ≡ unanswered self.now.connection self.now.events) }
    {
        let messages = shares_of(self.alloc, self.messages.as_slice())?;
        Ok(Session::starting(self.alloc, self.conn, messages))
    }
}

// Whether one of the sessions is of this connection.
fn has_conn(sessions: &[Session], conn: Conn) -> bool
    ensures { result ≡ list_any (λ d. d == conn) (map (λ s. s.connection) sessions.now) }
{
    for session in sessions {
        if session.conn() == conn {
            return true;
        }
    }
    false
}

/// Whether no connection has two of the sessions.
pub fn distinct(sessions: &[Session]) -> bool
    ensures { result ≡ are_distinct (map (λ s. s.connection) sessions.now) }
{
    let [session, others @ ..] = sessions else {
        return true;
    };
    !has_conn(others, session.conn()) && distinct(others)
}
