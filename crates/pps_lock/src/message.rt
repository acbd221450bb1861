//! Messages that sessions and the trace share.
ghost use Rattle.std.specs.Prelude.{◌≡◌, IfOk};
ghost use Rattle.std.specs.Arc.{arc_value};

use pps_types::Event;
use std::alloc::{AllocError, Global};
use std::marker::Model;
use std::sync::Arc;

/// A share of a message. A contract sees the event.
#[derive(Drop)]
pub struct Message {
    event: Arc<Event>,
}

impl Model for Message {
    ghost use Rattle.std.specs.Arc.{arc_value};
    ghost use Rattle.pps_types.specs.declared.event.Event.{Event};

    ghost Value = { Event };

    ghost view = { λ a. arc_value a.event };
}

impl Message {
    /// The only share of an event.
    ///
    /// AllocError comes only where memory is wanting.
    pub fn new(alloc: Global, event: Event) -> Result<Message, AllocError>
        ensures { IfOk result (λ message. message ≡ event) }
    {
        let event = Arc::new(alloc, event)?;
        Ok(Message { event })
    }

    /// The event.
    pub fn event(&self) -> &Event
        ensures { result.now ≡ self.now }
    {
        &self.event
    }

    /// One share more, for the trace.
    pub(crate) fn shared(&self) -> Result<Arc<Event>, AllocError>
        ensures { IfOk result (λ event. arc_value event ≡ self.now) }
    {
        Arc::try_clone(&self.event)
    }

    /// One share more.
    ///
    /// AllocError comes only where there are as many as can be counted.
    pub fn share(&self) -> Result<Message, AllocError>
        ensures { IfOk result (λ message. message ≡ self.now) }
    {
        let event = self.shared()?;
        Ok(Message { event })
    }
}
