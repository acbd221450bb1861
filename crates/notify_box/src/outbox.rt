//! The outbox of a connection.
ghost use Rattle.std.specs.Prelude.{◌≡◌, ◌↔◌, ◌≤◌, IsTrue, IfOk, IfErr, OnOk};
ghost use Rattle.std.specs.Option.{option_copied};
ghost use Rattle.pps_types.specs.declared.refusal.Refusal.TheVariants.{OutOfMemory};
ghost use Rattle.pps_types.specs.Outbox.{empty_outbox, is_parked, held, arm_refusal, park_refusal, disarmed, with_parked, fired_in, finished_in, first_of};
ghost use Rattle.pps_types.specs.Refused.{IsRefusedAs, LacksMemory};
ghost use Rattle.notify_box.specs.Roomed.{IsReadyToArm, IsReadyToPark};
ghost use Rattle.notify_box.specs.Changes.{newly_armed, without_first_item};
ghost use Rattle.notify_box.specs.Standing.{LacksPulseRoom, LacksReadRoom};

use crate::alike::{same_armed, same_items, same_parked};
use crate::armed::Armed;
use crate::rising::{has, put, take_out};
use crate::room::{copy_items, make_room, queue_reserved};
use pps_types::limits::OUTBOX_MAX;
use pps_types::{Handle, Item, Refusal, SharedBytes};
use std::alloc::{AllocError, Global};
use std::collections::VecDeque;
use std::marker::Model;

/// For how many items a new outbox has memory.
const FIRST_PLACES: usize = 4;

/// What a connection has to come: its queued items, and the armed pulses and parked reads of its handles.
///
/// A pulse is armed as by `ionotify` of the QNX C library. Each armed pulse and each parked read has a place
/// among the items from the start, so that it is queued without memory.
#[derive(Drop)]
pub struct Outbox {
    items: VecDeque<Item>,
    armed: Vec<Armed>,
    parked: Vec<Handle>,
}

impl Model for Outbox {
    ghost use Rattle.notify_box.specs.Roomed.{Roomed, roomed, IsSound};

    ghost Value = { Roomed };

    ghost view = { λ b. roomed b.items b.armed b.parked };

    ghost invariant = { λ b. IsSound b.items b.armed b.parked };
}

impl Outbox {
    /// An outbox with nothing in it.
    ///
    /// OutOfMemory is the only error.
    pub fn new(alloc: Global) -> Result<Outbox, Refusal>
        ensures ok { IfOk result (λ made. made.outbox ≡ empty_outbox) }
        ensures err { IfErr result (λ r. r ≡ OutOfMemory) }
    {
        let Ok(items) = VecDeque::with_capacity(alloc, FIRST_PLACES) else {
            return Err(Refusal::OutOfMemory);
        };
        let armed = Vec::new(alloc);
        let parked = Vec::new(alloc);
        Ok(Outbox {
            items,
            armed,
            parked,
        })
    }

    /// How many items, armed pulses and parked reads there are.
    fn held(&self) -> usize
        ensures value { result ≡ held self.now.outbox }
        ensures few { result ≤ 1024 }
    {
        self.items.len() + self.armed.len() + self.parked.len()
    }

    /// Takes the memory to arm a pulse on a handle, and changes nothing else.
    ///
    /// It is OutboxFull where items, armed pulses and parked reads are 1,024 without the handle's own armed pulse,
    /// and else OutOfMemory is the only error. Arming anew takes no memory.
    pub fn arm_ready(&mut self, handle: Handle) -> Result<(), Refusal>
        ensures refusal { IsRefusedAs result (arm_refusal self.old.outbox handle) }
        ensures memory { LacksMemory result → LacksPulseRoom handle self.old }
        ensures ok { OnOk result (IsReadyToArm self.new handle) }
        ensures same { self.new.outbox ≡ self.old.outbox }
    {
        if has(&self.armed, handle.number()) {
            return Ok(());
        }
        if self.held() >= OUTBOX_MAX {
            return Err(Refusal::OutboxFull);
        }
        let places = self.armed.len() + self.parked.len() + 1;
        let Ok(()) = make_room(&mut self.armed, &mut self.items, places) else {
            return Err(Refusal::OutOfMemory);
        };
        Ok(())
    }

    /// Arms a pulse on a handle, in place of the one that is armed on it. It takes no memory.
    pub fn arm(&mut self, handle: Handle, code: u8, value: u32)
        requires { IsReadyToArm self.old handle }
        ensures { self.new.outbox ≡ newly_armed self.old.outbox handle code value }
    {
        let armed = Armed {
            handle,
            code,
            value,
        };
        put(&mut self.armed, armed);
    }

    /// Takes the memory to park a read on a handle, and changes nothing else.
    ///
    /// It is ReadPending where a read is parked on the handle, then OutboxFull where items, armed pulses and
    /// parked reads are 1,024, and else OutOfMemory is the only error.
    pub fn park_ready(&mut self, handle: Handle) -> Result<(), Refusal>
        ensures refusal { IsRefusedAs result (park_refusal self.old.outbox handle) }
        ensures memory { LacksMemory result → LacksReadRoom handle self.old }
        ensures ok { OnOk result (IsReadyToPark self.new handle) }
        ensures same { self.new.outbox ≡ self.old.outbox }
    {
        if self.is_parked(handle) {
            return Err(Refusal::ReadPending);
        }
        if self.held() >= OUTBOX_MAX {
            return Err(Refusal::OutboxFull);
        }
        let places = self.armed.len() + self.parked.len() + 1;
        let Ok(()) = make_room(&mut self.parked, &mut self.items, places) else {
            return Err(Refusal::OutOfMemory);
        };
        Ok(())
    }

    /// Parks a read on a handle. It takes no memory.
    pub fn park(&mut self, handle: Handle)
        requires { IsReadyToPark self.old handle }
        ensures { self.new.outbox ≡ with_parked self.old.outbox handle }
    {
        put(&mut self.parked, handle);
    }

    /// Drops the pulse that is armed on a handle, if there is one.
    pub fn disarm(&mut self, handle: Handle)
        ensures { self.new.outbox ≡ disarmed self.old.outbox handle }
    {
        let _ = take_out(&mut self.armed, handle.number());
    }

    /// Queues the pulse that is armed on a handle, if there is one, which is armed no longer. It takes no memory.
    pub fn fire(&mut self, handle: Handle)
        ensures { self.new.outbox ≡ fired_in self.old.outbox handle }
    {
        let Some(armed) = take_out(&mut self.armed, handle.number()) else {
            return;
        };
        queue_reserved(&mut self.items, armed.item());
    }

    /// Whether a read is parked on a handle.
    pub fn is_parked(&self, handle: Handle) -> bool
        ensures { result ≡ is_parked self.now.outbox handle }
    {
        has(&self.parked, handle.number())
    }

    /// Queues the reply to the read that is parked on a handle, which is parked no longer. It takes no memory.
    pub fn finish(&mut self, handle: Handle, reply: Result<SharedBytes, Refusal>)
        requires { IsTrue (is_parked self.old.outbox handle) }
        ensures { self.new.outbox ≡ finished_in self.old.outbox handle reply }
    {
        let _ = take_out(&mut self.parked, handle.number());
        let item = Item::ReadDone {
            handle,
            result: reply,
        };
        queue_reserved(&mut self.items, item);
    }

    /// The item that was queued first, which stays.
    pub fn first(&self) -> Option<&Item>
        ensures { option_copied result ≡ first_of self.now.outbox.items }
    {
        self.items.front()
    }

    /// Takes the item that was queued first, if there is one.
    pub fn take(&mut self) -> Option<Item>
        ensures item { result ≡ first_of self.old.outbox.items }
        ensures rest { self.new.outbox ≡ without_first_item self.old.outbox }
    {
        self.items.pop_front()
    }

    /// Each of the three once more.
    fn copied(&self) -> Result<Outbox, AllocError>
        ensures { IfOk result (λ copy. copy.outbox ≡ self.now.outbox) }
    {
        let alloc = *self.items.allocator();
        let items = copy_items(alloc, &self.items, self.held())?;
        let armed = Vec::from_slice(alloc, &self.armed)?;
        let parked = Vec::from_slice(alloc, &self.parked)?;
        Ok(Outbox {
            items,
            armed,
            parked,
        })
    }

    /// An outbox with the same items, armed pulses and parked reads.
    ///
    /// OutOfMemory is the only error.
    pub fn copy(&self) -> Result<Outbox, Refusal>
        ensures ok { IfOk result (λ copy. copy.outbox ≡ self.now.outbox) }
        ensures err { IfErr result (λ r. r ≡ OutOfMemory) }
    {
        Ok(self.copied()?)
    }

    /// Whether both have the same items, armed pulses and parked reads. It takes no memory.
    pub fn same(&self, other: &Outbox) -> bool
        ensures { IsTrue result ↔ (self.now.outbox ≡ other.now.outbox) }
    {
        same_items(&self.items, &other.items)
            && same_armed(&self.armed, &other.armed)
            && same_parked(&self.parked, &other.parked)
    }
}
