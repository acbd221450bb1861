//! The attached connections.
ghost use Rattle.std.specs.Prelude.{◌≡◌, ◌+◌, ◌<◌, ◌≤◌, ◌↔◌, ◌==◌, ◌++◌, ◌∷◌, [], ℕ, true, false, if◌then◌else◌, length, IsTrue, Some, IfOk, IfErr, OnOk, OnErr};
ghost use Rattle.std.specs.Option.{option_copied};
ghost use Rattle.pps_types.specs.declared.refusal.Refusal.TheVariants.{OutOfMemory};
ghost use Rattle.pps_types.specs.Outbox.{is_parked, arm_refusal, park_refusal, disarmed, with_parked, fired_in, finished_in, first_of, put_rising};
ghost use Rattle.pps_types.specs.Rising.{IsRising};
ghost use Rattle.pps_types.specs.Refused.{IsRefusedAs, LacksMemory};
ghost use Rattle.notify_box.specs.Changes.{newly_armed, without_first_item};
ghost use Rattle.notify_box.specs.Standing.{standing_in, is_attached, handles_of, IsAboveHandles, place_count, outbox_in, roomed_at, handle_room_at, CanArm, CanPark, HasHandleRoom, HasParked, LacksPulseRoomAt, LacksReadRoomAt, KeepsHandleRooms, AreHandleRoomsSame, without_numbered, without_handle, parked_ended, AreOthersSame, ChangesOutbox, ChangesHandles, ChangesRoom};

use crate::attached::{Attached, copy_all, same_all, search};
use crate::outbox::Outbox;
use crate::own_handles::OwnHandles;
use crate::rising::insert_reserved;
use pps_types::{Conn, Handle, Item, Refusal, SharedBytes};
use std::alloc::Global;
use std::marker::Model;

/// The attached connections, in rising number: of each what it has to come, and its open handles.
///
/// A call that adds something has a call beside it that takes the memory ahead and changes nothing else, and then
/// takes none and cannot fail. Such room is a connection's own: what is done for one leaves the others' as it was.
/// Where a connection is not attached, a call changes nothing and needs no room.
#[derive(Drop)]
pub struct Connections {
    attached: Vec<Attached>,
}

impl Model for Connections {
    ghost use Rattle.std.specs.Prelude.{◌-◌, vec_len, vec_capacity};
    ghost use Rattle.pps_types.specs.Rising.{IsRising};
    ghost use Rattle.notify_box.specs.Standing.{RoomedConnections, number_of};

    ghost Value = { RoomedConnections };

    ghost view = { λ c. record {
      connections = c.attached.items;
      room = vec_capacity c.attached - vec_len c.attached;
    } };

    ghost invariant = { λ c. IsRising number_of c.attached.items };
}

impl Connections {
    /// No connections. It takes no memory.
    pub fn new(alloc: Global) -> Connections
        ensures { standing_in result ≡ [] }
    {
        Connections {
            attached: Vec::new(alloc),
        }
    }

    /// How many connections are attached.
    pub fn len(&self) -> usize
        ensures { result ≡ length (standing_in self.now) }
    {
        self.attached.len()
    }

    /// Whether no connection is attached.
    pub fn is_empty(&self) -> bool
        ensures { IsTrue result ↔ (standing_in self.now ≡ []) }
    {
        self.attached.is_empty()
    }

    /// Whether a connection is attached.
    pub fn is_attached(&self, conn: Conn) -> bool
        ensures { result ≡ is_attached conn (standing_in self.now) }
    {
        search(&self.attached, conn).is_ok()
    }

    /// Takes the memory for one more connection, and changes nothing else.
    ///
    /// OutOfMemory is the only error.
    pub fn attach_ready(&mut self) -> Result<(), Refusal>
        ensures ok { OnOk result (0 < self.new.room) }
        ensures err { IfErr result (λ r. r ≡ OutOfMemory) }
        ensures memory { OnErr result (self.old.room ≡ 0) }
        ensures kept { self.old.room ≤ self.new.room }
        ensures same { self.new.connections ≡ self.old.connections }
    {
        Ok(self.attached.reserve(1)?)
    }

    /// Attaches a connection with an outbox that was made ahead, and without handles. It takes no memory.
    pub fn attach(&mut self, conn: Conn, outbox: Outbox)
        requires absent { is_attached conn (standing_in self.old) ≡ false }
        requires room { 0 < self.old.room }
        ensures standing { standing_in self.new
            ≡ put_rising (λ x. x.number) (record { number = conn; outbox = outbox.outbox; handles = [] }) (standing_in self.old) }
        ensures others { AreOthersSame conn self.old self.new }
        ensures roomed { roomed_at conn self.new ≡ Some outbox }
        ensures room { self.new.room + 1 ≡ self.old.room }
    {
        let handles = OwnHandles::new(*self.attached.allocator());
        let newcomer = Attached {
            number: conn,
            outbox,
            handles,
        };
        match search(&self.attached, conn) {
            Ok(_) => unreachable!(),
            Err(place) => insert_reserved(&mut self.attached, place, newcomer),
        }
    }

    /// Detaches a connection: what it has to come and the numbers of its handles go with it.
    pub fn leave(&mut self, conn: Conn)
        ensures standing { standing_in self.new ≡ without_numbered conn (standing_in self.old) }
        ensures absent { is_attached conn (standing_in self.new) ≡ false }
        ensures others { AreOthersSame conn self.old self.new }
        ensures handle_rooms { KeepsHandleRooms self.old self.new }
        ensures room { self.new.room ≡ self.old.room + place_count conn (standing_in self.old) }
    {
        if let Ok(place) = search(&self.attached, conn) {
            let _ = self.attached.remove(place);
        }
    }

    /// The open handles of a connection, in rising number. One that is not attached has none.
    pub fn handles_of(&self, conn: Conn) -> &[Handle]
        ensures handles { result.now ≡ handles_of conn (standing_in self.now) }
        ensures rising { IsRising (λ (h : ℕ). h) result.now }
    {
        match search(&self.attached, conn) {
            Ok(place) => {
                let attached = &self.attached[place];
                attached.handles.as_slice()
            }
            Err(_) => &[],
        }
    }

    /// Whether a handle is above all that a connection has.
    pub fn is_above_handles(&self, conn: Conn, handle: Handle) -> bool
        ensures { IsTrue result ↔ IsAboveHandles conn handle (standing_in self.now) }
    {
        match self.handles_of(conn).last() {
            Some(last) => last.number() < handle.number(),
            None => true,
        }
    }

    /// Takes the memory for one more handle of a connection, and changes nothing else.
    ///
    /// OutOfMemory is the only error.
    pub fn open_ready(&mut self, conn: Conn) -> Result<(), Refusal>
        ensures ok { OnOk result (HasHandleRoom conn 1 self.new) }
        ensures err { IfErr result (λ r. r ≡ OutOfMemory) }
        ensures memory { OnErr result (handle_room_at conn self.old ≡ Some 0) }
        ensures kept { KeepsHandleRooms self.old self.new }
        ensures same { ChangesRoom conn self.old self.new }
        ensures roomed { (each : ℕ) → roomed_at each self.new ≡ roomed_at each self.old }
    {
        let Ok(place) = search(&self.attached, conn) else {
            return Ok(());
        };
        let attached = &mut self.attached[place];
        let Ok(()) = attached.handles.reserve() else {
            return Err(Refusal::OutOfMemory);
        };
        Ok(())
    }

    /// Adds a handle to a connection's, above all that it has. It takes no memory.
    pub fn opened(&mut self, conn: Conn, handle: Handle)
        requires above { IsAboveHandles conn handle (standing_in self.old) }
        requires room { HasHandleRoom conn 1 self.old }
        ensures handles { ChangesHandles conn (λ hs. hs ++ handle ∷ []) self.old self.new }
        ensures room { (each count : ℕ)
            → HasHandleRoom each (count + (if each == conn then 1 else 0)) self.old → HasHandleRoom each count self.new }
    {
        if let Ok(place) = search(&self.attached, conn) {
            let attached = &mut self.attached[place];
            attached.handles.push_reserved(handle);
        }
    }

    /// Takes a handle out of a connection's, if it is one of them. It takes no memory.
    pub fn closed(&mut self, conn: Conn, handle: Handle)
        ensures handles { ChangesHandles conn (λ hs. without_handle handle hs) self.old self.new }
        ensures room { KeepsHandleRooms self.old self.new }
    {
        if let Ok(place) = search(&self.attached, conn) {
            let attached = &mut self.attached[place];
            attached.handles.remove(handle);
        }
    }

    /// Takes the memory to arm a pulse on a handle, and changes nothing else.
    ///
    /// It is OutboxFull where the connection's items, armed pulses and parked reads are 1,024 without the handle's own
    /// armed pulse, and else OutOfMemory is the only error. Arming anew takes no memory.
    pub fn arm_ready(&mut self, conn: Conn, handle: Handle) -> Result<(), Refusal>
        ensures refusal { IsRefusedAs result (arm_refusal (outbox_in conn self.old) handle) }
        ensures memory { LacksMemory result → LacksPulseRoomAt conn handle self.old }
        ensures ok { OnOk result (CanArm conn handle self.new) }
        ensures same { ChangesRoom conn self.old self.new }
        ensures handle_rooms { AreHandleRoomsSame self.old self.new }
    {
        let Ok(place) = search(&self.attached, conn) else {
            return Ok(());
        };
        let attached = &mut self.attached[place];
        attached.outbox.arm_ready(handle)
    }

    /// Arms a pulse on a handle, in place of the one that is armed on it. It takes no memory.
    pub fn arm(&mut self, conn: Conn, handle: Handle, code: u8, value: u32)
        requires { CanArm conn handle self.old }
        ensures { ChangesOutbox conn (λ box. newly_armed box handle code value) self.old self.new }
    {
        if let Ok(place) = search(&self.attached, conn) {
            let attached = &mut self.attached[place];
            attached.outbox.arm(handle, code, value);
        }
    }

    /// Drops the pulse that is armed on a handle, if there is one.
    pub fn disarm(&mut self, conn: Conn, handle: Handle)
        ensures { ChangesOutbox conn (λ box. disarmed box handle) self.old self.new }
    {
        if let Ok(place) = search(&self.attached, conn) {
            let attached = &mut self.attached[place];
            attached.outbox.disarm(handle);
        }
    }

    /// Queues the pulse that is armed on a handle, if there is one, which is armed no longer. It takes no memory.
    pub fn fire(&mut self, conn: Conn, handle: Handle)
        ensures { ChangesOutbox conn (λ box. fired_in box handle) self.old self.new }
    {
        if let Ok(place) = search(&self.attached, conn) {
            let attached = &mut self.attached[place];
            attached.outbox.fire(handle);
        }
    }

    /// Takes the memory to park a read on a handle, and changes nothing else.
    ///
    /// It is ReadPending where a read is parked on the handle, then OutboxFull where the connection's items, armed
    /// pulses and parked reads are 1,024, and else OutOfMemory is the only error.
    pub fn park_ready(&mut self, conn: Conn, handle: Handle) -> Result<(), Refusal>
        ensures refusal { IsRefusedAs result (park_refusal (outbox_in conn self.old) handle) }
        ensures memory { LacksMemory result → LacksReadRoomAt conn handle self.old }
        ensures ok { OnOk result (CanPark conn handle self.new) }
        ensures same { ChangesRoom conn self.old self.new }
        ensures handle_rooms { AreHandleRoomsSame self.old self.new }
    {
        let Ok(place) = search(&self.attached, conn) else {
            return Ok(());
        };
        let attached = &mut self.attached[place];
        attached.outbox.park_ready(handle)
    }

    /// Parks a read on a handle. It takes no memory.
    pub fn park(&mut self, conn: Conn, handle: Handle)
        requires { CanPark conn handle self.old }
        ensures { ChangesOutbox conn (λ box. with_parked box handle) self.old self.new }
    {
        if let Ok(place) = search(&self.attached, conn) {
            let attached = &mut self.attached[place];
            attached.outbox.park(handle);
        }
    }

    /// Whether a read is parked on a handle of a connection.
    pub fn is_parked(&self, conn: Conn, handle: Handle) -> bool
        ensures { result ≡ is_parked (outbox_in conn self.now) handle }
    {
        match search(&self.attached, conn) {
            Ok(place) => {
                let attached = &self.attached[place];
                attached.outbox.is_parked(handle)
            }
            Err(_) => false,
        }
    }

    /// Queues the reply to the read that is parked on a handle, which is parked no longer. It takes no memory.
    pub fn finish(&mut self, conn: Conn, handle: Handle, reply: Result<SharedBytes, Refusal>)
        requires { HasParked conn handle (standing_in self.old) }
        ensures { ChangesOutbox conn (λ box. finished_in box handle reply) self.old self.new }
    {
        if let Ok(place) = search(&self.attached, conn) {
            let attached = &mut self.attached[place];
            attached.outbox.finish(handle, reply);
        }
    }

    /// Queues BadHandle as the reply to the read that is parked on a handle, if one is: the handle closes. It takes no
    /// memory.
    pub fn end_parked(&mut self, conn: Conn, handle: Handle)
        ensures { ChangesOutbox conn (λ box. parked_ended box handle) self.old self.new }
    {
        if let Ok(place) = search(&self.attached, conn) {
            let attached = &mut self.attached[place];
            if attached.outbox.is_parked(handle) {
                attached.outbox.finish(handle, Err(Refusal::BadHandle));
            }
        }
    }

    /// The item that was queued first for a connection, which stays.
    pub fn first(&self, conn: Conn) -> Option<&Item>
        ensures { option_copied result ≡ first_of (outbox_in conn self.now).items }
    {
        match search(&self.attached, conn) {
            Ok(place) => {
                let attached = &self.attached[place];
                attached.outbox.first()
            }
            Err(_) => None,
        }
    }

    /// Takes the item that was queued first for a connection, if there is one.
    pub fn take(&mut self, conn: Conn) -> Option<Item>
        ensures item { result ≡ first_of (outbox_in conn self.old).items }
        ensures rest { ChangesOutbox conn (λ box. without_first_item box) self.old self.new }
    {
        let Ok(place) = search(&self.attached, conn) else {
            return None;
        };
        let attached = &mut self.attached[place];
        attached.outbox.take()
    }

    /// Connections of which the same stands, without room.
    ///
    /// OutOfMemory is the only error.
    pub fn copy(&self) -> Result<Connections, Refusal>
        ensures ok { IfOk result (λ copy. standing_in copy ≡ standing_in self.now) }
        ensures err { IfErr result (λ r. r ≡ OutOfMemory) }
    {
        let attached = copy_all(*self.attached.allocator(), &self.attached)?;
        Ok(Connections { attached })
    }

    /// Whether the same stands of both: the same connections, each with the same items, armed pulses, parked reads and
    /// handles. It takes no memory.
    pub fn same(&self, other: &Connections) -> bool
        ensures { IsTrue result ↔ (standing_in self.now ≡ standing_in other.now) }
    {
        same_all(&self.attached, &other.attached)
    }
}
