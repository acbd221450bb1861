//! What a connection has to come: queued items, armed pulses and parked reads; and the attached connections, each with
//! that and with the numbers of its open handles. An engine that keeps them so counts against the limits without a walk
//! over all handles, and keeps them right by changing the one connection that a move is of.
//!
//! The laws say what each kind of move makes of the connections. Their premises are facts of a well formed content
//! (`IsContent`): handles and connections rise in number (`order.handles_rise`, `order.connections_rise`), and the
//! connection of each handle is attached (`held.owners`); or what whoever makes the move knows, as that the handle is the
//! connection's own. The content between two moves of one event need not be well formed: `premises_stay` says that what
//! the laws of moves need is there all the same.
#![tactic(auto)]

mod alike;
mod armed;
mod attached;
mod connections;
mod laws_of_changes;
mod laws_of_connections;
mod outbox;
mod own_handles;
mod rising;
mod room;

pub use connections::Connections;
pub use laws_of_changes::{changes_are_found, queues_are_told};
pub use laws_of_connections::{connections_are_found, connections_are_told, premises_stay};
pub use outbox::Outbox;
