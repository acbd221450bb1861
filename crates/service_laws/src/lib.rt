//! What is proved of the definitions alone: that a machine and its content agree, what a subscriber reads and is owed,
//! that private traffic is private, that printed lines have one reading, that what a service keeps stays within its
//! bounds, and what follows from an event, computed from the content before it. Each function does nothing: its contract
//! is the law.
//!
//! Where a law has premises, they are facts of a well formed content (`IsContent`), so whoever keeps that has them all:
//! handles rise in number (`order.handles_rise`), what they have seen fits their modes and limits (`told`); and of an
//! event's moves, that the handles that they open have the next numbers and the names of the objects that they create
//! are free, which `events_are_settled` says where no check refuses the event. One fact does not come from there: that
//! a handle's limit is 1 or more, without which one record may be past it (`within` of `replies_are_told`). The text of
//! an open names no limit below 1, and the default is at least 1 where an engine is made.
#![tactic(auto)]

mod laws;
mod laws_of_bounds;
mod laws_of_reads;
mod laws_of_runs;
mod laws_of_settling;
mod laws_of_texts;

pub use laws::{
    answers_are_told, blocks_fit, contents_stay, debts_grow, handles_are_told, images_start,
    kept_is_told, machines_stay, nothing_is_missing, private_traffic_is_private, refusals_keep,
    steps_are_decided, steps_are_shown, steps_stand,
};
pub use laws_of_bounds::{bounds_stay, sizes_fit};
pub use laws_of_reads::{cursors_move, settling_is_told};
pub use laws_of_runs::{
    checks_want_nothing, merges_grow, moves_are_shown, plans_are_lawful, records_are_kept,
    replies_are_runs, replies_are_shown, runs_join, seen_runs_join, wants_are_marked,
};
pub use laws_of_settling::{
    closes_are_planned, events_are_settled, moves_are_settled, others_stay, replies_are_told,
    seen_is_told, steps_are_free,
};
pub use laws_of_texts::{printed_lines_are_read, printings_are_prefix_free, printings_are_unique};
