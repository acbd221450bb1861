//! Workers that serve many sessions around one book, and the one history of what they did; sessions from scripts, and
//! what is printed of sessions that were served.
#![tactic(auto)]

mod alike;
mod fault;
mod framing;
mod gate;
mod history;
mod named_entry;
mod printed_history;
mod printed_sessions;
mod run_queue;
mod scripts;
mod serving;
mod session;
mod session_fault;
mod session_index;
mod shared_book;
mod work;

pub use fault::ServeError;
pub use gate::Gate;
pub use history::joined_segments_replay;
pub use pps_lock::Segment;
pub use printed_history::write_history;
pub use printed_sessions::write_sessions;
pub use run_queue::{
    EachOnce, PutIn, QueuePass, RunQueue, SessionCount, Shares, TakenOut, fill, join_to, new_queue,
    none_stands_twice, put_in, split_off, take_out,
};
pub use scripts::session_of;
pub use serving::{Served, serve, serve_named};
pub use session::{Session, distinct};
pub use session_fault::SessionFault;
pub use shared_book::SharedBook;
pub use work::{Worked, fan_out, worker};
