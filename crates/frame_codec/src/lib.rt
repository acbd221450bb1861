//! Requests and answers as frames of bytes, and a decoder that takes a stream of requests in any pieces.
#![tactic(auto)]

mod answers;
mod decoder;
mod ends;
mod fault;
mod laws_of_frames;
mod reading;
mod requests;

pub use answers::{encode_outcome, put_outcome};
pub use decoder::{Decoder, Fed};
pub use ends::Ended;
pub use fault::FeedFault;
pub use laws_of_frames::{
    conn_is_read, event_is_read_again, no_frame_begins_another, one_frame_is_of_one_event,
    read_bytes_are_the_body, reading_is_the_only_one, stream_has_one_reading, stream_is_read,
};
pub use reading::read_conn;
pub use requests::encode_request;
