//! The texts of attributes: what a write says, the one printing of lines and headers, and values as they are shown.
#![tactic(auto)]

mod limits;
mod parts;
mod print;
mod read;
mod show;
mod write;

pub use limits::passes_limits;
pub use print::{
    client_header_len, header_len, line_len, print_header, print_line, push_attribute,
    push_client_header, push_header, push_line, push_set, set_len,
};
pub use read::{WriteText, first_line, read_set, read_single, read_write, read_write_line};
pub use show::show_value;
pub use write::{write_attribute, write_client_header, write_header, write_line};
