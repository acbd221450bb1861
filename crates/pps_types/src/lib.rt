//! What every part of the service shares: messages and their answers, records, refusals, readers and writers that
//! remember their faults, and what the grammars of texts have in common. Beside them, in `specs/`, is the whole
//! definition of the service.
#![tactic(auto)]

mod attribute_content;
mod attribute_names;
mod bytes;
mod device;
mod event;
mod exchange;
mod found;
mod handle_kind;
mod held_line;
pub mod limits;
mod line;
mod number_text;
mod numbers;
mod outcome;
mod record;
mod refusal;
mod shared;
mod shown;
mod splits;

pub use attribute_content::{AttributeContent, AttributeContentRef};
pub use attribute_names::{continues_name, is_attribute_name};
pub use bytes::Bytes;
pub use device::{Device, WriteFault};
pub use event::{Action, Event, Mode, Request};
pub use exchange::{AnswerFault, Exchange};
pub use found::Found;
pub use handle_kind::HandleKind;
pub use held_line::{HeldLine, LineRef, WrittenLine};
pub use line::{Line, Lines, Mark, WriteLine};
pub use number_text::{digits_up_to, number_up_to};
pub use numbers::{Conn, DirId, Handle, ObjId};
pub use outcome::{Item, Outcome};
pub use record::{Kind, Record};
pub use refusal::Refusal;
pub use shared::SharedBytes;
pub use shown::Shown;
pub use splits::{after_prefix, drop_front, split_at_first};
