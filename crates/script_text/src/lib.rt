//! The text of scripts: what each line says, and the lines that answer commands.
#![tactic(auto)]

mod answer;
mod chunks;
mod commands;
mod escapes;
mod fault;
mod laws;
mod numbers;
mod script_line;
mod shown;
mod words;

pub use answer::print_answer;
pub use fault::LineFault;
pub use laws::{
    answers_are_lines, answers_are_told, commands_are_read, escapes_are_read, numbers_are_decimal,
};
pub use script_line::{ScriptLine, read_command, read_line, says_nothing};
pub use shown::print_shown;
