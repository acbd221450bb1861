//! The laws of lines. Each function does nothing: its contract is the law.
ghost use Rattle.script_text.specs.Laws.{EscapesAreRead, NumbersAreDecimal, CommandsAreRead, AnswersAreTold, AnswersAreLines};

/// Does nothing. Its contract is the law that bytes that are escaped and unescaped again are the same bytes.
pub fn escapes_are_read()
    ensures { EscapesAreRead }
{}

/// Does nothing. Its contract is the law that a number in its range is read from its decimal spelling, and from nothing
/// else.
pub fn numbers_are_decimal()
    ensures { NumbersAreDecimal }
{}

/// Does nothing. Its contract is the law that each command is read from its line.
pub fn commands_are_read()
    ensures { CommandsAreRead }
{}

/// Does nothing. Its contract is the law that answers with the same line are the same answer to the same connection.
pub fn answers_are_told()
    ensures { AnswersAreTold }
{}

/// Does nothing. Its contract is the law that an answer is one line: before its line feed stand visible bytes and spaces
/// alone.
pub fn answers_are_lines()
    ensures { AnswersAreLines }
{}
