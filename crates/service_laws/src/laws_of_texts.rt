//! The laws of texts.
ghost use Rattle.service_laws.specs.TextLaws.{PrintedLinesAreRead, PrintingsAreUnique, PrintingsArePrefixFree};

/// Does nothing. Its contract is the law that printed lines are read as the same lines.
pub fn printed_lines_are_read()
    ensures { PrintedLinesAreRead }
{}

/// Does nothing. Its contract is the law that each line has a printing of its own.
pub fn printings_are_unique()
    ensures { PrintingsAreUnique }
{}

/// Does nothing. Its contract is the law that no printing of a line begins another's.
pub fn printings_are_prefix_free()
    ensures { PrintingsArePrefixFree }
{}
