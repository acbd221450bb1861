//! The calls that were refused memory.

use std::fmt;

/// A call of the service that needs memory.
#[derive(Clone, Copy, Debug, PartialEq, Eq)]
pub(crate) enum Call {
    Copy,
    Step,
    Plan,
    RunList,
    BookNew,
    BookStep,
    BookCut,
    Encode,
    Feed,
    Save,
    Load,
    RestoreDirectory,
    RestoreObject,
    RestoreLine,
    SessionOf,
    Serve,
}

impl Call {
    fn name(self) -> &'static str {
        match self {
            Call::Copy => "copy",
            Call::Step => "step",
            Call::Plan => "plan",
            Call::RunList => "run_list",
            Call::BookNew => "Book::new",
            Call::BookStep => "Book::step",
            Call::BookCut => "Book::cut",
            Call::Encode => "encode_request",
            Call::Feed => "feed",
            Call::Save => "save",
            Call::Load => "load",
            Call::RestoreDirectory => "restore_directory",
            Call::RestoreObject => "restore_object",
            Call::RestoreLine => "restore_line",
            Call::SessionOf => "session_of",
            Call::Serve => "serve",
        }
    }
}

impl fmt::Display for Call {
    fn fmt<W: fmt::Write>(&self, f: &mut fmt::Formatter<W>) -> fmt::Result {
        f.write_str(self.name())
    }
}

/// The first call that was refused memory, if any was.
#[derive(Drop)]
pub(crate) struct Refused {
    first: Option<Call>,
}

impl Refused {
    pub(crate) fn new() -> Refused {
        Refused { first: None }
    }

    /// This call was refused memory.
    pub(crate) fn note(&mut self, call: Call) {
        if self.first.is_none() {
            self.first = Some(call);
        }
    }

    pub(crate) fn first(&self) -> Option<Call> {
        self.first
    }
}
