//! How a script is served.
ghost use Rattle.std.specs.Prelude.{ℕ};

/// How a script is served.
#[derive(Clone, Copy, Debug, PartialEq, Eq)]
pub struct Manner {
    /// Whether the values that are read are shown below an answer.
    pub show: bool,
    /// Whether a bad line is reported and the script goes on after it. Else it ends the script.
    pub patient: bool,
}

/// Where the bad lines are reported of a script that goes on after them.
pub trait BadLines {
    // From which state a report of the line of a number leads to which.
    ghost reports: { Self → ℕ → Self → Type 0 };

    /// Reports that the line of that number, counted from 1, is none of a script.
    fn report(&mut self, line: u64)
        ensures { reports self.old line self.new };
}
