//! Lines of texts: as they are written, and as objects and records hold them.
ghost use Rattle.std.specs.Prelude.{◌≡◌, [], ◌∷◌};
ghost use Rattle.std.specs.Cmp.Lexicographic.{pointwise, lists_equiv, lists_per};

use crate::bytes::Bytes;
use crate::held_line::HeldLine;
use std::marker::Model;
use std::slice::from_ref;

/// What a written line says of whether its attribute is kept when the service is saved.
#[derive(Clone, Copy, Debug, PartialEq, Eq)]
pub enum Mark {
    /// As it was. A new attribute is kept.
    Keep,
    /// `[n]`: it is not kept.
    On,
    /// `[-n]`: it is kept.
    Off,
}

impl Mark {
    ghost use Rattle.pps_types.specs.History.{marked_by};

    /// Whether an attribute is nonpersistent behind a line with this mark, by whether it was so before.
    pub fn applied_to(self, before: bool) -> bool
        ensures { result ≡ marked_by self before }
    {
        match self {
            Mark::Keep => before,
            Mark::On => true,
            Mark::Off => false,
        }
    }
}

/// What a line of a write says. A [`WrittenLine`](crate::WrittenLine) is one as it is read.
#[derive(Debug, PartialEq, Eq, Drop)]
pub enum WriteLine {
    /// `name:encoding:value`, behind its bracket where it has one.
    Set {
        name: Bytes,
        enc: Bytes,
        value: Bytes,
        mark: Mark,
    },
    /// `-name`
    Del {
        name: Bytes,
    },
}

/// What a line of a record says. Where `n` is true the attribute is nonpersistent. A [`HeldLine`](crate::HeldLine) is one as
/// records hold it.
#[derive(Debug, PartialEq, Eq, Drop)]
pub enum Line {
    Set {
        name: Bytes,
        enc: Bytes,
        value: Bytes,
        n: bool,
    },
    Del {
        name: Bytes,
    },
}

/// Where the lines of a record are.
#[derive(Debug, Drop)]
enum Placed {
    /// It is one, in place.
    One(HeldLine),
    Many(Vec<HeldLine>),
}

/// The lines of a record, in order. One alone takes no memory but that of its text.
#[derive(Debug, Drop)]
pub struct Lines {
    lines: Placed,
}

impl Model for Lines {
    ghost use Rattle.std.specs.Prelude.{List};
    ghost use Rattle.pps_types.specs.declared.line.Line.{Line};
    ghost use Rattle.pps_types.specs.PlacedLines.{placed_lines};

    ghost Value = { List Line };

    ghost view = { λ a. placed_lines a.lines };
}

impl Lines {
    /// These lines. It takes no memory.
    pub fn new(items: Vec<HeldLine>) -> Lines
        ensures { result ≡ items.items }
    {
        Lines {
            lines: Placed::Many(items),
        }
    }

    /// This line alone. It takes no memory.
    #[inline(always)]
    pub fn one(line: HeldLine) -> Lines
        ensures { result ≡ line ∷ [] }
    {
        Lines {
            lines: Placed::One(line),
        }
    }

    #[inline(always)]
    pub fn as_slice(&self) -> &[HeldLine]
        ensures { result.now ≡ self.now }
    {
        match &self.lines {
            Placed::One(line) => from_ref(line),
            Placed::Many(lines) => lines.as_slice(),
        }
    }
}

impl PartialEq for Lines {
    ghost use Rattle.pps_types.specs.contracts.held_line.HeldLinePartialEq.TheImpl.Laws.{laws-law};

    ghost eq = { pointwise ⟦<HeldLine as PartialEq>⟧.eq };

    ghost laws = { lists_per laws-law };

    fn eq(&self, other: &Lines) -> bool {
        self.as_slice() == other.as_slice()
    }
}

impl Eq for Lines {
    ghost use Rattle.pps_types.specs.contracts.held_line.HeldLineEq.TheImpl.Laws.{laws-law};

    ghost laws = { lists_equiv laws-law };
}
