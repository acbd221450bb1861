//! What a read answers, and what it leaves of its handle.
ghost use Rattle.std.specs.Prelude.{◌≡◌};
ghost use Rattle.pps_types.specs.Reading.{OpenHandle};
ghost use Rattle.pps_types.specs.Rests.{Progress};
ghost use Rattle.whole_texts.specs.Answered.{meant, moves_of, read_moves};

/// What a read answers, where it is not refused.
#[derive(Drop)]
pub enum Answer {
    /// Everything of the target.
    Everything(Vec<u8>),
    /// So many of the records that are owed, and their blocks.
    Blocks { count: usize, text: Vec<u8> },
    /// There is nothing new, and the read waits for it.
    Waits,
    /// There is nothing new.
    Nothing,
}

/// What a read leaves of its handle.
#[derive(Clone, Copy, Debug, PartialEq, Eq)]
pub enum Effect {
    /// It has read everything.
    CatchesUp,
    /// It has been given so many of the records that it is owed.
    Advances(usize),
    /// A read of that size waits on it.
    Parks(u32),
    /// It stands where it stood.
    Stays,
}

impl Answer {
    /// What a read of that size leaves of its handle, once it is answered so. It takes no memory.
    #[inline(always)]
    pub fn effect(&self, size: u32) -> Effect
        ensures { (h : OpenHandle Progress) → moves_of h.number result ≡ read_moves h size (meant self.now) }
    {
        match self {
            Answer::Everything(_) => Effect::CatchesUp,
            Answer::Blocks { count, .. } => Effect::Advances(*count),
            Answer::Waits => Effect::Parks(size),
            Answer::Nothing => Effect::Stays,
        }
    }
}
