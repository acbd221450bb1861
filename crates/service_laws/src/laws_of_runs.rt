//! The laws of moves, of runs and of marks. Each function does nothing: its contract is the law.
ghost use Rattle.service_laws.specs.RunLaws.{RecordsAreKept, PlansAreLawful, MovesAreShown, ChecksWantNothing, WantsAreMarked, RepliesAreShown, RepliesAreRuns, RunsJoin, SeenRunsJoin, MergesGrow};

/// Does nothing. Its contract is the law that what stands has just the records of each object and directory that have
/// to be kept: from the oldest that is owed, up to the newest.
pub fn records_are_kept()
    ensures { RecordsAreKept }
{}

/// Does nothing. Its contract is the law that each plan's moves are lawful: they create objects with the next number
/// alone, and open and tell only of what is alive.
pub fn plans_are_lawful()
    ensures { PlansAreLawful }
{}

/// Does nothing. Its contract is the law that a machine and what stands of it agree move by move: lawful moves come to
/// the same on both, also between two moves of one event.
pub fn moves_are_shown()
    ensures { MovesAreShown }
{}

/// Does nothing. Its contract is the law that no check refuses for want of memory.
pub fn checks_want_nothing()
    ensures { ChecksWantNothing }
{}

/// Does nothing. Its contract is the law that a reply is OutOfMemory just where the event is marked.
pub fn wants_are_marked()
    ensures { WantsAreMarked }
{}

/// Does nothing. Its contract is the law that the replies to a list of events are the replies of what stands, and that
/// what stands after them is what they leave of it.
pub fn replies_are_shown()
    ensures { RepliesAreShown }
{}

/// Does nothing. Its contract is the law that a list of events with its replies is a run, and that a run without marks
/// is no other.
pub fn replies_are_runs()
    ensures { RepliesAreRuns }
{}

/// Does nothing. Its contract is the law that one run behind another is a run, and that each run is two such, wherever
/// it is cut.
pub fn runs_join()
    ensures { RunsJoin }
{}

/// Does nothing. Its contract is the law that runs of contents join as runs of machines do.
pub fn seen_runs_join()
    ensures { SeenRunsJoin }
{}

/// Does nothing. Its contract is the law that a merge with one more entry, at the end of the trace and of its
/// connection's session, is a merge.
pub fn merges_grow()
    ensures { MergesGrow }
{}
