//! How much is owed to a handle and kept of a target, in the course of two scripts.
ghost use Rattle.worked_rows.specs.KeptAnswers.{ExactCutKept, FilteredDeltasKept, SlowestKept};

/// Kept is what stands from the oldest record on that is still owed to someone: what a filter hides is counted between
/// others, and not before them.
pub fn filtered_deltas_kept()
    ensures { FilteredDeltasKept }
{}

/// Nothing is cut that is owed to some handle, and nothing is kept that is owed to none: not for one past its limit,
/// and not for one that is closed.
pub fn exact_cut_kept()
    ensures { ExactCutKept }
{}

/// Of two handles that are owed different records, the one that is behind decides.
pub fn slowest_kept()
    ensures { SlowestKept }
{}
