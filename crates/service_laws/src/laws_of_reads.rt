//! The laws of reads. Each function does nothing: its contract is the law.
ghost use Rattle.service_laws.specs.ReadLaws.{CursorsMove, SettlingIsTold};

/// Does nothing. Its contract is the law of what a read replies, why it is refused, and where it leaves the cursor:
/// after everything nothing is owed, after so many blocks what was owed but for the first of them, and else the cursor
/// stays. All but the handle that is read stays as it was.
pub fn cursors_move()
    ensures { CursorsMove }
{}

/// Does nothing. Its contract is the law that what follows from an event's own moves is, in the plain words, for each
/// handle that had no news before the event and has some after these moves: the handle's pulse, and then the answer to
/// its parked read, by which its cursor moves as by a read.
pub fn settling_is_told()
    ensures { SettlingIsTold }
{}
