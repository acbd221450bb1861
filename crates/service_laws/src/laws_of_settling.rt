//! The laws, each the contract of a function that does nothing.
ghost use Rattle.service_laws.specs.SettlingLaws.{
  ClosesArePlanned,
  EventsAreSettled,
  MovesAreSettled,
  OthersStay,
  RepliesAreTold,
  SeenIsTold,
  StepsAreFree,
};

/// Moves change each handle by itself, and what follows from them is what follows for each handle that they wake.
pub fn moves_are_settled()
    ensures { MovesAreSettled }
{}

/// What a handle that had no news has seen behind an event's records depends on these alone.
pub fn seen_is_told()
    ensures { SeenIsTold }
{}

/// The answer to a parked read, and what it takes of the objects, by what stood before.
pub fn replies_are_told()
    ensures { RepliesAreTold }
{}

/// The plan of an event that no check refuses, with all that follows, by what stood before it.
pub fn events_are_settled()
    ensures { EventsAreSettled }
{}

/// Closings one after the other, by what stood before them all.
pub fn closes_are_planned()
    ensures { ClosesArePlanned }
{}

/// What follows may be worked out handle by handle while it is carried out, and needs few handles to be looked at.
pub fn steps_are_free()
    ensures { StepsAreFree }
{}

/// A handle that no record concerns stays as it is, unless a move is of it.
pub fn others_stay()
    ensures { OthersStay }
{}
