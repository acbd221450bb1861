//! The laws, each the contract of a function that does nothing.
ghost use Rattle.notify_box.specs.ConnectionLaws.{
  ConnectionsAreFound,
  ConnectionsAreTold,
  PremisesStay,
};

/// Does nothing. Its contract is the law that what is found of a connection is what the content says of it: whether it is
/// attached, its outbox and its handles; and that the queues are the content's own.
pub fn connections_are_found()
    ensures { ConnectionsAreFound }
{}

/// Does nothing. Its contract is the law of what each kind of move makes of the connections: nothing, or the change of
/// one of them that has the move's name.
pub fn connections_are_told()
    ensures { ConnectionsAreTold }
{}

/// Does nothing. Its contract is the law that handles and connections rise in number behind moves too, and that a
/// connection's own handle is found as they leave it, so that the laws of moves hold for one after the other.
pub fn premises_stay()
    ensures { PremisesStay }
{}
