//! Laws of what stands of connections. Each function does nothing: its contract is the law.
ghost use Rattle.notify_box.specs.ChangeLaws.{ChangesAreFound, QueuesAreTold};

/// Does nothing. Its contract is the law that after a change of an outbox or of handles the connection of that number
/// is found changed, and each other as it was.
pub fn changes_are_found()
    ensures { ChangesAreFound }
{}

/// Does nothing. Its contract is the law that attaching, leaving and each change of an outbox are the changes of the
/// same name in what stands of a service, where a connection has its queue alone, and that handles are not seen there.
pub fn queues_are_told()
    ensures { QueuesAreTold }
{}
