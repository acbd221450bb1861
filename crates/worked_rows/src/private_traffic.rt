//! Runs that differ only in what others' clients and their server do between themselves.
ghost use Rattle.worked_rows.specs.PrivateTraffic.{BacklogIsNoticed, FirstNoticesNothing, SecondNoticesNothing, WaiterNoticesNothing};

/// A run with the second client's write and read and a run without them agree for the first client, and give it the
/// same replies.
pub fn first_notices_nothing()
    ensures { FirstNoticesNothing }
{}

/// A run with the server's message to the first client and a run without it agree for the second client, and give it
/// the same replies.
pub fn second_notices_nothing()
    ensures { SecondNoticesNothing }
{}

/// A run in which a client waits on a plain object, with a pulse armed, while another client and the server talk, and a
/// run without their talk agree for the client: it is given the same replies, and the same pulse and late reply.
pub fn waiter_notices_nothing()
    ensures { WaiterNoticesNothing }
{}

/// Where a server's write is refused since another client has not read, the run is not one of those that a client
/// cannot tell apart: what the other does decides what it is given.
pub fn backlog_is_noticed()
    ensures { BacklogIsNoticed }
{}
