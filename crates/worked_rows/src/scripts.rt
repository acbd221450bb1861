//! The scripts of tests/cases/rows, and what the machine answers them. Made by tools/script_theorems.
ghost use Rattle.worked_rows.specs.Scripts.APlainObjectAlone.{APlainObjectAlone};
ghost use Rattle.worked_rows.specs.Scripts.ArmingAndDisarming.{ArmingAndDisarming};
ghost use Rattle.worked_rows.specs.Scripts.AttachAndDetach.{AttachAndDetach};
ghost use Rattle.worked_rows.specs.Scripts.Backlog.{Backlog};
ghost use Rattle.worked_rows.specs.Scripts.BacklogBetweenClients.{BacklogBetweenClients};
ghost use Rattle.worked_rows.specs.Scripts.BadOpens.{BadOpens};
ghost use Rattle.worked_rows.specs.Scripts.BusyDirectory.{BusyDirectory};
ghost use Rattle.worked_rows.specs.Scripts.ClosingAParkedRead.{ClosingAParkedRead};
ghost use Rattle.worked_rows.specs.Scripts.ConditionsOfFilters.{ConditionsOfFilters};
ghost use Rattle.worked_rows.specs.Scripts.CriticalAfterUnlink.{CriticalAfterUnlink};
ghost use Rattle.worked_rows.specs.Scripts.CriticalPublisher.{CriticalPublisher};
ghost use Rattle.worked_rows.specs.Scripts.CriticalReaders.{CriticalReaders};
ghost use Rattle.worked_rows.specs.Scripts.DefaultLimit.{DefaultLimit};
ghost use Rattle.worked_rows.specs.Scripts.DeletedAndCreatedAgain.{DeletedAndCreatedAgain};
ghost use Rattle.worked_rows.specs.Scripts.DeltaReadTooSmall.{DeltaReadTooSmall};
ghost use Rattle.worked_rows.specs.Scripts.DeltaReads.{DeltaReads};
ghost use Rattle.worked_rows.specs.Scripts.DetachAndReturn.{DetachAndReturn};
ghost use Rattle.worked_rows.specs.Scripts.Directories.{Directories};
ghost use Rattle.worked_rows.specs.Scripts.DirectoryDeltas.{DirectoryDeltas};
ghost use Rattle.worked_rows.specs.Scripts.DirectoryPastTheLimit.{DirectoryPastTheLimit};
ghost use Rattle.worked_rows.specs.Scripts.EmptyObject.{EmptyObject};
ghost use Rattle.worked_rows.specs.Scripts.EscapedFilter.{EscapedFilter};
ghost use Rattle.worked_rows.specs.Scripts.ExactCut.{ExactCut};
ghost use Rattle.worked_rows.specs.Scripts.FilteredDeletions.{FilteredDeletions};
ghost use Rattle.worked_rows.specs.Scripts.FilteredDeltas.{FilteredDeltas};
ghost use Rattle.worked_rows.specs.Scripts.FilteredMembers.{FilteredMembers};
ghost use Rattle.worked_rows.specs.Scripts.FirstPath.{FirstPath};
ghost use Rattle.worked_rows.specs.Scripts.Image.{Image};
ghost use Rattle.worked_rows.specs.Scripts.LargerTexts.{LargerTexts};
ghost use Rattle.worked_rows.specs.Scripts.LateClient.{LateClient};
ghost use Rattle.worked_rows.specs.Scripts.LateReplyTooSmall.{LateReplyTooSmall};
ghost use Rattle.worked_rows.specs.Scripts.LeadingZeros.{LeadingZeros};
ghost use Rattle.worked_rows.specs.Scripts.LengthsOfTexts.{LengthsOfTexts};
ghost use Rattle.worked_rows.specs.Scripts.LinesOfAWrite.{LinesOfAWrite};
ghost use Rattle.worked_rows.specs.Scripts.MarksWithinAWrite.{MarksWithinAWrite};
ghost use Rattle.worked_rows.specs.Scripts.MessagesOfClients.{MessagesOfClients};
ghost use Rattle.worked_rows.specs.Scripts.MessagesOfServers.{MessagesOfServers};
ghost use Rattle.worked_rows.specs.Scripts.NamesAlone.{NamesAlone};
ghost use Rattle.worked_rows.specs.Scripts.NewsAndArming.{NewsAndArming};
ghost use Rattle.worked_rows.specs.Scripts.NumbersAtTheirLimits.{NumbersAtTheirLimits};
ghost use Rattle.worked_rows.specs.Scripts.OptionsOfOpens.{OptionsOfOpens};
ghost use Rattle.worked_rows.specs.Scripts.OrderOfAttributes.{OrderOfAttributes};
ghost use Rattle.worked_rows.specs.Scripts.OrderOfChecksOfOpens.{OrderOfChecksOfOpens};
ghost use Rattle.worked_rows.specs.Scripts.OrderOfChecksOfReads.{OrderOfChecksOfReads};
ghost use Rattle.worked_rows.specs.Scripts.OrderOfChecksOfUnlinks.{OrderOfChecksOfUnlinks};
ghost use Rattle.worked_rows.specs.Scripts.OrderOfChecksOfWrites.{OrderOfChecksOfWrites};
ghost use Rattle.worked_rows.specs.Scripts.OrderOfNames.{OrderOfNames};
ghost use Rattle.worked_rows.specs.Scripts.ParkedReadAndPulse.{ParkedReadAndPulse};
ghost use Rattle.worked_rows.specs.Scripts.PastTheLimit.{PastTheLimit};
ghost use Rattle.worked_rows.specs.Scripts.PastTheLimitAndDeleted.{PastTheLimitAndDeleted};
ghost use Rattle.worked_rows.specs.Scripts.PrivateTraffic.{PrivateTraffic};
ghost use Rattle.worked_rows.specs.Scripts.PrivateTrafficBesideAPlainObject.{PrivateTrafficBesideAPlainObject};
ghost use Rattle.worked_rows.specs.Scripts.PrivateTrafficOtherWay.{PrivateTrafficOtherWay};
ghost use Rattle.worked_rows.specs.Scripts.PrivateTrafficWithoutTheOther.{PrivateTrafficWithoutTheOther};
ghost use Rattle.worked_rows.specs.Scripts.Reflect.{Reflect};
ghost use Rattle.worked_rows.specs.Scripts.RefusedWrite.{RefusedWrite};
ghost use Rattle.worked_rows.specs.Scripts.ServerAndClients.{ServerAndClients};
ghost use Rattle.worked_rows.specs.Scripts.ServerInADirectory.{ServerInADirectory};
ghost use Rattle.worked_rows.specs.Scripts.ServerObjectWithoutAttributes.{ServerObjectWithoutAttributes};
ghost use Rattle.worked_rows.specs.Scripts.ServerReplacesAnObject.{ServerReplacesAnObject};
ghost use Rattle.worked_rows.specs.Scripts.SharedRunQueue.{SharedRunQueue};
ghost use Rattle.worked_rows.specs.Scripts.ShownValues.{ShownValues};
ghost use Rattle.worked_rows.specs.Scripts.TextOfAnObject.{TextOfAnObject};
ghost use Rattle.worked_rows.specs.Scripts.TruncatedAndDeleted.{TruncatedAndDeleted};
ghost use Rattle.worked_rows.specs.Scripts.TwoSessions.{TwoSessions};
ghost use Rattle.worked_rows.specs.Scripts.Waiting.{Waiting};
ghost use Rattle.worked_rows.specs.Scripts.WholeBlocksInOrder.{WholeBlocksInOrder};
ghost use Rattle.worked_rows.specs.Scripts.WorkersOverlap.{WorkersOverlap};

/// The same without the other client's and the server's own traffic: pulses and late replies are as before.
pub fn a_plain_object_alone()
    ensures { APlainObjectAlone }
{}

/// Each Notify first drops what was armed on its handle. Tranarm arms a pulse while there is news, which fires when
/// news comes anew; Pollarm does not.
pub fn arming_and_disarming()
    ensures { ArmingAndDisarming }
{}

/// A connection attaches before anything else, once, under a number that there is, and may attach again after it has
/// detached.
pub fn attach_and_detach()
    ensures { AttachAndDetach }
{}

/// A client's write is refused where the server is owed as many of its messages as the server's limit; another client
/// still gets through. A server object cannot be unlinked.
pub fn backlog()
    ensures { Backlog }
{}

/// A server's write to all is refused where one client is owed its limit of messages, and then reaches nobody.
pub fn backlog_between_clients()
    ensures { BacklogBetweenClients }
{}

/// Letters of a mode that do not go together, paths that are none, options that are none, and options that do not go
/// with the path.
pub fn bad_opens()
    ensures { BadOpens }
{}

/// A directory cannot be removed while a handle is open on it, and can when that handle is closed.
pub fn busy_directory()
    ensures { BusyDirectory }
{}

/// The parked read of a handle that closes is ended before what its close tells others.
pub fn closing_a_parked_read()
    ensures { ClosingAParkedRead }
{}

/// Parts of a filter ask for a value below, above or other than theirs; a value that is no number is neither below nor
/// above one.
pub fn conditions_of_filters()
    ensures { ConditionsOfFilters }
{}

/// A critical publisher of a deleted object says nothing when its handle closes. `.all` is never critical.
pub fn critical_after_unlink()
    ensures { CriticalAfterUnlink }
{}

/// When a critical publisher detaches, the object's nonpersistent attributes are gone, and a subscriber is told so
/// whatever its filter asks; a subscriber to names is not.
pub fn critical_publisher()
    ensures { CriticalPublisher }
{}

/// A critical handle that cannot write says nothing when it closes.
pub fn critical_readers()
    ensures { CriticalReaders }
{}

/// Where an open names no limit, the service's default stands, here 1: a second change is past it.
pub fn default_limit()
    ensures { DefaultLimit }
{}

/// Handles of a deleted object are given what they are owed, and then that it is gone. An object of the same name is
/// another one.
pub fn deleted_and_created_again()
    ensures { DeletedAndCreatedAgain }
{}

/// A read that is too small for the first change tells the size and moves nothing. One that is large enough for it
/// gives whole changes alone.
pub fn delta_read_too_small()
    ensures { DeltaReadTooSmall }
{}

/// A delta subscriber is given everything at first, and then each change by itself, in order.
pub fn delta_reads()
    ensures { DeltaReads }
{}

/// A connection that detaches loses its queue and its handles, and starts anew when it attaches again.
pub fn detach_and_return()
    ensures { DetachAndReturn }
{}

/// Directories are made, listed in the byte order of names, refused where the way or the name is wrong, and removed
/// only where they are empty.
pub fn directories()
    ensures { Directories }
{}

/// A delta subscriber to a directory is told what happens to the objects directly in it, and nothing of its
/// subdirectories.
pub fn directory_deltas()
    ensures { DirectoryDeltas }
{}

/// A subscriber to a directory that is past its limit is given a line that says so, and then all members there are.
pub fn directory_past_the_limit()
    ensures { DirectoryPastTheLimit }
{}

/// A write without lines is answered its size and is no change. A read has a size of at least 1.
pub fn empty_object()
    ensures { EmptyObject }
{}

/// A `+` behind a backslash belongs to the value that a filter asks for.
pub fn escaped_filter()
    ensures { EscapedFilter }
{}

/// Subscribers at different places of one object each get what they are owed; one that is past its limit gets
/// everything, marked.
pub fn exact_cut()
    ensures { ExactCut }
{}

/// The deletion of an attribute matches wherever a part of the filter has its name, whatever that part asks of values.
pub fn filtered_deletions()
    ensures { FilteredDeletions }
{}

/// A change has a block only where a line of it matches the filter, and the block shows the matching lines alone.
pub fn filtered_deltas()
    ensures { FilteredDeltas }
{}

/// A member none of whose attributes match is still named. What a filter hides does not count against the limit.
pub fn filtered_members()
    ensures { FilteredMembers }
{}

/// One publisher creates an object and writes it, one subscriber opens it in full mode and reads it; without news a
/// second read gives nothing.
pub fn first_path()
    ensures { FirstPath }
{}

/// What the saved image is made from: one attribute and one object of these are not persistent.
pub fn image()
    ensures { Image }
{}

/// A write of 65,536 bytes fills an object; one attribute more, or one byte more in a write, is too large.
pub fn larger_texts()
    ensures { LargerTexts }
{}

/// A client is given only what was sent after it opened. An open with `t` tells a server of a client, and truncates
/// nothing.
pub fn late_client()
    ensures { LateClient }
{}

/// A parked read is answered by what stands after the event that ends it: here that it was too small. Closing a handle
/// ends its parked read.
pub fn late_reply_too_small()
    ensures { LateReplyTooSmall }
{}

/// Numbers of options and of headers have no leading zeros, and stay within their limits.
pub fn leading_zeros()
    ensures { LeadingZeros }
{}

/// Names of attributes have at most 255 bytes, encodings 32, names of a path 255; a path has at most 32 names, `.all`
/// not among them.
pub fn lengths_of_texts()
    ensures { LengthsOfTexts }
{}

/// Which lines a write may have, and how a bad one is counted. The lines are judged before the header's name is.
pub fn lines_of_a_write()
    ensures { LinesOfAWrite }
{}

/// A line sees what the lines before it in the same write did to the mark of its attribute.
pub fn marks_within_a_write()
    ensures { MarksWithinAWrite }
{}

/// A client's messages and its notices reach the server in order. Only messages count against the server's limit, and a
/// write without lines is held up by nothing.
pub fn messages_of_clients()
    ensures { MessagesOfClients }
{}

/// A server's message goes to the open clients of its own object that are meant, and only these may hold it up. A
/// client that cannot read never does.
pub fn messages_of_servers()
    ensures { MessagesOfServers }
{}

/// A subscriber to names is given the names of a directory's objects, in byte order, and then which come and go.
pub fn names_alone()
    ensures { NamesAlone }
{}

/// A handle that has not read yet has news, so Pollarm arms nothing; a pulse fires when news comes where there was
/// none, and once.
pub fn news_and_arming()
    ensures { NewsAndArming }
{}

/// Connections are numbered from 1 to 1,024, sizes of reads are from 1 to 17,000,000, and codes of pulses up to 127. A
/// refused Notify leaves what is armed.
pub fn numbers_at_their_limits()
    ensures { NumbersAtTheirLimits }
{}

/// Options may be empty or stand twice where they are words; a filter and a limit stand once. A comma behind a
/// backslash ends no option.
pub fn options_of_opens()
    ensures { OptionsOfOpens }
{}

/// A changed attribute keeps its place and its mark; one that was deleted goes last when it is set again.
pub fn order_of_attributes()
    ensures { OrderOfAttributes }
{}

/// An open is judged by its letters, its path, its options, how these go together, what stands on the way and what
/// stands at the end, in this order.
pub fn order_of_checks_of_opens()
    ensures { OrderOfChecksOfOpens }
{}

/// Reads and Notify are judged by the handle's rights first, and then by their numbers; only then a read by the one
/// that is parked.
pub fn order_of_checks_of_reads()
    ensures { OrderOfChecksOfReads }
{}

/// A directory that holds something is told before one that is open.
pub fn order_of_checks_of_unlinks()
    ensures { OrderOfChecksOfUnlinks }
{}

/// A write is judged by its handle, its handle's rights, its size, the object's death and its text, in this order.
pub fn order_of_checks_of_writes()
    ensures { OrderOfChecksOfWrites }
{}

/// Names are listed in byte order, whether they are of objects or of directories.
pub fn order_of_names()
    ensures { OrderOfNames }
{}

/// A change ends the parked read and fires the armed pulse of its handle, the pulse first. A second read is refused
/// while one is parked.
pub fn parked_read_and_pulse()
    ensures { ParkedReadAndPulse }
{}

/// A delta subscriber that is owed more than its limit is given everything again, marked, and from there on changes.
pub fn past_the_limit()
    ensures { PastTheLimit }
{}

/// Everything of a deleted object is that it is deleted, without the mark of a handle that is past its limit.
pub fn past_the_limit_and_deleted()
    ensures { PastTheLimitAndDeleted }
{}

/// Two clients of a server: what the one and the server write to each other is not seen by the other.
pub fn private_traffic()
    ensures { PrivateTraffic }
{}

/// A client waits on a plain object, with a pulse armed, while another client and the server write to each other.
pub fn private_traffic_beside_a_plain_object()
    ensures { PrivateTrafficBesideAPlainObject }
{}

/// The same without the server's message to the first client: the answers to the second are as before.
pub fn private_traffic_other_way()
    ensures { PrivateTrafficOtherWay }
{}

/// The same without the second client's traffic: the answers to the first are as before.
pub fn private_traffic_without_the_other()
    ensures { PrivateTrafficWithoutTheOther }
{}

/// A handle is not given its own changes, unless it reflects.
pub fn reflect()
    ensures { Reflect }
{}

/// A write is refused as a whole at its first bad line, or at a header that names another object.
pub fn refused_write()
    ensures { RefusedWrite }
{}

/// A server is told of its clients and of what they write; its answers reach those that they are meant for. When it
/// closes, its object is gone.
pub fn server_and_clients()
    ensures { ServerAndClients }
{}

/// A server object is its name alone to a subscriber to its directory, and has one server.
pub fn server_in_a_directory()
    ensures { ServerInADirectory }
{}

/// A server object has none of the attributes of the object that it replaces, and its messages are none. When the
/// server closes, the object is gone.
pub fn server_object_without_attributes()
    ensures { ServerObjectWithoutAttributes }
{}

/// A server open on a plain object without handles deletes the object and creates the server object in its place.
pub fn server_replaces_an_object()
    ensures { ServerReplacesAnObject }
{}

/// Three sessions whose answers are the same in every order.
pub fn shared_run_queue()
    ensures { SharedRunQueue }
{}

/// An object with values in two encodings that the program can show.
pub fn shown_values()
    ensures { ShownValues }
{}

/// An object's text has at most 65,536 bytes after the whole write: its lines as they are printed, with their marks.
pub fn text_of_an_object()
    ensures { TextOfAnObject }
{}

/// Truncating and deleting an object are told to its subscribers whatever their filters ask; truncating also where
/// nothing was left, and not to subscribers to names.
pub fn truncated_and_deleted()
    ensures { TruncatedAndDeleted }
{}

/// A publisher and a subscriber in sessions of their own, in the one order that a gate forces: the armed pulse fires at
/// the write.
pub fn two_sessions()
    ensures { TwoSessions }
{}

/// A read with nothing new waits. The late reply is made from what stands after the event. A first read does not wait,
/// nor does one on a deleted object.
pub fn waiting()
    ensures { Waiting }
{}

/// A read gives whole blocks in order, up to the first that does not fit; the others stay owed.
pub fn whole_blocks_in_order()
    ensures { WholeBlocksInOrder }
{}

/// Two sessions that only attach.
pub fn workers_overlap()
    ensures { WorkersOverlap }
{}
