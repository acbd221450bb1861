//! The laws of the service's definitions. Each function does nothing: its contract is the law.
ghost use Rattle.pps_types.specs.Reading.{BlocksFit};
ghost use Rattle.service_laws.specs.PlanLaws.{NothingIsMissing};
ghost use Rattle.service_laws.specs.Laws.{MachinesStay, ContentsStay, StepsAreShown, StepsStand, ImagesStart, HandlesAreTold, AnswersAreTold, KeptIsTold, StepsAreDecided, RefusalsKeep, DebtsGrow, PrivateTraffic};

/// Does nothing. Its contract is the law that the start is a well formed machine, and that each event keeps a
/// machine well formed.
pub fn machines_stay()
    ensures { MachinesStay }
{}

/// Does nothing. Its contract is the law that what stands of a well formed machine is well formed, and that each step
/// of what stands keeps it so.
pub fn contents_stay()
    ensures { ContentsStay }
{}

/// Does nothing. Its contract is the law that what stands of a machine after an event is the step of what stood
/// before it, with the same reply, and so for each list of events: a service that keeps only what stands answers as
/// the machine that keeps every record for good.
pub fn steps_are_shown()
    ensures { StepsAreShown }
{}

/// Does nothing. Its contract is the law that what steps a content steps each machine that the content stands for,
/// and so for each list of events.
pub fn steps_stand()
    ensures { StepsStand }
{}

/// Does nothing. Its contract is the law that what an image starts is a well formed machine, and that what stands of
/// it is what the image's entries restore, one after the other.
pub fn images_start()
    ensures { ImagesStart }
{}

/// Does nothing. Its contract is the law that what stands of a handle says exactly what the plain words say, straight
/// from the history and the handle's cursor: whether it has news, whether it is past its limit, and what it is owed.
pub fn handles_are_told()
    ensures { HandlesAreTold }
{}

/// Does nothing. Its contract is the law that what stands says what each read answers, as the plain words say it.
pub fn answers_are_told()
    ensures { AnswersAreTold }
{}

/// Does nothing. Its contract is the law that what stands says how many records of an object or a directory have to
/// be kept, as the plain words say it.
pub fn kept_is_told()
    ensures { KeptIsTold }
{}

/// Does nothing. Its contract is the law that the first check that fails is the reply and nothing changes, and that
/// an event that none refuses takes effect, with what follows from it.
pub fn steps_are_decided()
    ensures { StepsAreDecided }
{}

/// Does nothing. Its contract is the law that a refused event changes nothing.
pub fn refusals_keep()
    ensures { RefusalsKeep }
{}

/// Does nothing. Its contract is the law that one more record is owed, behind all else, to just the handles that see
/// it, and that a handle without a cursor is owed nothing.
pub fn debts_grow()
    ensures { DebtsGrow }
{}

/// Does nothing. Its contract is the law that a read gives the longest run of whole blocks, from the first, that fits.
pub fn blocks_fit()
    ensures { BlocksFit }
{}

/// Does nothing. Its contract is the law that what an event speaks of is there, where no check refuses it.
pub fn nothing_is_missing()
    ensures { NothingIsMissing }
{}

/// Does nothing. Its contract is the law that a connection can't tell apart two runs that agree for it: it is given
/// the same replies and is queued the same items, in order, whatever others' clients and their servers do between
/// themselves.
pub fn private_traffic_is_private()
    ensures { PrivateTraffic }
{}
