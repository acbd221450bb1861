//! Laws of what stands of names. The functions do nothing: the contract of each is its law.
ghost use Rattle.name_table.specs.Laws.{MovesAreTold, QuestionsAreTold};
ghost use Rattle.name_table.specs.Listed.{MembersAreListed};

/// Does nothing. Its contract is the law that the moves of names are those of the same name of a whole service, whatever
/// else stands there.
pub fn moves_are_told()
    ensures { MovesAreTold }
{}

/// Does nothing. Its contract is the law that a listing of a directory has its members, a directory's name with `/` behind it.
pub fn members_are_listed()
    ensures { MembersAreListed }
{}

/// Does nothing. Its contract is the law that what stands at a path does not hang on handles and connections, so that it is
/// the same in a whole service as in one in which objects and directories stand alone.
pub fn questions_are_told()
    ensures { QuestionsAreTold }
{}
