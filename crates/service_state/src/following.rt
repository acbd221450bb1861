//! What follows from an event, carried out. It takes no memory.
ghost use Rattle.std.specs.Prelude.{◌≡◌};
ghost use Rattle.std.specs.List.{flat_map};
ghost use Rattle.whole_texts.specs.Followed.{moves_of};
ghost use Rattle.service_state.specs.Tables.{content_in};
ghost use Rattle.service_state.specs.Following.{CanFollow, CanFollowAll};
ghost use Rattle.service_state.specs.Tied.{Moves};

use crate::tables::Tables;
use whole_texts::Following;

impl Tables {
    /// What follows from an event for one handle.
    fn follow(&mut self, following: Following)
        requires { CanFollow (content_in self.old) following }
        ensures { Moves (moves_of following) self.old self.new }
    {
        match following {
            Following::Fires {
                handle,
                conn,
                pulse,
            } => self.fire(conn, handle, pulse),
            Following::CatchesUp(handle) => self.catch_up(handle),
            Following::Advances { handle, count } => self.pass(handle, count),
            Following::Ends {
                handle,
                conn,
                result,
            } => self.finish(conn, handle, result),
        }
    }

    /// What follows from an event, for one handle after the other.
    pub fn follow_all(&mut self, following: Vec<Following>)
        requires { CanFollowAll (content_in self.old) following.items }
        ensures { Moves (flat_map moves_of following.items) self.old self.new }
    {
        if following.is_empty() {
            return;
        }
        'following: for each in following {
            self.follow(each);
        }
    }
}
