//! What an open does, and how it is carried out.
ghost use Rattle.std.specs.Prelude.{◌≡◌};
ghost use Rattle.service_state.specs.Tied.{Moves};
ghost use Rattle.path_requests.specs.Planned.{moves_of, IsReady};

use pps_types::{Found, ObjId};
use service_state::{Beginning, NewObject, Replacement, Tables};
use sub_reader::Opening;

/// What an open does.
#[derive(Drop)]
pub enum Opens {
    /// A handle on what stands, behind the records that it tells first.
    OnFound {
        beginning: Vec<Beginning>,
        found: Found,
        opening: Opening,
    },
    /// A new object with its first handle.
    Creating {
        object: NewObject,
        opening: Opening,
    },
    /// A server's object in a plain one's place, with its server's handle.
    Replacing {
        replacement: Replacement,
        opening: Opening,
    },
}

/// Carries out what an open does, for which all memory was taken. It takes none.
pub fn carry_out(tables: &mut Tables, opens: Opens)
    requires { IsReady opens tables.old }
    ensures { Moves (moves_of opens tables.old) tables.old tables.new }
{
    let next = Found::Object(ObjId::new(tables.names().next_object()));
    match opens {
        Opens::OnFound {
            beginning,
            found,
            opening,
        } => {
            tables.begin_all(beginning);
            tables.open(found, opening);
        }
        Opens::Creating { object, opening } => {
            tables.create(object);
            tables.open(next, opening);
        }
        Opens::Replacing {
            replacement,
            opening,
        } => {
            tables.replace(replacement);
            tables.open(next, opening);
        }
    }
}
