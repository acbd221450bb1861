//! Listing a directory.
ghost use Rattle.std.specs.Prelude.{◌≡◌, ◌++◌, map, IfOk, IfErr, OnOk};
ghost use Rattle.std.specs.List.{concat};
ghost use Rattle.pps_types.specs.declared.event.Request.TheVariants.{List as ListRequest};
ghost use Rattle.service_state.specs.Refused.{AllPass, Fails, checks_in};
ghost use Rattle.path_requests.specs.Listed.{line_listed};
ghost use Rattle.path_requests.specs.Done.{DoesList};

use crate::paths::read_names;
use name_table::{Lent, members_are_listed, questions_are_told};
use pps_types::{Bytes, Conn, Found, Outcome, Refusal, SharedBytes};
use service_state::Tables;
use std::alloc::{AllocError, Global};

// Puts a member's name behind a text, with `/` where it is a directory's, and a line feed.
fn put_name(text: &mut Vec<u8>, name: &[u8], found: Found) -> Result<(), AllocError>
    ensures { OnOk result (text.new.items ≡ text.old.items ++ line_listed (name.now, found)) }
{
    text.extend_from_slice(name)?;
    match found {
        Found::Object(_) => {}
        Found::Directory(_) => text.push(b'/')?,
    }
    text.push(b'\n')?;
    Ok(())
}

// The names of members, each in a line.
fn names_listed(alloc: Global, members: &Lent<'_, Global>) -> Result<Vec<u8>, AllocError>
    ensures { IfOk result (λ text. text.items ≡ concat (map line_listed members.now)) }
{
    let mut text = Vec::new(alloc);
    'members: for place in 0..members.len() {
        let (name, found) = members.at(place);
        put_name(&mut text, name, found)?;
    }
    Ok(text)
}

/// The names of what stands directly in the directory at a path, a directory's with `/` behind it, in byte order, each in a
/// line. What stands stays.
///
/// It is BadPath where the text is no path, NotFound where nothing stands there, and NotDirectory where an object stands there
/// or on the way. Else OutOfMemory is the only error.
pub fn list(tables: &Tables, alloc: Global, conn: Conn, path: &Bytes) -> Result<Outcome, Refusal>
    ensures passes { OnOk result (AllPass (checks_in tables.now conn (ListRequest path.now))) }
    ensures does { IfOk result (λ outcome. DoesList outcome conn path.now tables.now) }
    ensures err { IfErr result (λ r. Fails (checks_in tables.now conn (ListRequest path.now)) r) }
{
    members_are_listed();
    questions_are_told();
    let names = read_names(alloc, path)?;
    let members = tables.names().members_lent(&names)?;
    let text = names_listed(alloc, &members)?;
    let data = SharedBytes::new(alloc, text)?;
    Ok(Outcome::Data(data))
}
