//! Whom the header of a text names.
ghost use Rattle.std.specs.Prelude.{◌≡◌, ◌++◌, codes};
ghost use Rattle.std.specs.Option.{option_copied};
ghost use Rattle.pps_types.specs.Bytes as words;
ghost use Rattle.pps_types.specs.Checks as checking;
ghost use Rattle.handle_requests.specs.Addressed.{addressee_of, is_foreign};

use pps_types::{Bytes, after_prefix, number_up_to};

/// The most digits of an identifier.
const ID_DIGITS: usize = 10;

/// The largest identifier.
const ID_MAX: u32 = 4_294_967_295;

/// Whom a message of a server is for.
#[derive(Clone, Copy, Debug, PartialEq, Eq)]
pub(crate) enum Recipient {
    /// All clients of its object.
    Everyone,
    /// The client of that number.
    OneClient(u32),
    Nobody,
}

/// Whether there is a header that is not the object's own name.
pub(crate) fn is_foreign(name: &[u8], header: Option<&Bytes>) -> bool
    ensures { result ≡ is_foreign name.now (option_copied header.entry) }
{
    match header {
        None => false,
        Some(header) => header.as_slice() != name,
    }
}

// What follows an object's name and a dot.
#[tactic(auto, using(pps_types::proofs::Cuts::after_prefix_joined))]
fn after_name<'a>(name: &[u8], header: &'a [u8]) -> Option<&'a [u8]>
    ensures { option_copied result ≡ words.after_prefix (name.now ++ codes ".") header.now }
{
    match after_prefix(name, header) {
        None => None,
        Some(rest) => after_prefix(b".", rest),
    }
}

/// Whom the header of a server's text names, where the object has that name: `@name` all clients, and `@name.id` one.
pub(crate) fn addressee(name: &[u8], header: Option<&Bytes>) -> Recipient
    ensures { addressee_of result ≡ checking.addressee name.now (option_copied header.entry) }
{
    let Some(header) = header else {
        return Recipient::Everyone;
    };
    if header.as_slice() == name {
        return Recipient::Everyone;
    }
    let Some(digits) = after_name(name, header.as_slice()) else {
        return Recipient::Nobody;
    };
    match number_up_to(ID_DIGITS, ID_MAX, digits) {
        None => Recipient::Nobody,
        Some(id) => Recipient::OneClient(id),
    }
}
