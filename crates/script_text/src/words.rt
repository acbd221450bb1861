//! The words of a line.
ghost use Rattle.std.specs.Prelude.{◌≡◌, option_map};
ghost use Rattle.script_text.specs.ScriptLines as script;

use crate::numbers::{read_number, read_number_word};
use pps_types::{Action, Conn, Handle, Mode, split_at_first};

/// What stands before the first space, and what stands behind it.
#[inline(always)]
pub(crate) fn first_word(text: &[u8]) -> Option<(&[u8], &[u8])>
    ensures { option_map (λ parts. (parts.0.now, parts.1.now)) result ≡ script.first_word text.now }
{
    split_at_first(b' ', text)
}

/// The number of a connection in the first word, and what comes after that word and its space.
#[inline(always)]
pub(crate) fn first_conn(text: &[u8]) -> Option<(Conn, &[u8])>
    ensures { option_map (λ parts. (parts.0, parts.1.now)) result ≡ script.number_word 65535 text.now }
{
    let (number, rest) = read_number_word(65_535, text)?;
    Some((Conn::new(number as u16), rest))
}

/// The number of a handle in the first word, and what comes after that word and its space.
#[inline(always)]
pub(crate) fn first_handle(text: &[u8]) -> Option<(Handle, &[u8])>
    ensures { option_map (λ parts. (parts.0, parts.1.now)) result ≡ script.number_word 4294967295 text.now }
{
    let (number, rest) = read_number_word(u32::MAX, text)?;
    Some((Handle::new(number), rest))
}

/// A size or a value.
#[inline(always)]
pub(crate) fn read_field(word: &[u8]) -> Option<u32>
    ensures { result ≡ script.field_of word.now }
{
    read_number(u32::MAX, word)
}

#[inline(always)]
pub(crate) fn read_handle(word: &[u8]) -> Option<Handle>
    ensures { result ≡ script.field_of word.now }
{
    let number = read_number(u32::MAX, word)?;
    Some(Handle::new(number))
}

/// The code of a pulse in the first word, and what comes after that word and its space.
#[inline(always)]
pub(crate) fn first_code(text: &[u8]) -> Option<(u8, &[u8])>
    ensures { option_map (λ parts. (parts.0, parts.1.now)) result ≡ script.number_word 255 text.now }
{
    let (number, rest) = read_number_word(255, text)?;
    Some((number as u8, rest))
}

/// What a Notify asks for.
pub(crate) fn read_action(word: &[u8]) -> Option<Action>
    ensures { result ≡ script.action_of word.now }
{
    match word {
        b"poll" => Some(Action::Poll),
        b"pollarm" => Some(Action::Pollarm),
        b"tranarm" => Some(Action::Tranarm),
        _ => None,
    }
}

// Whether a letter stands first, and what stands behind it.
fn letter(wanted: u8, letters: &[u8]) -> (bool, &[u8])
    ensures { (result.0, result.1.now) ≡ script.letter wanted letters.now }
{
    match letters {
        [first, rest @ ..] if *first == wanted => (true, rest),
        _ => (false, letters),
    }
}

/// A mode: one or more of `r`, `w`, `c` and `t`, in this order.
pub(crate) fn read_mode(word: &[u8]) -> Option<Mode>
    ensures { result ≡ script.mode_of word.now }
{
    let (r, behind_r) = letter(b'r', word);
    let (w, behind_w) = letter(b'w', behind_r);
    let (c, behind_c) = letter(b'c', behind_w);
    let (t, behind_t) = letter(b't', behind_c);
    if word.is_empty() || !behind_t.is_empty() {
        return None;
    }
    Some(Mode { r, w, c, t })
}
