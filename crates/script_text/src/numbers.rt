//! Numbers in lines, in decimal and without leading zeros.
ghost use Rattle.std.specs.Prelude.{◌≡◌, ◌≤◌, ◌&&◌, ◌<◌, IfSome, length, nat_lt, option_map, take, drop};
ghost use Rattle.std.specs.Bool.{OnTrue};
ghost use Rattle.pps_types.specs.Bytes.{starts_with};
ghost use Rattle.script_text.specs.ScriptLines as script;
ghost use Rattle.script_text.specs.Digits.{AreLeading};

/// The most digits of a number.
const DIGITS_MAX: usize = 10;

/// The digits at the front of a text, at most ten.
#[derive(Drop)]
pub(crate) struct Digits {
    /// How many there are.
    count: usize,
    /// The number that they spell.
    number: u64,
}

#[inline(always)]
fn leading_digits(text: &[u8]) -> Digits
    ensures { AreLeading text.now result }
{
    let mut count = 0;
    let mut number = 0u64;
    'digits: for byte in text {
        if count == DIGITS_MAX || !byte.is_ascii_digit() {
            return Digits { count, number };
        }
        number = 10 * number + u64::from(*byte - b'0');
        count += 1;
    }
    Digits { count, number }
}

// Whether the first of so many digits is a zero, and others follow.
#[inline(always)]
fn has_leading_zero(text: &[u8], count: usize) -> bool
    ensures { result ≡ (nat_lt 1 count && starts_with 48 text.now) }
{
    count > 1 && matches!(text, [b'0', ..])
}

// The number that the leading digits of a text spell, if there are some, and it is at most that large.
#[inline(always)]
fn spelled(most: u32, text: &[u8], digits: &Digits) -> Option<u32>
    requires { AreLeading text.now digits.now }
    ensures value { result ≡ script.number_to most (take digits.now.count text.now) }
    ensures small { IfSome result (λ number. number ≤ most) }
{
    if digits.count == 0 {
        return None;
    }
    if has_leading_zero(text, digits.count) {
        return None;
    }
    if digits.number > u64::from(most) {
        return None;
    }
    Some(digits.number as u32)
}

/// The number that a word spells, if it is one, and at most that large.
#[inline(always)]
pub(crate) fn read_number(most: u32, word: &[u8]) -> Option<u32>
    ensures value { result ≡ script.number_to most word.now }
    ensures small { IfSome result (λ number. number ≤ most) }
{
    let digits = leading_digits(word);
    if digits.count < word.len() {
        return None;
    }
    spelled(most, word, &digits)
}

// Whether a space comes after so many bytes.
#[inline(always)]
fn has_space_at(text: &[u8], at: usize) -> bool
    requires { at ≤ length text.now }
    ensures space { result ≡ starts_with 32 (drop at text.now) }
    ensures within { OnTrue result (at < length text.now) }
{
    matches!(&text[at..], [b' ', ..])
}

/// The number that the first word spells, if it is one, and at most that large, and what comes after the word and its
/// space.
#[inline(always)]
pub(crate) fn read_number_word(most: u32, text: &[u8]) -> Option<(u32, &[u8])>
    ensures value { option_map (λ parts. (parts.0, parts.1.now)) result ≡ script.number_word most text.now }
    ensures small { IfSome result (λ parts. parts.0 ≤ most) }
{
    let digits = leading_digits(text);
    if !has_space_at(text, digits.count) {
        return None;
    }
    let number = spelled(most, text, &digits)?;
    Some((number, &text[digits.count + 1..]))
}
