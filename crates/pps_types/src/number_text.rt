//! Whole numbers, as texts spell them in decimal.
ghost use Rattle.std.specs.Prelude.{◌≡◌, ◌+◌, ◌<◌, ◌≤◌, IfSome, length};
ghost use Rattle.pps_types.specs.Bytes as words;
ghost use Rattle.pps_types.specs.Filter.{digits_below};

/// The most digits that always spell a number of 64 bits.
const FEW_DIGITS: usize = 19;

// The number that the bytes spell, if they are digits alone and it is at most that large. They are so few that no sum is
// too large, so it is compared once, at the end.
#[inline]
fn few_digits_up_to(most: u64, digits: &[u8]) -> Option<u64>
    requires some { 0 < length digits.now }
    requires few { length digits.now ≤ FEW_DIGITS }
    ensures { result ≡ digits_below (most + 1) digits.now }
{
    let mut number = 0u64;
    for byte in digits {
        if !byte.is_ascii_digit() {
            return None;
        }
        number = 10 * number + u64::from(*byte - b'0');
    }
    if number <= most { Some(number) } else { None }
}

// The same for any number of bytes: each sum is tested.
fn many_digits_up_to(most: u64, digits: &[u8]) -> Option<u64>
    requires { 0 < length digits.now }
    ensures { result ≡ digits_below (most + 1) digits.now }
{
    let mut number = 0u64;
    for byte in digits {
        if !byte.is_ascii_digit() {
            return None;
        }
        let tens = number.checked_mul(10)?;
        number = tens.checked_add(u64::from(*byte - b'0'))?;
        if number > most {
            return None;
        }
    }
    Some(number)
}

/// The number that the bytes spell, if they are digits alone and it is at most that large.
#[inline]
pub fn digits_up_to(most: u64, digits: &[u8]) -> Option<u64>
    ensures { result ≡ digits_below (most + 1) digits.now }
{
    if digits.is_empty() {
        return None;
    }
    if digits.len() <= FEW_DIGITS {
        few_digits_up_to(most, digits)
    } else {
        many_digits_up_to(most, digits)
    }
}

/// The number that the bytes spell, if they are at most that many digits, without a leading zero, and it is at most
/// that large. So it is at least 1.
pub fn number_up_to(digits_max: usize, most: u32, digits: &[u8]) -> Option<u32>
    ensures value { result ≡ words.number_up_to digits_max most digits.now }
    ensures small { IfSome result (λ number. number ≤ most) }
{
    if digits.len() > digits_max || matches!(digits, [b'0', ..]) {
        return None;
    }
    let number = digits_up_to(u64::from(most), digits)?;
    Some(number as u32)
}
