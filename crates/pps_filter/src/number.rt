//! Whole numbers, as filters and values spell them.
ghost use Rattle.std.specs.Prelude.{◌≡◌};
ghost use Rattle.pps_types.specs.Filter as meant;

use pps_types::digits_up_to;

/// The whole number that the bytes spell, if they are digits, perhaps behind a `-`, and it lies within an `i64`.
pub(crate) fn whole_number(bytes: &[u8]) -> Option<i64>
    ensures { result ≡ meant.whole_number bytes.now }
{
    match bytes {
        [b'-', digits @ ..] => 0i64.checked_sub_unsigned(digits_up_to(u64::MAX, digits)?),
        digits => 0i64.checked_add_unsigned(digits_up_to(u64::MAX, digits)?),
    }
}
