//! Numbers of entries and of attributes.
ghost use Rattle.std.specs.Prelude.{◌≡◌, ◌^◌, Some, IfSome, IfNone};
ghost use Rattle.pps_types.specs.Image as image;
ghost use Rattle.image_text.specs.Lines.{SpellsNoneBelow};

use pps_types::number_up_to;

/// The most digits of such a number.
const DIGITS_MAX: usize = 10;

/// The number that digits without a leading zero spell, where it is below 2^32.
pub(crate) fn read_number(digits: &[u8]) -> Option<u32>
    ensures some { IfSome result (λ number. image.plain_number digits.now ≡ Some number) }
    ensures none { IfNone result (SpellsNoneBelow (2 ^ 32) digits.now) }
{
    if digits == b"0".as_slice() {
        return Some(0);
    }
    number_up_to(DIGITS_MAX, u32::MAX, digits)
}
