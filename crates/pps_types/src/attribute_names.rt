//! Names of attributes.
ghost use Rattle.std.specs.Prelude.{◌≡◌};
ghost use Rattle.std.specs.List.{list_all};
ghost use Rattle.pps_types.specs.Text as text;

/// The most bytes that may follow the first of a name.
const REST_MAX: usize = 254;

#[inline]
fn starts_name(byte: u8) -> bool
    ensures { result ≡ text.starts_name byte }
{
    byte.is_ascii_alphabetic() || byte == b'_'
}

/// Whether a name may have that byte behind its first.
#[inline]
pub fn continues_name(byte: u8) -> bool
    ensures { result ≡ text.continues_name byte }
{
    starts_name(byte) || byte.is_ascii_digit() || byte == b'.' || byte == b'-'
}

#[inline]
fn are_name_bytes(bytes: &[u8]) -> bool
    ensures { result ≡ list_all text.continues_name bytes.now }
{
    bytes.iter().all(|byte| continues_name(*byte))
}

/// Whether the bytes are an attribute's name: a letter or `_`, and up to 254 letters, digits, `_`, `.` and `-`.
pub fn is_attribute_name(bytes: &[u8]) -> bool
    ensures { result ≡ text.is_attribute_name bytes.now }
{
    match bytes {
        [] => false,
        [first, rest @ ..] => {
            starts_name(*first) && rest.len() <= REST_MAX && are_name_bytes(rest)
        }
    }
}
