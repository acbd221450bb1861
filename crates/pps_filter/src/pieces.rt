//! The pieces of a text between bytes that no backslash stands before.
ghost use Rattle.std.specs.Prelude.{◌≡◌, ◌<◌, ◌∷◌, ◌&&◌, ◌==◌, IfSome, false, length, not};
ghost use Rattle.std.specs.Option.{option_copied};
ghost use Rattle.pps_types.specs.Bytes.{plain_pieces};
ghost use Rattle.pps_filter.specs.Pieces.{pieces_left};

/// Whether the byte makes the one behind it another's. `escaped` says whether it is itself another's.
pub(crate) fn escapes(escaped: bool, byte: u8) -> bool
    ensures { result ≡ (not escaped && byte == 92) }
{
    !escaped && byte == b'\\'
}

/// What stands before the first plain separator, and what stands behind it, where there is one. A separator is plain
/// unless a backslash that is itself plain stands before it. It takes no memory.
pub fn first_plain_piece(separator: u8, bytes: &[u8]) -> (&[u8], Option<&[u8]>)
    ensures pieces { result.0.now ∷ pieces_left separator (option_copied result.1)
        ≡ plain_pieces false separator bytes.now }
    ensures shorter { IfSome result.1 (λ rest. length rest.now < length bytes.now) }
{
    let mut escaped = false;
    for (i, byte) in bytes.iter().enumerate() {
        if !escaped && *byte == separator {
            return (&bytes[..i], Some(&bytes[i + 1..]));
        }
        escaped = escapes(escaped, *byte);
    }
    (bytes, None)
}
