//! The parts of a written line.
ghost use Rattle.std.specs.Prelude.{◌≡◌};
ghost use Rattle.std.specs.List.{list_all};
ghost use Rattle.memchr.specs.Find.{IsFirstByte, is_byte};
ghost use Rattle.pps_types.specs.Bytes as bytes_words;
ghost use Rattle.pps_types.specs.Text as text;

use pps_types::split_at_first;

const LINE_FEED: u8 = b'\n';

const COLON: u8 = b':';

/// The most bytes of an encoding.
const ENCODING_MAX: usize = 32;

#[inline]
fn is_visible(byte: u8) -> bool
    ensures { result ≡ bytes_words.is_between 33 126 byte }
{
    33 <= byte && byte <= 126
}

#[inline]
fn are_visible(bytes: &[u8]) -> bool
    ensures { result ≡ list_all (bytes_words.is_between 33 126) bytes.now }
{
    bytes.iter().all(|byte| is_visible(*byte))
}

/// Whether the bytes are an encoding: up to 32 visible ones.
pub fn is_encoding(bytes: &[u8]) -> bool
    ensures { result ≡ text.is_encoding bytes.now }
{
    bytes.len() <= ENCODING_MAX && are_visible(bytes)
}

/// What stands before the first line feed, and what stands behind it.
#[inline]
pub fn split_at_line_feed(bytes: &[u8]) -> Option<(&[u8], &[u8])>
    ensures { bytes_words.lent_parts result ≡ bytes_words.split_at_first LINE_FEED bytes.now }
{
    split_at_first(LINE_FEED, bytes)
}

/// Where the first colon stands. In a good line that is near the start.
#[inline]
fn colon_in(bytes: &[u8]) -> Option<usize>
    ensures { IsFirstByte (is_byte COLON) bytes.now result }
{
    bytes.iter().position(|byte| *byte == COLON)
}

/// What stands before the first colon, and what stands behind it.
#[inline]
pub fn split_at_colon(bytes: &[u8]) -> Option<(&[u8], &[u8])>
    ensures { bytes_words.lent_parts result ≡ bytes_words.split_at_first COLON bytes.now }
{
    let at = colon_in(bytes)?;
    Some((&bytes[..at], &bytes[at + 1..]))
}
