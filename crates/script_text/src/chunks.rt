//! Bytes as answers show them, written a chunk at a time.
ghost use Rattle.std.specs.Prelude.{◌≡◌, ◌+◌, ◌*◌, ◌<◌, ◌≤◌, ◌++◌, ◌∷◌, [], ◌==◌, if◌then◌else◌, length, take};
ghost use lib.Count.{count_trailing_zeros};
ghost use Rattle.script_text.specs.Escapes as escapes;
ghost use Rattle.script_text.specs.Escapes.{escaped, escaped_byte};

use std::simd::prelude::*;

// How many bytes are looked at at once.
const CHUNK: usize = 16;

/// How many shown bytes are gathered at most, before they are pushed.
pub(crate) const ROOM: usize = 256;

// The most bytes that a chunk's plain bytes and the byte behind them are shown as.
const STEP_MAX: usize = 20;

// The most bytes that are written for less than a chunk, and the spaces behind it.
const FEW_MAX: usize = 76;

// How many bytes of a chunk come before its first bit.
#[inline(always)]
fn before_bits(bits: u64) -> usize
    ensures { result ≡ (if bits == 0 then 16 else count_trailing_zeros 64 bits) }
{
    if bits == 0 {
        return CHUNK;
    }
    bits.trailing_zeros() as usize
}

// How many bytes at the front of the first chunk are shown as they are.
#[inline(always)]
fn plain_front(bytes: &[u8]) -> usize
    requires { 16 ≤ length bytes.now }
    ensures within { result ≤ 16 }
    ensures plain { escaped (take result bytes.now) ≡ take result bytes.now }
{
    let chunk = u8x16::from_slice(bytes);
    let low = chunk.simd_lt(u8x16::splat(b' '));
    let high = chunk.simd_gt(u8x16::splat(b'~'));
    let slash = chunk.simd_eq(u8x16::splat(b'\\'));
    before_bits((low | high | slash).to_bitmask())
}

// Puts a byte behind what there is, and gives the end.
#[inline(always)]
fn put(text: &mut [u8], at: usize, byte: u8) -> usize
    requires { at < length text.old }
    ensures end { result ≡ at + 1 }
    ensures text { take result text.new ≡ take at text.old ++ byte ∷ [] }
{
    text[at] = byte;
    at + 1
}

// Puts that many of the first chunk's bytes behind what there is, and gives the end. The whole chunk is copied.
#[inline(always)]
fn put_front(text: &mut [u8], at: usize, bytes: &[u8], count: usize) -> usize
    requires room { at + 16 ≤ length text.old }
    requires chunk { 16 ≤ length bytes.now }
    requires count { count ≤ 16 }
    ensures end { result ≡ at + count }
    ensures text { take result text.new ≡ take at text.old ++ take count bytes.now }
{
    u8x16::from_slice(bytes).copy_to_slice(&mut text[at..]);
    at + count
}

// The digit of a number below 16.
fn hex_digit(number: u8) -> u8
    requires { number < 16 }
    ensures { result ≡ escapes.hex_digit number }
{
    if number < 10 {
        b'0' + number
    } else {
        b'a' - 10 + number
    }
}

// Whether a byte is shown as it is: it is visible or the space, and no backslash.
#[inline]
fn is_plain(byte: u8) -> bool
    ensures { result ≡ escapes.is_plain byte }
{
    b' ' <= byte && byte <= b'~' && byte != b'\\'
}

// Puts a backslash and a letter after what there is, and gives the end.
#[inline(always)]
fn put_escape(text: &mut [u8], at: usize, letter: u8) -> usize
    requires { at + 2 ≤ length text.old }
    ensures end { result ≡ at + 2 }
    ensures text { take result text.new ≡ take at text.old ++ 92 ∷ letter ∷ [] }
{
    text[at..at + 2].copy_from_slice(&[b'\\', letter]);
    at + 2
}

// Puts a byte as answers show it behind what there is, and gives the end.
#[inline(always)]
#[tactic(auto, using(crate::proofs::Regroup::regroup))]
fn put_shown(text: &mut [u8], at: usize, byte: u8) -> usize
    requires { at + 4 ≤ length text.old }
    ensures within { result ≤ at + 4 }
    ensures text { take result text.new ≡ take at text.old ++ escaped_byte byte }
{
    if byte == b'\n' {
        return put_escape(text, at, b'n');
    }
    if is_plain(byte) {
        return put(text, at, byte);
    }
    if byte == b'\\' {
        return put_escape(text, at, b'\\');
    }
    let digits = put_escape(text, at, b'x');
    let low = put(text, digits, hex_digit(byte / 16));
    put(text, low, hex_digit(byte % 16))
}

// Writes the plain bytes at the front of a chunk behind what there is, and then the byte behind them, if the chunk has
// one. Gives how many bytes were taken, and the end.
#[inline(always)]
fn write_chunk(text: &mut [u8], at: usize, bytes: &[u8]) -> (usize, usize)
    requires room { at + 20 ≤ length text.old }
    requires chunk { 16 ≤ length bytes.now }
    ensures some { 0 < result.0 }
    ensures taken { result.0 ≤ length bytes.now }
    ensures within { result.1 ≤ at + 20 }
    ensures short { result.1 ≤ at + 4 * result.0 }
    ensures text { take result.1 text.new ≡ take at text.old ++ escaped (take result.0 bytes.now) }
{
    let plain = plain_front(bytes);
    let end = put_front(text, at, bytes, plain);
    if plain == CHUNK {
        return (plain, end);
    }
    (plain + 1, put_shown(text, end, bytes[plain]))
}

// Writes bytes as answers show them, while there is a chunk of them, and room. Gives how many were taken, and the end.
fn write_chunks(text: &mut [u8; ROOM], bytes: &[u8]) -> (usize, usize)
    requires { 16 ≤ length bytes.now }
    ensures some { 0 < result.0 }
    ensures taken { result.0 ≤ length bytes.now }
    ensures within { result.1 ≤ 256 }
    ensures text { take result.1 text.new ≡ escaped (take result.0 bytes.now) }
{
    let (mut taken, mut end) = write_chunk(text, 0, bytes);
    'chunks: while CHUNK <= bytes.len() - taken && end <= ROOM - STEP_MAX {
        let (more, next) = write_chunk(text, end, &bytes[taken..]);
        taken += more;
        end = next;
    }
    (taken, end)
}

// Puts less than a chunk of bytes as answers show them behind what there is, and gives the end. Spaces behind them, which
// are shown as they are, make chunks of them; what is written for these is left out.
fn put_few(text: &mut [u8], at: usize, bytes: &[u8]) -> usize
    requires few { length bytes.now < 16 }
    requires room { at + 76 ≤ length text.old }
    ensures within { result ≤ at + 76 }
    ensures text { take result text.new ≡ take at text.old ++ escaped bytes.now }
{
    let mut padded = [b' '; 2 * CHUNK];
    padded[..bytes.len()].copy_from_slice(bytes);
    let mut taken = 0;
    let mut end = at;
    'few: while taken < bytes.len() {
        let (more, next) = write_chunk(text, end, &padded[taken..]);
        taken += more;
        end = next;
    }
    end - (taken - bytes.len())
}

/// Writes bytes at the front as answers show them. Gives how many were taken, which are all of them where there is room,
/// and the end.
pub(crate) fn write_piece(text: &mut [u8; ROOM], bytes: &[u8]) -> (usize, usize)
    requires { 0 < length bytes.now }
    ensures some { 0 < result.0 }
    ensures taken { result.0 ≤ length bytes.now }
    ensures within { result.1 ≤ 256 }
    ensures text { take result.1 text.new ≡ escaped (take result.0 bytes.now) }
{
    if bytes.len() < CHUNK {
        return (bytes.len(), put_few(text, 0, bytes));
    }
    let (taken, end) = write_chunks(text, bytes);
    let rest = &bytes[taken..];
    if rest.len() < CHUNK && end <= ROOM - FEW_MAX {
        return (bytes.len(), put_few(text, end, rest));
    }
    (taken, end)
}
