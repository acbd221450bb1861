//! The one printing of lines and headers, written into a place that is there.
ghost use Rattle.std.specs.Prelude.{◌≡◌, ◌+◌, ◌≤◌, ◌++◌, ◌∷◌, [], true, length, if◌then◌else◌, codes};
ghost use Rattle.std.specs.Option.{ForSome, option_to_list};
ghost use Rattle.pps_types.specs.Text as text;
ghost use Rattle.attr_text.specs.Printed.{attribute_text, header_text, client_header_text};
ghost use Rattle.attr_text.specs.Written.{overwritten};

use itoa::Buffer;
use pps_types::{AttributeContentRef, Handle, HeldLine};

// Writes a byte from `at` on, and says where it ends.
#[inline]
fn write_byte(out: &mut [u8], at: usize, byte: u8) -> usize
    requires { at + 1 ≤ length out.old }
    ensures text { out.new ≡ overwritten out.old at (byte ∷ []) }
    ensures end { result ≡ at + 1 }
{
    out[at] = byte;
    at + 1
}

// Writes bytes from `at` on, and says where they end.
#[inline]
fn write_many(out: &mut [u8], at: usize, bytes: &[u8]) -> usize
    requires { at + length bytes.now ≤ length out.old }
    ensures text { out.new ≡ overwritten out.old at bytes.now }
    ensures end { result ≡ at + length bytes.now }
{
    let end = at + bytes.len();
    out[at..end].copy_from_slice(bytes);
    end
}

// The same. One or two bytes, as most encodings and many values have, are written without a copy's work.
#[inline]
fn write_bytes(out: &mut [u8], at: usize, bytes: &[u8]) -> usize
    requires { at + length bytes.now ≤ length out.old }
    ensures text { out.new ≡ overwritten out.old at bytes.now }
    ensures end { result ≡ at + length bytes.now }
{
    match bytes {
        [byte] => write_byte(out, at, *byte),
        [first, second] => {
            let next = write_byte(out, at, *first);
            write_byte(out, next, *second)
        }
        _ => write_many(out, at, bytes),
    }
}

// Writes bytes and the byte that ends them.
#[inline]
fn write_ended(out: &mut [u8], at: usize, bytes: &[u8], end: u8) -> usize
    requires { at + length bytes.now + 1 ≤ length out.old }
    ensures text { out.new ≡ overwritten out.old at (bytes.now ++ end ∷ []) }
    ensures end { result ≡ at + length bytes.now + 1 }
{
    let behind = write_bytes(out, at, bytes);
    write_byte(out, behind, end)
}

// Writes a name and the colon behind it. Few names are so short that it pays to look for that.
#[inline]
fn write_name(out: &mut [u8], at: usize, name: &[u8]) -> usize
    requires { at + length name.now + 1 ≤ length out.old }
    ensures text { out.new ≡ overwritten out.old at (name.now ++ codes ":") }
    ensures end { result ≡ at + length name.now + 1 }
{
    let behind = write_many(out, at, name);
    write_byte(out, behind, b':')
}

// Writes the bracket of a nonpersistent attribute.
#[inline]
fn write_bracket(out: &mut [u8], at: usize, n: bool) -> usize
    requires { at + length (if n then codes "[n]" else []) ≤ length out.old }
    ensures text { out.new ≡ overwritten out.old at (if n then codes "[n]" else []) }
    ensures end { result ≡ at + length (if n then codes "[n]" else []) }
{
    if n {
        return write_many(out, at, b"[n]");
    }
    at
}

/// Writes the printing of an attribute over the bytes from `at` on, and reports where it ends. It takes no memory.
///
/// Where many attributes are printed this is quicker than [`push_attribute`](crate::push_attribute), since nothing asks
/// for room.
#[inline(always)]
pub fn write_attribute(
    out: &mut [u8],
    at: usize,
    name: &[u8],
    content: &AttributeContentRef<'_>,
) -> usize
    requires { at + length (attribute_text name.now content.now) ≤ length out.old }
    ensures text { out.new ≡ overwritten out.old at (attribute_text name.now content.now) }
    ensures end { result ≡ at + length (attribute_text name.now content.now) }
{
    let at = write_bracket(out, at, content.n());
    let at = write_name(out, at, name);
    write_ended(out, at, content.text(), b'\n')
}

/// Writes the printing of a line over the bytes from `at` on, and reports where it ends. It takes no memory.
#[inline]
pub fn write_line(out: &mut [u8], at: usize, line: &HeldLine) -> usize
    requires { at + length (text.print_line line.now) ≤ length out.old }
    ensures text { out.new ≡ overwritten out.old at (text.print_line line.now) }
    ensures end { result ≡ at + length (text.print_line line.now) }
{
    let started = write_bytes(out, at, line.start());
    write_ended(out, started, line.text(), b'\n')
}

// Writes the mark of a header, if there is one, and `@`.
#[inline]
fn write_mark(out: &mut [u8], at: usize, mark: Option<u8>) -> usize
    requires { at + length (option_to_list mark ++ codes "@") ≤ length out.old }
    ensures text { out.new ≡ overwritten out.old at (option_to_list mark ++ codes "@") }
    ensures end { result ≡ at + length (option_to_list mark ++ codes "@") }
{
    match mark {
        Some(byte) => {
            let marked = write_byte(out, at, byte);
            write_byte(out, marked, b'@')
        }
        None => write_byte(out, at, b'@'),
    }
}

/// Writes the printing of a header over the bytes from `at` on, and reports where it ends: the mark, if there is one, `@`
/// and the name. It takes no memory.
#[inline]
pub fn write_header(out: &mut [u8], at: usize, mark: Option<u8>, name: &[u8]) -> usize
    requires marked { ForSome mark (λ byte. text.is_header_mark byte ≡ true) }
    requires room { at + length (header_text mark name.now) ≤ length out.old }
    ensures text { out.new ≡ overwritten out.old at (header_text mark name.now) }
    ensures end { result ≡ at + length (header_text mark name.now) }
{
    let marked = write_mark(out, at, mark);
    let named = write_many(out, marked, name);
    write_byte(out, named, b'\n')
}

/// Writes the printing of a header of a server's client over the bytes from `at` on, and reports where it ends: the mark,
/// if there is one, `@`, the object's name, a dot and the client's number. It takes no memory.
pub fn write_client_header(
    out: &mut [u8],
    at: usize,
    mark: Option<u8>,
    name: &[u8],
    client: Handle,
) -> usize
    requires marked { ForSome mark (λ byte. text.is_header_mark byte ≡ true) }
    requires room { at + length (client_header_text mark name.now client) ≤ length out.old }
    ensures text { out.new ≡ overwritten out.old at (client_header_text mark name.now client) }
    ensures end { result ≡ at + length (client_header_text mark name.now client) }
{
    let mut buffer = Buffer::new();
    let digits = buffer.format(client.number());
    let marked = write_mark(out, at, mark);
    let named = write_ended(out, marked, name, b'.');
    write_ended(out, named, digits.as_bytes(), b'\n')
}
