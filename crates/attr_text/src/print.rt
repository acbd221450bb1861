//! The one printing of lines and headers.
ghost use Rattle.std.specs.Prelude.{◌≡◌, ◌+◌, ◌<◌, ◌≤◌, ◌^◌, ◌++◌, true, length, vec_len, vec_capacity, IfOk, IfSome, IfNone, OnErr, IsErrOf, if◌then◌else◌, codes, []};
ghost use Rattle.std.specs.Option.{ForSome, option_to_list};
ghost use Rattle.pps_types.specs.Text as text;
ghost use Rattle.attr_text.specs.Printed.{set_text, attribute_text, header_text, client_header_text, HasRoomFor};

use itoa::Buffer;
use pps_types::{AttributeContentRef, Handle, HeldLine, Refusal};
use std::alloc::Global;

/// The length of the printing of a line that sets an attribute, where it is a length. It takes no memory.
#[inline(always)]
pub fn set_len(name: &[u8], enc: &[u8], value: &[u8], n: bool) -> Option<usize>
    ensures some { IfSome result (λ len. len ≡ length (set_text name.now enc.now value.now n)) }
    ensures none { IfNone result (2 ^ 64 ≤ length (set_text name.now enc.now value.now n)) }
{
    let marks: usize = if n { 6 } else { 3 };
    let named = marks.checked_add(name.len())?;
    let encoded = named.checked_add(enc.len())?;
    encoded.checked_add(value.len())
}

/// The length of the printing of a line, where it is a length. It takes no memory.
#[inline(always)]
pub fn line_len(line: &HeldLine) -> Option<usize>
    ensures some { IfSome result (λ len. len ≡ length (text.print_line line.now)) }
    ensures none { IfNone result (2 ^ 64 ≤ length (text.print_line line.now)) }
{
    let marks = line.start().len() + 1;
    marks.checked_add(line.text().len())
}

/// Pushes bytes for which there is room.
#[inline(always)]
fn push_bytes(out: &mut Vec<u8>, bytes: &[u8])
    requires { HasRoomFor out.old bytes.now }
    ensures items { out.new.items ≡ out.old.items ++ bytes.now }
    ensures len { vec_len out.new ≡ vec_len out.old + length bytes.now }
    ensures capacity { vec_capacity out.old ≤ vec_capacity out.new }
{
    out.extend_from_slice(bytes).unwrap();
}

/// Pushes the bracket of a nonpersistent attribute, for which there is room.
#[inline(always)]
fn push_bracket(out: &mut Vec<u8>, n: bool)
    requires { HasRoomFor out.old (if n then codes "[n]" else []) }
    ensures items { out.new.items ≡ out.old.items ++ (if n then codes "[n]" else []) }
    ensures len { vec_len out.new ≡ vec_len out.old + length (if n then codes "[n]" else []) }
    ensures capacity { vec_capacity out.old ≤ vec_capacity out.new }
{
    if n {
        push_bytes(out, b"[n]");
    }
}

/// Pushes the printing of a line that sets an attribute, for which there is room. It takes no memory.
#[tactic(auto, using(crate::proofs::Regroup::regroup))]
pub fn push_set(out: &mut Vec<u8>, name: &[u8], enc: &[u8], value: &[u8], n: bool)
    requires { HasRoomFor out.old (set_text name.now enc.now value.now n) }
    ensures items { out.new.items ≡ out.old.items ++ set_text name.now enc.now value.now n }
    ensures capacity { vec_capacity out.old ≤ vec_capacity out.new }
{
    push_bracket(out, n);
    push_bytes(out, name);
    out.push_reserved(b':');
    push_bytes(out, enc);
    out.push_reserved(b':');
    push_bytes(out, value);
    out.push_reserved(b'\n');
}

/// Pushes the printing of an attribute, for which there is room. It takes no memory.
#[tactic(auto, using(crate::proofs::Regroup::regroup))]
pub fn push_attribute(out: &mut Vec<u8>, name: &[u8], content: &AttributeContentRef<'_>)
    requires { HasRoomFor out.old (attribute_text name.now content.now) }
    ensures items { out.new.items ≡ out.old.items ++ attribute_text name.now content.now }
    ensures capacity { vec_capacity out.old ≤ vec_capacity out.new }
{
    push_bracket(out, content.n());
    push_bytes(out, name);
    out.push_reserved(b':');
    push_bytes(out, content.text());
    out.push_reserved(b'\n');
}

/// Pushes the printing of a line, for which there is room. It takes no memory.
#[tactic(auto, using(crate::proofs::Regroup::regroup))]
pub fn push_line(out: &mut Vec<u8>, line: &HeldLine)
    requires { HasRoomFor out.old (text.print_line line.now) }
    ensures items { out.new.items ≡ out.old.items ++ text.print_line line.now }
    ensures capacity { vec_capacity out.old ≤ vec_capacity out.new }
{
    push_bytes(out, line.start());
    push_bytes(out, line.text());
    out.push_reserved(b'\n');
}

/// The printing of a line.
pub fn print_line(alloc: Global, line: &HeldLine) -> Result<Vec<u8>, Refusal>
    ensures ok { IfOk result (λ printed. printed.items ≡ text.print_line line.now) }
    ensures err { OnErr result (IsErrOf result Refusal.OutOfMemory) }
{
    let len = line_len(line).ok_or(Refusal::OutOfMemory)?;
    let mut out = Vec::with_capacity(alloc, len)?;
    push_line(&mut out, line);
    Ok(out)
}

/// The length of the printing of a header, where it is a length. It takes no memory.
#[inline(always)]
pub fn header_len(mark: Option<u8>, name: &[u8]) -> Option<usize>
    ensures some { IfSome result (λ len. len ≡ length (header_text mark name.now)) }
    ensures none { IfNone result (2 ^ 64 ≤ length (header_text mark name.now)) }
{
    let marks: usize = if mark.is_some() { 3 } else { 2 };
    marks.checked_add(name.len())
}

/// Pushes the mark of a header, if there is one, and `@`, for which there is room.
#[inline(always)]
fn push_mark(out: &mut Vec<u8>, mark: Option<u8>)
    requires { HasRoomFor out.old (option_to_list mark ++ codes "@") }
    ensures items { out.new.items ≡ out.old.items ++ option_to_list mark ++ codes "@" }
    ensures len { vec_len out.new ≡ vec_len out.old + length (option_to_list mark ++ codes "@") }
    ensures capacity { vec_capacity out.old ≤ vec_capacity out.new }
{
    if let Some(byte) = mark {
        out.push_reserved(byte);
    }
    out.push_reserved(b'@');
}

/// Pushes the printing of a header, for which there is room: the mark, if there is one, `@` and the name. It takes no memory.
pub fn push_header(out: &mut Vec<u8>, mark: Option<u8>, name: &[u8])
    requires marked { ForSome mark (λ byte. text.is_header_mark byte ≡ true) }
    requires room { HasRoomFor out.old (header_text mark name.now) }
    ensures items { out.new.items ≡ out.old.items ++ header_text mark name.now }
    ensures capacity { vec_capacity out.old ≤ vec_capacity out.new }
{
    push_mark(out, mark);
    push_bytes(out, name);
    out.push_reserved(b'\n');
}

/// The printing of a header. Its mark says that the block passes a limit (`!`), that its object was created or opened
/// (`+`), deleted or closed (`-`) or truncated (`#`), or that its nonpersistent attributes were dropped (`*`).
pub fn print_header(alloc: Global, mark: Option<u8>, name: &[u8]) -> Result<Vec<u8>, Refusal>
    requires { ForSome mark (λ byte. text.is_header_mark byte ≡ true) }
    ensures ok { IfOk result (λ printed. printed.items ≡ header_text mark name.now) }
    ensures err { OnErr result (IsErrOf result Refusal.OutOfMemory) }
{
    let len = header_len(mark, name).ok_or(Refusal::OutOfMemory)?;
    let mut out = Vec::with_capacity(alloc, len)?;
    push_header(&mut out, mark, name);
    Ok(out)
}

/// The length of the printing of a header of a server's client, where it is a length. It takes no memory.
pub fn client_header_len(mark: Option<u8>, name: &[u8], client: Handle) -> Option<usize>
    ensures some { IfSome result (λ len. len ≡ length (client_header_text mark name.now client)) }
    ensures none { IfNone result (2 ^ 64 ≤ length (client_header_text mark name.now client)) }
{
    let mut buffer = Buffer::new();
    let digits = buffer.format(client.number());
    let marks: usize = if mark.is_some() { 4 } else { 3 };
    (marks + digits.len()).checked_add(name.len())
}

/// Pushes the printing of a header of a server's client, for which there is room: the mark, if there is one, `@`, the
/// object's name, a dot and the client's number. It takes no memory.
#[tactic(auto, using(crate::proofs::Regroup::regroup))]
pub fn push_client_header(out: &mut Vec<u8>, mark: Option<u8>, name: &[u8], client: Handle)
    requires marked { ForSome mark (λ byte. text.is_header_mark byte ≡ true) }
    requires room { HasRoomFor out.old (client_header_text mark name.now client) }
    ensures items { out.new.items ≡ out.old.items ++ client_header_text mark name.now client }
    ensures capacity { vec_capacity out.old ≤ vec_capacity out.new }
{
    let mut buffer = Buffer::new();
    let digits = buffer.format(client.number());
    push_mark(out, mark);
    push_bytes(out, name);
    out.push_reserved(b'.');
    push_bytes(out, digits.as_bytes());
    out.push_reserved(b'\n');
}
