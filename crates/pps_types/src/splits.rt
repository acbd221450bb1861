//! Texts, cut behind a prefix or at the first byte of a kind; and lists, cut at the front.
ghost use Rattle.std.specs.Prelude.{◌≡◌, ◌+◌, ◌≤◌, length, drop, vec_len, vec_capacity};
ghost use Rattle.std.specs.Option.{option_copied};
ghost use Rattle.pps_types.specs.Bytes as words;

use memchr::memchr;

/// What follows a prefix.
pub fn after_prefix<'a>(prefix: &[u8], bytes: &'a [u8]) -> Option<&'a [u8]>
    ensures { option_copied result ≡ words.after_prefix prefix.now bytes.now }
{
    bytes.strip_prefix(prefix)
}

/// What stands before the first of that byte, and what stands behind it.
#[inline(always)]
pub fn split_at_first(byte: u8, bytes: &[u8]) -> Option<(&[u8], &[u8])>
    ensures { words.lent_parts result ≡ words.split_at_first byte bytes.now }
{
    let at = memchr(byte, bytes)?;
    Some((&bytes[..at], &bytes[at + 1..]))
}

/// Drops so many items at the front. It takes no memory.
pub fn drop_front<T: Copy + Drop>(items: &mut Vec<T>, count: usize)
    requires { count ≤ length items.old.items }
    ensures items { items.new.items ≡ drop count items.old.items }
    ensures len { vec_len items.new + count ≡ vec_len items.old }
    ensures capacity { vec_capacity items.new ≡ vec_capacity items.old }
{
    if count == 0 {
        return;
    }
    let left = items.len() - count;
    items.copy_within(count.., 0);
    items.truncate(left);
}
