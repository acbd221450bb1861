//! Entries by number: vectors in which the numbers rise, so that one is found without looking at all.
ghost use Rattle.std.specs.Prelude.{◌≡◌, ◌+◌, ◌<◌, ◌≤◌, ◌==◌, ℕ, not, None, if◌then◌else◌, length, filter, find, insert, IfOk, IfErr, IfNone, vec_len, vec_capacity};
ghost use Rattle.std.specs.List.{list_any};
ghost use Rattle.pps_types.specs.Outbox.{put_rising};
ghost use Rattle.pps_types.specs.Rising.{IsRising, IsPlaceOf, IsGapFor};
ghost use Rattle.notify_box.specs.ByNumber.{all_but, HasPlaceFor};

use pps_types::Handle;

/// What has a number.
pub(crate) trait Numbered: Drop {
    ghost number_of: { Self → ℕ };

    fn number(&self) -> u32
        ensures { result ≡ number_of self.now };
}

impl Numbered for Handle {
    ghost number_of = { λ h. h };

    fn number(&self) -> u32 {
        Handle::number(*self)
    }
}

/// Where a number stands, or else where it would go.
pub(crate) fn search<T: Numbered>(entries: &[T], number: u32) -> Result<usize, usize>
    requires { IsRising T.number_of entries.now }
    ensures found { IfOk result (IsPlaceOf T.number_of entries.now number) }
    ensures absent { IfErr result (IsGapFor T.number_of entries.now number) }
    ensures place { IfOk result (λ i. i < length entries.now) }
    ensures gap { IfErr result (λ i. i ≤ length entries.now) }
{
    entries.binary_search_by_key(&number, |entry| entry.number())
}

/// Whether an entry has the number.
pub(crate) fn has<T: Numbered>(entries: &[T], number: u32) -> bool
    requires { IsRising T.number_of entries.now }
    ensures { result ≡ list_any (λ e. T.number_of e == number) entries.now }
{
    search(entries, number).is_ok()
}

/// Puts an entry at a place. It takes no memory.
pub(crate) fn insert_reserved<T: Drop>(entries: &mut Vec<T>, place: usize, entry: T)
    requires in_range { place ≤ vec_len entries.old }
    requires room { vec_len entries.old < vec_capacity entries.old }
    ensures items { entries.new.items ≡ insert entries.old.items place entry }
    ensures len { vec_len entries.new ≡ vec_len entries.old + 1 }
    ensures capacity { vec_capacity entries.new ≡ vec_capacity entries.old }
{
    let _ = entries.insert(place, entry);
}

/// Puts an entry in its place, where one of its number gives way. It takes no memory.
pub(crate) fn put<T: Numbered>(entries: &mut Vec<T>, entry: T)
    requires rising { IsRising T.number_of entries.old.items }
    requires room { HasPlaceFor T.number_of entry entries.old }
    ensures items { entries.new.items
        ≡ put_rising T.number_of entry (filter (λ e. not (T.number_of e == T.number_of entry)) entries.old.items) }
    ensures len { vec_len entries.new
        ≡ vec_len entries.old + (if list_any (λ e. T.number_of e == T.number_of entry) entries.old.items then 0 else 1) }
    ensures capacity { vec_capacity entries.new ≡ vec_capacity entries.old }
    ensures rising { IsRising T.number_of entries.new.items }
{
    match search(entries, entry.number()) {
        Ok(i) => entries[i] = entry,
        Err(i) => insert_reserved(entries, i, entry),
    }
}

/// Takes the entry of a number out, if there is one.
pub(crate) fn take_out<T: Numbered>(entries: &mut Vec<T>, number: u32) -> Option<T>
    requires { IsRising T.number_of entries.old.items }
    ensures entry { result ≡ find (λ e. T.number_of e == number) entries.old.items }
    ensures items { entries.new.items ≡ all_but T.number_of number entries.old.items }
    ensures len { vec_len entries.old
        ≡ vec_len entries.new + (if list_any (λ e. T.number_of e == number) entries.old.items then 1 else 0) }
    ensures capacity { vec_capacity entries.new ≡ vec_capacity entries.old }
    ensures rising { IsRising T.number_of entries.new.items }
    ensures none { IfNone result (entries.new ≡ entries.old) }
{
    match search(entries, number) {
        Ok(i) => Some(entries.remove(i)),
        Err(_) => None,
    }
}
