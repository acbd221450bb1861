//! Whom records wake, of handles in several places.
ghost use Rattle.std.specs.Prelude.{◌≡◌, ◌+◌, ◌<◌, [], ◌∷◌, length, IfOk, IfNone, IfSome};
ghost use Rattle.open_handles.specs.United.{united};

use pps_types::Handle;
use std::alloc::{AllocError, Global};

/// The lowest of two lists of handles in rising number, and what is left of both behind it.
#[derive(Drop)]
struct Lowest<'a> {
    handle: Handle,
    one: &'a [Handle],
    other: &'a [Handle],
}

/// Takes the lowest, if there is one, off each list that begins with it.
fn take_lowest<'a>(one: &'a [Handle], other: &'a [Handle]) -> Option<Lowest<'a>>
    ensures none { IfNone result (united one.now other.now ≡ []) }
    ensures some { IfSome result (λ l.
        united one.now other.now ≡ l.handle ∷ united l.one.now l.other.now) }
    ensures fewer { IfSome result (λ l.
        length l.one.now + length l.other.now < length one.now + length other.now) }
{
    let [x, xs @ ..] = one else {
        let [y, ys @ ..] = other else {
            return None;
        };
        return Some(Lowest {
            handle: *y,
            one,
            other: ys,
        });
    };
    let [y, ys @ ..] = other else {
        return Some(Lowest {
            handle: *x,
            one: xs,
            other,
        });
    };
    if x.number() < y.number() {
        return Some(Lowest {
            handle: *x,
            one: xs,
            other,
        });
    }
    let one = if y.number() < x.number() { one } else { xs };
    Some(Lowest {
        handle: *y,
        one,
        other: ys,
    })
}

// Both lists of handles, each in rising number, as one.
#[inline(never)]
fn merged(alloc: Global, one: Vec<Handle>, other: Vec<Handle>) -> Result<Vec<Handle>, AllocError>
    ensures { IfOk result (λ all. all.items ≡ united one.items other.items) }
{
    let mut all = Vec::new(alloc);
    let mut one_left = one.as_slice();
    let mut other_left = other.as_slice();
    'lowest: while let Some(lowest) = take_lowest(one_left, other_left) {
        all.push(lowest.handle)?;
        one_left = lowest.one;
        other_left = lowest.other;
    }
    Ok(all)
}

/// Both lists of handles, each in rising number, as one: in rising number, and what is in both once.
///
/// It takes memory only where neither is empty. AllocError comes only where that is wanting.
#[inline(always)]
pub(crate) fn unite(
    alloc: Global,
    one: Vec<Handle>,
    other: Vec<Handle>,
) -> Result<Vec<Handle>, AllocError>
    ensures { IfOk result (λ all. all.items ≡ united one.items other.items) }
{
    if one.is_empty() {
        return Ok(other);
    }
    if other.is_empty() {
        return Ok(one);
    }
    merged(alloc, one, other)
}
