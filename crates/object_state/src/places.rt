//! Where the attributes stand that a filter matches.
ghost use Rattle.std.specs.Prelude.{◌≡◌, ◌≤◌, ◌<◌, ◌^◌, length};
ghost use Rattle.pps_filter.specs.Seen.{part_seen};
ghost use Rattle.object_state.specs.Entries.{attributes_in};
ghost use Rattle.object_state.specs.Places.{IsPlaceOf, IsFirstPlace, earlier_place};

use crate::attributes::Attributes;
use pps_filter::{Filter, Part};

// The place of the attribute that the part matches, where there is one. The map knows it by its name.
fn place_of(map: &Attributes, part: &Part) -> Option<usize>
    ensures { IsPlaceOf (part_seen part.now) (attributes_in map.now) result }
{
    let place = map.get_index_of(part.name())?;
    let (_, content) = map.get_index(place)?;
    if part.is_met_by(content.lend().value()) {
        return Some(place);
    }
    None
}

// That place, where it stands from `from` on and before `first`; else `first`.
fn earlier(place: Option<usize>, from: usize, first: usize) -> usize
    ensures { result ≡ earlier_place place from first }
{
    match place {
        Some(place) if from <= place && place < first => place,
        _ => first,
    }
}

/// The first place from `from` on whose attribute the filter matches; where there is none, how many attributes there
/// are. It asks the map about each part of the filter, and no other attribute.
pub(crate) fn first_place(map: &Attributes, filter: &Filter, from: usize) -> usize
    requires { from ≤ length map.now.entries }
    ensures first { IsFirstPlace filter.now (attributes_in map.now) from result }
    ensures count { length map.now.entries < 2 ^ 64 }
{
    let mut first = map.len();
    'parts: for part in filter.parts() {
        first = earlier(place_of(map, part), from, first);
    }
    first
}
