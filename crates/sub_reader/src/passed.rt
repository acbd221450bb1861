//! Where a read leads.
ghost use Rattle.std.specs.Prelude.{◌≡◌, ◌≤◌};
ghost use Rattle.change_chain.specs.Span.{end_of};
ghost use Rattle.sub_reader.specs.Chained.{records_from, rest_past, IsPlaceIn, PassesTo};

use crate::opening::Opening;
use crate::place::Place;
use crate::sight::is_visible;
use change_chain::Chain;
use server_queue::Entry;

// The position, from one on, of the first record that is given behind so many that are given.
fn behind(target: u64, opening: &Opening, records: &Chain<Entry>, from: u64, count: usize) -> u64
    requires from_start { records.now.start ≤ from }
    requires up_to_end { from ≤ end_of records.now }
    ensures from_start { from ≤ result }
    ensures up_to_end { result ≤ end_of records.now }
    ensures place { records_from result records.now
        ≡ rest_past target opening.now count (records_from from records.now) }
{
    let mut left = count;
    let end = records.end();
    'rest: for position in from..end {
        if !is_visible(target, opening, records.at(position)) {
            continue;
        }
        if left == 0 {
            return position;
        }
        left -= 1;
    }
    end
}

/// Where a handle on the object or directory of that number is that was given so many records more.
pub(crate) fn passed(
    target: u64,
    opening: &Opening,
    records: &Chain<Entry>,
    place: Place,
    count: usize,
) -> Place
    requires { IsPlaceIn target opening.now records.now place }
    ensures is { IsPlaceIn target opening.now records.now result }
    ensures seen { PassesTo target opening.now records.now count place result }
{
    let (first, owed) = match place {
        Place::At { first, owed } => (first, owed),
        _ => return place,
    };
    if count >= owed as usize {
        return Place::Idle;
    }
    Place::At {
        first: behind(target, opening, records, first, count),
        owed: owed - count as u32,
    }
}
