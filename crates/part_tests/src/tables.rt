//! Values under numbers that rise.

use crate::chance::Chance;
use crate::samples::assert_met;
use number_table::Table;
use std::alloc::{AllocError, Global};
use std::process::Abort;
use std::test::Fail;

/// A number and its value, in a plain list that a table is compared with.
#[derive(Copy, Clone)]
struct Plain {
    number: u64,
    value: u32,
}

/// Pushes a value, where its number may come next.
fn push(table: &mut Table<u32>, number: u64, value: u32) -> Result<(), AllocError> {
    if table.next() <= number && number < u64::MAX {
        table.reserve(1)?;
        table.push_reserved(number, value);
    }
    Ok(())
}

/// Pushes each number of this range as the value under it.
fn push_range(table: &mut Table<u32>, from: u32, to: u32) -> Result<(), AllocError> {
    for number in from..to {
        push(table, number as u64, number)?;
    }
    Ok(())
}

/// Changes the value under a number, where there is one.
fn set(table: &mut Table<u32>, number: u64, value: u32) {
    if let Some(place) = table.place(number) {
        *table.value_mut(number, place) = value;
    }
}

/// Whether there are so many values, and as many are lent in turn.
fn has_count(table: &Table<u32>, count: usize) -> bool {
    table.len() == count && table.iter().count() == count
}

/// Whether the table has just these values, in this order.
fn holds(table: &Table<u32>, values: &[u32]) -> bool {
    has_count(table, values.len())
        && table
            .iter()
            .zip(values)
            .all(|(held, value)| *held == *value)
}

/// Pushes these values, each under the number ten times as high.
fn push_tens(table: &mut Table<u32>, values: &[u32]) -> Result<(), AllocError> {
    for value in values {
        push(table, u64::from(*value).wrapping_mul(10), *value)?;
    }
    Ok(())
}

/// Removes the values of the numbers below this one, but each fourth. Whether each was there.
fn removes_three_of_four(table: &mut Table<u32>, end: u32) -> bool {
    let mut was_there = true;
    for number in 0..end {
        if number % 4 != 3 {
            was_there = table.remove(u64::from(number)) == Some(number) && was_there;
        }
    }
    was_there
}

/// Changes the value under a number by the reference to it, if there is one.
fn change(table: &mut Table<u32>, number: u64, value: u32) {
    if let Some(held) = table.get_mut(number) {
        *held = value;
    }
}

/// A call of a table, or what it has to answer.
#[derive(Clone, Copy)]
enum Step {
    /// A value is pushed under a number, if that may come next.
    Push(u64, u32),
    /// Values are pushed, each under the number ten times as high.
    PushTens(&'static [u32]),
    /// Each number of this range is pushed as the value under it.
    PushRange(u32, u32),
    /// The value under a number is changed by its place, if there is one.
    Set(u64, u32),
    /// The value under a number is changed by the reference to it, if there is one.
    Change(u64, u32),
    /// Room is made for so many.
    Reserve(usize),
    /// The other table is a copy of this one from here on.
    Copy,
    /// The steps after this one are of the other table.
    Swap,
    /// The value under a number is removed.
    Remove(u64, Option<u32>),
    /// The values of the numbers below this one are removed, but each fourth.
    RemoveThreeOfFour(u32),
    /// The table has just these values, in this order.
    Holds(&'static [u32]),
    Next(u64),
    Len(usize),
    /// There are so many values, and as many are lent in turn.
    Count(usize),
    IsEmpty(bool),
    Get(u64, Option<u32>),
    GetNear(u64, usize, Option<u32>),
    /// No value is lent to be changed under that number.
    LendsNone(u64),
    Place(u64, Option<usize>),
    /// The place of a number is another.
    PlaceIsNot(u64, usize),
    /// Room for as many values as there are numbers is refused.
    RefusesRoom,
    /// Whether both tables are the same.
    Same(bool),
}

/// Steps of a table whose first number may be this one, under the name of what they show.
#[derive(Clone, Copy)]
struct Steps {
    name: &'static str,
    next: u64,
    list: &'static [Step],
}

const STEPS: &[Steps] = &[
    Steps {
        name: "values_are_found_by_their_numbers",
        next: 0,
        list: &[
            Step::PushTens(&[4, 9, 11]),
            Step::Holds(&[4, 9, 11]),
            Step::Next(111),
            Step::Get(90, Some(9)),
            Step::Get(91, None),
            Step::Get(111, None),
            Step::Change(90, 8),
            Step::Get(90, Some(8)),
            Step::Set(110, 7),
            Step::Holds(&[4, 8, 7]),
            Step::Remove(90, Some(8)),
            Step::Remove(90, None),
            Step::Remove(91, None),
            Step::Get(90, None),
            Step::LendsNone(90),
            Step::Place(90, None),
            Step::Holds(&[4, 7]),
            Step::Next(111),
        ],
    },
    Steps {
        name: "a_table_is_empty_until_a_value_comes",
        next: 5,
        list: &[
            Step::IsEmpty(true),
            Step::Holds(&[]),
            Step::Push(4, 1),
            Step::IsEmpty(true),
            Step::Push(5, 1),
            Step::IsEmpty(false),
            Step::Remove(5, Some(1)),
            Step::IsEmpty(true),
            Step::Next(6),
        ],
    },
    Steps {
        name: "any_hint_will_do",
        next: 0,
        list: &[
            Step::PushTens(&[1, 2, 3]),
            Step::Place(20, Some(1)),
            Step::GetNear(20, 0, Some(2)),
            Step::GetNear(25, 0, None),
            Step::GetNear(20, 1, Some(2)),
            Step::GetNear(25, 1, None),
            Step::GetNear(20, 2, Some(2)),
            Step::GetNear(25, 2, None),
            Step::GetNear(20, 3, Some(2)),
            Step::GetNear(25, 3, None),
            Step::GetNear(20, 4, Some(2)),
            Step::GetNear(25, 4, None),
            Step::GetNear(20, usize::MAX, Some(2)),
        ],
    },
    // Slots without a value are dropped when they are most, and each value is still found, by old hints too.
    Steps {
        name: "values_are_found_after_slots_are_dropped",
        next: 0,
        list: &[
            Step::PushRange(0, 200),
            Step::Place(199, Some(199)),
            Step::RemoveThreeOfFour(199),
            Step::Len(50),
            Step::PlaceIsNot(199, 199),
            Step::GetNear(199, 199, Some(199)),
            Step::Get(3, Some(3)),
            Step::Get(2, None),
            Step::PushRange(200, 210),
            Step::Count(60),
            Step::Get(209, Some(209)),
        ],
    },
    Steps {
        name: "the_last_number_is_not_passed",
        next: u64::MAX - 1,
        list: &[
            Step::Push(u64::MAX - 1, 1),
            Step::Push(u64::MAX, 2),
            Step::Holds(&[1]),
            Step::Get(u64::MAX - 1, Some(1)),
        ],
    },
    // Room is made for several pushes, which then take no memory; a table that was refused it has what it had.
    Steps {
        name: "refused_room_changes_nothing",
        next: 0,
        list: &[
            Step::PushTens(&[1, 2]),
            Step::RefusesRoom,
            Step::Holds(&[1, 2]),
            Step::Reserve(100),
        ],
    },
    Steps {
        name: "copies_are_the_same_until_one_is_changed",
        next: 0,
        list: &[
            Step::PushTens(&[1, 2, 3, 4]),
            Step::Remove(20, Some(2)),
            Step::Copy,
            Step::Same(true),
            Step::Swap,
            Step::Place(30, Some(1)),
            Step::Next(41),
            Step::Swap,
            Step::Set(40, 5),
            Step::Same(false),
            Step::Swap,
            Step::Holds(&[1, 3, 4]),
            Step::Swap,
            Step::Set(40, 4),
            Step::Same(true),
            Step::Remove(40, Some(4)),
            Step::Same(false),
        ],
    },
    // Equal values under other numbers, or with another number next, are not the same.
    Steps {
        name: "numbers_are_compared_too",
        next: 0,
        list: &[
            Step::Same(true),
            Step::Push(1, 7),
            Step::Push(3, 7),
            Step::Swap,
            Step::Push(2, 7),
            Step::Push(3, 7),
            Step::Swap,
            Step::Same(false),
            Step::Remove(1, Some(7)),
            Step::Swap,
            Step::Remove(2, Some(7)),
            Step::Swap,
            Step::Same(true),
            Step::Push(4, 7),
            Step::Remove(4, Some(7)),
            Step::Same(false),
        ],
    },
];

/// A table and another.
#[derive(Drop)]
struct Pair {
    table: Table<u32>,
    other: Table<u32>,
}

/// Carries out a call. Whether the step is one.
fn is_carried_out(pair: &mut Pair, step: Step) -> Result<bool, AllocError> {
    let table = &mut pair.table;
    match step {
        Step::Push(number, value) => push(table, number, value)?,
        Step::PushTens(values) => push_tens(table, values)?,
        Step::PushRange(from, to) => push_range(table, from, to)?,
        Step::Set(number, value) => set(table, number, value),
        Step::Change(number, value) => change(table, number, value),
        Step::Reserve(count) => table.reserve(count)?,
        Step::Copy => pair.other = table.copy()?,
        Step::Swap => std::mem::swap(&mut pair.table, &mut pair.other),
        _ => return Ok(false),
    }
    Ok(true)
}

/// Whether the table answers as the step says.
fn is_answered(pair: &mut Pair, step: Step) -> bool {
    let table = &mut pair.table;
    match step {
        Step::Remove(number, value) => table.remove(number) == value,
        Step::RemoveThreeOfFour(end) => removes_three_of_four(table, end),
        Step::Holds(values) => holds(table, values),
        Step::Next(number) => table.next() == number,
        Step::Len(len) => table.len() == len,
        Step::Count(count) => has_count(table, count),
        Step::IsEmpty(is) => table.is_empty() == is,
        Step::Get(number, value) => table.get(number).copied() == value,
        Step::GetNear(number, hint, value) => table.get_near(number, hint).copied() == value,
        Step::LendsNone(number) => table.get_mut(number).is_none(),
        Step::Place(number, place) => table.place(number) == place,
        Step::PlaceIsNot(number, place) => table.place(number) != Some(place),
        Step::RefusesRoom => table.reserve(usize::MAX).is_err(),
        Step::Same(is) => table.same(&pair.other) == is && pair.other.same(table) == is,
        _ => false,
    }
}

/// Plays the steps in turn, of two tables that begin empty.
fn play(rt: &impl Abort, alloc: Global, steps: &Steps) -> Result<(), AllocError> {
    let mut pair = Pair {
        table: Table::new(alloc, steps.next),
        other: Table::new(alloc, steps.next),
    };
    for (number, step) in steps.list.iter().enumerate() {
        let is_met = is_carried_out(&mut pair, *step)? || is_answered(&mut pair, *step);
        assert_met(rt, is_met, steps.name, number);
    }
    Ok(())
}

#[test]
fn tables_answer_in_turn(rt: HostRuntime) -> Result<(), Fail> {
    for steps in STEPS {
        play(&rt, rt.alloc(), steps)?;
    }
    Ok(())
}

/// Whether the table has just what the plain list has.
fn agrees(table: &Table<u32>, plain: &[Plain]) -> bool {
    let mut is_alike = has_count(table, plain.len());
    for (held, entry) in table.iter().zip(plain) {
        let found = table.get(entry.number).copied();
        is_alike = is_alike && *held == entry.value && found == Some(entry.value);
    }
    is_alike
}

/// A table of two values that own memory, into room that is made for both at once.
fn table_of_bytes(alloc: Global) -> Result<Table<Vec<u8>>, AllocError> {
    let mut table = Table::new(alloc, 0);
    let first = vec![in alloc; 1u8, 2]?;
    let second = vec![in alloc; 3u8]?;
    table.reserve(2)?;
    table.push_reserved(0, first);
    table.push_reserved(1, second);
    Ok(table)
}

/// How many bytes there are under a number.
fn bytes_under(table: &Table<Vec<u8>>, number: u64) -> usize {
    match table.get(number) {
        None => 0,
        Some(bytes) => bytes.len(),
    }
}

/// Adds a byte to those under a number.
fn add_byte(table: &mut Table<Vec<u8>>, number: u64) -> Result<(), AllocError> {
    if let Some(bytes) = table.get_mut(number) {
        bytes.push(4)?;
    }
    Ok(())
}

#[test]
fn values_that_own_memory_move_in_and_out(rt: HostRuntime) -> Result<(), Fail> {
    let mut table = table_of_bytes(rt.alloc())?;
    let copy = table.copy()?;
    add_byte(&mut table, 1)?;
    let taken = table.remove(1).unwrap_or(Vec::new(rt.alloc()));
    assert_eq!(rt; taken.len(), 2usize);
    assert_eq!(rt; bytes_under(&copy, 1), 1usize);
    assert_eq!(rt; bytes_under(&table, 0), 2usize);
    Ok(())
}

/// The value of the plain list under that number.
fn value_under(plain: &[Plain], number: u64) -> Option<u32> {
    Some(plain.iter().find(|entry| entry.number == number)?.value)
}

/// A number by chance: one that the table has, or up to one above its next.
fn number_by(chance: &mut Chance, table: &Table<u32>, plain: &[Plain]) -> u64 {
    match plain.get(chance.below(200) as usize) {
        Some(entry) => entry.number,
        None => {
            let bound = table.next().wrapping_add(2);
            u64::from(chance.number()).checked_rem(bound).unwrap_or(0)
        }
    }
}

/// One call of both by chance. Whether they answer alike.
fn goes_alike(
    chance: &mut Chance,
    table: &mut Table<u32>,
    plain: &mut Vec<Plain>,
    value: u32,
) -> Result<bool, AllocError> {
    let number = number_by(chance, table, plain);
    let found = value_under(plain, number);
    match chance.below(8) {
        0..=2 => {
            let number = table.next().wrapping_add(u64::from(chance.below(3)));
            push(table, number, value)?;
            plain.push(Plain { number, value })?;
            Ok(true)
        }
        3 => {
            set(table, number, value);
            for entry in plain.iter_mut().filter(|entry| entry.number == number) {
                entry.value = value;
            }
            Ok(true)
        }
        4 => {
            let hint = chance.below(100) as usize;
            Ok(table.get_near(number, hint).copied() == found)
        }
        _ => {
            plain.retain(|entry| entry.number != number);
            Ok(table.remove(number) == found)
        }
    }
}

/// A long list of calls, each made of a table and of a plain list.
#[test]
fn random_calls_agree_with_a_plain_list(rt: HostRuntime) -> Result<(), Fail> {
    let mut chance = Chance::new(1);
    let mut table = Table::new(rt.alloc(), 0);
    let mut plain = Vec::new(rt.alloc());
    for value in 0..3000u32 {
        let is_met = goes_alike(&mut chance, &mut table, &mut plain, value)?
            && (value % 100 != 99 || agrees(&table, &plain));
        assert_met(
            &rt,
            is_met,
            "random_calls_agree_with_a_plain_list",
            value as usize,
        );
    }
    Ok(())
}
