//! Lists whose positions never change.

use crate::samples::assert_met;
use change_chain::Chain;
use std::alloc::{AllocError, Global};
use std::process::Abort;
use std::test::Fail;

/// Pushes these numbers, into room that is made at once. If there is no room, or no position, nothing is pushed.
fn push_all(chain: &mut Chain<u32>, numbers: &[u32]) -> Result<(), AllocError> {
    for number in numbers {
        if chain.end() < u64::MAX {
            chain.reserve(1)?;
            chain.push_reserved(*number);
        }
    }
    Ok(())
}

/// Cuts, if the chain has the position.
fn cut_at(chain: &mut Chain<u32>, to: u64) {
    if chain.start() <= to && to <= chain.end() {
        chain.cut(to);
    }
}

/// The item at a position, where there is one.
fn item_at(chain: &Chain<u32>, position: u64) -> Option<u32> {
    if chain.start() <= position && position < chain.end() {
        return Some(*chain.at(position));
    }
    None
}

/// Whether the chain has just these items, from this position on.
fn holds(chain: &Chain<u32>, start: u64, numbers: &[u32]) -> bool {
    for (i, number) in numbers.iter().enumerate() {
        if item_at(chain, start.wrapping_add(i as u64)) != Some(*number) {
            return false;
        }
    }
    chain.start() == start && chain.end().wrapping_sub(start) == numbers.len() as u64
}

/// A call of a chain, or what it has to answer.
#[derive(Clone, Copy)]
enum Step {
    /// These numbers are pushed, if there are positions for them.
    Push(&'static [u32]),
    /// What is before the position is cut, if the chain has the position.
    Cut(u64),
    /// Room is made for so many.
    Reserve(usize),
    /// The other chain is a copy of this one from here on.
    Copy,
    /// The chain has just these items, from this position on.
    Holds(u64, &'static [u32]),
    /// The other chain has just these.
    OtherHolds(u64, &'static [u32]),
    /// Room for as many items as there are positions is refused.
    RefusesRoom,
    /// Whether both chains are the same.
    Same(bool),
    /// Whether a chain of these numbers from this position on is the same as the other.
    SameElsewhere(u64, &'static [u32], bool),
}

/// Steps of a chain from this position on, under the name of what they show.
#[derive(Clone, Copy)]
struct Steps {
    name: &'static str,
    start: u64,
    list: &'static [Step],
}

const STEPS: &[Steps] = &[
    Steps {
        name: "items_keep_their_positions",
        start: 7,
        list: &[
            Step::Push(&[1, 2, 3]),
            Step::Holds(7, &[1, 2, 3]),
            Step::Cut(9),
            Step::Holds(9, &[3]),
            Step::Push(&[4]),
            Step::Holds(9, &[3, 4]),
            Step::Cut(11),
            Step::Holds(11, &[]),
        ],
    },
    Steps {
        name: "copies_are_the_same_until_one_is_changed",
        start: 3,
        list: &[
            Step::Push(&[1, 2]),
            Step::Copy,
            Step::Same(true),
            Step::Push(&[3]),
            Step::Same(false),
            Step::OtherHolds(3, &[1, 2]),
            Step::SameElsewhere(4, &[1, 2], false),
        ],
    },
    Steps {
        name: "the_last_position_is_not_passed",
        start: u64::MAX - 1,
        list: &[Step::Push(&[1, 2, 3]), Step::Holds(u64::MAX - 1, &[1])],
    },
    // Room is made for several pushes, which then take no memory; a chain that was refused it is as it was.
    Steps {
        name: "refused_room_changes_nothing",
        start: 0,
        list: &[
            Step::Push(&[1, 2]),
            Step::RefusesRoom,
            Step::Holds(0, &[1, 2]),
            Step::Reserve(100),
        ],
    },
];

/// Whether a chain of these numbers from a position on is the same as this one.
fn same_elsewhere(
    alloc: Global,
    chain: &Chain<u32>,
    start: u64,
    numbers: &[u32],
) -> Result<bool, AllocError> {
    let mut elsewhere = Chain::new(alloc, start);
    push_all(&mut elsewhere, numbers)?;
    Ok(elsewhere.same(chain))
}

/// Plays the steps in turn, of two chains that begin empty.
fn play(rt: &impl Abort, alloc: Global, steps: &Steps) -> Result<(), AllocError> {
    let mut chain = Chain::new(alloc, steps.start);
    let mut other = Chain::new(alloc, steps.start);
    for (number, step) in steps.list.iter().enumerate() {
        let mut is_met = true;
        match *step {
            Step::Push(numbers) => push_all(&mut chain, numbers)?,
            Step::Cut(to) => cut_at(&mut chain, to),
            Step::Reserve(count) => chain.reserve(count)?,
            Step::Copy => other = chain.copy()?,
            Step::Holds(start, numbers) => is_met = holds(&chain, start, numbers),
            Step::OtherHolds(start, numbers) => is_met = holds(&other, start, numbers),
            Step::RefusesRoom => is_met = chain.reserve(usize::MAX).is_err(),
            Step::Same(is) => is_met = chain.same(&other) == is,
            Step::SameElsewhere(start, numbers, is) => {
                is_met = same_elsewhere(alloc, &other, start, numbers)? == is;
            }
        }
        assert_met(rt, is_met, steps.name, number);
    }
    Ok(())
}

#[test]
fn chains_answer_in_turn(rt: HostRuntime) -> Result<(), Fail> {
    for steps in STEPS {
        play(&rt, rt.alloc(), steps)?;
    }
    Ok(())
}
