//! The run queue: the numbers of the sessions that wait to be served.
//!
//! Each worker has a pass, whose view is the numbers that it holds. Seven kinds of step are taken on the queue and the
//! passes. A pass is made, which holds all numbers. A number is put in, out of the pass's view, or a put finds the queue
//! full, which is excluded here. A number is taken out, into the view, or a take finds the queue empty. A pass is split off
//! another one, and holds nothing. Two passes are joined: one of them holds all that both did, the other nothing.
ghost use Rattle.std.specs.Prelude.{◌≡◌, ◌≤◌, ◌<◌, ℕ, List, [], ◌∷◌, ◌++◌, IfOk, IfSome, IfNone};
ghost use Rattle.crossbeam_queue.specs.Passes.{view, IsPassOf, IsSamePass, ruled_capacity};
ghost use Rattle.pps_dispatch.specs.RunQueue.{numbers_from, EachIsHeldOnce};

use crossbeam_queue::protocol::{Join, Lesson, Outcome, Protocol, Split};
use crossbeam_queue::{Pass, RuledArrayQueue};
use std::alloc::{AllocError, Global};
use std::collections::LinkedList;
use std::marker::{Brand, PhantomData};
use std::sync::Wait;

/// How many sessions there are. It is no number of the program, but of its proofs: each call of `serve` picks its own.
pub trait SessionCount {
    ghost use Rattle.std.specs.Prelude.{ℕ};

    ghost count: { ℕ };
}

impl SessionCount for Brand {
    ghost count = { 0 };
}

/// The rule: the queue and the views hold together the number of each session, once, and no others.
pub struct EachOnce<N: SessionCount> {
    count: PhantomData<N>,
}

impl<N: SessionCount> Protocol<usize, LinkedList<usize>> for EachOnce<N> {
    ghost use Rattle.pps_dispatch.specs.RunQueue.{HoldEach, numbers_from};

    ghost holds = { HoldEach N.count };

    ghost first = { numbers_from 0 N.count };
}

/// What is known of a number put in: the view had it and has it no more. Where the queue is full there is no place for it,
/// though queue and view hold no more numbers than there are sessions.
pub struct PutIn<N: SessionCount> {
    count: PhantomData<N>,
}

impl<N: SessionCount> Outcome<usize, LinkedList<usize>> for PutIn<N> {
    ghost use Rattle.std.specs.Prelude.{◌≡◌, ◌∷◌};

    ghost then = { λ v x w. v ≡ x ∷ w };
}

impl<N: SessionCount> Lesson<usize, LinkedList<usize>> for PutIn<N> {
    ghost use Rattle.std.specs.Prelude.{◌≤◌, ◌+◌, length};

    ghost fact = { λ v items. length items + length v ≤ N.count };
}

/// What is known of a number taken out: it is a session's, and the view has it now.
pub struct TakenOut<N: SessionCount> {
    count: PhantomData<N>,
}

impl<N: SessionCount> Outcome<usize, LinkedList<usize>> for TakenOut<N> {
    ghost use Rattle.std.specs.Prelude.{◌≡◌, ◌∷◌, ◌<◌};

    ghost then = { λ v x w. (w ≡ x ∷ v) × (x < N.count) };
}

impl<N: SessionCount> Lesson<usize, LinkedList<usize>> for TakenOut<N> {
    ghost use Rattle.std.specs.Prelude.{⊤};

    ghost fact = { λ v items. ⊤ };
}

/// How views are split and joined.
pub struct Shares;

impl Split<LinkedList<usize>> for Shares {
    ghost use Rattle.std.specs.Prelude.{[]};

    ghost left = { λ v. v };

    ghost right = { λ v. [] };
}

impl Join<LinkedList<usize>> for Shares {
    ghost use Rattle.std.specs.Prelude.{[], ◌++◌};

    ghost both = { λ v w. v ++ w };

    ghost spent = { [] };
}

/// A queue of sessions' numbers under the rule.
pub type RunQueue<N> = RuledArrayQueue<usize, LinkedList<usize>, EachOnce<N>>;

/// A pass of a run queue.
pub type QueuePass = Pass<usize, LinkedList<usize>>;

/// An empty queue with a place for each session, one at least, and a pass that holds all numbers.
pub fn new_queue<N: SessionCount>(
    alloc: Global,
    count: usize,
) -> Result<(RunQueue<N>, QueuePass), AllocError>
    requires { count ≡ N.count }
    ensures pass { IfOk result (λ q. IsPassOf q.0 q.1) }
    ensures view { IfOk result (λ q. view q.1 ≡ numbers_from 0 N.count) }
    ensures room { IfOk result (λ q. N.count ≤ ruled_capacity q.0) }
{
    RunQueue::<N>::ruled(alloc, if count == 0 { 1 } else { count })
}

/// Puts all numbers in, in the order of the sessions.
pub fn fill<N: SessionCount, R: Wait>(
    rt: &R,
    queue: &RunQueue<N>,
    pass: &mut QueuePass,
    count: usize,
)
    requires count { count ≡ N.count }
    requires room { N.count ≤ ruled_capacity queue.now }
    requires pass { IsPassOf queue.now pass.old }
    requires view { view pass.old ≡ numbers_from 0 N.count }
    ensures pass { IsSamePass pass.old pass.new }
    ensures view { view pass.new ≡ [] }
{
    for number in 0..count {
        put_in(rt, queue, pass, number);
    }
}

/// Takes the number that has waited longest, if one waits.
pub fn take_out<N: SessionCount, R: Wait>(
    rt: &R,
    queue: &RunQueue<N>,
    pass: &mut QueuePass,
) -> Option<usize>
    requires pass { IsPassOf queue.now pass.old }
    ensures pass { IsSamePass pass.old pass.new }
    ensures taken { IfSome result (λ x. (view pass.new ≡ x ∷ view pass.old) × (x < N.count)) }
    ensures none { IfNone result (view pass.new ≡ view pass.old) }
{
    queue.pop_as::<TakenOut<N>, R>(rt, pass)
}

/// Puts in the number that the pass has taken last. There is always a place for it.
pub fn put_in<N: SessionCount, R: Wait>(
    rt: &R,
    queue: &RunQueue<N>,
    pass: &mut QueuePass,
    number: usize,
)
    requires room { N.count ≤ ruled_capacity queue.now }
    requires pass { IsPassOf queue.now pass.old }
    requires held { (rest : List ℕ) × (view pass.old ≡ number ∷ rest) }
    ensures pass { IsSamePass pass.old pass.new }
    ensures view { view pass.old ≡ number ∷ view pass.new }
{
    let put = queue.push_as::<PutIn<N>, R>(rt, pass, number);
    if put.is_err() {
        unreachable!()
    }
}

/// Splits off a pass that holds nothing.
pub fn split_off<N: SessionCount>(queue: &RunQueue<N>, pass: &mut QueuePass) -> QueuePass
    requires { IsPassOf queue.now pass.old }
    ensures same { IsSamePass pass.old pass.new }
    ensures pass { IsPassOf queue.now result }
    ensures view { (view pass.new ≡ view pass.old) × (view result ≡ []) }
{
    queue.another::<Shares>(pass)
}

/// Joins a pass to this one, which then holds all that both did.
pub fn join_to<N: SessionCount>(queue: &RunQueue<N>, pass: &mut QueuePass, other: QueuePass)
    requires { IsPassOf queue.now pass.old × IsPassOf queue.now other }
    ensures same { IsSamePass pass.old pass.new }
    ensures view { view pass.new ≡ view pass.old ++ view other }
{
    queue.absorb::<Shares>(pass, other)
}

/// Does nothing. Its contract is the law that where the rule holds no number stands twice, in the queue and in all views
/// together, and only sessions' numbers stand there.
pub fn none_stands_twice()
    ensures { EachIsHeldOnce }
{}
