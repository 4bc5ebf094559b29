//! Tests of what no contract says of queues: that calls succeed, also after one was refused memory, that each item is
//! dropped once, and what memory the blocks take.

use super::comparing::{holds, holds_at};
use super::numbers::Numbers;
use block_queue::{BlockQueue, Fifo, PlainQueue};
use std::alloc::{AllocError, Global};
use std::process::Abort;
use std::sync::atomic::{AtomicU64, Ordering};
use std::test::Fail;

/// How many numbers are popped from a queue, and how many are left in it.
type Shortened = (u64, u64);

/// Queues of no block, of one and of several, also with a block that was emptied or has one item left.
const SHORTENED: &[Shortened] = &[
    (0, 0),
    (0, 1),
    (0, 31),
    (0, 32),
    (0, 33),
    (0, 64),
    (0, 65),
    (1, 0),
    (30, 2),
    (31, 1),
    (40, 0),
    (40, 1),
    (64, 33),
    (70, 30),
];

/// How many numbers are popped from a joined queue.
const POPPED: &[u64] = &[0, 1, 31, 32, 33, 64, 96];

fn shortened(rt: &impl Abort, alloc: Global, first: u64, (popped, left): Shortened) -> Numbers {
    let mut numbers = Numbers::from(alloc, first.wrapping_sub(popped));
    numbers.push(rt, popped.wrapping_add(left));
    numbers.pop(rt, popped);
    numbers
}

/// Joins two queues, pops some numbers, pushes 40 more and pops all.
fn join(rt: &impl Abort, alloc: Global, (one, other): (Shortened, Shortened), popped: u64) {
    let mut numbers = shortened(rt, alloc, 0, one);
    let end = numbers.end;
    numbers.append(shortened(rt, alloc, end, other));
    shorten(rt, &mut numbers, popped);
}

/// Makes room that is not used, pops some numbers, pushes 40 more and pops all.
fn shorten(rt: &impl Abort, numbers: &mut Numbers, popped: u64) {
    // One try more if it is refused memory.
    let is_granted = numbers.make_room() || numbers.make_room();
    holds(rt, is_granted);
    numbers.pop(rt, popped);
    numbers.push(rt, 40);
    holds(rt, numbers.is_right());
    numbers.pop(rt, 200);
    holds(rt, numbers.is_right() && numbers.first == numbers.end);
}

/// Joins each two queues.
fn join_each(rt: &impl Abort, alloc: Global, popped: u64) {
    for one in SHORTENED {
        for other in SHORTENED {
            join(rt, alloc, (*one, *other), popped);
        }
    }
}

/// Returns the next state of a generator (Marsaglia's xorshift).
fn next(state: u64) -> u64 {
    let state = state ^ state << 13;
    let state = state ^ state >> 7;
    state ^ state << 17
}

/// Pushes or pops 20,000 times, as the bits of a generator determine.
fn play(rt: &impl Abort, numbers: &mut Numbers) {
    let mut state = 0x2545_f491_4f6c_dd1du64;
    for step in 0..20_000u64 {
        state = next(state);
        // In turn, a long stretch with more pushes and one with more pops.
        if state % 8 < if step % 2_000 < 1_000 { 6 } else { 2 } {
            numbers.push(rt, 1);
        } else {
            numbers.pop(rt, 1);
        }
    }
}

/// This test is run with each allocation refused in turn. A refused call leaves the queue as it was, and succeeds when
/// it is made again.
#[test]
fn joined_queues_answer_again_after_a_refused_growth(rt: HostRuntime) {
    for popped in POPPED {
        join_each(&rt, rt.alloc(), *popped);
    }
}

#[test]
fn a_queue_answers_again_after_a_refused_growth(rt: HostRuntime) {
    let mut numbers = Numbers::from(rt.alloc(), 0);
    play(&rt, &mut numbers);
    holds(&rt, numbers.is_right());
}

/// How many numbers pass through the plain queue.
const COUNT: u64 = 70;

/// Pushes numbers into a plain queue and pops them. Returns whether they came in order.
fn passes_plain(queue: &mut PlainQueue<u64>) -> Result<bool, AllocError> {
    for number in 0..COUNT {
        queue.reserve_one()?;
        queue.push_back(number);
    }
    let mut is_right = queue.len() as u64 == COUNT;
    for number in 0..COUNT {
        is_right &= queue.front() == Some(&number) && queue.pop_front() == Some(number);
    }
    Ok(is_right && queue.is_empty())
}

#[test]
fn first_in_is_first_out_of_a_plain_queue(rt: HostRuntime) -> Result<(), Fail> {
    let mut queue = PlainQueue::new(rt.alloc());
    let is_right = passes_plain(&mut queue);
    drop(queue);
    holds(&rt, is_right?);
    Ok(())
}

/// An item that counts its drop.
struct Counted<'a> {
    drops: &'a AtomicU64,
}

impl Drop for Counted<'_> {
    fn drop(self) {
        let Counted { drops } = self;
        drops.fetch_add(1, Ordering::SeqCst);
    }
}

fn push_and_pop<'a>(
    queue: &mut BlockQueue<Counted<'a>>,
    drops: &'a AtomicU64,
) -> Result<(), AllocError> {
    for _ in 0..65 {
        queue.reserve_one()?;
        queue.push_back(Counted { drops });
    }
    for _ in 0..40 {
        queue.pop_front();
    }
    Ok(())
}

#[test]
fn each_item_is_dropped_once(rt: HostRuntime) -> Result<(), Fail> {
    let drops = AtomicU64::new(0);
    let mut queue = BlockQueue::new(rt.alloc());
    let pushed = push_and_pop(&mut queue, &drops);
    let popped = drops.load(Ordering::SeqCst);
    drop(queue);
    pushed?;
    holds(&rt, popped == 40);
    holds(&rt, drops.load(Ordering::SeqCst) == 65);
    Ok(())
}

/// Items that pass through a queue of constant length take no new block: the first block, once emptied, becomes the
/// last one. queue_memory.py counts the allocations.
#[test]
fn what_passes_takes_no_block(rt: HostRuntime) {
    let mut numbers = Numbers::from(rt.alloc(), 0);
    numbers.push(&rt, 40);
    for _ in 0..20_000 {
        numbers.push(&rt, 1);
        numbers.pop(&rt, 1);
    }
}

/// The empty block of an appended queue is used for the next items. queue_memory.py limits the memory.
#[test]
fn what_is_appended_empty_takes_no_room(rt: HostRuntime) {
    let mut numbers = Numbers::from(rt.alloc(), 0);
    for turn in 0..100_000 {
        let mut other = Numbers::from(rt.alloc(), turn);
        holds_at(&rt, turn as usize, other.make_room());
        numbers.append(other);
        numbers.push(&rt, 1);
    }
}
