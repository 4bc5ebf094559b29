//! Turning: the requests at the start of the book that are over are removed as a volume.

ghost use Rattle.std.specs.Prelude.{◌≡◌, ◌<◌, ◌≤◌, [], ℕ, ◌++◌, All, map as each, Option, length, take, drop, slice_index_or, IfOk, OnErr};
ghost use Rattle.std.specs.Bool.{OnTrue, OnFalse};
ghost use Rattle.std.specs.FinMap as map;
ghost use Rattle.std.specs.List.Sorted.{IsPermutation};
ghost use Rattle.rad_tables.specs.declared.duplicates.Key.{Key as the_key};
ghost use Rattle.rad_lane.specs.declared.answered.AnswerIndex.{AnswerIndex as the_answer_index};
ghost use Rattle.rad_lane.specs.Book.{moment_in};
ghost use Rattle.rad_lane.specs.Repeat.{repeats};
ghost use Rattle.rad_lane.specs.Volumes.{IsCut, Turns, answers_below as the_answers_below, volume_of, without_cut};
ghost use Rattle.rad_lane.specs.internal.Cutting.{IsOverBy};
ghost use Rattle.rad_lane.specs.internal.Keys.{IsBelow, merged};

use crate::answered::AnswerIndex;
use crate::earlier_keys::EarlierKeys;
use crate::{Answered, Lane, Record, Series, Stamp};
use block_queue::{Fifo, Numbered, Removed, Spent};
use rad_tables::{Duplicates, Moment};
use std::alloc::{AllocError, Global};
use std::marker::Model;
use std::{fmt, mem};

/// The requests removed from the start of a book, which were all answered so long ago that none can be repeated any
/// more, with their answers.
#[derive(Drop)]
pub struct Volume {
    /// The number of the first request of the volume.
    pub opening: u64,
    /// The stamps of the requests, in order.
    pub stamps: Series<Stamp>,
    /// The answers to them, in the order in which they were given.
    pub answered: Series<Answered>,
    /// What the book holds no more besides, and is dropped with the volume.
    cleared: Cleared,
}

/// What a cut leaves to be dropped when the lane is free again. A contract sees nothing of it.
#[derive(Drop)]
struct Cleared {
    /// Copies of the answers, and places that the list of answers no longer needs.
    spent: Spent<Answered>,
    /// The keys all of whose numbers are below the opening.
    keys: Option<EarlierKeys>,
}

impl Model for Cleared {
    ghost use Rattle.std.specs.Prelude.{⊤};

    ghost Value = { ⊤ };

    ghost view = { λ _. tt };
}

/// Why no volume is returned. If several reasons apply, the first in this order is returned. A fault is printed as
/// its name.
#[derive(Clone, Copy, Debug, PartialEq, Eq)]
pub enum TurnFault {
    /// The first request of the book is not over: it is unanswered, or was answered less than a span ago. Or the book
    /// holds no request.
    NothingToTurn,
    /// Memory was refused.
    OutOfMemory,
}

impl fmt::Display for TurnFault {
    ghost use Rattle.std.specs.Prelude.{Some};
    ghost use Rattle.rad_lane.specs.Printed.{turn_fault_text};

    ghost output = { λ fault. Some (turn_fault_text fault) };

    fn fmt<W: fmt::Write>(&self, f: &mut fmt::Formatter<W>) -> fmt::Result {
        match self {
            TurnFault::NothingToTurn => f.write_str("NothingToTurn"),
            TurnFault::OutOfMemory => f.write_str("OutOfMemory"),
        }
    }
}

impl<Q: Fifo<Record>> Lane<Q> {
    /// Removes a volume: the longest prefix of the book's requests that were all answered at least a span ago, with
    /// their answers. Without the removal, too, a later copy of one of them would count as a new request.
    ///
    /// It takes time linear in the size of the volume and in the number of answers before the last one removed, and
    /// looks at no packet and at no key. Nothing else of the book is moved. It allocates before it changes anything, a
    /// fixed number of times, and only for the volume. What it removes is dropped with the volume. If there is nothing
    /// to remove, it looks at one request and allocates nothing.
    ///
    /// # Errors
    ///
    /// The first [`TurnFault`] that applies. The lane is unchanged.
    pub fn turn(&mut self, alloc: Global, moment: Moment) -> Result<Volume, TurnFault>
        ensures turns { Turns self.old moment result self.new }
        ensures joined { IfOk result (λ volume. volume.stamps ++ self.new.accepted ≡ self.old.accepted) }
        ensures answered_once { IfOk result (λ volume. IsPermutation volume.stamps (each (λ a. a.stamp) volume.answered)) }
        ensures repeats { (key : the_key) (later : ℕ) → moment_in self.old moment ≤ later → repeats self.new key later ≡ repeats self.old key later }
    {
        let now = self.moment_of(moment);
        let span = self.setup.limits().numbers().span;
        let count = count_over(self.indices.as_slice(), span, now);
        if count == 0 {
            return Err(TurnFault::NothingToTurn);
        }
        match self.cut(alloc, count, now) {
            Ok(volume) => Ok(volume),
            Err(AllocError) => Err(TurnFault::OutOfMemory),
        }
    }

    fn cut(&mut self, alloc: Global, count: usize, now: Moment) -> Result<Volume, AllocError>
        requires later { self.old.last ≤ now }
        requires is_cut { IsCut self.old now (take count self.old.accepted) (drop count self.old.accepted) }
        requires within { count ≤ length self.old.accepted }
        ensures ok { IfOk result (λ volume. (volume ≡ volume_of self.old (take count self.old.accepted)) × (self.new ≡ without_cut self.old now (take count self.old.accepted) (drop count self.old.accepted))) }
        ensures err { OnErr result (self.new ≡ self.old) }
    {
        let opening = self.opening;
        let next = opening + count as u64;
        let stamps = Vec::from_slice(alloc, &self.accepted.as_slice()[..count])?;
        let end = end_of(self.answered.as_slice(), next, count);
        let after = self.next_number();
        let answered = self.answered.take_below(next, end)?;
        let keys = shed(alloc, &mut self.recent, &mut self.earlier, next, after);
        self.accepted.drop_front(count);
        self.indices.drop_front(count);
        self.opening = next;
        self.last = now;
        let Removed { items, spent } = answered;
        Ok(Volume {
            opening,
            stamps: Series::from_vec(stamps),
            answered: Series::from_vec(items),
            cleared: Cleared { spent, keys },
        })
    }
}

/// It looks at as many answer indices as it counts, and at the next one.
fn count_over(indices: &[Option<AnswerIndex>], span: u32, now: Moment) -> usize
    ensures within { result ≤ length indices.now }
    ensures over { All (IsOverBy span now) (take result indices.now) }
    ensures longest { (d : Option the_answer_index) → result < length indices.now → ¬ IsOverBy span now (slice_index_or indices.now result d) }
{
    let mut count = 0;
    for answer_index in indices {
        if !is_over(answer_index, span, now) {
            return count;
        }
        count += 1;
    }
    count
}

fn is_over(answer_index: &Option<AnswerIndex>, span: u32, now: Moment) -> bool
    ensures over { OnTrue result (IsOverBy span now answer_index.now) }
    ensures not { OnFalse result (¬ IsOverBy span now answer_index.now) }
{
    match answer_index {
        Some(answer_index) => answer_index.moment.get() + u64::from(span) <= now.get(),
        None => false,
    }
}

fn end_of(answers: &[Answered], number: u64, count: usize) -> usize
    requires { length (the_answers_below number answers.now) ≡ count }
    ensures within { result ≤ length answers.now }
    ensures none_behind { the_answers_below number (drop result answers.now) ≡ [] }
{
    let mut left = count;
    let mut end = 0;
    for answer in answers {
        if left == 0 {
            return end;
        }
        if answer.number() < number {
            left -= 1;
        }
        end += 1;
    }
    end
}

/// Makes the recent keys the earlier ones, if all numbers of the earlier ones are below the opening. Returns those.
fn shed(
    alloc: Global,
    recent: &mut Duplicates,
    earlier: &mut EarlierKeys,
    opening: u64,
    next: u64,
) -> Option<EarlierKeys>
    requires { IsBelow next recent.old }
    ensures merged { (since : ℕ) → opening ≤ since → merged since recent.new earlier.new.numbers ≡ merged since recent.old earlier.old.numbers }
    ensures shed { earlier.old.end ≤ opening → (recent.new ≡ map.empty) × (earlier.new.end ≡ next) }
    ensures kept { opening < earlier.old.end → (recent.new ≡ recent.old) × (earlier.new.end ≡ earlier.old.end) }
{
    if !earlier.is_below(opening) {
        return None;
    }
    let keys = EarlierKeys::over(mem::replace(recent, Duplicates::new(alloc)), next);
    Some(mem::replace(earlier, keys))
}
