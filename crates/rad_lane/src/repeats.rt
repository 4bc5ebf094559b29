//! Whether a request is a repeat (RFC 2866 section 3, Identifier).

ghost use Rattle.std.specs.Prelude.{◌≡◌, ◌≤◌, ℕ, IfSome, map as each};
ghost use Rattle.std.specs.List.Sorted.{IsStrictlyIncreasing};
ghost use Rattle.std.specs.Option.{option_copied};
ghost use Rattle.rad_lane.specs.Book.{Book};
ghost use Rattle.rad_lane.specs.Repeat.{answer_to, found, repeats};
ghost use Rattle.rad_lane.specs.internal.Invariant.{answer_of as the_answer, at_place, answer_index_in, answer_index_to, repeats_number};

use crate::answered::AnswerIndex;
use crate::{Answered, Lane, Record, Setup};
use block_queue::{Fifo, SlidingList};
use rad_tables::{Key, Moment};

/// Which request a request repeats.
pub(crate) enum Repeat<'a> {
    /// None: it is new.
    Fresh,
    /// The unanswered request of this number.
    Waits(u64),
    /// The request of this number, which was answered less than a span ago.
    Answered(u64, &'a Answered),
}

/// The answers that a lane keeps, by which it recognises repeats. The last numbers of the keys are apart from it.
#[derive(Drop)]
pub(crate) struct Seen<'a> {
    /// The number of the first request that the book still holds.
    opening: u64,
    /// For each request from that number on, the index of its answer, if it is answered.
    indices: &'a [Option<AnswerIndex>],
    /// The answers, in the order in which they were given.
    answered: &'a [Answered],
    /// The span: how long after its answer a request may be repeated, in milliseconds.
    span: u32,
    ghost told: { (number : ℕ) → opening ≤ number → answer_index_in indices.now opening number ≡ answer_index_to number answered.now },
    ghost rising: { IsStrictlyIncreasing (each (λ a. a.serial) answered.now) },
}

impl<'a> Seen<'a> {
    /// Makes the view of the answers since the opening.
    pub(crate) fn since(
        opening: u64,
        indices: &'a SlidingList<Option<AnswerIndex>>,
        answered: &'a SlidingList<Answered>,
        setup: &Setup,
    ) -> Seen<'a>
        requires told { (number : ℕ) → opening ≤ number → answer_index_in indices.now.items opening number ≡ answer_index_to number answered.now.items }
        requires rising { IsStrictlyIncreasing (each (λ a. a.serial) answered.now.items) }
        ensures opening { result.opening ≡ opening }
        ensures answered { result.answered.now ≡ answered.now.items }
        ensures span { result.span ≡ setup.now.limits.span }
    {
        Seen {
            opening,
            indices: indices.as_slice(),
            answered: answered.as_slice(),
            span: setup.limits().numbers().span,
        }
    }

    /// Returns what a request repeats whose key had this last number, if it had one.
    pub(crate) fn repeat_of(&self, last: Option<u64>, now: Moment) -> Repeat<'a>
        requires { IfSome last (λ number. self.now.opening ≤ number) }
        ensures { (book : Book) → book.setup.limits.span ≡ self.now.span → book.answered ≡ self.now.answered.now → found result ≡ repeats_number book now last }
    {
        let Some(number) = last else {
            return Repeat::Fresh;
        };
        let Some(answer) = self.answer_of(number) else {
            return Repeat::Waits(number);
        };
        if now.get() < answer.moment().get() + u64::from(self.span) {
            Repeat::Answered(number, answer)
        } else {
            Repeat::Fresh
        }
    }

    fn answer_of(&self, number: u64) -> Option<&'a Answered>
        requires { self.now.opening ≤ number }
        ensures { option_copied result ≡ answer_to number self.now.answered.now }
    {
        self.answered.get(self.place_of(number)?)
    }

    fn place_of(&self, number: u64) -> Option<usize>
        requires { self.now.opening ≤ number }
        ensures { at_place self.now.answered.now result ≡ answer_to number self.now.answered.now }
    {
        match self.answer_index_of(number) {
            Some(answer_index) => place_of_serial(self.answered, answer_index.serial),
            None => None,
        }
    }

    fn answer_index_of(&self, number: u64) -> Option<AnswerIndex>
        requires { self.now.opening ≤ number }
        ensures { result ≡ answer_index_to number self.now.answered.now }
    {
        let place = (number - self.opening) as usize;
        self.indices.get(place).copied().flatten()
    }
}

impl<Q: Fifo<Record>> Lane<Q> {
    /// Returns what a request of this key repeats at this moment. It looks only at the last request of that key.
    pub(crate) fn find_repeat(&self, key: &Key, now: Moment) -> Repeat<'_>
        ensures { found result ≡ repeats self.now key.now now }
    {
        let seen = Seen::since(self.opening, &self.indices, &self.answered, &self.setup);
        let recent = self.recent.find(key);
        seen.repeat_of(self.earlier.last_number(self.opening, recent, key), now)
    }
}

/// The number of answers that it looks at is logarithmic in how many there are.
fn place_of_serial(answers: &[Answered], serial: u64) -> Option<usize>
    requires { IsStrictlyIncreasing (each (λ a. a.serial) answers.now) }
    ensures { at_place answers.now result ≡ the_answer serial answers.now }
{
    answers
        .binary_search_by_key(&serial, |answer| answer.serial())
        .ok()
}
