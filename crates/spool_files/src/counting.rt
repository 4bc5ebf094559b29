//! What counts of a spool's entries: which requests are open, and which answers are remembered.

ghost use Rattle.std.specs.Prelude.{◌≡◌, ◌∷◌, [], ◌++◌, ◌+◌, ◌*◌, nat_lt, ℕ, List, true, false, OnOk, IfOk};
ghost use Rattle.spool_files.specs.Entries.{Entry};
ghost use Rattle.spool_files.specs.Counting.{key_of, is_last, Knows, Counts, AreByArrival, RemovalKeeps, open_before, answers_before};
ghost use Rattle.spool_files.specs.Counting.{InParts, Closes, is_request, is_answer_within, WritingOnceMoreKeeps, OldestIsPast, PastCanGo};

use crate::entry::{Answered, Came, Head};
use rad_tables::{Duplicates, Key};
use std::alloc::{AllocError, Global};

impl Head {
    /// Returns the key of the request that the entry is about, if it is about one.
    pub fn key(&self) -> Option<Key>
        ensures { result ≡ key_of self.now }
    {
        match self {
            Head::Begun(_) => None,
            Head::Came(came) => Some(came.key),
            Head::Answered(answered) => Some(answered.key),
            Head::GivenUp(given_up) => Some(given_up.key),
        }
    }
}

/// A request that is open.
#[derive(Drop)]
pub struct OpenRequest {
    /// How it came in.
    pub came: Came,
    /// Its octets.
    pub octets: Vec<u8>,
}

/// An answer that a repeat of its request gets again.
#[derive(Drop)]
pub struct RememberedAnswer {
    /// How it was given.
    pub answered: Answered,
    /// The octets of the response.
    pub octets: Vec<u8>,
}

/// The requests that are open among the entries of a spool, and the answers that are remembered.
///
/// The last entry about a request counts. So whoever reads a spool goes from its last entry to the first, the newest segment
/// first, and has each counted.
#[derive(Drop)]
pub struct Counted {
    /// The requests that are open, the last first.
    pub requests: Vec<OpenRequest>,
    /// The answers that are remembered, the last first.
    pub answers: Vec<RememberedAnswer>,
    /// The keys of the requests that an entry so far is about.
    known: Duplicates,
}

/// Notes which request an entry is about. Returns whether it is about one, and no entry that was noted before is.
fn note(known: &mut Duplicates, head: &Head) -> Result<bool, AllocError>
    ensures last { IfOk result (λ is. (entries : List Entry) → Knows known.old entries → is ≡ is_last head.now entries) }
    ensures known { OnOk result ((entries : List Entry) (text : List ℕ) → Knows known.old entries → Knows known.new ((head.now, text) ∷ entries)) }
{
    match head.key() {
        Some(key) => Ok(known.replace(key, 0)?.is_none()),
        None => Ok(false),
    }
}

impl Counted {
    /// Counts nothing yet.
    pub fn new(alloc: Global) -> Counted
        ensures { (now span : ℕ) → Counts now span result [] [] }
    {
        Counted {
            requests: Vec::new(alloc),
            answers: Vec::new(alloc),
            known: Duplicates::new(alloc),
        }
    }

    /// Lets go of what was counted so far, which closes what stands before it all the same: what is counted from now on stands
    /// in older segments.
    pub fn let_go(&mut self)
        ensures { (now span : ℕ) (done later : List Entry) → Counts now span self.old done later → Counts now span self.new [] (done ++ later) }
    {
        self.requests.clear();
        self.answers.clear();
    }

    /// Counts the next entry towards the first, if it is a request that is open, or an answer to which no more than `span`
    /// passed up to `now`.
    ///
    /// # Errors
    ///
    /// If memory is refused. What was counted is of no use then.
    pub fn count(
        &mut self,
        alloc: Global,
        now: u64,
        span: u64,
        head: &Head,
        text: &[u8],
    ) -> Result<(), AllocError>
        ensures { OnOk result ((done later : List Entry) → Counts now span self.old done later
            → Counts now span self.new ((head.now, text.now) ∷ done) later) }
    {
        if !note(&mut self.known, head)? {
            return Ok(());
        }
        match head {
            Head::Came(came) => {
                let octets = text.to_vec(alloc)?;
                self.requests.push(OpenRequest {
                    came: *came,
                    octets,
                })?;
            }
            Head::Answered(answered) => {
                if now.saturating_sub(answered.moment) <= span {
                    let octets = text.to_vec(alloc)?;
                    self.answers.push(RememberedAnswer {
                        answered: *answered,
                        octets,
                    })?;
                }
            }
            Head::Begun(_) => {}
            Head::GivenUp(_) => {}
        }
        Ok(())
    }

    /// Returns whether nothing counts of the entries. Then, and only then, the oldest segment may be removed, if they are its
    /// entries: what is open and what is remembered stay the same.
    pub fn is_empty(&self) -> bool
        ensures keeps { result ≡ true → (now span : ℕ) (oldest newer : List Entry) → Counts now span self.now oldest newer
            → RemovalKeeps now span oldest newer }
        ensures counts { result ≡ false → (now span : ℕ) (oldest newer : List Entry) → Counts now span self.now oldest newer
            → open_before oldest newer ≡ [] → answers_before now span oldest newer ≡ [] → ⊥ }
    {
        self.requests.is_empty() && self.answers.is_empty()
    }
}

/// Puts requests that are open in the order in which they came.
pub fn sort_by_arrival(requests: &mut [OpenRequest])
    ensures { AreByArrival requests.old requests.new }
{
    requests.sort_unstable_by_key(|request| request.came.arrival);
}

/// Returns whether what is open in the oldest segment has to be written once more, so that it can be removed: all segments
/// have more octets (`total`) than four times those of what is open (`counting`), those of what was written within the span
/// (`within`), and three segments of `most` octets.
pub fn is_to_write_again(most: u64, total: u64, counting: u64, within: u64) -> bool
    ensures { result ≡ nat_lt (4 * counting + within + 3 * most) total }
{
    let counting = u128::from(counting);
    u128::from(total) > 4 * counting + u128::from(within) + 3 * u128::from(most)
}

/// What counts in segments is what counts in the older ones, for all that stands in the newer, and in the newer ones.
pub fn what_counts_in_parts()
    ensures requests { InParts is_request }
    ensures answers { (now span : ℕ) → InParts (is_answer_within now span) }
{}

/// An entry closes what stands before it about the same request, and nothing else.
pub fn an_entry_closes_its_request()
    ensures requests { Closes is_request }
    ensures answers { (now span : ℕ) → Closes (is_answer_within now span) }
{}

/// What is open in the oldest segment can be written once more into the newest, and counts once. Then nothing in the oldest
/// is open. A crash before its removal leaves the same.
pub fn what_is_written_once_more()
    ensures { (now span : ℕ) (oldest newer : List Entry) → WritingOnceMoreKeeps now span oldest newer }
{}

/// As long as [`is_to_write_again`] says so, the oldest segment can go, since no answer in it is remembered. So segments that
/// go on in this way have at most four times the octets of what is open, what was written within the span, and three segments.
pub fn the_oldest_can_go()
    ensures past { OldestIsPast }
    ensures goes { PastCanGo }
{}
