//! What becomes of an entry, and of a request that was left.

ghost use Rattle.std.specs.Prelude.{◌≡◌, false, IfErr, IfOk, IsTrue, MatchOption, None, option_copied};
ghost use Rattle.ledger_rules.specs.Judging.{IsWrong};
ghost use Rattle.ledger_rules.specs.Leaving.{IsWronglyLeft};
ghost use Rattle.ledger_rules.specs.Numbers.{IsAsBefore, IsKnown};
ghost use Rattle.ledger_rules.specs.declared.reason.Reason.TheVariants.{UnknownRecord};
ghost use Rattle.rad_audit.specs.Judging.{IsJudged};
ghost use Rattle.rad_audit.specs.Taking.{IsRightInPlace, IsWrongEntry, LacksRecord, Leaves, Takes};

use crate::judging::{Alone, JudgedEntry};
use crate::wording::{LineWords, are_words_of};
use ledger_rules::{Account, Gap, Left, Reason, RecordCount, Tally, judge_left};
use rad_auth::Secret;
use std::alloc::AllocError;

/// What became of an entry.
#[derive(Clone, Copy)]
pub enum TakenEntry {
    /// It is wrong, and does not count.
    Wrong(Reason),
    /// It counts. Before it these are missing, if any are.
    Counted(Option<Gap>),
}

/// Takes an entry of a lane that its run names. It counts exactly if nothing is wrong with it, and otherwise this is the
/// first thing that is wrong: its words are looked at last.
///
/// # Errors
///
/// `AllocError` if memory is refused.
pub fn take_entry(
    judged: &JudgedEntry<'_>,
    tally: &mut Tally,
    account: &mut Account,
) -> Result<TakenEntry, AllocError>
    requires { IsJudged judged.now }
    ensures taken { IfOk result (λ taken. Takes judged.now.entry (option_copied judged.now.home) (option_copied judged.now.client) tally.old account.old taken tally.new account.new) }
    ensures refused { IfErr result (λ _. (tally.new ≡ tally.old) × IsAsBefore account.old.numbers account.new.numbers) }
{
    if let Some(reason) = wrong_in_place(judged, tally, account) {
        return Ok(TakenEntry::Wrong(reason));
    }
    let entry = &judged.entry;
    if !account.answer(entry.about.number)? {
        return Ok(TakenEntry::Wrong(Reason::RecordTwice));
    }
    match tally.take(entry.serial) {
        Ok(gap) => Ok(TakenEntry::Counted(gap)),
        Err(reason) => Ok(TakenEntry::Wrong(reason)),
    }
}

/// Returns the first thing that is wrong with an entry behind those of its lane, if anything is.
#[tactic(auto, using(crate::proofs::Alone::wrong_entry))]
fn wrong_in_place(judged: &JudgedEntry<'_>, tally: &Tally, account: &Account) -> Option<Reason>
    requires { IsJudged judged.now }
    ensures { MatchOption result (IsRightInPlace judged.now.entry (option_copied judged.now.home) (option_copied judged.now.client) tally.now account.now) (λ reason. IsWrongEntry judged.now.entry (option_copied judged.now.home) (option_copied judged.now.client) tally.now account.now reason) }
{
    let entry = &judged.entry;
    match judged.alone {
        Alone::Wrong(reason) => Some(reason),
        _ if entry.serial < tally.next() => Some(Reason::SerialNotAbove),
        _ if account.has(entry.about.number) => Some(Reason::RecordTwice),
        Alone::OtherWords => Some(Reason::WrongWords),
        Alone::Right => None,
    }
}

/// Returns what is wrong with an entry of a lane that its run does not name.
#[tactic(auto, using(crate::proofs::Alone::wrong_stray))]
pub fn judge_stray(judged: &JudgedEntry<'_>) -> Reason
    requires { IsJudged judged.now }
    ensures { IsWrong judged.now.entry (option_copied judged.now.home) (option_copied judged.now.client) None (IsTrue false) result }
{
    match judged.alone {
        Alone::Wrong(reason) => reason,
        _ => Reason::UnknownLane,
    }
}

/// Takes a request that was left, of a lane that its run names. It counts exactly if nothing is wrong with it, and otherwise
/// this is the first thing that is wrong.
///
/// # Errors
///
/// `AllocError` if memory is refused.
pub fn take_left(
    left: &Left<'_>,
    client: Option<&Secret>,
    account: &mut Account,
) -> Result<Option<Reason>, AllocError>
    ensures taken { IfOk result (λ wrong. Leaves left.now (option_copied client.entry) account.old wrong account.new) }
    ensures refused { IfErr result (λ _. IsAsBefore account.old.numbers account.new.numbers × (account.new.left ≡ account.old.left)) }
{
    let twice = account.has(left.about.number);
    if let Some(reason) = judge_left(left, client, true, twice) {
        return Ok(Some(reason));
    }
    if !are_words_of(left.request, LineWords::of(&left.about)) {
        return Ok(Some(Reason::WrongWords));
    }
    if account.leave(left.about.number)? {
        Ok(None)
    } else {
        Ok(Some(Reason::RecordTwice))
    }
}

/// Returns what is wrong with a count of what became of a response, of a lane that its run names, if anything is.
pub fn judge_count(count: &RecordCount<'_>, tally: &Tally, account: &Account) -> Option<Reason>
    ensures { MatchOption result (¬ LacksRecord tally.now account.now count.now.number) (λ reason. (reason ≡ UnknownRecord) × LacksRecord tally.now account.now count.now.number) }
{
    if account.lacks(count.number) && tally.entries() == tally.next() {
        Some(Reason::UnknownRecord)
    } else {
        None
    }
}

/// Returns what is wrong with a request that was left, of a lane that its run does not name.
pub fn judge_stray_left(left: &Left<'_>, client: Option<&Secret>) -> Reason
    ensures { IsWronglyLeft left.now (option_copied client.entry) (IsTrue false) (IsTrue false) result }
{
    match judge_left(left, client, false, false) {
        Some(reason) => reason,
        None => Reason::UnknownLane,
    }
}
