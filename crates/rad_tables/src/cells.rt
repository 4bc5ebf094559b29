//! The cells that hold the entries of the slots, one cell for each pair, and the loops over them.

ghost use Rattle.std.specs.Prelude.{◌≡◌, ◌≤◌, length, None, Some, is_none, IsSome, IfOk, MatchOption, replicate};
ghost use Rattle.std.specs.Option.{option_copied, option_map};
ghost use Rattle.std.specs.Bool.{OnTrue, OnFalse};
ghost use Rattle.std.specs.Borrow.{sem, Lends};
ghost use Rattle.rad_tables.specs.Dues.{NotAfter};
ghost use Rattle.rad_tables.specs.internal.Kept.{entry_of, contents_of, AreChanged, InUseBetween, IsFirstFreeBetween, IsFirstFreeBehind};
ghost use Rattle.rad_tables.specs.internal.Least.{AreInUse, NoneAmong, IsLeastAmong, IsEarlier, IsEarliestAmong, sooner as the_sooner};

use crate::{Change, Timed};
use std::alloc::{AllocError, Global};

/// The content of the cell of a pair.
#[derive(Drop)]
pub(crate) enum Cell<T> {
    /// There is no entry: the pair is free.
    Free,
    /// The entry under the pair, which is in use.
    Used(T),
}

impl<T> Cell<T> {
    ghost use Rattle.rad_tables.specs.contracts.cells.Cell.{the_row};

    /// Returns the entry, if there is one.
    pub(crate) fn get(&self) -> Option<&T>
        ensures { option_copied result ≡ entry_of self.now }
    {
        match self {
            Cell::Used(entry) => Some(entry),
            Cell::Free => None,
        }
    }

    fn change<C: Change<T>>(&mut self, change: &C)
        ensures { entry_of self.new ≡ option_map (C.changed change.now) (entry_of self.old) }
    {
        if let Cell::Used(entry) = self {
            change.change(entry);
        }
    }

    fn is_free(&self) -> bool
        ensures { result ≡ is_none (entry_of self.now) }
    {
        matches!(self, Cell::Free)
    }

    /// Returns the entry of a cell that is in use.
    pub(crate) fn entry(&self) -> &T
        requires { IsSome (entry_of self.now) }
        ensures { entry_of self.now ≡ Some result.now }
    {
        match self {
            Cell::Used(entry) => entry,
            Cell::Free => unreachable!(),
        }
    }

    /// Returns the entry of a cell that is in use, for writing.
    pub(crate) fn entry_mut(&mut self) -> &mut T
        requires { IsSome (entry_of self.old) }
        ensures* lends { sem 𝓛 (Lends (the_row T.row) T.row self.entry result Cell.Used) }
        ensures value { entry_of self.old ≡ Some result.now }
    {
        match self {
            Cell::Used(entry) => entry,
            Cell::Free => unreachable!(),
        }
    }
}

/// Makes `count` free cells.
///
/// # Errors
///
/// If memory is refused.
pub(crate) fn free_cells<T: Drop>(alloc: Global, count: usize) -> Result<Vec<Cell<T>>, AllocError>
    ensures { IfOk result (λ cells. contents_of cells.items ≡ replicate count None) }
{
    let mut cells = Vec::with_capacity(alloc, count)?;
    for _ in 0..count {
        cells.push_reserved(Cell::Free);
    }
    Ok(cells)
}

/// Changes the entry of each cell that is in use.
pub(crate) fn change_each<T, C: Change<T>>(cells: &mut [Cell<T>], change: &C)
    ensures { AreChanged (C.changed change.now) (contents_of cells.old) (contents_of cells.new) }
{
    for cell in cells.iter_mut() {
        cell.change(change);
    }
}

/// Returns the first free place from `start` on or, if there is none, the first one from the first cell on.
pub(crate) fn first_free_behind<T>(cells: &[Cell<T>], start: usize) -> Option<usize>
    requires { start ≤ length cells.now }
    ensures { MatchOption result
        (InUseBetween (contents_of cells.now) 0 (length cells.now))
        (IsFirstFreeBehind (contents_of cells.now) start) }
{
    match first_free(cells, start, cells.len()) {
        Some(place) => Some(place),
        None => first_free(cells, 0, start),
    }
}

/// Returns the first free place from `from` up to, but not including, `to`.
fn first_free<T>(cells: &[Cell<T>], from: usize, to: usize) -> Option<usize>
    requires { to ≤ length cells.now }
    ensures { MatchOption result
        (InUseBetween (contents_of cells.now) from to)
        (IsFirstFreeBetween (contents_of cells.now) from to) }
{
    for place in from..to {
        if cells[place].is_free() {
            return Some(place);
        }
    }
    None
}

/// When an entry is due, its number, and its place.
#[derive(Clone, Copy)]
pub(crate) struct Waiting {
    /// When the entry is due, in milliseconds.
    pub(crate) due: u64,
    /// The entry's number.
    number: u64,
    /// The entry's index among the cells.
    pub(crate) place: usize,
}

impl Waiting {
    /// Returns whether this entry is due before the other one or, if they are due at the same time, has the lower
    /// number.
    fn is_before(&self, other: &Waiting) -> bool
        ensures before { OnTrue result
            (NotAfter (self.now.due, self.now.number) (other.now.due, other.now.number)) }
        ensures not_before { OnFalse result
            (NotAfter (other.now.due, other.now.number) (self.now.due, self.now.number)) }
    {
        self.due < other.due || self.due == other.due && self.number < other.number
    }
}

/// Returns the entry at these places that is due first, of those that are spent or of those that are not.
pub(crate) fn least_of<T: Timed>(cells: &[Cell<T>], places: &[u16], spent: bool) -> Option<Waiting>
    requires { AreInUse (contents_of cells.now) places.now }
    ensures { let contents = contents_of cells.now in
        let count = length places.now in
        MatchOption result
        (NoneAmong T.spent_of contents places.now spent count)
        (IsLeastAmong T.due_of T.number_of T.spent_of contents places.now spent count) }
{
    let mut least: Option<Waiting> = None;
    for place in places {
        let place = usize::from(*place);
        let entry = cells[place].entry();
        if entry.spent() == spent {
            let waiting = Waiting {
                due: entry.due(),
                number: entry.number(),
                place,
            };
            least = Some(earlier(waiting, least));
        }
    }
    least
}

/// Returns the entry that is due first, of one entry and the first one so far.
fn earlier(waiting: Waiting, least: Option<Waiting>) -> Waiting
    ensures { IsEarlier waiting least result }
{
    match least {
        Some(least) if !waiting.is_before(&least) => least,
        _ => waiting,
    }
}

/// Returns the earliest due time of the entries at these places, if there is any.
pub(crate) fn earliest_of<T: Timed>(cells: &[Cell<T>], places: &[u16]) -> Option<u64>
    requires { AreInUse (contents_of cells.now) places.now }
    ensures { IsEarliestAmong T.due_of (contents_of cells.now) places.now (length places.now) result }
{
    let mut earliest: Option<u64> = None;
    for place in places {
        let due = cells[usize::from(*place)].entry().due();
        earliest = Some(sooner(due, earliest));
    }
    earliest
}

/// Returns the earlier due time, of one and the earliest one so far.
fn sooner(due: u64, earliest: Option<u64>) -> u64
    ensures { result ≡ the_sooner due earliest }
{
    match earliest {
        Some(earliest) => earliest.min(due),
        None => due,
    }
}
