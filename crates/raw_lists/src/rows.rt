//! The operations of a list on its rows, each of which may be absent.
ghost use Rattle.std.specs.Prelude.{◌≡◌, ◌+◌, ◌-◌, ◌/◌, ◌^◌, ◌<◌, ◌≤◌, [], ◌∷◌, ◌++◌, true, List, None, length, max, min, take as take_list, drop as drop_list, option_copied, slice_get, slice_set, vec_len, vec_capacity};
ghost use Rattle.raw_lists.specs.Sliding.{items_in, room_in, below, since, IsFront};

use crate::numbered::Numbered;
use crate::row::Row;
use crate::sharing::Share;
use std::alloc::AllocError;
use std::mem;

/// The places of a row beyond one and a half times the number of items.
const LEAST_PLACES: usize = 32;

/// Returns how many places a row for `count` items is made with: one and a half times as many, and some more.
pub(crate) fn places_for(count: usize) -> usize
    ensures value { result ≡ min (count / 2 + count + 32) (2 ^ 64 - 1) }
    ensures some { 1 ≤ result }
{
    (count / 2)
        .saturating_add(count)
        .saturating_add(LEAST_PLACES)
}

/// Returns the items of a row.
pub(crate) fn slice_of<T>(row: &Option<Row<T>>) -> &[T]
    ensures { result.now ≡ items_in row.now }
{
    match row {
        Some(row) => row.as_slice(),
        None => &[],
    }
}

/// Returns the number of places after the items.
pub(crate) fn room_of<T>(row: &Option<Row<T>>) -> usize
    ensures { result ≡ room_in row.now }
{
    match row {
        Some(row) => row.room(),
        None => 0,
    }
}

/// Returns whether there is a row with `count` items.
pub(crate) fn has_all<T>(row: &Option<Row<T>>, count: usize) -> bool
    ensures { result ≡ true → length (items_in row.now) ≡ count }
{
    match row {
        Some(row) => row.len() == count,
        None => false,
    }
}

/// Replaces the row by the next row. The old row becomes the spent one.
pub(crate) fn take_next<T: Drop>(
    row: &mut Option<Row<T>>,
    next: &mut Option<Row<T>>,
    spent: &mut Option<Row<T>>,
)
    ensures row { row.new ≡ next.old }
    ensures next { next.new ≡ None }
    ensures spent { spent.new ≡ row.old }
{
    let taken = mem::replace(next, None);
    *spent = mem::replace(row, taken);
}

/// Adds an item at the end.
pub(crate) fn push_to<T>(row: &mut Option<Row<T>>, item: T)
    requires { 1 ≤ room_in row.old }
    ensures { items_in row.new ≡ items_in row.old ++ item ∷ [] }
{
    match row {
        Some(row) => row.push(item),
        None => unreachable!(),
    }
}

/// Replaces the item at an index.
pub(crate) fn set_in<T: Drop>(row: &mut Option<Row<T>>, place: usize, item: T)
    requires { place < length (items_in row.old) }
    ensures { items_in row.new ≡ slice_set (items_in row.old) place item }
{
    match row {
        Some(row) => drop(row.replace(place, item)),
        None => unreachable!(),
    }
}

/// Drops the first `count` items, or all if there are fewer.
pub(crate) fn drop_first<T: Drop>(row: &mut Option<Row<T>>, count: usize)
    ensures { items_in row.new ≡ drop_list count (items_in row.old) }
{
    if let Some(row) = row {
        pop_each(row, count);
    }
}

/// Drops the first `count` items of a spent row, or all if there are fewer, and releases its memory once it has none.
pub(crate) fn spend<T: Drop>(spent: &mut Option<Row<T>>, count: usize)
    ensures items { items_in spent.new ≡ drop_list count (items_in spent.old) }
    ensures memory { items_in spent.new ≡ [] → spent.new ≡ None }
{
    drop_first(spent, count);
    if slice_of(spent).is_empty() {
        *spent = None;
    }
}

/// Drops the first `count` items of a row and of the next one, and of the spent row as many or `least`, whichever is
/// more.
pub(crate) fn drop_of_each<T: Drop>(
    row: &mut Option<Row<T>>,
    next: &mut Option<Row<T>>,
    spent: &mut Option<Row<T>>,
    count: usize,
    least: usize,
)
    ensures row { items_in row.new ≡ drop_list count (items_in row.old) }
    ensures next { items_in next.new ≡ drop_list count (items_in next.old) }
    ensures spent { items_in spent.new ≡ drop_list (max least count) (items_in spent.old) }
{
    spend(spent, least.max(count));
    drop_first(next, count);
    drop_first(row, count);
}

fn pop_each<T: Drop>(row: &mut Row<T>, count: usize)
    ensures { row.new.items ≡ drop_list count row.old.items }
{
    for _ in 0..count.min(row.len()) {
        drop(row.pop());
    }
}

/// Moves out of a row the items whose number is below `number`, to `taken`. All of them are among the first `end`. The
/// others stay, in order; those among the first `end` are held in `kept` meanwhile.
pub(crate) fn take_below<T: Numbered>(
    row: &mut Option<Row<T>>,
    number: u64,
    end: usize,
    taken: &mut Vec<T>,
    kept: &mut Vec<T>,
)
    requires none_behind { below T.number_of number (drop_list end (items_in row.old)) ≡ [] }
    requires taken_room { vec_len taken.old + min end (length (items_in row.old)) ≤ vec_capacity taken.old }
    requires kept_room { vec_len kept.old + min end (length (items_in row.old)) ≤ vec_capacity kept.old }
    requires none_kept { kept.old.items ≡ [] }
    ensures row { items_in row.new ≡ since T.number_of number (items_in row.old) }
    ensures taken { taken.new.items ≡ taken.old.items ++ below T.number_of number (items_in row.old) }
    ensures kept { kept.new.items ≡ [] }
    ensures room { vec_capacity kept.new ≡ vec_capacity kept.old }
{
    if let Some(row) = row {
        part_first(row, number, end.min(row.len()), taken, kept);
        put_back(row, kept);
    }
}

/// Moves the first `end` items out of a row: those whose number is below `number` to `taken`, and the others to
/// `kept`.
fn part_first<T: Numbered>(
    row: &mut Row<T>,
    number: u64,
    end: usize,
    taken: &mut Vec<T>,
    kept: &mut Vec<T>,
)
    requires within { end ≤ length row.old.items }
    requires taken_room { vec_len taken.old + end ≤ vec_capacity taken.old }
    requires kept_room { vec_len kept.old + end ≤ vec_capacity kept.old }
    ensures row { row.new.items ≡ drop_list end row.old.items }
    ensures before { row.new.before ≡ row.old.before + end }
    ensures taken { taken.new.items ≡ taken.old.items ++ below T.number_of number (take_list end row.old.items) }
    ensures kept { kept.new.items ≡ kept.old.items ++ since T.number_of number (take_list end row.old.items) }
    ensures count { vec_len kept.new ≤ vec_len kept.old + end }
    ensures room { vec_capacity kept.new ≡ vec_capacity kept.old }
{
    for _ in 0..end {
        let item = row.pop();
        if item.number() < number {
            taken.push_reserved(item);
        } else {
            kept.push_reserved(item);
        }
    }
}

/// Moves items back before the first one of a row, in order.
fn put_back<T>(row: &mut Row<T>, kept: &mut Vec<T>)
    requires { vec_len kept.old ≤ row.old.before }
    ensures row { row.new.items ≡ kept.old.items ++ row.old.items }
    ensures kept { kept.new.items ≡ [] }
    ensures room { vec_capacity kept.new ≡ vec_capacity kept.old }
{
    for _ in 0..kept.len() {
        row.push_front(kept.take_last());
    }
}

/// Copies at most `most` more items, in order, into a row that holds a prefix of them.
pub(crate) fn copy_to<T: Share>(items: &[T], row: &mut Option<Row<T>>, most: usize)
    requires { IsFront (items_in row.old) items.now }
    ensures { IsFront (items_in row.new) items.now }
{
    if let Some(row) = row {
        copy_each(items, row, most);
    }
}

fn copy_each<T: Share>(items: &[T], row: &mut Row<T>, most: usize)
    requires { IsFront row.old.items items.now }
    ensures { IsFront row.new.items items.now }
{
    for _ in 0..most {
        let Some(item) = item_at(items, row.len()) else {
            return;
        };
        if row.room() == 0 {
            return;
        }
        let Ok(other) = item.share() else {
            return;
        };
        row.push(other);
    }
}

fn item_at<T>(items: &[T], place: usize) -> Option<&T>
    ensures { option_copied result ≡ slice_get items.now place }
{
    items.get(place)
}

/// Updates a row that holds a prefix of some items when the item at an index is replaced. If the new item cannot be
/// shared, the row is dropped.
pub(crate) fn follow_set<T: Share + Drop>(row: &mut Option<Row<T>>, place: usize, item: &T)
    ensures { (items : List T) → IsFront (items_in row.old) items → IsFront (items_in row.new) (slice_set items place item.now) }
{
    if place >= slice_of(row).len() {
        return;
    }
    match item.share() {
        Ok(other) => set_in(row, place, other),
        Err(AllocError) => *row = None,
    }
}
