//! The slots: an entry for each pair of source port and Identifier that is in use.

ghost use Rattle.std.specs.Prelude.{◌≡◌, ◌+◌, ◌*◌, ◌<◌, ◌≤◌, ◌↔◌, Some, None, IsNone, IsSome, IfSome, IfOk, MatchOption};
ghost use Rattle.std.specs.Option.{option_copied, option_copied_mut, option_map};
ghost use Rattle.std.specs.Borrow.{sem};
ghost use Rattle.std.specs.FinMap as map;
ghost use Rattle.rad_tables.specs.Pairs.{AllInUse, IsFirstFree, IsInRange};
ghost use Rattle.rad_tables.specs.Dues.{IsEarliest, IsFirstDue, IsLeastDue, NoneInUse, NoneIs};
ghost use Rattle.rad_tables.specs.internal.Kept.{place_of as the_place, slot_at as the_slot, start_of as the_start};

use crate::cells::{Cell, change_each, earliest_of, first_free_behind, free_cells, least_of};
use crate::{Change, Timed};
use std::alloc::{AllocError, Global};
use std::marker::Model;
use std::mem;

/// A pair of source port and Identifier, under which something may be outstanding.
#[derive(Clone, Copy, Debug, PartialEq, Eq, PartialOrd, Ord)]
pub struct Slot {
    /// The number of the source port among those of the lane, counted from 0.
    pub port: u16,
    /// The packet's Identifier.
    pub identifier: u8,
}

/// The pair of an entry, and when the entry is due.
#[derive(Clone, Copy, Debug, PartialEq, Eq)]
pub struct Due {
    /// The pair of the entry.
    pub slot: Slot,
    /// When the entry is due, in milliseconds.
    pub due: u64,
}

/// Entries that are outstanding, each under a pair of its own.
///
/// The pairs are allotted in cyclic order: Identifiers 0 to 255 of port 0, then those of port 1, and so on.
#[derive(Drop)]
pub struct Slots<T> {
    /// The cell of each pair, in the order of the pairs.
    cells: Vec<Cell<T>>,
    /// The places of the cells in use, in no order.
    places: Vec<u16>,
    /// For each place in use, its index in `places`.
    positions: Vec<u16>,
    /// The pair last allotted. The search for the next one starts after it.
    allotted: Option<Slot>,
    /// The number of source ports, 1 to 4.
    ports: u16,
}

impl<T> Model for Slots<T> {
    ghost use Rattle.std.specs.Prelude.{vec_capacity};
    ghost use Rattle.rad_tables.specs.Pairs.{Table, coded_table};

    ghost Value = { Table T };

    ghost coded = { coded_table T.code };

    ghost use Rattle.rad_tables.specs.internal.Kept.{contents_of, entries_of, IsKept};

    ghost view = { λ s. record {
      ports = s.ports;
      entries = entries_of (contents_of s.cells.items);
      allotted = s.allotted;
    } };

    ghost invariant = { λ s.
        IsKept (contents_of s.cells.items) s.places.items s.positions.items
        (vec_capacity s.places) s.ports s.allotted };
}

impl<T: Drop> Slots<T> {
    ghost use Rattle.rad_tables.specs.Lends.{LendsEntry, LendsEntryIf};
    ghost use Rattle.rad_tables.specs.declared.slots.Slot.{Slot};

    /// Makes empty slots, with room for an entry under each pair of 1 to 4 source ports. No other call takes memory.
    ///
    /// # Errors
    ///
    /// If memory is refused.
    pub fn new(alloc: Global, ports: u16) -> Result<Slots<T>, AllocError>
        requires least { 1 ≤ ports }
        requires most { ports ≤ 4 }
        ensures { IfOk result (λ slots.
            slots ≡ record { ports = ports; entries = map.empty; allotted = None }) }
    {
        let pairs = 256 * usize::from(ports);
        Ok(Slots {
            cells: free_cells(alloc, pairs)?,
            places: Vec::with_capacity(alloc, pairs)?,
            positions: vec![in alloc; 0; pairs]?,
            allotted: None,
            ports,
        })
    }

    /// Returns the first free pair after the one last allotted, in cyclic order, if there is any.
    ///
    /// It looks at each pair in use on the way.
    pub fn allot(&self) -> Option<Slot>
        ensures none { IsNone result ↔ AllInUse self.now }
        ensures first { IfSome result (IsFirstFree self.now) }
        ensures in_range { IfSome result (IsInRange self.now.ports) }

        // The same in numbers, for callers that count: if not all pairs are in use, there is a free one, and the one
        // last allotted is returned again only if no other is free.
        ensures room { map.len self.now.entries < 256 * self.now.ports → IsSome result }
        ensures again { IfSome result (λ slot.
            self.now.allotted ≡ Some slot → map.len self.now.entries + 1 ≡ 256 * self.now.ports) }
    {
        let place = first_free_behind(&self.cells, start_of(self.allotted))?;
        Some(slot_at(place))
    }

    /// Puts an entry under a free pair, which then is the one last allotted.
    pub fn put(&mut self, slot: Slot, entry: T)
        requires in_range { IsInRange self.old.ports slot }
        requires free { map.get self.old.entries slot ≡ None }
        ensures { self.new ≡ record self.old {
          entries = map.insert self.old.entries slot entry;
          allotted = Some slot;
        } }
    {
        let place = place_of(slot);
        self.positions[place] = self.places.len() as u16;
        self.places.push_reserved(place as u16);
        self.cells[place] = Cell::Used(entry);
        self.allotted = Some(slot);
    }

    /// Returns the entry under a pair, if the pair is in use.
    pub fn get(&self, slot: Slot) -> Option<&T>
        ensures value { option_copied result ≡ map.get self.now.entries slot }
        ensures in_range { IsSome result → IsInRange self.now.ports slot }
    {
        let place = place_of(slot);
        if place >= self.cells.len() {
            return None;
        }
        self.cells[place].get()
    }

    /// Returns the entry under a pair for writing, if the pair is in use.
    pub fn get_mut(&mut self, slot: Slot) -> Option<&mut T>
        ensures* writes_back { sem 𝓛 (LendsEntryIf T.row self.entry slot result) }
        ensures value { option_copied_mut result ≡ map.get self.old.entries slot }
        ensures in_range { IsSome result → IsInRange self.old.ports slot }
    {
        if self.get(slot).is_some() {
            Some(self.entry_mut(slot))
        } else {
            None
        }
    }

    /// Returns the entry under a pair that is in use, for writing.
    fn entry_mut(&mut self, slot: Slot) -> &mut T
        requires { IsSome (map.get self.old.entries slot) }
        ensures* writes_back { sem 𝓛 (LendsEntry T.row self.entry slot result) }
        ensures value { map.get self.old.entries slot ≡ Some result.now }
    {
        self.cells[place_of(slot)].entry_mut()
    }

    /// Changes each entry. It looks at each pair, free ones included.
    pub fn change_each<C: Change<T>>(&mut self, change: &C)
        ensures changed { (slot : Slot) → map.get self.new.entries slot
            ≡ option_map (C.changed change.now) (map.get self.old.entries slot) }
        ensures kept { self.new ≡ record self.old { entries = self.new.entries } }
    {
        change_each(&mut self.cells, change);
    }

    /// Removes and returns the entry under a pair, if the pair is in use. The pair is free then.
    pub fn take(&mut self, slot: Slot) -> Option<T>
        ensures value { result ≡ map.get self.old.entries slot }
        ensures in_range { IsSome result → IsInRange self.old.ports slot }
        ensures taken { self.new ≡ record self.old { entries = map.remove self.old.entries slot } }
    {
        let place = place_of(slot);
        if place >= self.cells.len() {
            return None;
        }
        match mem::replace(&mut self.cells[place], Cell::Free) {
            Cell::Free => None,
            Cell::Used(entry) => {
                let position = self.positions[place];
                let moved = self.places[self.places.len() - 1];
                self.positions[usize::from(moved)] = position;
                self.places.swap_remove(usize::from(position));
                Some(entry)
            }
        }
    }

    /// Returns how many pairs are in use.
    pub fn used(&self) -> usize
        ensures count { result ≡ map.len self.now.entries }
        ensures most { result ≤ 256 * self.now.ports }
    {
        self.places.as_slice().len()
    }

    /// Returns the pair of the entry that is due first, of those that are spent or of those that are not. Of entries
    /// due at the same time, it is the one with the lowest number.
    ///
    /// It looks at each entry once, and reads only its due time, its number and whether it is spent.
    pub fn least_due(&self, spent: bool) -> Option<Slot>
    where
        T: Timed,
        ensures { MatchOption result
            (NoneIs T.spent_of self.now.entries spent)
            (IsLeastDue T.due_of T.number_of T.spent_of self.now.entries spent) }
    {
        let first = self.first_due(spent)?;
        Some(first.slot)
    }

    /// Returns the pair that [`Slots::least_due`] returns, and when its entry is due.
    ///
    /// It looks at each entry once, and reads no more of it than [`Slots::least_due`] does.
    pub fn first_due(&self, spent: bool) -> Option<Due>
    where
        T: Timed,
        ensures { MatchOption result
            (NoneIs T.spent_of self.now.entries spent)
            (IsFirstDue T.due_of T.number_of T.spent_of self.now.entries spent) }
    {
        let waiting = least_of(&self.cells, &self.places, spent)?;
        Some(Due {
            slot: slot_at(waiting.place),
            due: waiting.due,
        })
    }

    /// Returns the earliest due time of all entries, in milliseconds, if there is any.
    ///
    /// It looks at each entry once, and reads only its due time.
    pub fn earliest_due(&self) -> Option<u64>
    where
        T: Timed,
        ensures { MatchOption result
            (NoneInUse self.now.entries)
            (IsEarliest T.due_of self.now.entries) }
    {
        earliest_of(&self.cells, &self.places)
    }
}

/// Returns the place of a pair among the cells.
fn place_of(slot: Slot) -> usize
    ensures { result ≡ the_place slot }
{
    256 * usize::from(slot.port) + usize::from(slot.identifier)
}

/// Returns the place after that of the pair last allotted.
fn start_of(allotted: Option<Slot>) -> usize
    ensures { result ≡ the_start allotted }
{
    allotted.map_or(0, |slot| place_of(slot) + 1)
}

/// Returns the pair of a place among the cells.
fn slot_at(place: usize) -> Slot
    requires { place < 1024 }
    ensures { result ≡ the_slot place }
{
    Slot {
        port: (place / 256) as u16,
        identifier: (place % 256) as u8,
    }
}
