//! The tables of a lane: outstanding entries, the last number of each key, and moments.
//!
//! [`Slots`] holds an entry for each pair of source port and Identifier that is in use, and allots the pairs in
//! cyclic order. [`Timed`] is the trait of entries by which it finds the one that is due first, and [`Change`] a
//! change of all entries at once. [`Duplicates`] holds the last number of each request's key. [`Moment`] is a time
//! that the caller passes in, and [`wait_after`] returns how long a sending waits for its answer.
//!
//! Callers see the tables as finite maps. The definitions that the contracts cite are in `specs/`. `Pairs.antt` has
//! the cyclic order and the allotment, `Lends.antt` the slots after a write through a borrowed entry, `Dues.antt` the
//! entry that is due first, `Keys.antt` the order of the keys, and `Waiting.antt` the wait. `Kept.antt` and
//! `Least.antt` describe how the slots are stored, and no caller needs them.
#![tactic(auto)]

mod cells;
mod changing;
mod duplicates;
mod moment;
mod slots;
mod timed;

pub use changing::Change;
pub use duplicates::{Duplicates, Key};
pub use moment::{Moment, wait_after};
pub use slots::{Due, Slot, Slots};
pub use timed::Timed;
