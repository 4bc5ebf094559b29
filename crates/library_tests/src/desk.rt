//! What only a call of `rad_desk` shows: what is known of the responses left at the end, by the inlets that close is given,
//! that it closes when it is called again after memory was refused, what a ledger is told of what is left, which lane takes a
//! realm that is in no row of the table, that a lane and the front may be in threads of their own, what a gate hears that
//! wants the notes alone, and that a ledger is given a response before it is sent. What the workers do in each turn, and what
//! the calls of a lane do through its lock, is compared by
//! `rad_simulation`.

mod closing;
mod fates;
mod handing;
mod left;
mod making;
mod noting;
mod setting;
mod threads;
mod unlisted;
