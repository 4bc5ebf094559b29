//! What the commands `run` and `replay` share: the console, and the line of what is left at the end.
//!
//! [`Commands`] reads the commands of standard input. [`obey`] executes a command and writes its result; it also
//! executes an event of a script that is a command. The layer above uses the contract of [`close`]: the [`EndLine`] has
//! the totals of the report of the closed proxy, so it is clean only if nothing is left. [`close_with`] tells a ledger
//! each request that is left too.
//!
//! The definitions that the contracts cite are in specs: `Closing` is what an end line has, `Commands` which command a
//! line is, and `Lanes` and `Lines` how the lines are printed.
#![tactic(auto)]

mod closing;
mod commands;
mod console;
mod lanes;
mod lines;

pub use closing::{close, close_with};
pub use commands::{Command, Commands, find_first};
pub use console::obey;
pub use lanes::{DrainLine, StateLine};
pub use lines::{CountLine, EndLine, ListeningLine};
