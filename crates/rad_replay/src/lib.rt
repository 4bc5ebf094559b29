//! The command `replay`. Its input is a configuration and a script of events; its output is a line for each result.
//!
//! [`replay`] reads the events, one on each line, passes each to a proxy as its workers would, and writes the result.
//! The calls that decide on a NAS's datagram are those of the front worker, `rad_realms::check_in` and
//! `rad_desk::laws::handle`, and the console that executes commands is that of `run`. The layer above uses the contract
//! of `replay`: the [`EndLine`](rad_console::EndLine) that it returns has the totals of the report of a closed proxy.
//!
//! The definitions that the contracts cite are in specs: `Pieces` is how a text is cut, `Lines`, `PacketText` and `Hex` are
//! how the lines are printed and how events write octets, `Path` is the result of a NAS's datagram, `Sent` what each source
//! port sent last, and `Replaying` what is returned at the end.
#![tactic(auto)]

mod building;
mod datagrams;
mod events;
mod faults;
mod hex;
mod lines;
mod numbers;
mod packet_text;
mod path;
mod pieces;
mod replaying;
mod script;
mod sent;

pub use faults::ReplayFault;
pub use replaying::replay;
