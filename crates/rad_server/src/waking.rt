//! Workers that sleep, and what wakes them.

mod apart;
mod neighbours;
mod notifying;
mod ring_level;
mod sleeping;
mod turn_clock;

pub(crate) use neighbours::Neighbours;
pub use notifying::{Notifier, Notifiers};
pub(crate) use ring_level::{RingLevel, RingRoom};
pub(crate) use sleeping::Sleeper;
pub(crate) use turn_clock::TurnClock;
