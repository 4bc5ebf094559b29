//! What a worker does for one datagram or one step: the calls of [`Desk`], the value behind a lane's lock, which have
//! their full contracts here, by `&mut self`; and [`handle`], which decides what a checked datagram of a NAS leads to.

pub use crate::handling::{Handled, handle};
pub use locked_lanes::{Desk, RecordQueue, agrees};
