//! The lanes of all home servers, for many threads (own). Each lane is behind a lock of its own, together with the
//! sending end of a ring. Its responses pass through the ring to the front, in order of answering, each once.
//!
//! [`open`] makes the [`Proxy`], which holds the lanes, and an [`Inlet`] for each lane, from which the front takes
//! responses without a lock. A contract can't say which state a call found behind its lock. What the call does there is
//! the contract of the same call of [`Desk`]. The calls through the lock state what every lane's type guarantees.
//! `rad_desk` has the workers that make these calls, and passes all of this crate on.
//!
//! The definitions that the contracts cite are in specs. `Desk` and `Inlet` are what a contract sees of the two ends of
//! a ring, and `Outlet` is what was added to the ring, beside the lane's book. `Tells` is hearing the home server.
//! `Departures`, `Found` and `Lawful` are what a call through a lock states, `Spent` is what is reported of the request that
//! marks a home server down, `Origin` where an outstanding request comes from, and `Standing` is the standing of a lane.
#![tactic(auto)]

mod agreeing;
mod closing;
mod desk;
mod ending;
mod for_proof;
mod hearing;
mod inlet;
mod lane_calls;
mod numbered;
mod origin;
mod proxy;
mod report;
mod spent;
mod standing;
mod turning;

pub use agreeing::agrees;
pub use closing::CloseFault;
pub use desk::{Desk, OpenFault, RecordQueue};
pub use hearing::{DeskFault, Told};
pub use inlet::Inlet;
pub use origin::Origin;
pub use proxy::{Proxy, Stepped, open};
pub use report::{LaneEnd, Report, Rest};
pub use spent::{Session, Spent};
pub use standing::Standing;
