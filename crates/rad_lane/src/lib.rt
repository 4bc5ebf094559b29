//! The lane of one home server (own): the requests that it accepted and sent, and their answers, as a book that
//! operators can bill by.
//!
//! A lane is a value without a socket, a clock or a thread. [`Lane::accept`] takes requests, [`Lane::step`] returns
//! what is to be sent, and [`Lane::hear`] takes replies and returns the responses. The contract of each call is a
//! relation between the book before it and the book after it. Whatever the calls were, the book is lawful: its
//! requests are in it once each, in order, and each is answered only after a verified reply.
//!
//! The definitions that the contracts cite are in `specs`. `Book` is the state of a lane as contracts see it, and
//! `Lawful` is true of it at any time. `Accepts`, `Steps`, `Hears`, `Drains` and `Volumes` describe the calls, with
//! the help of `Repeat`, `Dues` and `Watch`. `Runs` describes a sequence of calls, and `LosesNone` says that no
//! request is lost in one. `Setup` has what a lane is set up with, `Counting` its counts, and `Closes` what is left
//! of it. `Stamp`, `Outstanding` and `Entries` have the parts of the book, and `Session` the session of a request.
#![tactic(auto)]

mod accepting;
mod answered;
mod closing;
mod counts;
mod draining;
mod earlier_keys;
mod entry;
mod hearing;
mod held;
mod lane;
mod laws;
mod leftover;
mod outgoing;
mod record;
mod repeats;
mod running;
mod sending;
mod series;
mod session;
mod setup;
mod stamp;
mod stepping;
mod turning;
mod views;
mod watch;

pub use accepting::{REFUSALS, Refusal, Taken};
pub use answered::Answered;
pub use counts::Counts;
pub use entry::{Entry, Probe};
pub use hearing::{HEAR_FAULTS, HearFault, Heard};
pub use held::Held;
pub use lane::{Lane, SetupFault};
pub use laws::{
    a_cut_loses_nothing, a_lane_takes_what_leads_to_it, a_port_that_a_lane_lacks_is_unknown,
    without_other_home_a_lane_takes_its_realms,
};
pub use leftover::{LeftState, Leftover, LeftoverParts};
pub use outgoing::Outgoing;
pub use record::Record;
pub use running::{Event, Given, GivenAnswer, RunFault, run};
pub use sending::Sending;
pub use series::Series;
pub use session::session_of;
pub use setup::Setup;
pub use stamp::Stamp;
pub use stepping::Action;
pub use turning::{TurnFault, Volume};
pub use watch::Watch;
