//! What runs of the proxy leave to one another over one spool, each ended by a stop or by a crash (own): laws about the
//! definitions of `spool_files` and `rad_network`.
#![tactic(auto)]

mod asking;
mod crashing;
mod keeping;
mod offering;
mod reading;
mod remembering;

pub use asking::answered_means_received;
pub use crashing::there_are_crashes;
pub use keeping::{a_stop_loses_none, none_is_lost};
pub use offering::{in_order_of_arrival, offered_once};
pub use reading::{a_crash_leaves_whole_batches, a_start_counts};
pub use remembering::{none_anew_within_its_span, the_same_answer};
