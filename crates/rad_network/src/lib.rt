//! What a lane and its home server know of each other, whatever the network between them loses, repeats, delays and
//! reorders (own): laws about the definitions of `rad_lane`.
#![tactic(auto)]

mod acknowledging;
mod asking;
mod delivering;
mod repeating;
mod sending;

pub use acknowledging::an_answer_was_acknowledged;
pub use asking::acknowledged_means_received;
pub use delivering::{a_delivered_reply_is_heard, a_delivered_round_is_a_round};
pub use repeating::none_again_across_cuts;
pub use sending::{one_mark_one_datagram, one_number_one_datagram};
