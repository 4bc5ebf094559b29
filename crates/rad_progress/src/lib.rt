//! What a lane does when its home server answers (own): laws about the definitions of `rad_lane`.
#![tactic(auto)]

mod coming_up;
mod hearing;
mod idling;
mod reaching;
mod serving;
mod settling;

pub use coming_up::{down_no_longer_than_its_wait, probed_in_time};
pub use hearing::{a_right_reply_is_heard, it_can_be_heard_until_it_is_answered};
pub use idling::idle_until_the_next_step;
pub use reaching::{
    a_queue_behind_a_full_window_takes_all_its_rounds, the_most_steps_are_left_once_a_wait_is_over,
};
pub use serving::{a_drained_lane_is_done, a_full_window_takes_all_the_rounds, served_in_rounds};
pub use settling::a_step_leaves_one_less;
