//! What is wrong with the entries of a ledger, which has one for each response to a client, and what is missing.
//!
//! [`judge`] returns the first thing that is wrong with an [`Entry`], and [`judge_left`] with a request that was [`Left`]. A
//! [`Tally`] counts the entries of one lane of a run that are right, and an [`Account`] has the numbers of its requests, in
//! constant memory. `specs/Judging.antt` and `specs/Leaving.antt` say what each reason means, by the definitions of
//! `rad_auth`. `specs/Counting.antt` says when a lane's entries are whole, and `specs/Accounting.antt` when each request
//! is accounted for.
#![tactic(auto)]

mod account;
mod ending;
mod entry;
mod judging;
mod leaving;
mod left;
mod line_request;
mod numbers;
mod packets;
mod reason;
mod record_count;
mod resumed;
mod tally;

pub use account::{Account, Fates, lane_verdict};
pub use ending::{EndCounts, Ending};
pub use entry::Entry;
pub use judging::judge;
pub use leaving::judge_left;
pub use left::Left;
pub use line_request::LineRequest;
pub use numbers::{MOST_RANGES, Numbers};
pub use packets::{ends_with_mark, whole_packet};
pub use rad_lane::LeftState;
pub use reason::Reason;
pub use record_count::{AnswerCount, RecordCount};
pub use resumed::{Resumed, Resumption, Resumptions};
pub use tally::{Gap, Tally, Verdict};
