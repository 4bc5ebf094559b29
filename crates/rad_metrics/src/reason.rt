//! The reasons by which the events of one metric differ.

ghost use Rattle.std.specs.Prelude.{◌≡◌};
ghost use Rattle.rad_metrics.specs.Reasons.{reason_place, reason_name, reason_label};

use crate::sample::Label;
use rad_desk::{DeskFault, Repeat, UpReason};
use rad_lane::Refusal;
use rad_realms::Dropped;

/// A reason by which the events of a metric differ. All read faults are one reason.
#[derive(Clone, Copy)]
pub enum Reason {
    /// The events of the metric do not differ.
    None,
    /// Why a datagram at the clients' sockets was dropped.
    Dropped(Dropped),
    /// Why a request was refused.
    Refused(Refusal),
    /// A datagram at a home server's sockets was dropped, since the home server did not send it.
    NotHome,
    /// Why a home server's datagram was dropped.
    Unheard(DeskFault),
    /// What a retransmitted request repeats.
    Repeat(Repeat),
    /// Why a home server is marked up.
    Up(UpReason),
}

impl Reason {
    /// Returns the place of the reason among those of its metric.
    pub fn place(self) -> usize
        ensures { result ≡ reason_place self }
    {
        match self {
            Reason::None | Reason::NotHome | Reason::Repeat(Repeat::Waiting) => 0,
            Reason::Dropped(reason) => reason.place(),
            Reason::Refused(reason) => reason.place(),
            Reason::Unheard(fault) => fault.place() + 1,
            Reason::Repeat(Repeat::Answered) => 1,
            Reason::Up(UpReason::Answered) => 0,
            Reason::Up(UpReason::ProbeAnswered) => 1,
            Reason::Up(UpReason::DownWaitOver) => 2,
        }
    }

    /// Returns the name of the reason; it is empty if there is none.
    pub fn name(self) -> &'static str
        ensures { result.now ≡ reason_name self }
    {
        match self {
            Reason::None => "",
            Reason::Dropped(reason) => reason.name(),
            Reason::Refused(reason) => reason.name(),
            Reason::NotHome => "NotHome",
            Reason::Unheard(fault) => fault.name(),
            Reason::Repeat(Repeat::Waiting) => "waiting",
            Reason::Repeat(Repeat::Answered) => "again",
            Reason::Up(UpReason::Answered) => "answered",
            Reason::Up(UpReason::ProbeAnswered) => "probe answered",
            Reason::Up(UpReason::DownWaitOver) => "down_wait over",
        }
    }

    /// Returns the label of the reason, if there is one.
    pub(crate) fn label<'a>(self) -> Option<Label<'a>>
        ensures { result ≡ reason_label self }
    {
        match self {
            Reason::None => None,
            reason => Some(Label::Reason(reason)),
        }
    }
}
