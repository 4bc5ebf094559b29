//! For the proof: functions that state the law that a lane's type guarantees.

ghost use Rattle.rad_lane.specs.Lawful.{IsLawful};
ghost use Rattle.rad_lane.specs.Steps.{Steps, AllotsAnother};
ghost use Rattle.locked_lanes.specs.Desk.{book};

use crate::desk::{Desk, RecordQueue};
use rad_lane::{Action, Lane};
use rad_packet::Datagram;
use rad_tables::Moment;

impl Desk {
    /// For the proof: states that the book is lawful.
    pub(crate) fn keep_law(&self)
        ensures { IsLawful (book self.now) }
    {
        keep_law_of(&self.lane);
    }
}

/// For the proof: states that the book of a lane is lawful.
pub(crate) fn keep_law_of(lane: &Lane<RecordQueue>)
    ensures { IsLawful lane.now }
{
    let _ = lane.accepted();
}

/// For the proof: does a lane's next step, and states before and after it that the book is lawful.
pub(crate) fn step_lawfully(
    lane: &mut Lane<RecordQueue>,
    moment: Moment,
    random: [u8; 16],
    datagram: &mut Datagram,
) -> Action
    ensures steps { Steps lane.old moment random result (record { before = datagram.old; after = datagram.new }) lane.new }
    ensures another { AllotsAnother lane.old result }
    ensures lawful { IsLawful lane.old × IsLawful lane.new }
{
    keep_law_of(lane);
    let action = lane.step(moment, random, datagram);
    keep_law_of(lane);
    action
}
