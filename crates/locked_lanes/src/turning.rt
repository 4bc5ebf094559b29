//! The removal of a volume from a lane's book.

ghost use Rattle.std.specs.Prelude.{◌<◌};
ghost use Rattle.rad_lane.specs.Volumes.{Turns};
ghost use Rattle.locked_lanes.specs.Desk.{book, SameOutlet};
ghost use Rattle.locked_lanes.specs.Turned.{IsLawfulTurn};

use crate::desk::Desk;
use crate::proxy::Proxy;
use rad_lane::{TurnFault, Volume};
use rad_tables::Moment;
use std::alloc::Global;
use std::sync::Wait;

impl Desk {
    /// Removes the longest prefix of the lane's requests that are all over, and returns it as a volume. The ring is
    /// unchanged.
    ///
    /// # Errors
    ///
    /// The reason for which nothing is removed. The desk is unchanged.
    pub fn turn(&mut self, alloc: Global, moment: Moment) -> Result<Volume, TurnFault>
        ensures turns { Turns (book self.old) moment result (book self.new) }
        ensures outlet { SameOutlet self.old self.new }
        ensures lawful { IsLawfulTurn moment result }
    {
        self.keep_law();
        self.lane.turn(alloc, moment)
    }
}

impl Proxy {
    /// Removes the longest prefix of a lane's requests that are all over, and returns it as a volume.
    ///
    /// # Errors
    ///
    /// The reason for which nothing is removed. The lane is unchanged.
    pub fn turn(
        &self,
        rt: &impl Wait,
        alloc: Global,
        lane: u16,
        moment: Moment,
    ) -> Result<Volume, TurnFault>
        requires { lane < self.now }
        ensures { IsLawfulTurn moment result }
    {
        self.lock(rt, lane).turn(alloc, moment)
    }
}
