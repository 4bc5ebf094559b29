//! The calls of a desk's lane. None of them adds to the ring; [`Desk::hear`], in a file of its own, does.

ghost use Rattle.std.specs.Prelude.{◌≡◌, ◌↔◌, IsTrue, IsSome, IfSome};
ghost use Rattle.rad_lane.specs.Accepts.{Accepts, IsTaken};
ghost use Rattle.rad_lane.specs.Datagrams.{Datagrams};
ghost use Rattle.rad_lane.specs.Steps.{Steps, AllotsAnother};
ghost use Rattle.rad_lane.specs.Drains.{Drains};
ghost use Rattle.rad_lane.specs.Counting.{counts_of, IsDone};
ghost use Rattle.rad_lane.specs.Lawful.{IsLawful};
ghost use Rattle.locked_lanes.specs.Outlet.{IsOutlet};
ghost use Rattle.locked_lanes.specs.Lawful.{AddUp};
ghost use Rattle.locked_lanes.specs.Desk.{book, given, SameOutlet};
ghost use Rattle.locked_lanes.specs.Departures.{Departs, Returns, IsOfHome, StepsHolding, AcceptsLawfully, UnlessWrongLane};
ghost use Rattle.locked_lanes.specs.Found.{IfWrongLane, StepsLawfully, HearsFor, HearsLawfully, DrainsFor};

use crate::desk::Desk;
use crate::for_proof::step_lawfully;
use crate::hearing::{DeskFault, Told};
use crate::proxy::Stepped;
use rad_lane::{Action, Counts, HearFault, Refusal, Stamp, Taken};
use rad_packet::Datagram;
use rad_realms::{Checked, Home};
use rad_tables::Moment;
use std::alloc::Global;

impl Desk {
    /// Returns whether a request leads to the lane, by the lane's own realms. Its realm is compared with one of them,
    /// or with each if the request was checked against another configuration than the one that set up the lane.
    pub fn takes(&self, request: &Checked<'_>) -> bool
        ensures { IsTrue result ↔ IsTaken (book self.now) request.now }
    {
        self.lane.takes(request)
    }

    /// Returns whether the lane has this number and its home server this secret and these limits.
    pub(crate) fn is_of(&self, number: u16, home: &Home) -> bool
        ensures { IsTrue result ↔ IsOfHome (book self.now).setup number home.now }
    {
        self.lane.is_of(number, home.secret()) && self.limits.numbers() == home.limits().numbers()
    }

    /// Passes a request, which must lead to this lane, to the lane.
    ///
    /// # Errors
    ///
    /// The reason for which a new request is refused. The desk and the datagram are unchanged.
    pub fn accept(
        &mut self,
        alloc: Global,
        request: &Checked<'_>,
        moment: Moment,
        datagram: &mut Datagram,
    ) -> Result<Taken, Refusal>
        requires { IsTaken (book self.old) request.now }
        ensures accepts { Accepts (book self.old) request.now moment result (record { before = datagram.old; after = datagram.new }) (book self.new) }
        ensures outlet { SameOutlet self.old self.new }
        ensures returns { Returns result (record { before = datagram.old; after = datagram.new }) }
        ensures lawful { AcceptsLawfully request.now moment result (record { before = datagram.old; after = datagram.new }) }
    {
        self.keep_law();
        let taken = self.lane.accept(alloc, request, moment, datagram);
        self.keep_law();
        taken
    }

    /// Passes a request to the lane, if it leads to this lane.
    ///
    /// # Errors
    ///
    /// `WrongLane` if it does not; otherwise the reason for which the lane refuses it. The datagram is unchanged.
    pub(crate) fn accept_if_taken(
        &mut self,
        alloc: Global,
        request: &Checked<'_>,
        moment: Moment,
        datagram: &mut Datagram,
    ) -> Result<Taken, Refusal>
        ensures wrong { IfWrongLane result ((¬ IsTaken (book self.old) request.now) × (book self.new ≡ book self.old)) }
        ensures outlet { SameOutlet self.old self.new }
        ensures returns { Returns result (record { before = datagram.old; after = datagram.new }) }
        ensures accepts { UnlessWrongLane result (AcceptsLawfully request.now moment result (record { before = datagram.old; after = datagram.new })) }
    {
        if !self.takes(request) {
            return Err(Refusal::WrongLane);
        }
        self.accept(alloc, request, moment, datagram)
    }

    /// Does the lane's next step at this moment. `random` is the Authenticator of a probe.
    pub fn step(&mut self, moment: Moment, random: [u8; 16], datagram: &mut Datagram) -> Action
        ensures steps { Steps (book self.old) moment random result (record { before = datagram.old; after = datagram.new }) (book self.new) }
        ensures outlet { SameOutlet self.old self.new }
        ensures departs { Departs result (record { before = datagram.old; after = datagram.new }) }
        ensures another { AllotsAnother (book self.old) result }
        ensures lawful { IsLawful (book self.old) × IsLawful (book self.new) }
        ensures some { StepsLawfully moment random result (record { before = datagram.old; after = datagram.new }) }
    {
        step_lawfully(&mut self.lane, moment, random, datagram)
    }

    /// Does the lane's next step like [`Desk::step`], if the lane has this number and its home server this secret and
    /// these limits, and otherwise does nothing. It returns the action with the number of requests that the book then
    /// holds.
    pub(crate) fn step_for(
        &mut self,
        number: u16,
        home: &Home,
        moment: Moment,
        random: [u8; 16],
        datagram: &mut Datagram,
    ) -> Option<Stepped>
        ensures { IfSome result (λ stepped. StepsHolding number home.now moment random stepped.action stepped.held (record { before = datagram.old; after = datagram.new })) }
    {
        if !self.is_of(number, home) {
            return None;
        }
        let action = self.step(moment, random, datagram);
        let counts = self.counts();
        Some(Stepped {
            action,
            held: counts.accepted - counts.opening,
        })
    }

    /// Passes a datagram to the lane like [`Desk::hear`], if the lane has this number.
    ///
    /// # Errors
    ///
    /// `Lane` with `Unknown`, before all else, if it has another number. Otherwise as [`Desk::hear`].
    pub(crate) fn hear_for(
        &mut self,
        alloc: Global,
        number: u16,
        moment: Moment,
        port: u16,
        datagram: &[u8],
    ) -> Result<Told, DeskFault>
        ensures hears { HearsFor number self.old moment port datagram.now result self.new }
        ensures lawful { HearsLawfully number moment port datagram.now result }
    {
        self.keep_law();
        if !self.has_number(number) {
            return Err(DeskFault::Lane(HearFault::Unknown));
        }
        let told = self.hear(alloc, moment, port, datagram);
        self.keep_law();
        told
    }

    /// Drains the lane: it accepts no new request from now on. Returns how many requests the lane had accepted in all
    /// when it was drained. A second call changes nothing.
    pub fn drain(&mut self) -> u64
        ensures drains { Drains (book self.old) result (book self.new) }
        ensures outlet { SameOutlet self.old self.new }
    {
        self.lane.drain()
    }

    /// Drains the lane like [`Desk::drain`], if it has this number, and otherwise does nothing and returns 0.
    pub(crate) fn drain_for(&mut self, number: u16) -> u64
        ensures drains { DrainsFor number (book self.old) result (book self.new) }
        ensures outlet { SameOutlet self.old self.new }
    {
        if !self.has_number(number) {
            return 0;
        }
        self.drain()
    }

    /// Returns whether the lane has this number.
    pub(crate) fn has_number(&self, number: u16) -> bool
        ensures { IsTrue result ↔ (book self.now).setup.lane ≡ number }
    {
        self.number == number
    }

    /// Returns the counts of the lane.
    pub fn counts(&self) -> Counts
        ensures counts { result ≡ counts_of (book self.now) }
        ensures add_up { AddUp result }
        ensures lawful { IsLawful (book self.now) }
        ensures outlet { IsOutlet (book self.now) (given self.now) }
    {
        self.lane.counts()
    }

    /// Returns whether the lane is drained.
    pub fn is_draining(&self) -> bool
        ensures { IsTrue result ↔ IsSome (book self.now).drain }
    {
        self.counts().draining
    }

    /// Returns whether the lane is drained, with nothing queued and nothing outstanding.
    pub fn is_done(&self) -> bool
        ensures { IsTrue result ↔ IsDone (book self.now) }
    {
        self.lane.is_done()
    }

    /// Returns the stamps of the requests that the book holds.
    pub(crate) fn accepted(&self) -> &[Stamp]
        ensures value { result.now ≡ (book self.now).accepted }
        ensures lawful { IsLawful (book self.now) }
    {
        self.lane.accepted()
    }
}
