//! The lanes behind their locks.

ghost use Rattle.std.specs.Prelude.{◌≡◌, ◌<◌, ◌≤◌, length, map as each, All, IfOk, IfSome, [], Err};
ghost use Rattle.std.specs.List.{range_with_len};
ghost use Rattle.std.specs.Vec.{vec_len};
ghost use Rattle.rad_lane.specs.declared.accepting.Refusal.TheVariants.{WrongLane};
ghost use Rattle.rad_lane.specs.Datagrams.{Datagrams};
ghost use Rattle.locked_lanes.specs.Desk.{AreNewOf};
ghost use Rattle.locked_lanes.specs.Inlet.{lane_of, taken};
ghost use Rattle.locked_lanes.specs.Departures.{Departs, Returns, StepsHolding, AcceptsLawfully, UnlessWrongLane};
ghost use Rattle.locked_lanes.specs.Found.{StepsLawfully, HearsLawfully};
ghost use Rattle.locked_lanes.specs.Lawful.{AddUp};

use crate::desk::Desk;
use crate::inlet::Inlet;
use crate::{DeskFault, OpenFault, Told};
use rad_lane::{Action, Counts, Refusal, Setup, Taken};
use rad_packet::Datagram;
use rad_realms::{Checked, Config, Home};
use rad_tables::Moment;
use std::alloc::Global;
use std::hint::spin_loop;
use std::marker::Model;
use std::sync::{Mutex, MutexGuard, Wait};

/// How many times a thread tries a lock before it sleeps until it has the lock. A lane is locked for about as long as
/// hashing a packet takes, which is less than sleeping and waking take.
const TRIES: u32 = 2000;

/// The lanes of all home servers, each with the sending end of its ring behind a lock of its own.
///
/// Contracts see a proxy as the number of its lanes.
#[derive(Drop)]
pub struct Proxy {
    /// The desks, in the order of the lanes.
    pub(crate) desks: Vec<Mutex<Desk>>,
}

impl Model for Proxy {
    ghost use Rattle.std.specs.Prelude.{ℕ, ◌≤◌, length};

    ghost Value = { ℕ };

    ghost view = { λ p. length p.desks.items };

    ghost invariant = { λ p. length p.desks.items ≤ 64 };
}

/// The result of a step of a lane.
#[derive(Clone, Copy)]
pub struct Stepped {
    /// What the step did.
    pub action: Action,
    /// How many requests the book holds after the step.
    pub held: u64,
}

/// Makes a lane for each home server of the configuration, and the inlets of their rings, in the order of the lanes.
///
/// # Errors
///
/// `OutOfMemory` if memory is refused.
pub fn open(alloc: Global, config: &Config) -> Result<(Proxy, Vec<Inlet>), OpenFault>
    ensures lanes { IfOk result (λ opened. opened.0 ≡ length config.now.homes) }
    ensures inlets { IfOk result (λ opened. each lane_of opened.1.items ≡ range_with_len 0 opened.0) }
    ensures taken { IfOk result (λ opened. All (λ i. taken i ≡ []) opened.1.items) }
{
    let (desks, inlets) = make_desks(alloc, config)?;
    let desks = lock_all(alloc, desks)?;
    Ok((Proxy { desks }, inlets))
}

/// Makes the lane of each home server of the configuration, over its setup, and the inlets of their rings.
fn make_desks(alloc: Global, config: &Config) -> Result<(Vec<Desk>, Vec<Inlet>), OpenFault>
    ensures desks { IfOk result (λ made. AreNewOf config.now 0 made.0.items) }
    ensures count { IfOk result (λ made. length made.0.items ≡ length config.now.homes) }
    ensures inlets { IfOk result (λ made. each lane_of made.1.items ≡ range_with_len 0 (length config.now.homes)) }
    ensures taken { IfOk result (λ made. All (λ i. taken i ≡ []) made.1.items) }
    ensures most { IfOk result (λ made. length made.0.items ≤ 64) }
{
    let lanes = config.homes().len() as u16;
    let Ok(mut desks) = Vec::with_capacity(alloc, usize::from(lanes)) else {
        return Err(OpenFault::OutOfMemory);
    };
    let Ok(mut inlets) = Vec::with_capacity(alloc, usize::from(lanes)) else {
        return Err(OpenFault::OutOfMemory);
    };
    for lane in 0..lanes {
        let Ok(setup) = Setup::of(alloc, config, lane) else {
            return Err(OpenFault::OutOfMemory);
        };
        let (desk, inlet) = Desk::pair(alloc, setup)?;
        desks.push_reserved(desk);
        inlets.push_reserved(inlet);
    }
    Ok((desks, inlets))
}

fn lock_all(alloc: Global, desks: Vec<Desk>) -> Result<Vec<Mutex<Desk>>, OpenFault>
    ensures { IfOk result (λ locks. vec_len locks ≡ vec_len desks) }
{
    let Ok(mut locks) = Vec::with_capacity(alloc, desks.len()) else {
        return Err(OpenFault::OutOfMemory);
    };
    for desk in desks {
        locks.push_reserved(Mutex::new(desk));
    }
    Ok(locks)
}

impl Proxy {
    /// Returns the number of lanes.
    pub fn lanes(&self) -> u16
        ensures { result ≡ self.now }
    {
        self.desks.len() as u16
    }

    /// Passes a request to its lane.
    ///
    /// # Errors
    ///
    /// `WrongLane`, before all else, if there is no such lane or the request does not lead to it. Such a request was
    /// checked against another configuration. Otherwise the reason for which the lane refuses it. The datagram is
    /// unchanged.
    pub fn accept(
        &self,
        rt: &impl Wait,
        alloc: Global,
        request: &Checked<'_>,
        moment: Moment,
        datagram: &mut Datagram,
    ) -> Result<Taken, Refusal>
        ensures lane { self.now ≤ request.now.lane → result ≡ Err WrongLane }
        ensures returns { Returns result (record { before = datagram.old; after = datagram.new }) }
        ensures accepts { UnlessWrongLane result (AcceptsLawfully request.now moment result (record { before = datagram.old; after = datagram.new })) }
    {
        if request.lane() >= self.lanes() {
            return Err(Refusal::WrongLane);
        }
        self.lock(rt, request.lane())
            .accept_if_taken(alloc, request, moment, datagram)
    }

    /// Does a lane's next step at this moment. `random` is the Authenticator of a probe.
    pub fn step(
        &self,
        rt: &impl Wait,
        lane: u16,
        moment: Moment,
        random: [u8; 16],
        datagram: &mut Datagram,
    ) -> Action
        requires { lane < self.now }
        ensures steps { StepsLawfully moment random result (record { before = datagram.old; after = datagram.new }) }
        ensures departs { Departs result (record { before = datagram.old; after = datagram.new }) }
    {
        self.lock(rt, lane).step(moment, random, datagram)
    }

    /// Does a lane's next step like [`Proxy::step`], if the lane has this number and its home server this secret
    /// and these limits, and otherwise does nothing. It returns the action with the number of requests that the book
    /// then holds, both under one hold of the lock.
    pub fn step_for(
        &self,
        rt: &impl Wait,
        lane: u16,
        home: &Home,
        moment: Moment,
        random: [u8; 16],
        datagram: &mut Datagram,
    ) -> Option<Stepped>
        requires { lane < self.now }
        ensures { IfSome result (λ stepped. StepsHolding lane home.now moment random stepped.action stepped.held (record { before = datagram.old; after = datagram.new })) }
    {
        self.lock(rt, lane)
            .step_for(lane, home, moment, random, datagram)
    }

    /// Passes a datagram that came to a source port of a lane from its home server to the lane.
    ///
    /// # Errors
    ///
    /// `RingFull` if the lane's ring is full, and `Lane` if the lane does not hear the datagram.
    pub fn hear(
        &self,
        rt: &impl Wait,
        alloc: Global,
        lane: u16,
        moment: Moment,
        port: u16,
        datagram: &[u8],
    ) -> Result<Told, DeskFault>
        requires { lane < self.now }
        ensures { HearsLawfully lane moment port datagram.now result }
    {
        self.lock(rt, lane)
            .hear_for(alloc, lane, moment, port, datagram)
    }

    /// Drains a lane: it accepts no new request from now on. Returns how many requests it had accepted in all when it
    /// was drained.
    pub fn drain(&self, rt: &impl Wait, lane: u16) -> u64
        requires { lane < self.now }
    {
        self.lock(rt, lane).drain_for(lane)
    }

    /// Returns the counts of a lane.
    pub fn counts(&self, rt: &impl Wait, lane: u16) -> Counts
        requires { lane < self.now }
        ensures { AddUp result }
    {
        self.lock(rt, lane).counts()
    }

    /// Locks a lane, trying for a while before the thread sleeps.
    pub(crate) fn lock(&self, rt: &impl Wait, lane: u16) -> MutexGuard<'_, Desk>
        requires { lane < self.now }
    {
        let desk = &self.desks[usize::from(lane)];
        for _ in 0..TRIES {
            if let Some(guard) = desk.try_lock() {
                return guard;
            }
            spin_loop();
        }
        desk.lock(rt)
    }
}
