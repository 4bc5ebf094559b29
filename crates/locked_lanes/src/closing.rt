//! The end of the proxy.

ghost use Rattle.std.specs.Prelude.{◌≡◌, ◌≤◌, [], length, All, IfOk, OnOk, IfErr};
ghost use Rattle.std.specs.Vec.{vec_len, vec_capacity};
ghost use Rattle.locked_lanes.specs.Inlet.{HasRoom};
ghost use Rattle.locked_lanes.specs.Ending.{IsReportOf};
ghost use Rattle.locked_lanes.specs.Refusing.{AreUntouched, HandsBack};

use crate::desk::Desk;
use crate::ending::end_all;
use crate::inlet::Inlet;
use crate::proxy::Proxy;
use crate::report::{LaneEnd, Report};
use rad_lane::Series;
use std::alloc::{AllocError, Global};
use std::sync::Mutex;

/// Why a proxy is not closed.
#[derive(Drop)]
pub enum CloseFault {
    /// Memory was refused. It returns a proxy of as many lanes and the inlets.
    OutOfMemory(Proxy, Series<Inlet>),
}

/// Keeps that memory was refused. The proxy and the inlets are dropped.
impl From<CloseFault> for AllocError {
    fn from(_fault: CloseFault) -> AllocError {
        AllocError
    }
}

/// The room that closing a proxy needs, besides that of its inlets.
#[derive(Drop)]
struct Room {
    desks: Vec<Desk>,
    ends: Vec<LaneEnd>,
}

impl Proxy {
    /// Ends all lanes, and returns what is left of each: what its book holds, and what its ring still holds, which the
    /// inlet at the same place takes. Surplus inlets are dropped. All room is allocated first.
    ///
    /// # Errors
    ///
    /// `OutOfMemory` if memory is refused. It hands back a proxy of as many lanes, and the inlets, which took nothing
    /// meanwhile.
    pub fn close(self, alloc: Global, inlets: Vec<Inlet>) -> Result<Report, CloseFault>
        ensures closed { IfOk result (IsReportOf self inlets.items) }
        ensures refused { IfErr result (HandsBack self inlets.items) }
    {
        let mut inlets = inlets;
        match make_room(alloc, self.desks.len(), inlets.as_mut_slice()) {
            Ok(room) => {
                let desks = unlock(self.desks, room.desks);
                Ok(end_all(alloc, desks, inlets, room.ends))
            }
            Err(AllocError) => Err(CloseFault::OutOfMemory(self, Series::from_vec(inlets))),
        }
    }
}

fn make_room(alloc: Global, lanes: usize, inlets: &mut [Inlet]) -> Result<Room, AllocError>
    ensures untouched { AreUntouched inlets.old inlets.new }
    ensures rooms { OnOk result (All HasRoom inlets.new) }
    ensures desks { IfOk result (λ room. (room.desks.items ≡ []) × (lanes ≤ vec_capacity room.desks)) }
    ensures ends { IfOk result (λ room. (room.ends.items ≡ []) × (lanes ≤ vec_capacity room.ends)) }
{
    for inlet in inlets.iter_mut() {
        inlet.make_room(alloc)?;
    }
    let desks = Vec::with_capacity(alloc, lanes)?;
    let ends = Vec::with_capacity(alloc, lanes)?;
    Ok(Room { desks, ends })
}

fn unlock(locks: Vec<Mutex<Desk>>, desks: Vec<Desk>) -> Vec<Desk>
    requires none { desks.items ≡ [] }
    requires room { vec_len locks ≤ vec_capacity desks }
    ensures { vec_len result ≡ vec_len locks }
{
    let mut desks = desks;
    for lock in locks {
        desks.push_reserved(lock.into_inner());
    }
    desks
}
