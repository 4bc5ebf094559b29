//! One thread for each worker.

ghost use denote.Param.Send.{IsSend, IsSync};
ghost use Rattle.std.specs.Prelude.{IsSome};

use super::bounds::{
    Host, Keepers, OwnedEntrance, OwnedLedger, OwnedMemory, OwnedWaiting, OwnedWire, SharedGate,
};
use super::working::Service;
use crate::console::{Console, attend};
use crate::faults::ServeFault;
use crate::wires::Wires;
use rad_desk::{Inlet, ResumedWire, Wire};
use rad_tables::Moment;
use std::io::{Read, Write};
use std::thread::{self, JoinHandle, Scope};

/// What the worker of the clients' side returns at its end.
#[derive(Drop)]
pub(crate) struct FrontEnd<L: Drop> {
    pub(crate) inlets: Vec<Inlet>,
    pub(crate) ledger: L,
    /// The moment of its end.
    pub(crate) moment: Moment,
}

/// What the workers leave, and why they ended.
#[derive(Drop)]
pub(crate) struct Worked<L: Drop> {
    pub(crate) front: FrontEnd<L>,
    /// `Ok` if the commands ended.
    pub(crate) outcome: Result<(), ServeFault>,
}

/// Starts a thread for each wire, writes what the output holds once all have begun, and obeys the commands. The thread
/// of the front has the keepers. All threads have ended when it returns.
///
/// # Errors
///
/// `Threads` if the thread of the front can't be started. No request was accepted then.
pub(crate) fn work<R, W, G, L, E, S, M, I, O>(
    service: Service<'_, R, G>,
    wires: Wires<W>,
    keepers: Keepers<L, E, S, M>,
    inlets: Vec<Inlet>,
    console: &mut Console<I, O>,
) -> Result<Worked<L>, ServeFault>
where
    R: Host,
    W: OwnedWire,
    G: SharedGate,
    L: OwnedLedger,
    E: OwnedEntrance,
    S: OwnedWaiting,
    M: OwnedMemory,
    I: Read + Drop,
    O: Write + Drop,
    requires keeps { (wire : W) → IsSome (W.log wire) }
{
    thread::scope(
        thread::scope_env(),
        service.rt,
        move |scope| -> Result<Worked<L>, ServeFault>
            requires { IsSync R.row × IsSend W.row × IsSync G.row × IsSend L.row × IsSend E.row × IsSend S.row × IsSend M.row × ((wire : W) → IsSome (W.log wire)) }
        {
            let Wires { front, lanes } = wires;
            let front = start_front(scope, service, inlets, front, keepers)?;
            let outcome = if start_lanes(scope, service, lanes) {
                attend(service, console)
            } else {
                Err(ServeFault::Threads)
            };
            service.supervisor.stop();
            let front = front.join(service.rt);
            Ok(Worked { front, outcome })
        },
    )
}

fn start_front<'s, T, R, W, G, L, E, S, M>(
    scope: &Scope<'s, T>,
    service: Service<'s, R, G>,
    inlets: Vec<Inlet>,
    wire: W,
    keepers: Keepers<L, E, S, M>,
) -> Result<JoinHandle<FrontEnd<L>>, ServeFault>
where
    R: Host + 's,
    W: OwnedWire + 's,
    G: SharedGate + 's,
    L: OwnedLedger + 's,
    E: OwnedEntrance + 's,
    S: OwnedWaiting + 's,
    M: OwnedMemory + 's,
    requires keeps { (wire : W) → IsSome (W.log wire) }
{
    let worker = scope.spawn(
        move || -> FrontEnd<L>
            requires { (wire : W) → IsSome (W.log wire) }
        {
            let mut inlets = inlets;
            let Keepers {
                mut ledger,
                mut entrance,
                waiting,
                memory,
            } = keepers;
            let mut wire = ResumedWire::new(wire, waiting, service.supervisor);
            service.work_in_front(
                inlets.as_mut_slice(),
                &mut wire,
                &memory,
                &mut ledger,
                &mut entrance,
            );
            FrontEnd {
                inlets,
                ledger,
                moment: wire.now(),
            }
        },
    );
    match worker {
        Ok(worker) => Ok(worker),
        Err(_) => Err(ServeFault::Threads),
    }
}

/// Starts a worker for each of these wires of the lanes, in order, and returns whether all were started. After one that
/// could not be started it starts no more.
fn start_lanes<'s, E, R, W, G>(
    scope: &Scope<'s, E>,
    service: Service<'s, R, G>,
    wires: Vec<W>,
) -> bool
where
    R: Host + 's,
    W: OwnedWire + 's,
    G: SharedGate + 's,
    requires keeps { (wire : W) → IsSome (W.log wire) }
{
    for (lane, wire) in wires.into_iter().enumerate() {
        let Ok(lane) = u16::try_from(lane) else {
            return false;
        };
        let worker = scope.spawn(
            move || -> ()
                requires { (wire : W) → IsSome (W.log wire) }
            {
                let mut wire = wire;
                service.work_on_lane(lane, &mut wire);
            },
        );
        if worker.is_err() {
            return false;
        }
    }
    true
}
