//! `run` and `serve`: the proxy over UDP sockets, and over any wires.

ghost use Rattle.std.specs.Prelude.{length, IfOk, IsSome};
ghost use Rattle.rad_console.specs.Closing.{IsEndOf};

use super::bounds::{
    Host, Keepers, OwnedEntrance, OwnedLedger, OwnedMemory, OwnedWaiting, OwnedWire, SharedGate,
};
use super::lingering::linger_of;
use super::supervising::Supervisor;
use super::threads::{FrontEnd, Worked, work};
use super::working::Service;
use crate::console::{Console, Descriptors, Output, Streams};
use crate::faults::ServeFault;
use crate::sockets::{BoundSockets, PortSettings, SocketReports};
use crate::waking::Notifiers;
use crate::wires::{NotifiedWires, WireMaker, Wires, make_reader};
use rad_addresses::LocalAddresses;
use rad_console::{EndLine, ListeningLine, close_with};
use rad_desk::{
    NoLedger, NoneWaits, NothingRemembered, OpenFault, Outcomes, Proxy, Worker, WorkerReport, open,
};
use rad_realms::Config;
use rad_tables::Moment;
use std::alloc::Global;
use std::io::{Read, Write};
use std::net::Net;
use std::random::RandomSource;

/// Serves a configuration over UDP until the reader ends. It binds the sockets, serves, and prints where it listens
/// once all workers have begun.
///
/// If the reader reads from a descriptor, so that a read may wait, a worker that ends by itself ends that wait. If the
/// writer writes to a descriptor, so that a write may wait, the input is watched during the wait. From the end of the
/// input on the lanes are drained, and the writer is waited for no longer than `linger`. `machine` says which ports the
/// lanes send from, and if all addresses of the machine are served which these are.
///
/// # Errors
///
/// `Listen` or `LaneSocket` if a socket can't be bound or set up, `InputWait` if a wait for the reader can't be set up,
/// and otherwise as [`serve`].
pub fn run<R, A, G, I, O>(
    rt: &R,
    machine: &A,
    alloc: Global,
    config: &Config,
    gate: &G,
    reader: I,
    writer: O,
    descriptors: Descriptors,
) -> Result<EndLine, ServeFault>
where
    R: Host + Net + RandomSource,
    A: LocalAddresses + PortSettings + Sync,
    G: SharedGate + SocketReports,
    I: Read + Drop,
    O: Write + Drop,
    ensures { IfOk result (IsEndOf (length config.now.homes)) }
{
    let streams = Streams {
        reader,
        writer,
        descriptors,
    };
    run_with(rt, machine, alloc, config, gate, no_keepers(), streams)
}

/// Serves a configuration over UDP as [`run`] does, and hands its work over to these keepers.
///
/// The requests that wait come in before anything that is received. The ledger begins once all sockets are bound, and before the workers do. The front hands each response over to it
/// before it sends it. At the end, also by a fault, it is told each request that is left.
///
/// # Errors
///
/// As [`run`]. The ledger has not begun if a socket can't be bound or set up, or if a wait for the reader can't be set
/// up.
pub fn run_with<R, A, G, L, E, S, M, I, O>(
    rt: &R,
    machine: &A,
    alloc: Global,
    config: &Config,
    gate: &G,
    keepers: Keepers<L, E, S, M>,
    streams: Streams<I, O>,
) -> Result<EndLine, ServeFault>
where
    R: Host + Net + RandomSource,
    A: LocalAddresses + PortSettings + Sync,
    G: SharedGate + SocketReports,
    L: OwnedLedger,
    E: OwnedEntrance,
    S: OwnedWaiting,
    M: OwnedMemory,
    I: Read + Drop,
    O: Write + Drop,
    ensures { IfOk result (IsEndOf (length config.now.homes)) }
{
    let Streams {
        reader,
        writer,
        descriptors,
    } = streams;
    let mut output = open_output(alloc, config, writer, descriptors)?;
    output.add(&ListeningLine {
        endpoint: config.listen(),
    })?;
    let sockets = BoundSockets::bind(rt, machine, alloc, config, gate)?;
    sockets.tell(gate);
    let maker = WireMaker::new(rt, machine, alloc, gate)?;
    let sleepers = maker.make_sleepers(config)?;
    let reader = make_reader(rt, alloc, reader, descriptors.input)?;
    let notifiers = sleepers.notifiers(alloc, config.homes(), &reader)?;
    let wires = NotifiedWires {
        wires: maker.make_wires(config, sockets, sleepers, &notifiers)?,
        notifiers: &notifiers,
    };
    serve_over(
        rt,
        alloc,
        config,
        wires,
        gate,
        keepers,
        Console::new(reader, output),
    )
}

/// Serves a configuration over these wires until the reader ends. Then it drains the lanes, waits until they are done
/// or `linger` has passed, and prints what is left.
///
/// The wires keep a log, so that a contract can say what is sent on them. The notifiers are those of the wires and of
/// the reader, as far as these have any. The gate is asked before each call of a worker. A worker that ends by itself
/// stops the others.
///
/// # Errors
///
/// `Input` if the reader fails, `Clock` if the clock fails, `Output` if the writer fails, `Threads` if a worker can't
/// be started, `Ended` if a worker ends by itself, and `Memory` if a growth is refused. The workers have ended by then.
/// A fault before the end of the input leaves the lanes as they are. A reader that returns `Interrupted` is read again,
/// if all workers go on.
pub fn serve<R, W, G, I, O>(
    rt: &R,
    alloc: Global,
    config: &Config,
    wires: Wires<W>,
    notifiers: &Notifiers,
    gate: &G,
    reader: I,
    writer: O,
) -> Result<EndLine, ServeFault>
where
    R: Host,
    W: OwnedWire,
    G: SharedGate,
    I: Read + Drop,
    O: Write + Drop,
    requires keeps { (wire : W) → IsSome (W.log wire) }
    ensures { IfOk result (IsEndOf (length config.now.homes)) }
{
    let wires = NotifiedWires { wires, notifiers };
    let streams = Streams {
        reader,
        writer,
        descriptors: Descriptors::none(),
    };
    serve_with(rt, alloc, config, wires, gate, no_keepers(), streams)
}

/// Serves a configuration over these wires as [`serve`] does, and hands its work over to these keepers.
///
/// The ledger begins before the workers do. The front hands each response over to it before it sends it. At the end, also
/// by a fault, it is told each request that is left. If the writer writes to a descriptor, the input is watched while a
/// write waits, as [`run`] does.
///
/// # Errors
///
/// As [`serve`].
pub fn serve_with<R, W, G, L, E, S, M, I, O>(
    rt: &R,
    alloc: Global,
    config: &Config,
    wires: NotifiedWires<'_, W>,
    gate: &G,
    keepers: Keepers<L, E, S, M>,
    streams: Streams<I, O>,
) -> Result<EndLine, ServeFault>
where
    R: Host,
    W: OwnedWire,
    G: SharedGate,
    L: OwnedLedger,
    E: OwnedEntrance,
    S: OwnedWaiting,
    M: OwnedMemory,
    I: Read + Drop,
    O: Write + Drop,
    requires keeps { (wire : W) → IsSome (W.log wire) }
    ensures { IfOk result (IsEndOf (length config.now.homes)) }
{
    let output = open_output(alloc, config, streams.writer, streams.descriptors)?;
    serve_over(
        rt,
        alloc,
        config,
        wires,
        gate,
        keepers,
        Console::new(streams.reader, output),
    )
}

/// Keeps nothing, and has nothing of earlier runs.
fn no_keepers() -> Keepers<NoLedger, Outcomes, NoneWaits, NothingRemembered> {
    Keepers {
        ledger: NoLedger,
        entrance: Outcomes::new(),
        waiting: NoneWaits,
        memory: NothingRemembered,
    }
}

/// Makes the output for this writer, with room for the answer to a command.
fn open_output<O: Write + Drop>(
    alloc: Global,
    config: &Config,
    writer: O,
    descriptors: Descriptors,
) -> Result<Output<O>, ServeFault> {
    let lines = config.homes().len();
    Output::new(alloc, writer, descriptors, lines, linger_of(config))
}

/// Serves as `serve_with` does. What the output already holds is written once all workers have begun.
fn serve_over<R, W, G, L, E, S, M, I, O>(
    rt: &R,
    alloc: Global,
    config: &Config,
    wires: NotifiedWires<'_, W>,
    gate: &G,
    mut keepers: Keepers<L, E, S, M>,
    mut console: Console<I, O>,
) -> Result<EndLine, ServeFault>
where
    R: Host,
    W: OwnedWire,
    G: SharedGate,
    L: OwnedLedger,
    E: OwnedEntrance,
    S: OwnedWaiting,
    M: OwnedMemory,
    I: Read + Drop,
    O: Write + Drop,
    requires keeps { (wire : W) → IsSome (W.log wire) }
    ensures { IfOk result (IsEndOf (length config.now.homes)) }
{
    let NotifiedWires { wires, notifiers } = wires;
    let (proxy, inlets) = match open(alloc, config) {
        Ok(opened) => opened,
        Err(OpenFault::OutOfMemory) => return Err(ServeFault::Memory),
    };
    let supervisor = Supervisor::new(alloc, config.homes(), gate, notifiers)?;
    let service = Service {
        rt,
        alloc,
        config,
        proxy: &proxy,
        supervisor: &supervisor,
    };
    keepers.ledger.begin();
    let Worked { front, outcome } = work(service, wires, keepers, inlets, &mut console)?;
    let FrontEnd {
        inlets,
        mut ledger,
        moment,
    } = front;
    tell_standings(rt, &proxy, moment, gate);
    let end = close_with(alloc, proxy, inlets, moment, &mut ledger);
    outcome?;
    let end = end?;
    console.output.add(&end)?;
    console.output.finish(rt)?;
    Ok(end)
}

/// Reports the standing of each lane, once no worker changes it any more.
fn tell_standings<R: Host, G: SharedGate>(rt: &R, proxy: &Proxy, moment: Moment, gate: &G) {
    for lane in 0..proxy.lanes() {
        let standing = proxy.standing(rt, lane);
        gate.report(
            Worker::Lane(lane),
            &WorkerReport::Stands { moment, standing },
        );
    }
}
