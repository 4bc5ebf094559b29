//! The worker of a home server.

ghost use Rattle.std.specs.Prelude.{◌≡◌, ◌<◌, ◌≤◌, ◌*◌, ◌↔◌, IsTrue, None, MatchOption};
ghost use Rattle.rad_desk.specs.Calls.{Passes, IsALook, IsAReading, AreAtMost};
ghost use Rattle.rad_desk.specs.Keeping.{Keeps};
ghost use Rattle.rad_desk.specs.Working.{WorksForHome, OncePassed, ReceivesOnce, IsStep, IsSentHome, IsToBeCut, slot_of, IsPortOf};

use crate::gate::{Asked, Call, Gate, UpReason, Worker, WorkerReport};
use crate::shift::{Arrival, Buffers, Shift};
use crate::tally::Tally;
use crate::wire::Wire;
use locked_lanes::{DeskFault, Origin, Proxy, Stepped, Told};
use rad_lane::Action;
use rad_packet::Datagram;
use rad_realms::{Endpoint, Home};
use rad_tables::{Moment, Slot};
use std::alloc::Global;
use std::sync::Wait;

/// Serves a lane and its home server for at most `turns` turns, or until the gate stops the worker. In each turn it
/// receives once, and passes the datagram to the lane if it came from the home server's address and port. Then the lane
/// does one step, and what that gives is sent to the home server, from the socket of its source port. If the lane is
/// idle and holds at least half of the requests that its book may hold, the longest prefix of its requests that are all
/// over is removed from the book.
///
/// If a send fails, that datagram is lost, and the sending remains outstanding. A failed receive does not end the
/// worker.
pub fn lane_worker<W: Wire, G: Gate>(
    rt: &impl Wait,
    alloc: Global,
    proxy: &Proxy,
    lane: u16,
    home: &Home,
    wire: &mut W,
    gate: &G,
    turns: u64,
) -> Tally
    requires { lane < proxy.now }
    ensures works { Passes (WorksForHome lane home.now) (W.log wire.old) (W.log wire.new) }
    ensures turns { result.turns ≤ turns }
    ensures made { Passes (AreAtMost result.turns result.turns) (W.log wire.old) (W.log wire.new) }
{
    let mut shift = Shift::new(rt, alloc, proxy, wire, gate, Worker::Lane(lane));
    let mut buffers = Buffers::new();
    for turn in 0..turns {
        shift.tally.turns = turn + 1;
        if !hear(&mut shift, &mut buffers, lane, home) {
            return shift.tally;
        }
        if !step(&mut shift, &mut buffers, lane, home) {
            return shift.tally;
        }
    }
    shift.tally
}

fn endpoint_of(home: &Home) -> Endpoint
    ensures { result ≡ home.now.endpoint }
{
    Endpoint {
        address: home.address(),
        port: home.port(),
    }
}

fn is_from(home: &Home, from: Endpoint) -> bool
    ensures { IsTrue result ↔ from ≡ home.now.endpoint }
{
    is_same(from.address, home.address()) && from.port == home.port()
}

/// Returns whether two addresses are the same. They are compared as numbers, which takes less time than octet by octet.
fn is_same(one: [u8; 4], other: [u8; 4]) -> bool
    ensures { IsTrue result ↔ one ≡ other }
{
    u32::from_be_bytes(one) == u32::from_be_bytes(other)
}

/// Receives once, passes what came from the home server to the lane, and returns whether the worker goes on.
fn hear<R: Wait, W: Wire, G: Gate>(
    shift: &mut Shift<'_, R, W, G>,
    buffers: &mut Buffers,
    lane: u16,
    home: &Home,
) -> bool
    requires { lane < shift.old.proxy.now }
    ensures hears { Passes (ReceivesOnce result lane home.now) (W.log shift.old.wire.now) (W.log shift.new.wire.now) }
    ensures keeps { Keeps shift.old shift.new }
{
    let Some(arrival) = shift.receive(&mut buffers.octets) else {
        return true;
    };
    let Arrival {
        from,
        socket,
        octets,
    } = arrival;
    if !is_from(home, from) {
        shift.report(&WorkerReport::NotHome { from, octets });
        return true;
    }
    if !shift.may(Call::Hear) {
        return false;
    }
    let asked = shift.gate.asks(lane);
    find_origin_of_reply(shift, asked, lane, socket, octets, &mut buffers.origin);
    let now = shift.wire.now();
    let told = shift
        .proxy
        .hear(shift.rt, shift.alloc, lane, now, socket, octets);
    shift.made(Call::Hear);
    match told {
        Ok(Told::Answer(serial)) => {
            let slot = Slot {
                port: socket,
                identifier: buffers.octets[1],
            };
            shift.report(&WorkerReport::Answered {
                serial,
                slot,
                origin: buffers.origin.as_ref(),
            });
        }
        Ok(Told::ProbeAnswered) => shift.report(&WorkerReport::WentUp(UpReason::ProbeAnswered)),
        Err(fault) => tell_unheard(shift, fault, octets, buffers.origin.as_ref()),
    }
    true
}

fn tell_unheard<'b, R, W: Wire, G: Gate>(
    shift: &Shift<'_, R, W, G>,
    fault: DeskFault,
    octets: &'b [u8],
    origin: Option<&'b Origin>,
) {
    shift.report(&WorkerReport::Unheard {
        fault,
        octets,
        origin,
    });
}

/// Finds the origin of the request that is outstanding under the pair that a reply came to, if the gate asks for it.
fn find_origin_of_reply<R: Wait, W: Wire, G: Gate>(
    shift: &Shift<'_, R, W, G>,
    asked: Asked,
    lane: u16,
    port: u16,
    octets: &[u8],
    origin: &mut Option<Origin>,
)
    requires { lane < shift.now.proxy.now }
{
    let slot = match octets.get(1) {
        Some(&identifier) => Some(Slot { port, identifier }),
        None => None,
    };
    find_origin(shift, asked, lane, slot, origin);
}

/// Finds the origin of the request that is outstanding under a pair, if there is a pair and the gate asks for it.
fn find_origin<R: Wait, W: Wire, G: Gate>(
    shift: &Shift<'_, R, W, G>,
    asked: Asked,
    lane: u16,
    slot: Option<Slot>,
    origin: &mut Option<Origin>,
)
    requires { lane < shift.now.proxy.now }
{
    if asked.origins || origin.is_some() {
        set_origin(shift, asked, lane, slot, origin);
    }
}

/// Apart from its caller, so that only this takes room for an origin.
#[inline(never)]
fn set_origin<R: Wait, W: Wire, G: Gate>(
    shift: &Shift<'_, R, W, G>,
    asked: Asked,
    lane: u16,
    slot: Option<Slot>,
    origin: &mut Option<Origin>,
)
    requires { lane < shift.now.proxy.now }
{
    *origin = match slot {
        Some(slot) if asked.origins => shift.proxy.origin(shift.rt, lane, slot),
        _ => None,
    };
}

/// Makes the lane do its next step, sends what that gives, and returns whether the worker goes on.
fn step<R: Wait, W: Wire, G: Gate>(
    shift: &mut Shift<'_, R, W, G>,
    buffers: &mut Buffers,
    lane: u16,
    home: &Home,
) -> bool
    requires { lane < shift.old.proxy.now }
    ensures steps { Passes (OncePassed IsStep lane home.now) (W.log shift.old.wire.now) (W.log shift.new.wire.now) }
    ensures keeps { Keeps shift.old shift.new }
{
    if !shift.may(Call::Step) {
        return false;
    }
    let now = shift.wire.now();
    let asked = shift.gate.asks(lane);
    tell_standing(shift, asked, lane, now);
    let random = shift.wire.random();
    let stepped = shift
        .proxy
        .step_for(shift.rt, lane, home, now, random, &mut buffers.datagram);
    shift.made(Call::Step);
    let Some(stepped) = stepped else {
        return true;
    };
    let Some(port) = port_of(&stepped.action) else {
        return follow(shift, lane, home, &stepped);
    };
    tell_sending(shift, &stepped.action);
    let sent = slot_of_request(&stepped.action);
    find_origin(shift, asked, lane, sent, &mut buffers.origin);
    let origin = buffers.origin.as_ref();
    send_home(shift, home, port, &buffers.datagram, origin);
    true
}

/// Reports that a request is about to be sent, for the first time or again, if that is the step.
fn tell_sending<R, W: Wire, G: Gate>(shift: &Shift<'_, R, W, G>, action: &Action) {
    match *action {
        Action::Sent(number, slot) => shift.report(&WorkerReport::FirstSent { number, slot }),
        Action::Resent(number, _) => shift.report(&WorkerReport::SentAgain { number }),
        Action::Probed(_) | Action::WentDown | Action::WentUp | Action::Idle(_) => {}
    }
}

/// Returns the pair under which a step sent a request, if it did.
fn slot_of_request(action: &Action) -> Option<Slot> {
    match *action {
        Action::Sent(_, slot) | Action::Resent(_, slot) => Some(slot),
        Action::Probed(_) | Action::WentDown | Action::WentUp | Action::Idle(_) => None,
    }
}

fn tell_standing<R: Wait, W: Wire, G: Gate>(
    shift: &Shift<'_, R, W, G>,
    asked: Asked,
    lane: u16,
    moment: Moment,
)
    requires { lane < shift.now.proxy.now }
{
    if asked.standing {
        report_standing(shift, lane, moment);
    }
}

/// Apart from its caller, so that only this takes room for a standing.
#[inline(never)]
fn report_standing<R: Wait, W: Wire, G: Gate>(shift: &Shift<'_, R, W, G>, lane: u16, moment: Moment)
    requires { lane < shift.now.proxy.now }
{
    let standing = shift.proxy.standing(shift.rt, lane);
    shift.report(&WorkerReport::Stands { moment, standing });
}

fn port_of(action: &Action) -> Option<u16>
    ensures { MatchOption result (slot_of action.now ≡ None) (λ port. IsPortOf action.now port) }
{
    match action {
        Action::Sent(_, slot) | Action::Resent(_, slot) | Action::Probed(slot) => Some(slot.port),
        Action::WentDown | Action::WentUp | Action::Idle(_) => None,
    }
}

/// Follows up a step that sends nothing, and returns whether the worker goes on: it reports that the home server is
/// marked down or up, or, if the lane is idle and its book is half full, removes what is over from the front of the
/// book.
fn follow<R: Wait, W: Wire, G: Gate>(
    shift: &mut Shift<'_, R, W, G>,
    lane: u16,
    home: &Home,
    stepped: &Stepped,
) -> bool
    requires { lane < shift.old.proxy.now }
    ensures looks { Passes IsALook (W.log shift.old.wire.now) (W.log shift.new.wire.now) }
    ensures cuts { IsToBeCut home.now stepped.now → IsTrue result → Passes IsAReading (W.log shift.old.wire.now) (W.log shift.new.wire.now) }
    ensures keeps { Keeps shift.old shift.new }
{
    match stepped.action {
        Action::WentDown => {
            let now = shift.wire.now();
            let spent = shift.proxy.spent(shift.rt, lane, now);
            shift.report(&WorkerReport::WentDown(spent.as_ref()));
        }
        Action::WentUp => shift.report(&WorkerReport::WentUp(UpReason::DownWaitOver)),
        Action::Idle(_) if is_half_full(stepped.held, home.limits().numbers().book) => {
            return cut(shift, lane);
        }
        Action::Idle(_) | Action::Sent(..) | Action::Resent(..) | Action::Probed(_) => {}
    }
    true
}

/// If the home server does not have that port, since the port is another lane's, for example, nothing is sent.
fn send_home<R, W: Wire, G: Gate>(
    shift: &mut Shift<'_, R, W, G>,
    home: &Home,
    port: u16,
    datagram: &Datagram,
    origin: Option<&Origin>,
)
    ensures sends { Passes (IsSentHome home.now port datagram.now) (W.log shift.old.wire.now) (W.log shift.new.wire.now) }
    ensures keeps { Keeps shift.old shift.new }
{
    let to = endpoint_of(home);
    if u32::from(port) < home.limits().numbers().ports {
        shift.send_of(port, to, datagram.bytes(), origin);
    }
}

fn is_half_full(held: u64, book: u32) -> bool
    ensures { IsTrue result ↔ (book ≤ 2 * held) }
{
    let book = u64::from(book);
    held >= book || 2 * held >= book
}

/// Removes what is over from the front of the lane's book, drops it, and returns whether the worker goes on.
fn cut<R: Wait, W: Wire, G: Gate>(shift: &mut Shift<'_, R, W, G>, lane: u16) -> bool
    requires { lane < shift.old.proxy.now }
    ensures looks { Passes IsALook (W.log shift.old.wire.now) (W.log shift.new.wire.now) }
    ensures reads { IsTrue result → Passes IsAReading (W.log shift.old.wire.now) (W.log shift.new.wire.now) }
    ensures keeps { Keeps shift.old shift.new }
{
    if !shift.may(Call::Turn) {
        return false;
    }
    let now = shift.wire.now();
    let turned = shift.proxy.turn(shift.rt, shift.alloc, lane, now);
    shift.made(Call::Turn);
    if let Ok(volume) = turned {
        let count = volume.stamps.as_slice().len() as u64;
        shift.report(&WorkerReport::Cut(count));
    }
    true
}
