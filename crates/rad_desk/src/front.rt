//! The worker of the clients' side.

ghost use Rattle.std.specs.Prelude.{◌≡◌, ◌≤◌, ◌+◌, ◌*◌, ◌↔◌, List, length, IsTrue, IfSome, MatchBool, option_copied};
ghost use Rattle.rad_desk.specs.Handling.{Outcome, IsARequest};
ghost use Rattle.rad_desk.specs.Calls.{Passes, AreAtMost, IsSent};
ghost use Rattle.rad_desk.specs.Once.{Terms, Recalls, terms_of, nothing_remembered, WorksInFront, UntilStopped, DoesOrStops, TakesInOnce, ServesOnce, Replies, Hands, Fits};
ghost use Rattle.rad_desk.specs.HandOver.{KeepsTaken, HandsOver};
ghost use Rattle.rad_desk.specs.Keeping.{Keeps};
ghost use Rattle.rad_desk.specs.Reports.{realm_report};

use crate::gate::{Call, Gate, Repeat, Worker, WorkerReport};
use crate::handling::{Entrance, Handled, Handling, Outcomes, handle};
use crate::ledger::{AcceptedRecord, Earlier, Ledger, NoLedger};
use crate::marks::count_marks;
use crate::memory::{Memory, NothingRemembered};
use crate::shift::{Arrival, Buffers, Shift};
use crate::tally::Tally;
use crate::wire::{Delivery, Wire};
use locked_lanes::{Inlet, Proxy};
use rad_auth::check_response;
use rad_lane::{Refusal, Taken};
use rad_packet::Datagram;
use rad_realms::{Config, Endpoint, Incoming, check_in};
use std::alloc::Global;
use std::sync::Wait;

/// The index of the front's first socket. The responses of the inlets are sent from it.
const LISTEN: u16 = 0;

/// Serves the clients for at most `turns` turns, or until the gate stops the worker. In each turn it receives once. It
/// passes a request to its lane, and answers a Status-Server; to a repeat of an answered request it sends the response
/// again. Then it takes at most one response from each inlet, and sends it.
///
/// If a send fails, that datagram is lost. A failed receive does not end the worker.
pub fn front_worker<W: Wire, G: Gate>(
    rt: &impl Wait,
    alloc: Global,
    proxy: &Proxy,
    config: &Config,
    inlets: &mut [Inlet],
    wire: &mut W,
    gate: &G,
    turns: u64,
) -> Tally
    ensures works { Passes (WorksInFront (terms_of config.now nothing_remembered) inlets.old inlets.new) (W.log wire.old) (W.log wire.new) }
    ensures turns { result.turns ≤ turns }
    ensures made { Passes (AreAtMost result.turns (result.turns * (1 + length inlets.old))) (W.log wire.old) (W.log wire.new) }
{
    let mut ledger = NoLedger;
    let mut entrance = Outcomes::new();
    front_worker_with(
        rt,
        alloc,
        proxy,
        config,
        &NothingRemembered,
        inlets,
        wire,
        &mut ledger,
        &mut entrance,
        gate,
        turns,
    )
}

/// Serves the clients as [`front_worker`] does, and hands over each response that an inlet gives to a ledger: once, in
/// the order in which the inlets gave them, and right before it is sent: the ledger's list tells with each response what
/// had passed over the wire when it was handed over. A request that an earlier run answered, as the memory has it, is answered
/// as then, and goes to no lane. The list of the entrance tells what each datagram led to that
/// passed the checks: exactly one outcome for each, but for the last one if the gate stops the worker then.
pub fn front_worker_with<W: Wire, M: Memory, L: Ledger, E: Entrance, G: Gate>(
    rt: &impl Wait,
    alloc: Global,
    proxy: &Proxy,
    config: &Config,
    memory: &M,
    inlets: &mut [Inlet],
    wire: &mut W,
    ledger: &mut L,
    entrance: &mut E,
    gate: &G,
    turns: u64,
) -> Tally
    ensures works { Passes (WorksInFront (terms_of config.now (M.remembered memory.now)) inlets.old inlets.new) (W.log wire.old) (W.log wire.new) }
    ensures hands_over { Passes (UntilStopped (terms_of config.now (M.remembered memory.now)) (HandsOver (terms_of config.now (M.remembered memory.now)) inlets.old inlets.new (E.outcomes entrance.old) (E.outcomes entrance.new) (W.log wire.old) (L.kept ledger.old) (L.kept ledger.new))) (W.log wire.old) (W.log wire.new) }
    ensures turns { result.turns ≤ turns }
    ensures made { Passes (AreAtMost result.turns (result.turns * (1 + length inlets.old))) (W.log wire.old) (W.log wire.new) }
{
    let mut shift = Shift::new(rt, alloc, proxy, wire, gate, Worker::Front);
    let mut buffers = Buffers::new();
    for turn in 0..turns {
        shift.tally.turns = turn + 1;
        if !take_turn(
            &mut shift,
            &mut buffers,
            config,
            memory,
            inlets,
            ledger,
            entrance,
        ) {
            return shift.tally;
        }
    }
    shift.tally
}

/// Does one turn, and returns whether the worker goes on. A response that an inlet gives in the turn is handed over and
/// sent before the turn ends, even if the gate stops the worker.
fn take_turn<R: Wait, W: Wire, M: Memory, L: Ledger, E: Entrance, G: Gate>(
    shift: &mut Shift<'_, R, W, G>,
    buffers: &mut Buffers,
    config: &Config,
    memory: &M,
    inlets: &mut [Inlet],
    ledger: &mut L,
    entrance: &mut E,
) -> bool
    ensures hands_over { Passes (DoesOrStops result (terms_of config.now (M.remembered memory.now)) (HandsOver (terms_of config.now (M.remembered memory.now)) inlets.old inlets.new (E.outcomes entrance.old) (E.outcomes entrance.new) (W.log shift.old.wire.now) (L.kept ledger.old) (L.kept ledger.new))) (W.log shift.old.wire.now) (W.log shift.new.wire.now) }
    ensures made { Passes (AreAtMost 1 (1 + length inlets.old)) (W.log shift.old.wire.now) (W.log shift.new.wire.now) }
    ensures keeps { Keeps shift.old shift.new }
{
    take_in(shift, buffers, config, memory, ledger, entrance) && hand_out(shift, inlets, ledger)
}

/// Receives once, handles what was received, and returns whether the worker goes on.
fn take_in<R: Wait, W: Wire, M: Memory, L: Ledger, E: Entrance, G: Gate>(
    shift: &mut Shift<'_, R, W, G>,
    buffers: &mut Buffers,
    config: &Config,
    memory: &M,
    ledger: &mut L,
    entrance: &mut E,
) -> bool
    ensures takes_in { Passes (TakesInOnce result (terms_of config.now (M.remembered memory.now)) (E.outcomes entrance.old) (E.outcomes entrance.new)) (W.log shift.old.wire.now) (W.log shift.new.wire.now) }
    ensures kept { L.kept ledger.new ≡ L.kept ledger.old }
    ensures keeps { Keeps shift.old shift.new }
{
    let Some(arrival) = shift.receive(&mut buffers.octets) else {
        return true;
    };
    let Arrival { from, octets, .. } = arrival;
    match check_in(config, from.address, from.port, octets) {
        Ok(incoming) => {
            let written = &mut buffers.datagram;
            match recall(memory, &incoming, written) {
                Some(answer) => {
                    tell_recalled(&incoming, answer, ledger);
                    send_recalled(shift, &arrival, &incoming, written);
                    true
                }
                None => serve(shift, &arrival, &incoming, written, ledger, entrance),
            }
        }
        Err(reason) => {
            shift.report(&WorkerReport::Dropped {
                reason,
                from,
                octets,
            });
            true
        }
    }
}

/// Writes the response that an earlier run gave to a request, if it is remembered, and returns what names it, if it fits the
/// request.
fn recall<M: Memory>(memory: &M, incoming: &Incoming<'_>, written: &mut Datagram) -> Option<Earlier>
    ensures { IfSome result (λ _. Recalls (M.remembered memory.now) incoming.now written.new) }
{
    match incoming {
        Incoming::Request(request) => {
            let answer = memory.recall(request, written)?;
            if fits(incoming, written) {
                Some(answer)
            } else {
                None
            }
        }
        Incoming::Status(_) => None,
    }
}

/// Tells a ledger of a response that an earlier run gave and that is about to be sent again.
fn tell_recalled<L: Ledger>(incoming: &Incoming<'_>, answer: Earlier, ledger: &mut L)
    ensures { L.kept ledger.new ≡ L.kept ledger.old }
{
    if let Incoming::Request(request) = incoming {
        ledger.send_earlier(request.lane(), answer);
    }
}

/// Reports a repeat, and sends back the response that an earlier run gave.
fn send_recalled<R, W: Wire, G: Gate>(
    shift: &mut Shift<'_, R, W, G>,
    arrival: &Arrival<'_>,
    incoming: &Incoming<'_>,
    response: &Datagram,
)
    ensures sends { Passes (IsSent arrival.now.socket arrival.now.from response.now) (W.log shift.old.wire.now) (W.log shift.new.wire.now) }
    ensures keeps { Keeps shift.old shift.new }
{
    let Arrival { from, socket, .. } = *arrival;
    shift.report(&WorkerReport::Repeated {
        repeat: Repeat::Answered,
        from,
        octets: octets_of(incoming),
    });
    shift.send(socket, from, response.bytes());
}

/// Reports the realm of a request, if it has one, and how many Proxy-States of this proxy's form it has, if it has any.
fn tell_request<R, W: Wire, G: Gate>(
    shift: &Shift<'_, R, W, G>,
    from: Endpoint,
    incoming: &Incoming<'_>,
) {
    if let Incoming::Request(request) = incoming {
        let lane = request.lane();
        if let Some(report) = report_of_realm(lane, request.realm(), request.rank()) {
            shift.report(&report);
        }
        let marks = count_marks(request.packet());
        if marks > 0 {
            shift.report(&WorkerReport::Marked { lane, from, marks });
        }
    }
}

/// Returns the report of a request for a lane by its realm, if it has one, which has this rank among those of the table
/// that lead to the lane.
fn report_of_realm<'a>(
    lane: u16,
    realm: Option<&[u8]>,
    rank: Option<usize>,
) -> Option<WorkerReport<'a>>
    ensures { result ≡ realm_report lane (option_copied realm.entry) rank }
{
    match (realm, rank) {
        (None, _) => None,
        (Some(_), None) => Some(WorkerReport::RequestedUnlisted { lane }),
        (Some(_), Some(rank)) => Some(WorkerReport::Requested { lane, rank }),
    }
}

/// Passes a request to its lane or answers a Status-Server, and returns whether the worker goes on.
fn serve<R: Wait, W: Wire, L: Ledger, E: Entrance, G: Gate>(
    shift: &mut Shift<'_, R, W, G>,
    arrival: &Arrival<'_>,
    incoming: &Incoming<'_>,
    datagram: &mut Datagram,
    ledger: &mut L,
    entrance: &mut E,
) -> bool
    ensures serves { Passes (ServesOnce result arrival.now.socket arrival.now.from incoming.now (E.outcomes entrance.old) (E.outcomes entrance.new)) (W.log shift.old.wire.now) (W.log shift.new.wire.now) }
    ensures kept { L.kept ledger.new ≡ L.kept ledger.old }
    ensures keeps { Keeps shift.old shift.new }
{
    let is_request = is_request(incoming);
    if is_request && !shift.may(Call::Accept) {
        return false;
    }
    tell_request(shift, arrival.from, incoming);
    let moment = shift.wire.now();
    let result = handle(
        shift.rt,
        shift.alloc,
        shift.proxy,
        incoming,
        moment,
        datagram,
    );
    entrance.tell(arrival.socket, incoming, &Handling { moment, result });
    if is_request {
        shift.made(Call::Accept);
    }
    answer(shift, arrival, incoming, result, datagram, ledger);
    true
}

fn is_request(incoming: &Incoming<'_>) -> bool
    ensures { MatchBool result (IsARequest incoming.now) (Unit {0}) }
{
    match incoming {
        Incoming::Request(_) => true,
        Incoming::Status(_) => false,
    }
}

/// Reports what a datagram led to that passed the checks, and sends back what answers it.
fn answer<R, W: Wire, L: Ledger, G: Gate>(
    shift: &mut Shift<'_, R, W, G>,
    arrival: &Arrival<'_>,
    incoming: &Incoming<'_>,
    handled: Result<Handled, Refusal>,
    datagram: &Datagram,
    ledger: &mut L,
)
    ensures replies { Passes (Replies arrival.now.socket arrival.now.from incoming.now handled datagram.now) (W.log shift.old.wire.now) (W.log shift.new.wire.now) }
    ensures kept { L.kept ledger.new ≡ L.kept ledger.old }
    ensures keeps { Keeps shift.old shift.new }
{
    let Arrival { from, socket, .. } = *arrival;
    let octets = octets_of(incoming);
    match handled {
        Ok(Handled::Taken(lane, Taken::New(number))) => {
            ledger.accept(&AcceptedRecord {
                lane,
                number,
                first: None,
            });
            shift.report(&WorkerReport::Accepted {
                lane,
                number,
                from,
                octets,
            });
        }
        Ok(Handled::Taken(_, Taken::Waiting(_))) => shift.report(&WorkerReport::Repeated {
            repeat: Repeat::Waiting,
            from,
            octets,
        }),
        Ok(Handled::Taken(lane, Taken::Again(number))) => {
            shift.report(&WorkerReport::Repeated {
                repeat: Repeat::Answered,
                from,
                octets,
            });
            if fits(incoming, datagram) {
                let response = datagram.bytes();
                ledger.send_again(lane, number, response);
                shift.send(socket, from, response);
            }
        }
        Ok(Handled::Answered) => {
            shift.send(socket, from, datagram.bytes());
        }
        Err(reason) => shift.report(&WorkerReport::Refused {
            reason,
            from,
            octets,
        }),
    }
}

/// Returns the octets of a packet that passed the checks, without padding.
fn octets_of<'a>(incoming: &'a Incoming<'_>) -> &'a [u8] {
    match incoming {
        Incoming::Request(request) => request.packet().octets(),
        Incoming::Status(status) => status.packet().octets(),
    }
}

/// Returns whether a packet has the Identifier of the request that it is to answer, and a Response Authenticator that
/// is valid for that request under the client's secret (RFC 2866 section 4.2). It is not called for a Status-Server.
fn fits(incoming: &Incoming<'_>, datagram: &Datagram) -> bool
    ensures { IsTrue result ↔ Fits incoming.now datagram.now }
{
    match incoming {
        Incoming::Request(request) => {
            let asked = request.packet();
            let answer = datagram.packet();
            answer.identifier() == asked.identifier()
                && check_response(&answer, &asked.authenticator(), request.secret())
        }
        Incoming::Status(_) => true,
    }
}

/// Takes at most one response from each inlet, hands it over, sends it, and returns whether the worker goes on.
fn hand_out<R, W: Wire, L: Ledger, G: Gate>(
    shift: &mut Shift<'_, R, W, G>,
    inlets: &mut [Inlet],
    ledger: &mut L,
) -> bool
    ensures hands_over { (terms : Terms) (came : List Outcome) → Passes (HandsOver terms inlets.old inlets.new came came (W.log shift.old.wire.now) (L.kept ledger.old) (L.kept ledger.new)) (W.log shift.old.wire.now) (W.log shift.new.wire.now) }
    ensures sends { Passes (AreAtMost 0 (length inlets.old)) (W.log shift.old.wire.now) (W.log shift.new.wire.now) }
    ensures keeps { Keeps shift.old shift.new }
{
    for place in 0..inlets.len() {
        if !shift.may(Call::Take) {
            return false;
        }
        take(shift, &mut inlets[place], ledger);
    }
    true
}

/// Takes a response from an inlet, hands it over and sends it, if the gate says that there may be one.
fn take<R, W: Wire, L: Ledger, G: Gate>(
    shift: &mut Shift<'_, R, W, G>,
    inlet: &mut Inlet,
    ledger: &mut L,
)
    ensures hands { Passes (Hands inlet.old inlet.new) (W.log shift.old.wire.now) (W.log shift.new.wire.now) }
    ensures taken { KeepsTaken inlet.old inlet.new (W.log shift.old.wire.now) (L.kept ledger.old) (L.kept ledger.new) }
    ensures keeps { Keeps shift.old shift.new }
{
    if !shift.gate.may_have_response(inlet.lane()) {
        return;
    }
    take_next(shift, inlet, ledger);
}

fn take_next<R, W: Wire, L: Ledger, G: Gate>(
    shift: &mut Shift<'_, R, W, G>,
    inlet: &mut Inlet,
    ledger: &mut L,
)
    ensures hands { Passes (Hands inlet.old inlet.new) (W.log shift.old.wire.now) (W.log shift.new.wire.now) }
    ensures taken { KeepsTaken inlet.old inlet.new (W.log shift.old.wire.now) (L.kept ledger.old) (L.kept ledger.new) }
    ensures keeps { Keeps shift.old shift.new }
{
    let taken = inlet.take();
    shift.made(Call::Take);
    let Some(outgoing) = taken else {
        return;
    };
    let client = outgoing.client;
    let to = Endpoint {
        address: client,
        port: outgoing.port,
    };
    let lane = inlet.lane();
    let number = outgoing.reply.mark().number;
    ledger.keep(&outgoing, &*shift.wire);
    shift.send(LISTEN, to, outgoing.reply.response());
    shift.report(&WorkerReport::Took {
        lane,
        serial: outgoing.serial,
        number,
        client,
        sent: outgoing.reply.sending(),
    });
}
