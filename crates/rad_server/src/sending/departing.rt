//! What a worker sends, on its way to the system.

ghost use Rattle.std.specs.Prelude.{◌≡◌, [], ◌∷◌, ◌++◌, List, IsTrue, map};
ghost use Rattle.rad_server.specs.internal.Accounts.{AreInOrder, GoesOn, IsAccounted, came_if, kept_list, kept_of};
ghost use Rattle.rad_server.specs.internal.Keeping.{departure_of, sent_departure, waiting_in};
ghost use Rattle.rad_server.specs.internal.Taken.{Departure, HaveTaken, given, taken};

use super::kept::Kept;
use super::outbox::{Outbox, Sent, Waiting};
use crate::sockets::{DatagramSocket, Handed, ReadySocket, is_full, send_from, try_anew};
use rad_desk::{Delivery, Gate, Traffic, Worker, WorkerReport};
use rad_realms::Endpoint;
use std::alloc::{AllocError, Global};

/// The most receives of a worker from one hand-over to the next while there is something to hand over.
const RECEIVES: u32 = 8;

/// The longest sleep while something is kept, in milliseconds.
const SLEEP: u64 = 5;

/// A worker, and the gate to which a send of it that fails is reported.
pub(crate) struct Reports<'a, G> {
    pub(crate) worker: Worker,
    pub(crate) gate: &'a G,
}

impl<G> Clone for Reports<'_, G> {
    fn clone(&self) -> Result<Self, AllocError> {
        Ok(*self)
    }
}

impl<G> Copy for Reports<'_, G> {}

/// What became of the datagrams of a worker. Each one that is lost is reported to the gate.
///
/// The lists are seen by clauses alone, and take no memory.
#[derive(Drop)]
struct Account<'a, G> {
    reports: Reports<'a, G>,
    /// What was handed over, in order: taken on, or lost at once.
    handed: Traffic,
    /// Of what was taken on, what is gone: to its socket, or lost.
    gone: Traffic,
}

impl<'a, G> Account<'a, G> {
    /// Makes it before any datagram was handed over.
    fn new(reports: Reports<'a, G>) -> Account<'a, G>
        ensures handed { result.handed.passed ≡ [] }
        ensures gone { result.gone.passed ≡ [] }
    {
        Account {
            reports,
            handed: Traffic::new(),
            gone: Traffic::new(),
        }
    }

    /// Adds that a datagram, which was taken on, is gone to its socket.
    fn went(&mut self, sent: Sent<'_>)
        ensures gone { given self.new.gone.passed ≡ given self.old.gone.passed ++ sent_departure sent.entry ∷ [] }
        ensures taken { taken self.new.gone.passed ≡ taken self.old.gone.passed ++ sent_departure sent.entry ∷ [] }
        ensures handed { self.new.handed ≡ self.old.handed }
    {
        let Endpoint { address, port } = sent.to;
        self.gone
            .departed(sent.socket, address, port, sent.octets, Delivery::Sent);
    }
}

impl<G: Gate> Account<'_, G> {
    /// Adds that a datagram was handed over. If it was lost at once, that is reported.
    fn handed(&mut self, sent: Sent<'_>, delivery: Delivery)
        ensures gone { self.new.gone ≡ self.old.gone }
        ensures handed { given self.new.handed.passed ≡ given self.old.handed.passed ++ sent_departure sent.entry ∷ [] }
        ensures taken { taken self.new.handed.passed ≡ taken self.old.handed.passed ++ came_if delivery (sent_departure sent.entry) }
    {
        if delivery == Delivery::Fault {
            self.report_loss(sent);
        }
        let Endpoint { address, port } = sent.to;
        self.handed
            .departed(sent.socket, address, port, sent.octets, delivery);
    }

    /// Adds that a datagram, which was taken on, is lost, and reports it.
    fn lost(&mut self, sent: Sent<'_>)
        ensures gone { given self.new.gone.passed ≡ given self.old.gone.passed ++ sent_departure sent.entry ∷ [] }
        ensures taken { taken self.new.gone.passed ≡ taken self.old.gone.passed }
        ensures handed { self.new.handed ≡ self.old.handed }
    {
        self.report_loss(sent);
        let Endpoint { address, port } = sent.to;
        self.gone
            .departed(sent.socket, address, port, sent.octets, Delivery::Fault);
    }

    fn report_loss(&self, sent: Sent<'_>) {
        let report = WorkerReport::SendFault {
            to: sent.to,
            octets: sent.octets,
        };
        self.reports.gate.report(self.reports.worker, &report);
    }
}

/// What a worker sends, on its way to the system: datagrams that are handed over together, and those of the front that
/// the system did not accept, since the send buffer of their socket had no room.
///
/// A datagram does not overtake one that is kept for the same client. A hand-over tries the clients with the fewest kept
/// ones first, those with none before all others, until the socket has no room. So a client behind a slow interface,
/// whose datagrams fill the buffer, does not keep the responses of another from being sent.
///
/// A lane's datagram that the system does not accept is lost, since the sending remains outstanding.
#[derive(Drop)]
pub(crate) struct Departures<'a, G> {
    outbox: Outbox,
    /// The datagrams that the system did not accept, if the worker is the front.
    kept: Option<Kept>,
    /// The moment of the worker's turn, in milliseconds.
    moment: u64,
    /// The number of receives since there is something to hand over, or since the last hand-over.
    receives: u32,
    account: Account<'a, G>,
}

impl<'a, G: Gate> Departures<'a, G> {
    /// Makes it without a datagram.
    pub(crate) fn new(alloc: Global, reports: Reports<'a, G>) -> Departures<'a, G>
        ensures accounted { IsAccounted [] result }
        ensures gone { result.account.gone.passed ≡ [] }
    {
        Departures {
            outbox: Outbox::new(alloc),
            kept: kept_by(alloc, reports.worker),
            moment: 0,
            receives: 0,
            account: Account::new(reports),
        }
    }

    pub(crate) fn has_kept(&self) -> bool {
        has_any(&self.kept)
    }

    /// Returns the longest sleep of at most so many milliseconds.
    pub(crate) fn longest_sleep(&self, milliseconds: u64) -> u64 {
        if self.has_kept() {
            milliseconds.min(SLEEP)
        } else {
            milliseconds
        }
    }

    pub(crate) fn set_moment(&mut self, moment: u64)
        ensures accounted { (sent : List Departure) → IsAccounted sent self.old → IsAccounted sent self.new }
        ensures gone { self.new.account.gone ≡ self.old.account.gone }
    {
        self.moment = moment;
    }

    /// Counts a receive of the worker, and hands over what was sent some receives ago.
    pub(crate) fn count_receive<S: DatagramSocket>(&mut self, sockets: &mut [ReadySocket<S>])
        ensures accounted { (sent : List Departure) → IsAccounted sent self.old → IsAccounted sent self.new }
        ensures taken { HaveTaken S.took sockets.old (taken self.old.account.gone.passed) → HaveTaken S.took sockets.new (taken self.new.account.gone.passed) }
    {
        if self.has_nothing() {
            return;
        }
        self.receives = self.receives.saturating_add(1);
        if self.receives >= RECEIVES {
            self.hand_over(sockets);
        }
    }

    fn has_nothing(&self) -> bool
        ensures { IsTrue result → waiting_in self.now.outbox ≡ [] }
    {
        self.outbox.is_empty() && !self.has_kept()
    }

    /// Sends a datagram from the socket of this index. It is handed over with those sent before and after it. If memory
    /// is refused, they are all handed over at once.
    pub(crate) fn send<S: DatagramSocket>(
        &mut self,
        sockets: &mut [ReadySocket<S>],
        socket: u16,
        to: Endpoint,
        octets: &[u8],
    ) -> Delivery
        ensures accounted { (sent : List Departure) → IsAccounted sent self.old → IsAccounted (sent ++ came_if result (record { socket = socket; to = to; octets = octets.now })) self.new }
        ensures taken { HaveTaken S.took sockets.old (taken self.old.account.gone.passed) → HaveTaken S.took sockets.new (taken self.new.account.gone.passed) }
    {
        let sent = Sent {
            moment: self.moment,
            socket,
            to,
            octets,
        };
        self.make_room(sockets);
        match self.outbox.add(sent) {
            Ok(()) => Delivery::Sent,
            Err(_) => self.send_now(sockets, sent),
        }
    }

    /// Hands over what was sent, if the outbox is full.
    fn make_room<S: DatagramSocket>(&mut self, sockets: &mut [ReadySocket<S>])
        ensures accounted { (sent : List Departure) → IsAccounted sent self.old → IsAccounted sent self.new }
        ensures taken { HaveTaken S.took sockets.old (taken self.old.account.gone.passed) → HaveTaken S.took sockets.new (taken self.new.account.gone.passed) }
    {
        if self.outbox.is_full() {
            self.hand_over(sockets);
        }
    }

    /// Hands over what was sent, and this datagram behind it.
    fn send_now<S: DatagramSocket>(
        &mut self,
        sockets: &mut [ReadySocket<S>],
        sent: Sent<'_>,
    ) -> Delivery
        ensures accounted { (before : List Departure) → IsAccounted before self.old → IsAccounted (before ++ came_if result (sent_departure sent.entry)) self.new }
        ensures taken { HaveTaken S.took sockets.old (taken self.old.account.gone.passed) → HaveTaken S.took sockets.new (taken self.new.account.gone.passed) }
    {
        self.hand_over(sockets);
        match hand(sockets, &mut self.kept, &mut self.account, sent) {
            Delivery::Sent => {
                self.account.handed(sent, Delivery::Sent);
                Delivery::Sent
            }
            Delivery::Fault => Delivery::Fault,
        }
    }

    /// Hands what was sent to the system, and then what is kept. A datagram that is lost is reported.
    pub(crate) fn hand_over<S: DatagramSocket>(&mut self, sockets: &mut [ReadySocket<S>])
        ensures accounted { (sent : List Departure) → IsAccounted sent self.old → IsAccounted sent self.new }
        ensures taken { HaveTaken S.took sockets.old (taken self.old.account.gone.passed) → HaveTaken S.took sockets.new (taken self.new.account.gone.passed) }
        ensures empty { waiting_in self.new.outbox ≡ [] }
    {
        if self.has_nothing() {
            return;
        }
        self.receives = 0;
        begin_round(sockets, &mut self.kept, self.moment, &mut self.account);
        let waiting = self.outbox.waiting();
        hand_each(sockets, &mut self.kept, &mut self.account, waiting);
        self.outbox.clear();
        hand_if_kept(sockets, &mut self.kept, &mut self.account);
    }

    /// Hands everything to the system for the last time. What it does not accept is lost, and is reported.
    pub(crate) fn end<S: DatagramSocket>(&mut self, sockets: &mut [ReadySocket<S>])
        ensures accounted { (sent : List Departure) → IsAccounted sent self.old → IsAccounted sent self.new }
        ensures taken { HaveTaken S.took sockets.old (taken self.old.account.gone.passed) → HaveTaken S.took sockets.new (taken self.new.account.gone.passed) }
    {
        self.hand_over(sockets);
        // At the last moment that there is, all of it is kept for too long.
        lose_if_kept(&mut self.kept, u64::MAX, &mut self.account);
    }
}

/// Makes what the front keeps, which is nothing yet. A lane's worker keeps nothing.
fn kept_by(alloc: Global, worker: Worker) -> Option<Kept>
    ensures { kept_of result ≡ [] }
{
    match worker {
        Worker::Front => Some(Kept::new(alloc)),
        Worker::Lane(_) => None,
    }
}

/// Begins a hand-over: what is kept for too long is lost, and each socket may have room again.
fn begin_round<S: DatagramSocket, G: Gate>(
    sockets: &mut [ReadySocket<S>],
    kept: &mut Option<Kept>,
    moment: u64,
    account: &mut Account<'_, G>,
)
    ensures order { GoesOn (given account.old.gone.passed) (kept_of kept.old) [] (given account.new.gone.passed) (kept_of kept.new) }
    ensures taken { HaveTaken S.took sockets.old (taken account.old.gone.passed) → HaveTaken S.took sockets.new (taken account.new.gone.passed) }
    ensures handed { account.new.handed ≡ account.old.handed }
{
    if has_any(kept) {
        lose_if_kept(kept, moment, account);
        try_anew(sockets);
    }
}

fn has_any(kept: &Option<Kept>) -> bool {
    match kept {
        Some(kept) => !kept.is_empty(),
        None => false,
    }
}

/// Loses what is kept for too long at this moment, if anything is kept, and reports it.
fn lose_if_kept<G: Gate>(kept: &mut Option<Kept>, moment: u64, account: &mut Account<'_, G>)
    ensures order { GoesOn (given account.old.gone.passed) (kept_of kept.old) [] (given account.new.gone.passed) (kept_of kept.new) }
    ensures lost { taken account.new.gone.passed ≡ taken account.old.gone.passed }
    ensures handed { account.new.handed ≡ account.old.handed }
{
    if let Some(kept) = kept {
        lose_old(kept, moment, account);
    }
}

/// Hands datagrams to the system, one behind the other. Those that are lost at once are reported.
fn hand_each<S: DatagramSocket, G: Gate>(
    sockets: &mut [ReadySocket<S>],
    kept: &mut Option<Kept>,
    account: &mut Account<'_, G>,
    datagrams: &[Waiting],
)
    ensures order { AreInOrder (taken account.old.handed.passed) (given account.old.gone.passed) (kept_of kept.old) → AreInOrder (taken account.new.handed.passed) (given account.new.gone.passed) (kept_of kept.new) }
    ensures taken { HaveTaken S.took sockets.old (taken account.old.gone.passed) → HaveTaken S.took sockets.new (taken account.new.gone.passed) }
    ensures handed { given account.new.handed.passed ≡ given account.old.handed.passed ++ map departure_of datagrams.now }
{
    for waiting in datagrams {
        let sent = waiting.sent();
        let delivery = hand(sockets, kept, account, sent);
        account.handed(sent, delivery);
    }
}

/// Hands what is kept to the system, if anything is kept.
fn hand_if_kept<S: DatagramSocket, G: Gate>(
    sockets: &mut [ReadySocket<S>],
    kept: &mut Option<Kept>,
    account: &mut Account<'_, G>,
)
    ensures order { GoesOn (given account.old.gone.passed) (kept_of kept.old) [] (given account.new.gone.passed) (kept_of kept.new) }
    ensures taken { HaveTaken S.took sockets.old (taken account.old.gone.passed) → HaveTaken S.took sockets.new (taken account.new.gone.passed) }
    ensures handed { account.new.handed ≡ account.old.handed }
{
    if let Some(kept) = kept {
        hand_kept(sockets, kept, account);
    }
}

/// Loses what is kept for too long at this moment, and reports it.
fn lose_old<G: Gate>(kept: &mut Kept, moment: u64, account: &mut Account<'_, G>)
    ensures order { GoesOn (given account.old.gone.passed) (kept_list kept.old) [] (given account.new.gone.passed) (kept_list kept.new) }
    ensures lost { taken account.new.gone.passed ≡ taken account.old.gone.passed }
    ensures handed { account.new.handed ≡ account.old.handed }
{
    for _ in 0..kept.tries() {
        match kept.lose_old(moment) {
            Some(lost) => account.lost(lost.sent()),
            None => return,
        }
    }
}

/// Hands a datagram to the system. If its client has kept ones, or its socket has no room, it is kept.
fn hand<S: DatagramSocket, G: Gate>(
    sockets: &mut [ReadySocket<S>],
    kept: &mut Option<Kept>,
    account: &mut Account<'_, G>,
    sent: Sent<'_>,
) -> Delivery
    ensures order { GoesOn (given account.old.gone.passed) (kept_of kept.old) (came_if result (sent_departure sent.entry)) (given account.new.gone.passed) (kept_of kept.new) }
    ensures taken { HaveTaken S.took sockets.old (taken account.old.gone.passed) → HaveTaken S.took sockets.new (taken account.new.gone.passed) }
    ensures handed { account.new.handed ≡ account.old.handed }
{
    match kept {
        Some(kept) => hand_or_keep(sockets, kept, account, sent),
        None => hand_now(sockets, account, sent),
    }
}

fn hand_or_keep<S: DatagramSocket, G: Gate>(
    sockets: &mut [ReadySocket<S>],
    kept: &mut Kept,
    account: &mut Account<'_, G>,
    sent: Sent<'_>,
) -> Delivery
    ensures order { GoesOn (given account.old.gone.passed) (kept_list kept.old) (came_if result (sent_departure sent.entry)) (given account.new.gone.passed) (kept_list kept.new) }
    ensures taken { HaveTaken S.took sockets.old (taken account.old.gone.passed) → HaveTaken S.took sockets.new (taken account.new.gone.passed) }
    ensures handed { account.new.handed ≡ account.old.handed }
{
    if kept.has(sent.to.address) {
        return keep(kept, account, sent);
    }
    if is_full(sockets, sent.socket) {
        return keep(kept, account, sent);
    }
    match send_from(sockets, sent) {
        Handed::Accepted => {
            account.went(sent);
            Delivery::Sent
        }
        Handed::Full => keep(kept, account, sent),
        Handed::Refused => Delivery::Fault,
    }
}

/// Hands a datagram to the system. If its socket has no room, it is lost.
fn hand_now<S: DatagramSocket, G: Gate>(
    sockets: &mut [ReadySocket<S>],
    account: &mut Account<'_, G>,
    sent: Sent<'_>,
) -> Delivery
    ensures order { GoesOn (given account.old.gone.passed) [] (came_if result (sent_departure sent.entry)) (given account.new.gone.passed) [] }
    ensures taken { HaveTaken S.took sockets.old (taken account.old.gone.passed) → HaveTaken S.took sockets.new (taken account.new.gone.passed) }
    ensures handed { account.new.handed ≡ account.old.handed }
{
    match send_from(sockets, sent) {
        Handed::Accepted => {
            account.went(sent);
            Delivery::Sent
        }
        Handed::Full | Handed::Refused => Delivery::Fault,
    }
}

/// Keeps a datagram, and reports the one that is lost by that. If memory is refused, that is this one: a fault.
fn keep<G: Gate>(kept: &mut Kept, account: &mut Account<'_, G>, sent: Sent<'_>) -> Delivery
    ensures order { GoesOn (given account.old.gone.passed) (kept_list kept.old) (came_if result (sent_departure sent.entry)) (given account.new.gone.passed) (kept_list kept.new) }
    ensures lost { taken account.new.gone.passed ≡ taken account.old.gone.passed }
    ensures handed { account.new.handed ≡ account.old.handed }
{
    match kept.keep(sent) {
        Ok(None) => Delivery::Sent,
        Ok(Some(lost)) => {
            account.lost(lost.sent());
            Delivery::Sent
        }
        Err(_) => Delivery::Fault,
    }
}

/// Hands what is kept to the system, the clients with the fewest first, until the sockets have no room.
fn hand_kept<S: DatagramSocket, G: Gate>(
    sockets: &mut [ReadySocket<S>],
    kept: &mut Kept,
    account: &mut Account<'_, G>,
)
    ensures order { GoesOn (given account.old.gone.passed) (kept_list kept.old) [] (given account.new.gone.passed) (kept_list kept.new) }
    ensures taken { HaveTaken S.took sockets.old (taken account.old.gone.passed) → HaveTaken S.took sockets.new (taken account.new.gone.passed) }
    ensures handed { account.new.handed ≡ account.old.handed }
{
    for _ in 0..kept.tries() {
        let Some(place) = kept.next(sockets) else {
            return;
        };
        try_first(sockets, kept, place, account);
    }
}

/// Hands the oldest datagram of a queue to the system.
fn try_first<S: DatagramSocket, G: Gate>(
    sockets: &mut [ReadySocket<S>],
    kept: &mut Kept,
    place: usize,
    account: &mut Account<'_, G>,
)
    ensures order { GoesOn (given account.old.gone.passed) (kept_list kept.old) [] (given account.new.gone.passed) (kept_list kept.new) }
    ensures taken { HaveTaken S.took sockets.old (taken account.old.gone.passed) → HaveTaken S.took sockets.new (taken account.new.gone.passed) }
    ensures handed { account.new.handed ≡ account.old.handed }
{
    let Some(first) = kept.first(place) else {
        return;
    };
    match send_from(sockets, first) {
        Handed::Accepted => {
            if let Some(gone) = kept.take(place) {
                account.went(gone.sent());
            }
        }
        Handed::Full => {}
        Handed::Refused => {
            if let Some(lost) = kept.take(place) {
                account.lost(lost.sent());
            }
        }
    }
}
