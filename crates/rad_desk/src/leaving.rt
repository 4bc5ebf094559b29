//! What is left at the end, told to a ledger one by one.

ghost use Rattle.std.specs.Prelude.{◌≡◌, false, ◌+◌, ◌-◌, ◌≤◌, ◌++◌, Some, None, MatchOption, option_copied, length, take, drop, map as each};
ghost use Rattle.std.specs.List.{Contains};
ghost use Rattle.rad_lane.specs.declared.stamp.Stamp.{Stamp as TheStamp};
ghost use Rattle.locked_lanes.specs.Fates.{marked_number};
ghost use Rattle.rad_desk.specs.Leaving.{age_at, as_left, left_with, outstanding_left, queued_left, recorded_left, restored, untaken_left, left_in, left_under, left_of_pairs, left_of_queue, left_of_rest, left_of_lane, left_of_all};

use crate::ledger::Ledger;
use block_queue::Fifo;
use locked_lanes::{LaneEnd, RecordQueue, Report, Rest};
use rad_auth::{ACCOUNTING_REQUEST, MARK_LENGTH, Reply};
use rad_lane::{Entry, LeftState, Outgoing, Record, Sending};
use rad_packet::{GREATEST_LENGTH, HEADER_LENGTH};
use rad_tables::{Moment, Slot, Slots};

/// How many source ports a lane may have.
const PORTS: u16 = 4;

/// A request of a lane that is left.
#[derive(Clone, Copy)]
pub struct LeftRecord<'a> {
    /// The lane's number.
    pub lane: u16,
    /// The request's number in its lane.
    pub number: u64,
    /// The client's IPv4 address.
    pub client: [u8; 4],
    /// The UDP port that the request came from.
    pub port: u16,
    /// The request's Identifier.
    pub identifier: u8,
    /// The request's Authenticator.
    pub authenticator: [u8; 16],
    pub state: LeftState,
    /// How often it was sent in its last round, if that is known.
    pub sendings: Option<u32>,
    /// How many milliseconds ago it was accepted, if that is known.
    pub age: Option<u64>,
    /// Whether it is open on disk, so that a later run offers it to its lane.
    pub kept: bool,
    /// The request as it came, without padding.
    pub request: &'a [u8],
}

/// Tells a ledger each request that is left of the lanes, in the order of the lanes, and after those of a lane its
/// counts. Those of a lane are the answered ones whose responses nobody took, in order of answering; the outstanding
/// ones, in the order of their pairs; and the queued ones in order. Ages are those at this moment. None is told as kept.
pub fn tell_left<L: Ledger>(report: Report, now: Moment, ledger: &mut L)
    ensures { L.left ledger.new ≡ left_with (L.left ledger.old) (left_of_all report.ends report.queued.items) }
{
    let Report { ends, mut queued } = report;
    let mut room = [0; GREATEST_LENGTH];
    for end in ends.as_slice() {
        tell_lane(end, &mut queued, now, &mut room, ledger);
    }
}

fn tell_lane<L: Ledger>(
    end: &LaneEnd,
    queued: &mut RecordQueue,
    now: Moment,
    room: &mut [u8; GREATEST_LENGTH],
    ledger: &mut L,
)
    ensures told { L.left ledger.new ≡ left_with (L.left ledger.old) (left_of_lane end.now (take end.now.counts.queued queued.old.items)) }
    ensures queued { queued.new.items ≡ drop end.now.counts.queued queued.old.items }
{
    tell_rest(end, now, room, ledger);
    tell_outstanding(end.lane, &end.outstanding, now, ledger);
    tell_queued(end.lane, end.counts.queued, queued, now, ledger);
    ledger.end_lane(end.lane, &end.counts);
}

fn tell_rest<L: Ledger>(
    end: &LaneEnd,
    now: Moment,
    room: &mut [u8; GREATEST_LENGTH],
    ledger: &mut L,
)
    ensures { L.left ledger.new ≡ left_with (L.left ledger.old) (left_of_rest end.now.lane end.now.rest) }
{
    if let Rest::Known(rest) = &end.rest {
        tell_responses(end, rest.as_slice(), now, room, ledger);
    }
}

fn tell_responses<L: Ledger>(
    end: &LaneEnd,
    responses: &[Outgoing],
    now: Moment,
    room: &mut [u8; GREATEST_LENGTH],
    ledger: &mut L,
)
    ensures { L.left ledger.new ≡ left_with (L.left ledger.old) (each (untaken_left end.now.lane) responses.now) }
{
    for outgoing in responses {
        let number = outgoing.reply.mark().number;
        let age = age_of_number(end, number, now);
        let request = restore(&outgoing.reply, room);
        ledger.leave(&of_outgoing(end.lane, outgoing, number, age, request));
    }
}

fn tell_outstanding<L: Ledger>(lane: u16, outstanding: &Slots<Entry>, now: Moment, ledger: &mut L)
    ensures { L.left ledger.new ≡ left_with (L.left ledger.old) (left_of_pairs lane outstanding.now) }
{
    for port in 0..PORTS {
        tell_port(lane, port, outstanding, now, ledger);
    }
}

fn tell_port<L: Ledger>(
    lane: u16,
    port: u16,
    outstanding: &Slots<Entry>,
    now: Moment,
    ledger: &mut L,
)
    ensures { L.left ledger.new ≡ left_with (L.left ledger.old) (left_under lane outstanding.now port) }
{
    for identifier in 0..256_u16 {
        let slot = Slot {
            port,
            identifier: identifier as u8,
        };
        tell_found(lane, outstanding.get(slot), now, ledger);
    }
}

#[tactic(auto, using(crate::proofs::LeftTold::left_none))]
fn tell_found<L: Ledger>(lane: u16, found: Option<&Entry>, now: Moment, ledger: &mut L)
    ensures { L.left ledger.new ≡ left_with (L.left ledger.old) (left_in lane (option_copied found.entry)) }
{
    let Some(entry) = found else {
        return;
    };
    tell_entry(lane, entry, now, ledger);
}

#[tactic(auto, using(crate::proofs::LeftTold::left_none))]
fn tell_entry<L: Ledger>(lane: u16, entry: &Entry, now: Moment, ledger: &mut L)
    ensures { L.left ledger.new ≡ left_with (L.left ledger.old) (left_in lane (Some entry.now)) }
{
    let Entry::Sending(sending) = entry else {
        return;
    };
    ledger.leave(&of_sending(lane, sending, now));
}

fn tell_queued<L: Ledger>(
    lane: u16,
    count: usize,
    queued: &mut RecordQueue,
    now: Moment,
    ledger: &mut L,
)
    ensures told { L.left ledger.new ≡ left_with (L.left ledger.old) (left_of_queue lane (take count queued.old.items)) }
    ensures queued { queued.new.items ≡ drop count queued.old.items }
{
    for _ in 0..count {
        let Some(kept) = queued.pop_front() else {
            return;
        };
        ledger.leave(&of_record(lane, &kept, now));
    }
}

fn of_record(lane: u16, kept: &Record, now: Moment) -> LeftRecord<'_>
    ensures told { as_left result ≡ queued_left lane kept.now.recorded }
    ensures kept { result.kept ≡ false }
    ensures sendings { result.sendings ≡ Some 0 }
    ensures age { result.age ≡ Some (age_at now kept.now.recorded.stamp) }
{
    of_kept(lane, kept, LeftState::Queued, 0, now)
}

fn of_sending(lane: u16, sending: &Sending, now: Moment) -> LeftRecord<'_>
    ensures told { as_left result ≡ outstanding_left lane sending.now }
    ensures kept { result.kept ≡ false }
    ensures sendings { result.sendings ≡ Some sending.now.sendings }
    ensures age { result.age ≡ Some (age_at now sending.now.request.stamp) }
{
    let state = LeftState::Outstanding;
    of_kept(lane, sending.request(), state, sending.sendings(), now)
}

fn of_kept(lane: u16, kept: &Record, state: LeftState, sendings: u32, now: Moment) -> LeftRecord<'_>
    ensures told { as_left result ≡ recorded_left lane state kept.now.recorded }
    ensures kept { result.kept ≡ false }
    ensures sendings { result.sendings ≡ Some sendings }
    ensures age { result.age ≡ Some (age_at now kept.now.recorded.stamp) }
{
    let stamp = kept.stamp();
    let client = stamp.client;
    let authenticator = stamp.authenticator;
    LeftRecord {
        lane,
        number: stamp.number,
        client,
        port: stamp.port,
        identifier: stamp.identifier,
        authenticator,
        state,
        sendings: Some(sendings),
        age: Some(age_of(now, stamp.moment)),
        kept: false,
        request: kept.text(),
    }
}

fn of_outgoing<'a>(
    lane: u16,
    outgoing: &Outgoing,
    number: u64,
    age: Option<u64>,
    request: &'a [u8],
) -> LeftRecord<'a>
    ensures told { number ≡ marked_number outgoing.now.reply.sending → request.now ≡ restored outgoing.now.reply.head outgoing.now.reply.sending → as_left result ≡ untaken_left lane outgoing.now }
    ensures kept { result.kept ≡ false }
    ensures sendings { result.sendings ≡ None }
    ensures age { result.age ≡ age }
{
    let head = outgoing.reply.head();
    let client = outgoing.client;
    let authenticator = head.authenticator;
    LeftRecord {
        lane,
        number,
        client,
        port: outgoing.port,
        identifier: head.identifier,
        authenticator,
        state: LeftState::Untaken,
        sendings: None,
        age,
        kept: false,
        request,
    }
}

/// Returns how many milliseconds before this moment another one was.
fn age_of(now: Moment, moment: Moment) -> u64
    ensures { result ≡ now - moment }
{
    now.get().saturating_sub(moment.get())
}

/// Returns the age at this moment of a lane's request of this number, if the book still held its stamp.
fn age_of_number(end: &LaneEnd, number: u64, now: Moment) -> Option<u64>
    ensures { MatchOption result (Unit {0}) (λ age. (stamp : TheStamp) × Contains end.now.accepted stamp × (stamp.number ≡ number) × (age ≡ age_at now stamp)) }
{
    let place = number.checked_sub(end.counts.opening)?;
    let stamp = end.accepted.as_slice().get(place as usize)?;
    if stamp.number == number {
        Some(age_of(now, stamp.moment))
    } else {
        None
    }
}

fn restore<'a>(reply: &Reply, room: &'a mut [u8; GREATEST_LENGTH]) -> &'a [u8]
    ensures { result.now ≡ restored reply.now.head reply.now.sending }
{
    let sending = reply.sending();
    if sending.len() < HEADER_LENGTH + MARK_LENGTH || sending.len() > GREATEST_LENGTH {
        return &[];
    }
    let head = reply.head();
    let end = sending.len() - MARK_LENGTH;
    let (high, low) = ((end / 256) as u8, (end % 256) as u8);
    put(room, 0, &[ACCOUNTING_REQUEST, head.identifier, high, low]);
    let authenticator = head.authenticator;
    put_authenticator(room, authenticator);
    put(room, HEADER_LENGTH, &sending[HEADER_LENGTH..end]);
    &room[..end]
}

fn put_authenticator(packet: &mut [u8], authenticator: [u8; 16])
    requires { 20 ≤ length packet.old }
    ensures written { packet.new ≡ take 4 packet.old ++ authenticator ++ drop (4 + length authenticator) packet.old }
    ensures counted { length authenticator ≡ 16 }
{
    put(packet, 4, &authenticator);
}

fn put(buffer: &mut [u8], place: usize, octets: &[u8])
    requires { place + length octets.now ≤ length buffer.old }
    ensures { buffer.new ≡ take place buffer.old ++ octets.now ++ drop (place + length octets.now) buffer.old }
{
    let end = place + octets.len();
    buffer[place..end].copy_from_slice(octets);
}
