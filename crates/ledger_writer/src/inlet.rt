//! What the front hands each response to, what became of it, and at the end each request that is left.

ghost use Rattle.std.specs.Prelude.{◌≡◌, ◌⊎◌, ◌∷◌, ◌++◌, [], ℕ, Some, MatchBool, vec_len};
ghost use Rattle.rad_desk.specs.HandOver.{handed_at};
ghost use Rattle.rad_desk.specs.Leaving.{as_left};
ghost use Rattle.ledger_writer.specs.Buffer.{Gives, GivesNothing, PutsEntry};
ghost use Rattle.ledger_writer.specs.Parcels.{IsCounted, IsParcelOfLeft};

use crate::accounting::AccountedGiver;
use crate::parcel::{CountKey, NoteKind, Parcel, ParcelHead};
use crate::record_counts::RecordCounts;
use crate::shares::{ClientShares, NOTHING, Taking};
use ledger_lines::CountKind;
use ledger_state::LedgerState;
use rad_auth::Mark;
use rad_desk::{AcceptedRecord, Earlier, Ledger, LeftRecord, Wire};
use rad_lane::{Counts, Outgoing};
use rad_metrics::time_since_1970;
use std::sync::{Arc, Wait, WaitMethods};
use std::thread;
use std::time::{Clock, Duration, Instant};

/// How many milliseconds pass between two looks whether there is room.
const LOOK: u64 = 1;

/// How many counts that are due a call tells.
const DUE: usize = 16;

/// How often at most that many responses that were lost are counted at the end of a lane.
const MOST_LOST: usize = 256;

/// What the front puts into the buffer. An entry that finds no room there, or is beyond the share of its client, is dropped
/// and counted. A request that is left waits for room, as long as there is time.
#[derive(Drop)]
pub struct LedgerInlet<'a, R> {
    pub(crate) clock: &'a R,
    /// How long requests that are left may wait for room, from the first one on.
    pub(crate) longest: Duration,
    /// The last time that was read, in milliseconds since 1970.
    pub(crate) time: u64,
    /// The end of the buffer, with all that was handed over and told as left so far, also what was dropped.
    pub(crate) accounted: AccountedGiver,
    /// What the entries of each client took of the buffer so far, in the order of the configuration.
    pub(crate) puts: Vec<Taking>,
    pub(crate) counts: RecordCounts,
    pub(crate) shares: Arc<ClientShares>,
    pub(crate) state: Arc<LedgerState>,
}

impl<R: Clock> LedgerInlet<'_, R> {
    /// Returns the time, in milliseconds since 1970. It is the last one if the clock can't be read.
    fn read_time(&mut self) -> u64
        ensures time { self.new.time ≡ result }
        ensures same { self.new.accounted ≡ self.old.accounted }
    {
        self.time = time_since_1970(self.clock).unwrap_or(self.time);
        self.time
    }
}

impl<R: Clock + Wait> Ledger for LedgerInlet<'_, R> {
    ghost kept = { λ inlet. Some inlet.accounted.handed };

    ghost left = { λ inlet. Some inlet.accounted.left };

    fn begin(&mut self) {
        self.state.begin();
    }

    fn accept(&mut self, accepted: &AcceptedRecord) {
        if let Some(first) = accepted.first {
            self.read_time();
            self.resume(accepted.lane, accepted.number, first);
        }
    }

    fn keep<W: Wire>(&mut self, outgoing: &Outgoing, wire: &W) {
        let Mark { lane, number } = outgoing.reply.mark();
        let response = outgoing.reply.response();
        self.state.hand_over(lane, outgoing.serial);
        self.state.send_response(lane, number, response);
        let row = self.shares.row(outgoing.client);
        let is_put = self.put(outgoing, wire, row);
        self.counts.set_gap(lane, !is_put);
        if is_put {
            self.state.count_put(self.time);
        } else {
            self.state.count_dropped(row);
        }
    }

    fn send_again(&mut self, lane: u16, number: u64, response: &[u8]) {
        self.state.send_response(lane, number, response);
        self.read_time();
        self.count(NoteKind::Count(CountKind::Again), lane, number);
        self.tell_due(self.time);
    }

    fn send_earlier(&mut self, lane: u16, answer: Earlier) {
        self.read_time();
        self.count(NoteKind::AgainEarlier(answer), lane, 0);
        self.tell_due(self.time);
    }

    fn leave(&mut self, told: &LeftRecord<'_>) {
        let since = self.state.count_left(self.clock, told.lane);
        let parcel = Parcel::of_left(self.read_time(), told);
        self.give_waiting(told, &parcel, since);
    }

    fn end_lane(&mut self, lane: u16, counts: &Counts) {
        self.read_time();
        self.tell_all(lane);
        self.state.end_lane(lane, counts.accepted);
    }
}

impl<R: Clock> LedgerInlet<'_, R> {
    /// Counts one more of a record.
    fn count(&mut self, kind: NoteKind, lane: u16, number: u64)
        ensures handed { self.new.accounted.handed ≡ self.old.accounted.handed }
        ensures left { self.new.accounted.left ≡ self.old.accounted.left }
    {
        let key = CountKey { lane, number, kind };
        if self.counts.add(key) {
            return;
        }
        if self.counts.is_full() {
            self.tell_oldest();
        }
        self.counts.remember(self.time, key, 1);
    }

    /// Tells that a lane accepted under this number what an earlier run left. If there is no room for that, it is dropped.
    fn resume(&mut self, lane: u16, number: u64, first: Earlier)
        ensures handed { self.new.accounted.handed ≡ self.old.accounted.handed }
        ensures left { self.new.accounted.left ≡ self.old.accounted.left }
    {
        let kind = NoteKind::Resumed(first);
        let key = CountKey { lane, number, kind };
        if !self.accounted.give_note(self.time, key) {
            self.state.count_dropped(None);
        }
    }

    /// Tells the count that waits longest.
    fn tell_oldest(&mut self)
        ensures handed { self.new.accounted.handed ≡ self.old.accounted.handed }
        ensures left { self.new.accounted.left ≡ self.old.accounted.left }
    {
        if let Some((key, count)) = self.counts.take() {
            self.tell(self.time, key, count);
        }
    }

    /// Counts some of the responses that were lost, and returns whether these were all.
    fn count_lost(&mut self) -> bool
        ensures handed { self.new.accounted.handed ≡ self.old.accounted.handed }
        ensures left { self.new.accounted.left ≡ self.old.accounted.left }
    {
        for _ in 0..DUE {
            let Some((lane, number)) = self.state.take_lost() else {
                return true;
            };
            self.count(NoteKind::Count(CountKind::Unsent), lane, number);
        }
        false
    }

    /// Counts all responses that were lost.
    fn count_all_lost(&mut self)
        ensures handed { self.new.accounted.handed ≡ self.old.accounted.handed }
        ensures left { self.new.accounted.left ≡ self.old.accounted.left }
    {
        for _ in 0..MOST_LOST {
            if self.count_lost() {
                return;
            }
        }
    }

    /// Tells so many of a record, unless the buffer has no room for that or the lane's last entry was dropped. Then they
    /// are told later.
    fn tell(&mut self, time: u64, key: CountKey, count: u64)
        ensures handed { self.new.accounted.handed ≡ self.old.accounted.handed }
        ensures left { self.new.accounted.left ≡ self.old.accounted.left }
    {
        if self.counts.is_gap(key.lane) || !self.accounted.give_count(time, key, count) {
            self.counts.remember(time, key, count);
        }
    }

    /// Counts what was lost, and tells some of what was counted long enough.
    fn tell_due(&mut self, time: u64)
        ensures handed { self.new.accounted.handed ≡ self.old.accounted.handed }
        ensures left { self.new.accounted.left ≡ self.old.accounted.left }
    {
        self.count_lost();
        for _ in 0..DUE {
            let Some((key, count)) = self.counts.take_due(time) else {
                return;
            };
            self.tell(time, key, count);
        }
    }

    /// Tells all that was counted of the records of a lane, which ends.
    fn tell_all(&mut self, lane: u16)
        ensures handed { self.new.accounted.handed ≡ self.old.accounted.handed }
        ensures left { self.new.accounted.left ≡ self.old.accounted.left }
    {
        let time = self.time;
        self.count_all_lost();
        for _ in 0..self.counts.len() {
            let Some((key, count)) = self.counts.take() else {
                return;
            };
            if key.lane == lane {
                self.tell(time, key, count);
            } else {
                self.counts.remember(time, key, count);
            }
        }
    }
}

impl<R: Clock> LedgerInlet<'_, R> {
    /// Puts the entry of a response to the client in a row into the buffer, whole, and returns whether there was room for it
    /// within the client's share.
    fn put<W: Wire>(&mut self, outgoing: &Outgoing, wire: &W, row: Option<usize>) -> bool
        ensures put { MatchBool result (PutsEntry self.old outgoing.now self.new) (GivesNothing self.old.accounted.giver self.new.accounted.giver) }
        ensures handed { self.new.accounted.handed ≡ self.old.accounted.handed ++ handed_at (W.log wire.now) outgoing.now ∷ [] }
    {
        let time = self.read_time();
        let Mark { lane, number } = outgoing.reply.mark();
        let parcel = Parcel::of(time, outgoing, self.state.handling(lane, number));
        let held = self.held(&parcel.head, row);
        let clients = self.puts.len();
        let is_put = self
            .accounted
            .hand_over(outgoing, wire, &parcel, clients, held);
        if is_put {
            add_put(&mut self.puts, row, &parcel);
        }
        is_put
    }

    /// Returns how much of the buffer the entries of the client in a row take, if this one would leave less than half of it
    /// free. Before that a client has no share.
    fn held(&mut self, head: &ParcelHead, row: Option<usize>) -> Taking
        ensures giver { GivesNothing self.old.accounted.giver self.new.accounted.giver }
        ensures handed { self.new.accounted.handed ≡ self.old.accounted.handed }
        ensures time { self.new.time ≡ self.old.time }
    {
        let Some(row) = row else {
            return NOTHING;
        };
        if !head.fits() || !self.accounted.is_past_half(head) {
            return NOTHING;
        }
        match self.puts.get(row) {
            Some(put) => self.shares.held(row, *put),
            None => NOTHING,
        }
    }
}

fn add_put(puts: &mut Vec<Taking>, row: Option<usize>, parcel: &Parcel<'_>)
    ensures { vec_len puts.new ≡ vec_len puts.old }
{
    let Some(row) = row else {
        return;
    };
    let octets = parcel.sent.len() as u64;
    let octets = octets.saturating_add(parcel.reply.len() as u64);
    let octets = octets.saturating_add(parcel.response.len() as u64);
    if let Some(put) = puts.get_mut(row) {
        *put = Taking {
            octets: put.octets.saturating_add(octets),
            places: put.places.saturating_add(1),
        };
    }
}

impl<R: Clock + Wait> LedgerInlet<'_, R> {
    /// Puts the parcel of a request that is told as left into the buffer once it has room for it, unless the time for that
    /// is over: then the request is dropped. The time counts from this moment; if that is not known, nothing waits.
    fn give_waiting(&mut self, told: &LeftRecord<'_>, parcel: &Parcel<'_>, since: Option<Instant>)
        requires counted { IsCounted parcel.now }
        requires its { (time : ℕ) × IsParcelOfLeft time told.now parcel.now }
        ensures put { Gives self.old.accounted.giver parcel.now self.new.accounted.giver ⊎ GivesNothing self.old.accounted.giver self.new.accounted.giver }
        ensures left { self.new.accounted.left ≡ self.old.accounted.left ++ as_left told.now ∷ [] }
    {
        for _ in self.clock.forever() {
            if self.accounted.give_left(told, parcel) {
                return;
            }
            if self.is_over(since) {
                break;
            }
            thread::sleep(self.clock, Duration::from_millis(LOOK));
        }
        self.accounted.drop_left(told);
    }

    /// Returns whether the time for which requests that are left may wait is over, counted from this moment.
    fn is_over(&self, since: Option<Instant>) -> bool {
        match since {
            Some(since) => match since.elapsed(self.clock) {
                Ok(passed) => passed >= self.longest,
                Err(_) => true,
            },
            None => true,
        }
    }
}
