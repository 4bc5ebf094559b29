//! What the front tells a spool: the requests that lanes took as new, and the responses.

ghost use Rattle.std.specs.Prelude.{◌≡◌, ◌∷◌, ◌++◌, [], ⊤, MatchOption};
ghost use Rattle.rad_desk.specs.Handling.{outcome_of};
ghost use Rattle.rad_desk.specs.HandOver.{handed_at};
ghost use Rattle.spool_writer.specs.Parcels.{IsAnsweredOf, IsCameOf, news_of};

use crate::giving::{RequestGiver, ResponseGiver};
use crate::offer_notes::OfferNotes;
use crate::parcel::{NewRecord, Parcel, Putting};
use crate::state::SpoolState;
use crate::wall_clock::time_since_1970;
use rad_desk::{AcceptedRecord, Earlier, Entrance, Handled, Handling, Ledger, LeftRecord, Wire};
use rad_lane::{Counts, Outgoing, Taken};
use rad_realms::{Checked, Incoming};
use spool_files::LocalAddress;
use std::alloc::Global;
use std::sync::Arc;
use std::thread;
use std::time::{Clock, Duration, Instant};

/// How many milliseconds the requests that are left wait for the disk, all together.
const LONGEST: u64 = 10_000;

/// How many milliseconds pass between two looks.
const LOOK: u64 = 1;

/// What the front puts requests in: each that a lane takes as new. One that finds no room is counted, and is not kept.
#[derive(Drop)]
pub struct SpoolInlet<'a, R> {
    pub(crate) clock: &'a R,
    pub(crate) alloc: Global,
    pub(crate) giver: RequestGiver,
    /// The run.
    pub(crate) run: u64,
    /// Where requests come in, by the number of the socket.
    pub(crate) ours: Vec<LocalAddress>,
    /// The place of the next request among those of all runs.
    pub(crate) arrival: u64,
    /// The last time that was read, in milliseconds since 1970.
    pub(crate) time: u64,
    pub(crate) state: Arc<SpoolState>,
    pub(crate) notes: Arc<OfferNotes>,
}

/// Returns the request that a lane took as new, if it is one.
fn new_request<'a, 'b>(
    asked: &'b Incoming<'a>,
    handling: &Handling,
) -> Option<(&'b Checked<'a>, NewRecord)>
    ensures { MatchOption result (news_of (outcome_of asked.now handling.now) ≡ []) (λ it. news_of (outcome_of asked.now handling.now) ≡ record { request = it.0.now; lane = it.1.lane; number = it.1.number } ∷ []) }
{
    match (asked, handling.result) {
        (Incoming::Request(request), Ok(Handled::Taken(lane, Taken::New(number)))) => Some((
            request,
            NewRecord { lane, number },
        )),
        _ => None,
    }
}

impl<R: Clock> SpoolInlet<'_, R> {
    /// Returns the address that this socket has.
    fn address(&self, socket: u16) -> LocalAddress {
        match self.ours.get(usize::from(socket)) {
            Some(ours) => *ours,
            None => LocalAddress {
                address: [0; 4],
                port: 0,
            },
        }
    }

    /// Makes the parcel of a request that a lane took as new, unless memory is refused.
    fn parcel(&mut self, request: &Checked<'_>, taken: NewRecord, socket: u16) -> Option<Parcel>
        ensures parcel { MatchOption result ⊤ (IsCameOf (record { request = request.now; lane = taken.lane; number = taken.number })) }
        ensures same { self.new.giver ≡ self.old.giver }
    {
        self.time = time_since_1970(self.clock).unwrap_or(self.time);
        let putting = Putting {
            run: self.run,
            time: self.time,
            before: self.state.put(),
        };
        let ours = self.address(socket);
        Parcel::of_request(self.alloc, request, taken, ours, self.arrival, putting).ok()
    }

    /// Puts a request that a lane took as new into the ring, or counts it.
    fn put(
        &mut self,
        socket: u16,
        asked: &Incoming<'_>,
        handling: &Handling,
        request: &Checked<'_>,
        taken: NewRecord,
    )
        requires { news_of (outcome_of asked.now handling.now) ≡ record { request = request.now; lane = taken.lane; number = taken.number } ∷ [] }
        ensures { self.new.giver.outcomes ≡ self.old.giver.outcomes ++ outcome_of asked.now handling.now ∷ [] }
    {
        self.giver.wait(self.clock, &self.state);
        let parcel = self.parcel(request, taken, socket);
        if self.giver.give(asked, handling, parcel) {
            self.arrival = self.arrival.saturating_add(1);
            self.state.count_put();
        } else {
            self.state.count_lost_request();
        }
    }
}

impl<R: Clock> Entrance for SpoolInlet<'_, R> {
    ghost outcomes = { λ inlet. inlet.giver.outcomes };

    fn tell(&mut self, socket: u16, asked: &Incoming<'_>, handling: &Handling) {
        match new_request(asked, handling) {
            Some((request, taken)) => self.put(socket, asked, handling, request, taken),
            None => self.giver.note(asked, handling),
        }
        self.notes.handled(handling.result);
    }
}

/// A ledger, and what the front puts responses in on their way to it. One that finds no room is counted, and is not kept.
#[derive(Drop)]
pub struct SpoolLedger<'a, R, L: Drop> {
    pub(crate) ledger: L,
    pub(crate) outlet: ResponseInlet<'a, R>,
    pub(crate) left: LeftWait,
}

/// What is known of the requests that are left.
#[derive(Clone, Copy)]
pub(crate) enum LeftWait {
    /// None is told yet.
    Untold,
    /// The first was told at this moment, once the thread had ended so many rounds.
    Since(Option<Instant>, u64),
    /// All are on disk.
    Kept,
}

/// What the front puts responses in.
#[derive(Drop)]
pub struct ResponseInlet<'a, R> {
    pub(crate) clock: &'a R,
    pub(crate) alloc: Global,
    pub(crate) giver: ResponseGiver,
    /// The run.
    pub(crate) run: u64,
    /// The last time that was read, in milliseconds since 1970.
    pub(crate) time: u64,
    pub(crate) state: Arc<SpoolState>,
}

impl<R: Clock> ResponseInlet<'_, R> {
    /// Makes the parcel of a response, unless memory is refused.
    fn parcel(&mut self, outgoing: &Outgoing) -> Option<Parcel>
        ensures parcel { MatchOption result ⊤ (IsAnsweredOf outgoing.now) }
        ensures same { self.new.giver ≡ self.old.giver }
    {
        self.time = time_since_1970(self.clock).unwrap_or(self.time);
        let putting = Putting {
            run: self.run,
            time: self.time,
            before: self.state.put(),
        };
        Parcel::of_response(self.alloc, outgoing, putting).ok()
    }

    /// Puts a response into the ring, or counts it.
    fn put<W: Wire>(&mut self, outgoing: &Outgoing, wire: &W)
        ensures { self.new.giver.handed ≡ self.old.giver.handed ++ handed_at (W.log wire.now) outgoing.now ∷ [] }
    {
        self.giver.wait(self.clock, &self.state);
        let parcel = self.parcel(outgoing);
        if !self.giver.give(outgoing, wire, parcel) {
            self.state.count_lost_response();
        }
    }
}

impl<'a, R, L: Drop> SpoolLedger<'a, R, L> {
    /// Makes a ledger that puts each response into the ring before it passes it on.
    pub fn new(outlet: ResponseInlet<'a, R>, ledger: L) -> SpoolLedger<'a, R, L> {
        SpoolLedger {
            ledger,
            outlet,
            left: LeftWait::Untold,
        }
    }
}

impl<R: Clock> ResponseInlet<'_, R> {
    /// Returns what is known of the requests that are left once one more is told. It waits until all are on disk, ten seconds at most
    /// from the first one on, unless one found no room or the disk fails: then that can't be said.
    fn wait_for_left(&self, left: LeftWait) -> LeftWait {
        let (since, rounds) = match left {
            LeftWait::Kept => return LeftWait::Kept,
            LeftWait::Since(since, rounds) => (since, rounds),
            LeftWait::Untold => (Instant::now(self.clock).ok(), self.state.rounds()),
        };
        if wait_for_all(self.clock, &self.state, since, rounds) {
            LeftWait::Kept
        } else {
            LeftWait::Since(since, rounds)
        }
    }
}

impl LeftWait {
    /// Returns whether all are on disk.
    fn is_kept(self) -> bool {
        match self {
            LeftWait::Kept => true,
            LeftWait::Untold | LeftWait::Since(..) => false,
        }
    }
}

/// Waits until all requests are on disk that were put before the thread had ended so many rounds, and returns whether they are.
/// The time counts from this moment; if that is not known, nothing waits.
fn wait_for_all<R: Clock>(
    clock: &R,
    state: &SpoolState,
    since: Option<Instant>,
    rounds: u64,
) -> bool {
    for _ in 0..LONGEST {
        if state.has_all(rounds) {
            return true;
        }
        if !state.can_have_all() || is_over(clock, since) {
            return false;
        }
        thread::sleep(clock, Duration::from_millis(LOOK));
    }
    false
}

/// Returns whether the longest wait from this moment on is over.
fn is_over<R: Clock>(clock: &R, since: Option<Instant>) -> bool {
    match since {
        Some(since) => match since.elapsed(clock) {
            Ok(passed) => passed >= Duration::from_millis(LONGEST),
            Err(_) => true,
        },
        None => true,
    }
}

impl<R: Clock, L: Ledger + Drop> Ledger for SpoolLedger<'_, R, L> {
    ghost kept = { λ spool. L.kept spool.ledger };

    ghost left = { λ spool. L.left spool.ledger };

    fn begin(&mut self) {
        self.ledger.begin();
    }

    fn accept(&mut self, accepted: &AcceptedRecord) {
        let first = self.outlet.state.notes().take_first();
        self.ledger.accept(&AcceptedRecord { first, ..*accepted });
    }

    fn keep<W: Wire>(&mut self, outgoing: &Outgoing, wire: &W) {
        self.outlet.put(outgoing, wire);
        self.ledger.keep(outgoing, wire);
    }

    fn send_again(&mut self, lane: u16, number: u64, response: &[u8]) {
        self.ledger.send_again(lane, number, response);
    }

    fn send_earlier(&mut self, lane: u16, answer: Earlier) {
        self.ledger.send_earlier(lane, answer);
    }

    fn leave(&mut self, told: &LeftRecord<'_>) {
        self.left = self.outlet.wait_for_left(self.left);
        let kept = self.left.is_kept();
        self.ledger.leave(&LeftRecord { kept, ..*told });
    }

    fn end_lane(&mut self, lane: u16, counts: &Counts) {
        self.ledger.end_lane(lane, counts);
    }

    fn leave_untold(&mut self) {
        self.ledger.leave_untold();
    }
}
