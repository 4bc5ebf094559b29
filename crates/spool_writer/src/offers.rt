//! The requests that earlier runs left, as they come in again.

ghost use Rattle.std.specs.Prelude.{◌≡◌, ◌↔◌, ◌<◌, ◌∷◌, ◌++◌, ℕ, length, true, false, IsTrue, [], Some, IfSome, OnErr, OnOk, drop, is_some, option_map};
ghost use Rattle.rad_desk.specs.Resuming.{is_held};
ghost use Rattle.rad_lane.specs.Accepts.{request_key};
ghost use Rattle.rad_desk.specs.Traffic.{FitsRoom};
ghost use Rattle.spool_writer.specs.Offers.{Waits, RequestWaits, HasWaiting, BecomesFor, IsFirstOf, IsGivenAs, Settles, first_in, is_taken, number_at, waiting_at, waiting_for};

use crate::offer_notes::{Fate, Freed, OfferNotes};
use crate::parcel::Parcel;
use crate::waiting_keys::{WAITS, WaitingKeys, WaitingRequest};
use rad_desk::{Hold, Received, Traffic, WaitingRequests};
use rad_lane::Refusal;
use rad_realms::{Checked, Config, Dropped, Endpoint, Incoming, check_in};
use rad_tables::Key;
use spool_files::{Came, OpenRequest};
use std::alloc::{AllocError, Global};
use std::collections::VecDeque;
use std::sync::Arc;
use std::time::{Clock, Duration, Instant};

/// How many milliseconds a lane is left alone for which memory was refused.
const PAUSE: u64 = 1000;

/// The requests that earlier runs left, for each lane in the order in which they came. Each comes in again until its lane
/// takes it, or refuses it for another reason than want of room.
///
/// A lane that has no room gets no more of them than places become free, and none for a second if memory was refused.
/// Meanwhile a datagram that came has to wait if it is a request of a lane of which requests wait, and no repeat of one that was
/// taken: it comes in behind these. As many such ones wait as the lane's queue has places.
#[derive(Drop)]
pub struct Offers<'a, R> {
    clock: &'a R,
    alloc: Global,
    config: &'a Config,
    /// Those of each lane, while a request waits.
    lanes: Option<Vec<LaneOffers>>,
    /// The keys of all that wait.
    keys: WaitingKeys,
    /// The lane that is looked at next.
    turn: usize,
    /// The request that was given last, until it is known what became of it.
    given: Option<Given>,
    notes: Arc<OfferNotes>,
    /// What was given so far. Only clauses see it, and it takes no memory.
    traffic: Traffic,
}

/// The requests of a lane that wait.
#[derive(Drop)]
pub(crate) struct LaneOffers {
    pub(crate) requests: VecDeque<WaitingRequest>,
    pub(crate) pause: Pause,
}

/// Until when a lane is left alone.
#[derive(Clone, Copy)]
pub(crate) enum Pause {
    /// It is not.
    Over,
    /// Until more than so many places of its queue became free.
    Queue(u64),
    /// Until more than so many places of its book became free.
    Book(u64),
    /// Until a second after this moment has passed.
    Moment(Option<Instant>),
    /// Until the end.
    ForGood,
}

impl Pause {
    /// Returns that of a lane that took one more.
    fn after_taking(self) -> Pause {
        match self {
            Pause::Queue(count) => Pause::Queue(count.saturating_add(1)),
            Pause::Book(count) => Pause::Book(count.saturating_add(1)),
            _ => Pause::Over,
        }
    }
}

/// A request that was given.
#[derive(Clone, Copy)]
struct Given {
    lane: usize,
    /// The places that had become free in its lane before.
    freed: Freed,
}

impl<'a, R: Clock> Offers<'a, R> {
    /// Makes those of these requests that pass the checks of a configuration, in their order. The others are left out, and
    /// returned.
    ///
    /// # Errors
    ///
    /// `AllocError` if memory is refused.
    pub fn new(
        clock: &'a R,
        alloc: Global,
        config: &'a Config,
        requests: Vec<OpenRequest>,
        notes: Arc<OfferNotes>,
    ) -> Result<(Offers<'a, R>, Vec<Unfit>), AllocError> {
        let mut sorted = SortedRequests::new(alloc, config, notes.answered())?;
        for request in requests {
            sorted.add(config, request)?;
        }
        let SortedRequests { lanes, keys, unfit } = sorted;
        let mut keys = keys;
        let is_done = are_done(&lanes);
        if is_done {
            keys.clear();
        }
        notes.set_waiting(keys.count());
        Ok((
            Offers {
                clock,
                config,
                lanes: if is_done { None } else { Some(lanes) },
                alloc,
                keys,
                turn: 0,
                given: None,
                notes,
                traffic: Traffic::new(),
            },
            unfit,
        ))
    }

    /// Settles the request that was given last by what became of it, if one was given.
    fn settle(&mut self)
        ensures { self.new.traffic ≡ self.old.traffic }
    {
        if let Some(given) = self.given {
            self.given = None;
            let _ = self.notes.take_first();
            let fate = self.notes.fate();
            self.settle_as(given, fate);
        }
    }

    /// Takes away the request that was given last, of which this became, unless its lane had no room for it. Then the lane is left
    /// alone.
    #[tactic(auto, using(crate::proofs::Settling::settles_nothing, crate::proofs::Settling::settles_all))]
    fn settle_as(&mut self, given: Given, fate: Fate)
        ensures settles { Settles fate given.lane (option_map (λ lanes. lanes.items) self.old.lanes) (option_map (λ lanes. lanes.items) self.new.lanes) }
        ensures given { self.new.traffic ≡ self.old.traffic }
    {
        let pause = self.pause_of(given, fate);
        let Some(lanes) = &mut self.lanes else {
            return;
        };
        if let Some(request) = settle_first(lanes, given.lane, fate, pause) {
            self.keys.leave(given.lane, &request, fate != Fate::Over);
        }
        self.notes.set_waiting(self.keys.count());
        if are_done(lanes) {
            self.lanes = None;
            self.keys.clear();
        }
    }

    /// Returns until when a lane is to be left alone of whose request this became.
    fn pause_of(&self, given: Given, fate: Fate) -> Pause {
        match fate {
            Fate::Taken | Fate::Known | Fate::Over => Pause::Over,
            Fate::QueueFull => Pause::Queue(given.freed.queue),
            Fate::BookFull => Pause::Book(given.freed.book),
            Fate::NoMemory => Pause::Moment(Instant::now(self.clock).ok()),
            Fate::Drained => Pause::ForGood,
        }
    }

    /// Returns whether a lane is left alone.
    fn is_paused(&self, lanes: &[LaneOffers], lane: usize) -> bool {
        let Some(offers) = lanes.get(lane) else {
            return true;
        };
        match offers.pause {
            Pause::Over => false,
            Pause::Queue(count) => self.notes.freed(lane).queue <= count,
            Pause::Book(count) => self.notes.freed(lane).book <= count,
            Pause::Moment(since) => !is_past(self.clock, since),
            Pause::ForGood => true,
        }
    }

    /// Returns the request of a lane that waits and came first, unless none waits or the lane is left alone.
    fn first_of(&self, lane: usize) -> Option<&WaitingRequest>
        ensures { IfSome result (λ request. first_in (option_map (λ lanes. lanes.items) self.now.lanes) lane ≡ Some request.now) }
    {
        match &self.lanes {
            Some(lanes) => self.first_among(lanes, lane),
            None => None,
        }
    }

    fn first_among<'b>(&self, lanes: &'b [LaneOffers], lane: usize) -> Option<&'b WaitingRequest>
        ensures { IfSome result (λ request. waiting_at lanes.now lane ≡ Some request.now) }
    {
        if self.is_paused(lanes, lane) {
            None
        } else {
            first_waiting(lanes, lane)
        }
    }

    /// Gives the first request of a lane, unless none waits or the lane is left alone.
    fn give_of(&mut self, lane: usize, datagram: &mut [u8; 4096]) -> Option<Received>
        ensures first { IfSome result (IsFirstOf (option_map (λ lanes. lanes.items) self.old.lanes) lane datagram.new) }
        ensures fits { IfSome result FitsRoom }
        ensures given { self.new.traffic ≡ self.old.traffic }
    {
        let Some(first) = self.first_of(lane) else {
            return None;
        };
        let accepted_first = first.accepted_first();
        let given = give(first, datagram);
        self.notes.begin(accepted_first);
        let freed = self.notes.freed(lane);
        self.given = Some(Given { lane, freed });
        Some(given)
    }

    /// Gives the first request of the next lane that has one and is not left alone, if there is such a lane.
    fn give_next(&mut self, datagram: &mut [u8; 4096]) -> Received
        ensures fits { FitsRoom result }
        ensures given { self.new.traffic ≡ self.old.traffic }
    {
        let count = self.config.homes().len();
        for _ in 0..count {
            let lane = self.turn;
            let next = lane.saturating_add(1);
            self.turn = if next < count { next } else { 0 };
            if let Some(given) = self.give_of(lane, datagram) {
                return given;
            }
        }
        Received::Nothing
    }
}

impl<R: Clock> WaitingRequests for Offers<'_, R> {
    ghost given = { λ offers. Some offers.traffic.passed };

    ghost waits = { λ offers. Waits offers.config.now (HasWaiting (option_map (λ lanes. lanes.items) offers.lanes)) (number_at offers.keys.numbers) };

    fn give(&mut self, datagram: &mut [u8; 4096]) -> Received {
        if self.lanes.is_none() {
            return Received::Nothing;
        }
        self.settle();
        let given = self.give_next(datagram);
        if let Received::Got {
            address,
            port,
            socket,
            count,
        } = given
        {
            self.traffic
                .arrived(socket, address, port, &datagram[..count]);
        }
        given
    }

    fn hold(&mut self, from: Endpoint, socket: u16, octets: &[u8]) -> Hold {
        if self.lanes.is_none() {
            return Hold::Passes;
        }
        let config = self.config;
        match check_in(config, from.address, from.port, octets) {
            Ok(Incoming::Request(request)) => self.hold_request(&request, socket),
            Ok(Incoming::Status(status)) => {
                let _ = &status;
                Hold::Passes
            }
            Err(_) => Hold::Passes,
        }
    }
}

impl<R> Offers<'_, R> {
    /// Keeps a request that came to the socket of this index if it has to wait.
    fn hold_request(&mut self, request: &Checked<'_>, socket: u16) -> Hold
        ensures waits { RequestWaits (HasWaiting (option_map (λ lanes. lanes.items) self.new.lanes)) (number_at self.new.keys.numbers) request.now (is_held result) }
        ensures config { self.new.config ≡ self.old.config }
        ensures given { self.new.traffic ≡ self.old.traffic }
    {
        let number = self.keys.numbers.find(&Parcel::key_of(request));
        if !self.has_waiting(usize::from(request.lane())) || is_taken(number) {
            return Hold::Passes;
        }
        self.put_behind(request, socket, number)
    }

    /// Returns whether requests of a lane wait.
    fn has_waiting(&self, lane: usize) -> bool
        ensures waits { IsTrue result ↔ HasWaiting (option_map (λ lanes. lanes.items) self.now.lanes) lane }
    {
        match &self.lanes {
            Some(lanes) => is_waiting(lanes, lane),
            None => false,
        }
    }

    /// Puts a request that came to the socket of this index behind those of its lane that wait, unless it repeats one of them,
    /// or is refused.
    fn put_behind(&mut self, request: &Checked<'_>, socket: u16, number: Option<u64>) -> Hold
        ensures held { is_held result ≡ true }
        ensures waits { HasWaiting (option_map (λ lanes. lanes.items) self.old.lanes) request.now.lane → HasWaiting (option_map (λ lanes. lanes.items) self.new.lanes) request.now.lane }
        ensures untaken { is_taken (number_at self.old.keys.numbers (request_key request.now)) ≡ false → is_taken (number_at self.new.keys.numbers (request_key request.now)) ≡ false }
        ensures config { self.new.config ≡ self.old.config }
        ensures given { self.new.traffic ≡ self.old.traffic }
    {
        self.notes.hold();
        if number.is_some() {
            return Hold::Repeats;
        }
        let key = Parcel::key_of(request);
        let lane = usize::from(request.lane());
        if self.is_drained(lane) {
            return Hold::Refused(Refusal::Draining);
        }
        if !self.keys.has_room(lane) {
            return Hold::Refused(Refusal::QueueFull);
        }
        match self.put(lane, key, socket, request.packet().octets()) {
            Ok(()) => {
                self.notes.set_waiting(self.keys.count());
                Hold::Waits
            }
            Err(AllocError) => Hold::Refused(Refusal::OutOfMemory),
        }
    }

    /// Puts a request behind those of its lane.
    ///
    /// # Errors
    ///
    /// `AllocError` if memory is refused. Then the same requests wait.
    #[tactic(auto, using(crate::proofs::KeysOfWaiting::untaken_waiting, crate::proofs::KeysOfWaiting::untaken_removed))]
    fn put(&mut self, lane: usize, key: Key, socket: u16, octets: &[u8]) -> Result<(), AllocError>
        ensures waits { HasWaiting (option_map (λ lanes. lanes.items) self.old.lanes) lane → HasWaiting (option_map (λ lanes. lanes.items) self.new.lanes) lane }
        ensures untaken { is_taken (number_at self.old.keys.numbers key) ≡ false → is_taken (number_at self.new.keys.numbers key) ≡ false }
        ensures config { self.new.config ≡ self.old.config }
        ensures given { self.new.traffic ≡ self.old.traffic }
    {
        let mut kept = Vec::new(self.alloc);
        kept.extend_from_slice(octets)?;
        let request = WaitingRequest {
            key,
            socket,
            octets: kept,
            came: None,
        };
        let Some(lanes) = &mut self.lanes else {
            return Ok(());
        };
        self.keys.add_newer(lane, &key)?;
        if push(lanes, lane, request).is_err() {
            self.keys.remove_newer(lane, &key);
            return Err(AllocError);
        }
        Ok(())
    }

    /// Returns whether a lane takes no new request any more.
    fn is_drained(&self, lane: usize) -> bool {
        let Some(lanes) = &self.lanes else {
            return false;
        };
        match lanes.get(lane) {
            Some(offers) => matches!(offers.pause, Pause::ForGood),
            None => false,
        }
    }
}

/// Gives a request.
fn give(request: &WaitingRequest, datagram: &mut [u8; 4096]) -> Received
    ensures given { IsGivenAs request.now datagram.new result }
    ensures fits { FitsRoom result }
{
    let octets = request.octets.as_slice();
    let count = octets.len().min(4096);
    datagram[..count].copy_from_slice(&octets[..count]);
    let address = request.key.client;
    let port = request.key.port;
    Received::Got {
        address,
        port,
        socket: request.socket,
        count,
    }
}

/// Returns the request of a lane that waits and came first, if one waits.
fn first_waiting(lanes: &[LaneOffers], lane: usize) -> Option<&WaitingRequest>
    ensures { option_map (λ request. request.now) result ≡ waiting_at lanes.now lane }
{
    match lanes.get(lane) {
        Some(offers) => offers.requests.front(),
        None => None,
    }
}

/// Returns whether this is the number of a request that was taken.
fn is_taken(number: Option<u64>) -> bool
    ensures { result ≡ is_taken number }
{
    match number {
        Some(number) => number != WAITS,
        None => false,
    }
}

/// Returns whether requests of a lane wait.
fn is_waiting(lanes: &[LaneOffers], lane: usize) -> bool
    ensures { result ≡ is_some (waiting_at lanes.now lane) }
{
    first_waiting(lanes, lane).is_some()
}

/// Takes away the first request of a lane if this became of it and the lane is done with it. Otherwise the lane is left alone.
#[tactic(auto, using(crate::proofs::Settling::settles_done, crate::proofs::Settling::settles_not))]
fn settle_first(
    lanes: &mut [LaneOffers],
    lane: usize,
    fate: Fate,
    pause: Pause,
) -> Option<WaitingRequest>
    ensures { Settles fate lane (Some lanes.old) (Some lanes.new) }
{
    if fate.is_done() {
        return take_first(lanes, lane, fate);
    }
    pause_lane(lanes, lane, pause);
    None
}

fn pause_lane(lanes: &mut [LaneOffers], lane: usize, pause: Pause)
    ensures { (other : ℕ) → waiting_for lanes.new other ≡ waiting_for lanes.old other }
{
    if lane < lanes.len() {
        let offers = &mut lanes[lane];
        offers.pause = pause;
    }
}

/// Takes away the first request of a lane.
fn take_first(lanes: &mut [LaneOffers], lane: usize, fate: Fate) -> Option<WaitingRequest>
    ensures { BecomesFor lanes.old lanes.new lane (drop 1 (waiting_for lanes.old lane)) }
{
    if lane >= lanes.len() {
        return None;
    }
    let offers = &mut lanes[lane];
    offers.take_first(fate)
}

/// Puts a request behind those of a lane.
fn push(lanes: &mut Vec<LaneOffers>, lane: usize, request: WaitingRequest) -> Result<(), AllocError>
    ensures put { lane < length lanes.old.items → OnOk result (BecomesFor lanes.old.items lanes.new.items lane (waiting_for lanes.old.items lane ++ request ∷ [])) }
    ensures same { OnErr result (BecomesFor lanes.old.items lanes.new.items lane (waiting_for lanes.old.items lane)) }
    ensures waits { IsTrue (is_some (waiting_at lanes.old.items lane)) → IsTrue (is_some (waiting_at lanes.new.items lane)) }
{
    if lane >= lanes.len() {
        return Ok(());
    }
    let offers = &mut lanes[lane];
    offers.push(request)
}

impl LaneOffers {
    fn take_first(&mut self, fate: Fate) -> Option<WaitingRequest>
        ensures { self.new.requests.items ≡ drop 1 self.old.requests.items }
    {
        if fate == Fate::Taken {
            self.pause = self.pause.after_taking();
        }
        self.requests.pop_front()
    }

    fn push(&mut self, request: WaitingRequest) -> Result<(), AllocError>
        ensures put { OnOk result (self.new.requests.items ≡ self.old.requests.items ++ request ∷ []) }
        ensures same { OnErr result (self.new.requests.items ≡ self.old.requests.items) }
    {
        Ok(self.requests.push_back(request)?)
    }
}

/// Returns whether no request waits.
fn are_done(lanes: &[LaneOffers]) -> bool
    ensures { IsTrue result → (lane : ℕ) → waiting_for lanes.now lane ≡ [] }
{
    for lane in 0..lanes.len() {
        if is_waiting(lanes, lane) {
            return false;
        }
    }
    true
}

/// A request that no longer passes the checks, and why.
#[derive(Clone, Copy)]
pub struct Unfit {
    pub came: Came,
    /// `None` if it is no Accounting-Request.
    pub reason: Option<Dropped>,
}

impl Unfit {
    /// Returns the name of the reason.
    pub fn reason_name(&self) -> &'static str {
        match self.reason {
            Some(reason) => reason.name(),
            None => "WrongCode",
        }
    }
}

/// The requests that earlier runs left, for each lane, and those that no longer pass the checks.
#[derive(Drop)]
struct SortedRequests {
    lanes: Vec<LaneOffers>,
    keys: WaitingKeys,
    unfit: Vec<Unfit>,
}

impl SortedRequests {
    /// Makes that of none, where earlier runs answered the requests of these keys.
    fn new(alloc: Global, config: &Config, answered: &[Key]) -> Result<SortedRequests, AllocError> {
        let lanes = no_offers(alloc, config.homes().len())?;
        let mut keys = WaitingKeys::new(alloc, config)?;
        for key in answered {
            keys.add_answered(key)?;
        }
        Ok(SortedRequests {
            lanes,
            keys,
            unfit: Vec::new(alloc),
        })
    }

    /// Adds the next one.
    fn add(&mut self, config: &Config, request: OpenRequest) -> Result<(), AllocError> {
        match lane_of(config, &request) {
            Ok(lane) => {
                self.keys.add(&request.came.key)?;
                push(&mut self.lanes, lane, waiting_request(request))
            }
            Err(reason) => Ok(
                self.unfit.push(Unfit {
                    came: request.came,
                    reason,
                })?,
            ),
        }
    }
}

/// Makes the lists of so many lanes: no requests yet.
fn no_offers(alloc: Global, lanes: usize) -> Result<Vec<LaneOffers>, AllocError> {
    let mut offers = Vec::with_capacity(alloc, lanes)?;
    for _ in 0..lanes {
        offers.push(LaneOffers {
            requests: VecDeque::new(alloc),
            pause: Pause::Over,
        })?;
    }
    Ok(offers)
}

/// Returns the lane of a request, or why it is dropped, if there is a reason that has a name.
fn lane_of(config: &Config, request: &OpenRequest) -> Result<usize, Option<Dropped>> {
    let key = request.came.key;
    match check_in(config, key.client, key.port, &request.octets) {
        Ok(Incoming::Request(request)) => Ok(usize::from(request.lane())),
        Ok(Incoming::Status(_)) => Err(None),
        Err(reason) => Err(Some(reason)),
    }
}

fn waiting_request(request: OpenRequest) -> WaitingRequest {
    let OpenRequest { came, octets } = request;
    WaitingRequest {
        key: came.key,
        socket: 0,
        octets,
        came: Some(came),
    }
}

/// Returns whether a lane that was left alone since this moment is so no longer.
fn is_past<R: Clock>(clock: &R, since: Option<Instant>) -> bool {
    match since {
        Some(since) => match since.elapsed(clock) {
            Ok(passed) => passed >= Duration::from_millis(PAUSE),
            Err(_) => true,
        },
        None => true,
    }
}
