//! Accepting a request.

ghost use Rattle.std.specs.Prelude.{◌≡◌, ◌+◌, ◌≤◌, [], ◌∷◌, ◌++◌, length, None, IfOk, OnErr, MatchResult, IsTrue, ◌↔◌};
ghost use Rattle.rad_lane.specs.Repeat.{repeats, fresh, found};
ghost use Rattle.rad_lane.specs.internal.Taking.{AddsRequest, TakesRepeat};
ghost use Rattle.rad_lane.specs.internal.Invariant.{HasRoom};
ghost use Rattle.rad_lane.specs.Datagrams.{Datagrams};
ghost use Rattle.rad_lane.specs.Accepts.{Accepts, IsTaken, IsRefused, request_key, stamp_of as the_stamp, record_of as the_record};

use crate::answered::AnswerIndex;
use crate::repeats::{Repeat, Seen};
use crate::{Answered, Lane, Record, Stamp};
use block_queue::{Fifo, SlidingList};
use rad_auth::{Buffer, MARK_LENGTH, Octets};
use rad_packet::{Datagram, GREATEST_LENGTH, PacketRef};
use rad_realms::Checked;
use rad_tables::{Key, Moment};
use std::alloc::{AllocError, Global};
use std::fmt;

/// How a request was taken: as a new one or as a repeat.
#[derive(Clone, Copy, Debug, PartialEq, Eq)]
pub enum Taken {
    /// The request is new and has this number.
    New(u64),
    /// The request repeats the unanswered request of this number.
    Waiting(u64),
    /// The request repeats the request of this number, which was answered less than a span ago. The response is in
    /// the datagram.
    Again(u64),
}

/// Why a new request is refused. If several reasons apply, the first in this order is returned. A refusal is printed
/// as its name.
#[derive(Clone, Copy, Debug, PartialEq, Eq)]
pub enum Refusal {
    /// The lane is drained.
    Draining,
    /// The book holds as many requests as it may, or no number below 2^62 is left.
    BookFull,
    /// The queue holds as many requests as it may.
    QueueFull,
    /// The request is longer than 4084 octets, so the mark does not fit.
    TooLong,
    /// Memory was refused.
    OutOfMemory,
    /// The request belongs to another lane. A lane itself never returns this.
    WrongLane,
}

/// Each refusal, at its place.
pub const REFUSALS: &[Refusal] = &[
    Refusal::Draining,
    Refusal::BookFull,
    Refusal::QueueFull,
    Refusal::TooLong,
    Refusal::OutOfMemory,
    Refusal::WrongLane,
];

impl Refusal {
    ghost use Rattle.std.specs.Prelude.{◌≡◌};
    ghost use Rattle.rad_lane.specs.Printed.{refusal_text, refusal_place};

    /// Returns the index of the refusal in [`REFUSALS`].
    pub fn place(self) -> usize
        ensures { result ≡ refusal_place self }
    {
        match self {
            Refusal::Draining => 0,
            Refusal::BookFull => 1,
            Refusal::QueueFull => 2,
            Refusal::TooLong => 3,
            Refusal::OutOfMemory => 4,
            Refusal::WrongLane => 5,
        }
    }

    /// Returns the name of the refusal.
    pub fn name(self) -> &'static str
        ensures { result.now ≡ refusal_text self }
    {
        match self {
            Refusal::Draining => "Draining",
            Refusal::BookFull => "BookFull",
            Refusal::QueueFull => "QueueFull",
            Refusal::TooLong => "TooLong",
            Refusal::OutOfMemory => "OutOfMemory",
            Refusal::WrongLane => "WrongLane",
        }
    }
}

impl fmt::Display for Refusal {
    ghost use Rattle.std.specs.Prelude.{Some};
    ghost use Rattle.rad_lane.specs.Printed.{refusal_text};

    ghost output = { λ refusal. Some (refusal_text refusal) };

    fn fmt<W: fmt::Write>(&self, f: &mut fmt::Formatter<W>) -> fmt::Result {
        f.write_str(self.name())
    }
}

/// The first number that no request can have.
const NUMBER_LIMIT: u64 = 1 << 62;

impl<Q: Fifo<Record>> Lane<Q> {
    /// Returns whether a request leads to this lane, by the lane's own realms. The request's realm is compared with
    /// one of them. If the request was checked against another configuration than the one that set up the lane, it is
    /// compared with each.
    pub fn takes(&self, request: &Checked<'_>) -> bool
        ensures { IsTrue result ↔ IsTaken self.now request.now }
    {
        request.lane() == self.setup.lane()
            && self.setup.leads_here(request.realm(), request.rank())
    }

    /// Takes a request of this lane. A new request is accepted and queued. For a repeat of an unanswered request,
    /// only that request's number is returned. For a repeat of a request that was answered less than a span ago, the
    /// response is also written into the datagram.
    ///
    /// It takes time logarithmic in the size of the book. If a list of the book grows for a new request, at most a
    /// few of its items are moved, unless memory was refused again and again until that list was full.
    ///
    /// # Errors
    ///
    /// The first [`Refusal`] that applies, if the request is new. The lane and the datagram are unchanged.
    pub fn accept(
        &mut self,
        alloc: Global,
        request: &Checked<'_>,
        moment: Moment,
        datagram: &mut Datagram,
    ) -> Result<Taken, Refusal>
        requires { IsTaken self.old request.now }
        ensures { Accepts self.old request.now moment result (record { before = datagram.old; after = datagram.new }) self.new }
    {
        match self.check_new(request) {
            Ok(()) => self.accept_free(alloc, request, moment, datagram),
            Err(refusal) => self.accept_repeat(refusal, request, moment, datagram),
        }
    }

    /// Returns the first reason for which a new request is refused, except for a refused allocation.
    fn check_new(&self, request: &Checked<'_>) -> Result<(), Refusal>
        ensures { MatchResult result (λ _. IsRefused self.now request.now Refusal.OutOfMemory) (λ refusal. IsRefused self.now request.now refusal) }
    {
        let limits = self.setup.limits().numbers();
        if self.drain.is_some() {
            return Err(Refusal::Draining);
        }
        if self.accepted.as_slice().len() >= limits.book as usize
            || self.next_number() >= NUMBER_LIMIT
        {
            return Err(Refusal::BookFull);
        }
        if self.queued.len() >= limits.queue as usize {
            return Err(Refusal::QueueFull);
        }
        if request.packet().octets().len() > GREATEST_LENGTH - MARK_LENGTH {
            return Err(Refusal::TooLong);
        }
        Ok(())
    }

    fn accept_repeat(
        &mut self,
        refusal: Refusal,
        request: &Checked<'_>,
        moment: Moment,
        datagram: &mut Datagram,
    ) -> Result<Taken, Refusal>
        requires { IsRefused self.old request.now refusal }
        ensures { Accepts self.old request.now moment result (record { before = datagram.old; after = datagram.new }) self.new }
    {
        let now = self.moment_of(moment);
        let Some(taken) = taken_as(self.find_repeat(&key_of(request), now), datagram) else {
            return Err(refusal);
        };
        self.set_last(now);
        Ok(taken)
    }

    /// Takes a request while new ones are not refused. One search finds the recent number of the request's key and
    /// replaces it by the new one. This is undone for a repeat, and if memory is refused.
    fn accept_free(
        &mut self,
        alloc: Global,
        request: &Checked<'_>,
        moment: Moment,
        datagram: &mut Datagram,
    ) -> Result<Taken, Refusal>
        requires taken { IsTaken self.old request.now }
        requires free { IsRefused self.old request.now Refusal.OutOfMemory }
        ensures { Accepts self.old request.now moment result (record { before = datagram.old; after = datagram.new }) self.new }
    {
        let now = self.moment_of(moment);
        let next = self.next_number();
        let key = key_of(request);
        let seen = Seen::since(self.opening, &self.indices, &self.answered, &self.setup);
        let Ok(recent) = self.recent.replace(key, next) else {
            return self.accept_repeat(Refusal::OutOfMemory, request, moment, datagram);
        };
        let last = self.earlier.last_number(self.opening, recent, &key);
        if let Some(taken) = taken_as(seen.repeat_of(last, now), datagram) {
            self.recent.restore(&key, recent);
            self.set_last(now);
            return Ok(taken);
        }
        let Ok(()) = add(
            alloc,
            request,
            next,
            now,
            &mut self.accepted,
            &mut self.indices,
            &mut self.queued,
        ) else {
            self.recent.restore(&key, recent);
            return Err(Refusal::OutOfMemory);
        };
        self.last = now;
        Ok(Taken::New(next))
    }
}

fn taken_as(repeat: Repeat<'_>, datagram: &mut Datagram) -> Option<Taken>
    ensures { TakesRepeat (found repeat.entry) result (record { before = datagram.old; after = datagram.new }) }
{
    match repeat {
        Repeat::Fresh => None,
        Repeat::Waits(number) => Some(Taken::Waiting(number)),
        Repeat::Answered(number, answer) => {
            datagram.load(&response_of(answer));
            Some(Taken::Again(number))
        }
    }
}

fn key_of(request: &Checked<'_>) -> Key
    ensures { result ≡ request_key request.now }
{
    let packet = request.packet();
    Key {
        client: request.client(),
        port: request.port(),
        identifier: packet.identifier(),
        authenticator: packet.authenticator(),
    }
}

fn stamp_of(request: &Checked<'_>, number: u64, moment: Moment) -> Stamp
    ensures { result ≡ the_stamp number request.now moment }
{
    let packet = request.packet();
    Stamp {
        number,
        client: request.client(),
        port: request.port(),
        identifier: packet.identifier(),
        authenticator: packet.authenticator(),
        moment,
    }
}

fn record_of(
    alloc: Global,
    request: &Checked<'_>,
    number: u64,
    moment: Moment,
) -> Result<Record, AllocError>
    requires { length request.now.text ≤ 4084 }
    ensures record { IfOk result (λ kept. kept.recorded ≡ the_record number request.now moment) }
    ensures room { IfOk result HasRoom }
{
    let octets = request.packet().octets();
    let text = Octets::copy_of(alloc, octets)?;
    let spare = Buffer::with_room(alloc, octets.len() + MARK_LENGTH)?;
    let stamp = stamp_of(request, number, moment);
    Ok(Record::new(stamp, text, *request.secret(), spare))
}

fn add<Q: Fifo<Record>>(
    alloc: Global,
    request: &Checked<'_>,
    number: u64,
    moment: Moment,
    accepted: &mut SlidingList<Stamp>,
    indices: &mut SlidingList<Option<AnswerIndex>>,
    queued: &mut Q,
) -> Result<(), AllocError>
    requires { length request.now.text ≤ 4084 }
    ensures added { IfOk result (λ _. AddsRequest request.now number moment accepted.old.items accepted.new.items (Q.items queued.old) (Q.items queued.new)) }
    ensures indices { IfOk result (λ _. indices.new.items ≡ indices.old.items ++ None ∷ []) }
    ensures same_accepted { OnErr result (accepted.new.items ≡ accepted.old.items) }
    ensures same_indices { OnErr result (indices.new.items ≡ indices.old.items) }
    ensures same_queued { OnErr result (Q.items queued.new ≡ Q.items queued.old) }
{
    make_room(accepted, indices, queued)?;
    let record = record_of(alloc, request, number, moment)?;
    accepted.push(record.stamp());
    indices.push(None);
    queued.push_back(record);
    Ok(())
}

fn make_room<Q: Fifo<Record>>(
    accepted: &mut SlidingList<Stamp>,
    indices: &mut SlidingList<Option<AnswerIndex>>,
    queued: &mut Q,
) -> Result<(), AllocError>
    ensures accepted { accepted.new.items ≡ accepted.old.items }
    ensures indices { indices.new.items ≡ indices.old.items }
    ensures queued { Q.items queued.new ≡ Q.items queued.old }
    ensures accepted_room { IfOk result (λ _. 1 ≤ accepted.new.room) }
    ensures answer_indices_room { IfOk result (λ _. 1 ≤ indices.new.room) }
    ensures queued_room { IfOk result (λ _. 1 ≤ Q.room queued.new) }
{
    accepted.reserve_one()?;
    indices.reserve_one()?;
    queued.reserve_one()
}

fn response_of(answer: &Answered) -> PacketRef<'_>
    ensures { result ≡ answer.now.reply.response }
{
    PacketRef::over(answer.reply().response())
}
