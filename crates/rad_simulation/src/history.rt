//! What lanes accepted, what was answered, and what of it is on disk, over all runs of a spool. Each start is compared with it, and
//! each request that is taken.

use crate::clock::wall_moment;
use crate::events::{Gone, Keeping};
use crate::rules::Rule;
use crate::setting::Setting;
use rad_auth::RequestHead;
use rad_desk::{Earlier, Report, Rest};
use rad_lane::{Outgoing, Stamp};
use rad_packet::read;
use rad_realms::Endpoint;
use rad_tables::Key;
use spool_files::{Came, OpenRequest, RememberedAnswer};
use std::alloc::Global;

/// A request that a lane accepted in some run, while its key was not open.
#[derive(Drop)]
struct Record {
    key: Key,
    lane: u16,
    /// Its octets, without padding.
    octets: Vec<u8>,
    /// What names its first acceptance.
    first: Earlier,
    /// Whether it is on disk for certain.
    is_synced: bool,
    /// Whether an earlier run left it, and no lane took it in this one yet.
    is_due: bool,
    answer: Option<GivenAnswer>,
}

/// The last response that was given to a request.
#[derive(Drop)]
struct GivenAnswer {
    octets: Vec<u8>,
    /// When it was given, in milliseconds since 1970.
    moment: u64,
    /// The run that gave it.
    run: u64,
    fate: Fate,
}

/// Whether an answer is on disk.
#[derive(Clone, Copy, PartialEq, Eq)]
enum Fate {
    /// The next round of the spool's thread has it.
    Waits,
    /// It is.
    Synced,
    /// It may be: the disk failed, so it need not be written.
    Unknown,
}

/// How a run ended.
#[derive(Clone, Copy)]
pub enum Ended {
    /// Somewhere.
    ByCrash,
    /// In order. It counted so many requests as not on disk.
    InOrder(u64),
}

/// What happened over all runs of a spool.
#[derive(Drop)]
pub struct History {
    alloc: Global,
    /// In the order of the first acceptance.
    records: Vec<Record>,
    /// The span of each lane, in milliseconds.
    spans: Vec<u64>,
    /// The number of the run.
    run: u64,
    /// Whether a round of the spool's thread failed, and none succeeded since.
    is_failing: bool,
}

impl Record {
    /// Notes that a start offers it, or does not.
    fn start(&mut self, is_offered: bool) -> Result<(), Rule> {
        match &self.answer {
            Some(answer) if is_offered => Rule::OFFERED_AGAIN.unless(answer.fate != Fate::Synced)?,
            None if !is_offered => Rule::LOST.unless(!self.is_synced)?,
            _ => {}
        }
        self.is_due = is_offered;
        if is_offered {
            self.answer = None;
            self.is_synced = true;
        }
        Ok(())
    }

    /// Returns whether it is neither answered nor offered: it was never on disk.
    fn is_gone(&self) -> bool {
        self.answer.is_none() && !self.is_due
    }

    fn is_of(&self, stamp: &Stamp) -> bool {
        let (authenticator, client) = (stamp.authenticator, stamp.client);
        let key = Key {
            authenticator,
            client,
            port: stamp.port,
            identifier: stamp.identifier,
        };
        self.key == key
    }

    /// Returns whether an answer that the disk has for certain was given by a run before this one, no longer ago than a span.
    fn has_earlier_answer(&self, run: u64, now: u64, span: u64) -> bool {
        match &self.answer {
            Some(answer) => answer.fate == Fate::Synced
                && answer.run < run
                && now.saturating_sub(answer.moment) < span,
            None => false,
        }
    }
}

impl GivenAnswer {
    /// Notes that a start remembers it, or does not.
    fn start(&mut self, is_remembered: bool) {
        if is_remembered {
            self.fate = Fate::Synced;
        } else if self.fate == Fate::Waits {
            self.fate = Fate::Unknown;
        }
    }
}

fn name_of(came: &Came) -> Earlier {
    Earlier {
        run: came.run,
        lane: came.lane,
        number: came.number,
    }
}

/// Returns the key of a request that came from here, if its octets are a packet.
pub fn key_of(from: Endpoint, octets: &[u8]) -> Result<Key, Rule> {
    let Ok(packet) = read(octets) else {
        return Err(Rule::NEVER_CAME);
    };
    let (authenticator, client) = (packet.authenticator(), from.address);
    Ok(Key {
        authenticator,
        client,
        port: from.port,
        identifier: packet.identifier(),
    })
}

/// Returns the key of the request that a response answers.
pub fn key_answered(outgoing: &Outgoing) -> Key {
    let RequestHead {
        identifier,
        authenticator,
    } = outgoing.reply.head();
    let client = outgoing.client;
    Key {
        authenticator,
        client,
        port: outgoing.port,
        identifier,
    }
}

impl History {
    /// Returns the history of a spool without runs.
    pub fn new(alloc: Global, setting: &Setting) -> Result<History, Rule> {
        let mut spans = Vec::new(alloc);
        for home in setting.homes.as_slice() {
            spans.push(u64::from(home.limits.span))?;
        }
        Ok(History {
            alloc,
            records: Vec::new(alloc),
            spans,
            run: 0,
            is_failing: false,
        })
    }

    fn span_of(&self, lane: u16) -> u64 {
        self.spans
            .as_slice()
            .get(usize::from(lane))
            .copied()
            .unwrap_or(0)
    }

    fn greatest_span(&self) -> u64 {
        let mut greatest = 0_u64;
        for span in self.spans.as_slice() {
            greatest = greatest.max(*span);
        }
        greatest
    }

    /// Returns the place of the last request with this key.
    fn last_of(&self, key: &Key) -> Option<usize> {
        let mut last = None;
        for (place, record) in self.records.as_slice().iter().enumerate() {
            if record.key == *key {
                last = Some(place);
            }
        }
        last
    }

    /// Returns the place of the request with this first acceptance.
    fn place_of(&self, first: Earlier) -> Option<usize> {
        self.records
            .as_slice()
            .iter()
            .position(|record| record.first == first)
    }

    /// Compares what a start offers and remembers at this moment with what the disk had for certain.
    pub fn start(
        &mut self,
        run: u64,
        ended: Ended,
        offered: &[OpenRequest],
        answers: &[RememberedAnswer],
        passed: u64,
    ) -> Result<(), Rule> {
        self.run = run;
        self.is_failing = false;
        self.compare_offered(offered)?;
        for record in self.records.as_mut_slice().iter_mut() {
            record.start(is_offered(offered, record.first))?;
        }
        self.compare_answers(answers, wall_moment(passed))?;
        self.forget_gone(ended)
    }

    /// Compares what a start offers: each came in some run, and none twice, in the order of the first acceptance.
    fn compare_offered(&self, offered: &[OpenRequest]) -> Result<(), Rule> {
        let mut least = 0;
        for request in offered {
            let Some(place) = self.place_of(name_of(&request.came)) else {
                return Err(Rule::NEVER_CAME);
            };
            Rule::IN_ORDER.unless(place >= least)?;
            least = place.saturating_add(1);
            Rule::NEVER_CAME.unless(self.is_same(place, request))?;
        }
        Ok(())
    }

    fn is_same(&self, place: usize, request: &OpenRequest) -> bool {
        match self.records.as_slice().get(place) {
            Some(record) => record.key == request.came.key
                && record.octets.as_slice() == request.octets.as_slice(),
            None => false,
        }
    }

    /// Forgets what was not on disk when the run before ended. If that ended in order, it counted each.
    fn forget_gone(&mut self, ended: Ended) -> Result<(), Rule> {
        let mut gone = 0_u64;
        for record in self.records.as_slice() {
            if record.is_gone() {
                gone = gone.saturating_add(1);
            }
        }
        if let Ended::InOrder(counted) = ended {
            Rule::LOST_IN_ORDER.unless(gone <= counted)?;
        }
        for place in 0..self.records.len() {
            if self.is_behind_due(place)
                && let Some(record) = self.records.as_mut_slice().get_mut(place)
            {
                record.answer = None;
            }
        }
        self.records.retain(|record| !record.is_gone());
        Ok(())
    }

    /// Returns whether an earlier request with the key of the one at a place is offered: then this one, and its answer, was not on disk.
    fn is_behind_due(&self, place: usize) -> bool {
        let Some(record) = self.records.as_slice().get(place) else {
            return false;
        };
        for other in self.records.as_slice().iter().take(place) {
            if other.is_due && other.key == record.key {
                return true;
            }
        }
        false
    }

    /// Compares the answers that a start remembers: each that the disk had for certain, for its span.
    fn compare_answers(&mut self, answers: &[RememberedAnswer], now: u64) -> Result<(), Rule> {
        let since = now.saturating_sub(self.greatest_span());
        for place in 0..self.records.len() {
            let is_last = self.is_last(place);
            if let Some(record) = self.records.as_mut_slice().get_mut(place)
                && let Some(answer) = &mut record.answer
            {
                let is_remembered = is_last && is_remembered(answers, &record.key, answer);
                let is_to_be = is_last && answer.fate == Fate::Synced && answer.moment >= since;
                Rule::FORGOTTEN.unless(is_remembered || !is_to_be)?;
                answer.start(is_remembered);
            }
        }
        Ok(())
    }

    /// Returns whether no later request has the key of the one at a place.
    fn is_last(&self, place: usize) -> bool {
        match self.records.as_slice().get(place) {
            Some(record) => self.last_of(&record.key) == Some(place),
            None => false,
        }
    }

    /// Compares a request that a lane took as new, from this endpoint: it is the first that earlier runs left for the lane, or they
    /// left none any more. It repeats none whose answer an earlier run gave within the span.
    pub fn accept(
        &mut self,
        lane: u16,
        number: u64,
        from: Endpoint,
        octets: &[u8],
        passed: u64,
    ) -> Result<(), Rule> {
        let key = key_of(from, octets)?;
        if self.takes_due(lane, &key)? {
            return Ok(());
        }
        if let Some(place) = self.last_of(&key) {
            if self.is_open(place) {
                return Ok(());
            }
            Rule::ANEW.unless(!self.has_answer(place, lane, passed))?;
        }
        let octets = octets.to_vec(self.alloc)?;
        self.records.push(Record {
            key,
            lane,
            octets,
            first: Earlier {
                run: self.run,
                lane,
                number,
            },
            is_synced: false,
            is_due: false,
            answer: None,
        })?;
        Ok(())
    }

    /// Returns whether a lane takes the first request that earlier runs left for it. If they left none, it does not.
    fn takes_due(&mut self, lane: u16, key: &Key) -> Result<bool, Rule> {
        for record in self.records.as_mut_slice().iter_mut() {
            if record.is_due && record.lane == lane {
                Rule::BEFORE_NEWER.unless(record.key == *key)?;
                record.is_due = false;
                return Ok(true);
            }
        }
        Ok(false)
    }

    fn is_open(&self, place: usize) -> bool {
        match self.records.as_slice().get(place) {
            Some(record) => record.answer.is_none(),
            None => false,
        }
    }

    fn has_answer(&self, place: usize, lane: u16, passed: u64) -> bool {
        let (now, span) = (wall_moment(passed), self.span_of(lane));
        match self.records.as_slice().get(place) {
            Some(record) => record.has_earlier_answer(self.run, now, span),
            None => false,
        }
    }

    /// Returns the place of a request of this key that leads to a lane, if an earlier run answered it within the span, and the disk
    /// has the answer for certain.
    pub fn answered_before(&self, lane: u16, key: &Key, passed: u64) -> Option<usize> {
        let place = self.last_of(key)?;
        if self.has_answer(place, lane, passed) {
            Some(place)
        } else {
            None
        }
    }

    /// Returns whether what is sent to a NAS answers the request at a place as an earlier run did.
    pub fn is_same_answer(&self, place: usize, gone: &Gone) -> bool {
        let Some(record) = self.records.as_slice().get(place) else {
            return false;
        };
        match &record.answer {
            Some(answer) => answer.octets.as_slice() == gone.octets.as_slice()
                && record.key.client == gone.to.address
                && record.key.port == gone.to.port,
            None => false,
        }
    }

    /// Notes that a response is put into the spool.
    pub fn answer(&mut self, keeping: &Keeping) -> Result<(), Rule> {
        let Some(place) = self.last_of(&keeping.key) else {
            return Err(Rule::NEVER_CAME);
        };
        let octets = keeping.response.to_vec(self.alloc)?;
        let run = self.run;
        if let Some(record) = self.records.as_mut_slice().get_mut(place) {
            record.answer = Some(GivenAnswer {
                octets,
                moment: wall_moment(keeping.passed),
                run,
                fate: Fate::Waits,
            });
        }
        Ok(())
    }

    /// Notes that a round of the spool's thread is over. If it did not fail, what was accepted is on disk, and what was answered too,
    /// unless the round before failed: then what is answered need not be written.
    pub fn end_round(&mut self, is_failing: bool) {
        let fate = if is_failing || self.is_failing {
            Fate::Unknown
        } else {
            Fate::Synced
        };
        self.is_failing = is_failing;
        for record in self.records.as_mut_slice().iter_mut() {
            record.is_synced = record.is_synced || !is_failing;
            if let Some(answer) = &mut record.answer
                && answer.fate == Fate::Waits
            {
                answer.fate = fate;
            }
        }
    }

    /// Returns whether each request is answered that was not lost with a run.
    pub fn is_served(&self) -> bool {
        for record in self.records.as_slice() {
            if record.answer.is_none() {
                return false;
            }
        }
        true
    }

    /// Returns how many requests earlier runs left that no lane took yet.
    pub fn due(&self) -> u64 {
        let mut count = 0_u64;
        for record in self.records.as_slice() {
            if record.is_due {
                count = count.saturating_add(1);
            }
        }
        count
    }

    /// Compares what is left of a run: a lane has each request that it took and that is not answered.
    pub fn compare_left(&self, report: &Report) -> Result<(), Rule> {
        for record in self.records.as_slice() {
            let is_taken = record.answer.is_none() && !record.is_due;
            Rule::LOST_BY_LANE.unless(!is_taken || is_left(report, record))?;
        }
        Ok(())
    }
}

fn is_offered(offered: &[OpenRequest], first: Earlier) -> bool {
    offered
        .iter()
        .any(|request| name_of(&request.came) == first)
}

/// Returns whether this answer to a request of a key is among those that are remembered.
fn is_remembered(answers: &[RememberedAnswer], key: &Key, answer: &GivenAnswer) -> bool {
    for other in answers {
        if other.answered.key == *key
            && other.answered.moment == answer.moment
            && other.octets.as_slice() == answer.octets.as_slice()
        {
            return true;
        }
    }
    false
}

/// Returns whether a request is in the book of its lane, or its response waits to be taken.
fn is_left(report: &Report, record: &Record) -> bool {
    let Some(end) = report.ends.as_slice().get(usize::from(record.lane)) else {
        return false;
    };
    let is_held = end
        .accepted
        .as_slice()
        .iter()
        .any(|stamp| record.is_of(stamp));
    is_held || is_untaken(&end.rest, record)
}

fn is_untaken(rest: &Rest, record: &Record) -> bool {
    match rest {
        Rest::Known(rest) => rest
            .as_slice()
            .iter()
            .any(|outgoing| key_answered(outgoing) == record.key),
        Rest::Unknown => false,
    }
}
