//! The walk over the events of one call of a worker, which compares each event with the expected one.

use crate::events::{Came, DownBy, Gone, Mail, Sign, TraceEvent};
use crate::rules::Rule;
use rad_desk::{Call, Go, Tally};

/// The position of a walk, and what the worker should have done so far.
#[derive(Clone, Copy)]
pub struct Walk<'a> {
    events: &'a [TraceEvent],
    /// How many events were read.
    place: usize,
    /// Whether the worker began all its turns, according to its own tally.
    began_all: bool,
    /// The first rule that was broken, if any. Once a rule is broken, `next` returns no event.
    broken: Option<Rule>,
    pub tally: Tally,
}

impl<'a> Walk<'a> {
    /// Returns a walk that begins at the first event.
    pub fn new(events: &'a [TraceEvent], began_all: bool) -> Walk<'a> {
        Walk {
            events,
            place: 0,
            began_all,
            broken: None,
            tally: Tally {
                turns: 0,
                received: 0,
                sent: 0,
                faults: 0,
            },
        }
    }

    /// Records that this rule is broken, unless an earlier one was.
    pub fn breaks(&mut self, rule: Rule) {
        if self.broken.is_none() {
            self.broken = Some(rule);
        }
    }

    /// Records that this rule is broken if `is_kept` is false.
    pub fn keeps(&mut self, rule: Rule, is_kept: bool) {
        if !is_kept {
            self.breaks(rule);
        }
    }

    pub fn is_broken(&self) -> bool {
        self.broken.is_some()
    }

    /// Returns the result of the walk, given the tally that the worker returned.
    pub fn outcome(&self, tally: Tally) -> Result<(), Rule> {
        match self.broken {
            Some(rule) => Err(rule),
            None => Rule::TALLY.unless(self.tally == tally),
        }
    }

    /// Returns the next event, if no rule was broken. If no event is left, `rule` is broken, or `GOES_ON` if the
    /// worker did not begin all its turns.
    fn next(&mut self, rule: Rule) -> Option<&'a TraceEvent> {
        if self.is_broken() {
            return None;
        }
        let next = self.events.get(self.place);
        if next.is_some() {
            self.place = self.place.saturating_add(1);
        } else {
            self.broken = Some(if self.began_all { rule } else { Rule::GOES_ON });
        }
        next
    }

    /// Records that an unexpected event, if there is one, breaks a rule. By `rule` another event was expected.
    fn misses(&mut self, next: Option<&TraceEvent>, rule: Rule) {
        if let Some(event) = next {
            self.breaks(rule_of(event, rule));
        }
    }

    /// Expects a receive, with which each turn begins. Returns its moment, and the datagram that arrived.
    pub fn begins(&mut self) -> (u64, Option<&'a Mail>) {
        self.tally.turns = self.tally.turns.saturating_add(1);
        match self.next(Rule::RECEIVE) {
            Some(TraceEvent::Received(moment, came)) => {
                self.meets(Sign::Woke, &[], Rule::WOKE);
                (*moment, self.received(came))
            }
            other => {
                self.misses(other, Rule::RECEIVE);
                (0, None)
            }
        }
    }

    /// Expects that the gate is notified of what arrived. Returns the datagram that arrived.
    fn received(&mut self, came: &'a Came) -> Option<&'a Mail> {
        match came {
            Came::Datagram(mail) => {
                self.tally.received = self.tally.received.saturating_add(1);
                let from = mail.from;
                let octets = mail.octets.as_slice();
                self.meets(Sign::Received(from), octets, Rule::TOLD_RECEIVED);
                Some(mail)
            }
            Came::Fault => {
                self.fails(Sign::ReceiveFault, Rule::RECEIVE_FAULT);
                None
            }
            Came::Nothing => None,
        }
    }

    /// Counts a receive or a send that fails, and expects its report.
    fn fails(&mut self, sign: Sign, rule: Rule) {
        self.tally.faults = self.tally.faults.saturating_add(1);
        self.meets(sign, &[], rule);
    }

    /// Expects that no event is left.
    pub fn ends(&mut self, rule: Rule) {
        let more = self.events.get(self.place);
        self.misses(more, rule);
    }

    /// Expects that the gate is asked before a call. Returns whether the call is made. If it is not, no event may
    /// follow.
    pub fn asks(&mut self, call: Call, rule: Rule) -> bool {
        match self.next(rule) {
            Some(TraceEvent::Signed(Sign::Before(asked, Go::On), _)) if *asked == call => true,
            Some(TraceEvent::Signed(Sign::Before(asked, Go::Stop), _)) if *asked == call => {
                self.ends(Rule::STOPS);
                false
            }
            other => {
                self.misses(other, rule);
                false
            }
        }
    }

    /// Expects that the next turn begins here, or that no event is left.
    pub fn idles(&mut self) {
        match self.events.get(self.place) {
            Some(TraceEvent::Received(..)) | None => {}
            Some(TraceEvent::Signed(Sign::Before(Call::Turn, _), _)) => self.breaks(Rule::TURN),
            Some(_) => self.breaks(Rule::IDLE),
        }
    }

    /// Expects that the gate is notified that a call was made.
    pub fn made(&mut self, call: Call, rule: Rule) {
        match self.next(rule) {
            Some(TraceEvent::Signed(Sign::After(made), _)) if *made == call => {}
            other => self.misses(other, rule),
        }
    }

    /// Expects that this is reported to the gate, with these octets.
    pub fn meets(&mut self, sign: Sign, octets: &[u8], rule: Rule) {
        match self.next(rule) {
            Some(TraceEvent::Signed(met, text)) if *met == sign => {
                self.keeps(rule, text.as_slice() == octets);
            }
            other => self.misses(other, rule),
        }
    }

    /// Expects the report that the home server is marked down. Returns the request by which it is.
    pub fn went_down(&mut self) -> Option<&'a DownBy> {
        match self.next(Rule::WENT_DOWN) {
            Some(TraceEvent::WentDown(down)) => down.as_ref(),
            other => {
                self.misses(other, Rule::WENT_DOWN);
                None
            }
        }
    }

    /// Expects that the wire draws octets, and returns them.
    pub fn draws(&mut self, rule: Rule) -> [u8; 16] {
        match self.next(rule) {
            Some(TraceEvent::Drew(octets)) => *octets,
            other => {
                self.misses(other, rule);
                [0; 16]
            }
        }
    }

    /// Expects that these octets are sent, and that the gate is notified right before.
    pub fn sends(&mut self, octets: &[u8], rule: Rule) -> Option<&'a Gone> {
        let Some(TraceEvent::Signed(Sign::Sends(to), text)) = self.next(rule) else {
            self.breaks(rule);
            return None;
        };
        let Some(TraceEvent::Went(gone)) = self.next(Rule::TOLD_SENDS) else {
            self.breaks(Rule::TOLD_SENDS);
            return None;
        };
        self.keeps(rule, gone.octets.as_slice() == octets);
        self.keeps(
            Rule::TOLD_SENDS,
            gone.to == *to && text.as_slice() == octets,
        );
        Some(gone)
    }

    /// Counts a datagram that was sent. If it was lost, expects the report of that.
    pub fn counts(&mut self, gone: &Gone) {
        if gone.is_handed_over {
            self.tally.sent = self.tally.sent.saturating_add(1);
        } else {
            self.fails(Sign::SendFault(gone.to), Rule::SEND_FAULT);
        }
    }
}

/// Returns the rule that an unexpected event breaks: the event's own rule, if it has one, and otherwise `rule`, by
/// which another event was expected.
fn rule_of(event: &TraceEvent, rule: Rule) -> Rule {
    match event {
        TraceEvent::Signed(sign, _) => rule_of_sign(*sign, rule),
        TraceEvent::Went(_) => Rule::SENDS_ONCE,
        _ => rule,
    }
}

fn rule_of_sign(sign: Sign, rule: Rule) -> Rule {
    match sign {
        Sign::Before(Call::Turn, _) => Rule::TURN,
        Sign::OfAnother => Rule::OWN_NAME,
        Sign::Sends(_) => Rule::SENDS_ONCE,
        Sign::ReceiveFault => Rule::RECEIVE_FAULT,
        Sign::SendFault(_) => Rule::SEND_FAULT,
        Sign::Took(..) => Rule::TOOK,
        Sign::Cut(_) => Rule::CUT,
        _ => rule,
    }
}
