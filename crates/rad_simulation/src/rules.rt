//! The rules that a run may break, with the texts that are printed.

use std::alloc::{AllocError, AllocFailed};
use std::fmt;

/// A rule of docs/protocol.md, or of what a worker asks its gate and reports to it, in words.
#[derive(Clone, Copy)]
pub struct Rule(&'static str);

impl Rule {
    pub const MEMORY: Rule = Rule("memory is ample");

    pub const CONFIGURATION: Rule = Rule("the configuration is read, and its lanes are opened");

    pub const RECEIVE: Rule = Rule("a turn begins with one receive");

    pub const WOKE: Rule = Rule("the gate is told that a receive returned, before all else");

    pub const GOES_ON: Rule = Rule("a worker goes on until its turns are over or it is stopped");

    pub const STOPS: Rule = Rule("a worker that is stopped does nothing more");

    pub const ENDS: Rule = Rule("a worker does nothing more once its turns are over");

    pub const TOLD_RECEIVED: Rule = Rule("the gate is told what came, right after");

    pub const RECEIVE_FAULT: Rule = Rule("a receive that fails is noted once, and ends nothing");

    pub const SEND_FAULT: Rule = Rule("a send that fails is noted once, and ends nothing");

    pub const TOLD_SENDS: Rule = Rule("the gate is told what is to be sent, right before");

    pub const SENDS_ONCE: Rule = Rule("a worker sends what a rule asks for, once, and no more");

    pub const OWN_NAME: Rule = Rule("a worker asks and tells in its own name");

    pub const DROPPED: Rule = Rule("what is no right request is dropped, its first reason noted");

    pub const REQUESTED: Rule = Rule("the gate is told by which realm a request came, if by one");

    pub const MARKED: Rule = Rule("the gate is told how many marks of this form a request has");

    pub const ACCEPT: Rule = Rule("the front asks before a lane takes a request, and tells after");

    pub const ACCEPTED: Rule = Rule("a new request is accepted by its lane under the next number");

    pub const REFUSED: Rule = Rule("a request is refused by a rule, and the first reason noted");

    pub const AGAIN: Rule = Rule(
        "a repeat is answered again within the span, with the same octets, and waits before",
    );

    pub const STATUS: Rule = Rule("a right Status-Server is answered, to where it came from");

    pub const TAKE: Rule = Rule("the front takes from each inlet once in each turn, in order");

    pub const RESPONSE: Rule = Rule("each response goes out once, in order of answering, as made");

    pub const CLIENT: Rule = Rule("what answers a client goes to the address and port that asked");

    pub const LISTEN_SOCKET: Rule = Rule(
        "what answers at once leaves by the socket that was asked, and a response by the first one",
    );

    pub const TOOK: Rule = Rule("a response that was sent is noted by its lane and serial");

    pub const NOT_HOME: Rule = Rule("what another endpoint than the home server sent is dropped");

    pub const HEAR: Rule = Rule("a worker asks before its lane hears, and tells after");

    pub const ANSWERED: Rule = Rule("a verified reply to what is out is its answer, by its serial");

    pub const PROBE_ANSWERED: Rule = Rule("the right answer to the probe takes the lane up");

    pub const UNHEARD: Rule = Rule("what is no verified reply is dropped, its first reason noted");

    pub const STEP: Rule = Rule("a lane does one thing in each turn");

    pub const FIRST_SENDING: Rule = Rule(
        "the queue's first is sent at once where the window has room, with the mark, under the next pair",
    );

    pub const RESENDING: Rule = Rule("what is due is sent again, when due, with the same octets");

    pub const PROBE: Rule = Rule(
        "a lane that is down probes at once and each probe_every, with the octets drawn",
    );

    pub const SOURCE_PORT: Rule = Rule("what goes to a home server leaves from its source port");

    pub const HOME: Rule = Rule("what a lane sends goes to its home server");

    pub const WENT_DOWN: Rule = Rule("a lane goes down when what is due is spent, and not before");

    pub const DOWN_BY: Rule = Rule("the gate is told by which request a lane went down");

    pub const WENT_UP: Rule = Rule("a lane that is down goes up once its time is over");

    pub const IDLE: Rule = Rule("a lane that has nothing due and nothing to send is idle");

    pub const MUST_TURN: Rule = Rule("a book that is half full is turned at each idle step");

    pub const TURN: Rule = Rule("a book is turned where it is half full, by its own worker");

    pub const CUT: Rule = Rule("a turn cuts the first requests that are over, and notes how many");

    pub const TALLY: Rule = Rule("the tally counts turns, datagrams and faults, each once");

    pub const COUNTS: Rule = Rule("the counts of each lane are those of its book");

    pub const DRAIN: Rule = Rule("a drain tells how many requests were accepted until then");

    pub const SENT_ALIKE: Rule = Rule("what a lane sends for one request has the same octets");

    pub const ACKNOWLEDGED: Rule = Rule(
        "a NAS is answered only for what a home server received, and with what it replied",
    );

    pub const TOLD: Rule = Rule("what a NAS is told is valid for something that it asked");

    pub const SETTLES: Rule = Rule(
        "at one moment a lane takes no more steps than its window, and one",
    );

    pub const COMES_UP: Rule = Rule("a lane that is down goes up at the first step after its wait");

    pub const SERVES: Rule = Rule(
        "a lane whose home server answers is served in a round, and one for each window of its queue",
    );

    pub const CLOSE: Rule = Rule("the proxy is closed, and each lane has an end");

    pub const CLOSE_COUNTS: Rule = Rule("the end tells the counts of the book");

    pub const CLOSE_ACCEPTED: Rule = Rule("the end tells what the book still held, as accepted");

    pub const CLOSE_ANSWERED: Rule = Rule(
        "the end tells the answers that the book held, in order of answering",
    );

    pub const CLOSE_OUTSTANDING: Rule = Rule("the end tells what is outstanding, under its pairs");

    pub const CLOSE_REST: Rule = Rule("the end tells the responses that nobody took");

    pub const CLOSE_QUEUED: Rule = Rule("the end tells what was never sent, lane by lane");

    pub const OPENS: Rule = Rule("a spool is opened, and nothing in it is damaged");

    pub const NEVER_CAME: Rule = Rule("a start offers only what a lane had accepted, as it came");

    pub const IN_ORDER: Rule = Rule("a start offers each once, in the order of arrival");

    pub const OFFERED_AGAIN: Rule = Rule("nothing is offered again whose answer was synced");

    pub const LOST: Rule = Rule("what was synced and not answered is offered by the next start");

    pub const LOST_IN_ORDER: Rule = Rule("a stop in order loses no more than it counts");

    pub const LOST_BY_LANE: Rule = Rule("what a lane took and did not answer, it has");

    pub const WAITS: Rule = Rule("what a start offered and no lane took yet waits");

    pub const FORGOTTEN: Rule = Rule("an answer that was synced is remembered for its span");

    pub const ANEW: Rule = Rule("nothing is taken anew within the span of a synced answer");

    pub const BEFORE_NEWER: Rule = Rule(
        "a lane takes what earlier runs left in order, before newer",
    );

    pub const SAME_ANSWER: Rule = Rule(
        "a repeat gets the octets of an earlier run within the span",
    );

    pub const LEFT: Rule = Rule("all that is left is served once home servers answer");

    /// Returns the rule as an error if `is_kept` is false.
    pub fn unless(self, is_kept: bool) -> Result<(), Rule> {
        if is_kept { Ok(()) } else { Err(self) }
    }
}

impl From<AllocError> for Rule {
    fn from(_error: AllocError) -> Rule {
        Rule::MEMORY
    }
}

impl<T: Drop> From<AllocFailed<T>> for Rule {
    fn from(_failed: AllocFailed<T>) -> Rule {
        Rule::MEMORY
    }
}

impl fmt::Display for Rule {
    fn fmt<W: fmt::Write>(&self, f: &mut fmt::Formatter<W>) -> fmt::Result {
        f.write_str(self.0)
    }
}
