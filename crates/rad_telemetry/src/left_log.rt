//! A ledger that logs the requests that are left at the end.

ghost use Rattle.std.specs.Prelude.{◌≡◌};

use crate::event_log::EventLog;
use crate::lines::{ClientText, OthersLine, state_word};
use crate::packet_words::KeyWord;
use crate::workers::worker_name;
use rad_desk::{AcceptedRecord, Earlier, Ledger, LeftRecord, Wire, Worker, status_of};
use rad_lane::{Counts, Outgoing, session_of};
use rad_log::{Level, Log, WaitForRoom, logs_at, tell, tell_reason};
use rad_metrics::worker_row;
use rad_packet::read;
use rad_realms::Endpoint;
use std::fmt;
use std::sync::Wait;
use std::time::Clock;

/// How many requests of a home server are logged. Of the others the number is.
const MOST_LOGGED: u64 = 20;

/// The reason for which nothing is told of the requests that are left.
const NO_MEMORY: &str = "memory was refused";

/// A ledger that hands everything on to another one, and logs the requests that are left: at most 20 of each home server,
/// and then the number of the others. These lines wait for room in the log.
#[derive(Drop)]
pub struct LeftLog<'a, L, R, K: Drop> {
    pub(crate) rt: &'a R,
    pub(crate) events: EventLog<'a, L>,
    pub(crate) ledger: K,
    /// How many requests of the lane that is told were left so far.
    pub(crate) count: u64,
}

impl<L: Log + WaitForRoom, R: Clock + Wait, K: Ledger + Drop> Ledger for LeftLog<'_, L, R, K> {
    ghost kept = { λ log. K.kept log.ledger };

    ghost left = { λ log. K.left log.ledger };

    fn begin(&mut self) {
        self.ledger.begin();
    }

    fn accept(&mut self, accepted: &AcceptedRecord) {
        self.ledger.accept(accepted);
    }

    fn keep<W: Wire>(&mut self, outgoing: &Outgoing, wire: &W) {
        self.ledger.keep(outgoing, wire);
    }

    fn send_again(&mut self, lane: u16, number: u64, response: &[u8]) {
        self.ledger.send_again(lane, number, response);
    }

    fn send_earlier(&mut self, lane: u16, answer: Earlier) {
        self.ledger.send_earlier(lane, answer);
    }

    fn leave(&mut self, told: &LeftRecord<'_>) {
        if self.count < MOST_LOGGED {
            self.events.wait_for_room(self.rt);
            self.events.left(told);
        }
        self.count = self.count.saturating_add(1);
        self.ledger.leave(told);
    }

    fn end_lane(&mut self, lane: u16, counts: &Counts) {
        if self.count > MOST_LOGGED {
            self.events.wait_for_room(self.rt);
            self.events.others_left(lane, self.count - MOST_LOGGED);
        }
        self.count = 0;
        self.ledger.end_lane(lane, counts);
    }

    fn leave_untold(&mut self) {
        self.events.wait_for_room(self.rt);
        tell_reason(self.events.log, "left-untold", &NO_MEMORY);
        self.ledger.leave_untold();
    }
}

impl<L: Log + WaitForRoom> EventLog<'_, L> {
    /// Waits until there is room for a line of a request that is left, if such lines are logged.
    fn wait_for_room<R: Clock + Wait>(&self, rt: &R) {
        if logs_at(self.log, Level::Warn) {
            self.log.wait_for_room(rt);
        }
    }
}

impl<L: Log> EventLog<'_, L> {
    /// Logs a request that is left. Its user is omitted.
    fn left(&self, told: &LeftRecord<'_>) {
        let home = worker_name(self.config, worker_row(Worker::Lane(told.lane)));
        let line = LeftLine { home, told: *told };
        tell(self.log, Level::Warn, &line);
    }

    fn others_left(&self, lane: u16, count: u64) {
        let home = worker_name(self.config, worker_row(Worker::Lane(lane)));
        tell(self.log, Level::Warn, &OthersLine { home, count });
    }
}

#[derive(Clone, Copy)]
struct LeftLine<'a> {
    home: &'a str,
    told: LeftRecord<'a>,
}

/// A key and its number, with a space before them, if there is such a number.
#[derive(Clone, Copy)]
struct NumberWord(&'static str, Option<u64>);

impl fmt::Display for LeftLine<'_> {
    fn fmt<W: fmt::Write>(&self, f: &mut fmt::Formatter<W>) -> fmt::Result {
        let LeftLine { home, told } = *self;
        let (session, status) = match read(told.request) {
            Ok(packet) => (session_of(&packet), status_of(&packet)),
            Err(_) => (None, None),
        };
        let lane = told.lane;
        let number = told.number;
        let client = ClientText(Endpoint {
            address: told.client,
            port: told.port,
        });
        let identifier = told.identifier;
        let session = KeyWord("session", session);
        let status = NumberWord("status", status.map(u64::from));
        let state = state_word(told.state);
        let sendings = NumberWord("sendings", told.sendings.map(u64::from));
        let age = NumberWord("age", told.age);
        write!(
            f,
            "event=left home={home} lane={lane} number={number} {client} identifier={identifier}"
        )?;
        write!(f, "{session}{status} state={state}{sendings}{age}")?;
        if told.kept {
            f.write_str(" kept=true")?;
        }
        Ok(())
    }
}

impl fmt::Display for NumberWord {
    fn fmt<W: fmt::Write>(&self, f: &mut fmt::Formatter<W>) -> fmt::Result {
        match *self {
            NumberWord(key, Some(number)) => write!(f, " {key}={number}"),
            NumberWord(_, None) => Ok(()),
        }
    }
}
