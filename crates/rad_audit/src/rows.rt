//! The rows: a record on one line, as words with a tab between, for other programs to read.

ghost use Rattle.std.specs.Prelude.{◌≡◌, MatchOption};
ghost use Rattle.rad_packet.specs.Packet.{IsPacketText};
ghost use Rattle.rad_audit.specs.Rows.{row_of, row_of_left, name_of, name_words, words_of};

use crate::cells::{Cell, ClientCell, NumberCell};
use crate::facts::Facts;
use crate::printing::LinePlace;
use ledger_rules::{Entry, Left, LeftState, LineRequest, whole_packet};
use std::fmt;

/// What became of a record.
#[derive(Clone, Copy, Debug, PartialEq, Eq)]
pub enum State {
    /// The client got a response.
    Answered,
    /// It was left when the run ended: this is how.
    Left(LeftState),
}

/// What the line of a record says of it, by which it is found.
#[derive(Clone, Copy)]
pub struct RecordName<'a> {
    /// The name of the run.
    pub run: u64,
    /// The number of the lane.
    pub lane: u16,
    /// How many responses the lane had before that to this record, if there is one.
    pub serial: Option<u64>,
    /// The number of the record in its lane.
    pub number: u64,
    /// When its line was made.
    pub time: &'a str,
    /// The client's IPv4 address.
    pub client: [u8; 4],
    /// The UDP port that the request came from.
    pub port: u16,
}

/// The name of a run, as sixteen hexadecimal digits.
#[derive(Clone, Copy)]
pub struct RunText(pub u64);

/// The row of a record.
#[derive(Clone, Copy)]
pub struct Row<'a> {
    pub place: LinePlace<'a>,
    pub name: RecordName<'a>,
    pub facts: Facts<'a>,
    pub state: State,
}

impl<'a> Row<'a> {
    /// Returns the row of an entry, if its packets are packets.
    pub fn of_entry(place: LinePlace<'a>, entry: &Entry<'a>) -> Option<Row<'a>>
        ensures { MatchOption result (¬ (IsPacketText entry.now.sent.now × IsPacketText entry.now.response.now)) (λ row. words_of row ≡ row_of place.entry entry.now) }
    {
        let sent = whole_packet(entry.sent)?;
        let response = whole_packet(entry.response)?;
        Some(Row {
            place,
            name: RecordName::of(&entry.about, Some(entry.serial)),
            facts: Facts::of(response.identifier(), entry.about.home, &sent),
            state: State::Answered,
        })
    }

    /// Returns the row of a request that was left, if its packet is one.
    pub fn of_left(place: LinePlace<'a>, left: &Left<'a>) -> Option<Row<'a>>
        ensures { MatchOption result (¬ IsPacketText left.now.request.now) (λ row. words_of row ≡ row_of_left place.entry left.now) }
    {
        let request = whole_packet(left.request)?;
        Some(Row {
            place,
            name: RecordName::of(&left.about, None),
            facts: Facts::of(left.about.identifier, left.about.home, &request),
            state: State::Left(left.state),
        })
    }
}

impl<'a> RecordName<'a> {
    fn of(about: &LineRequest<'a>, serial: Option<u64>) -> RecordName<'a>
        ensures { name_words result ≡ name_of about.now serial }
    {
        RecordName {
            run: about.run,
            lane: about.lane,
            serial,
            number: about.number,
            time: about.time,
            client: about.client,
            port: about.port,
        }
    }
}

impl fmt::Display for Row<'_> {
    ghost use Rattle.std.specs.Prelude.{Some};
    ghost use Rattle.rad_audit.specs.Rows.{with_tabs, words_of};

    ghost output = { λ row. Some (with_tabs (words_of row)) };

    fn fmt<W: fmt::Write>(&self, f: &mut fmt::Formatter<W>) -> fmt::Result {
        let file = Cell(Some(self.place.file.as_bytes()));
        let line = self.place.line;
        let name = self.name;
        let facts = self.facts;
        let state = self.state;
        write!(f, "{file}\t{line}\t{name}\t{facts}\t{state}")
    }
}

impl fmt::Display for RecordName<'_> {
    ghost use Rattle.std.specs.Prelude.{Some};
    ghost use Rattle.rad_audit.specs.Rows.{name_words, with_tabs};

    ghost output = { λ name. Some (with_tabs (name_words name)) };

    fn fmt<W: fmt::Write>(&self, f: &mut fmt::Formatter<W>) -> fmt::Result {
        let run = RunText(self.run);
        let lane = self.lane;
        let serial = NumberCell(self.serial);
        let number = self.number;
        let time = Cell(Some(self.time.as_bytes()));
        let client = ClientCell(self.client);
        let port = self.port;
        write!(
            f,
            "{run}\t{lane}\t{serial}\t{number}\t{time}\t{client}\t{port}"
        )
    }
}

impl fmt::Display for RunText {
    ghost use Rattle.std.specs.Prelude.{Some};
    ghost use Rattle.rad_audit.specs.Printed.{run_text};

    ghost output = { λ run. Some (run_text run.0) };

    fn fmt<W: fmt::Write>(&self, f: &mut fmt::Formatter<W>) -> fmt::Result {
        let run = self.0;
        write!(f, "{run:016x}")
    }
}

impl fmt::Display for State {
    ghost use Rattle.std.specs.Prelude.{Some};
    ghost use Rattle.rad_audit.specs.Rows.{state_word};

    ghost output = { λ state. Some (state_word state) };

    fn fmt<W: fmt::Write>(&self, f: &mut fmt::Formatter<W>) -> fmt::Result {
        match self {
            State::Answered => f.write_str("answered"),
            State::Left(LeftState::Queued) => f.write_str("queued"),
            State::Left(LeftState::Outstanding) => f.write_str("outstanding"),
            State::Left(LeftState::Untaken) => f.write_str("untaken"),
        }
    }
}
