//! The lines about the whole proxy: where it listens, the counts of its configuration, and what is left at the end.

use rad_realms::Endpoint;
use std::fmt;

/// The line of what is left at the end.
#[derive(Clone, Copy)]
pub struct EndLine {
    /// How many requests were never sent.
    pub queued: usize,
    /// How many requests were outstanding.
    pub outstanding: usize,
    /// How many responses were not taken, if that is known.
    pub untaken: Option<usize>,
}

/// How many responses were not taken, if that is known.
#[derive(Clone, Copy)]
struct UntakenText(Option<usize>);

/// The line of how many clients, home servers and realms a configuration has.
#[derive(Clone, Copy)]
pub struct CountLine {
    pub clients: usize,
    pub homes: usize,
    pub realms: usize,
}

/// The line of the address and port that receive the clients' datagrams.
#[derive(Clone, Copy)]
pub struct ListeningLine {
    pub endpoint: Endpoint,
}

impl EndLine {
    ghost use Rattle.std.specs.Prelude.{◌≡◌, ◌↔◌, IsTrue, Some};

    /// Returns whether it is known that nothing is left.
    pub fn is_clean(&self) -> bool
        ensures { IsTrue result ↔ ((self.now.queued ≡ 0) × (self.now.outstanding ≡ 0) × (self.now.untaken ≡ Some 0)) }
    {
        self.queued == 0 && self.outstanding == 0 && self.untaken == Some(0)
    }
}

impl fmt::Display for EndLine {
    ghost use Rattle.std.specs.Prelude.{Some};
    ghost use Rattle.rad_console.specs.Lines.{end_line};

    ghost output = { λ line. Some (end_line line) };

    fn fmt<W: fmt::Write>(&self, f: &mut fmt::Formatter<W>) -> fmt::Result {
        let queued = self.queued;
        let outstanding = self.outstanding;
        let untaken = UntakenText(self.untaken);
        write!(
            f,
            "end: queued {queued} outstanding {outstanding} {untaken}"
        )
    }
}

impl fmt::Display for UntakenText {
    ghost use Rattle.std.specs.Prelude.{Some};
    ghost use Rattle.rad_console.specs.Lines.{untaken_text};

    ghost output = { λ text. Some (untaken_text text.0) };

    fn fmt<W: fmt::Write>(&self, f: &mut fmt::Formatter<W>) -> fmt::Result {
        match self.0 {
            Some(untaken) => write!(f, "untaken {untaken}"),
            None => f.write_str("untaken unknown"),
        }
    }
}

impl fmt::Display for CountLine {
    ghost use Rattle.std.specs.Prelude.{Some};
    ghost use Rattle.rad_console.specs.Lines.{count_line};

    ghost output = { λ line. Some (count_line line) };

    fn fmt<W: fmt::Write>(&self, f: &mut fmt::Formatter<W>) -> fmt::Result {
        let clients = self.clients;
        let homes = self.homes;
        let realms = self.realms;
        write!(f, "clients {clients} homes {homes} realms {realms}")
    }
}

impl fmt::Display for ListeningLine {
    ghost use Rattle.std.specs.Prelude.{Some};
    ghost use Rattle.rad_console.specs.Lines.{listening_line};

    ghost output = { λ line. Some (listening_line line) };

    fn fmt<W: fmt::Write>(&self, f: &mut fmt::Formatter<W>) -> fmt::Result {
        let endpoint = self.endpoint;
        write!(f, "listening {endpoint}")
    }
}
