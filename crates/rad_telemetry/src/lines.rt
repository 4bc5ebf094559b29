//! The log lines of sums, which are how many events of a kind happened since the last such line, of lines that were left out,
//! of a home server that is marked up, and the other end of a datagram in log lines.

ghost use Rattle.std.specs.Prelude.{◌≡◌};
ghost use Rattle.rad_telemetry.specs.Lines.{event_word, state_text};

use rad_desk::UpReason;
use rad_lane::LeftState;
use rad_metrics::{Counted, CountedEvent, Reason};
use rad_realms::{AddressText, Endpoint};
use std::fmt;

/// What was counted of an event since the last sum.
#[derive(Clone, Copy)]
pub struct Sum {
    pub event: CountedEvent,
    pub count: u64,
    /// The other end of the last one, if it had one.
    pub last: Endpoint,
    /// The most Proxy-States of this proxy's form that one request had; 0 if those are not counted.
    pub most_marks: u64,
}

/// The log line of a sum of a worker.
#[derive(Clone, Copy)]
pub struct SumLine<'a> {
    /// `front`, or the name of the lane's home server.
    pub name: &'a str,
    pub sum: Sum,
}

/// The log line of requests that were removed from the book of a lane.
#[derive(Clone, Copy)]
pub struct CutLine<'a> {
    /// The home server's name.
    pub home: &'a str,
    pub count: u64,
}

/// The log line of the requests that are left of a home server, besides those that were logged.
#[derive(Clone, Copy)]
pub struct OthersLine<'a> {
    /// The home server's name.
    pub home: &'a str,
    pub count: u64,
}

/// The log line of lines about what is traced that were left out.
#[derive(Clone, Copy)]
pub(crate) struct LeftOutLine(pub(crate) u64);

/// The log line of a home server that is marked up, for this reason.
#[derive(Clone, Copy)]
pub struct UpLine<'a> {
    /// The home server's name.
    pub home: &'a str,
    pub reason: UpReason,
}

/// How many datagrams of clients were dropped, or requests refused, for one reason.
#[derive(Clone, Copy)]
struct ClientSum(Sum);

/// How many requests that lead to this home server had Proxy-States of this proxy's form.
#[derive(Clone, Copy)]
struct MarkedSum<'a>(&'a str, Sum);

/// How many requests that were, and the most such Proxy-States that one had.
#[derive(Clone, Copy)]
struct MarkedCounts(u64, u64);

impl fmt::Display for SumLine<'_> {
    ghost use Rattle.std.specs.Prelude.{Some};
    ghost use Rattle.rad_telemetry.specs.Lines.{sum_line};

    ghost output = { λ line. Some (sum_line line.name.now line.sum) };

    fn fmt<W: fmt::Write>(&self, f: &mut fmt::Formatter<W>) -> fmt::Result {
        let SumLine { name, sum } = *self;
        let event = word_of(sum.event.metric);
        let reason = sum.event.reason.name();
        let count = sum.count;
        match sum.event.metric {
            Counted::Dropped | Counted::Refused => ClientSum(sum).fmt(f),
            Counted::Unheard => {
                write!(
                    f,
                    "event={event} home={name} reason=\"{reason}\" count={count}"
                )
            }
            Counted::Cut => CutLine { home: name, count }.fmt(f),
            Counted::Marked => MarkedSum(name, sum).fmt(f),
            _ => write!(f, "event={event} worker={name} count={count}"),
        }
    }
}

impl fmt::Display for ClientSum {
    ghost use Rattle.std.specs.Prelude.{Some};
    ghost use Rattle.rad_telemetry.specs.Lines.{client_sum};

    ghost output = { λ line. Some (client_sum line.0) };

    fn fmt<W: fmt::Write>(&self, f: &mut fmt::Formatter<W>) -> fmt::Result {
        let event = word_of(self.0.event.metric);
        let reason = self.0.event.reason.name();
        let count = self.0.count;
        let client = ClientText(self.0.last);
        write!(
            f,
            "event={event} reason=\"{reason}\" count={count} {client}"
        )
    }
}

impl fmt::Display for MarkedSum<'_> {
    ghost use Rattle.std.specs.Prelude.{Some};
    ghost use Rattle.rad_telemetry.specs.Lines.{marked_sum};

    ghost output = { λ line. Some (marked_sum line.0.now line.1) };

    fn fmt<W: fmt::Write>(&self, f: &mut fmt::Formatter<W>) -> fmt::Result {
        let MarkedSum(home, sum) = *self;
        let counts = MarkedCounts(sum.count, sum.most_marks);
        let client = ClientText(sum.last);
        write!(f, "event=marked home={home} {counts} {client}")
    }
}

impl fmt::Display for MarkedCounts {
    ghost use Rattle.std.specs.Prelude.{Some};
    ghost use Rattle.rad_telemetry.specs.Lines.{marked_counts};

    ghost output = { λ counts. Some (marked_counts counts.0 counts.1) };

    #[tactic(auto, unfolding(crate::specs::Lines::marked_counts))]
    fn fmt<W: fmt::Write>(&self, f: &mut fmt::Formatter<W>) -> fmt::Result {
        let MarkedCounts(count, most) = *self;
        write!(f, "count={count} proxy_states={most}")
    }
}

impl fmt::Display for CutLine<'_> {
    ghost use Rattle.std.specs.Prelude.{Some};
    ghost use Rattle.rad_telemetry.specs.Lines.{cut_line};

    ghost output = { λ line. Some (cut_line line.home.now line.count) };

    fn fmt<W: fmt::Write>(&self, f: &mut fmt::Formatter<W>) -> fmt::Result {
        let CutLine { home, count } = *self;
        write!(f, "event=cut home={home} count={count}")
    }
}

impl fmt::Display for OthersLine<'_> {
    ghost use Rattle.std.specs.Prelude.{Some};
    ghost use Rattle.rad_telemetry.specs.Lines.{others_line};

    ghost output = { λ line. Some (others_line line.home.now line.count) };

    fn fmt<W: fmt::Write>(&self, f: &mut fmt::Formatter<W>) -> fmt::Result {
        let OthersLine { home, count } = *self;
        write!(f, "event=left home={home} count={count}")
    }
}

impl fmt::Display for LeftOutLine {
    ghost use Rattle.std.specs.Prelude.{Some};
    ghost use Rattle.rad_telemetry.specs.Lines.{left_out_line};

    ghost output = { λ line. Some (left_out_line line.0) };

    fn fmt<W: fmt::Write>(&self, f: &mut fmt::Formatter<W>) -> fmt::Result {
        let count = self.0;
        write!(f, "event=trace-left-out count={count}")
    }
}

impl fmt::Display for UpLine<'_> {
    ghost use Rattle.std.specs.Prelude.{Some};
    ghost use Rattle.rad_telemetry.specs.Lines.{up_line};

    ghost output = { λ line. Some (up_line line) };

    fn fmt<W: fmt::Write>(&self, f: &mut fmt::Formatter<W>) -> fmt::Result {
        let home = self.home;
        let reason = Reason::Up(self.reason).name();
        write!(f, "event=up home={home} reason=\"{reason}\"")
    }
}

/// An IPv4 address and a UDP port.
#[derive(Clone, Copy)]
pub struct PeerText(pub Endpoint);

/// A client's IPv4 address and UDP port.
#[derive(Clone, Copy)]
pub struct ClientText(pub Endpoint);

#[derive(Clone, Copy)]
struct ClientPort(u16);

impl fmt::Display for PeerText {
    ghost use Rattle.std.specs.Prelude.{Some};
    ghost use Rattle.rad_telemetry.specs.Lines.{peer_text};

    ghost output = { λ peer. Some (peer_text peer.0) };

    fn fmt<W: fmt::Write>(&self, f: &mut fmt::Formatter<W>) -> fmt::Result {
        let address = AddressText(self.0.address);
        let port = self.0.port;
        write!(f, "address={address} port={port}")
    }
}

impl fmt::Display for ClientText {
    ghost use Rattle.std.specs.Prelude.{Some};
    ghost use Rattle.rad_telemetry.specs.Lines.{client_text};

    ghost output = { λ client. Some (client_text client.0) };

    fn fmt<W: fmt::Write>(&self, f: &mut fmt::Formatter<W>) -> fmt::Result {
        let address = AddressText(self.0.address);
        let port = ClientPort(self.0.port);
        write!(f, "client={address} {port}")
    }
}

impl fmt::Display for ClientPort {
    ghost use Rattle.std.specs.Prelude.{Some};
    ghost use Rattle.rad_telemetry.specs.Lines.{client_port_text};

    ghost output = { λ port. Some (client_port_text port.0) };

    #[tactic(auto, unfolding(crate::specs::Lines::client_port_text))]
    fn fmt<W: fmt::Write>(&self, f: &mut fmt::Formatter<W>) -> fmt::Result {
        let port = self.0;
        write!(f, "client_port={port}")
    }
}

fn word_of(metric: Counted) -> &'static str
    ensures { result.now ≡ event_word metric }
{
    match metric {
        Counted::Dropped => "dropped",
        Counted::Refused => "refused",
        Counted::Unheard => "unheard",
        Counted::SendFaults => "send-fault",
        Counted::ReceiveFaults => "receive-fault",
        Counted::Marked => "marked",
        _ => "cut",
    }
}

/// Returns the state in which a request is left, as a log line has it.
pub(crate) fn state_word(state: LeftState) -> &'static str
    ensures { result.now ≡ state_text state }
{
    match state {
        LeftState::Queued => "queued",
        LeftState::Outstanding => "outstanding",
        LeftState::Untaken => "untaken",
    }
}
