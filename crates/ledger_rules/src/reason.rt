//! What is wrong with a line.

use std::fmt;

/// What is wrong with a line. The first reason in this order counts.
#[derive(Clone, Copy, Debug, PartialEq, Eq)]
pub enum Reason {
    /// It is not a line of a ledger.
    NotEntry,
    /// What was sent, the reply, the response or the request that was left is not a packet.
    NoPacket,
    /// What was sent is not valid under the home server's secret, or does not end with the mark of its lane and number. Of a
    /// request that was left: it is not the one that the line names, or is not valid under the client's secret.
    WrongSent,
    /// The request is not valid under the client's secret: an Accounting-Request with the Identifier and the Authenticator of the
    /// line, and with the attributes of what was sent but for the mark.
    WrongRequest,
    /// The reply is not valid for what was sent.
    WrongReply,
    /// The response is not the reply without the mark, or is not valid for the request under the client's secret.
    WrongResponse,
    /// The serial is not above the last one.
    SerialNotAbove,
    /// The run does not name the lane.
    UnknownLane,
    /// Another line of the lane has its number.
    RecordTwice,
    /// It tells of a record that has no line of the lane before it.
    UnknownRecord,
    /// Its words are not those of the request.
    WrongWords,
    /// The file was read before, or comes too late.
    FileAgain,
    /// Its lanes are not those of the run, or a serial is below that of the lane's next response.
    OtherLanes,
    /// Its sum is not that of the line before it and of its own octets.
    WrongSum,
}

impl fmt::Display for Reason {
    ghost use Rattle.std.specs.Prelude.{Some};
    ghost use Rattle.ledger_rules.specs.Printed.{reason_text};

    ghost output = { λ reason. Some (reason_text reason) };

    fn fmt<W: fmt::Write>(&self, f: &mut fmt::Formatter<W>) -> fmt::Result {
        match self {
            Reason::NotEntry => f.write_str("NotEntry"),
            Reason::NoPacket => f.write_str("NoPacket"),
            Reason::WrongSent => f.write_str("WrongSent"),
            Reason::WrongRequest => f.write_str("WrongRequest"),
            Reason::WrongReply => f.write_str("WrongReply"),
            Reason::WrongResponse => f.write_str("WrongResponse"),
            Reason::SerialNotAbove => f.write_str("SerialNotAbove"),
            Reason::UnknownLane => f.write_str("UnknownLane"),
            Reason::RecordTwice => f.write_str("RecordTwice"),
            Reason::UnknownRecord => f.write_str("UnknownRecord"),
            Reason::WrongWords => f.write_str("WrongWords"),
            Reason::FileAgain => f.write_str("FileAgain"),
            Reason::OtherLanes => f.write_str("OtherLanes"),
            Reason::WrongSum => f.write_str("WrongSum"),
        }
    }
}
