//! Why a datagram is not a packet, and why an attribute is not appended.

use std::error::Error;
use std::fmt;

/// Why a datagram is not a packet. The first fault that applies, in this order, is reported.
#[derive(Clone, Copy, Debug, PartialEq, Eq)]
pub enum ReadFault {
    /// The datagram has fewer than 20 octets.
    Short,
    /// Length is below 20 or above 4096.
    BadLength,
    /// The datagram has fewer octets than Length says.
    Truncated,
    /// An attribute is invalid: its Length is below 2 or exceeds the rest of the packet, or a single octet is left
    /// for it. The number is the offset of the first such attribute from the packet's start.
    BadAttribute(usize),
}

/// Why attributes are not appended to a packet. The first fault that applies, in this order, is reported.
#[derive(Clone, Copy, Debug, PartialEq, Eq)]
pub enum WriteFault {
    /// The Value has more than 253 octets.
    ValueTooLong,
    /// The packet would be longer than 4096 octets.
    PacketTooLong,
}

impl fmt::Display for ReadFault {
    ghost use Rattle.std.specs.Prelude.{Some};
    ghost use Rattle.rad_packet.specs.Faults.{read_fault_text};

    ghost output = { λ fault. Some (read_fault_text fault) };

    fn fmt<W: fmt::Write>(&self, f: &mut fmt::Formatter<W>) -> fmt::Result {
        match self {
            ReadFault::Short => f.write_str("Short"),
            ReadFault::BadLength => f.write_str("BadLength"),
            ReadFault::Truncated => f.write_str("Truncated"),
            ReadFault::BadAttribute(place) => write!(f, "BadAttribute {place}"),
        }
    }
}

impl Error for ReadFault {}

impl fmt::Display for WriteFault {
    ghost use Rattle.std.specs.Prelude.{Some};
    ghost use Rattle.rad_packet.specs.Faults.{write_fault_text};

    ghost output = { λ fault. Some (write_fault_text fault) };

    fn fmt<W: fmt::Write>(&self, f: &mut fmt::Formatter<W>) -> fmt::Result {
        match self {
            WriteFault::ValueTooLong => f.write_str("ValueTooLong"),
            WriteFault::PacketTooLong => f.write_str("PacketTooLong"),
        }
    }
}

impl Error for WriteFault {}
