//! RADIUS packets (RFC 2866 section 3, RFC 2865 sections 3 and 5): reads a datagram as a packet, and writes a
//! packet into a datagram. Nothing here allocates.
//!
//! Contracts describe a packet by its text, the list of its octets. The definitions are in `specs/`: `Attribute.antt`
//! and `Packet.antt` (the text of a packet), `Item.antt` (the value of a borrowed attribute), `Place.antt` (the place
//! of an attribute), `Reading.antt` (reading a datagram), `Writing.antt` (which attributes are not appended), and
//! `Faults.antt` (the printed text of a fault).
#![tactic(auto)]

mod attributes;
mod authenticator;
mod datagram;
mod faults;
mod laws;
mod packet_ref;
mod reading;

pub use attributes::{AttributeRef, Attributes};
pub use authenticator::authenticator_of;
pub use datagram::Datagram;
pub use faults::{ReadFault, WriteFault};
pub use laws::{attributes_of_joined, one_packet, padding_is_ignored, refused_or_read};
pub use packet_ref::{AttributePlace, PacketRef};
pub use reading::read;

/// The length of the header in octets: Code, Identifier, Length and Authenticator.
pub const HEADER_LENGTH: usize = 20;

/// The greatest Length of a packet that is read or written (RFC 2865 section 3).
pub const GREATEST_LENGTH: usize = 4096;
