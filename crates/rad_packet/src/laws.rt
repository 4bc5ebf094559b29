//! Theorems about the definitions. Each function has an empty body; its contract states the theorem.

ghost use Rattle.std.specs.Prelude.{◌≡◌, ◌++◌, List, ℕ};
ghost use Rattle.rad_packet.specs.Attribute.{Attribute, IsJoined, attributes_of, joined};
ghost use Rattle.rad_packet.specs.Packet.{IsPacketText};
ghost use Rattle.rad_packet.specs.Reading.{ReadsAs, Refuses};
ghost use Rattle.rad_packet.specs.declared.faults.ReadFault.{ReadFault};

/// The attributes read from the concatenated octets of attributes are these attributes.
pub fn attributes_of_joined()
    ensures { (octets : List ℕ) (attributes : List Attribute) → IsJoined octets attributes → attributes_of octets ≡ attributes }
{}

/// A datagram is read as at most one packet.
pub fn one_packet()
    ensures { (datagram p q : List ℕ) → ReadsAs datagram p → ReadsAs datagram q → p ≡ q }
{}

/// A packet followed by any octets is read as that packet.
pub fn padding_is_ignored()
    ensures { (packet padding : List ℕ) → IsPacketText packet → ReadsAs (packet ++ padding) packet }
{}

/// A datagram that is read as a packet has no fault, and no datagram is refused for two faults.
pub fn refused_or_read()
    ensures read { (datagram packet : List ℕ) (fault : ReadFault) → ReadsAs datagram packet → Refuses datagram fault → ⊥ }
    ensures fault { (datagram : List ℕ) (e f : ReadFault) → Refuses datagram e → Refuses datagram f → e ≡ f }
{}
