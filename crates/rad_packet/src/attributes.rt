//! The attributes of a packet.

use std::marker::Model;

/// An attribute (RFC 2865 section 5): its Type, and its Value of at most 253 octets.
#[derive(Clone, Copy, Debug, PartialEq, Eq)]
pub struct AttributeRef<'a> {
    /// The Type.
    pub kind: u8,
    /// The Value.
    pub value: &'a [u8],
}

/// The attributes of a packet, in order.
#[derive(Drop)]
pub struct Attributes<'a> {
    /// The octets of the attributes that are not yet returned.
    rest: &'a [u8],
}

impl<'a> Model for Attributes<'a> {
    ghost use Rattle.std.specs.Prelude.{List, ℕ};
    ghost use Rattle.rad_packet.specs.Attribute.{AreAttributes};

    ghost Value = { List ℕ };

    ghost view = { λ s. s.rest.now };

    ghost invariant = { λ s. AreAttributes s.rest.now };
}

impl<'a> Attributes<'a> {
    ghost use Rattle.std.specs.Prelude.{◌≡◌};
    ghost use Rattle.rad_packet.specs.Attribute.{AreAttributes};

    /// Iterates over the attributes in these octets.
    pub(crate) fn over(rest: &'a [u8]) -> Self
        requires { AreAttributes rest.now }
        ensures { result ≡ rest.now }
    {
        Attributes { rest }
    }
}

impl<'a> Iterator for Attributes<'a> {
    type Item = AttributeRef<'a>;

    ghost use Rattle.std.specs.Iterator.{YieldsFirstBy, item_count};
    ghost use Rattle.rad_packet.specs.Attribute.{attributes_of};
    ghost use Rattle.rad_packet.specs.Item.{attribute_at};

    ghost next_gives = { YieldsFirstBy attribute_at attributes_of };

    ghost remaining = { item_count attributes_of };

    fn next(&mut self) -> Option<AttributeRef<'a>> {
        let [kind, length, rest @ ..] = self.rest else {
            return None;
        };
        let (value, rest) = rest.split_at(usize::from(*length) - 2);
        self.rest = rest;
        Some(AttributeRef { kind: *kind, value })
    }
}
