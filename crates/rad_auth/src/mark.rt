//! The mark: the Proxy-State that the proxy adds to a forwarded request.

use crate::octets::put;

/// The length of the mark's attribute in octets: Type, Length and Value.
pub const MARK_LENGTH: usize = 12;

/// The length of its Value in octets.
pub(crate) const VALUE_LENGTH: usize = MARK_LENGTH - 2;

/// The Proxy-State (RFC 2865 section 5.33) that the proxy adds to a request and removes from the reply.
#[derive(Clone, Copy, Debug, PartialEq, Eq)]
pub struct Mark {
    /// The number of the request's lane.
    pub lane: u16,
    /// The number of the request in that lane.
    pub number: u64,
}

impl Mark {
    ghost use Rattle.std.specs.Prelude.{◌≡◌, length};
    ghost use Rattle.rad_auth.specs.Mark.{mark_value};

    /// Returns the mark's Value: lane and number, each with the most significant octet first.
    pub(crate) fn value(self) -> [u8; 10]
        ensures { result ≡ mark_value self }
    {
        let mut value = [0; 10];
        put(&mut value, &self.lane.to_be_bytes());
        put(&mut value[2..], &self.number.to_be_bytes());
        value
    }

    /// Returns the mark with this Value.
    pub(crate) fn of_value(value: &[u8]) -> Mark
        requires { length value.now ≡ 10 }
        ensures { mark_value result ≡ value.now }
    {
        let mut lane = [0; 2];
        put(&mut lane, &value[..2]);
        let mut number = [0; 8];
        put(&mut number, &value[2..]);
        Mark {
            lane: u16::from_be_bytes(lane),
            number: u64::from_be_bytes(number),
        }
    }
}
