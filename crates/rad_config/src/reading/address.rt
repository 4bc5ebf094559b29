//! IPv4 addresses and UDP ports: reading them from text, and printing them.

ghost use Rattle.std.specs.Prelude.{◌≡◌, ◌<◌, ◌≤◌, ◌^◌, true, option_map, MatchOption};
ghost use Rattle.std.specs.List.{list_all};
ghost use Rattle.std.specs.Char.{is_ascii_digit};
ghost use Rattle.std.specs.Str.Parse.{digits_value};
ghost use Rattle.rad_config.specs.Address.{is_number, number_in, around_first, address_in, endpoint_in};

use std::fmt;

/// An IPv4 address and a UDP port. It is printed as the address in dotted decimal, a colon, and the port.
#[derive(Clone, Copy, Debug, PartialEq, Eq)]
pub struct Endpoint {
    /// The address: four octets, in the order in which they are written.
    pub address: [u8; 4],
    /// The port.
    pub port: u16,
}

/// An IPv4 address: four octets, in the order in which they are written. It is printed in dotted decimal.
#[derive(Clone, Copy, Debug, PartialEq, Eq)]
pub struct AddressText(pub [u8; 4]);

impl fmt::Display for AddressText {
    ghost use Rattle.std.specs.Prelude.{Some};
    ghost use Rattle.rad_config.specs.Printed.{address_text};

    ghost output = { λ address. Some (address_text address.0) };

    fn fmt<W: fmt::Write>(&self, f: &mut fmt::Formatter<W>) -> fmt::Result {
        let [a, b, c, d] = self.0;
        write!(f, "{a}.{b}.{c}.{d}")
    }
}

impl fmt::Display for Endpoint {
    ghost use Rattle.std.specs.Prelude.{Some};
    ghost use Rattle.rad_config.specs.Printed.{endpoint_text};

    ghost output = { λ endpoint. Some (endpoint_text endpoint) };

    fn fmt<W: fmt::Write>(&self, f: &mut fmt::Formatter<W>) -> fmt::Result {
        let address = AddressText(self.address);
        let port = self.port;
        write!(f, "{address}:{port}")
    }
}

/// Reads an IPv4 address from its text: four decimal numbers from 0 to 255 without leading zeros, joined by dots.
/// Returns `None` for any other text.
#[tactic(auto, unfolding(crate::specs::Address::address_in))]
pub fn read_address(text: &str) -> Option<[u8; 4]>
    ensures { result ≡ address_in text.now }
{
    let (first, rest) = split_around(text, '.')?;
    let (second, rest) = split_around(rest, '.')?;
    let (third, fourth) = split_around(rest, '.')?;
    let first = read_octet(first)?;
    let second = read_octet(second)?;
    let third = read_octet(third)?;
    let fourth = read_octet(fourth)?;
    Some([first, second, third, fourth])
}

#[tactic(auto, unfolding(crate::specs::Address::endpoint_in))]
pub(crate) fn read_endpoint(text: &str) -> Option<Endpoint>
    ensures { result ≡ endpoint_in text.now }
{
    let (front, back) = split_around(text, ':')?;
    let address = read_address(front)?;
    let port = read_number(1, 65535, back)?;
    Some(Endpoint { address, port })
}

#[tactic(auto, unfolding(crate::specs::Address::number_in))]
fn read_octet(text: &str) -> Option<u8>
    ensures { result ≡ number_in 0 255 text.now }
{
    let number = read_number(0, 255, text)?;
    Some(number as u8)
}

/// Reads a decimal number from `least` to `most`, without leading zeros. Returns `None` for any other text.
#[tactic(auto, unfolding(crate::specs::Address::number_in))]
pub fn read_number(least: u16, most: u16, text: &str) -> Option<u16>
    ensures { result ≡ number_in least most text.now }
{
    if !is_number_text(text.as_bytes()) {
        return None;
    }
    match parse_number(text) {
        Some(number) if least <= number && number <= most => Some(number),
        _ => None,
    }
}

fn is_number_text(text: &[u8]) -> bool
    ensures { result ≡ is_number text.now }
{
    if text.is_empty() || (text.len() > 1 && text[0] == b'0') {
        return false;
    }
    are_digits(text)
}

/// Returns the parts of a text before and after the first delimiter, an ASCII character. Returns `None` if it isn't there.
#[tactic(auto, unfolding(crate::specs::Address::around_first))]
pub fn split_around(text: &str, delimiter: char) -> Option<(&str, &str)>
    requires { delimiter < 128 }
    ensures { option_map (λ parts. (parts.0.now, parts.1.now)) result ≡ around_first delimiter text.now }
{
    text.split_once(delimiter)
}

/// For the proof: whether all of these octets are digits.
fn are_digits(text: &[u8]) -> bool
    ensures { result ≡ list_all is_ascii_digit text.now }
{
    text.iter().all(|octet| octet.is_ascii_digit())
}

/// For the proof: parses digits as a number below 65536.
fn parse_number(text: &str) -> Option<u16>
    requires { is_number text.now ≡ true }
    ensures { MatchOption result (2 ^ 16 ≤ digits_value 10 text.now) (λ number. number ≡ digits_value 10 text.now) }
{
    text.parse::<u16>().ok()
}
