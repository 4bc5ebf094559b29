//! The words of a row.

ghost use Rattle.std.specs.Prelude.{◌≡◌, codes, bytes_eq};
ghost use Rattle.std.specs.Fmt.{WritesOnOk};
ghost use Rattle.std.specs.List.{flat_map, list_all};
ghost use Rattle.rad_audit.specs.Cells.{is_plain as the_is_plain, octet_cell, text_cell};

use crate::shown::{Within, write_characters};
use rad_log::Escaped;
use rad_realms::AddressText;
use std::fmt;

/// A value, or `-` where there is none. Control and format characters, `%`, `\` and octets that are no visible ASCII of a value that
/// is not UTF-8 are printed as `%` and two hexadecimal digits for each octet, and a value that is `-` as `%2d`.
#[derive(Clone, Copy)]
pub struct Cell<'a>(pub Option<&'a [u8]>);

/// A number, or `-` where there is none.
#[derive(Clone, Copy)]
pub struct NumberCell(pub Option<u64>);

/// A client's IPv4 address.
#[derive(Clone, Copy)]
pub struct ClientCell(pub [u8; 4]);

/// An octet of a value that is not UTF-8.
#[derive(Clone, Copy)]
struct Octet(u8);

impl fmt::Display for Cell<'_> {
    ghost use Rattle.std.specs.Prelude.{Some, option_copied};
    ghost use Rattle.rad_audit.specs.Cells.{value_cell};

    ghost output = { λ cell. Some (value_cell (option_copied cell.0)) };

    fn fmt<W: fmt::Write>(&self, f: &mut fmt::Formatter<W>) -> fmt::Result {
        let Some(octets) = self.0 else {
            return f.write_str("-");
        };
        if is_hyphen(octets) {
            return f.write_str("%2d");
        }
        match str::from_utf8(octets) {
            Ok(text) => write_text(f, text),
            Err(_) => write_octets(f, octets),
        }
    }
}

impl fmt::Display for NumberCell {
    ghost use Rattle.std.specs.Prelude.{Some};
    ghost use Rattle.rad_audit.specs.Cells.{number_cell};

    ghost output = { λ cell. Some (number_cell cell.0) };

    fn fmt<W: fmt::Write>(&self, f: &mut fmt::Formatter<W>) -> fmt::Result {
        match self.0 {
            Some(number) => write!(f, "{number}"),
            None => f.write_str("-"),
        }
    }
}

impl fmt::Display for ClientCell {
    ghost use Rattle.std.specs.Prelude.{Some};
    ghost use Rattle.rad_audit.specs.Cells.{client_cell};

    ghost output = { λ cell. Some (client_cell cell.0) };

    #[tactic(auto, unfolding(crate::specs::Cells::client_cell))]
    fn fmt<W: fmt::Write>(&self, f: &mut fmt::Formatter<W>) -> fmt::Result {
        let address = AddressText(self.0);
        write!(f, "{address}")
    }
}

/// Writes a text: as it is, where nothing in it is printed otherwise, and else one character after the other.
fn write_text<W: fmt::Write>(f: &mut fmt::Formatter<W>, text: &str) -> fmt::Result
    ensures { WritesOnOk W.write_str_gives f.old result (text_cell text.now) f.new }
{
    if are_plain(text.as_bytes()) {
        return f.write_str(text);
    }
    write_characters(f, text, Within::Row)
}

fn write_octets<W: fmt::Write>(f: &mut fmt::Formatter<W>, octets: &[u8]) -> fmt::Result
    ensures { WritesOnOk W.write_str_gives f.old result (flat_map octet_cell octets.now) f.new }
{
    for octet in octets {
        let octet = Octet(*octet);
        write!(f, "{octet}")?;
    }
    Ok(())
}

impl fmt::Display for Octet {
    ghost use Rattle.std.specs.Prelude.{Some};
    ghost use Rattle.rad_audit.specs.Cells.{octet_cell};

    ghost output = { λ octet. Some (octet_cell octet.0) };

    fn fmt<W: fmt::Write>(&self, f: &mut fmt::Formatter<W>) -> fmt::Result {
        let octet = self.0;
        if is_plain(octet) {
            let plain = char::from(octet);
            return write!(f, "{plain}");
        }
        let octets = Escaped {
            octets: &[octet],
            also: Some(b'\\'),
        };
        write!(f, "{octets}")
    }
}

fn is_hyphen(value: &[u8]) -> bool
    ensures { result ≡ bytes_eq value.now (codes "-") }
{
    value == b"-".as_slice()
}

fn are_plain(octets: &[u8]) -> bool
    ensures { result ≡ list_all the_is_plain octets.now }
{
    octets.iter().all(|octet| is_plain(*octet))
}

fn is_plain(octet: u8) -> bool
    ensures { result ≡ the_is_plain octet }
{
    octet >= b' ' && octet <= b'~' && octet != b'%' && octet != b'\\'
}
