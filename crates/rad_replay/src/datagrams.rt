//! How the datagrams of a script are made, and the words that describe them.

ghost use Rattle.std.specs.Prelude.{◌≤◌, length, IfSome};
ghost use Rattle.rad_replay.specs.Hex.{octets_of};

use crate::hex::Hex;
use crate::numbers::{next_u8, next_usize, next_word};
use crate::pieces::Pieces;

/// How a datagram is made.
#[derive(Clone, Copy)]
pub enum Packet<'a> {
    /// These octets.
    Raw(Hex<'a>),
    /// A packet, with these changes.
    Made(Template<'a>, Changes<'a>),
}

/// A packet that is made for the script.
#[derive(Clone, Copy)]
pub enum Template<'a> {
    /// A packet with the Authenticator that is valid for its sender.
    Make(Make<'a>),
    /// A Status-Server (RFC 5997 section 3).
    Status { identifier: u8 },
}

/// A packet with these parts.
#[derive(Clone, Copy)]
pub struct Make<'a> {
    pub code: u8,
    pub identifier: u8,
    /// The attributes. They are written unchanged, whether they are valid or not.
    pub attributes: Hex<'a>,
    ghost short: { length (octets_of attributes) ≤ 4076 },
}

/// The changes to a packet that was made, in this order.
#[derive(Clone, Copy)]
pub struct Changes<'a> {
    /// Whether the last octet of its Authenticator is changed, or of a Status-Server's Message-Authenticator.
    pub spoil: bool,
    /// The octets that are added at its end.
    pub pad: Hex<'a>,
    /// How many of the last octets are removed.
    pub cut: usize,
}

/// The most octets of a datagram (UDP over IPv4).
const MOST_OCTETS: usize = 65_507;

/// The most octets of attributes in a packet, whose Length is at most 4096.
const MOST_ATTRIBUTES: usize = 4076;

/// Reads how a datagram is made.
pub fn parse_packet<'a>(words: &mut Pieces<'a>) -> Option<Packet<'a>> {
    let word = next_word(words)?;
    if word == b"raw".as_slice() {
        let octets = parse_hex(words, MOST_OCTETS)?;
        return Some(Packet::Raw(octets));
    }
    parse_made(word, words)
}

fn parse_made<'a>(word: &'a [u8], words: &mut Pieces<'a>) -> Option<Packet<'a>> {
    let (changes, word) = parse_changes(word, words)?;
    let template = parse_template(word, words)?;
    Some(Packet::Made(template, changes))
}

/// Reads the changes to a packet, and the word after them.
fn parse_changes<'a>(word: &'a [u8], words: &mut Pieces<'a>) -> Option<(Changes<'a>, &'a [u8])> {
    let (spoil, word) = parse_spoil(word, words)?;
    let (pad, word) = parse_pad(word, words)?;
    let (cut, word) = parse_cut(word, words)?;
    Some((Changes { spoil, pad, cut }, word))
}

/// Reads whether a packet is spoiled, and the word after that.
fn parse_spoil<'a>(word: &'a [u8], words: &mut Pieces<'a>) -> Option<(bool, &'a [u8])> {
    if word == b"spoil".as_slice() {
        return Some((true, next_word(words)?));
    }
    Some((false, word))
}

/// Reads the octets that are added to a packet, and the word after them.
fn parse_pad<'a>(word: &'a [u8], words: &mut Pieces<'a>) -> Option<(Hex<'a>, &'a [u8])> {
    if word == b"pad".as_slice() {
        let octets = next_hex(words)?;
        return Some((octets, next_word(words)?));
    }
    Some((Hex::none(), word))
}

/// Reads how many octets are removed from a packet, and the word after that.
fn parse_cut<'a>(word: &'a [u8], words: &mut Pieces<'a>) -> Option<(usize, &'a [u8])> {
    if word == b"cut".as_slice() {
        let count = next_usize(words)?;
        return Some((count, next_word(words)?));
    }
    Some((0, word))
}

/// Reads how a packet is made, from this word on.
fn parse_template<'a>(word: &[u8], words: &mut Pieces<'a>) -> Option<Template<'a>> {
    match word {
        b"make" => parse_make(words),
        b"status" => {
            let identifier = next_u8(words)?;
            Some(Template::Status { identifier })
        }
        _ => None,
    }
}

fn parse_make<'a>(words: &mut Pieces<'a>) -> Option<Template<'a>> {
    let code = next_u8(words)?;
    let identifier = next_u8(words)?;
    let attributes = parse_hex(words, MOST_ATTRIBUTES)?;
    Some(Template::Make(Make {
        code,
        identifier,
        attributes,
    }))
}

/// Reads the next word as octets, if they are at most `most`.
fn parse_hex<'a>(words: &mut Pieces<'a>, most: usize) -> Option<Hex<'a>>
    ensures { IfSome result (λ octets. length (octets_of octets) ≤ most) }
{
    let octets = next_hex(words)?;
    if octets.count() > most {
        return None;
    }
    Some(octets)
}

fn next_hex<'a>(words: &mut Pieces<'a>) -> Option<Hex<'a>> {
    Hex::parse(next_word(words)?)
}
