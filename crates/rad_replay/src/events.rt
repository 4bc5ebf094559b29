//! The events of a script, one on each line.

use crate::datagrams::{Packet, Template, parse_packet};
use crate::numbers::{next_address, next_u16, next_usize, next_word};
use crate::pieces::Pieces;
use rad_console::Command;

/// An event that happens to the proxy.
#[derive(Clone, Copy)]
pub enum ScriptEvent<'a> {
    /// A datagram arrives from a NAS.
    Nas {
        address: [u8; 4],
        port: u16,
        packet: Packet<'a>,
    },
    /// A datagram arrives from the home server of a lane at this source port.
    Home {
        lane: u16,
        port: u16,
        packet: Packet<'a>,
    },
    /// The first response that waits in a lane's ring is taken.
    Take {
        lane: u16,
    },
    /// A lane does its next step.
    Step {
        lane: u16,
    },
    /// A lane removes a volume from its book.
    Turn {
        lane: u16,
    },
    /// The following events happen at this moment.
    At {
        milliseconds: u64,
    },
    /// The console executes a command.
    Console(Command),
}

impl<'a> ScriptEvent<'a> {
    /// Reads the event of a line, if the line is one.
    pub fn parse(line: &'a [u8]) -> Option<Self> {
        let mut words = Pieces::new(line, b' ');
        parse_line(&mut words)
    }
}

fn parse_line<'a>(words: &mut Pieces<'a>) -> Option<ScriptEvent<'a>> {
    let first = next_word(words)?;
    let event = parse_event(first, words)?;
    match next_word(words) {
        Some(_) => None,
        None => Some(event),
    }
}

fn parse_event<'a>(first: &[u8], words: &mut Pieces<'a>) -> Option<ScriptEvent<'a>> {
    match first {
        b"nas" => parse_nas(words),
        b"home" => parse_home(words),
        b"at" => parse_at(words),
        _ => match Command::of(first) {
            Command::Unknown => parse_act(first, words),
            command => Some(ScriptEvent::Console(command)),
        },
    }
}

fn parse_act<'a>(first: &[u8], words: &mut Pieces<'a>) -> Option<ScriptEvent<'a>> {
    let lane = next_u16(words)?;
    match first {
        b"take" => Some(ScriptEvent::Take { lane }),
        b"step" => Some(ScriptEvent::Step { lane }),
        b"turn" => Some(ScriptEvent::Turn { lane }),
        _ => None,
    }
}

fn parse_nas<'a>(words: &mut Pieces<'a>) -> Option<ScriptEvent<'a>> {
    let address = next_address(words)?;
    let port = next_u16(words)?;
    let packet = parse_packet(words)?;
    Some(ScriptEvent::Nas {
        address,
        port,
        packet,
    })
}

/// Reads the words after `home`, which describe no Status-Server, since a home server sends none.
fn parse_home<'a>(words: &mut Pieces<'a>) -> Option<ScriptEvent<'a>> {
    let (lane, port) = parse_source(next_word(words)?)?;
    match parse_packet(words)? {
        Packet::Made(Template::Status { .. }, _) => None,
        packet => Some(ScriptEvent::Home { lane, port, packet }),
    }
}

/// Reads a lane and, after a dot, its source port, which without one is the first.
fn parse_source(word: &[u8]) -> Option<(u16, u16)> {
    let mut numbers = Pieces::new(word, b'.');
    parse_lane_and_port(&mut numbers)
}

/// Reads a lane's number and, if another number follows, its source port, which otherwise is the first.
fn parse_lane_and_port(numbers: &mut Pieces<'_>) -> Option<(u16, u16)> {
    let lane = next_u16(numbers)?;
    if numbers.rest().is_none() {
        return Some((lane, 0));
    }
    let port = next_u16(numbers)?;
    match numbers.rest() {
        Some(_) => None,
        None => Some((lane, port)),
    }
}

fn parse_at<'a>(words: &mut Pieces<'a>) -> Option<ScriptEvent<'a>> {
    let milliseconds = next_usize(words)? as u64;
    Some(ScriptEvent::At { milliseconds })
}
