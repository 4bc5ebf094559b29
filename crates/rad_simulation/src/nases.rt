//! The NASes: the datagrams that they send, and send again.

use crate::chance::Chance;
use crate::events::Mail;
use crate::making::{
    ACCT_SESSION_ID, CLASS, USER_NAME, begun, mark_value, push, sign_request, status_server,
};
use crate::rules::Rule;
use crate::setting::{Setting, client_address, client_secret, realm_of_home};
use rad_auth::{ACCOUNTING_REQUEST, MESSAGE_AUTHENTICATOR, PROXY_STATE, Secret};
use rad_packet::Datagram;
use rad_realms::Endpoint;
use std::alloc::Global;

/// How many of the last datagrams are kept, so that they may be sent again.
const KEPT: usize = 24;

/// All NASes.
#[derive(Drop)]
pub struct Nases {
    alloc: Global,
    /// The datagrams that were sent, and may be sent again.
    letters: Vec<Mail>,
    /// How many requests were made.
    count: u16,
}

impl Nases {
    /// Returns NASes that have sent nothing yet.
    pub fn new(alloc: Global) -> Nases {
        Nases {
            alloc,
            letters: Vec::new(alloc),
            count: 0,
        }
    }

    /// Returns the next datagram that is sent.
    pub fn send(&mut self, chance: &mut Chance, setting: &Setting) -> Result<Mail, Rule> {
        let repeats = if setting.is_hurried { 12 } else { 2 };
        if !self.letters.is_empty() && chance.is_one_in(repeats) {
            return self.repeat(chance);
        }
        let mail = self.letter(chance, setting)?;
        self.keep(&mail)?;
        Ok(mail)
    }

    /// Returns a new request, or rarely a Status-Server.
    fn letter(&mut self, chance: &mut Chance, setting: &Setting) -> Result<Mail, Rule> {
        let address = client_address(chance.is_one_in(2));
        let Some(secret) = client_secret(address) else {
            return Err(Rule::CONFIGURATION);
        };
        let port = if chance.is_one_in(3) { 40_001 } else { 40_000 };
        let made = if chance.is_one_in(20) {
            let authenticator = chance.authenticator();
            status_server(chance.octet(), authenticator, &secret)
        } else {
            self.request(chance, setting, &secret)
        };
        Ok(Mail {
            from: Endpoint { address, port },
            socket: 0,
            octets: made.bytes().to_vec(self.alloc)?,
        })
    }

    /// Keeps a copy of a datagram that was sent.
    fn keep(&mut self, letter: &Mail) -> Result<(), Rule> {
        if self.letters.len() >= KEPT {
            self.letters.remove(0);
        }
        self.letters.push(letter.copy(self.alloc)?)?;
        Ok(())
    }

    /// Returns a datagram that was sent before, rarely with another source port.
    fn repeat(&self, chance: &mut Chance) -> Result<Mail, Rule> {
        let Some(letter) = chance.pick(self.letters.as_slice()) else {
            return Err(Rule::CONFIGURATION);
        };
        let mut mail = letter.copy(self.alloc)?;
        if chance.is_one_in(10) {
            mail.from.port = mail.from.port.wrapping_add(1);
        }
        Ok(mail)
    }

    fn request(&mut self, chance: &mut Chance, setting: &Setting, secret: &Secret) -> Datagram {
        self.count = self.count.wrapping_add(1);
        let count = self.count.to_be_bytes();
        let mut made = begun(ACCOUNTING_REQUEST, (chance.below(5) & 0xff) as u8, [0; 16]);
        push_name(&mut made, chance, setting);
        if !chance.is_one_in(10) {
            push(&mut made, ACCT_SESSION_ID, &count);
        }
        push(&mut made, CLASS, &count);
        if chance.is_one_in(6) {
            push(&mut made, PROXY_STATE, b"abc");
        }
        if chance.is_one_in(12) {
            push(&mut made, PROXY_STATE, &mark_value(7, chance.draw()));
        }
        if chance.is_one_in(40) {
            push(&mut made, MESSAGE_AUTHENTICATOR, &[0; 16]);
        }
        if chance.is_one_in(60) {
            push_much(&mut made, chance);
        }
        sign_request(&mut made, secret);
        made
    }
}

/// Spoils one datagram in a few on its way: cuts it short, flips a bit, appends padding, or has it come from a stranger.
pub fn spoil(mail: &mut Mail, chance: &mut Chance) -> Result<(), Rule> {
    match chance.below(60) {
        0 => turn_a_bit(&mut mail.octets, chance),
        1 => mail.octets.truncate(chance.below(60) as usize),
        2 => mail.octets.extend_from_slice(&[0xff; 7])?,
        3 => mail.from.address = [10, 0, 0, 9],
        _ => {}
    }
    Ok(())
}

/// Adds a User-Name, in most cases in a realm that leads to a home server. Where one takes all realms that are not listed,
/// every fourth name has such a realm.
fn push_name(draft: &mut Datagram, chance: &mut Chance, setting: &Setting) {
    if setting.other.is_some() && chance.is_one_in(4) {
        push_unlisted(draft, chance);
        return;
    }
    match chance.below(40) {
        0 => push(draft, USER_NAME, b"bob"),
        1 => push(draft, USER_NAME, b"bob@"),
        2 => push(draft, USER_NAME, b"bob@nowhere.org"),
        3 => push(draft, USER_NAME, b"a@other.org@EXAMPLE.org"),
        4 => {}
        _ => {
            let place = chance.below(setting.homes.len() as u64);
            push_name_in(draft, realm_of_home((place & 3) as u16));
        }
    }
}

/// Adds a User-Name in a realm that is not listed, or is listed only where there are enough home servers.
fn push_unlisted(draft: &mut Datagram, chance: &mut Chance) {
    match chance.below(4) {
        0 => push_name_in(draft, "third.net"),
        1 => push_name_in(draft, "example.org."),
        2 => push(draft, USER_NAME, b"a@example.org@sub.other.org"),
        _ => push(draft, USER_NAME, b"@*"),
    }
}

/// Adds a User-Name in a realm.
fn push_name_in(draft: &mut Datagram, realm: &str) {
    let mut name = [0; 32];
    let octets = realm.as_bytes();
    name[..4].copy_from_slice(b"bob@");
    for (place, octet) in octets.iter().enumerate() {
        if let Some(kept) = name.get_mut(place.saturating_add(4)) {
            *kept = *octet;
        }
    }
    if let Some(text) = name.get(..octets.len().saturating_add(4)) {
        push(draft, USER_NAME, text);
    }
}

/// Adds so many attributes that the mark just fits behind them, or just does not fit.
fn push_much(draft: &mut Datagram, chance: &mut Chance) {
    for _ in 0..15 {
        push(draft, CLASS, &[b'A'; 253]);
    }
    let length = 4083_usize.saturating_add(chance.below(4) as usize);
    let missing = length.saturating_sub(draft.len()).saturating_sub(2);
    if let Some(value) = [b'B'; 253].get(..missing) {
        push(draft, CLASS, value);
    }
}

/// Flips a bit of one octet.
pub fn turn_a_bit(octets: &mut Vec<u8>, chance: &mut Chance) {
    let place = chance.below(octets.len() as u64) as usize;
    let bit = 1_u8.checked_shl((chance.below(8) & 7) as u32).unwrap_or(1);
    if let Some(octet) = octets.as_mut_slice().get_mut(place) {
        *octet ^= bit;
    }
}
