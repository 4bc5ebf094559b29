//! The turns of the front, by the rules.

use crate::accepting::Taking;
use crate::book::Book;
use crate::events::{Mail, Sign};
use crate::making::{USER_NAME, first_value, plain_answer};
use crate::rules::Rule;
use crate::setting::{client_secret, realm_of_home};
use crate::walk::Walk;
use rad_auth::{
    ACCOUNTING_REQUEST, MESSAGE_AUTHENTICATOR, PROXY_STATE, STATUS_SERVER, Secret, check_request,
    check_status,
};
use rad_desk::{Call, Repeat};
use rad_packet::{PacketRef, read};
use rad_realms::{Dropped, Endpoint};

/// The length of the value of a mark.
const MARK_LENGTH: usize = 10;

/// A valid datagram of a client.
#[derive(Drop)]
pub enum Kind<'a> {
    /// A request that leads to the lane at this place.
    Request(usize, PacketRef<'a>),
    /// A Status-Server that is valid under this secret.
    Status(PacketRef<'a>, Secret),
}

/// The books of all lanes, and what else the front knows.
#[derive(Drop)]
pub struct Books {
    pub books: Vec<Book>,
    /// The place of the lane that a request without a realm leads to.
    pub default: Option<usize>,
    /// The place of the lane that all realms lead to that are not listed.
    pub other: Option<usize>,
}

impl Books {
    /// Compares a turn. Returns whether the front goes on.
    pub fn front_turn(&mut self, walk: &mut Walk<'_>) -> bool {
        let (moment, coming) = walk.begins();
        let goes_on = match coming {
            Some(mail) => self.take_in(moment, mail, walk),
            None => true,
        };
        goes_on && self.hand_out(walk)
    }

    /// Expects that a datagram is dropped, is answered, or is passed to its lane.
    fn take_in(&mut self, moment: u64, mail: &Mail, walk: &mut Walk<'_>) -> bool {
        match self.kind_of(mail) {
            Ok(Kind::Request(place, packet)) => self.accept(place, moment, mail, &packet, walk),
            Ok(Kind::Status(packet, secret)) => {
                let made = plain_answer(packet.identifier(), &packet.authenticator(), &secret);
                answer(mail.socket, mail.from, made.bytes(), Rule::STATUS, walk);
                true
            }
            Err(reason) => {
                dropped(mail, reason, walk);
                true
            }
        }
    }

    /// Returns what a datagram is, or why it is dropped.
    pub fn kind_of<'a>(&self, mail: &'a Mail) -> Result<Kind<'a>, Dropped> {
        let Some(secret) = client_secret(mail.from.address) else {
            return Err(Dropped::UnknownClient);
        };
        let packet = match read(mail.octets.as_slice()) {
            Ok(packet) => packet,
            Err(fault) => return Err(Dropped::Unread(fault)),
        };
        match packet.code() {
            STATUS_SERVER if check_status(&packet, &secret) => Ok(Kind::Status(packet, secret)),
            STATUS_SERVER => Err(Dropped::BadMessageAuthenticator),
            ACCOUNTING_REQUEST => self.request_of(packet, &secret),
            _ => Err(Dropped::WrongCode),
        }
    }

    fn request_of<'a>(&self, packet: PacketRef<'a>, secret: &Secret) -> Result<Kind<'a>, Dropped> {
        if !check_request(&packet, secret) {
            return Err(Dropped::BadAuthenticator);
        }
        if packet.count_of(MESSAGE_AUTHENTICATOR) > 0 {
            return Err(Dropped::MessageAuthenticatorHere);
        }
        match self.lane_of(&packet) {
            Some(place) => Ok(Kind::Request(place, packet)),
            None => Err(Dropped::NoRealm),
        }
    }

    /// Returns the place of the lane that a request leads to.
    fn lane_of(&self, packet: &PacketRef<'_>) -> Option<usize> {
        let Some(realm) = realm_of(first_value(packet, USER_NAME).unwrap_or(&[])) else {
            return self.default;
        };
        if realm.is_empty() {
            return None;
        }
        for (place, book) in self.books.as_slice().iter().enumerate() {
            if is_realm_of(book, realm) {
                return Some(place);
            }
        }
        self.other
    }

    /// Expects that a request is passed to its lane.
    fn accept(
        &mut self,
        place: usize,
        moment: u64,
        mail: &Mail,
        packet: &PacketRef<'_>,
        walk: &mut Walk<'_>,
    ) -> bool {
        match self.books.as_mut_slice().get_mut(place) {
            Some(book) => accept(book, moment, mail, packet, walk),
            None => {
                walk.breaks(Rule::ACCEPT);
                false
            }
        }
    }

    /// Expects that the front takes from each inlet once, and sends what it takes.
    fn hand_out(&mut self, walk: &mut Walk<'_>) -> bool {
        for book in self.books.as_mut_slice().iter_mut() {
            if !walk.asks(Call::Take, Rule::TAKE) {
                return false;
            }
            walk.made(Call::Take, Rule::TAKE);
            take(book, walk);
        }
        true
    }
}

/// Expects that a datagram is dropped.
fn dropped(mail: &Mail, reason: Dropped, walk: &mut Walk<'_>) {
    let sign = Sign::Dropped(reason, mail.from);
    walk.meets(sign, mail.octets.as_slice(), Rule::DROPPED);
}

/// Expects the call that passes a request to a lane, and the report of what became of it.
fn accept(
    book: &mut Book,
    moment: u64,
    mail: &Mail,
    packet: &PacketRef<'_>,
    walk: &mut Walk<'_>,
) -> bool {
    if !walk.asks(Call::Accept, Rule::ACCEPT) {
        return false;
    }
    if let Some(realm) = realm_of(first_value(packet, USER_NAME).unwrap_or(&[])) {
        // Each lane has one realm in the table.
        let sign = if is_realm_of(book, realm) {
            Sign::Requested(book.lane, 0)
        } else {
            Sign::RequestedUnlisted(book.lane)
        };
        walk.meets(sign, &[], Rule::REQUESTED);
    }
    let marks = marks_of(packet);
    if marks > 0 {
        let sign = Sign::Marked(book.lane, mail.from, marks);
        walk.meets(sign, &[], Rule::MARKED);
    }
    walk.made(Call::Accept, Rule::ACCEPT);
    match book.accept(mail.from, packet, moment) {
        Ok(taking) => taken(book, taking, mail, packet, walk),
        Err(rule) => walk.breaks(rule),
    }
    true
}

/// Expects that what became of a request is reported, or that the request is answered again.
fn taken(book: &Book, taking: Taking, mail: &Mail, packet: &PacketRef<'_>, walk: &mut Walk<'_>) {
    let from = mail.from;
    let octets = packet.octets();
    match taking {
        Taking::New(number) => walk.meets(
            Sign::Accepted(book.lane, number, from),
            octets,
            Rule::ACCEPTED,
        ),
        Taking::Waiting => repeats(Repeat::Waiting, from, octets, walk),
        Taking::Again(number) => {
            repeats(Repeat::Answered, from, octets, walk);
            answer(
                mail.socket,
                mail.from,
                book.response_of(number),
                Rule::AGAIN,
                walk,
            );
        }
        Taking::Refused(reason) => walk.meets(Sign::Refused(reason, from), octets, Rule::REFUSED),
    }
}

/// Expects the report that a request is a repeat.
fn repeats(repeat: Repeat, from: Endpoint, octets: &[u8], walk: &mut Walk<'_>) {
    walk.meets(Sign::Repeated(repeat, from), octets, Rule::AGAIN);
}

/// Expects that the next response of a lane, if there is one, goes to its client.
fn take(book: &mut Book, walk: &mut Walk<'_>) {
    let Some((serial, number)) = book.take() else {
        return;
    };
    let Some(asked) = book.at(number) else {
        walk.breaks(Rule::CLIENT);
        return;
    };
    answer(
        0,
        asked.from,
        asked.response.as_slice(),
        Rule::RESPONSE,
        walk,
    );
    walk.meets(Sign::Took(book.lane, serial), &[], Rule::TOOK);
}

fn answer(socket: u16, client: Endpoint, octets: &[u8], rule: Rule, walk: &mut Walk<'_>) {
    if let Some(gone) = walk.sends(octets, rule) {
        walk.keeps(Rule::CLIENT, gone.to == client);
        walk.keeps(Rule::LISTEN_SOCKET, gone.socket == socket);
        walk.counts(gone);
    }
}

/// Returns whether a realm is the one that is listed for a lane.
fn is_realm_of(book: &Book, realm: &[u8]) -> bool {
    realm.eq_ignore_ascii_case(realm_of_home(book.lane).as_bytes())
}

/// Returns the part of a name after its last `@`.
fn realm_of(name: &[u8]) -> Option<&[u8]> {
    let mut behind = None;
    for (place, octet) in name.iter().enumerate() {
        if *octet == b'@' {
            behind = Some(place.saturating_add(1));
        }
    }
    name.get(behind?..)
}

/// Returns how many Proxy-States of the form of a mark a packet has.
fn marks_of(packet: &PacketRef<'_>) -> u64 {
    let mut marks = 0_u64;
    for it in packet.attributes() {
        if it.kind == PROXY_STATE && it.value.len() == MARK_LENGTH {
            marks = marks.saturating_add(1);
        }
    }
    marks
}
