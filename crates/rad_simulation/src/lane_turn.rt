//! The turns of a lane's worker, by the rules.

use crate::book::{Asked, Book};
use crate::events::{DownBy, Mail, Sign};
use crate::hearing::Hearing;
use crate::rules::Rule;
use crate::stepping::Doing;
use crate::walk::Walk;
use rad_desk::{Call, UpReason};
use rad_tables::Slot;

/// Compares a turn. Returns whether the worker goes on.
pub fn lane_turn(book: &mut Book, walk: &mut Walk<'_>) -> bool {
    let (moment, coming) = walk.begins();
    let goes_on = match coming {
        Some(mail) => hear(book, moment, mail, walk),
        None => true,
    };
    goes_on && step(book, moment, walk)
}

/// Expects that the lane hears what arrived from its home server.
fn hear(book: &mut Book, moment: u64, mail: &Mail, walk: &mut Walk<'_>) -> bool {
    if mail.from != book.endpoint {
        let octets = mail.octets.as_slice();
        walk.meets(Sign::NotHome(mail.from), octets, Rule::NOT_HOME);
        return true;
    }
    if !walk.asks(Call::Hear, Rule::HEAR) {
        return false;
    }
    walk.made(Call::Hear, Rule::HEAR);
    match book.hear(moment, mail.socket, mail.octets.as_slice()) {
        Ok(hearing) => heard(hearing, mail, walk),
        Err(rule) => walk.breaks(rule),
    }
    true
}

/// Expects that what the lane heard is reported.
fn heard(hearing: Hearing, mail: &Mail, walk: &mut Walk<'_>) {
    let octets = mail.octets.as_slice();
    match hearing {
        Hearing::Answer(serial) => {
            let slot = Slot {
                port: mail.socket,
                identifier: octets.get(1).copied().unwrap_or(0),
            };
            walk.meets(Sign::Answered(serial, slot), &[], Rule::ANSWERED);
        }
        Hearing::ProbeAnswered => walk.meets(
            Sign::WentUp(UpReason::ProbeAnswered),
            &[],
            Rule::PROBE_ANSWERED,
        ),
        Hearing::Fault(fault) => {
            walk.meets(Sign::Unheard(fault), octets, Rule::UNHEARD);
        }
    }
}

/// Expects that the lane makes its next step.
fn step(book: &mut Book, moment: u64, walk: &mut Walk<'_>) -> bool {
    if !walk.asks(Call::Step, Rule::STEP) {
        return false;
    }
    let drawn = walk.draws(Rule::STEP);
    walk.made(Call::Step, Rule::STEP);
    match book.step(moment, drawn) {
        Ok(Doing::Idle) => return turn(book, moment, walk),
        Ok(doing) => does(book, doing, moment, walk),
        Err(rule) => walk.breaks(rule),
    }
    true
}

/// Expects that the worker does what this step asks for.
fn does(book: &Book, doing: Doing, moment: u64, walk: &mut Walk<'_>) {
    match doing {
        Doing::Send(place) => {
            first_sent(book, place, walk);
            send(book, place, Rule::FIRST_SENDING, walk);
        }
        Doing::SendAgain(place) => {
            sent_again(book, place, walk);
            send(book, place, Rule::RESENDING, walk);
        }
        Doing::Probe(place) => send(book, place, Rule::PROBE, walk),
        Doing::GoDown(number) => went_down(book, number, moment, walk),
        Doing::GoUp => walk.meets(Sign::WentUp(UpReason::DownWaitOver), &[], Rule::WENT_UP),
        Doing::Idle => {}
    }
}

/// Expects the report that the request at a place is about to be sent for the first time, under its pair.
fn first_sent(book: &Book, place: usize, walk: &mut Walk<'_>) {
    if let Some(out) = book.out.as_slice().get(place)
        && let Some(number) = out.number
    {
        let slot = Slot {
            port: (out.pair / 256 & 0xffff) as u16,
            identifier: (out.pair & 0xff) as u8,
        };
        walk.meets(Sign::FirstSent(number, slot), &[], Rule::FIRST_SENDING);
    }
}

/// Expects the report that the request at a place is about to be sent again.
fn sent_again(book: &Book, place: usize, walk: &mut Walk<'_>) {
    if let Some(out) = book.out.as_slice().get(place)
        && let Some(number) = out.number
    {
        walk.meets(Sign::SentAgain(number), &[], Rule::RESENDING);
    }
}

/// Expects that the request or the probe at a place is sent to the home server, from the socket of its pair's source
/// port.
fn send(book: &Book, place: usize, rule: Rule, walk: &mut Walk<'_>) {
    let Some(out) = book.out.as_slice().get(place) else {
        walk.breaks(rule);
        return;
    };
    if let Some(gone) = walk.sends(out.octets.as_slice(), rule) {
        walk.keeps(Rule::HOME, gone.to == book.endpoint);
        walk.keeps(Rule::SOURCE_PORT, u32::from(gone.socket) == out.pair / 256);
        walk.counts(gone);
    }
}

/// Expects the report that the home server was marked down, with the request that marked it down.
fn went_down(book: &Book, number: u64, moment: u64, walk: &mut Walk<'_>) {
    let is_told = match (walk.went_down(), book.at(number)) {
        (Some(down), Some(asked)) => down.number == number && is_down_by(down, asked, moment),
        _ => false,
    };
    walk.keeps(Rule::DOWN_BY, is_told);
}

/// Returns whether `down` describes the request that marked the home server down at this moment.
fn is_down_by(down: &DownBy, asked: &Asked, moment: u64) -> bool {
    let session = match &down.session {
        Some(session) => Some(session.as_slice()),
        None => None,
    };
    down.client == asked.from
        && down.age == moment.saturating_sub(asked.moment)
        && asked.session() == session
}

/// Expects that after an idle step the book is turned, if it is at least half full.
fn turn(book: &mut Book, moment: u64, walk: &mut Walk<'_>) -> bool {
    if book.held().saturating_mul(2) < u64::from(book.limits.book) {
        walk.idles();
        return true;
    }
    if !walk.asks(Call::Turn, Rule::MUST_TURN) {
        return false;
    }
    walk.made(Call::Turn, Rule::TURN);
    let count = book.cut(moment);
    if count > 0 {
        walk.meets(Sign::Cut(count), &[], Rule::CUT);
    }
    true
}
