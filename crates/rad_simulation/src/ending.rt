//! The comparison of what is left of a closed proxy.

use crate::book::{Book, Out};
use crate::rules::Rule;
use block_queue::Fifo;
use rad_desk::{LaneEnd, Report, Rest};
use rad_lane::{Answered, Entry, Outgoing, Stamp};
use rad_realms::Endpoint;
use rad_tables::Slot;

/// Compares what is left of all lanes.
pub fn compare_end(report: &mut Report, books: &[Book]) -> Result<(), Rule> {
    let ends = report.ends.as_slice();
    Rule::CLOSE.unless(ends.len() == books.len())?;
    for (end, book) in ends.iter().zip(books.iter()) {
        compare_lane(end, book)?;
    }
    compare_queued(report, books)
}

fn compare_lane(end: &LaneEnd, book: &Book) -> Result<(), Rule> {
    if end.lane != book.lane || end.counts != book.counts() {
        return Err(Rule::CLOSE_COUNTS);
    }
    if !are_accepted(end.accepted.as_slice(), book) {
        return Err(Rule::CLOSE_ACCEPTED);
    }
    if !are_answered(end.answered.as_slice(), book) {
        return Err(Rule::CLOSE_ANSWERED);
    }
    if !are_outstanding(end, book) {
        return Err(Rule::CLOSE_OUTSTANDING);
    }
    Rule::CLOSE_REST.unless(are_untaken(&end.rest, book))
}

/// Returns whether these are the requests that the book holds, in the order in which they were accepted.
fn are_accepted(stamps: &[Stamp], book: &Book) -> bool {
    for (place, stamp) in stamps.iter().enumerate() {
        if !is_stamp(stamp, book.opening.saturating_add(place as u64), book) {
            return false;
        }
    }
    stamps.len() as u64 == book.held()
}

fn is_stamp(stamp: &Stamp, number: u64, book: &Book) -> bool {
    let Some(asked) = book.at(number) else {
        return false;
    };
    let from = Endpoint {
        address: stamp.client,
        port: stamp.port,
    };
    stamp.number == number
        && from == asked.from
        && stamp.identifier == asked.identifier
        && stamp.authenticator == asked.authenticator
        && stamp.moment.get() == asked.moment
}

/// Returns whether these are the answers to the requests that the book holds, in the order in which they were
/// answered.
fn are_answered(answered: &[Answered], book: &Book) -> bool {
    let mut left = answered.iter();
    for (serial, number) in book.answers.as_slice().iter().enumerate() {
        if *number >= book.opening {
            match left.next() {
                Some(answer) if is_answer(answer, serial as u64, *number, book) => {}
                _ => return false,
            }
        }
    }
    left.next().is_none()
}

fn is_answer(answer: &Answered, serial: u64, number: u64, book: &Book) -> bool {
    let Some(asked) = book.at(number) else {
        return false;
    };
    answer.serial() == serial
        && is_stamp(&answer.stamp(), number, book)
        && Some(answer.moment().get()) == asked.answered
        && answer.reply().response() == asked.response.as_slice()
}

fn are_outstanding(end: &LaneEnd, book: &Book) -> bool {
    for out in book.out.as_slice() {
        if !is_outstanding(end, out) {
            return false;
        }
    }
    end.outstanding.used() == book.outstanding()
}

fn is_outstanding(end: &LaneEnd, out: &Out) -> bool {
    let Some(number) = out.number else {
        return true;
    };
    let slot = Slot {
        port: ((out.pair / 256) & 0xff) as u16,
        identifier: (out.pair % 256) as u8,
    };
    match end.outstanding.get(slot) {
        Some(Entry::Sending(sending)) => sending.request().stamp().number == number
            && sending.octets() == out.octets.as_slice()
            && sending.sendings() == out.sendings
            && sending.due() == out.due,
        _ => false,
    }
}

/// Returns whether these are the untaken responses, in order.
fn are_untaken(rest: &Rest, book: &Book) -> bool {
    let Rest::Known(rest) = rest else {
        return false;
    };
    for (place, outgoing) in rest.as_slice().iter().enumerate() {
        if !is_outgoing(outgoing, book.taken.saturating_add(place), book) {
            return false;
        }
    }
    rest.as_slice().len() == book.untaken()
}

fn is_outgoing(outgoing: &Outgoing, serial: usize, book: &Book) -> bool {
    let Some(number) = book.answers.as_slice().get(serial) else {
        return false;
    };
    let Some(asked) = book.at(*number) else {
        return false;
    };
    let client = Endpoint {
        address: outgoing.client,
        port: outgoing.port,
    };
    outgoing.serial == serial as u64
        && client == asked.from
        && outgoing.reply.response() == asked.response.as_slice()
}

/// Compares the queued requests: those of the first lane in order, then those of the second, and so on.
fn compare_queued(report: &mut Report, books: &[Book]) -> Result<(), Rule> {
    for book in books {
        for number in book.sent..book.accepted() {
            Rule::CLOSE_QUEUED.unless(is_next_queued(report, number, book))?;
        }
    }
    Rule::CLOSE_QUEUED.unless(report.queued.is_empty())
}

fn is_next_queued(report: &mut Report, number: u64, book: &Book) -> bool {
    match (report.queued.pop_front(), book.at(number)) {
        (Some(record), Some(asked)) => {
            is_stamp(&record.stamp(), number, book) && record.text() == asked.text.as_slice()
        }
        _ => false,
    }
}
