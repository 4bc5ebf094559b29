//! The responses that earlier runs gave.

ghost use Rattle.std.specs.Prelude.{◌≡◌, Some, IfSome, IsTrue};
ghost use Rattle.rad_lane.specs.Accepts.{request_key};
ghost use Rattle.spool_writer.specs.Earlier.{answer_of, name_of as the_name_of, name_of_answer, response_of};

use crate::opening::greatest_span;
use crate::parcel::Parcel;
use crate::wall_clock::time_since_1970;
use rad_desk::{Earlier, Memory};
use rad_packet::{Datagram, read};
use rad_realms::{Checked, Config};
use rad_tables::Duplicates;
use spool_files::{Answered, RememberedAnswer};
use std::alloc::{AllocError, Global};
use std::sync::atomic::{AtomicU64, Ordering};
use std::time::Clock;

/// The responses that earlier runs gave, for the span of their lanes.
#[derive(Drop)]
pub struct EarlierAnswers<'a, R> {
    clock: &'a R,
    config: &'a Config,
    /// In the order in which they were given.
    answers: Vec<RememberedAnswer>,
    /// The place of the last one of each key.
    places: Duplicates,
    /// 1 once the last span is over.
    is_over: AtomicU64,
}

impl<'a, R: Clock> EarlierAnswers<'a, R> {
    /// Makes it of these, which are in the order in which they were given.
    ///
    /// # Errors
    ///
    /// `AllocError` if memory is refused.
    pub fn new(
        clock: &'a R,
        alloc: Global,
        config: &'a Config,
        answers: Vec<RememberedAnswer>,
    ) -> Result<EarlierAnswers<'a, R>, AllocError> {
        let mut places = Duplicates::new(alloc);
        for (place, answer) in answers.iter().enumerate() {
            places.insert(answer.answered.key, place as u64)?;
        }
        let is_over = AtomicU64::new(u64::from(answers.is_empty()));
        Ok(EarlierAnswers {
            clock,
            config,
            answers,
            places,
            is_over,
        })
    }

    /// Returns the response that an earlier run gave to a request of this key within the span of its lane.
    fn find(&self, request: &Checked<'_>) -> Option<&RememberedAnswer>
        ensures { IfSome result (λ answer. answer_of self.now.places self.now.answers.items (request_key request.now) ≡ Some answer.now) }
    {
        let place = self.places.find(&Parcel::key_of(request))?;
        let answer = self.answers.get(usize::try_from(place).ok()?)?;
        if self.is_remembered(answer, request.lane()) {
            Some(answer)
        } else {
            None
        }
    }

    /// Returns whether the span of a lane is not over since an answer. Notes whether that of the last answer is over in each
    /// lane.
    fn is_remembered(&self, answer: &RememberedAnswer, lane: u16) -> bool {
        let Some(now) = time_since_1970(self.clock) else {
            return false;
        };
        match self.config.homes().get(usize::from(lane)) {
            Some(home) => {
                let span = u64::from(home.limits().numbers().span);
                now.saturating_sub(answer.answered.moment) < span
            }
            None => false,
        }
    }

    /// Notes whether the greatest span is over since the last answer.
    fn see_end(&self) {
        let Some(last) = self.answers.last() else {
            return;
        };
        let Some(now) = time_since_1970(self.clock) else {
            return;
        };
        if now.saturating_sub(last.answered.moment) > greatest_span(self.config) {
            self.is_over.store(1, Ordering::SeqCst);
        }
    }
}

/// Returns what names an answer: the run that gave it, and its lane and serial there.
fn name_of(answer: &RememberedAnswer) -> Earlier
    ensures { result ≡ name_of_answer answer.now }
{
    let Answered {
        run,
        lane,
        serial,
        ..
    } = answer.answered;
    Earlier {
        run,
        lane,
        number: serial,
    }
}

/// Writes a response, and returns whether it is a packet.
fn write(answer: &RememberedAnswer, written: &mut Datagram) -> bool
    ensures { IsTrue result → written.new ≡ answer.now.octets.items }
{
    let octets = answer.octets.as_slice();
    match read(octets) {
        Ok(packet) if packet.octets() == octets => {
            written.load(&packet);
            true
        }
        _ => false,
    }
}

impl<R: Clock> Memory for EarlierAnswers<'_, R> {
    ghost remembered = { λ earlier. response_of earlier.places earlier.answers.items };

    ghost named = { λ earlier. the_name_of earlier.places earlier.answers.items };

    fn recall(&self, request: &Checked<'_>, written: &mut Datagram) -> Option<Earlier> {
        if self.is_over.load(Ordering::SeqCst) != 0 {
            return None;
        }
        let Some(answer) = self.find(request) else {
            self.see_end();
            return None;
        };
        if write(answer, written) {
            Some(name_of(answer))
        } else {
            None
        }
    }
}
