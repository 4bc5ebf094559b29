//! The ledger of a run over a spool: it records what it is given.

use crate::events::{Keeping, TraceEvent};
use crate::history::key_answered;
use crate::trace::Stage;
use rad_desk::{Ledger, LeftRecord, Wire};
use rad_lane::Outgoing;

/// A ledger behind the spool's.
#[derive(Drop)]
pub struct Witness<'a> {
    pub stage: &'a Stage,
}

impl Ledger for Witness<'_> {
    fn keep<W: Wire>(&mut self, outgoing: &Outgoing, _wire: &W) {
        if let Some(response) = self.stage.trace.copy(outgoing.reply.response()) {
            self.stage.trace.add(TraceEvent::Kept(Keeping {
                key: key_answered(outgoing),
                response,
                passed: self.stage.clock.passed(),
            }));
        }
    }

    fn send_again(&mut self, _lane: u16, _number: u64, _response: &[u8]) {}

    fn leave(&mut self, _told: &LeftRecord<'_>) {}
}
