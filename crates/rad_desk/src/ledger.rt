//! The ledger, to which the front hands over each response.

ghost use Rattle.std.specs.Prelude.{◌≡◌, List, [], ◌∷◌, ◌++◌, Option, None, option_and_then};
ghost use Rattle.std.specs.Borrow.{ftrue};
ghost use Rattle.rad_desk.specs.HandOver.{Handing, handed_at, kept_with};
ghost use Rattle.rad_desk.specs.Leaving.{Left, as_left, left_of, left_with};

use crate::leaving::LeftRecord;
use crate::wire::Wire;
use rad_lane::{Counts, LeftState, Outgoing};
use std::marker::Model;

/// What names a record, or a response, of an earlier run.
#[derive(Clone, Copy, Debug, PartialEq, Eq, PartialOrd, Ord)]
pub struct Earlier {
    /// The name of the run.
    pub run: u64,
    /// The number of the lane there.
    pub lane: u16,
    /// The number of the record in that lane, or the serial of the response.
    pub number: u64,
}

/// A request that a lane took as new.
#[derive(Clone, Copy, Debug, PartialEq, Eq)]
pub struct AcceptedRecord {
    /// The lane's number.
    pub lane: u16,
    /// The request's number in its lane.
    pub number: u64,
    /// What names its first acceptance, if an earlier run left it.
    pub first: Option<Earlier>,
}

/// What keeps evidence of the responses that are handed over to it, and of the requests that are left at the end.
///
/// Contracts may see a ledger as the list of the responses that it was given so far, in order, each with all that had
/// passed over the wire by then, and as the list of the requests that it was told as left. They say nothing of a ledger
/// without such a list.
pub trait Ledger {
    ghost kept: { Self → Option (List Handing) } = { λ _. None };

    ghost left: { Self → Option (List Left) } = { λ _. None };

    /// From now on responses may come.
    fn begin(&mut self)
        ensures { kept self.new ≡ kept self.old }
    {}

    /// A lane took a request as new. The front knows of none which run accepted it first. It must not wait for anything.
    fn accept(&mut self, _accepted: &AcceptedRecord)
        ensures { kept self.new ≡ kept self.old }
    {}

    /// Keeps a response, which it is lent, before it is sent over the wire. It must not wait for anything. The mark, the
    /// last attribute of the sending that the response holds, tells which lane the response is of, and the number of its
    /// request. Only contracts look at the wire.
    fn keep<W: Wire>(&mut self, outgoing: &Outgoing, wire: &W)
        ensures { kept self.new ≡ kept_with (kept self.old) (handed_at (W.log wire.now) outgoing.now ∷ []) };

    /// The response of this lane to the request of this number is about to be sent again, to a client that repeated the
    /// request. It must not wait for anything.
    fn send_again(&mut self, lane: u16, number: u64, response: &[u8])
        ensures { kept self.new ≡ kept self.old };

    /// The response that an earlier run gave is about to be sent again, to a client that repeated its request. That leads to
    /// this lane. It must not wait for anything.
    fn send_earlier(&mut self, _lane: u16, _answer: Earlier)
        ensures { kept self.new ≡ kept self.old }
    {}

    /// Keeps a request that is left, which it is lent. No response comes any more, so it may wait.
    fn leave(&mut self, told: &LeftRecord<'_>)
        ensures { left self.new ≡ left_with (left self.old) (as_left told.now ∷ []) };

    /// All that is left of this lane was told. These are the lane's counts.
    fn end_lane(&mut self, _lane: u16, _counts: &Counts)
        ensures { left self.new ≡ left self.old }
    {}

    /// What is left can't be told, since memory was refused.
    fn leave_untold(&mut self)
        ensures { left self.new ≡ left self.old }
    {}
}

/// A ledger that keeps nothing.
#[derive(Clone, Copy, Debug, Drop)]
pub struct NoLedger;

impl Ledger for NoLedger {
    fn keep<W: Wire>(&mut self, _outgoing: &Outgoing, _wire: &W) {}

    fn send_again(&mut self, _lane: u16, _number: u64, _response: &[u8]) {}

    fn leave(&mut self, _told: &LeftRecord<'_>) {}
}

/// A ledger, if there is one.
impl<L: Ledger> Ledger for Option<L> {
    ghost kept = { λ ledger. option_and_then L.kept ledger };

    ghost left = { λ ledger. option_and_then L.left ledger };

    fn begin(&mut self) {
        if let Some(ledger) = self {
            ledger.begin();
        }
    }

    fn accept(&mut self, accepted: &AcceptedRecord) {
        if let Some(ledger) = self {
            ledger.accept(accepted);
        }
    }

    fn keep<W: Wire>(&mut self, outgoing: &Outgoing, wire: &W) {
        if let Some(ledger) = self {
            ledger.keep(outgoing, wire);
        }
    }

    fn send_again(&mut self, lane: u16, number: u64, response: &[u8]) {
        if let Some(ledger) = self {
            ledger.send_again(lane, number, response);
        }
    }

    fn send_earlier(&mut self, lane: u16, answer: Earlier) {
        if let Some(ledger) = self {
            ledger.send_earlier(lane, answer);
        }
    }

    fn leave(&mut self, told: &LeftRecord<'_>) {
        if let Some(ledger) = self {
            ledger.leave(told);
        }
    }

    fn end_lane(&mut self, lane: u16, counts: &Counts) {
        if let Some(ledger) = self {
            ledger.end_lane(lane, counts);
        }
    }

    fn leave_untold(&mut self) {
        if let Some(ledger) = self {
            ledger.leave_untold();
        }
    }
}

/// The list of a ledger: all responses that it was given so far, each with what had passed over the wire by then. Only
/// clauses see it, and it takes no memory.
#[derive(Drop)]
pub struct Handed {
    pub ghost responses: { List Handing },
}

impl Model for Handed {
    ghost also_owns = { λ _. ftrue };
}

// It owns nothing.
unsafe impl Send for Handed {}

impl Handed {
    /// Makes an empty list.
    pub fn new() -> Handed
        ensures { result.responses ≡ [] }
    {
        Handed {}
    }

    /// Adds a response that is handed over now.
    pub fn add<W: Wire>(&mut self, outgoing: &Outgoing, wire: &W)
        ensures { self.new.responses ≡ self.old.responses ++ handed_at (W.log wire.now) outgoing.now ∷ [] }
    {
        *self = Handed::with(self, outgoing, wire);
    }

    fn with<W: Wire>(_before: &Handed, _outgoing: &Outgoing, _wire: &W) -> Handed
        ensures { result.responses ≡ _before.now.responses ++ handed_at (W.log _wire.now) _outgoing.now ∷ [] }
    {
        Handed {}
    }
}

/// The other list of a ledger: all requests that it was told as left so far. Only clauses see it, and it takes no memory.
#[derive(Drop)]
pub struct LeftList {
    pub ghost requests: { List Left },
}

/// A request that is left, without its octets.
#[derive(Clone, Copy)]
pub(crate) struct LeftHead {
    pub(crate) lane: u16,
    pub(crate) number: u64,
    pub(crate) client: [u8; 4],
    pub(crate) port: u16,
    pub(crate) identifier: u8,
    pub(crate) authenticator: [u8; 16],
    pub(crate) state: LeftState,
}

impl Model for LeftList {
    ghost also_owns = { λ _. ftrue };
}

// It owns nothing.
unsafe impl Send for LeftList {}

impl LeftList {
    /// Makes an empty list.
    pub fn new() -> LeftList
        ensures { result.requests ≡ [] }
    {
        LeftList {}
    }

    /// Adds a request that is told as left now.
    pub fn add(&mut self, told: &LeftRecord<'_>)
        ensures { self.new.requests ≡ self.old.requests ++ as_left told.now ∷ [] }
    {
        let head = LeftHead {
            lane: told.lane,
            number: told.number,
            client: told.client,
            port: told.port,
            identifier: told.identifier,
            authenticator: told.authenticator,
            state: told.state,
        };
        *self = LeftList::with(self, &head, told.request);
    }

    fn with(_before: &LeftList, _head: &LeftHead, _request: &[u8]) -> LeftList
        ensures { result.requests ≡ _before.now.requests ++ left_of _head.now _request.now ∷ [] }
    {
        LeftList {}
    }
}
