//! What passes through the buffer: a head, and the packets: three of a response, one of a request that is left, none of a
//! count.

ghost use Rattle.std.specs.Prelude.{◌≡◌, ◌↔◌, ◌-◌, IsTrue, option_map};
ghost use Rattle.ledger_writer.specs.Parcels.{Fits, IsCounted, IsParcelOf, IsParcelOfCount, IsParcelOfLeft, octets_of};

use ledger_lines::CountKind;
use ledger_state::Handling;
use rad_auth::{Mark, RequestHead};
use rad_desk::{Earlier, LeftRecord};
use rad_lane::{LeftState, Outgoing};

/// The greatest length of a packet (RFC 2865 section 3).
const LONGEST: usize = 4096;

/// The most octets of the packets of a parcel.
pub(crate) const MOST: usize = 3 * LONGEST;

/// What a parcel has beside its packets.
#[derive(Clone, Copy)]
pub(crate) struct ParcelHead {
    /// When it was put into the buffer, in milliseconds since 1970.
    pub(crate) time: u64,
    /// The number of the request in its lane.
    pub(crate) number: u64,
    pub(crate) lane: u16,
    pub(crate) client: [u8; 4],
    pub(crate) port: u16,
    pub(crate) identifier: u8,
    pub(crate) authenticator: [u8; 16],
    /// How the request was handled.
    pub(crate) handling: Handling,
    pub(crate) its: ParcelKind,
}

/// What a parcel is of.
#[derive(Clone, Copy)]
pub(crate) enum ParcelKind {
    Response {
        serial: u64,
        /// How many octets the packet to the home server has.
        sent: usize,
        /// How many octets the home server's reply has.
        reply: usize,
        /// How many octets the response has.
        response: usize,
    },
    /// A request that is left.
    Left {
        state: LeftState,
        /// Whether it is open in the spool.
        kept: bool,
        /// How many octets it has.
        request: usize,
    },
    /// How often something happened that a line tells without a packet. Its head tells the lane and the record alone.
    Count {
        kind: NoteKind,
        count: u64,
    },
}

/// What a line tells without a packet.
#[derive(Clone, Copy, PartialEq, Eq, PartialOrd, Ord)]
pub(crate) enum NoteKind {
    /// What became of the response of a record.
    Count(CountKind),
    /// That the response of an earlier run was sent again. It has no record in this run.
    AgainEarlier(Earlier),
    /// That the lane accepted a record that an earlier run left.
    Resumed(Earlier),
}

/// What is counted of which record.
#[derive(Clone, Copy, PartialEq, Eq, PartialOrd, Ord)]
pub(crate) struct CountKey {
    pub(crate) lane: u16,
    pub(crate) number: u64,
    pub(crate) kind: NoteKind,
}

/// A parcel: its head and its packets.
#[derive(Clone, Copy)]
pub(crate) struct Parcel<'a> {
    pub(crate) head: ParcelHead,
    /// The packet to the home server, the request that is left, or nothing.
    pub(crate) sent: &'a [u8],
    /// The home server's reply, or nothing.
    pub(crate) reply: &'a [u8],
    /// The response, or nothing.
    pub(crate) response: &'a [u8],
}

impl<'a> Parcel<'a> {
    /// Returns the parcel of a response that is handed over at this time, to a request that was handled so.
    pub(crate) fn of(time: u64, outgoing: &'a Outgoing, handling: Handling) -> Parcel<'a>
        ensures counted { IsCounted result }
        ensures parcel { IsParcelOf time outgoing.now result }
        ensures handling { result.head.handling ≡ handling }
    {
        let sent = outgoing.reply.sending();
        let reply = outgoing.reply.reply();
        let response = outgoing.reply.response();
        let Mark { lane, number } = outgoing.reply.mark();
        let RequestHead {
            identifier,
            authenticator,
        } = outgoing.reply.head();
        let client = outgoing.client;
        let head = ParcelHead {
            time,
            number,
            lane,
            client,
            port: outgoing.port,
            identifier,
            authenticator,
            handling,
            its: ParcelKind::Response {
                serial: outgoing.serial,
                sent: sent.len(),
                reply: reply.len(),
                response: response.len(),
            },
        };
        Parcel {
            head,
            sent,
            reply,
            response,
        }
    }

    /// Returns the parcel of a request that is told as left at this time.
    pub(crate) fn of_left(time: u64, told: &LeftRecord<'a>) -> Parcel<'a>
        ensures counted { IsCounted result }
        ensures parcel { IsParcelOfLeft time told.now result }
    {
        let client = told.client;
        let authenticator = told.authenticator;
        let head = ParcelHead {
            time,
            number: told.number,
            lane: told.lane,
            client,
            port: told.port,
            identifier: told.identifier,
            authenticator,
            handling: Handling {
                sendings: told.sendings,
                accepted: accepted_at(time, told.age),
            },
            its: ParcelKind::Left {
                state: told.state,
                kept: told.kept,
                request: told.request.len(),
            },
        };
        Parcel {
            head,
            sent: told.request,
            reply: &[],
            response: &[],
        }
    }

    /// Returns the parcel of so many that are counted of a record, at this time.
    pub(crate) fn of_count(time: u64, key: CountKey, count: u64) -> Parcel<'static>
        ensures counted { IsCounted result }
        ensures parcel { IsParcelOfCount time key count result }
    {
        let head = ParcelHead {
            time,
            number: key.number,
            lane: key.lane,
            client: [0; 4],
            port: 0,
            identifier: 0,
            authenticator: [0; 16],
            handling: Handling {
                sendings: None,
                accepted: None,
            },
            its: ParcelKind::Count {
                kind: key.kind,
                count,
            },
        };
        Parcel {
            head,
            sent: &[],
            reply: &[],
            response: &[],
        }
    }
}

fn accepted_at(time: u64, age: Option<u64>) -> Option<u64>
    ensures { result ≡ option_map (λ its. time - its) age }
{
    Some(time.saturating_sub(age?))
}

impl ParcelHead {
    /// Returns whether no packet is longer than a packet may be.
    pub(crate) fn fits(&self) -> bool
        ensures { IsTrue result ↔ Fits self.now }
    {
        match self.its {
            ParcelKind::Response {
                sent,
                reply,
                response,
                ..
            } => sent <= LONGEST && reply <= LONGEST && response <= LONGEST,
            ParcelKind::Left { request, .. } => request <= LONGEST,
            ParcelKind::Count { .. } => true,
        }
    }

    /// Returns how many octets the packets have together.
    pub(crate) fn octets(&self) -> usize
        requires { Fits self.now }
        ensures { result ≡ octets_of self.now }
    {
        match self.its {
            ParcelKind::Response {
                sent,
                reply,
                response,
                ..
            } => sent + reply + response,
            ParcelKind::Left { request, .. } => request,
            ParcelKind::Count { .. } => 0,
        }
    }
}
