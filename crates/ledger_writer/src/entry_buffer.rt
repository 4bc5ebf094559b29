//! The writer's end of the buffer.

ghost use Rattle.std.specs.Prelude.{◌≡◌, ◌+◌, ◌<◌, ◌≤◌, ◌++◌, length, take, vec_len, MatchBool};
ghost use Rattle.rtrb.specs.Ring.{known_items, received};
ghost use Rattle.ledger_writer.specs.Parcels.{HasPackets, all_octets, octets_held, octets_of};

use crate::parcel::{MOST, Parcel, ParcelHead, ParcelKind};
use crate::shares::ClientShares;
use rtrb::Consumer;
use std::alloc::{AllocError, Global};
use std::sync::Arc;

/// The writer's end of the buffer, and the parcel that was taken last.
#[derive(Drop)]
pub(crate) struct EntryBuffer {
    packets: Consumer<u8, Global>,
    heads: Consumer<ParcelHead, Global>,
    /// The packets of the parcel that is held, followed by octets that don't count.
    room: Vec<u8>,
    /// The head of the parcel that was taken and is not done with.
    held: Option<ParcelHead>,
    /// Whether the next head was found without its packets.
    is_parted: bool,
    /// What is passed of each client.
    shares: Arc<ClientShares>,
    ghost whole: { length (received packets) ≡ all_octets (received heads) },
    ghost has_room: { vec_len room ≡ 12288 },
    ghost fits: { octets_held held ≤ 12288 },
}

impl EntryBuffer {
    ghost use Rattle.std.specs.Prelude.{[], ◌∷◌, None, Some, false, MatchOption, IfOk, IfSome};
    ghost use mathlib.Core.List.{IsPrefix};
    ghost use Rattle.ledger_writer.specs.Buffer.{HasNone, HoldsParcel, SameTaken, TakesNothing, TakesParcel};

    /// Makes the end, with room for the packets of a parcel.
    pub(crate) fn new(
        alloc: Global,
        packets: Consumer<u8, Global>,
        heads: Consumer<ParcelHead, Global>,
        shares: Arc<ClientShares>,
    ) -> Result<EntryBuffer, AllocError>
        requires { (received packets ≡ []) × (received heads ≡ []) }
        ensures { IfOk result (λ buffer. (buffer.held ≡ None) × (buffer.is_parted ≡ false) × (received buffer.packets ≡ []) × (received buffer.heads ≡ [])) }
    {
        let mut room = Vec::with_capacity(alloc, MOST)?;
        room.resize(MOST, 0)?;
        Ok(EntryBuffer {
            packets,
            heads,
            room,
            held: None,
            is_parted: false,
            shares,
        })
    }

    /// Takes the next parcel, if there is one and none is held. A head is there only once its packets are, so one without
    /// them can't be found. It would wait for them, and be reported.
    pub(crate) fn take(&mut self)
        ensures takes { MatchOption self.old.held (MatchOption self.new.held (TakesNothing self.old self.new) (λ head. TakesParcel self.old head self.new)) (λ _. TakesNothing self.old self.new) }
        ensures none { MatchOption self.old.held (MatchOption self.new.held (HasNone self.new) (λ _. self.new.is_parted ≡ false)) (λ _. self.new.is_parted ≡ self.old.is_parted) }
    {
        if self.held.is_some() {
            return;
        }
        self.is_parted = false;
        if self.heads.is_empty() {
            return;
        }
        let head = *self.heads.peek_known();
        if head.fits() && take_octets(&mut self.packets, head.octets(), &mut self.room) {
            self.heads.pop_known();
            self.held = Some(head);
        } else {
            self.is_parted = true;
        }
    }

    /// Returns whether the next head was found without its packets.
    pub(crate) fn is_parted(&self) -> bool
        ensures { result ≡ self.now.is_parted }
    {
        self.is_parted
    }

    /// Returns the parcel that is held, if there is one.
    pub(crate) fn parcel(&self) -> Option<Parcel<'_>>
        ensures { MatchOption result (self.now.held ≡ None) (λ parcel. HoldsParcel self.now parcel) }
    {
        let head = self.held?;
        Some(parcel_of(head, self.room.as_slice()))
    }

    /// Ends the parcel that is held. What it took of the buffer no longer counts for its client.
    pub(crate) fn pass(&mut self)
        ensures { (self.new.held ≡ None) × (self.new.is_parted ≡ self.old.is_parted) × SameTaken self.old self.new }
    {
        if let Some(head) = self.held {
            let octets = if head.fits() { head.octets() } else { 0 };
            self.shares.pass(&head, octets);
        }
        self.held = None;
    }

    /// Returns when the next parcel was put into the buffer, in milliseconds since 1970, if there is one.
    pub(crate) fn next_time(&mut self) -> Option<u64>
        ensures same { (self.new.held ≡ self.old.held) × (self.new.is_parted ≡ self.old.is_parted) × SameTaken self.old self.new }
        ensures held { MatchOption self.old.held (Unit {0}) (λ head. result ≡ Some head.time) }
        ensures next { MatchOption self.old.held (IfSome result (λ time. (head : ParcelHead) × IsPrefix (head ∷ []) (known_items self.new.heads) × (time ≡ head.time))) (λ _. Unit {0}) }
    {
        if let Some(head) = self.held {
            return Some(head.time);
        }
        if self.heads.slots() == 0 {
            return None;
        }
        Some(self.heads.peek_known().time)
    }
}

/// Takes so many octets, if they are there, to the front of this room, and returns whether they were.
fn take_octets(packets: &mut Consumer<u8, Global>, count: usize, room: &mut Vec<u8>) -> bool
    requires { count ≤ vec_len room.old }
    ensures room { vec_len room.new ≡ vec_len room.old }
    ensures taken { MatchBool result (received packets.new ≡ received packets.old ++ take count room.new.items) ((received packets.new ≡ received packets.old) × (room.new.items ≡ room.old.items)) }
    ensures wants { MatchBool result (Unit {0}) (length (known_items packets.new) < count) }
{
    let (front, _) = room.as_mut_slice().split_at_mut(count);
    packets.pop_entire_slice(front).is_ok()
}

fn parcel_of(head: ParcelHead, octets: &[u8]) -> Parcel<'_>
    requires { octets_of head ≤ length octets.now }
    ensures { HasPackets head (take (octets_of head) octets.now) result }
{
    match head.its {
        ParcelKind::Response {
            sent,
            reply,
            response,
            ..
        } => {
            let (sent, rest) = octets.split_at(sent);
            let (reply, rest) = rest.split_at(reply);
            let (response, _) = rest.split_at(response);
            Parcel {
                head,
                sent,
                reply,
                response,
            }
        }
        ParcelKind::Left { request, .. } => {
            let (request, _) = octets.split_at(request);
            Parcel {
                head,
                sent: request,
                reply: &[],
                response: &[],
            }
        }
        ParcelKind::Count { .. } => Parcel {
            head,
            sent: &[],
            reply: &[],
            response: &[],
        },
    }
}
