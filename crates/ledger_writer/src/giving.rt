//! The front's end of the buffer.

ghost use Rattle.std.specs.Prelude.{◌≡◌, ◌≤◌, ◌<◌, ◌+◌, ◌-◌, ◌++◌, ◌↔◌, ◌⊎◌, length, IsTrue, MatchBool};
ghost use Rattle.rtrb.specs.Ring.{known_free, sent, ProducerLooked, SameProducer};
ghost use Rattle.ledger_writer.specs.Parcels.{all_octets};

use crate::parcel::{Parcel, ParcelHead};
use crate::shares::{Taking, is_beyond};
use rtrb::Producer;
use std::alloc::Global;

/// How many octets of packets may wait in the buffer.
pub(crate) const ROOM: usize = 67_108_864;

/// How many entries may wait in the buffer.
pub(crate) const PLACES: usize = 180_000;

/// The front's end of the buffer: that of a ring of packets, and that of a ring of heads.
#[derive(Drop)]
pub(crate) struct ParcelGiver {
    packets: Producer<u8, Global>,
    heads: Producer<ParcelHead, Global>,
    ghost whole: { length (sent packets) ≡ all_octets (sent heads) },
}

impl ParcelGiver {
    ghost use Rattle.std.specs.Prelude.{[]};
    ghost use Rattle.ledger_writer.specs.Buffer.{Gives, GivesNothing};
    ghost use Rattle.ledger_writer.specs.Parcels.{Fits, IsCounted, octets_of};
    ghost use Rattle.ledger_writer.specs.Shares.{IsBeyondEither};

    /// Makes the end of these rings, through which nothing passed yet.
    pub(crate) fn new(
        packets: Producer<u8, Global>,
        heads: Producer<ParcelHead, Global>,
    ) -> ParcelGiver
        requires { (sent packets ≡ []) × (sent heads ≡ []) }
        ensures { (result.packets ≡ packets) × (result.heads ≡ heads) }
    {
        ParcelGiver { packets, heads }
    }

    /// Puts a parcel into the buffer, whole, and returns whether there was room for it. Its head goes last, so whoever
    /// takes the head finds all packets.
    pub(crate) fn give(&mut self, parcel: &Parcel<'_>) -> bool
        requires { IsCounted parcel.now }
        ensures given { MatchBool result (Gives self.old parcel.now self.new) (GivesNothing self.old self.new) }
        ensures succeeds { Fits parcel.now.head → 0 < known_free self.old.heads → octets_of parcel.now.head ≤ known_free self.old.packets → IsTrue result }
        ensures free { IsTrue result → (known_free self.old.heads ≤ known_free self.new.heads + 1) × (known_free self.old.packets ≤ known_free self.new.packets + octets_of parcel.now.head) }
    {
        if !parcel.head.fits()
            || self.heads.is_full()
            || self.packets.slots() < parcel.head.octets()
        {
            return false;
        }
        push(&mut self.packets, parcel.sent);
        push(&mut self.packets, parcel.reply);
        push(&mut self.packets, parcel.response);
        self.heads.push_reserved(parcel.head);
        true
    }

    /// Puts a parcel into the buffer as [`ParcelGiver::give`] does, unless it is beyond the share of its client, which is one
    /// of so many and holds so much.
    pub(crate) fn give_share(&mut self, parcel: &Parcel<'_>, clients: usize, held: Taking) -> bool
        requires { IsCounted parcel.now }
        ensures given { MatchBool result (Gives self.old parcel.now self.new) (GivesNothing self.old self.new) }
        ensures succeeds { Fits parcel.now.head → 0 < known_free self.old.heads → octets_of parcel.now.head ≤ known_free self.old.packets → ¬ IsBeyondEither clients held parcel.now.head (known_free self.old.heads) (known_free self.old.packets) → IsTrue result }
        ensures within { IsTrue result → ¬ IsBeyondEither clients held parcel.now.head (known_free self.new.heads + 1) (known_free self.new.packets + octets_of parcel.now.head) }
    {
        if !parcel.head.fits() || self.is_beyond(&parcel.head, clients, held) {
            return false;
        }
        self.give(parcel)
    }

    /// Returns whether a parcel would leave less than half of the buffer free. If so, what is free was looked at just now.
    pub(crate) fn is_past_half(&mut self, head: &ParcelHead) -> bool
        requires { Fits head.now }
        ensures looked { ProducerLooked self.old.heads self.new.heads × ProducerLooked self.old.packets self.new.packets }
        ensures value { IsTrue result ↔ ((known_free self.new.heads - 1 < 90000) ⊎ (known_free self.new.packets - octets_of head.now < 33554432)) }
    {
        let octets = head.octets();
        let places = free_of(&mut self.heads, PLACES / 2 + 1);
        let packets = free_of(&mut self.packets, ROOM / 2 + octets);
        places.saturating_sub(1) < PLACES / 2 || packets.saturating_sub(octets) < ROOM / 2
    }

    fn is_beyond(&mut self, head: &ParcelHead, clients: usize, held: Taking) -> bool
        requires { Fits head.now }
        ensures looked { ProducerLooked self.old.heads self.new.heads × ProducerLooked self.old.packets self.new.packets }
        ensures value { IsTrue result ↔ IsBeyondEither clients held head.now (known_free self.new.heads) (known_free self.new.packets) }
    {
        let octets = head.octets();
        let places = free_of(&mut self.heads, PLACES / 2 + 1) as u64;
        let packets = free_of(&mut self.packets, ROOM / 2 + octets) as u64;
        let clients = clients as u64;
        is_beyond(PLACES as u64, clients, places, held.places, 1)
            || is_beyond(ROOM as u64, clients, packets, held.octets, octets as u64)
    }
}

fn free_of<T>(ring: &mut Producer<T, Global>, enough: usize) -> usize
    ensures looked { ProducerLooked ring.old ring.new }
    ensures value { result ≡ known_free ring.new }
{
    let known = ring.cached_slots();
    if known >= enough { known } else { ring.slots() }
}

/// Adds octets for which there is room.
fn push(ring: &mut Producer<u8, Global>, octets: &[u8])
    requires { length octets.now ≤ known_free ring.old }
    ensures sent { sent ring.new ≡ sent ring.old ++ octets.now }
    ensures free { known_free ring.old ≤ known_free ring.new + length octets.now }
    ensures ring { SameProducer ring.old ring.new }
{
    ring.push_entire_slice(octets).unwrap();
}
