//! The front's end of the buffer, with what was handed over and told as left.

ghost use Rattle.std.specs.Prelude.{◌≡◌, ◌∷◌, ◌++◌, [], ℕ, MatchBool};
ghost use Rattle.rtrb.specs.Ring.{sent};
ghost use Rattle.rad_desk.specs.HandOver.{handed_at};
ghost use Rattle.rad_desk.specs.Leaving.{as_left};
ghost use Rattle.ledger_writer.specs.Buffer.{Gives, GivesNothing};
ghost use Rattle.ledger_writer.specs.declared.parcel.Parcel.{Parcel as TheParcel};
ghost use Rattle.ledger_writer.specs.Parcels.{Fits, IsCounted, IsParcelOf, IsParcelOfCount, IsParcelOfLeft};

use crate::giving::ParcelGiver;
use crate::parcel::{CountKey, Parcel, ParcelHead};
use crate::shares::Taking;
use rad_desk::{Handed, LeftList, LeftRecord, Wire};
use rad_lane::Outgoing;
use std::marker::Model;

/// The front's end of the buffer, with the lists of the responses that were handed over and of the requests that were told
/// as left so far.
///
/// Its type guarantees that each of these was put into the buffer as its parcel or dropped, in order, and that nothing else
/// was put there but counts.
#[derive(Drop)]
pub(crate) struct AccountedGiver {
    giver: ParcelGiver,
    handed: Handed,
    left: LeftList,
}

impl Model for AccountedGiver {
    ghost use Rattle.ledger_writer.specs.Accounted.{Accounted, AreAccountedFor};

    ghost Value = { Accounted };

    ghost view = { λ a. record { giver = a.giver; handed = a.handed.responses; left = a.left.requests } };

    ghost invariant = { λ a. AreAccountedFor a.giver a.handed.responses a.left.requests };
}

impl AccountedGiver {
    /// Makes the end of a buffer into which nothing was put yet.
    pub(crate) fn new(giver: ParcelGiver) -> AccountedGiver
        requires { (sent giver.heads ≡ []) × (sent giver.packets ≡ []) }
        ensures giver { result.giver ≡ giver }
        ensures handed { result.handed ≡ [] }
        ensures left { result.left ≡ [] }
    {
        AccountedGiver {
            giver,
            handed: Handed::new(),
            left: LeftList::new(),
        }
    }

    /// Puts the parcel of a response that is handed over into the buffer, as [`ParcelGiver::give_share`] does, and returns
    /// whether it did. Otherwise the response is dropped.
    pub(crate) fn hand_over<W: Wire>(
        &mut self,
        outgoing: &Outgoing,
        wire: &W,
        parcel: &Parcel<'_>,
        clients: usize,
        held: Taking,
    ) -> bool
        requires counted { IsCounted parcel.now }
        requires its { (time : ℕ) × IsParcelOf time outgoing.now parcel.now }
        ensures put { MatchBool result (Gives self.old.giver parcel.now self.new.giver) (GivesNothing self.old.giver self.new.giver) }
        ensures handed { self.new.handed ≡ self.old.handed ++ handed_at (W.log wire.now) outgoing.now ∷ [] }
        ensures left { self.new.left ≡ self.old.left }
    {
        let is_put = self.giver.give_share(parcel, clients, held);
        self.handed.add(outgoing, wire);
        is_put
    }

    /// Puts the parcel of a request that is told as left into the buffer, and returns whether there was room for it.
    /// Without room the request is not told yet.
    pub(crate) fn give_left(&mut self, told: &LeftRecord<'_>, parcel: &Parcel<'_>) -> bool
        requires counted { IsCounted parcel.now }
        requires its { (time : ℕ) × IsParcelOfLeft time told.now parcel.now }
        ensures put { MatchBool result (Gives self.old.giver parcel.now self.new.giver) (GivesNothing self.old.giver self.new.giver) }
        ensures left { MatchBool result (self.new.left ≡ self.old.left ++ as_left told.now ∷ []) (self.new.left ≡ self.old.left) }
        ensures handed { self.new.handed ≡ self.old.handed }
    {
        let is_put = self.giver.give(parcel);
        if is_put {
            self.left.add(told);
        }
        is_put
    }

    /// Puts so many that are counted of a record into the buffer, and returns whether it did: only if at least half of the
    /// buffer stays free.
    pub(crate) fn give_count(&mut self, time: u64, key: CountKey, count: u64) -> bool
        ensures put { MatchBool result ((parcel : TheParcel) × IsParcelOfCount time key count parcel × Gives self.old.giver parcel self.new.giver) (GivesNothing self.old.giver self.new.giver) }
        ensures handed { self.new.handed ≡ self.old.handed }
        ensures left { self.new.left ≡ self.old.left }
    {
        let parcel = Parcel::of_count(time, key, count);
        if self.giver.is_past_half(&parcel.head) {
            return false;
        }
        self.giver.give(&parcel)
    }

    /// Puts one of what is told of a record into the buffer, and returns whether there was room for it.
    pub(crate) fn give_note(&mut self, time: u64, key: CountKey) -> bool
        ensures put { MatchBool result ((parcel : TheParcel) × IsParcelOfCount time key 1 parcel × Gives self.old.giver parcel self.new.giver) (GivesNothing self.old.giver self.new.giver) }
        ensures handed { self.new.handed ≡ self.old.handed }
        ensures left { self.new.left ≡ self.old.left }
    {
        let note = Parcel::of_count(time, key, 1);
        self.giver.give(&note)
    }

    /// Drops a request that is told as left.
    pub(crate) fn drop_left(&mut self, told: &LeftRecord<'_>)
        ensures put { GivesNothing self.old.giver self.new.giver }
        ensures left { self.new.left ≡ self.old.left ++ as_left told.now ∷ [] }
        ensures handed { self.new.handed ≡ self.old.handed }
    {
        self.left.add(told);
    }

    /// Returns whether a parcel would leave less than half of the buffer free.
    pub(crate) fn is_past_half(&mut self, head: &ParcelHead) -> bool
        requires { Fits head.now }
        ensures put { GivesNothing self.old.giver self.new.giver }
        ensures handed { self.new.handed ≡ self.old.handed }
        ensures left { self.new.left ≡ self.old.left }
    {
        self.giver.is_past_half(head)
    }
}
