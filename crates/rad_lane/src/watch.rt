//! Whether the home server is marked up or down, and the probes that find out whether it answers (RFC 5997).

ghost use Rattle.std.specs.Prelude.{◌≡◌, ◌≢◌, ◌+◌, ◌≤◌, ℕ, None, Some};
ghost use Rattle.rad_lane.specs.declared.watch.Watch.TheVariants.{Up as up, Down as down};
ghost use Rattle.rad_lane.specs.Watch.{GoesUpIfDown, GoesUp};
ghost use Rattle.rad_lane.specs.Steps.{Probes, freed};

use crate::stepping::free_slot;
use crate::{Entry, Lane, Probe, Record};
use block_queue::Fifo;
use rad_auth::make_status;
use rad_packet::Datagram;
use rad_tables::{Change, Moment, Slot, Slots};

/// Whether the home server is marked up or down.
#[derive(Clone, Copy, Debug, PartialEq, Eq)]
pub enum Watch {
    /// It is marked up.
    Up,
    /// It is marked down. Moments are in milliseconds.
    Down {
        /// It is marked down until this moment, or until it answers.
        until: u64,
        /// The moment when the next probe is due.
        next_probe: u64,
        /// The pair of the outstanding probe, if there is one.
        probe: Option<Slot>,
    },
}

impl Watch {
    ghost use Rattle.std.specs.Prelude.{◌≡◌};
    ghost use Rattle.rad_lane.specs.Watch.{probe_of};

    /// Returns the pair of the outstanding probe, if there is one.
    pub(crate) fn probe(&self) -> Option<Slot>
        ensures { result ≡ probe_of self.now }
    {
        match self {
            Watch::Up => None,
            Watch::Down { probe, .. } => *probe,
        }
    }
}

/// The change of each sending when the home server is marked up.
#[derive(Drop)]
struct Renewal {
    now: Moment,
}

impl Change<Entry> for Renewal {
    ghost use Rattle.rad_lane.specs.Entries.{renewed_in};

    ghost changed = { λ r. renewed_in r.now };

    fn change(&self, entry: &mut Entry) {
        if let Entry::Sending(sending) = entry {
            sending.renew(self.now);
        }
    }
}

impl<Q: Fifo<Record>> Lane<Q> {
    /// Marks the home server down; the first probe is due at once.
    pub(crate) fn go_down(&mut self, now: Moment)
        requires later { self.old.last ≤ now }
        requires is_up { self.old.watch ≡ up }
        ensures { self.new ≡ record self.old { watch = down (now + self.old.setup.limits.down_wait) now None; last = now } }
    {
        let wait = self.setup.limits().numbers().down_wait;
        self.watch = Watch::Down {
            until: now.get() + u64::from(wait),
            next_probe: now.get(),
            probe: None,
        };
        self.last = now;
    }

    /// Marks the home server up: frees the probe's pair, and makes each sending due at once, with a new round.
    pub(crate) fn go_up(&mut self, now: Moment)
        requires later { self.old.last ≤ now }
        ensures { GoesUp now (record self.old { last = now }) self.new }
    {
        free(&mut self.slots, self.watch.probe());
        self.slots.change_each(&Renewal { now });
        self.none_before = 0;
        self.watch = Watch::Up;
        self.last = now;
    }

    /// Marks the home server up if it is marked down, after a valid answer from it.
    pub(crate) fn go_up_if_down(&mut self, now: Moment)
        requires later { self.old.last ≤ now }
        ensures { GoesUpIfDown now (record self.old { last = now }) self.new self.old.watch }
    {
        match self.watch {
            Watch::Up => self.set_last(now),
            Watch::Down { .. } => self.go_up(now),
        }
    }

    /// Probes the home server with `random` as the Authenticator, in place of the outstanding probe. It hashes the
    /// probe once.
    pub(crate) fn probe(
        &mut self,
        now: Moment,
        until: u64,
        out: Option<Slot>,
        random: [u8; 16],
        datagram: &mut Datagram,
    ) -> Slot
        requires later { self.old.last ≤ now }
        requires is_down { (next : ℕ) × (self.old.watch ≡ down until next out) }
        ensures probes { Probes self.old now random until out result (record { before = datagram.old; after = datagram.new }) self.new }
        ensures another { self.old.allotted ≢ Some result }
    {
        free(&mut self.slots, out);
        let slot = free_slot(&self.slots, &self.setup);
        make_status(slot.identifier, random, self.setup.home(), datagram);
        self.slots.put(slot, Entry::Probe(Probe::of(datagram)));
        let every = self.setup.limits().numbers().probe_every;
        self.watch = Watch::Down {
            until,
            next_probe: now.get() + u64::from(every),
            probe: Some(slot),
        };
        self.last = now;
        slot
    }
}

/// Frees a pair, if there is one.
pub(crate) fn free(slots: &mut Slots<Entry>, pair: Option<Slot>)
    ensures { slots.new ≡ record slots.old { entries = freed slots.old.entries pair } }
{
    if let Some(slot) = pair {
        slots.take(slot);
    }
}
