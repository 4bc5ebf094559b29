//! The steps of a lane, one at a time.

ghost use Rattle.std.specs.Prelude.{◌≡◌, ◌≢◌, ◌≤◌, Some, MatchOption, false, true};
ghost use Rattle.std.specs.Bool.{OnTrue, OnFalse};
ghost use Rattle.std.specs.FinMap as map;
ghost use Rattle.rad_tables.specs.Pairs.{IsFirstFree, IsInRange};
ghost use Rattle.rad_lane.specs.declared.watch.Watch.TheVariants.{Up as up, Down as down};
ghost use Rattle.rad_lane.specs.Outstanding.{Outstanding};
ghost use Rattle.rad_lane.specs.Datagrams.{Datagrams};
ghost use Rattle.rad_lane.specs.Dues.{IsLeastOfAll, IsNextDue, NoneDue, NoneOutstanding, as_moment};
ghost use Rattle.rad_lane.specs.Steps.{AllotsAnother, Steps, StepsWhileDown, StepsWhileUp, NothingToSend};
ghost use Rattle.rad_lane.specs.internal.NextDue.{MaySend};

use crate::{Entry, Lane, Record, Sending, Setup, Watch};
use block_queue::Fifo;
use rad_packet::Datagram;
use rad_tables::{Moment, Slot, Slots};

/// What a step did. If it sent something, the octets are in the datagram.
#[derive(Clone, Copy, Debug, PartialEq, Eq)]
pub enum Action {
    /// The request of this number was sent for the first time, under this pair.
    Sent(u64, Slot),
    /// The request of this number was retransmitted, under this pair.
    Resent(u64, Slot),
    /// A Status-Server was sent to the home server, under this pair.
    Probed(Slot),
    /// The home server was marked down.
    WentDown,
    /// The home server was marked up.
    WentUp,
    /// There is nothing to do before this moment, or until a request or a datagram arrives.
    Idle(Option<Moment>),
}

impl<Q: Fifo<Record>> Lane<Q> {
    /// Takes the next step. While the home server is marked up, the step retransmits the next due sending that is not
    /// spent. If none is due, it marks the home server down if a spent sending is due, and otherwise sends the first
    /// request of the queue, if the window has room. While the home server is marked down, the step marks it up if
    /// `down_wait` is over, and otherwise probes it if the next probe is due, with `random` as the Authenticator. If
    /// none of this applies, the step is idle.
    ///
    /// It takes no memory. It looks at each outstanding sending at most four times, and at none before it sends the
    /// first request of the queue, unless one may be due. Marking the home server up changes each of them.
    pub fn step(&mut self, moment: Moment, random: [u8; 16], datagram: &mut Datagram) -> Action
        ensures steps { Steps self.old moment random result (record { before = datagram.old; after = datagram.new }) self.new }
        ensures another { AllotsAnother self.old result }
    {
        let now = self.moment_of(moment);
        match self.watch {
            Watch::Up => self.step_while_up(now, datagram),
            Watch::Down {
                until,
                next_probe,
                probe,
            } => self.step_while_down(now, until, next_probe, probe, random, datagram),
        }
    }

    fn step_while_down(
        &mut self,
        now: Moment,
        until: u64,
        next_probe: u64,
        out: Option<Slot>,
        random: [u8; 16],
        datagram: &mut Datagram,
    ) -> Action
        requires later { self.old.last ≤ now }
        requires is_down { self.old.watch ≡ down until next_probe out }
        ensures steps { StepsWhileDown self.old now random until next_probe out result (record { before = datagram.old; after = datagram.new }) self.new }
        ensures another { AllotsAnother self.old result }
    {
        if until <= now.get() {
            self.go_up(now);
            Action::WentUp
        } else if next_probe <= now.get() {
            Action::Probed(self.probe(now, until, out, random, datagram))
        } else {
            self.set_last(now);
            Action::Idle(Some(moment_at(until.min(next_probe))))
        }
    }

    fn step_while_up(&mut self, now: Moment, datagram: &mut Datagram) -> Action
        requires is_up { self.old.watch ≡ up }
        requires later { self.old.last ≤ now }
        ensures steps { StepsWhileUp self.old now result (record { before = datagram.old; after = datagram.new }) self.new }
        ensures another { AllotsAnother self.old result }
    {
        if now.get() < self.none_before {
            return self.go_on(now, datagram);
        }
        if let Some(slot) = self.next_due(false, now) {
            return self.resend(slot, now, datagram);
        }
        if self.next_due(true, now).is_some() {
            self.go_down(now);
            return Action::WentDown;
        }
        self.note_earliest();
        self.go_on(now, datagram)
    }

    /// Returns the pair of the sending that is due first, of those that are spent or of those that are not, if it is due
    /// now. It looks at each outstanding sending once.
    fn next_due(&self, spent: bool, now: Moment) -> Option<Slot>
        requires { self.now.watch ≡ up }
        ensures { MatchOption result (NoneDue self.now now spent) (λ slot. (entry : Outstanding) × IsNextDue self.now now spent slot entry) }
    {
        match self.slots.first_due(spent) {
            None => None,
            Some(first) => {
                if first.due <= now.get() {
                    Some(first.slot)
                } else {
                    None
                }
            }
        }
    }

    /// Sends the first request of the queue, if it may be sent, while no sending is due. Otherwise the lane is idle.
    fn go_on(&mut self, now: Moment, datagram: &mut Datagram) -> Action
        requires is_up { self.old.watch ≡ up }
        requires later { self.old.last ≤ now }
        requires fresh { NoneDue self.old now false }
        requires spent { NoneDue self.old now true }
        ensures steps { StepsWhileUp self.old now result (record { before = datagram.old; after = datagram.new }) self.new }
        ensures another { AllotsAnother self.old result }
    {
        if self.may_send() {
            return self.send_first(now, datagram);
        }
        let earliest = self.note_earliest();
        self.set_last(now);
        Action::Idle(earliest.map(moment_at))
    }

    /// Returns when the first of the outstanding sendings is due, in milliseconds, and notes it. It looks at each once.
    fn note_earliest(&mut self) -> Option<u64>
        requires { self.old.watch ≡ up }
        ensures same { self.new ≡ self.old }
        ensures earliest { MatchOption result (NoneOutstanding self.old) (IsLeastOfAll self.old) }
    {
        let earliest = self.slots.earliest_due();
        self.none_before = earliest.unwrap_or(u64::MAX);
        earliest
    }

    fn resend(&mut self, slot: Slot, now: Moment, datagram: &mut Datagram) -> Action
        requires is_up { self.old.watch ≡ up }
        requires later { self.old.last ≤ now }
        requires next { (entry : Outstanding) × IsNextDue self.old now false slot entry }
        ensures steps { StepsWhileUp self.old now result (record { before = datagram.old; after = datagram.new }) self.new }
        ensures another { AllotsAnother self.old result }
    {
        let first_wait = self.setup.limits().numbers().first_wait;
        let number = match self.slots.get_mut(slot) {
            Some(entry) => entry.send_again(now, first_wait, datagram),
            None => unreachable!(),
        };
        self.last = now;
        Action::Resent(number, slot)
    }

    fn send_first(&mut self, now: Moment, datagram: &mut Datagram) -> Action
        requires is_up { self.old.watch ≡ up }
        requires later { self.old.last ≤ now }
        requires fresh { NoneDue self.old now false }
        requires spent { NoneDue self.old now true }
        requires may { MaySend self.old }
        ensures steps { StepsWhileUp self.old now result (record { before = datagram.old; after = datagram.new }) self.new }
        ensures another { AllotsAnother self.old result }
    {
        let slot = free_slot(&self.slots, &self.setup);
        let record = self.queued.pop_front().unwrap();
        let number = record.stamp().number;
        let sending = Sending::first(record, &self.setup, slot.identifier, now, datagram);
        self.none_before = self.none_before.min(sending.due());
        self.slots.put(slot, Entry::Sending(sending));
        self.outstanding += 1;
        self.last = now;
        Action::Sent(number, slot)
    }

    fn may_send(&self) -> bool
        ensures may { OnTrue result (MaySend self.now) }
        ensures not { OnFalse result (NothingToSend self.now) }
    {
        !self.queued.is_empty() && self.outstanding < self.setup.limits().numbers().window as usize
    }
}

/// Returns the pair for the next first sending or probe: the first free one. There always is one other than the pair
/// last allotted, since the window is at least two below the number of pairs.
pub(crate) fn free_slot(slots: &Slots<Entry>, setup: &Setup) -> Slot
    requires fits { map.len slots.now.entries ≤ setup.now.limits.window }
    requires pairs { slots.now.ports ≡ setup.now.ports }
    ensures free { IsFirstFree slots.now result }
    ensures in_range { IsInRange slots.now.ports result }
    ensures few { setup.now.limits.window ≤ 1022 }
    ensures another { slots.now.allotted ≢ Some result }
{
    let limits = setup.limits().numbers();
    prove!(limits.window < 256 * limits.ports);
    slots.allot().unwrap()
}

fn moment_at(milliseconds: u64) -> Moment
    ensures { result ≡ as_moment milliseconds }
{
    Moment::new(milliseconds.min((1 << 62) - 1)).unwrap()
}
