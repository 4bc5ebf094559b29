use crate::Sending;
use rad_packet::{Datagram, authenticator_of};
use rad_tables::{Moment, Timed};
use std::marker::Model;

/// The length of a Status-Server whose only attribute is a Message-Authenticator (RFC 5997 section 3), in octets.
pub(crate) const PROBE_LENGTH: usize = 38;

/// A Status-Server that was sent to a home server that is marked down, and is unanswered.
#[derive(Drop)]
pub struct Probe {
    octets: [u8; PROBE_LENGTH],
}

impl Model for Probe {
    ghost use Rattle.std.specs.Prelude.{List, ℕ};

    ghost Value = { List ℕ };

    ghost view = { λ p. p.octets };
}

impl Probe {
    ghost use Rattle.std.specs.Prelude.{◌≡◌, length};
    ghost use Rattle.rad_packet.specs.Packet.{authenticator_of as the_authenticator};

    /// Makes a probe of the Status-Server in the datagram.
    pub(crate) fn of(datagram: &Datagram) -> Probe
        requires { length datagram.now ≡ 38 }
        ensures { result ≡ datagram.now }
    {
        let mut octets = [0; PROBE_LENGTH];
        octets.copy_from_slice(datagram.bytes());
        Probe { octets }
    }

    /// Returns the octets that were sent.
    pub fn octets(&self) -> &[u8]
        ensures { result.now ≡ self.now }
    {
        &self.octets
    }

    /// Returns the Authenticator that was sent.
    pub(crate) fn authenticator(&self) -> [u8; 16]
        ensures { result ≡ the_authenticator self.now }
    {
        authenticator_of(&self.octets)
    }
}

/// What is outstanding under a pair of source port and Identifier.
#[derive(Drop)]
pub enum Entry {
    /// A request that was sent and is unanswered.
    Sending(Sending),
    /// The outstanding probe.
    Probe(Probe),
}

impl Entry {
    ghost use Rattle.std.specs.Prelude.{◌≡◌, ◌<◌, ◌≤◌};
    ghost use Rattle.rad_lane.specs.declared.entry.Entry.TheVariants.{Sending as sending};
    ghost use Rattle.rad_lane.specs.Entries.{IfSending};
    ghost use Rattle.rad_lane.specs.Outstanding.{sent_again};

    /// Retransmits a sending that is not spent: writes its octets into the datagram and returns the request's number.
    pub(crate) fn send_again(
        &mut self,
        now: Moment,
        first_wait: u32,
        datagram: &mut Datagram,
    ) -> u64
        requires first_least { 100 ≤ first_wait }
        requires first_most { first_wait ≤ 60000 }
        requires few { IfSending self.old (λ e. e.sendings < 10) }
        ensures again { IfSending self.old (λ e. self.new ≡ sending (sent_again first_wait now e)) }
        ensures octets { IfSending self.old (λ e. datagram.new ≡ e.octets) }
        ensures number { IfSending self.old (λ e. result ≡ e.request.stamp.number) }
    {
        match self {
            Entry::Sending(sending) => {
                datagram.load(&sending.packet());
                sending.send_again(now, first_wait);
                sending.number()
            }
            Entry::Probe(_) => unreachable!(),
        }
    }
}

/// The due time, number and spent state by which the slots choose the next entry. A probe is never due: a lane has
/// none while its home server is marked up, and retransmits nothing while it is marked down.
impl Timed for Entry {
    ghost use Rattle.rad_lane.specs.Entries.{due_in, number_in, is_spent_in};

    ghost due_of = { due_in };

    ghost number_of = { number_in };

    ghost spent_of = { is_spent_in };

    fn due(&self) -> u64 {
        match self {
            Entry::Sending(sending) => sending.due(),
            Entry::Probe(_) => u64::MAX,
        }
    }

    fn number(&self) -> u64 {
        match self {
            Entry::Sending(sending) => sending.number(),
            Entry::Probe(_) => 0,
        }
    }

    fn spent(&self) -> bool {
        match self {
            Entry::Sending(sending) => sending.is_spent(),
            Entry::Probe(_) => false,
        }
    }
}
