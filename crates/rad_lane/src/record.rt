use crate::Stamp;
use crate::session::session_of;
use rad_auth::{Buffer, Octets, Secret};
use rad_packet::PacketRef;
use rad_realms::user_name_of;
use std::marker::Model;

/// A request that a lane accepted: its stamp, its packet, and the secret of the client that sent it.
///
/// Operators bill by it, so its type keeps that the packet is a request of that stamp, valid under that secret.
#[derive(Drop)]
pub struct Record {
    /// The origin and time of the request.
    stamp: Stamp,
    /// The packet's octets, without padding.
    text: Octets,
    /// The client's secret, under which the packet is valid.
    client_secret: Secret,
    /// The buffer for the octets to be sent, until the first sending fills it.
    spare: Option<Buffer>,
}

impl Model for Record {
    ghost use Rattle.rad_lane.specs.Stamp.{IsRecord, Kept, room_of};

    ghost Value = { Kept };

    ghost view = { λ r. record { recorded = record { stamp = r.stamp; text = r.text; client_secret = r.client_secret }; room = room_of r.spare } };

    ghost invariant = { λ r. IsRecord (record { stamp = r.stamp; text = r.text; client_secret = r.client_secret }) };
}

impl Record {
    ghost use Rattle.std.specs.Prelude.{◌≡◌, ◌≤◌, length, option_copied};
    ghost use Rattle.rad_lane.specs.Stamp.{IsRecord};
    ghost use Rattle.rad_lane.specs.Session.{session_id};
    ghost use Rattle.rad_config.specs.Realm.{user_name};

    /// Makes a record, with a buffer for the octets to be sent.
    pub(crate) fn new(stamp: Stamp, text: Octets, client_secret: Secret, spare: Buffer) -> Record
        requires { IsRecord (record { stamp = stamp; text = text; client_secret = client_secret }) }
        ensures { result ≡ record { recorded = record { stamp = stamp; text = text; client_secret = client_secret }; room = spare.room } }
    {
        Record {
            stamp,
            text,
            client_secret,
            spare: Some(spare),
        }
    }

    /// Returns the stamp of the request.
    pub fn stamp(&self) -> Stamp
        ensures value { result ≡ self.now.recorded.stamp }
        ensures is_record { IsRecord self.now.recorded }
    {
        self.stamp
    }

    /// Returns the request's octets, without padding.
    pub fn text(&self) -> &[u8]
        ensures { result.now ≡ self.now.recorded.text }
    {
        self.text.as_slice()
    }

    /// Returns the secret of the client that sent the request.
    pub fn client_secret(&self) -> &Secret
        ensures { result.now ≡ self.now.recorded.client_secret }
    {
        &self.client_secret
    }

    /// Returns the Value of the request's first Acct-Session-Id (RFC 2866 section 5.5), if it has one.
    pub fn session(&self) -> Option<&[u8]>
        ensures { option_copied result ≡ session_id self.now.recorded.text }
    {
        session_of(&self.packet())
    }

    /// Returns the Value of the request's first User-Name (RFC 2865 section 5.1), if it has one.
    pub fn user(&self) -> Option<&[u8]>
        ensures { option_copied result ≡ user_name self.now.recorded.text }
    {
        user_name_of(&self.packet())
    }

    /// Returns the request as a packet.
    pub(crate) fn packet(&self) -> PacketRef<'_>
        ensures value { result ≡ self.now.recorded.text }
        ensures is_record { IsRecord self.now.recorded }
    {
        PacketRef::over(self.text.as_slice())
    }

    /// Fills the buffer for the octets to be sent, and returns it.
    pub(crate) fn fill_spare(&mut self, octets: &[u8]) -> Octets
        requires some { 1 ≤ length octets.now }
        requires room { length octets.now ≤ self.old.room }
        ensures octets { result ≡ octets.now }
        ensures record { self.new.recorded ≡ self.old.recorded }
    {
        let mut spare = self.spare.take().unwrap();
        spare.fill(octets);
        spare.into_octets()
    }
}
