//! A response, with the packets and secrets that verify it.

use crate::mark::{Mark, VALUE_LENGTH};
use crate::octets::Octets;
use crate::secret::Secret;
use rad_packet::PacketRef;
use std::alloc::{AllocError, Global};
use std::marker::Model;

/// The part of a request that its response depends on (RFC 2866 section 3).
#[derive(Clone, Copy, Debug, PartialEq, Eq)]
pub struct RequestHead {
    /// The request's Identifier.
    pub identifier: u8,
    /// The request's Authenticator.
    pub authenticator: [u8; 16],
}

/// A response to a request, with everything that verifies it: the head of the request, the packet that was sent to
/// the home server, the home server's reply to it, and the secrets of the client and of the home server. Only
/// `respond` and `copy` make one.
///
/// Everything except the head is in one list of octets, so a `Reply` is one allocation.
#[derive(Drop)]
pub struct Reply {
    /// In this order: the response to the client, the packet that was sent to the home server, the home server's reply
    /// without padding, the client's secret, the home server's secret.
    octets: Octets,
    /// The offset at which the response ends and the sending begins.
    response_end: u16,
    /// The offset at which the sending ends and the reply begins.
    sending_end: u16,
    /// The offset at which the reply ends and the client's secret begins.
    reply_end: u16,
    /// The length of the client's secret in octets. The rest is the home server's secret.
    client_count: u8,
    /// The head of the request that is answered.
    head: RequestHead,
}

impl Model for Reply {
    ghost use Rattle.rad_auth.specs.Replied.{Replied};

    ghost Value = { Replied };

    ghost use Rattle.rad_auth.specs.internal.Parted.{parted, IsParted};

    ghost view = { λ r. parted r.head r.octets r.response_end r.sending_end r.reply_end r.client_count };

    ghost invariant = { λ r. IsParted r.head r.octets r.response_end r.sending_end r.reply_end r.client_count };
}

impl Reply {
    ghost use Rattle.std.specs.Prelude.{◌≡◌, ◌<◌, ◌^◌, ◌++◌, List, ℕ, IfOk};
    ghost use Rattle.rad_packet.specs.Packet.{IsPacketText};
    ghost use Rattle.rad_auth.specs.Answers.{Answers};
    ghost use Rattle.rad_auth.specs.Mark.{EndsWithMark, mark_value};
    ghost use Rattle.rad_auth.specs.Replied.{IsAnswer};
    ghost use Rattle.rad_auth.specs.declared.mark.Mark.{Mark};

    /// Appends copies of the packets and secrets to a response, and keeps all of it. It allocates nothing if the vector
    /// has room for them.
    ///
    /// # Errors
    ///
    /// If memory is needed and refused.
    pub(crate) fn keep(
        head: RequestHead,
        response: Vec<u8>,
        sending: &PacketRef<'_>,
        reply: &PacketRef<'_>,
        client: &Secret,
        home: &Secret,
    ) -> Result<Reply, AllocError>
        requires { Answers head sending.now reply.now client.now home.now response.items }
        ensures { IfOk result (λ kept. kept ≡ record { head = head; sending = sending.now; reply = reply.now; client = client.now; home = home.now; response = response.items }) }
    {
        let mut octets = response;
        let response_end = octets.len() as u16;
        octets.extend_from_slice(sending.octets())?;
        let sending_end = octets.len() as u16;
        octets.extend_from_slice(reply.octets())?;
        let reply_end = octets.len() as u16;
        octets.extend_from_slice(client.octets())?;
        octets.extend_from_slice(home.octets())?;
        Ok(Reply {
            octets: Octets::from_vec(octets),
            response_end,
            sending_end,
            reply_end,
            client_count: client.octets().len() as u8,
            head,
        })
    }

    /// Copies the reply, with all of its octets.
    ///
    /// # Errors
    ///
    /// If memory is refused.
    pub fn copy(&self, alloc: Global) -> Result<Reply, AllocError>
        ensures { IfOk result (λ copy. copy ≡ self.now) }
    {
        Ok(Reply {
            octets: Octets::copy_of(alloc, self.octets.as_slice())?,
            response_end: self.response_end,
            sending_end: self.sending_end,
            reply_end: self.reply_end,
            client_count: self.client_count,
            head: self.head,
        })
    }

    /// Returns the head of the request that is answered.
    pub fn head(&self) -> RequestHead
        ensures value { result ≡ self.now.head }
        ensures answers { IsAnswer self.now }
    {
        self.head
    }

    /// Returns the octets of the packet that was sent to the home server.
    pub fn sending(&self) -> &[u8]
        ensures { result.now ≡ self.now.sending }
    {
        &self.octets.as_slice()[usize::from(self.response_end)..usize::from(self.sending_end)]
    }

    /// Returns the mark of the packet that was sent to the home server: its last attribute (RFC 2865 section 5.33).
    pub fn mark(&self) -> Mark
        ensures packet { IsPacketText self.now.sending }
        ensures ends { EndsWithMark result self.now.sending }
        ensures alone { (mark : Mark) → mark.lane < 2 ^ 16 → mark.number < 2 ^ 64 → EndsWithMark mark self.now.sending → result ≡ mark }
    {
        let end = usize::from(self.sending_end);
        Mark::of_value(&self.octets.as_slice()[end - VALUE_LENGTH..end])
    }

    /// Returns the octets of the home server's reply, without padding.
    pub fn reply(&self) -> &[u8]
        ensures { result.now ≡ self.now.reply }
    {
        &self.octets.as_slice()[usize::from(self.sending_end)..usize::from(self.reply_end)]
    }

    /// Returns the octets of the response to the client.
    pub fn response(&self) -> &[u8]
        ensures { result.now ≡ self.now.response }
    {
        &self.octets.as_slice()[..usize::from(self.response_end)]
    }
}
