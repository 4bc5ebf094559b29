//! What passes from the front to the thread: an entry of the spool.

ghost use Rattle.std.specs.Prelude.{◌≤◌, length};
ghost use Rattle.spool_files.specs.Entries.{greatest_text, least_text};

use rad_auth::{Octets, RequestHead};
use rad_lane::Outgoing;
use rad_realms::Checked;
use rad_tables::Key;
use spool_files::{Answered, Came, Head, LocalAddress};
use std::alloc::{AllocError, Global};

/// An entry of a spool on its way to the thread that writes it.
#[derive(Drop)]
pub(crate) struct Parcel {
    /// The entry less its text.
    pub(crate) head: Head,
    /// The entry's text: the octets of a request or of a response.
    pub(crate) octets: Octets,
    /// How many requests were put into their ring before it.
    pub(crate) before: u64,
    ghost least: { least_text head ≤ length octets },
    ghost greatest: { length octets ≤ greatest_text head },
}

/// When and by which run a parcel is put.
#[derive(Clone, Copy)]
pub(crate) struct Putting {
    /// The run.
    pub(crate) run: u64,
    /// The time, in milliseconds since 1970.
    pub(crate) time: u64,
    /// How many requests were put into their ring before.
    pub(crate) before: u64,
}

/// Which request a lane took as new.
#[derive(Clone, Copy)]
pub(crate) struct NewRecord {
    /// The lane.
    pub(crate) lane: u16,
    /// The number that the lane gave it.
    pub(crate) number: u64,
}

impl Parcel {
    ghost use Rattle.std.specs.Prelude.{◌≡◌, IfOk, IfSome};
    ghost use Rattle.rad_packet.specs.Packet.{IsPacketText};
    ghost use Rattle.spool_writer.specs.Parcels.{IsAnsweredOf, IsCameOf, key_answered, key_of};

    /// Returns the parcel of a request that a lane took as new, which came to this address.
    ///
    /// # Errors
    ///
    /// If memory is refused.
    pub(crate) fn of_request(
        alloc: Global,
        request: &Checked<'_>,
        taken: NewRecord,
        ours: LocalAddress,
        arrival: u64,
        putting: Putting,
    ) -> Result<Parcel, AllocError>
        ensures { IfOk result (λ parcel. IsCameOf (record { request = request.now; lane = taken.lane; number = taken.number }) parcel) }
    {
        let octets = Octets::copy_of(alloc, request.packet().octets())?;
        let came = Came {
            key: Parcel::key_of(request),
            ours,
            arrival,
            run: putting.run,
            lane: taken.lane,
            number: taken.number,
            moment: putting.time,
        };
        Ok(Parcel {
            head: Head::Came(came),
            octets,
            before: putting.before,
        })
    }

    /// Returns the parcel of a response.
    ///
    /// # Errors
    ///
    /// If memory is refused.
    pub(crate) fn of_response(
        alloc: Global,
        outgoing: &Outgoing,
        putting: Putting,
    ) -> Result<Parcel, AllocError>
        ensures { IfOk result (λ parcel. IsAnsweredOf outgoing.now parcel) }
    {
        let octets = Octets::copy_of(alloc, outgoing.reply.response())?;
        let answered = Answered {
            key: Parcel::key_answered(outgoing),
            run: putting.run,
            lane: outgoing.reply.mark().lane,
            serial: outgoing.serial,
            moment: putting.time,
        };
        Ok(Parcel {
            head: Head::Answered(answered),
            octets,
            before: putting.before,
        })
    }

    /// Returns the parcel of an entry that has this text, unless that is too short or too long for it, or memory is refused.
    pub(crate) fn of_entry(alloc: Global, head: Head, text: &[u8], before: u64) -> Option<Parcel>
        ensures { IfSome result (λ parcel. (parcel.head ≡ head) × (parcel.octets ≡ text.now)) }
    {
        if text.len() < head.least_text() || head.greatest_text() < text.len() {
            return None;
        }
        let octets = Octets::copy_of(alloc, text).ok()?;
        Some(Parcel {
            head,
            octets,
            before,
        })
    }

    /// Returns the key of a request.
    pub(crate) fn key_of(request: &Checked<'_>) -> Key
        ensures { result ≡ key_of request.now }
    {
        let packet = request.packet();
        Key {
            authenticator: packet.authenticator(),
            client: request.client(),
            port: request.port(),
            identifier: packet.identifier(),
        }
    }

    /// Returns the key of the request that a response answers.
    fn key_answered(outgoing: &Outgoing) -> Key
        ensures key { result ≡ key_answered outgoing.now }
        ensures response { IsPacketText outgoing.now.reply.response }
    {
        let RequestHead {
            identifier,
            authenticator,
        } = outgoing.reply.head();
        Key {
            authenticator,
            client: outgoing.client,
            port: outgoing.port,
            identifier,
        }
    }
}
