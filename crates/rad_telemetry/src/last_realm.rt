//! The realm of the last packet that was dropped since its realm leads to no lane.

use crate::packet_words::KeyWord;
use rad_desk::Session;
use rad_log::lock_soon;
use rad_packet::read;
use rad_realms::realm_of_packet;
use std::fmt::{self, Display};
use std::sync::Mutex;

/// The realm of the last packet that was dropped since its realm leads to no lane, if it had one. The front keeps it, and
/// takes no memory for it. While another thread logs it, the front does not wait, and does not keep the realm of its packet.
/// It is printed as a log line has it, with a space before it.
#[derive(Drop)]
pub struct LastRealm {
    /// The octets of a realm are stored as those of a session, which has as many at most.
    realm: Mutex<Option<Session>>,
}

impl LastRealm {
    /// Makes a value that keeps no realm yet.
    pub fn new() -> LastRealm {
        LastRealm {
            realm: Mutex::new(None),
        }
    }

    /// Keeps the realm of a packet, or that it has none.
    pub fn keep(&self, packet: &[u8]) {
        if let Ok(packet) = read(packet) {
            if let Some(mut kept) = self.realm.try_lock() {
                *kept = realm_of_packet(&packet).map(Session::of);
            }
        }
    }
}

impl Display for LastRealm {
    fn fmt<W: fmt::Write>(&self, f: &mut fmt::Formatter<W>) -> fmt::Result {
        match lock_soon(&self.realm) {
            Some(realm) => KeyWord("realm", realm.as_ref().map(Session::octets)).fmt(f),
            None => Ok(()),
        }
    }
}
