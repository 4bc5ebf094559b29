//! A configuration, and finding a client or a lane in it.

use crate::clients::{Client, Clients};
use crate::homes::{Home, Homes};
use crate::reading::Endpoint;
use crate::realms::{Destination, Realm, Realms, realm_of};
use std::alloc::AllocError;
use std::marker::Model;
use std::sync::Arc;

/// A configuration: the address to listen on, the clients, the home servers with one lane each, and the realms that
/// lead to them.
#[derive(Drop)]
pub struct Config {
    /// The address and port on which the clients' datagrams are received.
    pub(crate) listen: Endpoint,
    /// How long the program waits for outstanding requests at its end, in milliseconds.
    pub(crate) linger: u32,
    /// The clients, 1 to 256, found by address.
    pub(crate) clients: Clients,
    /// The home servers, 1 to 64. The index of one is its lane.
    pub(crate) homes: Homes,
    /// The realms, at most 256, found by name.
    pub(crate) realms: Arc<Realms>,
    /// The lane of requests without a realm, if there is a default home server.
    pub(crate) default_lane: Option<u16>,
    /// The lane of the realms that are in no row of the table, if there is a home server for them.
    pub(crate) other_lane: Option<u16>,
}

impl Model for Config {
    ghost use Rattle.std.specs.Arc.{arc_value};
    ghost use Rattle.rad_config.specs.Configuration.{Configuration};
    ghost use Rattle.rad_config.specs.WellFormed.{IsWellFormed};

    ghost Value = { Configuration };

    ghost view = { λ c. record { listen = c.listen; linger = c.linger; clients = c.clients; homes = c.homes; realms = arc_value c.realms; default_lane = c.default_lane; other_lane = c.other_lane } };

    ghost invariant = { λ c. IsWellFormed (record { listen = c.listen; linger = c.linger; clients = c.clients; homes = c.homes; realms = arc_value c.realms; default_lane = c.default_lane; other_lane = c.other_lane }) };
}

impl Config {
    ghost use Rattle.std.specs.Arc.{arc_value};
    ghost use Rattle.std.specs.Prelude.{◌≡◌, ◌<◌, ◌≤◌, Some, All, length, IfOk, IfSome, option_copied, option_map};
    ghost use Rattle.rad_config.specs.Realm.{client_of, lane_in, lane_by, lane_of, IsRank};
    ghost use Rattle.rad_config.specs.WellFormed.{IsWellFormed};

    /// Returns the client with an IPv4 address. It takes time logarithmic in the number of clients, and allocates
    /// nothing.
    pub fn client_of(&self, address: [u8; 4]) -> Option<&Client>
        ensures found { option_copied result ≡ client_of self.now address }
        ensures address { IfSome result (λ client. client.now.address ≡ address) }
    {
        self.clients.find(address)
    }

    #[tactic(auto, unfolding(crate::specs::Realm::lane_in))]
    fn destination_of_name(&self, name: &[u8]) -> Option<Destination>
        ensures lane { option_map (λ d. d.lane) result ≡ lane_in self.now.realms self.now.other_lane name.now }
        ensures rank { IfSome result (λ d. IsRank self.now.realms d.lane (Some name.now) d.rank) }
    {
        if name.is_empty() {
            return None;
        }
        if let Some(destination) = self.realms.find(name) {
            return Some(destination);
        }
        let lane = self.other_lane?;
        Some(Destination { lane, rank: None })
    }

    /// Returns where a request with this realm leads, or one without a realm. A realm that is in no row of the table
    /// leads to the lane of all other realms, if there is one, and an empty realm leads nowhere. Without a realm, this is
    /// the lane of the default home server, if there is one. It takes time logarithmic in the number of realms, and
    /// allocates nothing.
    pub fn destination_of(&self, realm: Option<&[u8]>) -> Option<Destination>
        ensures lane { option_map (λ d. d.lane) result ≡ lane_by self.now (option_copied realm.entry) }
        ensures rank { IfSome result (λ d. IsRank self.now.realms d.lane (option_copied realm.entry) d.rank) }
        ensures within { IfSome result (λ d. d.lane < length self.now.homes) }
    {
        match realm {
            None => {
                let lane = self.default_lane?;
                Some(Destination { lane, rank: None })
            }
            Some(name) => self.destination_of_name(name),
        }
    }

    /// Returns the lane that a User-Name's value leads to: that of its realm. Without a User-Name, or without a realm in
    /// it, this is the lane of the default home server, if there is one. A realm that is in no row of the table leads to
    /// the lane of all other realms, if there is one, and an empty realm leads nowhere. It takes time logarithmic in the
    /// number of realms, and allocates nothing.
    pub fn lane_of(&self, user_name: Option<&[u8]>) -> Option<u16>
        ensures lane { result ≡ lane_of self.now (option_copied user_name.entry) }
        ensures within { IfSome result (λ lane. lane < length self.now.homes) }
    {
        let realm = match user_name {
            Some(name) => realm_of(name),
            None => None,
        };
        let destination = self.destination_of(realm)?;
        Some(destination.lane)
    }

    /// Returns the clients, in the order of the text.
    pub fn clients(&self) -> &[Client]
        ensures value { result.now ≡ self.now.clients }
        ensures least { 1 ≤ length self.now.clients }
        ensures most { length self.now.clients ≤ 256 }
    {
        self.clients.as_slice()
    }

    /// Returns the home servers, in the order of the text. The index of one is its lane.
    pub fn homes(&self) -> &[Home]
        ensures value { result.now ≡ self.now.homes }
        ensures least { 1 ≤ length self.now.homes }
        ensures most { length self.now.homes ≤ 64 }
    {
        self.homes.as_slice()
    }

    /// Returns the realms, in the order of the text.
    pub fn realms(&self) -> &[Realm]
        ensures value { result.now ≡ self.now.realms }
        ensures most { length self.now.realms ≤ 256 }
        ensures lanes { All (λ r. r.lane < length self.now.homes) self.now.realms }
    {
        self.realms.as_slice()
    }

    /// Returns the realms once more, found by name. They are shared, not copied.
    ///
    /// # Errors
    ///
    /// `AllocError` if too many share them.
    pub fn share_realms(&self) -> Result<Arc<Realms>, AllocError>
        ensures { IfOk result (λ realms. arc_value realms ≡ self.now.realms) }
    {
        Arc::try_clone(&self.realms)
    }

    /// Returns the address and port on which the clients' datagrams are received.
    pub fn listen(&self) -> Endpoint
        ensures { result ≡ self.now.listen }
    {
        self.listen
    }

    /// Returns the lane of the realms that are in no row of the table, if there is a home server for them.
    pub fn other_lane(&self) -> Option<u16>
        ensures value { result ≡ self.now.other_lane }
        ensures within { IfSome result (λ lane. lane < length self.now.homes) }
    {
        self.other_lane
    }

    /// Returns how long the program waits for outstanding requests at its end, in milliseconds.
    pub fn linger(&self) -> u32
        ensures { result ≡ self.now.linger }
    {
        self.linger
    }
}
