//! Clients, found by address.

ghost use Rattle.std.specs.Prelude.{◌≡◌, option_copied, slice_get};
ghost use Rattle.std.specs.Ordering.{nat_cmp};
ghost use Rattle.std.specs.Cmp.Lexicographic.{slice_cmp};
ghost use Rattle.std.specs.BTreeMap as tree;

use rad_auth::Secret;
use std::alloc::{AllocError, Global};
use std::collections::BTreeMap;
use std::marker::Model;

/// A client (RFC 2865 section 1.2, NAS): its address, and the secret that it shares with the proxy.
#[derive(Drop)]
pub struct Client {
    /// The IPv4 address that its datagrams come from.
    address: [u8; 4],
    /// The secret that it shares with the proxy.
    secret: Secret,
}

impl Model for Client {
    ghost use Rattle.rad_config.specs.Configuration.{ClientEntry};

    ghost Value = { ClientEntry };

    ghost view = { λ c. record { address = c.address; secret = c.secret } };
}

impl Client {
    ghost use Rattle.std.specs.Prelude.{◌≡◌};

    pub(crate) fn new(address: [u8; 4], secret: Secret) -> Client
        ensures { result ≡ record { address = address; secret = secret } }
    {
        Client { address, secret }
    }

    /// Returns the IPv4 address that its datagrams come from.
    pub fn address(&self) -> [u8; 4]
        ensures { result ≡ self.now.address }
    {
        self.address
    }

    /// Returns the secret under which packets from it are checked and packets to it are signed.
    pub fn secret(&self) -> &Secret
        ensures { result.now ≡ self.now.secret }
    {
        &self.secret
    }
}

/// The clients in the order of the configuration, found by address.
#[derive(Drop)]
pub(crate) struct Clients {
    /// The clients in their order.
    items: Vec<Client>,
    /// The index of the client with each address.
    places: BTreeMap<[u8; 4], usize>,
}

impl Model for Clients {
    ghost use Rattle.std.specs.Prelude.{List};
    ghost use Rattle.rad_config.specs.Configuration.{ClientEntry};
    ghost use Rattle.rad_config.specs.internal.Index.{IndexesClients};

    ghost Value = { List ClientEntry };

    ghost view = { λ c. c.items.items };

    ghost invariant = { λ c. IndexesClients c.places c.items.items };
}

impl Clients {
    ghost use Rattle.std.specs.Prelude.{◌≡◌, [], ◌∷◌, ◌++◌, None, OnOk, IfSome, find, option_copied};
    ghost use Rattle.std.specs.Str.{bytes_eq};

    pub(crate) fn new(alloc: Global) -> Clients
        ensures { result ≡ [] }
    {
        Clients {
            items: Vec::new(alloc),
            places: BTreeMap::new(alloc),
        }
    }

    pub(crate) fn as_slice(&self) -> &[Client]
        ensures { result.now ≡ self.now }
    {
        self.items.as_slice()
    }

    /// Returns the client with an address. It takes logarithmic time.
    pub(crate) fn find(&self, address: [u8; 4]) -> Option<&Client>
        ensures found { option_copied result ≡ find (λ c. bytes_eq c.address address) self.now }
        ensures address { IfSome result (λ client. client.now.address ≡ address) }
    {
        let place = place_in(&self.places, address)?;
        client_at(self.items.as_slice(), place)
    }

    pub(crate) fn push(&mut self, client: Client) -> Result<(), AllocError>
        requires { find (λ c. bytes_eq c.address client.address) self.old ≡ None }
        ensures { OnOk result (self.new ≡ self.old ++ client ∷ []) }
    {
        self.items.reserve(1)?;
        self.places.insert(client.address(), self.items.len())?;
        self.items.push(client).unwrap();
        Ok(())
    }
}

/// For the proof: returns the index of the client with an address.
fn place_in(places: &BTreeMap<[u8; 4], usize>, address: [u8; 4]) -> Option<usize>
    ensures { result ≡ tree.get (slice_cmp nat_cmp) places.now address }
{
    places.get(&address).copied()
}

/// For the proof: returns the client at an index.
fn client_at(items: &[Client], place: usize) -> Option<&Client>
    ensures { option_copied result ≡ slice_get items.now place }
{
    items.get(place)
}
