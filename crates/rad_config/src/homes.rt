//! Home servers. Each has a lane.

use crate::limits::Limits;
use crate::name::Name;
use crate::reading::Endpoint;
use rad_auth::Secret;
use std::alloc::{AllocError, Global};
use std::marker::Model;

/// A home server (RFC 2866 section 2.1, the remote server). Each has one lane.
#[derive(Drop)]
pub struct Home {
    /// Its name in the configuration.
    name: Name,
    /// The address and port that requests are sent to.
    endpoint: Endpoint,
    /// The secret that it shares with the proxy.
    secret: Secret,
    /// The limits of its lane.
    limits: Limits,
}

impl Model for Home {
    ghost use Rattle.rad_config.specs.Configuration.{HomeEntry};

    ghost Value = { HomeEntry };

    ghost view = { λ h. record { name = h.name; endpoint = h.endpoint; secret = h.secret; limits = h.limits } };
}

impl Home {
    ghost use Rattle.std.specs.Prelude.{◌≡◌};

    pub(crate) fn new(name: Name, endpoint: Endpoint, secret: Secret, limits: Limits) -> Home
        ensures { result ≡ record { name = name; endpoint = endpoint; secret = secret; limits = limits } }
    {
        Home {
            name,
            endpoint,
            secret,
            limits,
        }
    }

    /// Returns its name in the configuration.
    pub fn name(&self) -> &str
        ensures { result.now ≡ self.now.name }
    {
        self.name.as_str()
    }

    /// Returns the IPv4 address that requests are sent to.
    pub fn address(&self) -> [u8; 4]
        ensures { result ≡ self.now.endpoint.address }
    {
        self.endpoint.address
    }

    /// Returns the UDP port that requests are sent to.
    pub fn port(&self) -> u16
        ensures { result ≡ self.now.endpoint.port }
    {
        self.endpoint.port
    }

    /// Returns the secret under which packets to it are signed and packets from it are checked.
    pub fn secret(&self) -> &Secret
        ensures { result.now ≡ self.now.secret }
    {
        &self.secret
    }

    /// Returns the limits of its lane.
    pub fn limits(&self) -> Limits
        ensures { result ≡ self.now.limits }
    {
        self.limits
    }
}

/// The home servers in the order of the configuration. The index of a home server is the number of its lane.
#[derive(Drop)]
pub(crate) struct Homes {
    /// The home servers, at most 64.
    items: Vec<Home>,
}

impl Model for Homes {
    ghost use Rattle.std.specs.Prelude.{List, ◌≤◌, length};
    ghost use Rattle.rad_config.specs.Configuration.{HomeEntry};

    ghost Value = { List HomeEntry };

    ghost view = { λ h. h.items.items };

    ghost invariant = { λ h. length h.items.items ≤ 64 };
}

impl Homes {
    ghost use Rattle.std.specs.Prelude.{◌≡◌, ◌<◌, [], ◌∷◌, ◌++◌, length, OnOk, IfSome, position};
    ghost use Rattle.std.specs.Str.{bytes_eq};

    pub(crate) fn new(alloc: Global) -> Homes
        ensures { result ≡ [] }
    {
        Homes {
            items: Vec::new(alloc),
        }
    }

    pub(crate) fn as_slice(&self) -> &[Home]
        ensures { result.now ≡ self.now }
    {
        self.items.as_slice()
    }

    pub(crate) fn push(&mut self, home: Home) -> Result<(), AllocError>
        requires { length self.old < 64 }
        ensures { OnOk result (self.new ≡ self.old ++ home ∷ []) }
    {
        self.items.push(home)?;
        Ok(())
    }

    /// Returns the lane of the home server with a name. The cost is linear in the number of home servers.
    pub(crate) fn find(&self, name: &str) -> Option<usize>
        ensures place { result ≡ position (λ h. bytes_eq h.name name.now) self.now }
        ensures small { IfSome result (λ place. place < 64) }
    {
        self.items.iter().position(|home| home.name() == name)
    }
}
