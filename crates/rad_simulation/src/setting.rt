//! What is fixed for a whole run: the home servers with their limits, and how reliable the network is.

use crate::chance::Chance;
use crate::rules::Rule;
use rad_auth::Secret;
use rad_realms::{Endpoint, LimitNumbers};
use std::alloc::Global;
use std::fmt;

/// A home server of the configuration, with the realm that leads to it.
#[derive(Clone, Copy)]
struct NamedHome {
    realm: &'static str,
    endpoint: Endpoint,
    secret: &'static str,
}

impl NamedHome {
    /// The home server at a place. Two have the same port, and two have the same address.
    fn at(place: u16) -> NamedHome {
        let (realm, last_octet, port, secret) = match place {
            0 => ("example.org", 1, 2813, "home-secret"),
            1 => ("other.org", 2, 2813, "other-secret"),
            _ => ("third.net", 1, 2814, "third-secret"),
        };
        NamedHome {
            realm,
            endpoint: Endpoint {
                address: [127, 0, 0, last_octet],
                port,
            },
            secret,
        }
    }
}

/// The tables of both clients.
const CLIENTS: &str = r#"
[[client]]
address = "10.0.0.1"
secret = "nas-secret"
[[client]]
address = "10.0.0.2"
secret = "second-secret"
"#;

/// A span that is longer than most runs, in milliseconds.
const LONG_SPAN: u32 = 20_000;

/// A home server of a run.
#[derive(Drop)]
pub struct Home {
    pub endpoint: Endpoint,
    pub secret: Secret,
    pub limits: LimitNumbers,
}

/// What is fixed for a whole run.
#[derive(Drop)]
pub struct Setting {
    /// The home servers, one to three.
    pub homes: Vec<Home>,
    /// Whether a request without a realm leads to the first home server.
    pub has_default: bool,
    /// The home server to which all realms lead that are not listed, if there is one.
    pub other: Option<u16>,
    /// Whether requests come as fast as they are answered, so that Identifiers are used again.
    pub is_hurried: bool,
    /// One datagram in `losses` is lost, and one in `losses` is duplicated; 0 for none.
    pub losses: u64,
    /// One receive in `faults` and one send in `faults` fails; 0 for none.
    pub faults: u64,
    /// One call in `stops` is stopped by its gate; 0 for none.
    pub stops: u64,
    /// A lane is drained after one call in `drains`; 0 for none.
    pub drains: u64,
    /// The number of calls of workers.
    pub calls: u64,
}

impl Setting {
    /// Draws a setting.
    pub fn draw(alloc: Global, chance: &mut Chance) -> Result<Setting, Rule> {
        let is_hurried = chance.is_one_in(8);
        let is_calm = is_hurried || chance.is_one_in(4);
        let mut setting = Setting {
            homes: Vec::new(alloc),
            has_default: chance.is_one_in(2),
            other: None,
            is_hurried,
            losses: if is_calm { 0 } else { chance.between(5, 20) },
            faults: if is_calm { 0 } else { chance.between(10, 60) },
            stops: if chance.is_one_in(3) { 20 } else { 0 },
            drains: if chance.is_one_in(4) { 300 } else { 0 },
            calls: if is_hurried {
                1300
            } else {
                chance.between(100, 700)
            },
        };
        let homes = if is_hurried { 1 } else { chance.between(1, 3) };
        for place in 0..homes {
            setting.add_home((place & 3) as u16, chance)?;
        }
        if chance.is_one_in(3) {
            setting.other = Some((chance.below(homes) & 3) as u16);
        }
        Ok(setting)
    }

    /// Has half of the home servers remember their answers for a span that is longer than most runs.
    pub fn lengthen_spans(&mut self, chance: &mut Chance) {
        for home in self.homes.as_mut_slice().iter_mut() {
            if chance.is_one_in(2) {
                home.limits.span = LONG_SPAN;
            }
        }
    }

    fn add_home(&mut self, place: u16, chance: &mut Chance) -> Result<(), Rule> {
        let named = NamedHome::at(place);
        let Ok(secret) = Secret::new(named.secret.as_bytes()) else {
            return Err(Rule::CONFIGURATION);
        };
        let limits = if self.is_hurried {
            hurried_limits(chance)
        } else {
            limits(chance)
        };
        self.homes.push(Home {
            endpoint: named.endpoint,
            secret,
            limits,
        })?;
        Ok(())
    }
}

/// A setting is printed as the text of its configuration.
impl fmt::Display for Setting {
    fn fmt<W: fmt::Write>(&self, f: &mut fmt::Formatter<W>) -> fmt::Result {
        f.write_str("listen = \"127.0.0.1:1813\"\n")?;
        if self.has_default {
            f.write_str("default_home = \"h0\"\n")?;
        }
        if let Some(place) = self.other {
            writeln!(f, "other_home = \"h{place}\"")?;
        }
        f.write_str(CLIENTS)?;
        for (place, home) in self.homes.as_slice().iter().enumerate() {
            write_tables((place & 3) as u16, f)?;
            write_limits(&home.limits, f)?;
        }
        Ok(())
    }
}

/// Returns limits, many of which are so small that they are reached.
fn limits(chance: &mut Chance) -> LimitNumbers {
    LimitNumbers {
        window: one_of(chance, &[1, 2, 3, 8, 64, 254]),
        queue: one_of(chance, &[1, 2, 4, 64]),
        book: one_of(chance, &[1, 2, 3, 8, 32, 1000]),
        tries: one_of(chance, &[1, 2, 3, 4]),
        first_wait: one_of(chance, &[100, 150, 400, 60_000]),
        probe_every: one_of(chance, &[1000, 1500, 4000]),
        down_wait: one_of(chance, &[1000, 2500, 6000]),
        span: one_of(chance, &[0, 50, 300, 2000]),
        ring: one_of(chance, &[1, 2, 5, 64]),
        ports: one_of(chance, &[1, 1, 2, 4]),
    }
}

/// Returns limits with which more than 256 requests go through a lane.
fn hurried_limits(chance: &mut Chance) -> LimitNumbers {
    LimitNumbers {
        window: one_of(chance, &[4, 20, 200]),
        queue: 64,
        book: one_of(chance, &[40, 300, 1000]),
        tries: 2,
        first_wait: 400,
        probe_every: 1000,
        down_wait: 2500,
        span: one_of(chance, &[0, 20, 300]),
        ring: one_of(chance, &[2, 16, 64]),
        ports: one_of(chance, &[1, 2, 3]),
    }
}

fn one_of(chance: &mut Chance, numbers: &[u32]) -> u32 {
    chance.pick(numbers).copied().unwrap_or(1)
}

/// Writes the tables of a home server and of its realm, without its limits.
fn write_tables<W: fmt::Write>(place: u16, f: &mut fmt::Formatter<W>) -> fmt::Result {
    let home = NamedHome::at(place);
    let [first, second, third, last] = home.endpoint.address;
    write!(
        f,
        "\n[[realm]]\nname = \"{}\"\nhome = \"h{place}\"\n",
        home.realm
    )?;
    write!(
        f,
        "[[home]]\nname = \"h{place}\"\naddress = \"{first}.{second}.{third}.{last}"
    )?;
    write!(
        f,
        ":{}\"\nsecret = \"{}\"\n",
        home.endpoint.port, home.secret
    )
}

/// Writes the lines of a home server's limits, which follow its tables.
fn write_limits<W: fmt::Write>(limits: &LimitNumbers, f: &mut fmt::Formatter<W>) -> fmt::Result {
    for (key, number) in keys(limits) {
        writeln!(f, "{key} = {number}")?;
    }
    Ok(())
}

fn keys(limits: &LimitNumbers) -> [(&'static str, u32); 10] {
    [
        ("window", limits.window),
        ("queue", limits.queue),
        ("book", limits.book),
        ("tries", limits.tries),
        ("first_wait", limits.first_wait),
        ("probe_every", limits.probe_every),
        ("down_wait", limits.down_wait),
        ("span", limits.span),
        ("ring", limits.ring),
        ("ports", limits.ports),
    ]
}

/// Returns the realm that leads to a home server.
pub fn realm_of_home(place: u16) -> &'static str {
    NamedHome::at(place).realm
}

/// Returns the address of a client.
pub fn client_address(is_first: bool) -> [u8; 4] {
    [10, 0, 0, if is_first { 1 } else { 2 }]
}

/// Returns the secret of the client with this address.
pub fn client_secret(address: [u8; 4]) -> Option<Secret> {
    if address == client_address(true) {
        return Secret::new(b"nas-secret").ok();
    }
    if address == client_address(false) {
        return Secret::new(b"second-secret").ok();
    }
    None
}
