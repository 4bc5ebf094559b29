//! Tests of realms that are in no row of the table, where they lead to a lane: which lane takes their requests, and which
//! lane refuses a request that was checked against another configuration.

use crate::comparing::holds;
use crate::configured::configured;
use crate::desk::making::request_of;
use crate::desk::setting::{CLIENT, start};
use crate::desk::threads::close;
use rad_desk::{Inlet, Proxy, open};
use rad_lane::{Refusal, Taken};
use rad_packet::Datagram;
use rad_realms::{Config, Dropped, Incoming, check_in};
use std::alloc::{AllocError, Global};
use std::sync::Wait;
use std::test::Fail;

/// A client and three home servers.
const TABLES: &str = r#"
listen = "127.0.0.1:1813"
[[client]]
address = "10.0.0.1"
secret = "nas-secret"
[[home]]
name = "h1"
address = "127.0.0.1:2813"
secret = "home-secret"
[[home]]
name = "h2"
address = "127.0.0.2:2814"
secret = "other-secret"
[[home]]
name = "h3"
address = "127.0.0.3:2815"
secret = "third-secret"
"#;

/// The keys at the top.
const KEYS: &str = "other_home = \"h2\"\n";

/// Those of another configuration.
const OTHER_KEYS: &str = "other_home = \"h1\"\ndefault_home = \"h2\"\n";

/// Each home server has a realm.
const REALMS: &str = r#"
[[realm]]
name = "example.org"
home = "h1"
[[realm]]
name = "other.org"
home = "h2"
[[realm]]
name = "third.net"
home = "h3"
"#;

/// The realms of another configuration. One that is listed here is listed there for another home server, and two are not.
const OTHER_REALMS: &str = r#"
[[realm]]
name = "third.net"
home = "h2"
[[realm]]
name = "nowhere.net"
home = "h3"
[[realm]]
name = "fifth.example"
home = "h2"
"#;

/// What becomes of a request.
#[derive(Clone, Copy, PartialEq, Eq)]
enum Fate {
    /// This lane takes it.
    Taken(u16),
    /// The lane that it leads to by the configuration against which it was checked does not take it.
    WrongLane,
    /// It leads to no lane.
    NoRealm,
    Other,
}

/// User-Names, and what becomes of their requests.
type Fates = &'static [(&'static [u8], Fate)];

/// What becomes of requests that are checked against the proxy's own configuration.
const OWN: Fates = &[
    (b"bob@example.org", Fate::Taken(0)),
    (b"bob@EXAMPLE.org", Fate::Taken(0)),
    (b"bob@other.org", Fate::Taken(1)),
    (b"bob@third.net", Fate::Taken(2)),
    (b"bob@Third.NET", Fate::Taken(2)),
    (b"bob@nowhere.net", Fate::Taken(1)),
    (b"bob@example.org.", Fate::Taken(1)),
    (b"bob@example.org@fifth.example", Fate::Taken(1)),
    (b"@*", Fate::Taken(1)),
    (b"bob@", Fate::NoRealm),
    (b"bob@example.org@", Fate::NoRealm),
    (b"bob", Fate::NoRealm),
];

/// What becomes of them where no key at the top says where other realms lead.
const WITHOUT: Fates = &[
    (b"bob@example.org", Fate::Taken(0)),
    (b"bob@third.net", Fate::Taken(2)),
    (b"bob@nowhere.net", Fate::NoRealm),
    (b"@*", Fate::NoRealm),
    (b"bob@", Fate::NoRealm),
    (b"bob", Fate::NoRealm),
];

/// What becomes of requests that are checked against the other configuration. Not listed there, a realm leads to the first
/// lane, and without a realm a request leads to the second one.
const FOREIGN: Fates = &[
    // listed here for the lane that takes all others there
    (b"bob@example.org", Fate::Taken(0)),
    (b"bob@Example.ORG", Fate::Taken(0)),
    // listed here for another lane than the one that takes all others there
    (b"bob@other.org", Fate::WrongLane),
    // listed there for the lane that takes all others here
    (b"bob@third.net", Fate::WrongLane),
    (b"bob@THIRD.net", Fate::WrongLane),
    (b"bob@fifth.example", Fate::Taken(1)),
    (b"bob@FIFTH.example", Fate::Taken(1)),
    // listed there, for a lane that does not take all others here
    (b"bob@nowhere.net", Fate::WrongLane),
    // listed in neither
    (b"bob@sixth.example", Fate::WrongLane),
    (b"bob", Fate::WrongLane),
    (b"bob@", Fate::NoRealm),
];

fn read(alloc: Global, keys: &str, realms: &str) -> Result<Config, Fail> {
    let text = format!(in alloc; "{keys}{TABLES}{realms}")?;
    configured(alloc, &text)
}

fn fate_of(rt: &impl Wait, alloc: Global, proxy: &Proxy, config: &Config, name: &[u8]) -> Fate {
    let Some(made) = request_of(name, 7) else {
        return Fate::Other;
    };
    let mut datagram = Datagram::new();
    match check_in(config, CLIENT.address, CLIENT.port, made.bytes()) {
        Ok(Incoming::Request(request)) => {
            match proxy.accept(rt, alloc, &request, start(), &mut datagram) {
                Ok(Taken::New(_)) => Fate::Taken(request.lane()),
                Err(Refusal::WrongLane) => Fate::WrongLane,
                _ => Fate::Other,
            }
        }
        Err(Dropped::NoRealm) => Fate::NoRealm,
        _ => Fate::Other,
    }
}

/// Returns whether requests that are checked against a configuration have these fates.
fn have_fates(rt: &impl Wait, alloc: Global, proxy: &Proxy, config: &Config, fates: Fates) -> bool {
    for (name, fate) in fates {
        if fate_of(rt, alloc, proxy, config, name) != *fate {
            return false;
        }
    }
    true
}

fn end(alloc: Global, proxy: Proxy, inlets: Vec<Inlet>) -> Result<(), Fail> {
    match close(alloc, proxy, inlets) {
        Ok(report) => {
            report.discard();
            Ok(())
        }
        Err(fault) => Err(AllocError::from(fault).into()),
    }
}

/// Returns whether a proxy of the first configuration gives these fates to requests that are checked against the second one.
fn gives_fates(
    rt: &impl Wait,
    alloc: Global,
    opened: &Config,
    checked: &Config,
    fates: Fates,
) -> Result<bool, Fail> {
    let (proxy, inlets) = open(alloc, opened)?;
    let is_right = have_fates(rt, alloc, &proxy, checked, fates);
    end(alloc, proxy, inlets)?;
    Ok(is_right)
}

#[test]
fn a_lane_takes_its_own_realms_and_those_in_no_row(rt: HostRuntime) -> Result<(), Fail> {
    let config = read(rt.alloc(), KEYS, REALMS)?;
    let is_right = gives_fates(&rt, rt.alloc(), &config, &config, OWN);
    drop(config);
    holds(&rt, is_right?);
    Ok(())
}

#[test]
fn without_the_key_a_realm_in_no_row_leads_nowhere(rt: HostRuntime) -> Result<(), Fail> {
    let config = read(rt.alloc(), "", REALMS)?;
    let is_right = gives_fates(&rt, rt.alloc(), &config, &config, WITHOUT);
    drop(config);
    holds(&rt, is_right?);
    Ok(())
}

#[test]
fn a_lane_refuses_what_leads_elsewhere_by_its_own_table(rt: HostRuntime) -> Result<(), Fail> {
    let config = read(rt.alloc(), KEYS, REALMS)?;
    let other = read(rt.alloc(), OTHER_KEYS, OTHER_REALMS)?;
    let is_right = gives_fates(&rt, rt.alloc(), &config, &other, FOREIGN);
    drop(config);
    drop(other);
    holds(&rt, is_right?);
    Ok(())
}
