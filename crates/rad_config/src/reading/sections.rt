//! Reading the clients, home servers and realms of a configuration. Each is checked against the earlier ones.

ghost use Rattle.std.specs.Prelude.{◌≡◌, ◌<◌, ◌≤◌, [], All, length};
ghost use Rattle.toml.specs.View.{table_view};
ghost use Rattle.rad_config.specs.Gives.{Gives, Adds};
ghost use Rattle.rad_config.specs.internal.Values.{IsTable, table_of, tables_of_values};
ghost use Rattle.rad_config.specs.Walk.{spot, client_in, lane_number_at, numbers_at, limit_key, limits_at, home_in, lane_named, realm_in_table, each};

use super::arrays::table;
use super::document::{address, address_and_port, home_name, number, realm_name, secret, text};
use super::faults::{ConfigFault, Key, Part, Spot};
use crate::clients::{Client, Clients};
use crate::homes::{Home, Homes};
use crate::limits::{DEFAULT_LIMITS, LimitFault, LimitNumbers, Limits};
use crate::name::Name;
use crate::realms::{Realm, Realms};
use std::alloc::Global;
use toml::{Table, Value};

pub(crate) fn clients_of(alloc: Global, tables: &[Value]) -> Result<Clients, ConfigFault>
    requires { All IsTable tables.now }
    ensures { Gives result (each client_in [] (tables_of_values tables.now)) }
{
    let mut clients = Clients::new(alloc);
    for value in tables {
        add_client(&mut clients, value)?;
    }
    Ok(clients)
}

#[tactic(auto, unfolding(crate::specs::Walk::client_in))]
fn add_client(clients: &mut Clients, value: &Value) -> Result<(), ConfigFault>
    requires { IsTable value.now }
    ensures { Adds clients.old clients.new result (client_in clients.old (table_of value.now)) }
{
    let doc = table(value);
    let index = clients.as_slice().len();
    let at = spot_of(Part::Client, index, Key::Address);
    let address = address(at, doc)?;
    if clients.find(address).is_some() {
        return Err(ConfigFault::DoubleName(at));
    }
    let secret = secret(spot_of(Part::Client, index, Key::Secret), doc)?;
    clients.push(Client::new(address, secret))?;
    Ok(())
}

pub(crate) fn homes_of(alloc: Global, tables: &[Value]) -> Result<Homes, ConfigFault>
    requires tables { All IsTable tables.now }
    requires most { length tables.now ≤ 64 }
    ensures { Gives result (each home_in [] (tables_of_values tables.now)) }
{
    let mut homes = Homes::new(alloc);
    for value in tables {
        add_home(alloc, &mut homes, value)?;
    }
    Ok(homes)
}

#[tactic(auto, unfolding(crate::specs::Walk::home_in))]
fn add_home(alloc: Global, homes: &mut Homes, value: &Value) -> Result<(), ConfigFault>
    requires table { IsTable value.now }
    requires room { length homes.old < 64 }
    ensures { Adds homes.old homes.new result (home_in homes.old (table_of value.now)) }
{
    let doc = table(value);
    let index = homes.as_slice().len();
    let at = spot_of(Part::Home, index, Key::Name);
    let name = home_name(at, doc)?;
    if homes.find(name).is_some() {
        return Err(ConfigFault::DoubleName(at));
    }
    let endpoint = address_and_port(spot_of(Part::Home, index, Key::Address), doc)?;
    let secret = secret(spot_of(Part::Home, index, Key::Secret), doc)?;
    let limits = lane_limits(index, doc)?;
    let name = Name::new(alloc, name)?;
    homes.push(Home::new(name, endpoint, secret, limits))?;
    Ok(())
}

#[tactic(auto, unfolding(crate::specs::Walk::limits_at))]
pub(crate) fn lane_limits(index: usize, doc: &Table) -> Result<Limits, ConfigFault>
    ensures { result ≡ limits_at index (table_view doc.now) }
{
    let numbers = lane_numbers(index, doc)?;
    match Limits::new(numbers) {
        Ok(limits) => Ok(limits),
        Err(fault) => Err(ConfigFault::OutOfRange(spot_of(Part::Home, index, key_of_limit(fault)))),
    }
}

#[tactic(auto, unfolding(crate::specs::Walk::numbers_at))]
fn lane_numbers(index: usize, doc: &Table) -> Result<LimitNumbers, ConfigFault>
    ensures { result ≡ numbers_at index (table_view doc.now) }
{
    let window = lane_number(index, Key::Window, DEFAULT_LIMITS.window, doc)?;
    let queue = lane_number(index, Key::Queue, DEFAULT_LIMITS.queue, doc)?;
    let book = lane_number(index, Key::Book, DEFAULT_LIMITS.book, doc)?;
    let tries = lane_number(index, Key::Tries, DEFAULT_LIMITS.tries, doc)?;
    let first_wait = lane_number(index, Key::FirstWait, DEFAULT_LIMITS.first_wait, doc)?;
    let probe_every = lane_number(index, Key::ProbeEvery, DEFAULT_LIMITS.probe_every, doc)?;
    let down_wait = lane_number(index, Key::DownWait, DEFAULT_LIMITS.down_wait, doc)?;
    let span = lane_number(index, Key::Span, DEFAULT_LIMITS.span, doc)?;
    let ring = lane_number(index, Key::Ring, DEFAULT_LIMITS.ring, doc)?;
    let ports = lane_number(index, Key::Ports, DEFAULT_LIMITS.ports, doc)?;
    Ok(LimitNumbers {
        window,
        queue,
        book,
        tries,
        first_wait,
        probe_every,
        down_wait,
        span,
        ring,
        ports,
    })
}

/// Reads a number of a lane as far as its type: its range is checked with the others.
fn lane_number(index: usize, key: Key, usual: u32, doc: &Table) -> Result<u32, ConfigFault>
    ensures { result ≡ lane_number_at index key usual (table_view doc.now) }
{
    number(0, u32::MAX, usual, spot_of(Part::Home, index, key), doc)
}

fn key_of_limit(fault: LimitFault) -> Key
    ensures { result ≡ limit_key fault }
{
    match fault {
        LimitFault::Window => Key::Window,
        LimitFault::Queue => Key::Queue,
        LimitFault::Book => Key::Book,
        LimitFault::Tries => Key::Tries,
        LimitFault::FirstWait => Key::FirstWait,
        LimitFault::ProbeEvery => Key::ProbeEvery,
        LimitFault::DownWait => Key::DownWait,
        LimitFault::Span => Key::Span,
        LimitFault::Ring => Key::Ring,
        LimitFault::Ports => Key::Ports,
    }
}

pub(crate) fn realms_of(
    alloc: Global,
    homes: &Homes,
    tables: &[Value],
) -> Result<Realms, ConfigFault>
    requires { All IsTable tables.now }
    ensures { Gives result (each (realm_in_table homes.now) [] (tables_of_values tables.now)) }
{
    let mut realms = Realms::new(alloc);
    for value in tables {
        add_realm(alloc, homes, &mut realms, value)?;
    }
    Ok(realms)
}

#[tactic(auto, unfolding(crate::specs::Walk::realm_in_table))]
fn add_realm(
    alloc: Global,
    homes: &Homes,
    realms: &mut Realms,
    value: &Value,
) -> Result<(), ConfigFault>
    requires { IsTable value.now }
    ensures { Adds realms.old realms.new result (realm_in_table homes.now realms.old (table_of value.now)) }
{
    let doc = table(value);
    let index = realms.as_slice().len();
    let at = spot_of(Part::Realm, index, Key::Name);
    let name = realm_name(at, doc)?;
    if realms.has(name.as_bytes()) {
        return Err(ConfigFault::DoubleName(at));
    }
    let at_home = spot_of(Part::Realm, index, Key::Home);
    let home = text(at_home, doc)?;
    let lane = lane_of_home(homes, at_home, home)?;
    let name = Name::new(alloc, name)?;
    realms.push(alloc, Realm::new(name, lane))?;
    Ok(())
}

#[tactic(auto, unfolding(crate::specs::Walk::lane_named))]
pub(crate) fn lane_of_home(homes: &Homes, spot: Spot, name: &str) -> Result<u16, ConfigFault>
    ensures { result ≡ lane_named homes.now spot name.now }
{
    match homes.find(name) {
        Some(lane) => Ok(lane as u16),
        None => Err(ConfigFault::UnknownHome(spot)),
    }
}

pub(crate) fn spot_of(part: Part, index: usize, key: Key) -> Spot
    ensures { result ≡ spot part index key }
{
    Spot { part, index, key }
}
