//! A configuration as a line of JSON.

ghost use Rattle.std.specs.Prelude.{◌≡◌, [], ◌∷◌, IfOk, OnOk, Some};
ghost use Rattle.json.specs.Json.{array, string};
ghost use Rattle.json.specs.Tree.{json_tokens};
ghost use Rattle.rad_realms.specs.Printed.{address_text, endpoint_text};
ghost use Rattle.json_objects.specs.Adding.{Adds, AddsSlots};
ghost use Rattle.json_objects.specs.Written.{HasValueBehind, items_of, number_value};
ghost use Rattle.config_json.specs.Written.{client_value, config_value, home_value, limits_slots, name_at, realm_value, secret_slots};

use json::Writer;
use json_objects::{close_line, text};
use rad_auth::Secret;
use rad_realms::{AddressText, Client, Config, Endpoint, Home, LimitNumbers, Realm};
use std::alloc::{AllocError, Global};

/// Returns a configuration as a line of JSON, with its line end, and with its secrets or without them.
///
/// # Errors
///
/// If memory is refused.
pub fn write_config(
    alloc: Global,
    config: &Config,
    with_secrets: bool,
) -> Result<Vec<u8>, AllocError>
    ensures { IfOk result (λ line. HasValueBehind [] line.items (config_value with_secrets config.now)) }
{
    let mut writer = Writer::new(Vec::new(alloc));
    config_members(alloc, &mut writer, config, with_secrets)?;
    close_line(writer)
}

/// Writes the object of a configuration.
fn config_members(
    alloc: Global,
    writer: &mut Writer,
    config: &Config,
    with_secrets: bool,
) -> Result<(), AllocError>
    ensures { OnOk result (Adds writer.old writer.new (json_tokens (config_value with_secrets config.now))) }
{
    let listen = config.listen();
    let default = config.lane_of(None);
    let other = config.other_lane();
    let linger = config.linger();
    let clients = config.clients();
    let homes = config.homes();
    let realms = config.realms();
    writer.begin_object()?;
    endpoint(alloc, writer, "listen", listen)?;
    home_name_if_any(writer, "default_home", homes, default)?;
    home_name_if_any(writer, "other_home", homes, other)?;
    number(writer, "linger", linger)?;
    writer.key("client")?;
    write_clients(alloc, writer, clients, with_secrets)?;
    writer.key("home")?;
    write_homes(alloc, writer, homes, with_secrets)?;
    writer.key("realm")?;
    write_realms(writer, homes, realms)?;
    writer.end_object()
}

/// Writes the clients.
fn write_clients(
    alloc: Global,
    writer: &mut Writer,
    clients: &[Client],
    with_secrets: bool,
) -> Result<(), AllocError>
    ensures { OnOk result (Adds writer.old writer.new (json_tokens (array (items_of (client_value with_secrets) clients.now)))) }
{
    writer.begin_array()?;
    for client in clients {
        client_members(alloc, writer, client, with_secrets)?;
    }
    writer.end_array()
}

/// Writes the object of a client.
fn client_members(
    alloc: Global,
    writer: &mut Writer,
    client: &Client,
    with_secrets: bool,
) -> Result<(), AllocError>
    ensures { OnOk result (Adds writer.old writer.new (json_tokens (client_value with_secrets client.now))) }
{
    let place = client.address();
    let secret = client.secret();
    writer.begin_object()?;
    address(alloc, writer, "address", place)?;
    secret_if_asked(writer, secret, with_secrets)?;
    writer.end_object()
}

/// Writes the home servers.
fn write_homes(
    alloc: Global,
    writer: &mut Writer,
    homes: &[Home],
    with_secrets: bool,
) -> Result<(), AllocError>
    ensures { OnOk result (Adds writer.old writer.new (json_tokens (array (items_of (home_value with_secrets) homes.now)))) }
{
    writer.begin_array()?;
    for home in homes {
        home_members(alloc, writer, home, with_secrets)?;
    }
    writer.end_array()
}

/// Writes the object of a home server.
fn home_members(
    alloc: Global,
    writer: &mut Writer,
    home: &Home,
    with_secrets: bool,
) -> Result<(), AllocError>
    ensures { OnOk result (Adds writer.old writer.new (json_tokens (home_value with_secrets home.now))) }
{
    let name = home.name();
    let place = endpoint_of(home);
    let secret = home.secret();
    let numbers = numbers_of(home);
    writer.begin_object()?;
    text(writer, "name", name)?;
    endpoint(alloc, writer, "address", place)?;
    secret_if_asked(writer, secret, with_secrets)?;
    limits(writer, numbers)?;
    writer.end_object()
}

/// Returns the address and port of a home server.
fn endpoint_of(home: &Home) -> Endpoint
    ensures { result ≡ home.now.endpoint }
{
    Endpoint {
        address: home.address(),
        port: home.port(),
    }
}

/// Returns the numbers of a home server.
fn numbers_of(home: &Home) -> LimitNumbers
    ensures { result ≡ home.now.limits }
{
    home.limits().numbers()
}

/// Writes the numbers of a home server.
fn limits(writer: &mut Writer, numbers: LimitNumbers) -> Result<(), AllocError>
    ensures { OnOk result (AddsSlots writer.old writer.new (limits_slots numbers)) }
{
    number(writer, "window", numbers.window)?;
    number(writer, "queue", numbers.queue)?;
    number(writer, "book", numbers.book)?;
    number(writer, "tries", numbers.tries)?;
    number(writer, "first_wait", numbers.first_wait)?;
    number(writer, "probe_every", numbers.probe_every)?;
    number(writer, "down_wait", numbers.down_wait)?;
    number(writer, "span", numbers.span)?;
    number(writer, "ring", numbers.ring)?;
    number(writer, "ports", numbers.ports)
}

/// Writes the realms, which lead to these home servers.
fn write_realms(writer: &mut Writer, homes: &[Home], realms: &[Realm]) -> Result<(), AllocError>
    ensures { OnOk result (Adds writer.old writer.new (json_tokens (array (items_of (realm_value homes.now) realms.now)))) }
{
    writer.begin_array()?;
    for realm in realms {
        realm_members(writer, homes, realm)?;
    }
    writer.end_array()
}

/// Writes the object of a realm.
fn realm_members(writer: &mut Writer, homes: &[Home], realm: &Realm) -> Result<(), AllocError>
    ensures { OnOk result (Adds writer.old writer.new (json_tokens (realm_value homes.now realm.now))) }
{
    let name = realm.name();
    let lane = realm.lane();
    writer.begin_object()?;
    text(writer, "name", name)?;
    home_name_if_any(writer, "home", homes, Some(lane))?;
    writer.end_object()
}

/// The name of the home server of a lane, if there is one.
fn home_name_if_any(
    writer: &mut Writer,
    key: &str,
    homes: &[Home],
    lane: Option<u16>,
) -> Result<(), AllocError>
    ensures { OnOk result (AddsSlots writer.old writer.new ((key.now, (name_at homes.now lane)) ∷ [])) }
{
    let Some(lane) = lane else {
        return Ok(());
    };
    match homes.get(usize::from(lane)) {
        Some(home) => text(writer, key, home.name()),
        None => Ok(()),
    }
}

/// A secret, if it is asked for.
fn secret_if_asked(
    writer: &mut Writer,
    secret: &Secret,
    with_secrets: bool,
) -> Result<(), AllocError>
    ensures { OnOk result (AddsSlots writer.old writer.new (secret_slots with_secrets secret.now)) }
{
    if !with_secrets {
        return Ok(());
    }
    match str::from_utf8(secret.octets()) {
        Ok(secret) => text(writer, "secret", secret),
        Err(_) => Ok(()),
    }
}

fn number(writer: &mut Writer, key: &str, value: u32) -> Result<(), AllocError>
    ensures { OnOk result (AddsSlots writer.old writer.new ((key.now, (Some (number_value value))) ∷ [])) }
{
    json_objects::number(writer, key, u64::from(value))
}

fn address(
    alloc: Global,
    writer: &mut Writer,
    key: &str,
    address: [u8; 4],
) -> Result<(), AllocError>
    ensures { OnOk result (AddsSlots writer.old writer.new ((key.now, (Some (string (address_text address)))) ∷ [])) }
{
    let words = AddressText(address);
    let words = format!(in alloc; "{words}")?;
    text(writer, key, words.as_str())
}

fn endpoint(
    alloc: Global,
    writer: &mut Writer,
    key: &str,
    endpoint: Endpoint,
) -> Result<(), AllocError>
    ensures { OnOk result (AddsSlots writer.old writer.new ((key.now, (Some (string (endpoint_text endpoint)))) ∷ [])) }
{
    let words = format!(in alloc; "{endpoint}")?;
    text(writer, key, words.as_str())
}
