//! Reading a configuration: the walk over the TOML document.

ghost use Rattle.std.specs.Prelude.{◌≡◌, Option, option_map};
ghost use Rattle.toml.specs.View.{table_view};
ghost use Rattle.rad_config.specs.Gives.{Gives};
ghost use Rattle.rad_config.specs.internal.Values.{Reads};
ghost use Rattle.rad_config.specs.Walk.{listen_in, home_name_in, linger_in, clients_in, homes_in, realms_in, lane_at, walk, configuration_in};

use super::address::Endpoint;
use super::arrays::tables_of_part;
use super::document::{address_and_port, number, optional_text};
use super::faults::{ConfigFault, Key, Part};
use super::sections::{clients_of, homes_of, lane_of_home, realms_of, spot_of};
use crate::clients::Clients;
use crate::config::Config;
use crate::homes::Homes;
use crate::realms::Realms;
use std::alloc::Global;
use std::sync::Arc;
use toml::Table;

/// Reads a configuration from its text, which is TOML.
///
/// # Errors
///
/// [`ConfigFault::Toml`] if the text is not TOML. Otherwise the first fault of the walk over the document, from the
/// top down. [`ConfigFault::OutOfMemory`] may come at any point of it.
#[tactic(auto, unfolding(crate::specs::Walk::configuration_in))]
pub fn read_config(alloc: Global, text: &str) -> Result<Config, ConfigFault>
    ensures { Gives result (configuration_in text.now) }
{
    match toml::table_from_str(alloc, text) {
        Ok(document) => read_document(alloc, &document),
        Err(fault) => Err(if fault.is_memory() {
            ConfigFault::OutOfMemory
        } else {
            ConfigFault::Toml
        }),
    }
}

/// Reads a configuration from a TOML document, the table that its text is parsed as. So a text that is parsed already
/// needs no [`read_config`].
///
/// # Errors
///
/// The first fault of the walk over the document, from the top down. [`ConfigFault::OutOfMemory`] may come at any point
/// of it.
#[tactic(auto, unfolding(crate::specs::Walk::walk))]
pub fn read_document(alloc: Global, doc: &Table) -> Result<Config, ConfigFault>
    ensures { Gives result (walk (table_view doc.now)) }
{
    let listen = listen(doc)?;
    let default_home = home_name_of(Key::DefaultHome, doc)?;
    let other_home = home_name_of(Key::OtherHome, doc)?;
    let linger = linger(doc)?;
    let clients = read_clients(alloc, doc)?;
    let homes = read_homes(alloc, doc)?;
    let realms = read_realms(alloc, &homes, doc)?;
    let default_lane = lane_of(Key::DefaultHome, &homes, default_home)?;
    let other_lane = lane_of(Key::OtherHome, &homes, other_home)?;
    let realms = Arc::new(alloc, realms)?;
    let config = Config {
        listen,
        linger,
        clients,
        homes,
        realms,
        default_lane,
        other_lane,
    };
    Ok(config)
}

pub(crate) fn listen(doc: &Table) -> Result<Endpoint, ConfigFault>
    ensures { result ≡ listen_in (table_view doc.now) }
{
    address_and_port(spot_of(Part::Top, 0, Key::Listen), doc)
}

pub(crate) fn home_name_of(key: Key, doc: &Table) -> Result<Option<&str>, ConfigFault>
    ensures { Reads (λ o. option_map (λ s. s.now) o) result (home_name_in key (table_view doc.now)) }
{
    optional_text(spot_of(Part::Top, 0, key), doc)
}

pub(crate) fn linger(doc: &Table) -> Result<u32, ConfigFault>
    ensures { result ≡ linger_in (table_view doc.now) }
{
    number(0, 600_000, 5000, spot_of(Part::Top, 0, Key::Linger), doc)
}

#[tactic(auto, unfolding(crate::specs::Walk::clients_in))]
fn read_clients(alloc: Global, doc: &Table) -> Result<Clients, ConfigFault>
    ensures { Gives result (clients_in (table_view doc.now)) }
{
    clients_of(alloc, tables_of_part(Part::Client, doc)?)
}

#[tactic(auto, unfolding(crate::specs::Walk::homes_in))]
fn read_homes(alloc: Global, doc: &Table) -> Result<Homes, ConfigFault>
    ensures { Gives result (homes_in (table_view doc.now)) }
{
    homes_of(alloc, tables_of_part(Part::Home, doc)?)
}

#[tactic(auto, unfolding(crate::specs::Walk::realms_in))]
fn read_realms(alloc: Global, homes: &Homes, doc: &Table) -> Result<Realms, ConfigFault>
    ensures { Gives result (realms_in homes.now (table_view doc.now)) }
{
    realms_of(alloc, homes, tables_of_part(Part::Realm, doc)?)
}

fn lane_of(key: Key, homes: &Homes, name: Option<&str>) -> Result<Option<u16>, ConfigFault>
    ensures { result ≡ lane_at key homes.now (option_map (λ s. s.now) name.entry) }
{
    match name {
        Some(name) => {
            let lane = lane_of_home(homes, spot_of(Part::Top, 0, key), name)?;
            Ok(Some(lane))
        }
        None => Ok(None),
    }
}
