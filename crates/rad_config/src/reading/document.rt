//! Reading the values of a configuration's keys: texts, addresses, secrets, names and numbers.

ghost use Rattle.std.specs.Prelude.{◌≡◌, ◌≤◌, ◌<◌, ◌&&◌, ℕ, Bool, true, not, ◌==◌, length, nat_le, option_map, if◌then◌else◌, IfOk, Ok, Err};
ghost use Rattle.std.specs.List.{list_all};
ghost use Rattle.toml.specs.Data.{get_member};
ghost use Rattle.toml.specs.View.{view, table_view};
ghost use Rattle.rad_config.specs.Spot.{key_name};
ghost use Rattle.rad_config.specs.internal.Values.{Reads};
ghost use Rattle.rad_config.specs.declared.reading.faults.ConfigFault.TheVariants.{OutOfRange};
ghost use Rattle.rad_config.specs.Walk.{needed, text_in, text_at, address_at, endpoint_at, has_length, secret_at, is_name_octet as is_octet_of_a_name, is_home_name as names_a_home, home_name_at, is_realm_name as names_a_realm, realm_name_at, number_in_value, number_at, optional_text_at};

use super::address::{Endpoint, read_address, read_endpoint};
use super::faults::{ConfigFault, Key, Spot};
use crate::realms::LONGEST_REALM;
use rad_auth::Secret;
use toml::{Table, Value};

#[tactic(auto, unfolding(crate::specs::Walk::text_at))]
pub(crate) fn text<'t>(spot: Spot, doc: &'t Table) -> Result<&'t str, ConfigFault>
    ensures { Reads (λ s. s.now) result (text_at spot (table_view doc.now)) }
{
    let value = needed_value(spot, doc)?;
    text_of_value(spot, value)
}

#[tactic(auto, unfolding(crate::specs::Walk::optional_text_at))]
pub(crate) fn optional_text<'t>(spot: Spot, doc: &'t Table) -> Result<Option<&'t str>, ConfigFault>
    ensures { Reads (λ o. option_map (λ s. s.now) o) result (optional_text_at spot (table_view doc.now)) }
{
    match member(spot.key, doc) {
        Some(value) => {
            let text = text_of_value(spot, value)?;
            Ok(Some(text))
        }
        None => Ok(None),
    }
}

#[tactic(auto, unfolding(crate::specs::Walk::text_in))]
fn text_of_value(spot: Spot, value: &Value) -> Result<&str, ConfigFault>
    ensures { Reads (λ s. s.now) result (text_in spot (view value.now)) }
{
    match value.as_str() {
        Some(text) => Ok(text),
        None => Err(ConfigFault::WrongType(spot)),
    }
}

#[tactic(auto, unfolding(crate::specs::Walk::address_at))]
pub(crate) fn address(spot: Spot, doc: &Table) -> Result<[u8; 4], ConfigFault>
    ensures { result ≡ address_at spot (table_view doc.now) }
{
    let text = text(spot, doc)?;
    match read_address(text) {
        Some(address) => Ok(address),
        None => Err(ConfigFault::BadAddress(spot)),
    }
}

#[tactic(auto, unfolding(crate::specs::Walk::endpoint_at))]
pub(crate) fn address_and_port(spot: Spot, doc: &Table) -> Result<Endpoint, ConfigFault>
    ensures { result ≡ endpoint_at spot (table_view doc.now) }
{
    let text = text(spot, doc)?;
    match read_endpoint(text) {
        Some(endpoint) => Ok(endpoint),
        None => Err(ConfigFault::BadAddress(spot)),
    }
}

#[tactic(auto, unfolding(crate::specs::Walk::secret_at, crate::specs::Walk::text_that))]
pub(crate) fn secret(spot: Spot, doc: &Table) -> Result<Secret, ConfigFault>
    ensures { result ≡ secret_at spot (table_view doc.now) }
{
    let text = text(spot, doc)?;
    secret_of_text(spot, text)
}

fn secret_of_text(spot: Spot, text: &str) -> Result<Secret, ConfigFault>
    ensures { result ≡ (if has_length 1 128 text.now then Ok text.now else Err (OutOfRange spot)) }
{
    match Secret::new(text.as_bytes()) {
        Ok(secret) => Ok(secret),
        Err(_) => Err(ConfigFault::OutOfRange(spot)),
    }
}

#[tactic(auto, unfolding(crate::specs::Walk::home_name_at, crate::specs::Walk::text_that))]
pub(crate) fn home_name<'t>(spot: Spot, doc: &'t Table) -> Result<&'t str, ConfigFault>
    ensures { Reads (λ s. s.now) result (home_name_at spot (table_view doc.now)) }
{
    let text = text(spot, doc)?;
    if is_home_name(text.as_bytes()) {
        Ok(text)
    } else {
        Err(ConfigFault::OutOfRange(spot))
    }
}

fn is_home_name(text: &[u8]) -> bool
    ensures { result ≡ names_a_home text.now }
{
    if text.is_empty() || text.len() > 64 {
        return false;
    }
    are_name_octets(text)
}

fn are_name_octets(text: &[u8]) -> bool
    ensures { result ≡ list_all is_octet_of_a_name text.now }
{
    text.iter().all(|octet| is_name_octet(*octet))
}

fn is_name_octet(octet: u8) -> bool
    ensures { result ≡ is_octet_of_a_name octet }
{
    octet.is_ascii_alphanumeric() || octet == b'-' || octet == b'_' || octet == b'.'
}

#[tactic(auto, unfolding(crate::specs::Walk::realm_name_at, crate::specs::Walk::text_that))]
pub(crate) fn realm_name<'t>(spot: Spot, doc: &'t Table) -> Result<&'t str, ConfigFault>
    ensures name { Reads (λ s. s.now) result (realm_name_at spot (table_view doc.now)) }
    ensures short { IfOk result (λ s. length s.now ≤ 252) }
{
    let text = text(spot, doc)?;
    if is_realm_name(text.as_bytes()) {
        Ok(text)
    } else {
        Err(ConfigFault::OutOfRange(spot))
    }
}

fn is_realm_name(text: &[u8]) -> bool
    ensures { result ≡ names_a_realm text.now }
{
    if text.is_empty() || text.len() > LONGEST_REALM {
        return false;
    }
    lacks_at_sign(text)
}

fn lacks_at_sign(text: &[u8]) -> bool
    ensures { result ≡ list_all (λ o. not (o == 64)) text.now }
{
    text.iter().all(|octet| *octet != b'@')
}

#[tactic(auto, unfolding(crate::specs::Walk::number_at))]
pub(crate) fn number(
    least: u32,
    most: u32,
    usual: u32,
    spot: Spot,
    doc: &Table,
) -> Result<u32, ConfigFault>
    ensures { result ≡ number_at least most usual spot (table_view doc.now) }
{
    match member(spot.key, doc) {
        Some(value) => number_of_value(least, most, spot, value),
        None => Ok(usual),
    }
}

#[tactic(auto, unfolding(crate::specs::Walk::number_in_value))]
fn number_of_value(least: u32, most: u32, spot: Spot, value: &Value) -> Result<u32, ConfigFault>
    ensures { result ≡ number_in_value least most spot (view value.now) }
{
    let Some(integer) = value.as_integer() else {
        return Err(ConfigFault::WrongType(spot));
    };
    match u32::try_from(integer) {
        Ok(number) if least <= number && number <= most => Ok(number),
        _ => Err(ConfigFault::OutOfRange(spot)),
    }
}

#[tactic(auto, unfolding(crate::specs::Walk::needed))]
pub(crate) fn needed_value<'t>(spot: Spot, doc: &'t Table) -> Result<&'t Value, ConfigFault>
    ensures { Reads (λ v. view v.now) result (needed spot (table_view doc.now)) }
{
    match member(spot.key, doc) {
        Some(value) => Ok(value),
        None => Err(ConfigFault::Missing(spot)),
    }
}

pub(crate) fn member<'t>(key: Key, doc: &'t Table) -> Option<&'t Value>
    ensures { option_map (λ v. view v.now) result ≡ get_member (key_name key) (table_view doc.now) }
{
    doc.get(key.name())
}
