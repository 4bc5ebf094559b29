//! Listing all faults of a configuration, where reading it stops at the first.

ghost use Rattle.std.specs.Prelude.{◌≡◌, ◌++◌, [], All, option_map, option_to_list, IfOk, OnOk, length};
ghost use Rattle.std.specs.List.{list_any};
ghost use Rattle.toml.specs.View.{table_view};
ghost use Rattle.rad_config.specs.internal.Values.{IsTable, table_of, tables_of_values};
ghost use Rattle.rad_config.specs.Faults.{text_of, is_text, is_same, is_among as stands_among, is_unknown as names_none, or_if, name_fault, home_fault, client_faults, home_faults, realm_faults, table_faults, each_faults, home_tables as tables_of_homes, part_faults, top_faults, unknown_faults, faults_in};

use super::arrays::{table, tables_of_part};
use super::document::{address, address_and_port, home_name, member, realm_name, secret, text};
use super::faults::{ConfigFault, Key, Part, Spot};
use super::sections::{lane_limits, spot_of};
use super::walk::{home_name_of, linger, listen};
use std::alloc::{AllocError, Global};
use toml::{Table, Value};

/// Returns the faults of a document: of each key the first, but one for all numbers of a home server. They are in the
/// order in which the document is read, so that the first is the one that [`read_config`](super::read_config) returns.
///
/// # Errors
///
/// If memory is refused.
pub fn list_faults(alloc: Global, doc: &Table) -> Result<Vec<ConfigFault>, AllocError>
    ensures { IfOk result (λ faults. faults.items ≡ faults_in (table_view doc.now)) }
{
    let mut faults = Vec::new(alloc);
    add_of_document(&mut faults, doc)?;
    Ok(faults)
}

#[tactic(auto, unfolding(crate::specs::Faults::faults_in))]
fn add_of_document(faults: &mut Vec<ConfigFault>, doc: &Table) -> Result<(), AllocError>
    ensures { OnOk result (faults.new.items ≡ faults.old.items ++ faults_in (table_view doc.now)) }
{
    add_of_top(faults, doc)?;
    add_of_part(faults, Part::Client, doc)?;
    add_of_part(faults, Part::Home, doc)?;
    add_of_part(faults, Part::Realm, doc)?;
    add_of_unknown(faults, Key::DefaultHome, doc)?;
    add_of_unknown(faults, Key::OtherHome, doc)
}

#[tactic(auto, unfolding(crate::specs::Faults::top_faults), using(crate::proofs::Listing::reads_err))]
fn add_of_top(faults: &mut Vec<ConfigFault>, doc: &Table) -> Result<(), AllocError>
    ensures { OnOk result (faults.new.items ≡ faults.old.items ++ top_faults (table_view doc.now)) }
{
    add_fault(faults, listen(doc).err())?;
    add_fault(faults, home_name_of(Key::DefaultHome, doc).err())?;
    add_fault(faults, home_name_of(Key::OtherHome, doc).err())?;
    add_fault(faults, linger(doc).err())
}

#[tactic(auto, unfolding(crate::specs::Faults::unknown_faults))]
fn add_of_unknown(faults: &mut Vec<ConfigFault>, key: Key, doc: &Table) -> Result<(), AllocError>
    ensures { OnOk result (faults.new.items ≡ faults.old.items ++ unknown_faults key (table_view doc.now)) }
{
    let unknown = is_unknown(home_tables(doc), text_at_key(key, doc));
    let fault = ConfigFault::UnknownHome(spot_of(Part::Top, 0, key));
    add_fault(faults, fault_or(None, unknown, fault))
}

fn add_fault(faults: &mut Vec<ConfigFault>, fault: Option<ConfigFault>) -> Result<(), AllocError>
    ensures { OnOk result (faults.new.items ≡ faults.old.items ++ option_to_list fault) }
{
    if let Some(fault) = fault {
        faults.push(fault)?;
    }
    Ok(())
}

fn fault_or(fault: Option<ConfigFault>, test: bool, other: ConfigFault) -> Option<ConfigFault>
    ensures { result ≡ or_if fault test other }
{
    match fault {
        Some(fault) => Some(fault),
        None if test => Some(other),
        None => None,
    }
}

#[tactic(auto, unfolding(crate::specs::Faults::part_faults))]
fn add_of_part(faults: &mut Vec<ConfigFault>, part: Part, doc: &Table) -> Result<(), AllocError>
    ensures { OnOk result (faults.new.items ≡ faults.old.items ++ part_faults part (table_view doc.now)) }
{
    match tables_of_part(part, doc) {
        Ok(tables) => add_of_tables(faults, part, home_tables(doc), tables),
        Err(fault) => add_fault(faults, Some(fault)),
    }
}

fn home_tables(doc: &Table) -> &[Value]
    ensures { tables_of_values result.now ≡ tables_of_homes (table_view doc.now) }
{
    match tables_of_part(Part::Home, doc) {
        Ok(tables) => tables,
        Err(_) => &[],
    }
}

fn add_of_tables(
    faults: &mut Vec<ConfigFault>,
    part: Part,
    homes: &[Value],
    tables: &[Value],
) -> Result<(), AllocError>
    requires { All IsTable tables.now }
    ensures { OnOk result (faults.new.items ≡ faults.old.items ++ each_faults part (tables_of_values homes.now) 0 [] (tables_of_values tables.now)) }
{
    let mut index = 0;
    for value in tables {
        add_of_table(faults, part, homes, &tables[..index], value)?;
        index += 1;
    }
    Ok(())
}

fn add_of_table(
    faults: &mut Vec<ConfigFault>,
    part: Part,
    homes: &[Value],
    earlier: &[Value],
    value: &Value,
) -> Result<(), AllocError>
    requires { IsTable value.now }
    ensures { OnOk result (faults.new.items ≡ faults.old.items ++ table_faults part (tables_of_values homes.now) (length earlier.now) (tables_of_values earlier.now) (table_of value.now)) }
{
    let doc = table(value);
    match part {
        Part::Top => Ok(()),
        Part::Client => add_of_client(faults, earlier, doc),
        Part::Home => add_of_home(faults, earlier, doc),
        Part::Realm => add_of_realm(faults, homes, earlier, doc),
    }
}

#[tactic(auto, unfolding(crate::specs::Faults::client_faults))]
fn add_of_client(
    faults: &mut Vec<ConfigFault>,
    earlier: &[Value],
    doc: &Table,
) -> Result<(), AllocError>
    ensures { OnOk result (faults.new.items ≡ faults.old.items ++ client_faults (length earlier.now) (tables_of_values earlier.now) (table_view doc.now)) }
{
    let index = earlier.len();
    let at = spot_of(Part::Client, index, Key::Address);
    let form = address(at, doc).err();
    let secret = secret(spot_of(Part::Client, index, Key::Secret), doc).err();
    add_fault(faults, fault_of_name(form, at, earlier, doc))?;
    add_fault(faults, secret)
}

#[tactic(auto, unfolding(crate::specs::Faults::home_faults), using(crate::proofs::Listing::reads_err))]
fn add_of_home(
    faults: &mut Vec<ConfigFault>,
    earlier: &[Value],
    doc: &Table,
) -> Result<(), AllocError>
    ensures { OnOk result (faults.new.items ≡ faults.old.items ++ home_faults (length earlier.now) (tables_of_values earlier.now) (table_view doc.now)) }
{
    let index = earlier.len();
    let at = spot_of(Part::Home, index, Key::Name);
    let form = home_name(at, doc).err();
    let endpoint = address_and_port(spot_of(Part::Home, index, Key::Address), doc).err();
    let secret = secret(spot_of(Part::Home, index, Key::Secret), doc).err();
    add_fault(faults, fault_of_name(form, at, earlier, doc))?;
    add_fault(faults, endpoint)?;
    add_fault(faults, secret)?;
    add_fault(faults, lane_limits(index, doc).err())
}

#[tactic(auto, unfolding(crate::specs::Faults::realm_faults), using(crate::proofs::Listing::reads_err))]
fn add_of_realm(
    faults: &mut Vec<ConfigFault>,
    homes: &[Value],
    earlier: &[Value],
    doc: &Table,
) -> Result<(), AllocError>
    ensures { OnOk result (faults.new.items ≡ faults.old.items ++ realm_faults (tables_of_values homes.now) (length earlier.now) (tables_of_values earlier.now) (table_view doc.now)) }
{
    let index = earlier.len();
    let at = spot_of(Part::Realm, index, Key::Name);
    let form = realm_name(at, doc).err();
    add_fault(faults, fault_of_name(form, at, earlier, doc))?;
    add_fault(
        faults,
        fault_of_home(spot_of(Part::Realm, index, Key::Home), homes, doc),
    )
}

#[tactic(auto, using(crate::proofs::Listing::reads_err))]
fn fault_of_home(at: Spot, homes: &[Value], doc: &Table) -> Option<ConfigFault>
    ensures { result ≡ home_fault at (tables_of_values homes.now) (table_view doc.now) }
{
    let unknown = is_unknown(homes, text_at_key(at.key, doc));
    fault_or(text(at, doc).err(), unknown, ConfigFault::UnknownHome(at))
}

fn fault_of_name(
    form: Option<ConfigFault>,
    at: Spot,
    earlier: &[Value],
    doc: &Table,
) -> Option<ConfigFault>
    ensures { result ≡ name_fault form at (tables_of_values earlier.now) (table_view doc.now) }
{
    let double = match text_at_key(at.key, doc) {
        Some(text) => is_among(at.part, earlier, at.key, text),
        None => false,
    };
    fault_or(form, double, ConfigFault::DoubleName(at))
}

fn is_unknown(homes: &[Value], name: Option<&str>) -> bool
    ensures { result ≡ names_none (tables_of_values homes.now) (option_map (λ s. s.now) name.entry) }
{
    match name {
        Some(name) => !is_among(Part::Home, homes, Key::Name, name),
        None => false,
    }
}

fn is_among(part: Part, tables: &[Value], key: Key, text: &str) -> bool
    ensures { result ≡ stands_among part (tables_of_values tables.now) key text.now }
{
    has_any_text(part, tables, key, text)
}

/// For the proof: whether one of these values is a table that has this text at a key.
fn has_any_text(part: Part, values: &[Value], key: Key, text: &str) -> bool
    ensures { result ≡ list_any (λ v. is_text (λ other. is_same part other text.now) (text_of key (table_of v))) values.now }
{
    values.iter().any(|value| has_text(part, value, key, text))
}

fn has_text(part: Part, value: &Value, key: Key, text: &str) -> bool
    ensures { result ≡ is_text (λ other. is_same part other text.now) (text_of key (table_of value.now)) }
{
    match text_of_table(value, key) {
        Some(other) => is_same(part, other, text),
        None => false,
    }
}

fn is_same(part: Part, name: &str, other: &str) -> bool
    ensures { result ≡ is_same part name.now other.now }
{
    match part {
        Part::Realm => name.eq_ignore_ascii_case(other),
        Part::Top | Part::Client | Part::Home => name == other,
    }
}

fn text_of_table(value: &Value, key: Key) -> Option<&str>
    ensures { option_map (λ s. s.now) result ≡ text_of key (table_of value.now) }
{
    text_at_key(key, value.as_table()?)
}

fn text_at_key(key: Key, doc: &Table) -> Option<&str>
    ensures { option_map (λ s. s.now) result ≡ text_of key (table_view doc.now) }
{
    member(key, doc)?.as_str()
}
