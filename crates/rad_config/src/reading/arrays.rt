//! Reading the arrays of tables of a configuration.

ghost use Rattle.std.specs.Prelude.{◌≡◌, ◌≤◌, length, All, IfOk, Some, None, IsTrue, MatchBool, ◌↔◌};
ghost use Rattle.toml.specs.View.{view, items_view, table_view};
ghost use Rattle.rad_config.specs.internal.Values.{IsTable, table_of, tables_of_values, ReadsTables};
ghost use Rattle.rad_config.specs.Walk.{is_empty_array, tables_in, tables_of, some_tables_at, any_tables_at, array_of};

use super::document::{member, needed_value};
use super::faults::{ConfigFault, Key, Part, Spot};
use super::sections::spot_of;
use toml::{Table, Value};

pub(crate) fn tables_of_part(part: Part, doc: &Table) -> Result<&[Value], ConfigFault>
    ensures tables { ReadsTables result (array_of part (table_view doc.now)) }
    ensures homes { part ≡ Part.Home → IfOk result (λ values. length values.now ≤ 64) }
{
    match part {
        Part::Top => Ok(&[]),
        Part::Client => some_tables(256, spot_of(Part::Top, 0, Key::Client), doc),
        Part::Home => some_tables(64, spot_of(Part::Top, 0, Key::Home), doc),
        Part::Realm => any_tables(256, spot_of(Part::Top, 0, Key::Realm), doc),
    }
}

#[tactic(auto, unfolding(crate::specs::Walk::some_tables_at))]
fn some_tables<'t>(most: usize, spot: Spot, doc: &'t Table) -> Result<&'t [Value], ConfigFault>
    ensures tables { ReadsTables result (some_tables_at most spot (table_view doc.now)) }
    ensures most { IfOk result (λ values. length values.now ≤ most) }
{
    let value = needed_value(spot, doc)?;
    if is_empty_array_value(value) {
        return Err(ConfigFault::Missing(spot));
    }
    tables_of_value(most, spot, value)
}

#[tactic(auto, unfolding(crate::specs::Walk::any_tables_at))]
fn any_tables<'t>(most: usize, spot: Spot, doc: &'t Table) -> Result<&'t [Value], ConfigFault>
    ensures { ReadsTables result (any_tables_at most spot (table_view doc.now)) }
{
    match member(spot.key, doc) {
        Some(value) => tables_of_value(most, spot, value),
        None => Ok(&[]),
    }
}

#[tactic(auto, using(crate::proofs::ArrayTables::length_tables), unfolding(crate::specs::Walk::tables_of))]
fn tables_of_value(most: usize, spot: Spot, value: &Value) -> Result<&[Value], ConfigFault>
    ensures tables { ReadsTables result (tables_of most spot (view value.now)) }
    ensures most { IfOk result (λ values. length values.now ≤ most) }
{
    let Some(values) = value.as_array() else {
        return Err(ConfigFault::WrongType(spot));
    };
    if !are_tables(values) {
        return Err(ConfigFault::WrongType(spot));
    }
    if values.len() > most {
        return Err(ConfigFault::TooMany(spot));
    }
    Ok(values.as_slice())
}

fn are_tables(values: &[Value]) -> bool
    ensures { MatchBool result
        (All IsTable values.now × (tables_in (items_view values.now) ≡ Some (tables_of_values values.now)))
        (tables_in (items_view values.now) ≡ None) }
{
    is_each_table(values)
}

fn is_empty_array_value(value: &Value) -> bool
    ensures { result ≡ is_empty_array (view value.now) }
{
    match value.as_array() {
        Some(values) => values.is_empty(),
        None => false,
    }
}

pub(crate) fn table(value: &Value) -> &Table
    requires { IsTable value.now }
    ensures { table_view result.now ≡ table_of value.now }
{
    value.as_table().unwrap()
}

/// For the proof: whether each value is a table.
fn is_each_table(values: &[Value]) -> bool
    ensures { IsTrue result ↔ All IsTable values.now }
{
    values.iter().all(|value| value.is_table())
}
