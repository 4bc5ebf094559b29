//! The keys of a configuration that are not read.

ghost use Rattle.std.specs.Prelude.{◌≡◌, ◌-◌, ◌++◌, All, length, map, take, option_map, unwrap_or, IfOk, OnOk};
ghost use Rattle.toml.specs.Data.{no_items, no_members, as_array, as_table, get_member};
ghost use Rattle.toml.specs.View.{view, items_view, table_view};
ghost use Rattle.rad_realms.specs.Spot.{part_name as name_of_part};
ghost use Rattle.rad_advice.specs.Keys.{unless_read, read_names, unread_in_table, unread_in_items, items_at, unread_in, unread_in_text, entry_listed, entry_found, IsReportedIn};

use crate::config_text::ConfigText;
use crate::finding::find_key;
use crate::keys::is_read;
use crate::listed::{Listed, list_first};
use crate::name_text::NameText;
use crate::near::is_near_key;
use crate::place::{AtText, TextPlace};
use rad_realms::Part;
use std::alloc::{AllocError, Global};
use std::fmt;
use toml::{Table, Value};

/// The most keys that are listed.
const MOST_LISTED: usize = 20;

/// A key of a document that is not read.
#[derive(Clone, Copy)]
struct Unread<'t> {
    /// The part whose table contains it.
    part: Part,
    /// The index of that table in the part, counted from 0.
    index: usize,
    name: &'t str,
}

/// A key of a configuration that is not read. It is printed as `home 0 windw at line 7, column 1`, or as `home 0 a key at
/// line 7, column 1` if its name is not near that of a key that is read there, and may be a secret.
#[derive(Clone, Copy)]
pub struct UnreadKey<'t> {
    key: Unread<'t>,
    /// Whether at most two edits make its name of that of a key that is read in such a table.
    is_near: bool,
    /// The place where it begins for the first time in that table, if it was found.
    place: Option<TextPlace>,
}

impl fmt::Display for UnreadKey<'_> {
    ghost use Rattle.std.specs.Prelude.{Some};
    ghost use Rattle.rad_advice.specs.Printed.{unread_text};

    ghost output = { λ key. Some (unread_text key) };

    fn fmt<W: fmt::Write>(&self, f: &mut fmt::Formatter<W>) -> fmt::Result {
        let Unread { part, index, name } = self.key;
        let table = TableText { part, index };
        let at = AtText(self.place);
        if !self.is_near {
            return write!(f, "{table}a key{at}");
        }
        let name = NameText(name);
        write!(f, "{table}{name}{at}")
    }
}

/// The table that contains a key, followed by a space.
#[derive(Clone, Copy)]
pub(crate) struct TableText {
    pub part: Part,
    pub index: usize,
}

impl fmt::Display for TableText {
    ghost use Rattle.std.specs.Prelude.{Some};
    ghost use Rattle.rad_advice.specs.Printed.{table_text};

    ghost output = { λ table. Some (table_text table.part table.index) };

    fn fmt<W: fmt::Write>(&self, f: &mut fmt::Formatter<W>) -> fmt::Result {
        let name = self.part.name();
        if self.part == Part::Top {
            return write!(f, "{name} ");
        }
        let index = self.index;
        write!(f, "{name} {index} ")
    }
}

/// Returns the keys of a configuration's text that are not read, the first 20: those of the top, then those of each client, of
/// each home server and of each realm. Those of one table are in the order of their octets.
///
/// # Errors
///
/// If memory is refused.
pub fn unread_keys<'t>(
    alloc: Global,
    text: &'t ConfigText<'_>,
) -> Result<Listed<UnreadKey<'t>>, AllocError>
    ensures first { IfOk result (λ keys. map entry_listed keys.first.items ≡ take 20 (unread_in_text text.now)) }
    ensures more { IfOk result (λ keys. keys.more ≡ length (unread_in_text text.now) - 20) }
    ensures each { IfOk result (λ keys. All (IsReportedIn text.now) keys.first.items) }
{
    let unread = unread_of_document(alloc, text.document())?;
    list(alloc, text.as_str(), unread.as_slice())
}

fn list<'t>(
    alloc: Global,
    text: &str,
    unread: &[Unread<'t>],
) -> Result<Listed<UnreadKey<'t>>, AllocError>
    ensures first { IfOk result (λ keys. map entry_listed keys.first.items ≡ take 20 (map entry_found unread.now)) }
    ensures more { IfOk result (λ keys. keys.more ≡ length (map entry_found unread.now) - 20) }
    ensures each { IfOk result (λ keys. All (IsReportedIn text.now) keys.first.items) }
{
    list_first(
        alloc,
        unread,
        MOST_LISTED,
        |key| place_key(alloc, text, key),
    )
}

fn place_key<'t>(alloc: Global, text: &str, key: Unread<'t>) -> Result<UnreadKey<'t>, AllocError>
    ensures entry { IfOk result (λ listed. entry_listed listed ≡ entry_found key.entry) }
    ensures reported { IfOk result (λ listed. IsReportedIn text.now listed) }
{
    let Unread { part, index, name } = key;
    let place = find_key(alloc, text, part, index, name)?;
    let is_near = is_near_key(alloc, part, name)?;
    Ok(UnreadKey {
        key,
        is_near,
        place,
    })
}

fn unread_of_document(alloc: Global, document: &Table) -> Result<Vec<Unread<'_>>, AllocError>
    ensures { IfOk result (λ found. map entry_found found.items ≡ unread_in (table_view document.now)) }
{
    let mut found = Vec::new(alloc);
    add_of_document(&mut found, document)?;
    Ok(found)
}

fn add_of_document<'t>(found: &mut Vec<Unread<'t>>, document: &'t Table) -> Result<(), AllocError>
    ensures { OnOk result (map entry_found found.new.items ≡ map entry_found found.old.items ++ unread_in (table_view document.now)) }
{
    add_of_table(found, Part::Top, 0, document)?;
    add_of_part(found, Part::Client, document)?;
    add_of_part(found, Part::Home, document)?;
    add_of_part(found, Part::Realm, document)
}

fn add_of_part<'t>(
    found: &mut Vec<Unread<'t>>,
    part: Part,
    document: &'t Table,
) -> Result<(), AllocError>
    ensures { OnOk result (map entry_found found.new.items ≡ map entry_found found.old.items ++ unread_in_items part 0 (read_names part) (items_at (name_of_part part) (table_view document.now))) }
{
    add_of_values(found, part, values_at(part.name(), document))
}

fn add_of_values<'t>(
    found: &mut Vec<Unread<'t>>,
    part: Part,
    values: &'t [Value],
) -> Result<(), AllocError>
    ensures { OnOk result (map entry_found found.new.items ≡ map entry_found found.old.items ++ unread_in_items part 0 (read_names part) (items_view values.now)) }
{
    let mut index = 0;
    for value in values {
        add_of_value(found, part, index, value)?;
        index += 1;
    }
    Ok(())
}

fn values_at<'t>(name: &str, document: &'t Table) -> &'t [Value]
    ensures { items_view result.now ≡ items_at name.now (table_view document.now) }
{
    match member(name, document) {
        Some(value) => values_of(value),
        None => &[],
    }
}

fn values_of(value: &Value) -> &[Value]
    ensures { items_view result.now ≡ unwrap_or (as_array (view value.now)) no_items }
{
    match value.as_array() {
        Some(values) => values.as_slice(),
        None => &[],
    }
}

fn add_of_value<'t>(
    found: &mut Vec<Unread<'t>>,
    part: Part,
    index: usize,
    value: &'t Value,
) -> Result<(), AllocError>
    ensures { OnOk result (map entry_found found.new.items ≡ map entry_found found.old.items ++ unread_in_table part index (read_names part) (unwrap_or (as_table (view value.now)) no_members)) }
{
    match value.as_table() {
        Some(table) => add_of_table(found, part, index, table),
        None => Ok(()),
    }
}

fn add_of_table<'t>(
    found: &mut Vec<Unread<'t>>,
    part: Part,
    index: usize,
    table: &'t Table,
) -> Result<(), AllocError>
    ensures { OnOk result (map entry_found found.new.items ≡ map entry_found found.old.items ++ unread_in_table part index (read_names part) (table_view table.now)) }
{
    'keys: for (key, _value) in table.iter() {
        add_unless_read(found, part, index, key.as_str())?;
    }
    Ok(())
}

fn add_unless_read<'t>(
    found: &mut Vec<Unread<'t>>,
    part: Part,
    index: usize,
    name: &'t str,
) -> Result<(), AllocError>
    ensures { OnOk result (map entry_found found.new.items ≡ map entry_found found.old.items ++ unless_read part index (read_names part) name.now) }
{
    if is_read(part, name) {
        return Ok(());
    }
    found.push(Unread { part, index, name })?;
    Ok(())
}

/// For the proof: finds the value of a key.
pub(crate) fn member<'t>(name: &str, document: &'t Table) -> Option<&'t Value>
    ensures { option_map (λ v. view v.now) result ≡ get_member name.now (table_view document.now) }
{
    document.get(name)
}
