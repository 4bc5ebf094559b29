//! The faults of a configuration, as its operator is told of them.

ghost use Rattle.std.specs.Prelude.{◌≡◌, ◌-◌, ◌++◌, [], All, codes, length, map, take, option_map, IfOk, IfSome, Some, if◌then◌else◌};
ghost use Rattle.toml.specs.Data.{as_str, at, get};
ghost use Rattle.toml.specs.View.{view, table_view};
ghost use Rattle.rad_realms.specs.Spot.{key_name, part_name};
ghost use Rattle.rad_realms.specs.Faults.{faults_in};
ghost use Rattle.rad_advice.specs.Keys.{BeginsAtPlace};
ghost use Rattle.rad_advice.specs.Printed.{name_text};
ghost use Rattle.rad_advice.specs.Telling.{is_told};
ghost use Rattle.rad_advice.specs.Faults.{data_at, data_text, text_at as told_text, value_text, spot_in, shown_text, entry_told, entry_of, entries_in, entries_in_text, sought as name_sought, key_sought, is_top, IsPlacedIn};

use crate::config_text::ConfigText;
use crate::finding::{find_key, find_table};
use crate::hints::hint_of;
use crate::listed::{Listed, list_first};
use crate::name_text::NameText;
use crate::place::{AtText, TextPlace};
use crate::unread::member;
use rad_realms::{ConfigFault, Key, Part, Spot, list_faults};
use std::alloc::{AllocError, Global};
use std::fmt;
use toml::{Table, Value};

/// The most faults that are listed.
const MOST_LISTED: usize = 50;

/// A fault of a configuration. It is printed as its name and spot, its place, the value, if it can be no secret, and a
/// hint: `BadAddress at client 0 address at line 4, column 1: 10.2.0.0/16: it is a block: one [[client]] for each address`.
/// The value is cut if it is long.
#[derive(Clone, Copy)]
pub struct FaultReport<'t> {
    fault: ConfigFault,
    /// The place of its key; or of the header of its table, if the key is absent.
    place: Option<TextPlace>,
    value: Shown<'t>,
    /// What the value seems to be, or should be.
    hint: &'static str,
    /// The place of the first key with the same value, if it is a name that two tables have.
    first: Option<TextPlace>,
}

/// A value that is told.
#[derive(Clone, Copy)]
enum Shown<'t> {
    /// A secret, or a value that may be one; an absent value, or one of another type.
    Nothing,
    Text(&'t str),
    Number(i64),
}

impl fmt::Display for FaultReport<'_> {
    ghost use Rattle.std.specs.Prelude.{Some};
    ghost use Rattle.rad_advice.specs.Faults.{report_text};

    ghost output = { λ report. Some (report_text report) };

    fn fmt<W: fmt::Write>(&self, f: &mut fmt::Formatter<W>) -> fmt::Result {
        let fault = self.fault;
        let at = AtText(self.place);
        let value = self.value;
        let hint = self.hint;
        let first = FirstText(self.first);
        write!(f, "{fault}{at}{value}{hint}{first}")
    }
}

impl fmt::Display for Shown<'_> {
    ghost use Rattle.std.specs.Prelude.{Some};
    ghost use Rattle.rad_advice.specs.Faults.{shown_text};

    ghost output = { λ shown. Some (shown_text shown) };

    fn fmt<W: fmt::Write>(&self, f: &mut fmt::Formatter<W>) -> fmt::Result {
        match self {
            Shown::Nothing => Ok(()),
            Shown::Text(text) => {
                let text = NameText(text);
                write!(f, ": {text}")
            }
            Shown::Number(number) => write!(f, ": {number}"),
        }
    }
}

/// The line of the first key with the same value, if it is known.
#[derive(Clone, Copy)]
struct FirstText(Option<TextPlace>);

impl fmt::Display for FirstText {
    ghost use Rattle.std.specs.Prelude.{Some};
    ghost use Rattle.rad_advice.specs.Faults.{first_text};

    ghost output = { λ first. Some (first_text first.0) };

    fn fmt<W: fmt::Write>(&self, f: &mut fmt::Formatter<W>) -> fmt::Result {
        match self.0 {
            Some(place) => {
                let line = place.line;
                write!(f, ": the first one is at line {line}")
            }
            None => Ok(()),
        }
    }
}

/// Returns the first 50 faults of a configuration's text, in the order in which it is read. The first of them is the one for
/// which it is refused.
///
/// # Errors
///
/// If memory is refused.
pub fn fault_reports<'t>(
    alloc: Global,
    text: &'t ConfigText<'_>,
) -> Result<Listed<FaultReport<'t>>, AllocError>
    ensures first { IfOk result (λ reports. map entry_told reports.first.items ≡ take 50 (entries_in_text text.now)) }
    ensures more { IfOk result (λ reports. reports.more ≡ length (entries_in_text text.now) - 50) }
    ensures places { IfOk result (λ reports. All (IsPlacedIn text.now) reports.first.items) }
{
    let document = text.document();
    let faults = list_faults(alloc, document)?;
    report_first(alloc, text.as_str(), document, faults.as_slice())
}

fn report_first<'t>(
    alloc: Global,
    text: &str,
    document: &'t Table,
    faults: &[ConfigFault],
) -> Result<Listed<FaultReport<'t>>, AllocError>
    ensures first { IfOk result (λ reports. map entry_told reports.first.items ≡ take 50 (map (entry_of (table_view document.now)) faults.now)) }
    ensures more { IfOk result (λ reports. reports.more ≡ length (map (entry_of (table_view document.now)) faults.now) - 50) }
    ensures places { IfOk result (λ reports. All (IsPlacedIn text.now) reports.first.items) }
{
    list_first(alloc, faults, MOST_LISTED, |fault| {
        report_of(alloc, text, document, fault)
    })
}

fn report_of<'t>(
    alloc: Global,
    text: &str,
    document: &'t Table,
    fault: ConfigFault,
) -> Result<FaultReport<'t>, AllocError>
    ensures entry { IfOk result (λ report. entry_told report ≡ entry_of (table_view document.now) fault) }
    ensures placed { IfOk result (λ report. IsPlacedIn text.now report) }
{
    let place = find_place(alloc, text, fault)?;
    let value = show_value(document, fault);
    let hint = hint_of(fault, text_at(document, fault));
    let first = find_first(alloc, text, document, fault)?;
    Ok(FaultReport {
        fault,
        place,
        value,
        hint,
        first,
    })
}

fn spot_of(fault: ConfigFault) -> Option<Spot>
    ensures { result ≡ spot_in fault }
{
    match fault {
        ConfigFault::Toml | ConfigFault::OutOfMemory => None,
        ConfigFault::Missing(spot)
        | ConfigFault::WrongType(spot)
        | ConfigFault::OutOfRange(spot)
        | ConfigFault::DoubleName(spot)
        | ConfigFault::UnknownHome(spot)
        | ConfigFault::BadAddress(spot)
        | ConfigFault::TooMany(spot) => Some(spot),
    }
}

fn find_value(document: &Table, spot: Spot) -> Option<&Value>
    ensures { option_map (λ v. view v.now) result ≡ data_at spot (table_view document.now) }
{
    if spot.part == Part::Top {
        return member(spot.key.name(), document);
    }
    let tables = member(spot.part.name(), document)?;
    let table = item_of(tables, spot.index)?;
    value_of(table, spot.key.name())
}

fn text_at(document: &Table, fault: ConfigFault) -> Option<&str>
    ensures { option_map (λ s. s.now) result ≡ told_text fault (table_view document.now) }
{
    let value = find_value(document, spot_of(fault)?)?;
    value.as_str()
}

fn show_value(document: &Table, fault: ConfigFault) -> Shown<'_>
    ensures { shown_text result ≡ value_text fault (table_view document.now) }
{
    let Some(spot) = spot_of(fault) else {
        return Shown::Nothing;
    };
    if spot.key == Key::Secret {
        return Shown::Nothing;
    }
    match find_value(document, spot) {
        Some(value) => show(value),
        None => Shown::Nothing,
    }
}

fn show(value: &Value) -> Shown<'_>
    ensures { shown_text result ≡ data_text (Some (view value.now)) }
{
    if let Some(text) = value.as_str() {
        return show_text(text);
    }
    match value.as_integer() {
        Some(number) if number >= 0 => Shown::Number(number),
        _ => Shown::Nothing,
    }
}

fn show_text(text: &str) -> Shown<'_>
    ensures { shown_text result ≡ (if is_told text.now then codes ": " ++ name_text text.now else []) }
{
    if may_tell(text.as_bytes()) {
        Shown::Text(text)
    } else {
        Shown::Nothing
    }
}

/// For the proof: whether a text has digits, `.`, `:` and `/` alone.
fn may_tell(text: &[u8]) -> bool
    ensures { result ≡ is_told text.now }
{
    text.iter().all(|octet| octet.is_ascii_digit() || matches!(*octet, b'.' | b':' | b'/'))
}

/// Returns the place of a fault's key; or of the header of its table, if the key is absent there.
fn find_place(
    alloc: Global,
    text: &str,
    fault: ConfigFault,
) -> Result<Option<TextPlace>, AllocError>
    ensures { IfOk result (λ found. IfSome found (BeginsAtPlace text.now (name_sought fault))) }
{
    if let ConfigFault::Missing(spot) = fault {
        return place_missing(alloc, text, spot);
    }
    match spot_of(fault) {
        Some(spot) => place_key(alloc, text, spot),
        None => Ok(None),
    }
}

/// Returns the place of a key at the top, or that of the header of the table that lacks it.
fn place_missing(alloc: Global, text: &str, spot: Spot) -> Result<Option<TextPlace>, AllocError>
    ensures { IfOk result (λ found. IfSome found (BeginsAtPlace text.now (if is_top spot.part then key_name spot.key else part_name spot.part))) }
{
    match spot.part {
        Part::Top => place_key(alloc, text, spot),
        _ => find_table(alloc, text, spot.part, spot.index),
    }
}

fn place_key(alloc: Global, text: &str, spot: Spot) -> Result<Option<TextPlace>, AllocError>
    ensures { IfOk result (λ found. IfSome found (BeginsAtPlace text.now (key_name spot.key))) }
{
    find_key(alloc, text, spot.part, spot.index, spot.key.name())
}

/// Returns the place of the first key with the same value, if the fault is that two tables have it.
fn find_first(
    alloc: Global,
    text: &str,
    document: &Table,
    fault: ConfigFault,
) -> Result<Option<TextPlace>, AllocError>
    ensures { IfOk result (λ found. IfSome found (BeginsAtPlace text.now (key_sought (spot_in fault)))) }
{
    let ConfigFault::DoubleName(spot) = fault else {
        return Ok(None);
    };
    let Some(name) = text_at(document, fault) else {
        return Ok(None);
    };
    match (0..spot.index).find(|index| has_name(document, spot, *index, name)) {
        Some(index) => place_key(alloc, text, Spot { index, ..spot }),
        None => Ok(None),
    }
}

fn has_name(document: &Table, spot: Spot, index: usize, name: &str) -> bool {
    let other = match find_value(document, Spot { index, ..spot }) {
        Some(value) => value.as_str(),
        None => None,
    };
    match other {
        Some(other) if spot.part == Part::Realm => other.eq_ignore_ascii_case(name),
        Some(other) => other == name,
        None => false,
    }
}

/// For the proof: returns the item of this index, if the value is an array that has it.
fn item_of(value: &Value, index: usize) -> Option<&Value>
    ensures { option_map (λ v. view v.now) result ≡ at index (view value.now) }
{
    value.get(index)
}

/// For the proof: returns the value of a key, if the value is a table that has it.
fn value_of<'t>(value: &'t Value, key: &str) -> Option<&'t Value>
    ensures { option_map (λ v. view v.now) result ≡ get key.now (view value.now) }
{
    value.get(key)
}
