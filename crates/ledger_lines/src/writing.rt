//! The members of an object, as they are written.

ghost use Rattle.std.specs.Prelude.{◌≡◌, [], ◌∷◌, OnOk, Some, option_copied, option_map};
ghost use Rattle.json.specs.Json.{string};
ghost use Rattle.json_objects.specs.Adding.{AddsSlots, Opens};
ghost use Rattle.json_objects.specs.Written.{number_value};
ghost use Rattle.ledger_lines.specs.Lines.{truth_if};
ghost use Rattle.ledger_lines.specs.Written.{first_slots, octets_value, words_slots};
ghost use Rattle.rad_realms.specs.Printed.{address_text};

use json::Writer;
use json_objects::{number, text};
use std::alloc::{AllocError, Global};

/// Begins the object of a line of a type, with its run and its moment.
pub(crate) fn first_members(
    alloc: Global,
    writer: &mut Writer,
    kind: &str,
    run: u64,
    time: &str,
) -> Result<(), AllocError>
    ensures { OnOk result (Opens writer.old writer.new (first_slots kind.now run time.now)) }
{
    writer.begin_object()?;
    text(writer, "type", kind)?;
    digits(alloc, writer, "run", &run.to_be_bytes())?;
    text(writer, "time", time)
}

pub(crate) fn number_if_any(
    writer: &mut Writer,
    key: &str,
    value: Option<u64>,
) -> Result<(), AllocError>
    ensures { OnOk result (AddsSlots writer.old writer.new ((key.now, (option_map number_value value)) ∷ [])) }
{
    match value {
        Some(value) => number(writer, key, value),
        None => Ok(()),
    }
}

/// Returns the same number, if there is one, as one of eight octets.
pub(crate) fn widened(value: Option<u32>) -> Option<u64>
    ensures { result ≡ value }
{
    match value {
        Some(value) => Some(u64::from(value)),
        None => None,
    }
}

pub(crate) fn text_if_any(
    writer: &mut Writer,
    key: &str,
    value: Option<&str>,
) -> Result<(), AllocError>
    ensures { OnOk result (AddsSlots writer.old writer.new ((key.now, (option_map string (option_copied value.entry))) ∷ [])) }
{
    match value {
        Some(value) => text(writer, key, value),
        None => Ok(()),
    }
}

/// A key with `true`, if this holds.
pub(crate) fn true_if(writer: &mut Writer, key: &str, holds: bool) -> Result<(), AllocError>
    ensures { OnOk result (AddsSlots writer.old writer.new ((key.now, truth_if holds) ∷ [])) }
{
    if holds {
        writer.key(key)?;
        writer.boolean(true)
    } else {
        Ok(())
    }
}

/// An address, as four decimal numbers with dots between them.
pub(crate) fn address(
    alloc: Global,
    writer: &mut Writer,
    key: &str,
    address: [u8; 4],
) -> Result<(), AllocError>
    ensures { OnOk result (AddsSlots writer.old writer.new ((key.now, (Some (string (address_text address)))) ∷ [])) }
{
    let [a, b, c, d] = address;
    let words = format!(in alloc; "{a}.{b}.{c}.{d}")?;
    text(writer, key, words.as_str())
}

pub(crate) fn digits(
    alloc: Global,
    writer: &mut Writer,
    key: &str,
    octets: &[u8],
) -> Result<(), AllocError>
    ensures { OnOk result (AddsSlots writer.old writer.new ((key.now, (Some (octets_value octets.now))) ∷ [])) }
{
    let digits = hex::encode(alloc, octets)?;
    text(writer, key, digits.as_str())
}

pub(crate) fn digits_if_any(
    alloc: Global,
    writer: &mut Writer,
    key: &str,
    sum: Option<[u8; 32]>,
) -> Result<(), AllocError>
    ensures { OnOk result (AddsSlots writer.old writer.new ((key.now, (option_map octets_value sum)) ∷ [])) }
{
    match sum {
        Some(sum) => digits(alloc, writer, key, &sum),
        None => Ok(()),
    }
}

/// Octets that may be a text: under the one key as the text that they are, else under the other as digits.
pub(crate) fn words(
    alloc: Global,
    writer: &mut Writer,
    key: &str,
    key_of_octets: &str,
    octets: Option<&[u8]>,
) -> Result<(), AllocError>
    ensures { OnOk result (AddsSlots writer.old writer.new (words_slots key.now key_of_octets.now (option_copied octets.entry))) }
{
    let Some(octets) = octets else {
        return Ok(());
    };
    match str::from_utf8(octets) {
        Ok(words) => text(writer, key, words),
        Err(_) => digits(alloc, writer, key_of_octets, octets),
    }
}
