//! Objects of JSON, written a member at a time: [`text`] and [`number`] add one, and [`close_line`] ends the line. [`close_body`] gives the
//! object without its last brace. `specs/Adding.antt` says what is added, and `specs/Written.antt` what a line is.
#![tactic(auto)]

ghost use Rattle.std.specs.Prelude.{[], ◌∷◌, IfOk, OnOk, Some};
ghost use Rattle.json.specs.Json.{string};
ghost use Rattle.json_objects.specs.Adding.{AddsSlots, EndsBody, EndsLine};
ghost use Rattle.json_objects.specs.Written.{number_value};

use json::Writer;
use std::alloc::AllocError;

/// Adds a member that is a text.
///
/// # Errors
///
/// If memory is refused.
pub fn text(writer: &mut Writer, key: &str, value: &str) -> Result<(), AllocError>
    ensures { OnOk result (AddsSlots writer.old writer.new ((key.now, (Some (string value.now))) ∷ [])) }
{
    writer.key(key)?;
    writer.string(value)
}

/// Adds a member that is a number.
///
/// # Errors
///
/// If memory is refused.
pub fn number(writer: &mut Writer, key: &str, value: u64) -> Result<(), AllocError>
    ensures { OnOk result (AddsSlots writer.old writer.new ((key.now, (Some (number_value value))) ∷ [])) }
{
    writer.key(key)?;
    writer.u64(value)
}

/// Returns what stood before, and behind it the line that was written, with its line end.
///
/// # Errors
///
/// If memory is refused.
pub fn close_line(writer: Writer) -> Result<Vec<u8>, AllocError>
    ensures { IfOk result (λ all. EndsLine writer all.items) }
{
    let mut out = writer.into_inner();
    out.push(b'\n')?;
    Ok(out)
}

/// Returns what stood before, and behind it the object that was written, without its last brace.
pub fn close_body(writer: Writer) -> Vec<u8>
    ensures { EndsBody writer result.items }
{
    let mut all = writer.into_inner();
    let _ = all.pop();
    all
}
