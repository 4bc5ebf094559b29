//! The lines of requests that lanes took over from earlier runs, read and written.

ghost use Rattle.std.specs.Prelude.{◌≡◌, MatchResult, OnOk, codes, IfOk};
ghost use Rattle.json.specs.Tree.{json_tokens};
ghost use Rattle.json.specs.Value.{value_view};
ghost use Rattle.json_objects.specs.Adding.{Adds};
ghost use Rattle.json_objects.specs.Written.{HasBodyBehind, HasFrontBehind};
ghost use Rattle.ledger_rules.specs.declared.resumed.Resumed.{Resumed as TheResumed};
ghost use Rattle.ledger_lines.specs.Lines.{Denies, HasText, IsResumed};
ghost use Rattle.ledger_lines.specs.Written.{resumed_value};

use crate::faults::LineFault;
use crate::values::{has_only, name_at, number_at, run_at, short_at, text_at, time_at};
use crate::writing::{digits, first_members};
use json::{Value, Writer};
use json_objects::{close_body, number, text};
use ledger_rules::Resumed;
use std::alloc::{AllocError, Global};

/// The keys of such a line, in the order in which they are written.
const RESUMED_KEYS: [&str; 10] = [
    "type",
    "run",
    "time",
    "home",
    "lane",
    "record",
    "first_run",
    "first_lane",
    "first_record",
    "sum",
];

pub(crate) fn resumed_of<'a>(value: &Value<'a>) -> Result<Resumed<'a>, LineFault>
    requires { HasText (codes "type") (value_view value.now) (codes "resumed") }
    ensures { MatchResult result (λ its. IsResumed (value_view value.now) its) (λ fault. Denies fault ((its : TheResumed) × IsResumed (value_view value.now) its)) }
{
    if !has_only(value, &RESUMED_KEYS) {
        return Err(LineFault::NotALine);
    }
    let run = run_at(value)?;
    let time = time_at(value, "time")?;
    let home = text_at(value, "home")?;
    let lane = short_at(value, "lane")?;
    let number = number_at(value, "record")?;
    let first_run = name_at(value, "first_run")?;
    let first_lane = short_at(value, "first_lane")?;
    let first_number = number_at(value, "first_record")?;
    Ok(Resumed {
        run,
        time,
        home,
        lane,
        number,
        first_run,
        first_lane,
        first_number,
    })
}

/// Writes a request that a lane took over, without its last brace, behind what these octets are.
///
/// # Errors
///
/// Where memory is refused.
pub fn write_resumed(
    alloc: Global,
    resumed: &Resumed<'_>,
    out: Vec<u8>,
) -> Result<Vec<u8>, AllocError>
    ensures body { IfOk result (λ all. HasBodyBehind out.items all.items) }
    ensures value { IfOk result (λ all. HasFrontBehind out.items all.items (resumed_value resumed.now)) }
{
    let mut writer = Writer::new(out);
    resumed_members(alloc, &mut writer, resumed)?;
    Ok(close_body(writer))
}

fn resumed_members(
    alloc: Global,
    writer: &mut Writer,
    resumed: &Resumed<'_>,
) -> Result<(), AllocError>
    ensures { OnOk result (Adds writer.old writer.new (json_tokens (resumed_value resumed.now))) }
{
    first_members(alloc, writer, "resumed", resumed.run, resumed.time)?;
    text(writer, "home", resumed.home)?;
    number(writer, "lane", u64::from(resumed.lane))?;
    number(writer, "record", resumed.number)?;
    digits(alloc, writer, "first_run", &resumed.first_run.to_be_bytes())?;
    number(writer, "first_lane", u64::from(resumed.first_lane))?;
    number(writer, "first_record", resumed.first_number)?;
    writer.end_object()
}
