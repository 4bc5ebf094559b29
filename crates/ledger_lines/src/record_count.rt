//! The lines that count what became of responses, read and written.

ghost use Rattle.std.specs.Prelude.{◌≡◌, ℕ, IfOk, MatchResult, OnOk, codes};
ghost use Rattle.json.specs.Tree.{json_tokens};
ghost use Rattle.json.specs.Value.{value_view};
ghost use Rattle.json_objects.specs.Adding.{Adds};
ghost use Rattle.json_objects.specs.Written.{HasBodyBehind, HasFrontBehind};
ghost use Rattle.ledger_rules.specs.declared.record_count.AnswerCount.{AnswerCount as TheAnswerCount};
ghost use Rattle.ledger_rules.specs.declared.record_count.RecordCount.{RecordCount as TheCount};
ghost use Rattle.ledger_lines.specs.Lines.{Denies, HasSome, HasText, IsAnswerCount, IsRecordCount, Lacks};
ghost use Rattle.ledger_lines.specs.Written.{answer_count_value, kind_name, record_count_value};

use crate::faults::LineFault;
use crate::values::{has_only, name_at, number_at, run_at, serial_at, short_at, text_at, time_at};
use crate::writing::{digits, first_members};
use json::{Value, Writer};
use json_objects::{close_body, number, text};
use ledger_rules::{AnswerCount, RecordCount};
use std::alloc::{AllocError, Global};

/// What a line counts of the response of a record.
#[derive(Clone, Copy, PartialEq, Eq, PartialOrd, Ord)]
pub enum CountKind {
    /// That it could not be sent.
    Unsent,
    /// That it was sent again.
    Again,
}

/// The keys of such a line, in the order in which they are written.
const COUNT_KEYS: [&str; 8] = [
    "type", "run", "time", "home", "lane", "record", "count", "sum",
];

/// The keys of a line that counts how often the response of an earlier run was sent again, in that order.
const ANSWER_KEYS: [&str; 10] = [
    "type",
    "run",
    "time",
    "home",
    "lane",
    "answer_run",
    "answer_lane",
    "answer_serial",
    "count",
    "sum",
];

#[tactic(auto, using(crate::proofs::Lines::record_count_parts))]
pub(crate) fn record_count_of<'a>(
    value: &Value<'a>,
    kind: &str,
) -> Result<RecordCount<'a>, LineFault>
    requires { HasText (codes "type") (value_view value.now) kind.now }
    ensures { MatchResult result (λ count. IsRecordCount kind.now (value_view value.now) count) (λ fault. Denies fault ((count : TheCount) × IsRecordCount kind.now (value_view value.now) count)) }
{
    if !has_only(value, &COUNT_KEYS) {
        return Err(LineFault::NotALine);
    }
    let run = run_at(value)?;
    let time = time_at(value, "time")?;
    let home = text_at(value, "home")?;
    let lane = short_at(value, "lane")?;
    let number = number_at(value, "record")?;
    let count = some_at(value)?;
    Ok(RecordCount {
        run,
        time,
        home,
        lane,
        number,
        count,
    })
}

pub(crate) fn answer_count_of<'a>(value: &Value<'a>) -> Result<AnswerCount<'a>, LineFault>
    requires again { HasText (codes "type") (value_view value.now) (codes "again") }
    requires no_record { Lacks (codes "record") (value_view value.now) }
    ensures { MatchResult result (λ count. IsAnswerCount (value_view value.now) count) (λ fault. Denies fault ((count : TheAnswerCount) × IsAnswerCount (value_view value.now) count)) }
{
    if !has_only(value, &ANSWER_KEYS) {
        return Err(LineFault::NotALine);
    }
    let run = run_at(value)?;
    let time = time_at(value, "time")?;
    let home = text_at(value, "home")?;
    let lane = short_at(value, "lane")?;
    let answer_run = name_at(value, "answer_run")?;
    let answer_lane = short_at(value, "answer_lane")?;
    let answer_serial = serial_at(value, "answer_serial")?;
    let count = some_at(value)?;
    Ok(AnswerCount {
        run,
        time,
        home,
        lane,
        answer_run,
        answer_lane,
        answer_serial,
        count,
    })
}

/// How often: at least once.
#[tactic(auto, using(crate::proofs::Few::no_count_there, crate::proofs::Few::no_some))]
fn some_at(value: &Value<'_>) -> Result<u64, LineFault>
    ensures { MatchResult result (λ its. HasSome (value_view value.now) its) (λ fault. Denies fault ((its : ℕ) × HasSome (value_view value.now) its)) }
{
    let count = number_at(value, "count")?;
    if count == 0 {
        return Err(LineFault::NotALine);
    }
    Ok(count)
}

/// Writes such a line, without its last brace, behind what these octets are.
///
/// # Errors
///
/// Where memory is refused.
pub fn write_record_count(
    alloc: Global,
    kind: CountKind,
    count: &RecordCount<'_>,
    out: Vec<u8>,
) -> Result<Vec<u8>, AllocError>
    ensures body { IfOk result (λ all. HasBodyBehind out.items all.items) }
    ensures value { IfOk result (λ all. HasFrontBehind out.items all.items (record_count_value kind count.now)) }
{
    let mut writer = Writer::new(out);
    count_members(alloc, &mut writer, kind, count)?;
    Ok(close_body(writer))
}

fn count_members(
    alloc: Global,
    writer: &mut Writer,
    kind: CountKind,
    count: &RecordCount<'_>,
) -> Result<(), AllocError>
    ensures { OnOk result (Adds writer.old writer.new (json_tokens (record_count_value kind count.now))) }
{
    first_members(alloc, writer, name_of(kind), count.run, count.time)?;
    text(writer, "home", count.home)?;
    number(writer, "lane", u64::from(count.lane))?;
    number(writer, "record", count.number)?;
    number(writer, "count", count.count)?;
    writer.end_object()
}

fn name_of(kind: CountKind) -> &'static str
    ensures { result.now ≡ kind_name kind }
{
    match kind {
        CountKind::Unsent => "unsent",
        CountKind::Again => "again",
    }
}

/// Writes a line that counts how often the response of an earlier run was sent again, without its last brace, behind what
/// these octets are.
///
/// # Errors
///
/// Where memory is refused.
pub fn write_answer_count(
    alloc: Global,
    count: &AnswerCount<'_>,
    out: Vec<u8>,
) -> Result<Vec<u8>, AllocError>
    ensures body { IfOk result (λ all. HasBodyBehind out.items all.items) }
    ensures value { IfOk result (λ all. HasFrontBehind out.items all.items (answer_count_value count.now)) }
{
    let mut writer = Writer::new(out);
    answer_members(alloc, &mut writer, count)?;
    Ok(close_body(writer))
}

fn answer_members(
    alloc: Global,
    writer: &mut Writer,
    count: &AnswerCount<'_>,
) -> Result<(), AllocError>
    ensures { OnOk result (Adds writer.old writer.new (json_tokens (answer_count_value count.now))) }
{
    first_members(alloc, writer, "again", count.run, count.time)?;
    text(writer, "home", count.home)?;
    number(writer, "lane", u64::from(count.lane))?;
    digits(alloc, writer, "answer_run", &count.answer_run.to_be_bytes())?;
    number(writer, "answer_lane", u64::from(count.answer_lane))?;
    number(writer, "answer_serial", count.answer_serial)?;
    number(writer, "count", count.count)?;
    writer.end_object()
}
