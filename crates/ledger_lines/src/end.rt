//! The lines that end a run, read and written.

ghost use Rattle.std.specs.Prelude.{List, MatchResult, OnOk, codes, IfOk};
ghost use Rattle.json.specs.Value.{items_view, value_view};
ghost use Rattle.ledger_lines.specs.Lines.{AreEach, Denies, HasLanes, HasText, IsEnd, IsLaneCount};
ghost use Rattle.json.specs.Json.{array};
ghost use Rattle.json.specs.Tree.{json_tokens};
ghost use Rattle.json_objects.specs.Adding.{Adds};
ghost use Rattle.json_objects.specs.Written.{HasBodyBehind, HasFrontBehind, items_of};
ghost use Rattle.ledger_lines.specs.Written.{count_value, end_value};
ghost use Rattle.ledger_lines.specs.declared.end.End.{End as TheEnd};
ghost use Rattle.ledger_lines.specs.declared.end.LaneCount.{LaneCount as TheCount};

use crate::faults::LineFault;
use crate::values::{
    amount_at, count_at, has_only, lanes_at, number_at, push, run_at, short_at, time_at,
};
use crate::writing::{first_members, number_if_any, widened};
use json::{Value, Writer};
use json_objects::{close_body, number};
use std::alloc::{AllocError, Global};

/// A lane, as the end line counts it.
#[derive(Clone, Copy, Debug, PartialEq, Eq)]
pub struct LaneCount {
    /// Its number.
    pub lane: u16,
    /// How many responses of it the front took in the run.
    pub entries: u64,
    /// How many requests it accepted in the run. It is there exactly where `left` is.
    pub accepted: Option<u64>,
    /// How many of these were left when the run ended.
    pub left: Option<u64>,
}

/// The last line of a run that ended by itself.
#[derive(Drop)]
pub struct End<'a> {
    /// What names the run.
    pub run: u64,
    /// When it ended: RFC 3339, in UTC, with milliseconds.
    pub time: &'a str,
    /// What was counted of its lanes.
    pub lanes: Vec<LaneCount>,
    /// How many more lanes it counted, where these were left out.
    pub hidden: Option<u32>,
}

#[tactic(auto, using(crate::proofs::Lines::end_parts))]
pub(crate) fn end_of<'a>(alloc: Global, value: &Value<'a>) -> Result<End<'a>, LineFault>
    requires { HasText (codes "type") (value_view value.now) (codes "end") }
    ensures { MatchResult result (λ end. IsEnd (value_view value.now) end) (λ fault. Denies fault ((end : TheEnd) × IsEnd (value_view value.now) end)) }
{
    if !has_only(value, &["type", "run", "time", "lanes", "hidden", "sum"]) {
        return Err(LineFault::NotALine);
    }
    let run = run_at(value)?;
    let time = time_at(value, "time")?;
    let lanes = counts_at(alloc, value)?;
    let hidden = count_at(value, "hidden")?;
    Ok(End {
        run,
        time,
        lanes,
        hidden,
    })
}

#[tactic(auto, using(crate::proofs::Lists::lanes_found, crate::proofs::Lists::no_list_of_lanes, crate::proofs::Lists::no_lanes_in))]
fn counts_at(alloc: Global, value: &Value<'_>) -> Result<Vec<LaneCount>, LineFault>
    ensures { MatchResult result (λ lanes. HasLanes IsLaneCount (value_view value.now) lanes.items) (λ fault. Denies fault ((lanes : List TheCount) × HasLanes IsLaneCount (value_view value.now) lanes)) }
{
    counts_of(alloc, lanes_at(value)?)
}

fn counts_of(alloc: Global, values: &[Value<'_>]) -> Result<Vec<LaneCount>, LineFault>
    ensures { MatchResult result (λ lanes. AreEach IsLaneCount (items_view values.now) lanes.items) (λ fault. Denies fault ((lanes : List TheCount) × AreEach IsLaneCount (items_view values.now) lanes)) }
{
    let mut counts = Vec::with_capacity(alloc, values.len())?;
    for value in values {
        push(&mut counts, count_of(value)?)?;
    }
    Ok(counts)
}

#[tactic(auto, using(crate::proofs::Lines::count_parts))]
fn count_of(value: &Value<'_>) -> Result<LaneCount, LineFault>
    ensures { MatchResult result (λ count. IsLaneCount (value_view value.now) count) (λ fault. Denies fault ((count : TheCount) × IsLaneCount (value_view value.now) count)) }
{
    if !has_only(value, &["lane", "entries", "accepted", "left"]) {
        return Err(LineFault::NotALine);
    }
    let lane = short_at(value, "lane")?;
    let entries = number_at(value, "entries")?;
    let accepted = amount_at(value, "accepted")?;
    let left = amount_at(value, "left")?;
    if accepted.is_some() != left.is_some() {
        return Err(LineFault::NotALine);
    }
    Ok(LaneCount {
        lane,
        entries,
        accepted,
        left,
    })
}

/// Writes a line that ends a run, without its last brace, behind what these octets are.
///
/// # Errors
///
/// Where memory is refused.
pub fn write_end(alloc: Global, end: &End<'_>, out: Vec<u8>) -> Result<Vec<u8>, AllocError>
    ensures body { IfOk result (λ all. HasBodyBehind out.items all.items) }
    ensures value { IfOk result (λ all. HasFrontBehind out.items all.items (end_value end.now)) }
{
    let mut writer = Writer::new(out);
    end_members(alloc, &mut writer, end)?;
    Ok(close_body(writer))
}

fn end_members(alloc: Global, writer: &mut Writer, end: &End<'_>) -> Result<(), AllocError>
    ensures { OnOk result (Adds writer.old writer.new (json_tokens (end_value end.now))) }
{
    first_members(alloc, writer, "end", end.run, end.time)?;
    writer.key("lanes")?;
    lane_counts(writer, end.lanes.as_slice())?;
    number_if_any(writer, "hidden", widened(end.hidden))?;
    writer.end_object()
}

fn lane_counts(writer: &mut Writer, lanes: &[LaneCount]) -> Result<(), AllocError>
    ensures { OnOk result (Adds writer.old writer.new (json_tokens (array (items_of count_value lanes.now)))) }
{
    writer.begin_array()?;
    for lane in lanes {
        lane_count(writer, lane)?;
    }
    writer.end_array()
}

fn lane_count(writer: &mut Writer, lane: &LaneCount) -> Result<(), AllocError>
    ensures { OnOk result (Adds writer.old writer.new (json_tokens (count_value lane.now))) }
{
    writer.begin_object()?;
    number(writer, "lane", u64::from(lane.lane))?;
    number(writer, "entries", lane.entries)?;
    number_if_any(writer, "accepted", lane.accepted)?;
    number_if_any(writer, "left", lane.left)?;
    writer.end_object()
}
