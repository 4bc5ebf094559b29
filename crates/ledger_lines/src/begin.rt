//! The lines that name a run and begin a file, read and written.

ghost use Rattle.std.specs.Prelude.{[], ◌∷◌, List, MatchResult, OnOk, Option, codes, IfOk, option_map};
ghost use Rattle.json.specs.Value.{items_view, value_view};
ghost use Rattle.ledger_lines.specs.declared.begin.Begin.{Begin as TheBegin};
ghost use Rattle.ledger_lines.specs.declared.lane_start.LaneStart.{LaneStart as TheStart};
ghost use Rattle.ledger_lines.specs.declared.begin.FileBefore.{FileBefore as TheFile};
ghost use Rattle.ledger_lines.specs.Lines.{AreEach, Denies, HasLanes, HasText, IsBegin, IsFileBefore, IsLaneStart, MayHaveFile};
ghost use Rattle.json.specs.Json.{array};
ghost use Rattle.json.specs.Tree.{json_tokens};
ghost use Rattle.json_objects.specs.Adding.{Adds, AddsSlots};
ghost use Rattle.json_objects.specs.Written.{HasBodyBehind, HasFrontBehind, items_of};
ghost use Rattle.ledger_lines.specs.Written.{begin_value, file_value, start_value};

use crate::faults::LineFault;
use crate::lane_start::LaneStart;
use crate::values::{
    count_at, has_only, lanes_at, number_at, push, run_at, serial_at, short_at, sum_if_any_at,
    text_at, time_at,
};
use crate::writing::{digits_if_any, first_members, number_if_any, widened};
use json::{Value, Writer};
use json_objects::{close_body, number, text};
use std::alloc::{AllocError, Global};

/// A file of another run, as the first file of a run names it.
#[derive(Clone, Copy)]
pub struct FileBefore<'a> {
    /// Its name in the folder.
    pub name: &'a str,
    /// The sum of its last whole line, if that has one.
    pub sum: Option<[u8; 32]>,
}

/// The first line of a file: it names the run.
#[derive(Drop)]
pub struct Begin<'a> {
    /// What names the run: drawn at its start.
    pub run: u64,
    /// When the file was begun: RFC 3339, in UTC, with milliseconds.
    pub time: &'a str,
    /// The version of the program.
    pub version: &'a str,
    /// How many files of the run there were before it.
    pub file: u64,
    /// The file of another run that was written last before this one began, if there was one.
    pub before: Option<FileBefore<'a>>,
    /// The run's lanes.
    pub lanes: Vec<LaneStart<'a>>,
    /// How many more lanes it named, where these were left out.
    pub hidden: Option<u32>,
}

/// The keys of the first line of a file, in the order in which they are written.
const BEGIN_KEYS: [&str; 9] = [
    "type", "run", "time", "version", "file", "before", "lanes", "hidden", "sum",
];

pub(crate) fn begin_of<'a>(alloc: Global, value: &Value<'a>) -> Result<Begin<'a>, LineFault>
    requires { HasText (codes "type") (value_view value.now) (codes "begin") }
    ensures { MatchResult result (λ begin. IsBegin (value_view value.now) begin) (λ fault. Denies fault ((begin : TheBegin) × IsBegin (value_view value.now) begin)) }
{
    if !has_only(value, &BEGIN_KEYS) {
        return Err(LineFault::NotALine);
    }
    let run = run_at(value)?;
    let time = time_at(value, "time")?;
    let version = text_at(value, "version")?;
    let file = number_at(value, "file")?;
    let before = before_at(value)?;
    let lanes = starts_at(alloc, value)?;
    let hidden = count_at(value, "hidden")?;
    Ok(Begin {
        run,
        time,
        version,
        file,
        before,
        lanes,
        hidden,
    })
}

#[tactic(auto, using(crate::proofs::Lines::file_found, crate::proofs::Lines::no_file, crate::proofs::Lines::no_file_in))]
fn before_at<'a>(value: &Value<'a>) -> Result<Option<FileBefore<'a>>, LineFault>
    ensures { MatchResult result (λ before. MayHaveFile (value_view value.now) before) (λ fault. Denies fault ((before : Option TheFile) × MayHaveFile (value_view value.now) before)) }
{
    match value.get("before") {
        Some(found) => Ok(Some(file_of(found)?)),
        None => Ok(None),
    }
}

/// The file of another run. An earlier version named it by its octets and their SHA-256, which say nothing of lines.
#[tactic(auto, using(crate::proofs::Lines::file_parts))]
fn file_of<'a>(value: &Value<'a>) -> Result<FileBefore<'a>, LineFault>
    ensures { MatchResult result (λ file. IsFileBefore (value_view value.now) file) (λ fault. Denies fault ((file : TheFile) × IsFileBefore (value_view value.now) file)) }
{
    if !has_only(value, &["name", "sum", "octets", "sha256"]) {
        return Err(LineFault::NotALine);
    }
    let name = text_at(value, "name")?;
    let sum = sum_if_any_at(value, "sum")?;
    Ok(FileBefore { name, sum })
}

#[tactic(auto, using(crate::proofs::Lists::lanes_found, crate::proofs::Lists::no_list_of_lanes, crate::proofs::Lists::no_lanes_in))]
fn starts_at<'a>(alloc: Global, value: &Value<'a>) -> Result<Vec<LaneStart<'a>>, LineFault>
    ensures { MatchResult result (λ lanes. HasLanes IsLaneStart (value_view value.now) lanes.items) (λ fault. Denies fault ((lanes : List TheStart) × HasLanes IsLaneStart (value_view value.now) lanes)) }
{
    starts_of(alloc, lanes_at(value)?)
}

fn starts_of<'a>(alloc: Global, values: &[Value<'a>]) -> Result<Vec<LaneStart<'a>>, LineFault>
    ensures { MatchResult result (λ lanes. AreEach IsLaneStart (items_view values.now) lanes.items) (λ fault. Denies fault ((lanes : List TheStart) × AreEach IsLaneStart (items_view values.now) lanes)) }
{
    let mut starts = Vec::with_capacity(alloc, values.len())?;
    for value in values {
        push(&mut starts, start_of(value)?)?;
    }
    Ok(starts)
}

#[tactic(auto, using(crate::proofs::Lines::start_parts))]
fn start_of<'a>(value: &Value<'a>) -> Result<LaneStart<'a>, LineFault>
    ensures { MatchResult result (λ start. IsLaneStart (value_view value.now) start) (λ fault. Denies fault ((start : TheStart) × IsLaneStart (value_view value.now) start)) }
{
    if !has_only(value, &["lane", "home", "serial"]) {
        return Err(LineFault::NotALine);
    }
    Ok(LaneStart {
        lane: short_at(value, "lane")?,
        home: text_at(value, "home")?,
        serial: serial_at(value, "serial")?,
    })
}

/// Writes a line that names a run, without its last brace, behind what these octets are.
///
/// # Errors
///
/// Where memory is refused.
pub fn write_begin(alloc: Global, begin: &Begin<'_>, out: Vec<u8>) -> Result<Vec<u8>, AllocError>
    ensures body { IfOk result (λ all. HasBodyBehind out.items all.items) }
    ensures value { IfOk result (λ all. HasFrontBehind out.items all.items (begin_value begin.now)) }
{
    let mut writer = Writer::new(out);
    begin_members(alloc, &mut writer, begin)?;
    Ok(close_body(writer))
}

fn begin_members(alloc: Global, writer: &mut Writer, begin: &Begin<'_>) -> Result<(), AllocError>
    ensures { OnOk result (Adds writer.old writer.new (json_tokens (begin_value begin.now))) }
{
    first_members(alloc, writer, "begin", begin.run, begin.time)?;
    text(writer, "version", begin.version)?;
    number(writer, "file", begin.file)?;
    before_if_any(alloc, writer, begin.before)?;
    writer.key("lanes")?;
    lane_starts(writer, begin.lanes.as_slice())?;
    number_if_any(writer, "hidden", widened(begin.hidden))?;
    writer.end_object()
}

fn before_if_any(
    alloc: Global,
    writer: &mut Writer,
    before: Option<FileBefore<'_>>,
) -> Result<(), AllocError>
    ensures { OnOk result (AddsSlots writer.old writer.new ((codes "before", (option_map file_value before.entry)) ∷ [])) }
{
    let Some(file) = before else {
        return Ok(());
    };
    writer.key("before")?;
    file_members(alloc, writer, &file)
}

fn file_members(alloc: Global, writer: &mut Writer, file: &FileBefore<'_>) -> Result<(), AllocError>
    ensures { OnOk result (Adds writer.old writer.new (json_tokens (file_value file.now))) }
{
    writer.begin_object()?;
    text(writer, "name", file.name)?;
    digits_if_any(alloc, writer, "sum", file.sum)?;
    writer.end_object()
}

fn lane_starts(writer: &mut Writer, lanes: &[LaneStart<'_>]) -> Result<(), AllocError>
    ensures { OnOk result (Adds writer.old writer.new (json_tokens (array (items_of start_value lanes.now)))) }
{
    writer.begin_array()?;
    for lane in lanes {
        lane_start(writer, lane)?;
    }
    writer.end_array()
}

fn lane_start(writer: &mut Writer, lane: &LaneStart<'_>) -> Result<(), AllocError>
    ensures { OnOk result (Adds writer.old writer.new (json_tokens (start_value lane.now))) }
{
    writer.begin_object()?;
    number(writer, "lane", u64::from(lane.lane))?;
    text(writer, "home", lane.home)?;
    number(writer, "serial", lane.serial)?;
    writer.end_object()
}
