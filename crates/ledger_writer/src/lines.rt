//! The lines of a ledger, made of what passed through the buffer.

ghost use Rattle.std.specs.Prelude.{◌≡◌, ◌<◌, ◌^◌, IfOk, MatchOption, None, length, option_copied, option_map, slice_get, string_bytes};
ghost use Rattle.json_objects.specs.Written.{HasBodyBehind};
ghost use Rattle.ledger_writer.specs.Entries.{HasAnswerCountBehind, HasCountBehind, HasEntryBehind, HasLeftBehind, HasNoteBehind, HasParcelBehind, HasResumedBehind, IsAboutOf, IsAnswerCountOf, IsCountOf, IsEntryOf, IsLeftOf, IsMomentIfAny, IsMomentText, IsResumedOf, Tells};
ghost use Rattle.ledger_writer.specs.RunLines.{AreCounted, AreStarts, BeginsBehind, EndsBehind, NamesIfAny, count_in, lane_number, serial_in};

use crate::parcel::{NoteKind, Parcel, ParcelHead, ParcelKind};
use crate::progress::LaneProgress;
use crate::run_names::RunNames;
use ledger_files::{FoundFile, UtcTime};
use ledger_lines::{
    Begin, CountKind, End, FileBefore, LaneCount, LaneStart, write_answer_count, write_begin,
    write_end, write_entry, write_left, write_record_count, write_resumed,
};
use ledger_rules::{AnswerCount, Entry, Left, LineRequest, RecordCount, Resumed};
use ledger_state::LedgerState;
use rad_desk::{Earlier, status_of, user_of};
use rad_lane::{LeftState, session_of};
use rad_metrics::VERSION;
use rad_packet::read;
use rad_realms::realm_of_packet;
use std::alloc::{AllocError, Global};

/// The greatest serial of a ledger.
const GREATEST_SERIAL: u64 = 9_223_372_036_854_775_807;

/// Writes the body of the line of a parcel behind what these octets are.
pub(crate) fn line_of(
    alloc: Global,
    names: &RunNames,
    parcel: &Parcel<'_>,
    out: Vec<u8>,
) -> Result<Vec<u8>, AllocError>
    ensures body { IfOk result (λ all. HasBodyBehind out.items all.items) }
    ensures value { IfOk result (λ all. HasParcelBehind names.now parcel.now out.items all.items) }
{
    match parcel.head.its {
        ParcelKind::Response { serial, .. } => entry_line(alloc, names, parcel, serial, out),
        ParcelKind::Left { state, kept, .. } => left_line(alloc, names, parcel, state, kept, out),
        ParcelKind::Count { kind, count } => {
            note_line(alloc, names, &parcel.head, kind, count, out)
        }
    }
}

fn entry_line(
    alloc: Global,
    names: &RunNames,
    parcel: &Parcel<'_>,
    serial: u64,
    out: Vec<u8>,
) -> Result<Vec<u8>, AllocError>
    ensures body { IfOk result (λ all. HasBodyBehind out.items all.items) }
    ensures value { IfOk result (λ all. HasEntryBehind names.now parcel.now serial out.items all.items) }
{
    let time = time_text(alloc, parcel.head.time)?;
    let accepted = accepted_text(alloc, parcel.head.handling.accepted)?;
    let entry = entry_of(names, *parcel, serial, time.as_str(), lent(&accepted));
    write_entry(alloc, &entry, out)
}

fn left_line(
    alloc: Global,
    names: &RunNames,
    parcel: &Parcel<'_>,
    state: LeftState,
    kept: bool,
    out: Vec<u8>,
) -> Result<Vec<u8>, AllocError>
    ensures body { IfOk result (λ all. HasBodyBehind out.items all.items) }
    ensures value { IfOk result (λ all. HasLeftBehind names.now parcel.now state kept out.items all.items) }
{
    let head = parcel.head;
    let time = time_text(alloc, head.time)?;
    let accepted = accepted_text(alloc, head.handling.accepted)?;
    let left = left_of(
        names,
        head,
        state,
        kept,
        parcel.sent,
        time.as_str(),
        lent(&accepted),
    );
    write_left(alloc, &left, out)
}

fn note_line(
    alloc: Global,
    names: &RunNames,
    head: &ParcelHead,
    kind: NoteKind,
    count: u64,
    out: Vec<u8>,
) -> Result<Vec<u8>, AllocError>
    ensures body { IfOk result (λ all. HasBodyBehind out.items all.items) }
    ensures value { IfOk result (λ all. HasNoteBehind kind names.now head.now count out.items all.items) }
{
    match kind {
        NoteKind::Count(kind) => count_line(alloc, names, head, kind, count, out),
        NoteKind::AgainEarlier(answer) => answer_line(alloc, names, head, answer, count, out),
        NoteKind::Resumed(first) => resumed_line(alloc, names, head, first, out),
    }
}

fn count_line(
    alloc: Global,
    names: &RunNames,
    head: &ParcelHead,
    kind: CountKind,
    count: u64,
    out: Vec<u8>,
) -> Result<Vec<u8>, AllocError>
    ensures body { IfOk result (λ all. HasBodyBehind out.items all.items) }
    ensures value { IfOk result (λ all. HasCountBehind names.now head.now kind count out.items all.items) }
{
    let time = time_text(alloc, head.time)?;
    let told = told_of(names, head, count, time.as_str());
    write_record_count(alloc, kind, &told, out)
}

fn told_of<'a>(names: &'a RunNames, head: &ParcelHead, count: u64, time: &'a str) -> RecordCount<'a>
    ensures { IsCountOf names.now head.now count time.now result }
{
    let lane = head.lane;
    let number = head.number;
    RecordCount {
        run: names.run,
        time,
        home: names.home(lane),
        lane,
        number,
        count,
    }
}

fn answer_line(
    alloc: Global,
    names: &RunNames,
    head: &ParcelHead,
    answer: Earlier,
    count: u64,
    out: Vec<u8>,
) -> Result<Vec<u8>, AllocError>
    ensures body { IfOk result (λ all. HasBodyBehind out.items all.items) }
    ensures value { IfOk result (λ all. HasAnswerCountBehind names.now head.now answer count out.items all.items) }
{
    let time = time_text(alloc, head.time)?;
    let told = answer_told_of(names, head, answer, count, time.as_str());
    write_answer_count(alloc, &told, out)
}

fn answer_told_of<'a>(
    names: &'a RunNames,
    head: &ParcelHead,
    answer: Earlier,
    count: u64,
    time: &'a str,
) -> AnswerCount<'a>
    ensures { IsAnswerCountOf names.now head.now answer count time.now result }
{
    let lane = head.lane;
    AnswerCount {
        run: names.run,
        time,
        home: names.home(lane),
        lane,
        answer_run: answer.run,
        answer_lane: answer.lane,
        answer_serial: answer.number,
        count,
    }
}

fn resumed_line(
    alloc: Global,
    names: &RunNames,
    head: &ParcelHead,
    first: Earlier,
    out: Vec<u8>,
) -> Result<Vec<u8>, AllocError>
    ensures body { IfOk result (λ all. HasBodyBehind out.items all.items) }
    ensures value { IfOk result (λ all. HasResumedBehind names.now head.now first out.items all.items) }
{
    let time = time_text(alloc, head.time)?;
    let told = resumed_told_of(names, head, first, time.as_str());
    write_resumed(alloc, &told, out)
}

fn resumed_told_of<'a>(
    names: &'a RunNames,
    head: &ParcelHead,
    first: Earlier,
    time: &'a str,
) -> Resumed<'a>
    ensures { IsResumedOf names.now head.now first time.now result }
{
    let lane = head.lane;
    let number = head.number;
    Resumed {
        run: names.run,
        time,
        home: names.home(lane),
        lane,
        number,
        first_run: first.run,
        first_lane: first.lane,
        first_number: first.number,
    }
}

fn lent(text: &Option<String>) -> Option<&str>
    ensures { option_copied result ≡ option_map string_bytes text.now }
{
    match text {
        Some(text) => Some(text.as_str()),
        None => None,
    }
}

/// Returns when a request was accepted, as a line has it, if it is known.
fn accepted_text(alloc: Global, time: Option<u64>) -> Result<Option<String>, AllocError>
    ensures { IfOk result (λ text. IsMomentIfAny time (option_map string_bytes text)) }
{
    match time {
        Some(time) => Ok(Some(time_text(alloc, time)?)),
        None => Ok(None),
    }
}

fn left_of<'a>(
    names: &'a RunNames,
    head: ParcelHead,
    state: LeftState,
    kept: bool,
    request: &'a [u8],
    time: &'a str,
    accepted: Option<&'a str>,
) -> Left<'a>
    ensures { IsLeftOf names.now head state kept request.now time.now (option_copied accepted.entry) result }
{
    Left {
        about: about_of(names, head, request, time),
        state,
        sendings: head.handling.sendings,
        accepted,
        request,
        kept,
    }
}

/// Returns a time in milliseconds since 1970, as a line has it.
fn time_text(alloc: Global, time: u64) -> Result<String, AllocError>
    ensures { IfOk result (λ text. IsMomentText time (string_bytes text)) }
{
    let moment = UtcTime::of(time);
    format!(in alloc; "{moment}")
}

fn entry_of<'a>(
    names: &'a RunNames,
    parcel: Parcel<'a>,
    serial: u64,
    time: &'a str,
    accepted: Option<&'a str>,
) -> Entry<'a>
    ensures { IsEntryOf names.now parcel.entry serial time.now (option_copied accepted.entry) result }
{
    Entry {
        about: about_of(names, parcel.head, parcel.sent, time),
        serial,
        sent: parcel.sent,
        reply: parcel.reply,
        response: parcel.response,
        accepted,
        sendings: parcel.head.handling.sendings,
    }
}

/// Returns the request that the line of a parcel is about, by the parcel's head and this packet, with this text for the
/// line's time.
fn about_of<'a>(
    names: &'a RunNames,
    head: ParcelHead,
    packet: &'a [u8],
    time: &'a str,
) -> LineRequest<'a>
    ensures { IsAboutOf names.now head packet.now time.now result }
{
    let told = told_in(packet);
    let client = head.client;
    let authenticator = head.authenticator;
    LineRequest {
        run: names.run,
        time,
        home: names.home(head.lane),
        lane: head.lane,
        number: head.number,
        client,
        port: head.port,
        identifier: head.identifier,
        authenticator,
        realm: told.realm,
        session: told.session,
        status: told.status,
        user: told.user,
    }
}

/// What a request tells besides its head.
#[derive(Clone, Copy)]
struct Told<'a> {
    realm: Option<&'a [u8]>,
    session: Option<&'a [u8]>,
    status: Option<u32>,
    user: Option<&'a [u8]>,
}

/// Returns what the packet of these octets tells, or nothing if they are no packet.
fn told_in(request: &[u8]) -> Told<'_>
    ensures { Tells request.now (option_copied result.realm) (option_copied result.session) result.status (option_copied result.user) }
{
    match read(request) {
        Ok(packet) => Told {
            realm: realm_of_packet(&packet),
            session: session_of(&packet),
            status: status_of(&packet),
            user: user_of(&packet),
        },
        Err(_) => Told {
            realm: None,
            session: None,
            status: None,
            user: None,
        },
    }
}

/// What the line that begins a file says besides its run and its lanes.
#[derive(Clone, Copy)]
pub(crate) struct FileStart<'a> {
    /// The number of the file.
    pub(crate) file: u64,
    /// The file of another run that was written last, if there is one and this is the first file.
    pub(crate) before: Option<&'a FoundFile>,
    /// Whether the file before it in the run is gone, with its entries.
    pub(crate) is_gone: bool,
}

/// Writes the body of the line that begins a file behind what these octets are. It tells the serial of the next entry of each lane, by the
/// progress of the lanes.
pub(crate) fn begin_line(
    alloc: Global,
    names: &RunNames,
    time: u64,
    start: FileStart<'_>,
    progress: &[LaneProgress],
    out: Vec<u8>,
) -> Result<Vec<u8>, AllocError>
    ensures body { IfOk result (λ all. HasBodyBehind out.items all.items) }
    ensures begin { IfOk result (λ all. BeginsBehind names.now start.entry progress.now out.items all.items) }
{
    let time = time_text(alloc, time)?;
    let lanes = lane_starts(alloc, names, start.is_gone, progress)?;
    let begin = begin_of(names, time.as_str(), start, lanes);
    write_begin(alloc, &begin, out)
}

fn begin_of<'a>(
    names: &RunNames,
    time: &'a str,
    start: FileStart<'a>,
    lanes: Vec<LaneStart<'a>>,
) -> Begin<'a>
    ensures run { result.run ≡ names.now.run }
    ensures file { result.file ≡ start.entry.file }
    ensures whole { result.hidden ≡ None }
    ensures before { NamesIfAny (option_copied start.entry.before) result.before }
    ensures lanes { result.lanes.items ≡ lanes.entry.items }
{
    Begin {
        run: names.run,
        time,
        version: VERSION,
        file: start.file,
        before: file_before(start.before),
        lanes,
        hidden: None,
    }
}

fn file_before(found: Option<&FoundFile>) -> Option<FileBefore<'_>>
    ensures { NamesIfAny (option_copied found.entry) result }
{
    let found = found?;
    let sum = found.sum;
    Some(FileBefore {
        name: found.name.as_str(),
        sum,
    })
}

/// Returns the run's lanes, each with the serial of its next entry.
fn lane_starts<'a>(
    alloc: Global,
    names: &'a RunNames,
    is_gone: bool,
    progress: &[LaneProgress],
) -> Result<Vec<LaneStart<'a>>, AllocError>
    ensures { IfOk result (λ lanes. AreStarts names.now.homes.items is_gone progress.now lanes.items) }
{
    let mut lanes = Vec::with_capacity(alloc, names.homes.len())?;
    for lane in 0..names.homes.len() {
        let serial = serial_at(progress, is_gone, lane);
        lanes.push(LaneStart {
            lane: number_of(lane),
            home: names.homes[lane].as_str(),
            serial,
        })?;
    }
    Ok(lanes)
}

/// Returns the run's lanes, each with how many responses of it were handed over, and, once that was told, how many requests it
/// accepted and how many of them are left.
fn lane_counts(
    alloc: Global,
    names: &RunNames,
    state: &LedgerState,
) -> Result<Vec<LaneCount>, AllocError>
    ensures { IfOk result (λ lanes. AreCounted (length names.now.homes.items) lanes.items) }
{
    let mut lanes = Vec::with_capacity(alloc, names.homes.len())?;
    for lane in 0..names.homes.len() {
        let end = state.ended_lane(lane);
        lanes.push(count_of(lane, state.handed(lane), end))?;
    }
    Ok(lanes)
}

/// Returns a lane, with how many responses of it were handed over, and, once that was told, how many requests it accepted and
/// how many of them are left.
fn count_of(lane: usize, entries: u64, end: Option<(u64, u64)>) -> LaneCount
    ensures { result ≡ count_in lane entries end }
{
    let (accepted, left) = match end {
        Some((accepted, left)) => (Some(accepted), Some(left)),
        None => (None, None),
    };
    LaneCount {
        lane: number_of(lane),
        entries,
        accepted,
        left,
    }
}

fn number_of(lane: usize) -> u16
    ensures { result ≡ lane_number lane }
{
    u16::try_from(lane).unwrap_or(u16::MAX)
}

/// Returns the serial of a lane's next entry.
fn serial_at(progress: &[LaneProgress], is_gone: bool, lane: usize) -> u64
    ensures bounded { result < 2 ^ 63 }
    ensures value { result ≡ serial_in is_gone (slice_get progress.now lane) }
{
    match progress.get(lane) {
        Some(lane) => lane.start(is_gone).min(GREATEST_SERIAL),
        None => 0,
    }
}

/// Writes the body of the line that ends the run behind what these octets are.
pub(crate) fn end_line(
    alloc: Global,
    names: &RunNames,
    time: u64,
    state: &LedgerState,
    out: Vec<u8>,
) -> Result<Vec<u8>, AllocError>
    ensures body { IfOk result (λ all. HasBodyBehind out.items all.items) }
    ensures end { IfOk result (λ all. EndsBehind names.now out.items all.items) }
{
    let time = time_text(alloc, time)?;
    let lanes = lane_counts(alloc, names, state)?;
    let end = End {
        run: names.run,
        time: time.as_str(),
        lanes,
        hidden: None,
    };
    write_end(alloc, &end, out)
}
