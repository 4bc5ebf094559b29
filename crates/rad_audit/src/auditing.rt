//! The audit of files.

ghost use Rattle.std.specs.Prelude.{◌≡◌, ◌↔◌, [], ◌∷◌, All, flat_map, IfErr, IfOk, OnOk, IsTrue, MatchOption};
ghost use Rattle.std.specs.BTreeMap.{get};
ghost use Rattle.std.specs.Ordering.{nat_cmp};
ghost use Rattle.rad_config.specs.Configuration.{Configuration};
ghost use Rattle.rad_audit.specs.Blocks.{IsJudgedPart, IsWhole, lines_of, octets_in};
ghost use Rattle.rad_audit.specs.Judging.{IsFound, IsJudged, IsJudgedLine};
ghost use Rattle.rad_audit.specs.Lanes.{AreTaken, EndWith, Follow, StandAlike, TakesOctets, content_of, contents_of};
ghost use Rattle.rad_audit.specs.Lines.{IsFront};
ghost use Rattle.rad_audit.specs.Statuses.{IsStatus};
ghost use Rattle.rad_audit.specs.Telling.{Gets, TellsLane, TellsLanes, TellsRun, TellsRuns};
ghost use Rattle.rad_audit.specs.declared.faults.Fault.TheVariants.{Output};
ghost use Rattle.rad_audit.specs.declared.judging.Content.TheVariants as content;

use crate::blocks::{Block, FileLine, Found, Part};
use crate::chains::LineSum;
use crate::faults::Fault;
use crate::hints::Hints;
use crate::judging::{Content, JudgedEntry, JudgedLine, secret_of_client};
use crate::kept_sums::KeptSums;
use crate::lanes::Lane;
use crate::named_file::{NamedFile, parts_of};
use crate::printing::{
    Asked, Finding, Findings, LaneCounts, LaneName, LinePlace, NO_FINDINGS, Outputs, Report,
};
use crate::runs::{Run, Runs};
use crate::taking::TakenEntry;
use crate::ties::{Tie, Ties};
use ledger_lines::{Begin, End, FileBefore, Hidden, LaneCount, MOST_LINE_OCTETS};
use ledger_rules::{AnswerCount, Entry, Gap, Left, Reason, RecordCount, Resumed};
use libc::{STDERR_FILENO, isatty};
use rad_realms::Config;
use std::alloc::{AllocError, Global};
use std::fs;
use std::io::{BufRead, BufReader, Write};
use std::rt::Runtime;
use std::thread::Threads;

/// How many octets of a file are read at once.
const READ_OCTETS: usize = 262_144;

/// After so many lines of a file standard error tells how far the audit is, where that is a terminal.
const LINES_APART: u64 = 65_536;

/// Audits the ledgers in these files, in this order, and prints what it finds, also of sums that somebody kept. Returns the
/// status.
///
/// # Errors
///
/// `File` if a file can't be read, `Output` if nothing more can be printed, `Memory` if a growth is refused.
pub fn audit_files<R: Runtime + Threads + Sync, W: Write>(
    rt: &R,
    alloc: Global,
    config: &Config,
    asked: Asked,
    files: &[&str],
    sums: KeptSums<'_>,
    outputs: Outputs<'_, W>,
) -> Result<u8, Fault>
where
    R::File: Drop,
    ensures { IfOk result IsStatus }
{
    let report = Report {
        outputs,
        asked,
        findings: Findings {
            nothing: true,
            ..NO_FINDINGS
        },
    };
    Audit::new(rt, alloc, config, sums, report)?.read_files(rt, files)
}

/// A line that is no line of a ledger, kept until the next one shows whether it was cut short.
#[derive(Drop)]
struct Held {
    octets: Vec<u8>,
    /// Its number in the file, if there is such a line.
    line: Option<u64>,
}

/// An audit of files.
#[derive(Drop)]
struct Audit<'a, W> {
    alloc: Global,
    config: &'a Config,
    block: Block,
    taken: Taken<'a, W>,
}

/// What an audit keeps from line to line.
#[derive(Drop)]
struct Taken<'a, W> {
    alloc: Global,
    config: &'a Config,
    /// Whether standard error is a terminal.
    is_watched: bool,
    held: Held,
    hints: Hints,
    known: Known<'a>,
    report: Report<'a, W>,
}

/// What is known of the runs, and the sums that are looked for.
#[derive(Drop)]
struct Known<'a> {
    runs: Runs,
    sums: KeptSums<'a>,
    ties: Ties,
    /// The run of the last `begin` line of the file that is read.
    begun: Option<u64>,
}

impl Known<'_> {
    /// Takes the sum of a line of a run in this file.
    fn see(&mut self, run: u64, file: u64, sum: [u8; 32])
        ensures { self.new.runs ≡ self.old.runs }
    {
        self.sums.see(run, file, sum);
        self.ties.see(run, sum);
    }

    /// Looks for the line of another run that a first line names by its sum, if it does: it may have been read, or is read later.
    fn expect(&mut self, before: Option<FileBefore<'_>>) -> Result<(), AllocError>
        ensures { self.new.runs ≡ self.old.runs }
    {
        let Some(
            FileBefore {
                name,
                sum: Some(sum),
            },
        ) = before
        else {
            return Ok(());
        };
        let Some(parts) = parts_of(name) else {
            return Ok(());
        };
        if self.ties.has(parts.run, sum) {
            return Ok(());
        }
        let is_found = match self.runs.of(parts.run) {
            Some(run) => run.chain.last() == Some(sum),
            None => false,
        };
        self.ties.add(Tie {
            run: parts.run,
            sum,
            is_found,
        })
    }
}

impl<'a, W: Write> Audit<'a, W> {
    fn new<R: Threads>(
        rt: &R,
        alloc: Global,
        config: &'a Config,
        sums: KeptSums<'a>,
        report: Report<'a, W>,
    ) -> Result<Audit<'a, W>, AllocError> {
        let octets = Vec::with_capacity(alloc, MOST_LINE_OCTETS)?;
        Ok(Audit {
            alloc,
            config,
            block: Block::new(rt, alloc),
            taken: Taken {
                alloc,
                config,
                is_watched: false,
                held: Held { octets, line: None },
                hints: Hints::new(),
                known: Known {
                    runs: Runs::new(alloc),
                    sums,
                    ties: Ties::new(alloc),
                    begun: None,
                },
                report,
            },
        })
    }

    /// Reads the files, prints what each lane of each run has, and returns the status.
    fn read_files<R: Runtime + Threads + Sync>(
        &mut self,
        rt: &R,
        files: &[&str],
    ) -> Result<u8, Fault>
    where
        R::File: Drop,
        ensures { IfOk result IsStatus }
    {
        let is_watched = isatty(STDERR_FILENO) == 1;
        self.look_ahead(rt, files)?;
        self.taken.is_watched = is_watched;
        let read = self.open_each(rt, files);
        if is_watched {
            clear_place(rt);
        }
        read?;
        self.taken.tell_hints(rt);
        self.taken.end()
    }

    /// Reads the first line of each file that can be read twice, for the line of another run that it names.
    fn look_ahead<R: Runtime + Threads + Sync>(
        &mut self,
        rt: &R,
        files: &[&str],
    ) -> Result<(), Fault>
    where
        R::File: Drop,
    {
        for path in files {
            if fs::metadata(rt, path).is_ok_and(|found| found.is_file()) {
                self.look_into(rt, path)?;
            }
        }
        Ok(())
    }

    fn look_into<R: Runtime + Threads + Sync>(&mut self, rt: &R, path: &str) -> Result<(), Fault>
    where
        R::File: Drop,
    {
        let Ok(file) = fs::open(rt, path) else {
            return Ok(());
        };
        let Ok(mut reader) = BufReader::with_capacity(self.alloc, READ_OCTETS, file) else {
            return Err(Fault::Memory);
        };
        if self.block.read_first(&mut reader).is_err() {
            return Ok(());
        }
        let Audit {
            block,
            config,
            taken,
            ..
        } = self;
        let parts = block.judge(rt, config)?;
        for part in parts.iter() {
            taken.look_at(part)?;
        }
        Ok(())
    }

    fn open_each<R: Runtime + Threads + Sync>(
        &mut self,
        rt: &R,
        files: &[&str],
    ) -> Result<(), Fault>
    where
        R::File: Drop,
    {
        for path in files {
            self.open(rt, path)?;
        }
        Ok(())
    }

    fn open<R: Runtime + Threads + Sync>(&mut self, rt: &R, path: &str) -> Result<(), Fault>
    where
        R::File: Drop,
    {
        let file = match fs::open(rt, path) {
            Ok(file) => file,
            Err(error) => return Err(Fault::of_file(self.alloc, path, &error)),
        };
        let Ok(mut reader) = BufReader::with_capacity(self.alloc, READ_OCTETS, file) else {
            return Err(Fault::Memory);
        };
        self.read_file(rt, path, &mut reader)
    }

    fn read_file<H: Runtime + Threads + Sync, R: BufRead>(
        &mut self,
        rt: &H,
        file: &str,
        reader: &mut R,
    ) -> Result<(), Fault> {
        self.taken.known.begun = None;
        let mut next = LinePlace { file, line: 1 };
        for _ in 0..u64::MAX {
            let read = self.block.read(reader);
            next.line = self.take_block(rt, next)?;
            match read {
                Ok(true) => {}
                Ok(false) => break,
                Err(error) => return Err(Fault::of_file(self.alloc, file, &error)),
            }
        }
        self.taken.settle(file, &[])
    }

    /// Takes the lines that were read, of which the first one stands here. Returns the number of the next one.
    fn take_block<R: Runtime + Threads + Sync>(
        &mut self,
        rt: &R,
        place: LinePlace<'_>,
    ) -> Result<u64, Fault>
        ensures config { self.new.taken.config ≡ self.old.taken.config }
        ensures taken { OnOk result (TakesOctets self.old.taken.config.now (octets_in self.old.block) self.old.taken.known.runs self.new.taken.known.runs) }
    {
        let Audit {
            block,
            config,
            taken,
            ..
        } = self;
        let parts = block.judge(rt, config)?;
        taken.take_parts(rt, place, parts.as_slice())
    }
}

impl<'a, W: Write> Taken<'a, W> {
    /// Looks at the first line of a file, for the line of another run that it names.
    fn look_at(&mut self, part: &Part<'_>) -> Result<(), Fault> {
        let Part::Lines(lines) = part else {
            return Err(Fault::Memory);
        };
        for line in lines {
            if let Found::Line(
                JudgedLine {
                    content: Content::Begin(begin),
                    ..
                },
            ) = &line.found
            {
                self.known.expect(begin.before)?;
            }
        }
        Ok(())
    }

    /// Takes the lines of parts, of which the first one stands here. Returns the number of the next one.
    fn take_parts<R: Runtime>(
        &mut self,
        rt: &R,
        place: LinePlace<'_>,
        parts: &[Part<'_>],
    ) -> Result<u64, Fault>
        requires { All IsJudgedPart parts.now }
        ensures config { self.new.config ≡ self.old.config }
        ensures whole { OnOk result (All IsWhole parts.now) }
        ensures taken { OnOk result (AreTaken self.old.config.now (contents_of (flat_map lines_of parts.now)) self.old.known.runs self.new.known.runs) }
    {
        let mut next = place;
        for part in parts {
            next.line = self.take_part(rt, next, part)?;
        }
        Ok(next.line)
    }

    /// Takes the lines of a part, of which the first one stands here. Returns the number of the next one.
    fn take_part<R: Runtime>(
        &mut self,
        rt: &R,
        place: LinePlace<'_>,
        part: &Part<'_>,
    ) -> Result<u64, Fault>
        requires { IsJudgedPart part.now }
        ensures config { self.new.config ≡ self.old.config }
        ensures whole { OnOk result (IsWhole part.now) }
        ensures taken { OnOk result (AreTaken self.old.config.now (contents_of (lines_of part.now)) self.old.known.runs self.new.known.runs) }
    {
        let Part::Lines(lines) = part else {
            return Err(Fault::Memory);
        };
        let mut next = place;
        for line in lines.iter() {
            if self.is_watched && next.line.is_multiple_of(LINES_APART) {
                tell_place(rt, next);
            }
            self.take_line(next, line)?;
            next.line = next.line.saturating_add(1);
        }
        Ok(next.line)
    }

    fn take_line(&mut self, place: LinePlace<'_>, line: &FileLine<'_>) -> Result<(), Fault>
        requires { IsFound line.now.octets.now line.now.found }
        ensures config { self.new.config ≡ self.old.config }
        ensures taken { OnOk result (AreTaken self.old.config.now (content_of line.now.found) self.old.known.runs self.new.known.runs) }
    {
        self.settle(place.file, line.octets)?;
        self.hints.see(place.line, line.octets);
        match &line.found {
            Found::Line(judged) => self.take(place, judged),
            Found::NoLine => self.hold(place.line, line.octets),
            Found::TooLong => self.report.tell(Finding::Wrong(place, Reason::NotEntry)),
            Found::Unended => self.report.tell(Finding::Torn(place)),
        }
    }

    /// Tells of the line before, if it was no line of a ledger. The line behind it has these octets.
    fn settle(&mut self, file: &str, octets: &[u8]) -> Result<(), Fault>
        ensures config { self.new.config ≡ self.old.config }
        ensures runs { self.new.known.runs ≡ self.old.known.runs }
    {
        let Some(line) = self.held.line else {
            return Ok(());
        };
        self.held.line = None;
        let place = LinePlace { file, line };
        if is_front(self.held.octets.as_slice(), octets) {
            self.report.tell(Finding::Torn(place))
        } else {
            self.report.tell(Finding::Wrong(place, Reason::NotEntry))
        }
    }

    /// Takes a line of a ledger.
    fn take(&mut self, place: LinePlace<'_>, line: &JudgedLine<'_>) -> Result<(), Fault>
        requires { IsJudgedLine line.now }
        ensures config { self.new.config ≡ self.old.config }
        ensures taken { OnOk result (AreTaken self.old.config.now (line.now.content ∷ []) self.old.known.runs self.new.known.runs) }
    {
        let (known, report) = (&mut self.known, &mut self.report);
        let sum = line.sum;
        match &line.content {
            Content::Begin(begin) => take_begin(self.alloc, known, report, place, begin, sum),
            Content::Entry(judged) => take_entry(known, report, place, judged, sum),
            Content::Left(left) => take_left(self.config, known, report, place, left, sum),
            Content::Count(count) => take_count(known, report, place, count, sum),
            Content::AgainEarlier(count) => take_earlier(known, report, place, count, sum),
            Content::Resumed(resumed) => take_resumed(known, report, place, resumed, sum),
            Content::End(end) => take_end(known, report, place, end, sum),
            Content::Hidden(hidden) => take_hidden(known, report, place, hidden),
        }
    }

    fn hold(&mut self, line: u64, octets: &[u8]) -> Result<(), Fault>
        ensures config { self.new.config ≡ self.old.config }
        ensures runs { self.new.known.runs ≡ self.old.known.runs }
    {
        self.held.octets.clear();
        self.held.octets.extend_from_slice(octets)?;
        self.held.line = Some(line);
        Ok(())
    }

    fn tell_hints<R: Runtime>(&self, rt: &R) {
        self.hints.tell(rt, &self.known.runs);
    }

    /// Prints what each lane of each run has, and which sums were not found, and returns the status.
    fn end(&mut self) -> Result<u8, Fault>
        ensures status { IfOk result IsStatus }
        ensures fault { IfErr result (λ fault. fault ≡ Output) }
    {
        tell_runs(&mut self.report, &self.known)?;
        for kept in self.known.sums.as_slice() {
            if !kept.is_found {
                self.report.tell(Finding::Sum(kept.word))?;
            }
        }
        Ok(self.report.findings.status())
    }
}

/// Tells at which line of the files the audit is. Whatever is printed next is written over that.
fn tell_place<R: Runtime>(rt: &R, place: LinePlace<'_>) {
    let _ = eprint!(rt; "\u{1b}[K{place}\r");
}

fn clear_place<R: Runtime>(rt: &R) {
    let _ = eprint!(rt; "\u{1b}[K");
}

/// Takes the first line of a file.
fn take_begin<W: Write>(
    alloc: Global,
    known: &mut Known<'_>,
    report: &mut Report<'_, W>,
    place: LinePlace<'_>,
    begin: &Begin<'_>,
    sum: Option<LineSum>,
) -> Result<(), Fault>
    ensures { OnOk result ((config : Configuration) → Follow config (content.Begin begin.now) known.old.runs known.new.runs) }
{
    begin_file(alloc, known, report, place, begin)?;
    pass_begin(known, report, place, begin, sum)
}

/// A file begins. Tells if another run began in it before, what is wrong with its number and its lanes, and which files of its run
/// are missing before it, if any are.
fn begin_file<W: Write>(
    alloc: Global,
    known: &mut Known<'_>,
    report: &mut Report<'_, W>,
    place: LinePlace<'_>,
    begin: &Begin<'_>,
) -> Result<(), Fault>
    ensures { OnOk result ((config : Configuration) → Follow config (content.Begin begin.now) known.old.runs known.new.runs) }
{
    if known.begun.is_some_and(|run| run != begin.run) {
        report.tell(Finding::Second(place, begin.run))?;
    }
    known.begun = Some(begin.run);
    let Some(run) = known.runs.of(begin.run) else {
        known.runs.add(alloc, begin)?;
        return Ok(known.expect(begin.before)?);
    };
    if run.files.has_passed(begin.file) {
        report.tell(Finding::Wrong(place, Reason::FileAgain))?;
    } else if !run.goes_on(begin.lanes.as_slice()) {
        report.tell(Finding::Wrong(place, Reason::OtherLanes))?;
    }
    match known.runs.take_file(begin.run, begin.file) {
        Some(files) => report.tell(Finding::Files(place, begin.run, files)),
        None => Ok(()),
    }
}

/// Takes the sum of the first line of a file. Tells if it is not right behind the last line of the file before.
fn pass_begin<W: Write>(
    known: &mut Known<'_>,
    report: &mut Report<'_, W>,
    place: LinePlace<'_>,
    begin: &Begin<'_>,
    sum: Option<LineSum>,
) -> Result<(), Fault>
    ensures { StandAlike known.old.runs known.new.runs }
{
    let sum = cut_by(begin.hidden, sum);
    let Some(begun) = known.runs.begin(begin.run, begin.file, sum) else {
        return Ok(());
    };
    if let Some(its) = sum {
        if let Some(before) = begun.before {
            known.sums.see(begin.run, begin.file, before);
        }
        known.see(begin.run, begin.file, its.sum);
    }
    tell_sum(report, place, begun.is_right)
}

fn tell_sum<W: Write>(
    report: &mut Report<'_, W>,
    place: LinePlace<'_>,
    is_right: bool,
) -> Result<(), Fault> {
    if is_right {
        return Ok(());
    }
    report.tell(Finding::Wrong(place, Reason::WrongSum))
}

/// Returns what the end of a line says, of which lanes are left out if a number of them is told.
fn cut_by(hidden: Option<u32>, sum: Option<LineSum>) -> Option<LineSum> {
    match sum {
        Some(its) if hidden.is_some() => Some(LineSum::left_out(its.sum)),
        _ => sum,
    }
}

/// Takes the sum of a line of a run, if that is known. Tells if it is not right behind the line before.
fn pass_line<W: Write>(
    known: &mut Known<'_>,
    report: &mut Report<'_, W>,
    place: LinePlace<'_>,
    run: u64,
    sum: Option<LineSum>,
) -> Result<(), Fault>
    ensures { StandAlike known.old.runs known.new.runs }
{
    let Some(passed) = known.runs.pass(run, sum) else {
        return Ok(());
    };
    if passed.is_sealed {
        if let Some(its) = sum {
            known.see(run, passed.file, its.sum);
        }
    }
    tell_sum(report, place, passed.is_right)
}

/// Takes the sum of a line that is left out, as one of the run of the line before it. Tells if there is no such run.
fn take_hidden<W: Write>(
    known: &mut Known<'_>,
    report: &mut Report<'_, W>,
    place: LinePlace<'_>,
    hidden: &Hidden,
) -> Result<(), Fault>
    ensures { (config : Configuration) → Follow config (content.Hidden hidden.now) known.old.runs known.new.runs }
{
    let Some(run) = known.runs.hide(hidden) else {
        return report.tell(Finding::Wrong(place, Reason::UnknownLane));
    };
    pass_line(
        known,
        report,
        place,
        run,
        Some(LineSum::left_out(hidden.sum)),
    )
}

/// Takes a count of what became of a response.
fn take_count<W: Write>(
    known: &mut Known<'_>,
    report: &mut Report<'_, W>,
    place: LinePlace<'_>,
    count: &RecordCount<'_>,
    sum: Option<LineSum>,
) -> Result<(), Fault>
    ensures { OnOk result ((config : Configuration) → Follow config (content.Count count.now) known.old.runs known.new.runs) }
{
    pass_line(known, report, place, count.run, sum)?;
    match known.runs.take_count(count) {
        Some(reason) => report.tell(Finding::Wrong(place, reason)),
        None => Ok(()),
    }
}

/// Takes a count of how often the response of an earlier run was sent again.
fn take_earlier<W: Write>(
    known: &mut Known<'_>,
    report: &mut Report<'_, W>,
    place: LinePlace<'_>,
    count: &AnswerCount<'_>,
    sum: Option<LineSum>,
) -> Result<(), Fault>
    ensures { OnOk result ((config : Configuration) → Follow config (content.AgainEarlier count.now) known.old.runs known.new.runs) }
{
    pass_line(known, report, place, count.run, sum)?;
    match known.runs.take_earlier(count) {
        Some(reason) => report.tell(Finding::Wrong(place, reason)),
        None => Ok(()),
    }
}

/// Takes a request that a lane took over.
fn take_resumed<W: Write>(
    known: &mut Known<'_>,
    report: &mut Report<'_, W>,
    place: LinePlace<'_>,
    resumed: &Resumed<'_>,
    sum: Option<LineSum>,
) -> Result<(), Fault>
    ensures { OnOk result ((config : Configuration) → Follow config (content.Resumed resumed.now) known.old.runs known.new.runs) }
{
    pass_line(known, report, place, resumed.run, sum)?;
    match known.runs.take_resumed(resumed) {
        Some(reason) => report.tell(Finding::Wrong(place, reason)),
        None => Ok(()),
    }
}

fn is_front(front: &[u8], next: &[u8]) -> bool
    ensures { IsTrue result ↔ IsFront front.now next.now }
{
    front.len() < next.len() && next.starts_with(front)
}

/// Takes an entry.
fn take_entry<W: Write>(
    known: &mut Known<'_>,
    report: &mut Report<'_, W>,
    place: LinePlace<'_>,
    judged: &JudgedEntry<'_>,
    sum: Option<LineSum>,
) -> Result<(), Fault>
    requires { IsJudged judged.now }
    ensures { OnOk result ((config : Configuration) → Follow config (content.Entry judged.now) known.old.runs known.new.runs) }
{
    pass_line(known, report, place, judged.entry.about.run, sum)?;
    let taken = known.runs.take_entry(judged)?;
    tell_entry(report, place, &judged.entry, taken)
}

/// Tells what became of an entry.
fn tell_entry<W: Write>(
    report: &mut Report<'_, W>,
    place: LinePlace<'_>,
    entry: &Entry<'_>,
    taken: TakenEntry,
) -> Result<(), Fault> {
    let gap = match taken {
        TakenEntry::Wrong(reason) => return report.tell(Finding::Wrong(place, reason)),
        TakenEntry::Counted(gap) => gap,
    };
    if let Some(gap) = gap {
        let about = &entry.about;
        let name = LaneName {
            run: about.run,
            number: about.lane,
            home: about.home,
        };
        report.tell(Finding::Gap(place, name, gap))?;
    }
    report.row(place, entry)
}

/// Takes a request that was left.
fn take_left<W: Write>(
    config: &Config,
    known: &mut Known<'_>,
    report: &mut Report<'_, W>,
    place: LinePlace<'_>,
    left: &Left<'_>,
    sum: Option<LineSum>,
) -> Result<(), Fault>
    ensures { OnOk result (Follow config.now (content.Left left.now) known.old.runs known.new.runs) }
{
    pass_line(known, report, place, left.about.run, sum)?;
    let client = secret_of_client(config, left.about.client);
    match known.runs.take_left(left, client)? {
        Some(reason) => report.tell(Finding::Wrong(place, reason)),
        None => report.left_row(place, left),
    }
}

/// Prints what each lane of each run has, and which runs name no other one, though an earlier one does not either.
fn tell_runs<W: Write>(report: &mut Report<'_, W>, known: &Known<'_>) -> Result<(), Fault>
    ensures fault { IfErr result (λ fault. fault ≡ Output) }
    ensures printed { OnOk result (Gets (TellsRuns known.now.runs known.now.runs.names.items) (W.contents report.old.outputs.lines.now) (W.contents report.new.outputs.lines.now)) }
{
    let mut has_untied = false;
    for name in known.runs.names() {
        has_untied = tell_named(report, known, *name, has_untied)?;
    }
    Ok(())
}

/// Prints what the lanes of the run of this name have, and whether it is one more that names no other one. Returns whether
/// there is one so far.
fn tell_named<W: Write>(
    report: &mut Report<'_, W>,
    known: &Known<'_>,
    name: u64,
    has_untied: bool,
) -> Result<bool, Fault>
    ensures fault { IfErr result (λ fault. fault ≡ Output) }
    ensures printed { OnOk result (Gets (λ text. MatchOption (get nat_cmp known.now.runs.runs name) (text ≡ []) (λ run. TellsRun name run text)) (W.contents report.old.outputs.lines.now) (W.contents report.new.outputs.lines.now)) }
{
    let Some(run) = known.runs.of(name) else {
        return Ok(has_untied);
    };
    let is_untied = report.asked.all && run.is_untied();
    tell_lanes(report, name, run)?;
    report.tell_some(Finding::of_hidden(name, run))?;
    report.tell_some(missing_before(known, name, run))?;
    report.tell_some(Finding::of_untied(name, is_untied && has_untied))?;
    Ok(has_untied || is_untied)
}

/// Prints what each lane of the run of this name has.
fn tell_lanes<W: Write>(report: &mut Report<'_, W>, name: u64, run: &Run) -> Result<(), Fault>
    ensures fault { IfErr result (λ fault. fault ≡ Output) }
    ensures printed { OnOk result (Gets (TellsLanes name run.now run.now.lanes.items) (W.contents report.old.outputs.lines.now) (W.contents report.new.outputs.lines.now)) }
{
    for lane in run.lanes.as_slice() {
        tell_lane(report, name, run, lane)?;
    }
    Ok(())
}

/// Returns the file that a run names, if it was not read.
fn missing_before<'a>(known: &Known<'_>, name: u64, run: &'a Run) -> Option<Finding<'a>> {
    match &run.before {
        Some(file) if !has(known, file) => Some(Finding::Before(name, file)),
        _ => None,
    }
}

/// Whether the line of another run that a run names was read; by its file, if the run does not name its sum.
fn has(known: &Known<'_>, file: &NamedFile) -> bool {
    let Some(sum) = file.sum() else {
        return known.runs.has(file);
    };
    match file.parts() {
        Some(parts) => known.ties.is_found(parts.run, sum),
        None => false,
    }
}

fn tell_lane<W: Write>(
    report: &mut Report<'_, W>,
    run_name: u64,
    run: &Run,
    lane: &Lane,
) -> Result<(), Fault>
    ensures fault { IfErr result (λ fault. fault ≡ Output) }
    ensures printed { OnOk result (Gets (TellsLane run_name run.now lane.now) (W.contents report.old.outputs.lines.now) (W.contents report.new.outputs.lines.now)) }
{
    let counts = LaneCounts::of(run_name, run, lane);
    let name = counts.name;
    report.tell(Finding::Lane(counts))?;
    report.tell_some(Finding::of_part(counts))?;
    report.tell_some(Finding::of_fates(name, lane))?;
    report.tell_some(Finding::of_ranges(name, lane))?;
    report.tell_some(Finding::of_back(name, lane))?;
    report.tell_some(Finding::of_resumed(name, lane))
}

/// Takes a line that ends a run.
fn take_end<W: Write>(
    known: &mut Known<'_>,
    report: &mut Report<'_, W>,
    place: LinePlace<'_>,
    end: &End<'_>,
    sum: Option<LineSum>,
) -> Result<(), Fault>
    ensures { OnOk result ((config : Configuration) → Follow config (content.End end.now) known.old.runs known.new.runs) }
{
    pass_line(known, report, place, end.run, cut_by(end.hidden, sum))?;
    known.runs.end(end.run);
    end_lanes(&mut known.runs, report, place, end)
}

/// Takes what that line counts of each lane.
fn end_lanes<W: Write>(
    runs: &mut Runs,
    report: &mut Report<'_, W>,
    place: LinePlace<'_>,
    end: &End<'_>,
) -> Result<(), Fault>
    ensures { OnOk result (EndWith end.now.run end.now.lanes.items runs.old runs.new) }
{
    for count in end.lanes.iter() {
        let ended = runs.end_lane(end.run, count);
        tell_ended(runs, report, place, end.run, count.lane, ended)?;
        tell_beyond(runs, report, place, end.run, count)?;
    }
    Ok(())
}

/// Tells if that line counts less requests of a lane than a line before it of one that the lane took over.
fn tell_beyond<W: Write>(
    runs: &Runs,
    report: &mut Report<'_, W>,
    place: LinePlace<'_>,
    run: u64,
    count: &LaneCount,
) -> Result<(), Fault> {
    match runs.lane(run, count.lane) {
        Some(lane) if lane.is_beyond(count) => {
            report.tell(Finding::Wrong(place, Reason::UnknownRecord))
        }
        _ => Ok(()),
    }
}

/// Tells of a gap behind the last entry of a lane, or that its run does not name it.
fn tell_ended<W: Write>(
    runs: &Runs,
    report: &mut Report<'_, W>,
    place: LinePlace<'_>,
    run: u64,
    number: u16,
    ended: Result<Option<Gap>, Reason>,
) -> Result<(), Fault> {
    let gap = match ended {
        Ok(gap) => gap,
        Err(reason) => return report.tell(Finding::Wrong(place, reason)),
    };
    match (gap, runs.lane(run, number)) {
        (Some(gap), Some(lane)) => report.tell(Finding::Gap(place, LaneName::of(run, lane), gap)),
        _ => Ok(()),
    }
}
