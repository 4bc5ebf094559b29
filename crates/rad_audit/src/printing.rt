//! What is found, and its printed line.

ghost use Rattle.std.specs.Prelude.{◌≡◌, [], if◌then◌else◌, IfErr};
ghost use Rattle.rad_audit.specs.declared.faults.Fault.TheVariants.{Output};
ghost use Rattle.rad_audit.specs.Statuses.{is_contradicted as the_is_contradicted, is_covered as the_is_covered, is_missing as the_is_missing, is_open as the_is_open, is_unasked as the_is_unasked};

use crate::faults::{Fault, written};
use crate::lanes::Lane;
use crate::named_file::NamedFile;
use crate::rows::Row;
use crate::runs::Run;
use crate::shown::Shown;
use ledger_rules::{Entry, Gap, Left, Reason, Verdict, lane_verdict};
use std::fmt;
use std::io::Write;

/// Where a line stands.
#[derive(Clone, Copy)]
pub struct LinePlace<'a> {
    pub file: &'a str,
    /// Its number in the file, from 1.
    pub line: u64,
}

/// A lane of a run.
#[derive(Clone, Copy)]
pub struct LaneName<'a> {
    /// The name of the run.
    pub run: u64,
    /// The number of the lane.
    pub number: u16,
    /// The home server's name.
    pub home: &'a str,
}

/// What is found. It is printed as one line, without its line feed.
#[derive(Clone, Copy)]
pub enum Finding<'a> {
    /// A line is wrong.
    Wrong(LinePlace<'a>, Reason),
    /// A line was cut short. That is no fault.
    Torn(LinePlace<'a>),
    /// Before a line these responses of a lane are missing.
    Gap(LinePlace<'a>, LaneName<'a>, Gap),
    /// Before a line files of this run are missing: those of these numbers.
    Files(LinePlace<'a>, u64, Gap),
    /// This run begins in a file behind another one. That is no fault.
    Second(LinePlace<'a>, u64),
    /// What a lane has.
    Lane(LaneCounts<'a>),
    /// Why a lane is only a part of what its run had, or of what can be judged.
    Part(LaneCounts<'a>),
    /// What became of the requests that a lane accepted.
    Fates(LaneName<'a>, FateCounts),
    /// The numbers of a lane are of more ranges than are kept.
    Ranges(LaneName<'a>),
    /// The entries of a lane have so many steps back in time. That is no fault.
    Back(LaneName<'a>, u64),
    /// A lane took over so many requests of earlier runs. That is no fault.
    Resumed(LaneName<'a>, u64),
    /// Of this run so many lines are left out.
    Hidden(u64, u64),
    /// This run names this file of another run, which was not read.
    Before(u64, &'a NamedFile),
    /// This run names no other run, though one is before it.
    Untied(u64),
    /// The sum that this word names was not found. Somebody kept it.
    Sum(&'a str),
}

/// What became of the requests that a lane of a run accepted.
#[derive(Clone, Copy)]
pub struct FateCounts {
    /// How many there were, as the end line counts them.
    pub accepted: u64,
    /// How many entries are right.
    pub answered: u64,
    /// How many lines of requests that were left are right.
    pub left: u64,
}

/// What a lane of a run has.
#[derive(Clone, Copy)]
pub struct LaneCounts<'a> {
    pub name: LaneName<'a>,
    /// The serial of the first response that is looked for.
    pub first: u64,
    /// Whether the run begins before that, or with a file before the first one that was read.
    pub late: bool,
    /// Whether a file of the run begins without a sum.
    pub bare: bool,
    /// Whether a line ends the run that does not say how many requests the lane accepted.
    pub uncounted: bool,
    /// How many entries are right.
    pub entries: u64,
    /// How many of these, and of the lines of requests that were left, were not judged, or not all of them.
    pub not_judged: u64,
    /// Whether lines that are left out may be all that is missing.
    pub covered: bool,
    pub verdict: Verdict,
}

/// Steps back in time.
#[derive(Clone, Copy)]
struct BackSteps(u64);

/// Which parts are asked for, so that they are no fault.
#[derive(Clone, Copy)]
pub struct Asked {
    /// Runs that begin before what is there.
    pub from: bool,
    /// These, and what is judged without a sum, the counts of the end, the secret of a home server or of a client, or a line that is
    /// left out.
    pub partial: bool,
    /// All runs before the last one, which are a fault if they are missing, and each of them named by the next one.
    pub all: bool,
}

/// What was found so far.
#[derive(Clone, Copy)]
pub struct Findings {
    /// Whether a line was wrong.
    pub wrong: bool,
    /// Whether an end line is contradicted.
    pub contradicted: bool,
    /// Whether a file is missing.
    pub file: bool,
    /// Whether a response or a request is missing.
    pub gap: bool,
    /// Whether a lane is a part that nobody asked for.
    pub part: bool,
    /// Whether no lane was found.
    pub nothing: bool,
    /// Whether a run is missing that another one names, or not named, if all are asked for.
    pub run: bool,
    /// Whether a lane is open.
    pub unended: bool,
}

/// Findings that are none.
pub const NO_FINDINGS: Findings = Findings {
    wrong: false,
    contradicted: false,
    file: false,
    gap: false,
    part: false,
    nothing: false,
    run: false,
    unended: false,
};

impl Findings {
    ghost use Rattle.std.specs.Prelude.{◌≡◌};
    ghost use Rattle.rad_audit.specs.Statuses.{found_in, found_with, status_at};

    fn with(self, asked: Asked, finding: Finding<'_>) -> Findings
        ensures { result ≡ found_with asked finding.entry self }
    {
        match finding {
            Finding::Wrong(..) | Finding::Sum(_) => Findings {
                wrong: true,
                ..self
            },
            Finding::Files(..) => Findings { file: true, ..self },
            Finding::Lane(counts) => self.with_lane(asked, counts),
            Finding::Hidden(..) => Findings {
                part: self.part || !asked.partial,
                ..self
            },
            Finding::Before(..) | Finding::Untied(_) => Findings {
                run: self.run || asked.all,
                ..self
            },
            Finding::Torn(_)
            | Finding::Gap(..)
            | Finding::Second(..)
            | Finding::Part(_)
            | Finding::Fates(..)
            | Finding::Ranges(_)
            | Finding::Back(..)
            | Finding::Resumed(..) => self,
        }
    }

    fn with_lane(self, asked: Asked, counts: LaneCounts<'_>) -> Findings
        ensures { result ≡ found_in asked counts.entry self }
    {
        Findings {
            contradicted: self.contradicted || is_contradicted(counts.verdict),
            gap: self.gap || (is_missing(counts.verdict) && !(asked.partial && counts.covered)),
            part: self.part || is_unasked(asked, counts),
            nothing: false,
            unended: self.unended || is_open(counts.verdict),
            ..self
        }
    }

    /// Returns the status that the program ends with.
    pub fn status(&self) -> u8
        ensures { result ≡ status_at self.now }
    {
        if self.wrong {
            5
        } else if self.contradicted {
            9
        } else if self.file {
            8
        } else if self.gap {
            3
        } else if self.part {
            7
        } else if self.nothing || self.run {
            10
        } else if self.unended {
            6
        } else {
            0
        }
    }
}

impl<'a> LaneName<'a> {
    ghost use Rattle.std.specs.Prelude.{◌≡◌, string_bytes};

    /// Returns the name of this lane of a run.
    pub fn of(run: u64, lane: &'a Lane) -> LaneName<'a>
        ensures run { (result.run ≡ run) × (result.number ≡ lane.now.number) }
        ensures home { result.home.now ≡ string_bytes lane.now.home.0 }
    {
        LaneName {
            run,
            number: lane.number,
            home: lane.home.as_str(),
        }
    }
}

impl<'a> LaneCounts<'a> {
    ghost use Rattle.std.specs.Prelude.{◌≡◌, ℕ, List, not, is_some, ◌&&◌, ◌||◌, ◌==◌, IsTrue, string_bytes};
    ghost use Rattle.ledger_rules.specs.Accounting.{JudgesLane};
    ghost use Rattle.ledger_rules.specs.Counting.{Counts};
    ghost use Rattle.ledger_rules.specs.Numbers.{Keeps};

    /// Returns what this lane of the run of this name has.
    pub fn of(name: u64, run: &Run, lane: &'a Lane) -> LaneCounts<'a>
        ensures name { (result.name.run ≡ name) × (result.name.number ≡ lane.now.number) }
        ensures home { result.name.home.now ≡ string_bytes lane.now.home.0 }
        ensures counts { (result.first ≡ lane.now.tally.first) × (result.entries ≡ lane.now.tally.entries) × (result.not_judged ≡ lane.now.not_judged) }
        ensures late { result.late ≡ (not (run.now.files.first == 0) || not (lane.now.tally.first == 0)) }
        ensures bare { result.bare ≡ run.now.chain.bare }
        ensures covered { result.covered ≡ the_is_covered lane.now }
        ensures uncounted { result.uncounted ≡ (run.now.ended && not (is_some lane.now.account.told)) }
        ensures verdict { (serials : List ℕ) (numbers : List ℕ) → Counts lane.now.tally serials → Keeps lane.now.account.numbers numbers → JudgesLane lane.now.tally lane.now.account lane.now.ending (IsTrue (result.late || (result.bare || (result.uncounted || not (lane.now.not_judged == 0))))) serials numbers result.verdict }
    {
        let late = run.files.begin_late() || lane.tally.first() != 0;
        let bare = run.chain.is_bare();
        let uncounted = run.ended && lane.account.told().is_none();
        let part = late || (bare || (uncounted || lane.not_judged != 0));
        LaneCounts {
            name: LaneName::of(name, lane),
            first: lane.tally.first(),
            late,
            bare,
            uncounted,
            entries: lane.tally.entries(),
            not_judged: lane.not_judged,
            covered: is_covered(lane),
            verdict: lane_verdict(&lane.tally, &lane.account, &lane.ending, part),
        }
    }
}

impl<'a> Finding<'a> {
    ghost use Rattle.std.specs.Prelude.{◌≡◌, ◌==◌, if◌then◌else◌, None, Some, option_map};
    ghost use Rattle.rad_audit.specs.declared.printing.Finding.TheVariants.{Back, Fates, Hidden, Part, Ranges, Resumed, Untied};
    ghost use Rattle.rad_audit.specs.Statuses.{is_partial};

    /// Returns why a lane is only a part, if it is.
    pub fn of_part(counts: LaneCounts<'a>) -> Option<Finding<'a>>
        ensures { result ≡ (if is_partial counts.entry then Some (Part counts.entry) else None) }
    {
        if counts.late || (counts.bare || (counts.uncounted || counts.not_judged != 0)) {
            Some(Finding::Part(counts))
        } else {
            None
        }
    }

    /// Returns what became of the requests of a lane, if an end line counts them.
    pub fn of_fates(name: LaneName<'a>, lane: &Lane) -> Option<Finding<'a>>
        ensures { result ≡ option_map (λ told. Fates name.entry (record { accepted = told.accepted; answered = lane.now.tally.entries; left = lane.now.account.left })) lane.now.account.told }
    {
        let fates = FateCounts {
            accepted: lane.account.told()?.accepted,
            answered: lane.tally.entries(),
            left: lane.account.left(),
        };
        Some(Finding::Fates(name, fates))
    }

    /// Returns that the numbers of a lane are of more ranges than are kept, if they are.
    pub fn of_ranges(name: LaneName<'a>, lane: &Lane) -> Option<Finding<'a>>
        ensures { result ≡ (if lane.now.account.numbers.exact_from == 0 then None else Some (Ranges name.entry)) }
    {
        if lane.account.is_exact() {
            None
        } else {
            Some(Finding::Ranges(name))
        }
    }

    /// Returns the steps back in time of a lane, if there are any.
    pub fn of_back(name: LaneName<'a>, lane: &Lane) -> Option<Finding<'a>>
        ensures { result ≡ (if lane.now.times.back == 0 then None else Some (Back name.entry lane.now.times.back)) }
    {
        match lane.times.back() {
            0 => None,
            steps => Some(Finding::Back(name, steps)),
        }
    }

    /// Returns how many requests of earlier runs a lane took over, if it did.
    pub fn of_resumed(name: LaneName<'a>, lane: &Lane) -> Option<Finding<'a>>
        ensures { result ≡ (if lane.now.resumed.count == 0 then None else Some (Resumed name.entry lane.now.resumed.count)) }
    {
        match lane.resumed.count() {
            0 => None,
            count => Some(Finding::Resumed(name, count)),
        }
    }

    /// Returns that the run of this name names no other run, if that is to be told.
    pub fn of_untied(name: u64, is_told: bool) -> Option<Finding<'a>>
        ensures { result ≡ (if is_told then Some (Untied name) else None) }
    {
        if is_told {
            Some(Finding::Untied(name))
        } else {
            None
        }
    }

    /// Returns the lines of the run of this name that are left out, if any are.
    pub fn of_hidden(name: u64, run: &Run) -> Option<Finding<'a>>
        ensures { result ≡ (if run.now.chain.hidden == 0 then None else Some (Hidden name run.now.chain.hidden)) }
    {
        match run.chain.hidden() {
            0 => None,
            count => Some(Finding::Hidden(name, count)),
        }
    }
}

/// Where lines are printed, and rows, if they are.
#[derive(Drop)]
pub struct Outputs<'a, W> {
    pub lines: &'a mut W,
    pub rows: Option<&'a mut W>,
}

/// Where lines are printed, and what they told so far.
#[derive(Drop)]
pub struct Report<'a, W> {
    pub outputs: Outputs<'a, W>,
    pub asked: Asked,
    pub findings: Findings,
}

impl<W: Write> Report<'_, W> {
    ghost use Rattle.std.specs.Prelude.{OnOk};
    ghost use Rattle.std.specs.Io.KnownBytes.{Appends};
    ghost use Rattle.rad_audit.specs.Statuses.{found_with};
    ghost use Rattle.rad_audit.specs.Telling.{printed, printed_if};

    /// Prints the line of a finding. The status counts it.
    ///
    /// # Errors
    ///
    /// `Output` if it can't be printed. This is so of each of these calls.
    pub fn tell(&mut self, finding: Finding<'_>) -> Result<(), Fault>
        ensures findings { self.new.findings ≡ found_with self.old.asked finding.entry self.old.findings }
        ensures fault { IfErr result (λ fault. fault ≡ Output) }
        ensures printed { OnOk result (Appends (W.contents self.old.outputs.lines.now) (W.contents self.new.outputs.lines.now) (printed finding.entry)) }
    {
        self.findings = self.findings.with(self.asked, finding);
        written(writeln!(self.outputs.lines, "{finding}"))
    }

    /// The same, if there is one.
    pub fn tell_some(&mut self, finding: Option<Finding<'_>>) -> Result<(), Fault>
        ensures fault { IfErr result (λ fault. fault ≡ Output) }
        ensures printed { OnOk result (Appends (W.contents self.old.outputs.lines.now) (W.contents self.new.outputs.lines.now) (printed_if finding.entry)) }
    {
        match finding {
            Some(finding) => self.tell(finding),
            None => Ok(()),
        }
    }

    /// Prints the row of an entry, if rows are printed.
    pub fn row(&mut self, place: LinePlace<'_>, entry: &Entry<'_>) -> Result<(), Fault>
        ensures findings { self.new.findings ≡ self.old.findings }
        ensures fault { IfErr result (λ fault. fault ≡ Output) }
    {
        match &mut self.outputs.rows {
            Some(rows) => print_row(rows, Row::of_entry(place, entry)),
            None => Ok(()),
        }
    }

    /// Prints the row of a request that was left, if rows are printed.
    pub fn left_row(&mut self, place: LinePlace<'_>, left: &Left<'_>) -> Result<(), Fault>
        ensures findings { self.new.findings ≡ self.old.findings }
        ensures fault { IfErr result (λ fault. fault ≡ Output) }
    {
        match &mut self.outputs.rows {
            Some(rows) => print_row(rows, Row::of_left(place, left)),
            None => Ok(()),
        }
    }
}

fn print_row<W: Write>(rows: &mut W, row: Option<Row<'_>>) -> Result<(), Fault>
    ensures { IfErr result (λ fault. fault ≡ Output) }
{
    match row {
        Some(row) => written(writeln!(rows, "{row}")),
        None => Ok(()),
    }
}

/// Whether lines of a lane that are left out may be all that is missing of it.
fn is_covered(lane: &Lane) -> bool
    ensures { result ≡ the_is_covered lane.now }
{
    let missing = lane.tally.missing();
    if missing != 0 {
        return missing <= lane.hidden.entries;
    }
    match lane.account.told() {
        Some(told) => {
            lane.hidden.left != 0
                && told.left.saturating_sub(lane.account.left()) <= lane.hidden.left
        }
        None => false,
    }
}

fn is_missing(verdict: Verdict) -> bool
    ensures { result ≡ the_is_missing verdict }
{
    matches!(verdict, Verdict::Missing(_) | Verdict::Unaccounted)
}

fn is_open(verdict: Verdict) -> bool
    ensures { result ≡ the_is_open verdict }
{
    matches!(verdict, Verdict::Open)
}

fn is_contradicted(verdict: Verdict) -> bool
    ensures { result ≡ the_is_contradicted verdict }
{
    matches!(verdict, Verdict::Contradicted)
}

fn is_unasked(asked: Asked, counts: LaneCounts<'_>) -> bool
    ensures { result ≡ the_is_unasked asked counts.entry }
{
    (counts.late && !(asked.from || asked.partial))
        || ((counts.bare || (counts.uncounted || counts.not_judged != 0)) && !asked.partial)
}

impl fmt::Display for LinePlace<'_> {
    ghost use Rattle.std.specs.Prelude.{Some};
    ghost use Rattle.rad_audit.specs.Printed.{place_text};

    ghost output = { λ place. Some (place_text place) };

    fn fmt<W: fmt::Write>(&self, f: &mut fmt::Formatter<W>) -> fmt::Result {
        let file = Shown(self.file);
        let line = self.line;
        write!(f, "{file}:{line}")
    }
}

impl fmt::Display for LaneName<'_> {
    ghost use Rattle.std.specs.Prelude.{Some};
    ghost use Rattle.rad_audit.specs.Printed.{name_text};

    ghost output = { λ name. Some (name_text name) };

    fn fmt<W: fmt::Write>(&self, f: &mut fmt::Formatter<W>) -> fmt::Result {
        let run = self.run;
        let number = self.number;
        let home = Shown(self.home);
        write!(f, "run {run:016x} lane {number} {home}")
    }
}

impl fmt::Display for LaneCounts<'_> {
    ghost use Rattle.std.specs.Prelude.{Some};
    ghost use Rattle.rad_audit.specs.Printed.{counts_text};

    ghost output = { λ counts. Some (counts_text counts) };

    fn fmt<W: fmt::Write>(&self, f: &mut fmt::Formatter<W>) -> fmt::Result {
        let first = self.first;
        let entries = self.entries;
        let not_judged = self.not_judged;
        let verdict = self.verdict;
        write!(f, "from {first} entries {entries} ")?;
        write!(f, "not judged {not_judged} {verdict}")
    }
}

/// The reasons why a lane is only a part: each is a word.
#[derive(Clone, Copy)]
struct PartReasons<'a>(LaneCounts<'a>);

impl fmt::Display for PartReasons<'_> {
    ghost use Rattle.std.specs.Prelude.{Some};
    ghost use Rattle.rad_audit.specs.Printed.{reasons_text};

    ghost output = { λ reasons. Some (reasons_text reasons.0) };

    fn fmt<W: fmt::Write>(&self, f: &mut fmt::Formatter<W>) -> fmt::Result {
        let counts = self.0;
        let late = word_if(counts.late, " late");
        let bare = word_if(counts.bare, " no-sum");
        let uncounted = word_if(counts.uncounted, " no-counts");
        let not_judged = word_if(counts.not_judged != 0, " not-judged");
        write!(f, "part:{late}{bare}{uncounted}{not_judged}")
    }
}

fn word_if(is_so: bool, word: &str) -> &str
    ensures { result.now ≡ (if is_so then word.now else []) }
{
    if is_so { word } else { "" }
}

impl fmt::Display for BackSteps {
    ghost use Rattle.std.specs.Prelude.{Some};
    ghost use Rattle.rad_audit.specs.Printed.{steps_text};

    ghost output = { λ steps. Some (steps_text steps.0) };

    fn fmt<W: fmt::Write>(&self, f: &mut fmt::Formatter<W>) -> fmt::Result {
        let steps = self.0;
        write!(f, "steps back in time {steps}")
    }
}

impl fmt::Display for Finding<'_> {
    ghost use Rattle.std.specs.Prelude.{Some};
    ghost use Rattle.rad_audit.specs.Printed.{line_of};

    ghost output = { λ finding. Some (line_of finding) };

    fn fmt<W: fmt::Write>(&self, f: &mut fmt::Formatter<W>) -> fmt::Result {
        match *self {
            Finding::Wrong(place, reason) => write!(f, "{place}: {reason}"),
            Finding::Torn(place) => write!(f, "{place}: torn"),
            Finding::Gap(place, name, gap) => write!(f, "{place}: {name} {gap}"),
            Finding::Files(place, run, Gap { first, last }) => {
                write!(f, "{place}: run {run:016x} files {first} to {last} missing")
            }
            Finding::Second(place, run) => write!(f, "{place}: run {run:016x} behind another run"),
            Finding::Lane(counts) => {
                let name = counts.name;
                write!(f, "{name} {counts}")
            }
            Finding::Part(counts) => {
                let name = counts.name;
                let reasons = PartReasons(counts);
                write!(f, "{name} {reasons}")
            }
            Finding::Fates(name, fates) => {
                let FateCounts {
                    accepted,
                    answered,
                    left,
                } = fates;
                write!(
                    f,
                    "{name} accepted {accepted} answered {answered} left {left}"
                )
            }
            Finding::Ranges(name) => write!(f, "{name} more than 4096 ranges"),
            Finding::Back(name, steps) => {
                let steps = BackSteps(steps);
                write!(f, "{name} {steps}")
            }
            Finding::Resumed(name, count) => write!(f, "{name} resumed {count}"),
            Finding::Hidden(run, count) => write!(f, "run {run:016x} hidden {count}"),
            Finding::Before(run, file) => {
                let name = Shown(file.name());
                write!(f, "run {run:016x} before {name} missing")
            }
            Finding::Untied(run) => write!(f, "run {run:016x} untied"),
            Finding::Sum(word) => {
                let word = Shown(word);
                let reason = Reason::WrongSum;
                write!(f, "{word}: {reason}")
            }
        }
    }
}
