//! What is known of each run.

ghost use Rattle.std.specs.Prelude.{ℕ, IfOk};
ghost use Rattle.rad_audit.specs.Lanes.{BeginsLane, standing_in};

use crate::chains::{LineSum, RunChain};
use crate::files::RunFiles;
use crate::judging::JudgedEntry;
use crate::lanes::Lane;
use crate::named_file::NamedFile;
use crate::taking::{TakenEntry, judge_stray, judge_stray_left};
use ledger_lines::{Begin, Hidden, LaneCount, LaneStart};
use ledger_rules::{AnswerCount, Gap, Left, Reason, RecordCount, Resumed};
use rad_auth::Secret;
use std::alloc::{AllocError, Global};
use std::collections::BTreeMap;

/// A run, with its lanes.
#[derive(Drop)]
pub struct Run {
    /// Its files that were read.
    pub files: RunFiles,
    /// The file of another run that its first line names.
    pub before: Option<NamedFile>,
    pub lanes: Vec<Lane>,
    pub chain: RunChain,
    /// Whether a line that ends it was read.
    pub ended: bool,
}

/// What is known of the sum of a line, once the line is passed.
#[derive(Clone, Copy)]
pub struct Passed {
    /// Whether it is right behind the line before.
    pub is_right: bool,
    /// The number of its file.
    pub file: u64,
    /// Whether the lines of that file have sums.
    pub is_sealed: bool,
}

/// What is known of the sum of a line that begins a file.
#[derive(Clone, Copy)]
pub struct BegunChain {
    /// Whether it is right behind the last line of the file before.
    pub is_right: bool,
    /// The sum of that line, if it is known.
    pub before: Option<[u8; 32]>,
}

/// The runs.
#[derive(Drop)]
pub struct Runs {
    /// Each run, by its name.
    runs: BTreeMap<u64, Run>,
    /// Their names, in the order in which the files name them.
    names: Vec<u64>,
    /// The name of the run that was last asked for.
    last: Option<u64>,
}

impl Runs {
    ghost use Rattle.std.specs.Prelude.{◌≡◌, [], ◌∷◌, None, OnOk, option_copied};
    ghost use Rattle.std.specs.Ordering.{nat_cmp};
    ghost use Rattle.std.specs.BTreeMap.{get};
    ghost use Rattle.rad_config.specs.Configuration.{Configuration};
    ghost use Rattle.rad_audit.specs.Judging.{IsJudged};
    ghost use Rattle.rad_audit.specs.Lanes.{EndWith, Follow, StandAlike, secret_at};
    ghost use Rattle.rad_audit.specs.declared.judging.Content.TheVariants as content;

    pub fn new(alloc: Global) -> Runs {
        Runs {
            runs: BTreeMap::new(alloc),
            names: Vec::new(alloc),
            last: None,
        }
    }

    /// Returns the names of the runs, in their order.
    pub fn names(&self) -> &[u64]
        ensures { result.now ≡ self.now.names.items }
    {
        self.names.as_slice()
    }

    /// Returns the run of this name, if there is one.
    pub fn of(&self, name: u64) -> Option<&Run>
        ensures { option_copied result ≡ get nat_cmp self.now.runs name }
    {
        self.runs.get(&name)
    }

    /// Returns the lane of this number, if there is such a run and it has one.
    pub fn lane(&self, name: u64, number: u16) -> Option<&Lane> {
        self.of(name)?.lane(number)
    }

    /// Whether the file that a run names is the last one of its run that was read.
    pub fn has(&self, named: &NamedFile) -> bool {
        let Some(parts) = named.parts() else {
            return false;
        };
        match self.of(parts.run) {
            Some(run) => run.files.end_with(parts.number),
            None => false,
        }
    }

    /// Adds the run that the first line of a file names.
    ///
    /// # Errors
    ///
    /// `AllocError` if memory is refused.
    pub fn add(&mut self, alloc: Global, begin: &Begin<'_>) -> Result<(), AllocError>
        requires { get nat_cmp self.old.runs begin.now.run ≡ None }
        ensures { OnOk result ((config : Configuration) → Follow config (content.Begin begin.now) self.old self.new) }
    {
        let run = Run::new(alloc, begin)?;
        self.runs.insert(begin.run, run)?;
        self.names.push(begin.run)?;
        Ok(())
    }

    /// Takes the number of a file of a run. Returns the files that are missing before it, if any are.
    pub fn take_file(&mut self, name: u64, file: u64) -> Option<Gap>
        ensures { StandAlike self.old self.new }
    {
        let run = self.runs.get_mut(&name)?;
        self.last = Some(name);
        run.files.take(file)
    }

    /// Takes the sum of a line that begins a file of a run, if there is such a run.
    pub fn begin(&mut self, name: u64, file: u64, sum: Option<LineSum>) -> Option<BegunChain>
        ensures { StandAlike self.old self.new }
    {
        let run = self.runs.get_mut(&name)?;
        self.last = Some(name);
        Some(run.begin(file, sum))
    }

    /// Takes the sum of a line of a run, if there is such a run.
    pub fn pass(&mut self, name: u64, sum: Option<LineSum>) -> Option<Passed>
        ensures { StandAlike self.old self.new }
    {
        let run = self.runs.get_mut(&name)?;
        self.last = Some(name);
        Some(run.pass(sum))
    }

    /// Takes a line that is left out, as one of the run that was last asked for. Returns the name of that, if there is one.
    pub fn hide(&mut self, hidden: &Hidden) -> Option<u64>
        ensures { StandAlike self.old self.new }
    {
        let name = self.last?;
        let run = self.runs.get_mut(&name)?;
        run.hide(hidden);
        Some(name)
    }

    /// Takes an entry.
    ///
    /// # Errors
    ///
    /// `AllocError` if memory is refused.
    pub fn take_entry(&mut self, judged: &JudgedEntry<'_>) -> Result<TakenEntry, AllocError>
        requires { IsJudged judged.now }
        ensures { OnOk result ((config : Configuration) → Follow config (content.Entry judged.now) self.old self.new) }
    {
        let name = judged.entry.about.run;
        let Some(run) = self.runs.get_mut(&name) else {
            return Ok(TakenEntry::Wrong(judge_stray(judged)));
        };
        self.last = Some(name);
        run.take_entry(judged)
    }

    /// Takes a request that was left, under the secret of its client. Returns what is wrong with it, if anything is.
    ///
    /// # Errors
    ///
    /// `AllocError` if memory is refused.
    pub fn take_left(
        &mut self,
        left: &Left<'_>,
        client: Option<&Secret>,
    ) -> Result<Option<Reason>, AllocError>
        ensures { OnOk result ((config : Configuration) → option_copied client.entry ≡ secret_at config left.now.about.client → Follow config (content.Left left.now) self.old self.new) }
    {
        let name = left.about.run;
        let Some(run) = self.runs.get_mut(&name) else {
            return Ok(Some(judge_stray_left(left, client)));
        };
        self.last = Some(name);
        run.take_left(left, client)
    }

    /// Takes a count of what became of a response. Returns what is wrong with it, if anything is.
    pub fn take_count(&mut self, count: &RecordCount<'_>) -> Option<Reason>
        ensures { (config : Configuration) → Follow config (content.Count count.now) self.old self.new }
    {
        let name = count.run;
        let Some(run) = self.runs.get_mut(&name) else {
            return Some(Reason::UnknownLane);
        };
        self.last = Some(name);
        run.take_count(count)
    }

    /// Takes a count of how often the response of an earlier run was sent again. Returns what is wrong with it, if anything is.
    pub fn take_earlier(&mut self, count: &AnswerCount<'_>) -> Option<Reason>
        ensures { (config : Configuration) → Follow config (content.AgainEarlier count.now) self.old self.new }
    {
        let name = count.run;
        let Some(run) = self.runs.get_mut(&name) else {
            return Some(Reason::UnknownLane);
        };
        self.last = Some(name);
        run.take_earlier(count)
    }

    /// Takes a request that a lane took over. Returns what is wrong with it, if anything is.
    pub fn take_resumed(&mut self, resumed: &Resumed<'_>) -> Option<Reason>
        ensures { (config : Configuration) → Follow config (content.Resumed resumed.now) self.old self.new }
    {
        let name = resumed.run;
        let Some(run) = self.runs.get_mut(&name) else {
            return Some(Reason::UnknownLane);
        };
        self.last = Some(name);
        run.take_resumed(resumed)
    }

    /// Takes that a line ends a run.
    pub fn end(&mut self, name: u64)
        ensures { StandAlike self.old self.new }
    {
        if let Some(run) = self.runs.get_mut(&name) {
            self.last = Some(name);
            run.ended = true;
        }
    }

    /// Takes what that line counts of a lane. Returns the gap behind the last entry of the lane, if there is one.
    ///
    /// # Errors
    ///
    /// `UnknownLane` if its run does not name it.
    pub fn end_lane(&mut self, name: u64, count: &LaneCount) -> Result<Option<Gap>, Reason>
        ensures { EndWith name (count.now ∷ []) self.old self.new }
    {
        let Some(run) = self.runs.get_mut(&name) else {
            return Err(Reason::UnknownLane);
        };
        self.last = Some(name);
        run.end_lane(count)
    }
}

impl Run {
    ghost use Rattle.std.specs.Prelude.{◌≡◌, ◌==◌, ℕ, IfOk, OnOk, option_copied};
    ghost use Rattle.std.specs.List.{position};
    ghost use Rattle.rad_config.specs.Configuration.{Configuration};
    ghost use Rattle.rad_audit.specs.Judging.{IsJudged};
    ghost use Rattle.rad_audit.specs.Lanes.{BeginsLane, LanesEnd, LanesFollow, secret_at, standing_in};
    ghost use Rattle.rad_audit.specs.declared.judging.Content.TheVariants as content;

    fn new(alloc: Global, begin: &Begin<'_>) -> Result<Run, AllocError>
        ensures { IfOk result (λ run. (number : ℕ) → BeginsLane number begin.now.lanes.items (standing_in number run.lanes.items)) }
    {
        Ok(Run {
            files: RunFiles::from(begin.file),
            before: before_of(alloc, begin)?,
            lanes: lanes_of(alloc, begin)?,
            chain: RunChain::new(),
            ended: false,
        })
    }

    /// Whether it should name a file of another run, if there is one, and does not.
    pub fn is_untied(&self) -> bool {
        self.before.is_none() && !self.files.begin_late()
    }

    /// Whether the lanes that a later file names are those of the run.
    pub fn goes_on(&self, starts: &[LaneStart<'_>]) -> bool {
        if starts.len() != self.lanes.len() {
            return false;
        }
        for place in 0..starts.len() {
            let (start, lane) = (&starts[place], &self.lanes[place]);
            if start.lane != lane.number || start.home != lane.home.as_str() {
                return false;
            }
        }
        true
    }

    /// Returns the lane of this number, if it has one.
    fn lane(&self, number: u16) -> Option<&Lane> {
        self.lanes.get(self.place_of(number)?)
    }

    fn begin(&mut self, file: u64, sum: Option<LineSum>) -> BegunChain
        ensures { self.new.lanes ≡ self.old.lanes }
    {
        let before = if self.chain.next() == file {
            self.chain.last()
        } else {
            None
        };
        BegunChain {
            is_right: self.chain.begin(file, sum),
            before,
        }
    }

    fn pass(&mut self, sum: Option<LineSum>) -> Passed
        ensures { self.new.lanes ≡ self.old.lanes }
    {
        Passed {
            is_right: self.chain.pass(sum),
            file: self.chain.file(),
            is_sealed: self.chain.is_sealed(),
        }
    }

    /// Counts a line that is left out for its lane, if its lane and its kind are told.
    fn hide(&mut self, hidden: &Hidden)
        ensures { (number : ℕ) → standing_in number self.new.lanes.items ≡ standing_in number self.old.lanes.items }
    {
        let (Some(number), Some(kind)) = (hidden.lane, hidden.kind) else {
            return;
        };
        if let Some(place) = self.place_of(number) {
            self.lanes[place].hidden.take(kind);
        }
    }

    /// Returns the place of the first lane of this number, if there is one.
    fn place_of(&self, number: u16) -> Option<usize>
        ensures { result ≡ position (λ l. l.number == number) self.now.lanes.items }
    {
        self.lanes.iter().position(|lane| lane.number == number)
    }

    fn take_entry(&mut self, judged: &JudgedEntry<'_>) -> Result<TakenEntry, AllocError>
        requires { IsJudged judged.now }
        ensures { OnOk result ((config : Configuration) → LanesFollow config judged.now.entry.about.run (content.Entry judged.now) self.old.lanes.items self.new.lanes.items) }
    {
        let about = &judged.entry.about;
        let Some(place) = self.place_of(about.lane) else {
            return Ok(TakenEntry::Wrong(judge_stray(judged)));
        };
        let lane = &mut self.lanes[place];
        if lane.home.as_str() != about.home {
            return Ok(TakenEntry::Wrong(judge_stray(judged)));
        }
        lane.take_entry(judged)
    }

    fn take_left(
        &mut self,
        left: &Left<'_>,
        client: Option<&Secret>,
    ) -> Result<Option<Reason>, AllocError>
        ensures { OnOk result ((config : Configuration) → option_copied client.entry ≡ secret_at config left.now.about.client → LanesFollow config left.now.about.run (content.Left left.now) self.old.lanes.items self.new.lanes.items) }
    {
        let Some(place) = self.place_of(left.about.lane) else {
            return Ok(Some(judge_stray_left(left, client)));
        };
        let lane = &mut self.lanes[place];
        if lane.home.as_str() != left.about.home {
            return Ok(Some(judge_stray_left(left, client)));
        }
        lane.take_left(left, client)
    }

    fn take_count(&mut self, count: &RecordCount<'_>) -> Option<Reason>
        ensures { (config : Configuration) → LanesFollow config count.now.run (content.Count count.now) self.old.lanes.items self.new.lanes.items }
    {
        let Some(place) = self.place_of(count.lane) else {
            return Some(Reason::UnknownLane);
        };
        let lane = &mut self.lanes[place];
        if lane.home.as_str() != count.home {
            return Some(Reason::UnknownLane);
        }
        lane.take_count(count)
    }

    fn take_earlier(&mut self, count: &AnswerCount<'_>) -> Option<Reason>
        ensures { (config : Configuration) → LanesFollow config count.now.run (content.AgainEarlier count.now) self.old.lanes.items self.new.lanes.items }
    {
        let Some(place) = self.place_of(count.lane) else {
            return Some(Reason::UnknownLane);
        };
        let lane = &mut self.lanes[place];
        if lane.home.as_str() != count.home {
            return Some(Reason::UnknownLane);
        }
        lane.take_earlier(count)
    }

    fn take_resumed(&mut self, resumed: &Resumed<'_>) -> Option<Reason>
        ensures { (config : Configuration) → LanesFollow config resumed.now.run (content.Resumed resumed.now) self.old.lanes.items self.new.lanes.items }
    {
        let Some(place) = self.place_of(resumed.lane) else {
            return Some(Reason::UnknownLane);
        };
        let lane = &mut self.lanes[place];
        if lane.home.as_str() != resumed.home {
            return Some(Reason::UnknownLane);
        }
        lane.take_resumed(resumed)
    }

    fn end_lane(&mut self, count: &LaneCount) -> Result<Option<Gap>, Reason>
        ensures { LanesEnd count.now self.old.lanes.items self.new.lanes.items }
    {
        let Some(place) = self.place_of(count.lane) else {
            return Err(Reason::UnknownLane);
        };
        Ok(self.lanes[place].end(count))
    }
}

fn before_of(alloc: Global, begin: &Begin<'_>) -> Result<Option<NamedFile>, AllocError> {
    match &begin.before {
        Some(before) => Ok(Some(NamedFile::new(alloc, before)?)),
        None => Ok(None),
    }
}

fn lanes_of(alloc: Global, begin: &Begin<'_>) -> Result<Vec<Lane>, AllocError>
    ensures { IfOk result (λ lanes. (number : ℕ) → BeginsLane number begin.now.lanes.items (standing_in number lanes.items)) }
{
    let mut lanes = Vec::with_capacity(alloc, begin.lanes.len())?;
    for start in begin.lanes.iter() {
        lanes.push(Lane::new(alloc, start)?)?;
    }
    Ok(lanes)
}
