//! What waits in a spool by a configuration. Its lock is not taken and nothing is changed, so a run may be writing it.

use crate::disk::SpoolDisk;
use crate::fault::{SpoolFault, system_number};
use crate::log_lines::{WaitingLine, log_damage, log_spool_fault, log_unfit};
use crate::offers::Unfit;
use crate::wall_clock::time_since_1970;
use rad_log::{Level, Log, tell};
use rad_realms::{Config, Incoming, check_in};
use spool_files::{Counted, Fault, FaultKind, OpenRequest, SegmentRead, read_segment};
use std::alloc::{AllocError, Global};
use std::io::ErrorKind;
use std::time::Clock;

/// How often the segments are listed, where one of them is removed meanwhile.
const TRIES: usize = 5;

/// What was found.
#[derive(Drop)]
struct Survey {
    /// The requests of each lane that wait.
    lanes: Vec<LaneSurvey>,
    /// The requests that no longer pass the checks.
    unfit: Vec<Unfit>,
    /// What is wrong with the segments.
    faults: Vec<Fault>,
}

/// The requests of a lane that wait.
#[derive(Clone, Copy)]
struct LaneSurvey {
    count: u64,
    /// When the oldest came in, in milliseconds since 1970.
    oldest: u64,
}

/// Logs what waits in the spool of a folder: how many requests of each home server of which some do, and those that no longer
/// pass the checks of a configuration. If a segment can't be read, it logs that instead. A folder that is not there has none.
///
/// # Errors
///
/// `AllocError` if memory is refused.
pub fn log_waiting<R: Clock, D: SpoolDisk, L: Log>(
    clock: &R,
    alloc: Global,
    disk: &D,
    folder: &str,
    config: &Config,
    log: &L,
) -> Result<(), AllocError> {
    match survey_folder(alloc, disk, folder, config) {
        Ok(found) => {
            let now = time_since_1970(clock).unwrap_or(0);
            found.log(config, now, log);
            Ok(())
        }
        Err(SpoolFault::Memory) => Err(AllocError),
        Err(fault) => {
            log_spool_fault(log, fault);
            Ok(())
        }
    }
}

fn survey_folder<D: SpoolDisk>(
    alloc: Global,
    disk: &D,
    folder: &str,
    config: &Config,
) -> Result<Survey, SpoolFault> {
    for _ in 0..TRIES {
        if let Some(found) = read_listed(alloc, disk, folder, config)? {
            return Ok(found);
        }
    }
    Err(SpoolFault::Read(0))
}

/// Reads the segments that are there, the newest first and one at a time. Returns none if one is removed before it is read:
/// what was open in it stands in a newer one.
fn read_listed<D: SpoolDisk>(
    alloc: Global,
    disk: &D,
    folder: &str,
    config: &Config,
) -> Result<Option<Survey>, SpoolFault> {
    let Ok(mut found) = Survey::new(alloc, config.homes().len()) else {
        return Err(SpoolFault::Memory);
    };
    let numbers = match disk.numbers(alloc, folder) {
        Ok(numbers) => numbers,
        Err(error) => {
            return if error.kind() == ErrorKind::NotFound {
                Ok(Some(found))
            } else {
                Err(SpoolFault::Read(system_number(&error)))
            };
        }
    };
    let mut counted = Counted::new(alloc);
    for (place, number) in numbers.iter().rev().enumerate() {
        let Some(octets) = read_octets(alloc, disk, folder, *number)? else {
            return Ok(None);
        };
        let Ok(read) = read_segment(alloc, *number, &octets) else {
            return Err(SpoolFault::Memory);
        };
        if is_later(&read) {
            return Err(SpoolFault::Later);
        }
        if found
            .take_segment(alloc, config, &mut counted, &read, place == 0)
            .is_err()
        {
            return Err(SpoolFault::Memory);
        }
    }
    found.turn_round();
    Ok(Some(found))
}

/// Returns the octets of a segment, unless it was removed.
fn read_octets<D: SpoolDisk>(
    alloc: Global,
    disk: &D,
    folder: &str,
    number: u64,
) -> Result<Option<Vec<u8>>, SpoolFault> {
    match disk.find(alloc, folder, number) {
        Ok(found) => {
            let (_file, octets) = found;
            Ok(Some(octets))
        }
        Err(error) => {
            if error.kind() == ErrorKind::NotFound {
                Ok(None)
            } else {
                Err(SpoolFault::Read(system_number(&error)))
            }
        }
    }
}

/// Returns whether a later program wrote a segment.
fn is_later(read: &SegmentRead<'_>) -> bool {
    read.faults
        .iter()
        .any(|fault| fault.kind == FaultKind::LaterVersion)
}

impl Survey {
    /// Makes that of so many lanes, in which nothing was found yet.
    fn new(alloc: Global, lanes: usize) -> Result<Survey, AllocError> {
        let mut none = Vec::with_capacity(alloc, lanes)?;
        for _ in 0..lanes {
            none.push(LaneSurvey {
                count: 0,
                oldest: u64::MAX,
            })?;
        }
        Ok(Survey {
            lanes: none,
            unfit: Vec::new(alloc),
            faults: Vec::new(alloc),
        })
    }

    /// Takes what is open in the next older segment. A run may be appending to the newest, so a batch that is not whole at its
    /// end is nothing wrong.
    fn take_segment(
        &mut self,
        alloc: Global,
        config: &Config,
        counted: &mut Counted,
        read: &SegmentRead<'_>,
        is_newest: bool,
    ) -> Result<(), AllocError> {
        for entry in read.entries.iter().rev() {
            let (head, text) = *entry;
            counted.count(alloc, u64::MAX, 0, &head, text)?;
        }
        for request in &counted.requests {
            self.take(config, request)?;
        }
        counted.let_go();
        for fault in read.faults.iter().rev() {
            if !is_newest || fault.kind != FaultKind::CutShort {
                self.faults.push(*fault)?;
            }
        }
        Ok(())
    }

    /// Takes a request that is open.
    fn take(&mut self, config: &Config, request: &OpenRequest) -> Result<(), AllocError> {
        let came = request.came;
        let reason = match check_in(config, came.key.client, came.key.port, &request.octets) {
            Ok(Incoming::Request(request)) => {
                self.wait(usize::from(request.lane()), came.moment);
                return Ok(());
            }
            Ok(Incoming::Status(_)) => None,
            Err(reason) => Some(reason),
        };
        Ok(self.unfit.push(Unfit { came, reason })?)
    }

    /// Counts a request of a lane that waits.
    fn wait(&mut self, lane: usize, moment: u64) {
        if let Some(lane) = self.lanes.get_mut(lane) {
            lane.count = lane.count.saturating_add(1);
            lane.oldest = lane.oldest.min(moment);
        }
    }

    /// Puts all in its order, once the oldest segment was read.
    fn turn_round(&mut self) {
        self.faults.reverse();
        self.unfit
            .as_mut_slice()
            .sort_unstable_by_key(|request| request.came.arrival);
    }

    /// Logs what was found, at this moment in milliseconds since 1970.
    fn log<L: Log>(&self, config: &Config, now: u64, log: &L) {
        log_damage(log, &self.faults);
        for (home, lane) in config.homes().iter().zip(self.lanes.iter()) {
            if lane.count != 0 {
                let line = WaitingLine {
                    home: home.name(),
                    count: lane.count,
                    seconds: now.saturating_sub(lane.oldest) / 1000,
                };
                tell(log, Level::Info, &line);
            }
        }
        log_unfit(log, &self.unfit);
    }
}
