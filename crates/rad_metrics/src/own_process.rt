//! What the system tells of the program's own process: its memory, its descriptors and its processor time.

use crate::system_files::{SystemFiles, text_of};

/// The file in which Linux tells, among others, how much memory of the program is not swapped out, in a line `VmRSS:` in
/// units of 1024 octets.
const STATUS: &str = "/proc/self/status";

/// The file in which Linux tells, in words behind the program's name in brackets, how much processor time it has used.
const TIMES: &str = "/proc/self/stat";

/// The places of the two times among the words behind the name: as itself, and in the system for it.
const TIME_PLACES: &[usize] = &[11, 12];

/// The number of milliseconds in a unit of these times.
const UNIT: u64 = 10;

/// What is known of the program's process at one moment. What the system does not tell is 0.
#[derive(Clone, Copy)]
pub struct ProcessReading {
    /// How many octets of its memory are not swapped out.
    pub resident: u64,
    /// How many file descriptors it has open.
    pub descriptors: u64,
    /// Its processor time, in milliseconds.
    pub cpu: u64,
}

/// Reads what the system tells of the program's process, by way of `room`.
pub(crate) fn read_process<S: SystemFiles>(system: &S, room: &mut Vec<u8>) -> ProcessReading {
    system.read(STATUS, room);
    let resident = resident_in(text_of(room)).unwrap_or(0);
    system.read(TIMES, room);
    let cpu = cpu_in(text_of(room)).unwrap_or(0);
    ProcessReading {
        resident,
        descriptors: system.count_descriptors(),
        cpu,
    }
}

/// Returns how many octets of memory the text of a status tells.
fn resident_in(status: &str) -> Option<u64> {
    for line in status.lines() {
        if let Some(size) = line.strip_prefix("VmRSS:") {
            let units = size.split_ascii_whitespace().next()?;
            return units.parse::<u64>().ok()?.checked_mul(1024);
        }
    }
    None
}

/// Returns how many milliseconds of processor time a text tells.
fn cpu_in(text: &str) -> Option<u64> {
    let (_, words) = text.rsplit_once(')')?;
    let mut sum = 0_u64;
    for place in TIME_PLACES {
        let word = words.split_ascii_whitespace().nth(*place)?;
        sum = sum.checked_add(word.parse::<u64>().ok()?)?;
    }
    sum.checked_mul(UNIT)
}
