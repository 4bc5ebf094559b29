//! Why a spool is not there, or is not written.

ghost use Rattle.std.specs.Prelude.{◌≡◌, ◌<◌, Some};
ghost use Rattle.std.specs.IoError.{raw_os_error};
ghost use Rattle.spool_writer.specs.Faults.{fault_number, fault_of_number, fault_step, is_refusal, number_of_code, number_of_system};

use spool_files::{AppendError, DeviceFault, Step};
use std::fmt::{self, Display};
use std::io::Error;

/// Why a spool is not there, or is not written. A step that the system refused has the system's error number, or 0 if it
/// gave none.
#[derive(Clone, Copy, Debug, PartialEq, Eq)]
pub enum SpoolFault {
    /// The value of a variable is not UTF-8.
    NoText,
    /// The limit is no number.
    NoNumber,
    /// Memory was refused.
    Memory,
    /// The folder could not be made or looked at.
    Folder(u32),
    /// Others than its owner may use the folder.
    Others,
    /// The lock file could not be opened or locked.
    Lock(u32),
    /// Another process holds the lock.
    Held,
    /// A segment could not be read.
    Read(u32),
    /// A later program wrote a segment.
    Later,
    /// The segments have as many octets as they may.
    Limit,
    /// A segment could not be made.
    Create(u32),
    /// Entries could not be written.
    Write(u32),
    /// Entries could not be synced.
    Sync(u32),
}

/// The number of values of a system's number.
const NUMBERS: u64 = 1 << 32;

impl SpoolFault {
    /// Returns whether a program does not start for this fault: the folder is another process's, or others may use it. Where a
    /// spool can't be locked or read a program serves without it.
    pub fn is_refusal(self) -> bool
        ensures { result ≡ is_refusal self }
    {
        matches!(self, SpoolFault::Others | SpoolFault::Held)
    }

    /// Returns the number that stands for the fault. It is not 0.
    pub(crate) fn number(self) -> u64
        ensures number { result ≡ fault_number self }
        ensures some { 0 < result }
        ensures back { fault_of_number result ≡ Some self }
    {
        match self {
            SpoolFault::NoText => NUMBERS,
            SpoolFault::NoNumber => 2 * NUMBERS,
            SpoolFault::Memory => 3 * NUMBERS,
            SpoolFault::Folder(number) => 4 * NUMBERS + u64::from(number),
            SpoolFault::Others => 5 * NUMBERS,
            SpoolFault::Lock(number) => 6 * NUMBERS + u64::from(number),
            SpoolFault::Held => 7 * NUMBERS,
            SpoolFault::Read(number) => 8 * NUMBERS + u64::from(number),
            SpoolFault::Later => 9 * NUMBERS,
            SpoolFault::Limit => 10 * NUMBERS,
            SpoolFault::Create(number) => 11 * NUMBERS + u64::from(number),
            SpoolFault::Write(number) => 12 * NUMBERS + u64::from(number),
            SpoolFault::Sync(number) => 13 * NUMBERS + u64::from(number),
        }
    }

    /// Returns the fault that a number stands for, if it stands for one.
    pub(crate) fn of_number(number: u64) -> Option<SpoolFault>
        ensures fault { result ≡ fault_of_number number }
    {
        let system = (number % NUMBERS) as u32;
        match number / NUMBERS {
            1 => Some(SpoolFault::NoText),
            2 => Some(SpoolFault::NoNumber),
            3 => Some(SpoolFault::Memory),
            4 => Some(SpoolFault::Folder(system)),
            5 => Some(SpoolFault::Others),
            6 => Some(SpoolFault::Lock(system)),
            7 => Some(SpoolFault::Held),
            8 => Some(SpoolFault::Read(system)),
            9 => Some(SpoolFault::Later),
            10 => Some(SpoolFault::Limit),
            11 => Some(SpoolFault::Create(system)),
            12 => Some(SpoolFault::Write(system)),
            13 => Some(SpoolFault::Sync(system)),
            _ => None,
        }
    }

    /// Returns what was not possible.
    fn step(self) -> &'static str
        ensures { result.now ≡ fault_step self }
    {
        match self {
            SpoolFault::NoText => "a variable is no text",
            SpoolFault::NoNumber => "RAD_PROXY_SPOOL_LIMIT is no number",
            SpoolFault::Memory => "no memory",
            SpoolFault::Folder(_) => "can't make the folder",
            SpoolFault::Others => "others than its owner may use the folder",
            SpoolFault::Lock(_) => "can't lock",
            SpoolFault::Held => "another process holds the folder",
            SpoolFault::Read(_) => "can't read",
            SpoolFault::Later => "a later program wrote it",
            SpoolFault::Limit => "the limit is reached",
            SpoolFault::Create(_) => "can't make a file",
            SpoolFault::Write(_) => "can't write",
            SpoolFault::Sync(_) => "can't sync",
        }
    }

    /// Returns the system's number, or 0 if it gave none.
    fn system(self) -> u32
        ensures { result ≡ number_of_system self }
    {
        match self {
            SpoolFault::Folder(number)
            | SpoolFault::Lock(number)
            | SpoolFault::Read(number)
            | SpoolFault::Create(number)
            | SpoolFault::Write(number)
            | SpoolFault::Sync(number) => number,
            _ => 0,
        }
    }
}

/// Returns the system's number of an error, or 0 if it has none.
pub(crate) fn system_number(error: &Error) -> u32
    ensures { result ≡ number_of_code (raw_os_error error.now) }
{
    match error.raw_os_error() {
        Some(number) => u32::try_from(number).unwrap_or(0),
        None => 0,
    }
}

/// Returns the fault of a device.
pub(crate) fn device_fault(fault: DeviceFault) -> SpoolFault {
    match fault.step {
        Step::Write => SpoolFault::Write(fault.number),
        Step::Sync => SpoolFault::Sync(fault.number),
    }
}

/// Returns the fault of a batch that was not appended.
pub(crate) fn append_fault(error: AppendError) -> SpoolFault {
    match error {
        AppendError::Memory => SpoolFault::Memory,
        AppendError::Full => SpoolFault::Limit,
        AppendError::Failed(fault) => device_fault(fault),
    }
}

impl Display for SpoolFault {
    ghost use Rattle.spool_writer.specs.Faults.{fault_text};

    ghost output = { λ fault. fault_text fault };

    fn fmt<W: fmt::Write>(&self, f: &mut fmt::Formatter<W>) -> fmt::Result {
        let step = self.step();
        let number = self.system();
        if number == 0 {
            return f.write_str(step);
        }
        match i32::try_from(number) {
            Ok(number) => {
                let error = Error::from_raw_os_error(number);
                write!(f, "{step}: {error}")
            }
            Err(_) => f.write_str(step),
        }
    }
}
