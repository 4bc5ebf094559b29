//! Why the ledger is not written.

ghost use Rattle.std.specs.Prelude.{◌≡◌, ◌<◌, Some};
ghost use Rattle.ledger_state.specs.Faults.{fault_number, fault_of_number, fault_step, number_of_code, number_of_system};
ghost use Rattle.std.specs.IoError.{raw_os_error};

use std::fmt::{self, Display};
use std::io::Error;

/// Why the ledger is not written. A step that the system refused has the system's error number, or 0 if it gave none.
#[derive(Clone, Copy, PartialEq, Eq)]
pub enum LedgerFault {
    /// The value of the variable is not UTF-8.
    NoText,
    /// Memory was refused.
    Memory,
    /// The file is no longer at its path.
    Gone,
    /// A file could not be made.
    Create(u32),
    /// Entries could not be written to a file.
    Write(u32),
    /// A file could not be synced.
    Sync(u32),
    /// An entry's head was handed over without its packets.
    Parted,
}

/// The number of values of a system's number.
const NUMBERS: u64 = 1 << 32;

impl LedgerFault {
    /// Returns the number that stands for the fault. It is not 0.
    pub(crate) fn number(self) -> u64
        ensures number { result ≡ fault_number self }
        ensures some { 0 < result }
        ensures back { fault_of_number result ≡ Some self }
    {
        match self {
            LedgerFault::NoText => NUMBERS,
            LedgerFault::Memory => 2 * NUMBERS,
            LedgerFault::Gone => 3 * NUMBERS,
            LedgerFault::Create(number) => 4 * NUMBERS + u64::from(number),
            LedgerFault::Write(number) => 5 * NUMBERS + u64::from(number),
            LedgerFault::Sync(number) => 6 * NUMBERS + u64::from(number),
            LedgerFault::Parted => 7 * NUMBERS,
        }
    }

    /// Returns the fault that a number stands for, if it stands for one.
    pub(crate) fn of_number(number: u64) -> Option<LedgerFault>
        ensures fault { result ≡ fault_of_number number }
    {
        let system = (number % NUMBERS) as u32;
        match number / NUMBERS {
            1 => Some(LedgerFault::NoText),
            2 => Some(LedgerFault::Memory),
            3 => Some(LedgerFault::Gone),
            4 => Some(LedgerFault::Create(system)),
            5 => Some(LedgerFault::Write(system)),
            6 => Some(LedgerFault::Sync(system)),
            7 => Some(LedgerFault::Parted),
            _ => None,
        }
    }

    /// Returns what was not possible.
    fn step(self) -> &'static str
        ensures { result.now ≡ fault_step self }
    {
        match self {
            LedgerFault::NoText => "RAD_PROXY_LEDGER is no text",
            LedgerFault::Memory => "no memory",
            LedgerFault::Gone => "the file is no longer there",
            LedgerFault::Create(_) => "can't make a file",
            LedgerFault::Write(_) => "can't write",
            LedgerFault::Sync(_) => "can't sync",
            LedgerFault::Parted => "an entry is without its packets",
        }
    }

    /// Returns the system's number, or 0 if it gave none.
    fn system(self) -> u32
        ensures { result ≡ number_of_system self }
    {
        match self {
            LedgerFault::Create(number) | LedgerFault::Write(number) | LedgerFault::Sync(number) =>
                number,
            _ => 0,
        }
    }
}

/// Returns the system's number of an error, or 0 if it has none.
pub fn system_number(error: &Error) -> u32
    ensures { result ≡ number_of_code (raw_os_error error.now) }
{
    match error.raw_os_error() {
        Some(number) => u32::try_from(number).unwrap_or(0),
        None => 0,
    }
}

impl Display for LedgerFault {
    ghost use Rattle.ledger_state.specs.Faults.{fault_text};

    ghost output = { λ fault. fault_text fault };

    fn fmt<W: fmt::Write>(&self, f: &mut fmt::Formatter<W>) -> fmt::Result {
        let step = self.step();
        let number = self.system();
        if number == 0 {
            return f.write_str(step);
        }
        match i32::try_from(number) {
            Ok(number) => {
                let error = Error::from_raw_os_error(number);
                write!(f, "{step}: {error}")
            }
            Err(_) => f.write_str(step),
        }
    }
}
