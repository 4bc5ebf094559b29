//! A file as a device: what its calls tell of it.

ghost use Rattle.std.specs.Prelude.{◌≡◌, length};
ghost use Rattle.spool_files.specs.Calls.{octets_after, MayLeave, MayHaveLeft, failed_in, left_now, now_alone};

use crate::call_log::{CallHead, CallLog};
use crate::device::{Device, DeviceFault};

/// The calls that a file has. Nothing is proved of them: see [`LoggedFile`].
pub trait FileCalls {
    /// Writes octets at a place, all of them.
    ///
    /// # Errors
    ///
    /// If the system refuses it.
    fn write_at(&mut self, at: usize, octets: &[u8]) -> Result<(), DeviceFault>;

    /// Has the system keep what was written.
    ///
    /// # Errors
    ///
    /// If the system refuses it.
    fn sync(&mut self) -> Result<(), DeviceFault>;
}

/// A file and the list of its calls, by which contracts see what it has and what a crash may leave. That a file of a
/// system does what its calls say is not proved.
#[derive(Drop)]
pub struct LoggedFile<C: FileCalls> {
    calls: C,
    log: CallLog,
}

impl<C: FileCalls> LoggedFile<C> {
    ghost use Rattle.std.specs.Prelude.{[], ◌∷◌};
    ghost use Rattle.spool_files.specs.Calls.{Made, Found};
    ghost use Rattle.spool_files.specs.Logged.{log_of};

    /// Takes a file that was just made, is empty, and is kept in its folder.
    pub fn made(calls: C) -> LoggedFile<C>
        ensures { log_of result ≡ Made ∷ [] }
    {
        let mut log = CallLog::new();
        log.add(CallHead::Made, &[]);
        LoggedFile { calls, log }
    }

    /// Takes a file that was found with these octets.
    pub fn found(calls: C, octets: &[u8]) -> LoggedFile<C>
        ensures { log_of result ≡ Found octets.now ∷ [] }
    {
        let mut log = CallLog::new();
        log.add(CallHead::Found, octets);
        LoggedFile { calls, log }
    }

    /// Returns the file.
    pub fn file(&self) -> &C {
        &self.calls
    }
}

impl<C: FileCalls> Device for LoggedFile<C> {
    ghost seen = { λ f. octets_after f.log.calls };

    ghost may_leave = { λ f. MayLeave f.log.calls };

    ghost moment = { λ f. length f.log.calls };

    ghost left_since = { λ f. MayHaveLeft f.log.calls };

    ghost faults = { λ f. failed_in f.log.calls };

    ghost counts_now = { λ f t c le now. left_now f.log.calls t c le now };

    ghost only_now = { λ f c left. now_alone f.log.calls c left };

    fn write_at(&mut self, at: usize, octets: &[u8]) -> Result<(), DeviceFault> {
        let result = self.calls.write_at(at, octets);
        self.log.add(CallHead::Wrote(at, result.is_ok()), octets);
        result
    }

    fn sync(&mut self) -> Result<(), DeviceFault> {
        let result = self.calls.sync();
        self.log.add(CallHead::Synced(result.is_ok()), &[]);
        result
    }
}
