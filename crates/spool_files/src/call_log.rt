//! The calls that were made of a file. Only clauses see them.

ghost use Rattle.std.specs.Prelude.{◌≡◌, List, [], ◌∷◌};
ghost use Rattle.std.specs.Borrow.{ftrue};
ghost use Rattle.spool_files.specs.Calls.{Call, call_of};

use std::marker::Model;

/// The list of all calls of a file so far, the newest first. It takes no memory.
#[derive(Drop)]
pub struct CallLog {
    pub ghost calls: { List Call },
}

/// A call of a file, without its octets.
#[derive(Clone, Copy)]
pub(crate) enum CallHead {
    /// The file was made.
    Made,
    /// The file was found, with octets.
    Found,
    /// Octets were written at this place, and whether that was done.
    Wrote(usize, bool),
    /// What was written was to be kept, and whether that was done.
    Synced(bool),
}

impl Model for CallLog {
    ghost also_owns = { λ _. ftrue };
}

// It owns nothing.
unsafe impl Send for CallLog {}

impl CallLog {
    /// Makes an empty list.
    pub(crate) fn new() -> CallLog
        ensures { result.calls ≡ [] }
    {
        CallLog {}
    }

    /// Adds a call.
    pub(crate) fn add(&mut self, call: CallHead, octets: &[u8])
        ensures { self.new.calls ≡ call_of call octets.now ∷ self.old.calls }
    {
        *self = CallLog::with(self, &call, octets);
    }

    fn with(_before: &CallLog, _call: &CallHead, _octets: &[u8]) -> CallLog
        ensures { result.calls ≡ call_of _call.now _octets.now ∷ _before.now.calls }
    {
        CallLog {}
    }
}
