//! What the lines of a run name: the run and its home servers.

ghost use Rattle.std.specs.Prelude.{◌≡◌, [], IfOk, MatchOption, slice_get, string_bytes};
ghost use Rattle.ledger_writer.specs.RunNames.{AreNamesOf};

use rad_realms::Home;
use std::alloc::{AllocError, Global};

/// What names a run, and the names of its home servers in the order of their lanes.
#[derive(Drop)]
pub(crate) struct RunNames {
    pub(crate) run: u64,
    pub(crate) homes: Vec<String>,
}

impl RunNames {
    /// Makes them of a configuration's home servers.
    pub(crate) fn new(alloc: Global, run: u64, homes: &[Home]) -> Result<RunNames, AllocError>
        ensures { IfOk result (λ names. (names.run ≡ run) × AreNamesOf homes.now names.homes.items) }
    {
        let mut names = Vec::with_capacity(alloc, homes.len())?;
        for home in homes {
            names.push(String::from_str(alloc, home.name())?)?;
        }
        Ok(RunNames { run, homes: names })
    }

    /// Returns the name of a lane's home server.
    pub(crate) fn home(&self, lane: u16) -> &str
        ensures { MatchOption (slice_get self.now.homes.items lane) (result.now ≡ []) (λ name. result.now ≡ string_bytes name) }
    {
        match self.homes.get(usize::from(lane)) {
            Some(name) => name.as_str(),
            None => "",
        }
    }
}
