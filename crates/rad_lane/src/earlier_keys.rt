ghost use Rattle.std.specs.Prelude.{◌≡◌, nat_le};
ghost use Rattle.std.specs.Bool.{OnTrue};
ghost use Rattle.std.specs.FinMap as map;
ghost use Rattle.rad_lane.specs.internal.Keys.{IsBelow, number_since, option_or};

use rad_tables::{Duplicates, Key};
use std::alloc::Global;

/// The last numbers of keys, as they were before the recent requests. None is removed: a number below the book's
/// opening counts as none, and all of them are dropped once all are below it.
#[derive(Drop)]
pub(crate) struct EarlierKeys {
    pub(crate) numbers: Duplicates,
    /// A number above all of these.
    pub(crate) end: u64,
    ghost below: { IsBelow end numbers },
}

impl EarlierKeys {
    /// Makes a table without keys. It takes no memory.
    pub(crate) fn new(alloc: Global) -> EarlierKeys
        ensures numbers { result.numbers ≡ map.empty }
        ensures end { result.end ≡ 0 }
    {
        EarlierKeys {
            numbers: Duplicates::new(alloc),
            end: 0,
        }
    }

    /// Makes the table of these numbers, all of which are below `end`.
    pub(crate) fn over(numbers: Duplicates, end: u64) -> EarlierKeys
        requires { IsBelow end numbers }
        ensures numbers { result.numbers ≡ numbers }
        ensures end { result.end ≡ end }
    {
        EarlierKeys { numbers, end }
    }

    /// Returns whether all numbers are known to be below a number.
    pub(crate) fn is_below(&self, number: u64) -> bool
        ensures value { result ≡ nat_le self.now.end number }
        ensures below { OnTrue result (IsBelow number self.now.numbers) }
    {
        self.end <= number
    }

    /// Returns the last number of a key, if it is not below the opening. A recent number counts before the earlier one.
    pub(crate) fn last_number(&self, opening: u64, recent: Option<u64>, key: &Key) -> Option<u64>
        ensures { result ≡ number_since opening (option_or recent (map.get self.now.numbers key.now)) }
    {
        let number = match recent {
            Some(number) => number,
            None => self.numbers.find(key)?,
        };
        if number < opening {
            return None;
        }
        Some(number)
    }
}
