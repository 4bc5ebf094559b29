//! Moments, and the wait after a sending.

ghost use Rattle.std.specs.Prelude.{◌≡◌, ◌<◌, ◌≤◌, ◌^◌, SomeIff};
ghost use Rattle.rad_tables.specs.Waiting.{wait_of};

use std::marker::Model;

/// The longest wait, in milliseconds: two minutes.
const LONGEST_WAIT: u32 = 120_000;

/// A moment, in milliseconds since a moment that the caller chose.
///
/// It is below 2^62, so that a wait can be added to it.
#[derive(Clone, Copy, Debug, PartialEq, Eq, PartialOrd, Ord)]
pub struct Moment {
    /// The milliseconds since the moment that the caller chose.
    milliseconds: u64,
}

impl Model for Moment {
    ghost use Rattle.std.specs.Prelude.{ℕ, ◌<◌, ◌^◌};

    ghost Value = { ℕ };

    ghost view = { λ m. m.milliseconds };

    ghost invariant = { λ m. m.milliseconds < 2 ^ 62 };

    ghost inverse = { λ n. record { milliseconds = n } };
}

impl Moment {
    /// Returns the moment of a number of milliseconds, if that is below 2^62.
    pub fn new(milliseconds: u64) -> Option<Moment>
        ensures { SomeIff result (milliseconds < 2 ^ 62) milliseconds }
    {
        if milliseconds < 1 << 62 {
            Some(Moment { milliseconds })
        } else {
            None
        }
    }

    /// Returns the moment in milliseconds.
    pub fn get(self) -> u64
        ensures value { result ≡ self }
        ensures small { result < 2 ^ 62 }
    {
        self.milliseconds
    }
}

/// Returns how many milliseconds to wait for an answer after sending number `k` of a round, counted from 1. `first`
/// is the wait after the first sending. The wait doubles with each sending, up to two minutes.
pub fn wait_after(first: u32, k: u32) -> u32
    requires first_least { 100 ≤ first }
    requires first_most { first ≤ 60000 }
    requires k_least { 1 ≤ k }
    requires k_most { k ≤ 10 }
    ensures { result ≡ wait_of first k }
{
    let doubled = first * 2_u32.pow(k - 1);
    doubled.min(LONGEST_WAIT)
}
