//! The limits of a lane. Each number has a range.

ghost use Rattle.std.specs.Prelude.{◌≡◌, ◌≤◌, ◌&&◌, nat_le, if◌then◌else◌, Ok, Err, OnOk};

use std::fmt;
use std::marker::Model;

/// The defaults.
pub const DEFAULT_LIMITS: LimitNumbers = LimitNumbers {
    window: 64,
    queue: 4096,
    book: 100_000,
    tries: 3,
    first_wait: 2000,
    probe_every: 10_000,
    down_wait: 60_000,
    span: 30_000,
    ring: 256,
    ports: 1,
};

/// The numbers of a lane, from a home server's table in the configuration. Times are in milliseconds.
#[derive(Clone, Copy, Debug, PartialEq, Eq)]
pub struct LimitNumbers {
    /// The most requests that may be outstanding, 1 to `256 * ports - 2`.
    pub window: u32,
    /// The most requests that may wait to be sent, 1 to 65,536.
    pub queue: u32,
    /// The most requests that the book may hold, 1 to 1,000,000.
    pub book: u32,
    /// The most sendings of a request in a round, before its home server is marked down, 1 to 10.
    pub tries: u32,
    /// The wait after the first sending, 100 to 60,000 ms.
    pub first_wait: u32,
    /// The time between two probes of a home server that is marked down, 1000 to 600,000 ms.
    pub probe_every: u32,
    /// The longest time for which a home server stays marked down, 1000 to 3,600,000 ms.
    pub down_wait: u32,
    /// The time after an answer during which a repeat is answered again, 0 to 600,000 ms.
    pub span: u32,
    /// The most responses that may wait in the ring, 1 to 4096.
    pub ring: u32,
    /// The source ports that requests are sent from, 1 to 4.
    pub ports: u32,
}

/// Which number is out of its range. The first one in this order is reported. It is printed as its name here.
#[derive(Clone, Copy, Debug, PartialEq, Eq)]
pub enum LimitFault {
    /// `ports`.
    Ports,
    /// `window`.
    Window,
    /// `queue`.
    Queue,
    /// `book`.
    Book,
    /// `tries`.
    Tries,
    /// `first_wait`.
    FirstWait,
    /// `probe_every`.
    ProbeEvery,
    /// `down_wait`.
    DownWait,
    /// `span`.
    Span,
    /// `ring`.
    Ring,
}

impl fmt::Display for LimitFault {
    ghost use Rattle.std.specs.Prelude.{Some};
    ghost use Rattle.rad_config.specs.Printed.{limit_text};

    ghost output = { λ fault. Some (limit_text fault) };

    fn fmt<W: fmt::Write>(&self, f: &mut fmt::Formatter<W>) -> fmt::Result {
        f.write_str(match self {
            LimitFault::Ports => "Ports",
            LimitFault::Window => "Window",
            LimitFault::Queue => "Queue",
            LimitFault::Book => "Book",
            LimitFault::Tries => "Tries",
            LimitFault::FirstWait => "FirstWait",
            LimitFault::ProbeEvery => "ProbeEvery",
            LimitFault::DownWait => "DownWait",
            LimitFault::Span => "Span",
            LimitFault::Ring => "Ring",
        })
    }
}

/// The numbers of a lane, each within its range.
#[derive(Clone, Copy, Debug, PartialEq, Eq)]
pub struct Limits {
    numbers: LimitNumbers,
}

impl Model for Limits {
    ghost use Rattle.rad_config.specs.declared.limits.LimitNumbers.{LimitNumbers};
    ghost use Rattle.rad_config.specs.Limits.{AreInRange};

    ghost Value = { LimitNumbers };

    ghost view = { λ l. l.numbers };

    ghost invariant = { λ l. AreInRange l.numbers };

    ghost inverse = { λ n. record { numbers = n } };
}

impl Limits {
    ghost use Rattle.std.specs.Prelude.{◌≡◌, IfOk};
    ghost use Rattle.std.specs.Result.{result_err};
    ghost use Rattle.rad_config.specs.Limits.{AreInRange, limits_of, first_fault};

    /// Makes limits of numbers that are within their ranges.
    ///
    /// # Errors
    ///
    /// The first number that is out of its range, in the order of [`LimitFault`].
    pub fn new(numbers: LimitNumbers) -> Result<Limits, LimitFault>
        ensures kept { IfOk result (λ limits. limits ≡ numbers) }
        ensures fault { result_err result ≡ first_fault (limits_of numbers) }
    {
        within(numbers.ports, 1, 4, LimitFault::Ports)?;
        let widest = 256 * numbers.ports - 2;
        within(numbers.window, 1, widest, LimitFault::Window)?;
        within(numbers.queue, 1, 65_536, LimitFault::Queue)?;
        within(numbers.book, 1, 1_000_000, LimitFault::Book)?;
        within(numbers.tries, 1, 10, LimitFault::Tries)?;
        within(numbers.first_wait, 100, 60_000, LimitFault::FirstWait)?;
        within(numbers.probe_every, 1000, 600_000, LimitFault::ProbeEvery)?;
        within(numbers.down_wait, 1000, 3_600_000, LimitFault::DownWait)?;
        within(numbers.span, 0, 600_000, LimitFault::Span)?;
        within(numbers.ring, 1, 4096, LimitFault::Ring)?;
        Ok(Limits { numbers })
    }

    /// Returns the numbers.
    pub fn numbers(&self) -> LimitNumbers
        ensures value { result ≡ self.now }
        ensures in_range { AreInRange self.now }
    {
        self.numbers
    }
}

fn within(number: u32, least: u32, most: u32, fault: LimitFault) -> Result<(), LimitFault>
    ensures value { result ≡ (if nat_le least number && nat_le number most then Ok tt else Err fault) }
    ensures kept { OnOk result ((least ≤ number) × (number ≤ most)) }
{
    if least <= number && number <= most {
        Ok(())
    } else {
        Err(fault)
    }
}
