//! The value of a sample. Times are in seconds.

ghost use Rattle.std.specs.Prelude.{◌≡◌};
ghost use Rattle.rad_metrics.specs.Values.{value_of_bool};

use std::fmt::{self, Display};

/// A value.
#[derive(Clone, Copy)]
pub enum Value {
    /// A count.
    Count(u64),
    /// A time in milliseconds.
    Milliseconds(u64),
    /// A time in microseconds.
    Microseconds(u64),
}

#[derive(Clone, Copy)]
struct Seconds(u64);

#[derive(Clone, Copy)]
struct Digits(u64);

impl Value {
    /// Returns 1 if `is_so`, and otherwise 0.
    pub fn of_bool(is_so: bool) -> Value
        ensures { result ≡ value_of_bool is_so }
    {
        if is_so {
            Value::Count(1)
        } else {
            Value::Count(0)
        }
    }
}

impl Display for Value {
    ghost use Rattle.std.specs.Prelude.{Some};
    ghost use Rattle.rad_metrics.specs.Values.{value_text};

    ghost output = { λ value. Some (value_text value) };

    fn fmt<W: fmt::Write>(&self, f: &mut fmt::Formatter<W>) -> fmt::Result {
        match *self {
            Value::Count(count) => count.fmt(f),
            Value::Milliseconds(milliseconds) => Seconds(milliseconds).fmt(f),
            Value::Microseconds(microseconds) => {
                let seconds = Seconds(microseconds / 1000);
                let rest = Digits(microseconds % 1000);
                write!(f, "{seconds}{rest}")
            }
        }
    }
}

impl Display for Seconds {
    ghost use Rattle.std.specs.Prelude.{Some};
    ghost use Rattle.rad_metrics.specs.Values.{seconds_text};

    ghost output = { λ seconds. Some (seconds_text seconds.0) };

    fn fmt<W: fmt::Write>(&self, f: &mut fmt::Formatter<W>) -> fmt::Result {
        let whole = self.0 / 1000;
        let rest = Digits(self.0 % 1000);
        write!(f, "{whole}.{rest}")
    }
}

impl Display for Digits {
    ghost use Rattle.std.specs.Prelude.{Some};
    ghost use Rattle.rad_metrics.specs.Values.{digits_text};

    ghost output = { λ digits. Some (digits_text digits.0) };

    fn fmt<W: fmt::Write>(&self, f: &mut fmt::Formatter<W>) -> fmt::Result {
        let hundreds = self.0 / 100;
        let tens = self.0 / 10 % 10;
        let ones = self.0 % 10;
        write!(f, "{hundreds}{tens}{ones}")
    }
}
