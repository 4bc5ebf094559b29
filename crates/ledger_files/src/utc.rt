//! Moments as a ledger has them: RFC 3339, in UTC, with milliseconds.

ghost use Rattle.std.specs.Prelude.{◌≡◌, ◌/◌, ◌^◌, ◌<◌, Some};
ghost use Rattle.ledger_files.specs.Calendar.{IsDateOf};
ghost use Rattle.ledger_files.specs.Moments.{IsTimeOf, date_text, day_time_text, moment_text};

use std::fmt;

/// How many milliseconds a day has.
const DAY: u64 = 86_400_000;

/// How many days there are from 0000-03-01 to 1970-01-01.
const DAYS_TO_1970: u64 = 719_468;

/// How many days 400 years have: after so many days the calendar is the same again.
const CYCLE: u64 = 146_097;

/// How many days 100 years have that begin on March 1 and do not end with the leap day of a fourth century.
const CENTURY: u64 = 36_524;

/// How many days four years have, the last of which has a leap day.
const FOUR_YEARS: u64 = 1461;

/// How many days a year has without a leap day.
const YEAR: u64 = 365;

/// A day of the calendar.
#[derive(Clone, Copy, Debug, PartialEq, Eq)]
pub struct Date {
    pub year: u64,
    /// From 1 to 12.
    pub month: u64,
    /// From 1 on.
    pub day: u64,
}

/// A time of a day.
#[derive(Clone, Copy, Debug, PartialEq, Eq)]
pub struct DayTime {
    pub hour: u64,
    pub minute: u64,
    pub second: u64,
    pub millisecond: u64,
}

/// A moment in UTC. It is printed as RFC 3339 has it, with three digits for the milliseconds.
#[derive(Clone, Copy, Debug, PartialEq, Eq)]
pub struct UtcTime {
    pub date: Date,
    pub time: DayTime,
}

/// Returns the number of the day of a moment in milliseconds since 1970, counted from 1970-01-01. A day begins at
/// midnight UTC.
pub fn day_of(milliseconds: u64) -> u64
    ensures { result ≡ milliseconds / 86400000 }
{
    milliseconds / DAY
}

/// Returns the day of the calendar that is so many days after 1970-01-01. It counts in years that begin on March 1, so
/// that a leap day is the last day of its year.
pub fn date_of(days: u64) -> Date
    requires { days < 2 ^ 62 }
    ensures { IsDateOf days result }
{
    let shifted = days + DAYS_TO_1970;
    let cycle = shifted / CYCLE;
    let in_cycle = shifted % CYCLE;
    let century = (in_cycle / CENTURY).min(3);
    let in_century = in_cycle - century * CENTURY;
    let four = in_century / FOUR_YEARS;
    let in_four = in_century % FOUR_YEARS;
    let year = (in_four / YEAR).min(3);
    let rest = in_four - year * YEAR;
    let from_march = 400 * cycle + 100 * century + 4 * four + year;
    let place = (5 * rest + 2) / 153;
    let day = rest - (153 * place + 2) / 5 + 1;
    if place < 10 {
        Date {
            year: from_march,
            month: place + 3,
            day,
        }
    } else {
        Date {
            year: from_march + 1,
            month: place - 9,
            day,
        }
    }
}

impl UtcTime {
    /// Returns a moment that is so many milliseconds after 1970-01-01T00:00:00Z.
    pub fn of(milliseconds: u64) -> UtcTime
        ensures { IsTimeOf milliseconds result }
    {
        let passed = milliseconds % DAY;
        UtcTime {
            date: date_of(day_of(milliseconds)),
            time: DayTime {
                hour: passed / 3_600_000,
                minute: passed / 60_000 % 60,
                second: passed / 1000 % 60,
                millisecond: passed % 1000,
            },
        }
    }
}

impl fmt::Display for Date {
    ghost output = { λ date. Some (date_text date) };

    fn fmt<W: fmt::Write>(&self, f: &mut fmt::Formatter<W>) -> fmt::Result {
        let Date { year, month, day } = *self;
        write!(f, "{year:04}-{month:02}-{day:02}")
    }
}

impl fmt::Display for DayTime {
    ghost output = { λ time. Some (day_time_text time) };

    fn fmt<W: fmt::Write>(&self, f: &mut fmt::Formatter<W>) -> fmt::Result {
        let DayTime {
            hour,
            minute,
            second,
            millisecond,
        } = *self;
        write!(f, "{hour:02}:{minute:02}:{second:02}.{millisecond:03}")
    }
}

impl fmt::Display for UtcTime {
    ghost output = { λ moment. Some (moment_text moment) };

    fn fmt<W: fmt::Write>(&self, f: &mut fmt::Formatter<W>) -> fmt::Result {
        let UtcTime { date, time } = *self;
        write!(f, "{date}T{time}Z")
    }
}
