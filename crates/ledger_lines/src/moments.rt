//! The numbers in a moment.

ghost use Rattle.std.specs.Prelude.{◌≡◌, ◌↔◌, ◌≤◌, IsTrue};
ghost use Rattle.ledger_lines.specs.Moments.{IsDate, IsMoment, days_of as the_days, digit_at as the_digit, is_leap as the_leap, moment_of as the_moment, two_at as the_two, year_of as the_year};

/// Returns the digits of a moment of the form `2026-01-31T23:59:59.999Z` as one number: it is less if the moment is
/// earlier.
pub fn moment_of(time: &str) -> u64
    ensures { result ≡ the_moment time.now }
{
    let octets = time.as_bytes();
    let day = (year_of(octets) * 100 + two_at(octets, 5)) * 100 + two_at(octets, 8);
    let minute = (day * 100 + two_at(octets, 11)) * 100 + two_at(octets, 14);
    let second = minute * 100 + two_at(octets, 17);
    (second * 100 + two_at(octets, 20)) * 10 + digit_at(octets, 22)
}

/// Whether a moment of that form exists: its date, and its time of a day.
pub(crate) fn is_moment(octets: &[u8]) -> bool
    ensures { IsTrue result ↔ IsMoment octets.now }
{
    is_date(year_of(octets), two_at(octets, 5), two_at(octets, 8))
        && two_at(octets, 11) < 24
        && two_at(octets, 14) < 60
        && two_at(octets, 17) < 60
}

fn is_date(year: u64, month: u64, day: u64) -> bool
    ensures { IsTrue result ↔ IsDate year month day }
{
    1 <= month && month <= 12 && 1 <= day && day <= days_of(year, month)
}

fn days_of(year: u64, month: u64) -> u64
    ensures { result ≡ the_days year month }
{
    match month {
        2 if is_leap(year) => 29,
        2 => 28,
        4 | 6 | 9 | 11 => 30,
        _ => 31,
    }
}

fn is_leap(year: u64) -> bool
    ensures { result ≡ the_leap year }
{
    year % 4 == 0 && (year % 100 != 0 || year % 400 == 0)
}

fn year_of(octets: &[u8]) -> u64
    ensures year { result ≡ the_year octets.now }
    ensures most { result ≤ 283305 }
{
    100 * two_at(octets, 0) + two_at(octets, 2)
}

/// Returns the number that two digits are, from a place on.
fn two_at(octets: &[u8], place: usize) -> u64
    requires { place ≤ 22 }
    ensures number { result ≡ the_two octets.now place }
    ensures most { result ≤ 2805 }
{
    10 * digit_at(octets, place) + digit_at(octets, place + 1)
}

fn digit_at(octets: &[u8], place: usize) -> u64
    ensures digit { result ≡ the_digit octets.now place }
    ensures most { result ≤ 255 }
{
    match octets.get(place) {
        Some(octet) => u64::from(octet.saturating_sub(b'0')),
        None => 0,
    }
}
