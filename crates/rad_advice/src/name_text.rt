//! Printing names that come from a file.

ghost use Rattle.std.specs.Prelude.{◌≡◌, ◌≤◌, length, take};

use rad_log::Escaped;
use std::fmt;

/// The most octets of a name that are printed.
const MOST_OCTETS: usize = 64;

/// A name, printed as in a line of the log. A name of more than 64 octets is cut after 64, and `..` follows.
#[derive(Clone, Copy)]
pub(crate) struct NameText<'a>(pub &'a str);

impl fmt::Display for NameText<'_> {
    ghost use Rattle.std.specs.Prelude.{Some};
    ghost use Rattle.rad_advice.specs.Printed.{name_text};

    ghost output = { λ name. Some (name_text name.0.now) };

    fn fmt<W: fmt::Write>(&self, f: &mut fmt::Formatter<W>) -> fmt::Result {
        let octets = self.0.as_bytes();
        if octets.len() <= MOST_OCTETS {
            let whole = Escaped { octets, also: None };
            return write!(f, "{whole}");
        }
        let front = Escaped {
            octets: front_of(octets),
            also: None,
        };
        write!(f, "{front}..")
    }
}

/// For the proof: returns the octets of a long name that are printed.
fn front_of(octets: &[u8]) -> &[u8]
    requires { 64 ≤ length octets.now }
    ensures { result.now ≡ take 64 octets.now }
{
    &octets[..MOST_OCTETS]
}
