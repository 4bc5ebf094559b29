//! The place where a text stops being TOML, and the error there.

use crate::place::TextPlace;
use std::fmt;

/// Why a text is not TOML, and where. It is printed as `line 3, column 10: invalid string`.
#[derive(Drop)]
pub struct SyntaxError {
    /// The place where the text stops being TOML. If the text is not UTF-8, it is the place of the first octet that is
    /// not.
    pub(crate) place: TextPlace,
    /// The error, or what was expected there: one line without quotation marks. The words are those of the TOML reader,
    /// or `no UTF-8`.
    pub(crate) message: String,
}

impl fmt::Display for SyntaxError {
    ghost use Rattle.std.specs.Prelude.{Some};
    ghost use Rattle.rad_advice.specs.Printed.{syntax_text};

    ghost output = { λ fault. Some (syntax_text fault) };

    fn fmt<W: fmt::Write>(&self, f: &mut fmt::Formatter<W>) -> fmt::Result {
        let place = self.place;
        let message = self.message.as_str();
        write!(f, "{place}: {message}")
    }
}
