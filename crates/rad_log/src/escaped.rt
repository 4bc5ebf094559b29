//! Texts that may be anything, as a line of the log has them.

ghost use Rattle.std.specs.Prelude.{◌≡◌};
ghost use Rattle.rad_log.specs.Escaped.{is_plain};

use std::fmt;

/// The octets of a text. A visible ASCII character is printed as it is, apart from `%`, `"`, `=` and perhaps another one;
/// each other octet as `%` and two hexadecimal digits.
#[derive(Clone, Copy)]
pub struct Escaped<'a> {
    pub octets: &'a [u8],
    /// The character that is not printed as it is either.
    pub also: Option<u8>,
}

/// One of them.
#[derive(Clone, Copy)]
struct EscapedOctet {
    octet: u8,
    also: Option<u8>,
}

impl fmt::Display for Escaped<'_> {
    ghost use Rattle.std.specs.Prelude.{Some};
    ghost use Rattle.rad_log.specs.Escaped.{escaped};

    ghost output = { λ text. Some (escaped text.also text.octets.now) };

    fn fmt<W: fmt::Write>(&self, f: &mut fmt::Formatter<W>) -> fmt::Result {
        for octet in self.octets {
            let octet = EscapedOctet {
                octet: *octet,
                also: self.also,
            };
            write!(f, "{octet}")?;
        }
        Ok(())
    }
}

impl fmt::Display for EscapedOctet {
    ghost use Rattle.std.specs.Prelude.{Some};
    ghost use Rattle.rad_log.specs.Escaped.{octet_text};

    ghost output = { λ it. Some (octet_text it.also it.octet) };

    fn fmt<W: fmt::Write>(&self, f: &mut fmt::Formatter<W>) -> fmt::Result {
        let octet = self.octet;
        if is_printed(self.also, octet) {
            let plain = char::from(octet);
            return write!(f, "{plain}");
        }
        write!(f, "%{:x}{:x}", octet / 16, octet % 16)
    }
}

fn is_printed(also: Option<u8>, octet: u8) -> bool
    ensures { result ≡ is_plain also octet }
{
    let is_other = match also {
        Some(also) => octet != also,
        None => true,
    };
    octet.is_ascii_graphic() && octet != b'%' && octet != b'"' && octet != b'=' && is_other
}
