//! A file's name as it is printed.

use rad_log::Escaped;
use std::alloc::{AllocError, Global};
use std::fmt;

/// The name of a file. It is printed on one line: each octet of a control character, such as a line end, is printed as
/// `%` and two hexadecimal digits, and all else unchanged.
#[derive(Debug, Drop)]
pub struct FileName(String);

impl FileName {
    /// Makes the name of the file of this path.
    ///
    /// # Errors
    ///
    /// `AllocError` if memory is refused.
    pub fn new(alloc: Global, path: &str) -> Result<FileName, AllocError> {
        Ok(FileName(String::from_str(alloc, path)?))
    }

    /// Returns the path, as it was given.
    pub fn as_str(&self) -> &str {
        self.0.as_str()
    }
}

impl fmt::Display for FileName {
    fn fmt<W: fmt::Write>(&self, f: &mut fmt::Formatter<W>) -> fmt::Result {
        for character in self.0.chars() {
            if character.is_control() {
                let mut room = [0; 4];
                let octets = Escaped {
                    octets: character.encode_utf8(&mut room).as_bytes(),
                    also: None,
                };
                write!(f, "{octets}")?;
            } else {
                f.write_char(character)?;
            }
        }
        Ok(())
    }
}
