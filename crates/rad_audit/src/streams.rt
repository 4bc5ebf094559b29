//! Where the auditor prints.

ghost use Rattle.std.specs.Prelude.{◌≤◌, length, IfOk};

use libc::STDERR_FILENO;
use std::io::{Error, ErrorKind, Print, Printer, Result, Write};

/// A standard stream.
#[derive(Drop)]
pub enum Stream<'a, P> {
    Output(Printer<'a, P>),
    Error,
}

impl<P: Print> Write for Stream<'_, P> {
    fn write(&mut self, buf: &[u8]) -> Result<usize> {
        match self {
            Stream::Output(output) => output.write(buf),
            Stream::Error => write_error(buf),
        }
    }

    fn flush(&mut self) -> Result<()> {
        Ok(())
    }
}

/// Writes the first of these octets to standard error, and returns how many.
///
/// # Errors
///
/// `Other` if the system refuses them.
fn write_error(octets: &[u8]) -> Result<usize>
    ensures { IfOk result (λ count. count ≤ length octets.now) }
{
    match usize::try_from(libc::write(STDERR_FILENO, octets)) {
        Ok(count) => Ok(count),
        Err(_) => Err(Error::from(ErrorKind::Other)),
    }
}
