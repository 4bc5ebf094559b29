//! Reading a reader to its end, up to a bound.

ghost use Rattle.std.specs.Prelude.{◌≡◌, ◌≤◌, ◌<◌, ◌^◌, ◌-◌, IfOk, IfSome, vec_len};

use std::alloc::Global;
use std::io::{self, ErrorKind, Read};

/// Returns all octets of a reader, if there are at most `most`. It reads at most one octet more.
///
/// # Errors
///
/// `FileTooLarge` if there are more octets, `OutOfMemory` if a growth is refused, and otherwise the reader's own error.
pub fn read_at_most<R: Read + Drop>(alloc: Global, reader: R, most: u64) -> io::Result<Vec<u8>>
    requires { most < 2 ^ 64 - 1 }
    ensures bounded { IfOk result (λ octets. vec_len octets ≤ most) }
    ensures whole { IfOk result (λ octets. IfSome (R.remaining reader) (λ given. octets.items ≡ given)) }
{
    let mut octets = Vec::new(alloc);
    reader.take(most + 1).read_to_end(&mut octets)?;
    if octets.len() as u64 > most {
        return Err(io::Error::from(ErrorKind::FileTooLarge));
    }
    Ok(octets)
}
