//! Reading which addresses this machine has.

use crate::fib_trie::list_local;
use rad_files::read_at_most;
use std::alloc::Global;
use std::fs;
use std::io::{self, Error, ErrorKind};
use std::rt::Files;

/// The file in which Linux lists them.
const PATH: &str = "/proc/self/net/fib_trie";

/// The most octets that are read of that file: those of some 50,000 routes.
const MOST_OCTETS: u64 = 1 << 22;

/// A source of the addresses of a machine.
pub trait LocalAddresses {
    /// Returns the machine's single IPv4 addresses, each at least once.
    ///
    /// # Errors
    ///
    /// The reason why they can't be read.
    fn read(&self, alloc: Global) -> io::Result<Vec<[u8; 4]>>;
}

/// Returns the single IPv4 addresses of this machine, each at least once.
///
/// # Errors
///
/// The system's error if they can't be read, `FileTooLarge` if Linux's text of its routes has more than 4,194,304
/// octets, `InvalidData` if it is not UTF-8, and `OutOfMemory` if memory is refused.
pub fn read_local_addresses<R: Files>(files: &R, alloc: Global) -> io::Result<Vec<[u8; 4]>>
where
    R::File: Drop,
{
    let text = read_at_most(alloc, fs::open(files, PATH)?, MOST_OCTETS)?;
    let Ok(text) = str::from_utf8(text.as_slice()) else {
        return Err(Error::from(ErrorKind::InvalidData));
    };
    Ok(list_local(alloc, text)?)
}
