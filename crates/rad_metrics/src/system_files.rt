//! Where the system tells of the program's process and of the machine's sockets.

use std::alloc::AllocGlobal;
use std::fs::{self, Files};
use std::io::Read;

/// The folder that has a name for each open descriptor. While it is read it has one of its own.
const DESCRIPTORS: &str = "/proc/self/fd";

/// The most octets that are read of a file: those of some 30,000 sockets.
const MOST_OCTETS: u64 = 1 << 22;

/// A source of what the system tells.
pub trait SystemFiles {
    /// Replaces `text` with that of the file at a path, or with nothing if there is none.
    fn read(&self, path: &str, text: &mut Vec<u8>);

    /// Returns how many descriptors the program has open; 0 if that is not known.
    fn count_descriptors(&self) -> u64;
}

/// Replaces `text` with that of the file at a path, or with nothing if there is none.
pub fn read_system_file<R: Files>(files: &R, path: &str, text: &mut Vec<u8>)
where
    R::File: Drop,
{
    text.clear();
    if let Ok(file) = fs::open(files, path) {
        let _ = file.take(MOST_OCTETS).read_to_end(text);
    }
}

/// Returns how many descriptors are open, without the one by which they are counted; 0 if that is not known.
pub fn count_own_descriptors<R: Files + AllocGlobal + Copy>(files: &R) -> u64 {
    let Ok(names) = fs::read_dir(files, DESCRIPTORS) else {
        return 0;
    };
    let mut count = 0_u64;
    for _ in names {
        count = count.saturating_add(1);
    }
    count.saturating_sub(1)
}

/// Returns a text of the system, as far as it is one.
pub(crate) fn text_of(room: &Vec<u8>) -> &str {
    str::from_utf8(room.as_slice()).unwrap_or("")
}
