//! Finding the file of another run that was written last, and the sum of its last whole line.

ghost use Rattle.std.specs.Prelude.{◌≤◌, ◌<◌, ◌≡◌, ◌≢◌, ◌++◌, ℕ, List, length, slice_index, IfSome, MatchOption};
ghost use Rattle.ledger_writer.specs.RunLines.{EndsWithSum};

use ledger_files::{FoundFile, SUM_OCTETS, split_sum};
use ledger_lines::MOST_LINE_OCTETS;
use std::alloc::{AllocGlobal, Global};
use std::fs::{self, Files};
use std::io::{ErrorKind, Read, Seek, SeekFrom};
use std::os::unix::fs::MetadataExt;

/// How many octets of the end of a file are read: those of two lines, with the line ends.
const END_OCTETS: usize = 2 * (MOST_LINE_OCTETS + 1);

/// How many digits the name of a run has.
const RUN_DIGITS: usize = 16;

/// How many digits the number of a file has at least.
const NUMBER_DIGITS: usize = 6;

/// What stands behind the name of a file that is compressed.
const COMPRESSED: [&str; 4] = [".gz", ".xz", ".zst", ".bz2"];

/// The name of a file, and when it was written last, in seconds since 1970 and nanoseconds behind these.
#[derive(Drop)]
struct NamedFile {
    name: String,
    seconds: i64,
    nanoseconds: i64,
}

/// Finds the file of another run than this one that was written last in a folder, and reads its end. There is none if there is
/// no such file, or if it can't be read.
pub(crate) fn find_file<R>(rt: &R, alloc: Global, folder: &str, run: u64) -> Option<FoundFile>
where
    R: Files + AllocGlobal + Copy,
    R::File: Read + Seek + Drop,
{
    let own = format!(in alloc; "{run:016x}").ok()?;
    let NamedFile { name, .. } = find_last(rt, alloc, folder, own.as_str())?;
    if is_compressed(name.as_str()) {
        return Some(FoundFile {
            name,
            sum: None,
            is_compressed: true,
        });
    }
    let file_name = name.as_str();
    let path = format!(in alloc; "{folder}/{file_name}").ok()?;
    let file = fs::open(rt, path.as_str()).ok()?;
    let sum = read_sum(alloc, file)?;
    Some(FoundFile {
        name,
        sum,
        is_compressed: false,
    })
}

/// Finds the file of another run than this one, which is given in digits, that was written last in a folder.
fn find_last<R>(rt: &R, alloc: Global, folder: &str, own: &str) -> Option<NamedFile>
where
    R: Files + AllocGlobal + Copy,
{
    let mut last: Option<NamedFile> = None;
    for entry in fs::read_dir(rt, folder).ok()? {
        let Ok(entry) = entry else {
            continue;
        };
        let name = entry.file_name();
        if run_in(name).is_none_or(|run| run == own) {
            continue;
        }
        let Ok(found) = entry.metadata() else {
            continue;
        };
        let (seconds, nanoseconds) = (found.mtime(), found.mtime_nsec());
        if found.is_file() && is_later(last.as_ref(), seconds, nanoseconds) {
            last = Some(NamedFile {
                name: String::from_str(alloc, name).ok()?,
                seconds,
                nanoseconds,
            });
        }
    }
    last
}

/// Whether a moment is behind that of a file, if there is one.
fn is_later(file: Option<&NamedFile>, seconds: i64, nanoseconds: i64) -> bool {
    match file {
        Some(file) if seconds == file.seconds => nanoseconds > file.nanoseconds,
        Some(file) => seconds > file.seconds,
        None => true,
    }
}

/// Reads the end of a file, and returns the sum of its last whole line, if that has one, unless a read fails.
fn read_sum<F: Read + Seek + Drop>(alloc: Global, file: F) -> Option<Option<[u8; SUM_OCTETS]>> {
    let mut file = file;
    let mut room = Vec::with_capacity(alloc, END_OCTETS).ok()?;
    room.resize(END_OCTETS, 0).ok()?;
    let size = file.seek(SeekFrom::End(0)).ok()?;
    let start = size.saturating_sub(END_OCTETS as u64);
    file.seek(SeekFrom::Start(start)).ok()?;
    let count = fill(&mut file, room.as_mut_slice())?;
    let end = room.as_slice().get(..count)?;
    Some(last_sum(end, start == 0))
}

/// Fills a room with what a file has, and returns how many octets these are, unless a read fails.
fn fill<F: Read>(file: &mut F, room: &mut [u8]) -> Option<usize> {
    let mut filled = 0;
    for _ in 0..u64::MAX {
        if filled >= room.len() {
            break;
        }
        match file.read(&mut room[filled..]) {
            Ok(0) => break,
            Ok(count) => filled = filled.saturating_add(count),
            Err(error) if error.kind() == ErrorKind::Interrupted => {}
            Err(_) => return None,
        }
    }
    Some(filled)
}

/// Returns the sum of the last whole line of octets that a file ends with, if that has one. The line is whole if it begins
/// behind a line end, or where the file does.
fn last_sum(octets: &[u8], is_all: bool) -> Option<[u8; SUM_OCTETS]>
    ensures { IfSome result (λ sum. EndsWithSum octets.now sum) }
{
    let end = last_feed(octets)?;
    let (lines, _) = octets.split_at(end);
    let line = line_in(lines, is_all)?;
    let (_, sum) = split_sum(line)?;
    Some(sum)
}

/// Returns what stands behind the last line end, or all octets if there is none and they are all of a file.
fn line_in(lines: &[u8], is_all: bool) -> Option<&[u8]>
    ensures { IfSome result (λ line. (front : List ℕ) × (lines.now ≡ front ++ line.now)) }
{
    match last_feed(lines) {
        Some(end) => {
            let (_, line) = lines.split_at(end + 1);
            Some(line)
        }
        None => whole_if(lines, is_all),
    }
}

fn whole_if(lines: &[u8], is_all: bool) -> Option<&[u8]>
    ensures { IfSome result (λ line. lines.now ≡ line.now) }
{
    if is_all { Some(lines) } else { None }
}

/// Returns where the last line end is.
fn last_feed(octets: &[u8]) -> Option<usize>
    ensures there { IfSome result (λ place. (place < length octets.now) × (slice_index octets.now place ≡ 10)) }
    ensures last { MatchOption result ((place : ℕ) → place < length octets.now → slice_index octets.now place ≢ 10) (λ end. (place : ℕ) → end < place → place < length octets.now → slice_index octets.now place ≢ 10) }
{
    let count = octets.len();
    for behind in 0..count {
        let place = count - 1 - behind;
        if octets[place] == b'\n' {
            return Some(place);
        }
    }
    None
}

/// Returns the name of the run, in digits, that the name of a ledger's file ends with before the number of the file. A name
/// of another form has none.
fn run_in(name: &str) -> Option<&str> {
    let (front, number) = plain_name(name).strip_suffix(".jsonl")?.rsplit_once('-')?;
    if number.len() < NUMBER_DIGITS || !are_digits(number, false) {
        return None;
    }
    let (_, run) = front.split_at_checked(front.len().checked_sub(RUN_DIGITS)?)?;
    if are_digits(run, true) {
        Some(run)
    } else {
        None
    }
}

/// Returns the name of a file without what stands behind it if the file is compressed. A name with other characters than a
/// ledger's is left as it is.
fn plain_name(name: &str) -> &str {
    if !name.bytes().all(|octet| octet.is_ascii_alphanumeric() || octet == b'-' || octet == b'.') {
        return name;
    }
    for end in COMPRESSED.iter() {
        if let Some(plain) = name.strip_suffix(*end) {
            return plain;
        }
    }
    name
}

/// Whether the name of a file says that it is compressed.
fn is_compressed(name: &str) -> bool {
    plain_name(name).len() < name.len()
}

/// Whether these are digits, decimal or hexadecimal in lower case.
fn are_digits(text: &str, hexadecimal: bool) -> bool {
    text.bytes().all(|octet| octet.is_ascii_digit()
        || hexadecimal && octet >= b'a' && octet <= b'f')
}
