//! Tests of what no contract says: octets from another hand, a disk that stops and tears, files of a real folder.

use crate::comparing::holds;
use memory_disk::{MemoryDisk, MemoryFolder};
use rad_tables::Key;
use spool_files::*;
use spool_writer::SpoolDisk;
use std::alloc::{AllocError, Global};
use std::sync::Arc;
use std::{fs, io};

/// A segment of two batches, as tests/lib/spool/segments.py writes it.
const SEGMENT: &[u8] = &[
    0x01, 0x00, 0x00, 0x00, 0x15, 0xe2, 0x0d, 0xd8, 0x60, 0x01, 0x00, 0x01, 0x00, 0x00, 0x00, 0x00,
    0x00, 0x00, 0x00, 0x06, 0x00, 0x00, 0x00, 0x00, 0x00, 0x00, 0x00, 0x02, 0x00, 0x00, 0x01, 0x00,
    0x00, 0x00, 0xc4, 0xea, 0x30, 0x0c, 0xae, 0x02, 0x07, 0x07, 0x07, 0x07, 0x07, 0x07, 0x07, 0x07,
    0x07, 0x07, 0x07, 0x07, 0x07, 0x07, 0x07, 0x07, 0xc0, 0x00, 0x02, 0x09, 0x9c, 0x40, 0x03, 0xc0,
    0x00, 0x02, 0x01, 0x07, 0x15, 0x00, 0x00, 0x00, 0x00, 0x00, 0x00, 0x00, 0x05, 0x00, 0x00, 0x00,
    0x00, 0x00, 0x00, 0x00, 0x06, 0x00, 0x02, 0x00, 0x00, 0x00, 0x00, 0x00, 0x00, 0x00, 0x08, 0x00,
    0x00, 0x01, 0x8b, 0xcf, 0xe5, 0x68, 0x7b, 0x00, 0x14, 0x04, 0x03, 0x00, 0x14, 0x07, 0x07, 0x07,
    0x07, 0x07, 0x07, 0x07, 0x07, 0x07, 0x07, 0x07, 0x07, 0x07, 0x07, 0x07, 0x07, 0x03, 0x07, 0x07,
    0x07, 0x07, 0x07, 0x07, 0x07, 0x07, 0x07, 0x07, 0x07, 0x07, 0x07, 0x07, 0x07, 0x07, 0xc0, 0x00,
    0x02, 0x09, 0x9c, 0x40, 0x03, 0x00, 0x00, 0x00, 0x00, 0x00, 0x00, 0x00, 0x06, 0x00, 0x02, 0x00,
    0x00, 0x00, 0x00, 0x00, 0x00, 0x00, 0x09, 0x00, 0x00, 0x01, 0x8b, 0xcf, 0xe5, 0x69, 0xc8, 0x00,
    0x14, 0x04, 0x03, 0x00, 0x14, 0x07, 0x07, 0x07, 0x07, 0x07, 0x07, 0x07, 0x07, 0x07, 0x07, 0x07,
    0x07, 0x07, 0x07, 0x07, 0x07, 0x04, 0x07, 0x07, 0x07, 0x07, 0x07, 0x07, 0x07, 0x07, 0x07, 0x07,
    0x07, 0x07, 0x07, 0x07, 0x07, 0x07, 0xc0, 0x00, 0x02, 0x09, 0x9c, 0x40, 0x03, 0x00, 0x00, 0x01,
    0x8b, 0xcf, 0xe5, 0x6b, 0x15, 0x00, 0x04, 0x67, 0x6f, 0x6e, 0x65, 0x00,
];

const KEY: Key = Key {
    authenticator: [7; 16],
    client: [192, 0, 2, 9],
    port: 40_000,
    identifier: 3,
};

const CAME: Head = Head::Came(Came {
    key: KEY,
    ours: LocalAddress {
        address: [192, 0, 2, 1],
        port: 1813,
    },
    arrival: 5,
    run: 6,
    lane: 2,
    number: 8,
    moment: 1_700_000_000_123,
});

const BEGUN: Head = Head::Begun(Begun {
    version: 1,
    run: 6,
    number: 2,
});

const ANSWERED: Head = Head::Answered(Answered {
    key: KEY,
    run: 6,
    lane: 2,
    serial: 9,
    moment: 1_700_000_000_456,
});

const GIVEN_UP: Head = Head::GivenUp(GivenUp {
    key: KEY,
    moment: 1_700_000_000_789,
});

const REQUEST: &[u8] = &[4, 3, 0, 20, 7, 7, 7, 7, 7, 7, 7, 7, 7, 7, 7, 7, 7, 7, 7, 7];

/// What a test of crashes appends.
const BODIES: &[&[u8]] = &[
    b"", b"1", b"22", b"333", b"4444", b"55555", b"666666", b"", b"8", b"99", b"101", b"1111",
    b"12121", b"131313", b"", b"1", b"16", b"171", b"1818", b"19191", b"202020", b"", b"2", b"23",
    b"242", b"2525", b"26262", b"272727", b"", b"2", b"30", b"313", b"3232", b"33333", b"343434",
    b"", b"3", b"37", b"383", b"3939",
];

/// The number of the segment that a test appends to.
const NUMBER: u64 = 1;

/// Appends bodies to a new segment until one fails. Returns how many were acknowledged.
fn append_each(alloc: Global, folder: &Arc<MemoryFolder>, bodies: &[&[u8]]) -> io::Result<usize> {
    let disk = MemoryDisk::new(folder)?;
    let mut device = disk.make(alloc, "", NUMBER)?;
    if begin(&mut device).is_err() {
        return Ok(0);
    }
    let mut segment = Segment::new(device);
    let mut done = 0_usize;
    for body in bodies {
        if segment.append(alloc, body).is_err() {
            break;
        }
        done = done.saturating_add(1);
    }
    Ok(done)
}

/// Whether the file has the first `count` batches, each sound and as it was appended, and no other.
fn has_first(alloc: Global, file: &[u8], count: usize) -> Result<bool, AllocError> {
    let found = read_batches(alloc, file)?;
    let mut is_same = found.batches.len() == count;
    for (index, batch) in found.batches.iter().enumerate() {
        let (check, body) = *batch;
        is_same = is_same && is_sound(check, body) && BODIES.get(index) == Some(&body);
    }
    Ok(is_same)
}

/// Whether a crash that keeps this many octets of the last write leaves the batches that were acknowledged, with the next
/// one or without.
fn is_left(
    alloc: Global,
    folder: &MemoryFolder,
    count: usize,
    done: usize,
) -> Result<bool, AllocError> {
    let Some(file) = folder.left(alloc, NUMBER, count) else {
        return Ok(false);
    };
    Ok(has_first(alloc, &file, done)? || has_first(alloc, &file, done.saturating_add(1))?)
}

/// Whether each crash leaves them where this call fails, wherever the last write tears.
fn are_left(alloc: Global, calls: u64) -> io::Result<bool> {
    let folder = MemoryFolder::new(alloc)?;
    folder.stop_after(calls);
    let done = append_each(alloc, &folder, BODIES)?;
    let mut are_left = true;
    for count in 0..=20 {
        are_left = are_left && is_left(alloc, &folder, count, done)?;
    }
    Ok(are_left)
}

/// The disk stops at each call behind the one that makes the file, and its last write tears at each octet.
#[test]
fn what_is_acknowledged_is_left(rt: HostRuntime) -> io::Result<()> {
    let mut are_all_left = true;
    for calls in 1..=4 * BODIES.len() as u64 + 3 {
        are_all_left = are_all_left && are_left(rt.alloc(), calls)?;
    }
    holds(&rt, are_all_left);
    Ok(())
}

/// The body of the first batch of `SEGMENT`.
fn body_of_beginning(alloc: Global) -> Result<Vec<u8>, AllocError> {
    let mut body = Vec::new(alloc);
    put_entry(&mut body, &BEGUN, &[])?;
    Ok(body)
}

/// The body of the second batch of `SEGMENT`.
fn body_of_sample(alloc: Global) -> Result<Vec<u8>, AllocError> {
    let mut body = Vec::new(alloc);
    put_entry(&mut body, &CAME, REQUEST)?;
    put_entry(&mut body, &ANSWERED, REQUEST)?;
    put_entry(&mut body, &GIVEN_UP, b"gone")?;
    Ok(body)
}

/// The octets of another hand are written.
#[test]
fn writes_the_sample(rt: HostRuntime) -> io::Result<()> {
    let alloc = rt.alloc();
    let first = body_of_beginning(alloc)?;
    let second = body_of_sample(alloc)?;
    let folder = MemoryFolder::new(alloc)?;
    append_each(alloc, &folder, &[first.as_slice(), second.as_slice()])?;
    let is_written = match folder.left(alloc, NUMBER, 0) {
        Some(file) => file.as_slice() == SEGMENT,
        None => false,
    };
    holds(&rt, is_written);
    Ok(())
}

/// The entries of the second batch of `SEGMENT`.
const SAMPLE: &[(Head, &[u8])] = &[(CAME, REQUEST), (ANSWERED, REQUEST), (GIVEN_UP, b"gone")];

/// Whether the entries of a body are those of the second batch of `SEGMENT`.
fn is_sample(alloc: Global, body: &[u8]) -> bool {
    let Ok(entries) = read_entries(alloc, body) else {
        return false;
    };
    let mut is_same = entries.len() == SAMPLE.len();
    for (at, entry) in entries.iter().enumerate() {
        is_same = is_same
            && match SAMPLE.get(at) {
                Some((head, text)) => entry.0 == *head && entry.1 == *text,
                None => false,
            };
    }
    is_same
}

/// The octets of another hand are read.
#[test]
fn reads_the_sample(rt: HostRuntime) -> Result<(), AllocError> {
    let alloc = rt.alloc();
    let found = read_batches(alloc, SEGMENT)?;
    let is_whole = found.end.saturating_add(1) == SEGMENT.len() && found.batches.len() == 2;
    let is_read = match found.batches.get(1) {
        Some((check, body)) => is_sound(*check, body) && is_sample(alloc, body),
        None => false,
    };
    holds(&rt, is_whole && is_read);
    Ok(())
}

/// How many of the batches of a file are sound and can be read, and whether each of these is one of `SEGMENT`.
fn sound_of(
    alloc: Global,
    file: &[u8],
    first: &[u8],
    second: &[u8],
) -> Result<(usize, bool), AllocError> {
    let found = read_batches(alloc, file)?;
    let (mut count, mut are_known) = (0_usize, true);
    for batch in &found.batches {
        let (check, body) = *batch;
        if is_sound(check, body) && read_entries(alloc, body).is_ok() {
            count = count.saturating_add(1);
            are_known = are_known && (body == first || body == second);
        }
    }
    Ok((count, are_known))
}

/// Whether each front of `SEGMENT` has no other batch than these two.
fn fronts_are_known(alloc: Global, first: &[u8], second: &[u8]) -> Result<bool, AllocError> {
    let mut are_known = true;
    for length in 0..SEGMENT.len() {
        let (_, known) = sound_of(alloc, &SEGMENT[..length], first, second)?;
        are_known = are_known && known;
    }
    Ok(are_known)
}

/// Whether `SEGMENT` with another octet at a place has no other batch than these two, and not both.
fn changes_are_known(
    alloc: Global,
    at: usize,
    first: &[u8],
    second: &[u8],
) -> Result<bool, AllocError> {
    let mut are_known = true;
    let mut file = SEGMENT.to_vec(alloc)?;
    for change in 1..=255_u8 {
        if let Some(octet) = file.get_mut(at) {
            *octet ^= change;
        }
        let (count, known) = sound_of(alloc, &file, first, second)?;
        are_known = are_known && known && (count < 2 || at.saturating_add(1) >= SEGMENT.len());
        if let Some(octet) = file.get_mut(at) {
            *octet ^= change;
        }
    }
    Ok(are_known)
}

/// A segment that is cut short, or of which an octet is another one, gives no batch that was not written.
#[test]
fn spoiled_segments_give_nothing_wrong(rt: HostRuntime) -> Result<(), AllocError> {
    let alloc = rt.alloc();
    let first = body_of_beginning(alloc)?;
    let second = body_of_sample(alloc)?;
    let mut are_known = fronts_are_known(alloc, &first, &second)?;
    for at in 0..SEGMENT.len() {
        are_known = are_known && changes_are_known(alloc, at, &first, &second)?;
    }
    holds(&rt, are_known);
    Ok(())
}

/// Returns the next state of a generator (Marsaglia's xorshift).
fn next(state: u64) -> u64 {
    let state = state ^ (state << 13);
    let state = state ^ (state >> 7);
    state ^ (state << 17)
}

/// Makes a file of random octets, with an open gate and a length that is possible.
fn random_file(alloc: Global, seed: u64) -> Result<Vec<u8>, AllocError> {
    let mut state = seed;
    let mut file = Vec::new(alloc);
    for at in 0..64_u32 {
        state = next(state);
        let octet = state.to_be_bytes()[0];
        file.push(match at {
            0 => 1,
            1..=3 => 0,
            4 => octet % 64,
            9 => octet % 6,
            _ => octet,
        })?;
    }
    Ok(file)
}

/// Random files are read to their end, and give no batch.
#[test]
fn random_files_are_read(rt: HostRuntime) -> Result<(), AllocError> {
    let alloc = rt.alloc();
    let mut sound = 0_usize;
    for seed in 1..=100_000_u64 {
        let file = random_file(alloc, seed.wrapping_mul(0x9e37_79b9_7f4a_7c15))?;
        let (count, _) = sound_of(alloc, &file, &[], &[])?;
        sound = sound.saturating_add(count);
    }
    holds(&rt, sound == 0);
    Ok(())
}

/// The CRC-32 of the nine digits that its standard gives.
#[test]
fn checks_as_its_standard_does(rt: HostRuntime) {
    holds(&rt, crc32_of(b"123456789") == 0xcbf4_3926);
}

const FOLDER: &str = "spool_files_test";

/// Whether a segment is made in the folder, and a second one of its number is not.
fn is_made_once(rt: &HostRuntime) -> bool {
    make_segment(rt, rt.alloc(), FOLDER, 17).is_ok()
        && make_segment(rt, rt.alloc(), FOLDER, 17).is_err()
}

/// A segment of a folder of the system is made once, and removed.
#[test]
fn a_folder_keeps_segments(rt: HostRuntime) -> io::Result<()> {
    make_folder(&rt, FOLDER)?;
    let is_made = is_made_once(&rt);
    remove_segment(&rt, rt.alloc(), FOLDER, 17)?;
    let left = segment_numbers(&rt, rt.alloc(), FOLDER)?.len();
    fs::remove_dir(&rt, FOLDER)?;
    holds(&rt, is_made && left == 0);
    Ok(())
}

/// Returns how many requests are open among the entries with these heads, and how many answers are remembered.
fn counted(alloc: Global, heads: &[Head], now: u64) -> Result<(usize, usize), AllocError> {
    let mut counted = Counted::new(alloc);
    for head in heads.iter().rev() {
        counted.count(alloc, now, 1000, head, REQUEST)?;
    }
    Ok((counted.requests.len(), counted.answers.len()))
}

/// An answer closes what stands before it, and a request that comes again behind it is open.
#[test]
fn the_last_entry_counts(rt: HostRuntime) -> Result<(), AllocError> {
    let (alloc, at_last) = (rt.alloc(), 1_700_000_001_456);
    let closed = counted(alloc, &[BEGUN, CAME, ANSWERED], at_last)?;
    let over = counted(alloc, &[BEGUN, CAME, ANSWERED], at_last + 1)?;
    let again = counted(alloc, &[CAME, ANSWERED, CAME], at_last)?;
    let given_up = counted(alloc, &[CAME, ANSWERED, CAME, GIVEN_UP], at_last)?;
    holds(
        &rt,
        closed == (0, 1) && over == (0, 0) && again == (1, 0) && given_up == (0, 0),
    );
    Ok(())
}

mod rounds;
mod trials;
