//! Tests of the thread that writes a spool, round by round, over a disk in memory and over those of this system.

use crate::comparing::holds;
use crate::configured::with_one_home;
use memory_disk::{MemoryDisk, MemoryFolder};
use rad_realms::Config;
use rad_tables::Key;
use spool_files::{Answered, Came, LocalAddress, OpenRequest, remove_segment, segment_numbers};
use spool_writer::{
    EntryGiver, OpenedSpool, RuntimeSpoolDisk, SpoolDisk, SpoolFault, SpoolPlace, SpoolReading,
    SpoolSession, SpoolState, open_spool,
};
use std::alloc::AllocGlobal;
use std::fs::{self, Files};
use std::io;
use std::rt::HostRuntime;
use std::sync::Arc;
use std::test::Fail;

type HostDisk = RuntimeSpoolDisk<HostRuntime, <HostRuntime as Files>::File>;

/// The other ends of a writer's rings, and the writer at work.
#[derive(Drop)]
struct Bench<'a, D: SpoolDisk + Drop> {
    giver: EntryGiver,
    session: SpoolSession<'a, HostRuntime, D>,
    state: Arc<SpoolState>,
    /// The requests that were open at the start.
    left: Vec<OpenRequest>,
}

const FOLDER: &str = "spool_writer_test";

/// Opens a spool with this limit, and makes other rings for it.
fn open_bench<'a, D: SpoolDisk + Drop>(
    rt: &'a HostRuntime,
    config: &Config,
    disk: D,
    limit: u64,
) -> Option<Bench<'a, D>> {
    let alloc = rt.alloc();
    let folder = String::from_str(alloc, FOLDER).ok()?;
    let place = SpoolPlace { folder, limit };
    let opened = open_spool(rt, alloc, disk, place, config, 7, Vec::new(alloc)).ok()?;
    let OpenedSpool {
        writer,
        disk,
        state,
        requests,
        ..
    } = opened;
    let mut writer = writer;
    let giver = writer.with_giver(alloc).ok()?;
    Some(Bench {
        giver,
        session: SpoolSession::new(rt, alloc, writer, disk),
        state,
        left: requests,
    })
}

fn key_of(number: u64) -> Key {
    let [a, b, c, d, e, f, g, h] = number.to_be_bytes();
    let authenticator = [a, b, c, d, e, f, g, h, 9, 9, 9, 9, 9, 9, 9, 9];
    Key {
        authenticator,
        client: [192, 0, 2, 1],
        port: 1000,
        identifier: 1,
    }
}

/// What the texts of requests are.
static SHORT: [u8; 30] = [7; 30];

static LONG: [u8; 4096] = [7; 4096];

static RESPONSE: [u8; 20] = [5; 20];

impl<D: SpoolDisk + Drop> Bench<'_, D> {
    /// Puts a request that came at this moment.
    fn ask(&mut self, number: u64, moment: u64, is_long: bool) -> bool {
        let came = Came {
            key: key_of(number),
            ours: LocalAddress {
                address: [192, 0, 2, 1],
                port: 1813,
            },
            arrival: number,
            run: 7,
            lane: 0,
            number,
            moment,
        };
        self.giver
            .give_request(came, if is_long { &LONG } else { &SHORT })
    }

    /// Puts so many requests from this one on.
    fn ask_all(&mut self, first: u64, count: u64) {
        for place in 0..count {
            self.ask(first.saturating_add(place), 1000, true);
        }
    }

    /// Puts the response to a request.
    fn answer(&mut self, number: u64) -> bool {
        let answered = Answered {
            key: key_of(number),
            run: 7,
            lane: 0,
            serial: 0,
            moment: 1000,
        };
        self.giver.give_answer(answered, &RESPONSE)
    }

    /// Puts the responses to so many requests from this one on.
    fn answer_all(&mut self, first: u64, count: u64) {
        for place in 0..count {
            self.answer(first.saturating_add(place));
        }
    }

    /// Puts requests until one finds no room, and returns whether one does.
    fn fills_the_ring(&mut self) -> bool {
        for number in 1000..50_000 {
            if !self.ask(number, 1000, false) {
                return true;
            }
        }
        false
    }

    /// Does a round, and returns what is known then.
    fn go_on(&mut self) -> SpoolReading {
        self.session.do_round();
        self.state.reading(10_000)
    }

    /// Returns whether exactly these requests were open at the start, in this order.
    fn had(&self, numbers: &[u64]) -> bool {
        let mut is_right = self.left.len() == numbers.len();
        for (request, number) in self.left.iter().zip(numbers.iter()) {
            is_right = is_right && request.came.key == key_of(*number);
        }
        is_right
    }
}

const AMPLE: u64 = 1 << 34;

/// A folder in memory, with the configuration of the runs that use it.
#[derive(Drop)]
struct Ground<'a> {
    rt: &'a HostRuntime,
    config: Config,
    memory: Arc<MemoryFolder>,
}

impl<'a> Ground<'a> {
    fn new(rt: &'a HostRuntime) -> Result<Ground<'a>, Fail> {
        let memory = MemoryFolder::new(rt.alloc())?;
        let config = with_one_home(rt.alloc(), "")?;
        Ok(Ground { rt, config, memory })
    }

    /// Opens the spool that the folder has.
    fn open(&self, limit: u64) -> Option<Bench<'a, MemoryDisk>> {
        let disk = MemoryDisk::new(&self.memory).ok()?;
        open_bench(self.rt, &self.config, disk, limit)
    }

    /// Returns whether exactly these requests are open for the next run.
    fn leaves(&self, numbers: &[u64]) -> bool {
        match self.open(AMPLE) {
            Some(next) => next.had(numbers),
            None => false,
        }
    }

    /// Has this happen in a run, and returns whether all was right.
    fn plays(&self, limit: u64, story: Story) -> bool {
        match self.open(limit) {
            Some(mut bench) => story.happens(&mut bench, &self.memory),
            None => false,
        }
    }
}

/// What happens to a spool.
#[derive(Clone, Copy)]
enum Story {
    Comes,
    ComesAgain,
    IsAnswered,
    Fails,
    IsAsked,
    Fills,
    Limits,
}

impl Story {
    fn happens(self, bench: &mut Bench<'_, MemoryDisk>, memory: &MemoryFolder) -> bool {
        match self {
            Story::Comes => comes(bench) == 1,
            Story::ComesAgain => comes_again(bench),
            Story::IsAnswered => is_answered(bench),
            Story::Fails => fails_and_is_back(bench, memory),
            Story::IsAsked => has_all_later(bench, memory),
            Story::Fills => fills_a_segment(bench, memory),
            Story::Limits => reaches_the_limit(bench),
        }
    }
}

/// Has this happen in a run over an empty folder, and returns whether all was right and exactly these requests are open then.
fn plays(rt: &HostRuntime, limit: u64, story: Story, numbers: &[u64]) -> Result<bool, Fail> {
    let ground = Ground::new(rt)?;
    Ok(ground.plays(limit, story) && ground.leaves(numbers))
}

#[test]
fn the_same_request_is_open_again_behind_its_answer(rt: HostRuntime) -> Result<(), Fail> {
    let is_right = plays(&rt, AMPLE, Story::ComesAgain, &[1])?;
    holds(&rt, is_right);
    Ok(())
}

fn comes_again(bench: &mut Bench<'_, MemoryDisk>) -> bool {
    bench.ask(1, 1000, false);
    bench.answer(1);
    bench.ask(1, 2000, false);
    bench.go_on().written == 3
}

/// A request that is answered before it is written needs no place on the disk. Its answer does.
#[test]
fn an_answer_alone_is_written_of_what_is_answered_at_once(rt: HostRuntime) -> Result<(), Fail> {
    let is_right = plays(&rt, AMPLE, Story::IsAnswered, &[2])?;
    holds(&rt, is_right);
    Ok(())
}

fn is_answered(bench: &mut Bench<'_, MemoryDisk>) -> bool {
    bench.ask(1, 1000, false);
    bench.ask(2, 2000, false);
    bench.ask(3, 3000, false);
    bench.answer(3);
    bench.answer(1);
    let first = bench.go_on();
    first.written == 3 && first.open == 1 && first.age == 8000
}

/// Also the answer to the second request, which may be on disk.
#[test]
fn what_came_while_the_disk_failed_is_written_later(rt: HostRuntime) -> Result<(), Fail> {
    let is_right = plays(&rt, AMPLE, Story::Fails, &[3])?;
    holds(&rt, is_right);
    Ok(())
}

fn fails_and_is_back(bench: &mut Bench<'_, MemoryDisk>, memory: &MemoryFolder) -> bool {
    bench.ask(1, 1000, false);
    let first = bench.go_on();
    memory.stop_after(0);
    bench.ask(2, 1000, false);
    bench.ask(3, 1000, false);
    let second = bench.go_on();
    bench.answer(1);
    bench.answer(2);
    let third = bench.go_on();
    memory.go_on();
    let fourth = bench.go_on();
    let has_begun = first.written == 1 && !first.is_failing;
    let has_failed = second.is_failing && second.unsynced == 2 && second.faults == 1;
    let still_fails = third.is_failing && third.unsynced == 1 && third.faults == 2;
    let is_back = !fourth.is_failing && fourth.unsynced == 0 && fourth.written == 4;
    has_begun && has_failed && still_fails && is_back
}

/// That all is on disk is known two rounds after it is asked, and not while the disk fails.
#[test]
fn all_is_on_disk_two_rounds_later(rt: HostRuntime) -> Result<(), Fail> {
    let is_right = plays(&rt, AMPLE, Story::IsAsked, &[1, 2])?;
    holds(&rt, is_right);
    Ok(())
}

fn has_all_later(bench: &mut Bench<'_, MemoryDisk>, memory: &MemoryFolder) -> bool {
    bench.go_on();
    let rounds = bench.state.rounds();
    bench.ask(1, 1000, false);
    let at_once = bench.state.has_all(rounds);
    bench.go_on();
    let after_one = bench.state.has_all(rounds);
    bench.go_on();
    let after_two = bench.state.has_all(rounds);
    memory.stop_after(0);
    bench.ask(2, 1000, false);
    bench.go_on();
    bench.go_on();
    let while_it_fails = bench.state.has_all(rounds);
    memory.go_on();
    bench.go_on();
    let once_back = bench.state.has_all(rounds);
    let is_full = bench.fills_the_ring();
    let with_one_lost = bench.state.has_all(rounds);
    !at_once && !after_one && after_two && !while_it_fails && once_back && is_full && !with_one_lost
}

#[test]
fn a_full_segment_is_followed_by_another_and_removed(rt: HostRuntime) -> Result<(), Fail> {
    let is_right = plays(&rt, AMPLE, Story::Fills, &[4199])?;
    holds(&rt, is_right);
    Ok(())
}

fn fills_a_segment(bench: &mut Bench<'_, MemoryDisk>, memory: &MemoryFolder) -> bool {
    bench.ask_all(0, 4200);
    let first = bench.go_on();
    let segments = memory.count();
    bench.answer_all(0, 4199);
    let second = bench.go_on();
    first.open == 4200 && segments == 2 && second.open == 1 && memory.count() == 1
}

#[test]
fn a_limit_is_a_full_disk(rt: HostRuntime) -> Result<(), Fail> {
    let is_right = plays(&rt, 10_000, Story::Limits, &[1, 2])?;
    holds(&rt, is_right);
    Ok(())
}

fn reaches_the_limit(bench: &mut Bench<'_, MemoryDisk>) -> bool {
    bench.ask_all(1, 2);
    let first = bench.go_on();
    bench.ask_all(3, 1);
    let second = bench.go_on();
    !first.is_failing && second.is_failing && second.unsynced == 1
}

/// What a run left is written no second time when a lane takes it again.
#[test]
fn a_request_that_is_open_is_written_once(rt: HostRuntime) -> Result<(), Fail> {
    let ground = Ground::new(&rt)?;
    holds(&rt, is_written_once(&ground));
    Ok(())
}

fn is_written_once(ground: &Ground<'_>) -> bool {
    let is_written = ground.plays(AMPLE, Story::Comes);
    let is_written_again = ground.plays(AMPLE, Story::Comes);
    is_written && !is_written_again && ground.leaves(&[1])
}

/// Has a request come, and returns how many entries are written.
fn comes(bench: &mut Bench<'_, MemoryDisk>) -> u64 {
    bench.ask(1, 1000, false);
    bench.go_on().written
}

/// The folder of this system is one run's alone, and has what it left.
#[test]
fn a_folder_has_what_is_open(rt: HostRuntime) -> Result<(), Fail> {
    let config = with_one_home(rt.alloc(), "")?;
    let is_right = is_held_and_read(&rt, &config);
    remove_all(&rt)?;
    holds(&rt, is_right);
    Ok(())
}

fn is_held_and_read(rt: &HostRuntime, config: &Config) -> bool {
    let Some(mut bench) = open_host(rt, config) else {
        return false;
    };
    let is_held = is_held(rt);
    let is_written = is_answered_once(&mut bench);
    drop(bench);
    let is_there = match open_host(rt, config) {
        Some(next) => next.had(&[2, 3]),
        None => false,
    };
    is_held && is_written && is_there
}

fn is_answered_once(bench: &mut Bench<'_, HostDisk>) -> bool {
    bench.ask_all(1, 2);
    bench.answer(1);
    bench.ask_all(3, 1);
    bench.go_on().open == 2
}

/// Removes the folder with all that is in it.
fn remove_all(rt: &HostRuntime) -> io::Result<()> {
    for number in segment_numbers(rt, rt.alloc(), FOLDER)? {
        remove_segment(rt, rt.alloc(), FOLDER, number)?;
    }
    fs::remove_file(rt, "spool_writer_test/lock")?;
    fs::remove_dir(rt, FOLDER)
}

fn open_host<'a>(rt: &'a HostRuntime, config: &Config) -> Option<Bench<'a, HostDisk>> {
    open_bench(rt, config, RuntimeSpoolDisk::new(*rt), AMPLE)
}

/// Returns whether another one gets no lock.
fn is_held(rt: &HostRuntime) -> bool {
    let mut other: HostDisk = RuntimeSpoolDisk::new(*rt);
    other.take_folder(rt.alloc(), FOLDER) == Err(SpoolFault::Held)
}
