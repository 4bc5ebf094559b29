//! A simulation of the whole proxy, in one thread. A scheduler with a given seed calls `front_worker` and every
//! `lane_worker` of rad_desk, for one turn or for several. They work over wires in memory, with one virtual clock. The
//! network loses, duplicates, delays and reorders datagrams. NASes repeat requests. Home servers die, come back, and
//! reply late, twice, wrongly or never. Receives and sends fail, gates stop workers, and lanes are drained. At the end the
//! network loses nothing and the home servers answer, until each lane is served, and the proxy is closed.
//!
//! After each call, everything that the worker did is compared with the rules. The comparison uses a flat model of
//! them (`book.rt` and the files that it names, `front_turn.rt`, `lane_turn.rt`), which calls no code of the lanes.
//!
//! Then the seed gives a list of runs over one spool (`life.rt`), on a disk in memory that loses and tears what was not synced. Each
//! run ends by a stop or by a crash at any turn (`serving.rt`). What a start offers, what lanes take, and what NASes are told is compared
//! with what was accepted, answered and synced in all runs before (`history.rt`).
//!
//! The arguments are the first seed and the number of seeds. If a seed fails, the program prints the seed, the turn
//! and the rule that was broken, and ends with status 1. The same seed fails again.
#![tactic(auto)]

mod accepting;
mod book;
mod chance;
mod clock;
mod ending;
mod events;
mod front_turn;
mod hearing;
mod history;
mod lane_turn;
mod life;
mod making;
mod nases;
mod network;
mod planning;
mod process;
mod rules;
mod run;
mod serving;
mod setting;
mod settling;
mod stepping;
mod trace;
mod walk;
mod witness;
mod world;

use life::live;
use run::{Outcome, run_seed};
use std::alloc::{AllocGlobal, Global};
use std::env::{self, Env};
use std::io::Print;
use std::process::ExitCode;
use std::sync::Wait;

/// The exit status if a seed fails, or if the arguments are not two numbers.
const FAILED: u8 = 1;

fn main(rt: HostRuntime) -> ExitCode {
    ExitCode::from(obey(&rt))
}

/// Runs the seeds that the arguments ask for, and returns the exit status.
fn obey<R: Env + AllocGlobal + Print + Wait>(rt: &R) -> u8 {
    match seeds(rt) {
        Some((first, count)) => run_all(rt, first, count),
        None => {
            let _ = println!(rt; "usage: rad_simulation FIRST COUNT");
            FAILED
        }
    }
}

fn run_all<R: AllocGlobal + Print + Wait>(rt: &R, first: u64, count: u64) -> u8 {
    let (mut turns, mut crashes) = (0_u64, 0_u64);
    for place in 0..count {
        let seed = first.saturating_add(place);
        let outcome = play(rt, rt.alloc(), seed);
        turns = turns.saturating_add(outcome.turns);
        crashes = crashes.saturating_add(outcome.crashes);
        if let Some(rule) = outcome.broken {
            let turn = outcome.turns;
            let _ = println!(rt; "seed {seed} turn {turn}: {rule}");
            return FAILED;
        }
    }
    match println!(rt; "{count} seeds, {turns} turns, {crashes} crashes: ok") {
        Ok(()) => 0,
        Err(_) => FAILED,
    }
}

/// Plays a seed: a run without a spool, and a list of runs over one.
fn play(rt: &impl Wait, alloc: Global, seed: u64) -> Outcome {
    let alone = run_seed(rt, alloc, seed);
    if alone.broken.is_some() {
        return alone;
    }
    let over_spool = live(rt, alloc, seed);
    Outcome {
        turns: alone.turns.saturating_add(over_spool.turns),
        ..over_spool
    }
}

/// Returns the first seed and the number of seeds.
fn seeds<R: Env + AllocGlobal>(rt: &R) -> Option<(u64, u64)> {
    let arguments = env::args(rt).ok()?;
    let words: Vec<String> = arguments.collect(rt.alloc()).ok()?;
    seeds_of(words.as_slice())
}

/// Returns the two numbers behind the name of the program.
fn seeds_of(words: &[String]) -> Option<(u64, u64)> {
    Some((number_at(words, 1)?, number_at(words, 2)?))
}

fn number_at(words: &[String], place: usize) -> Option<u64> {
    words.get(place)?.as_str().parse::<u64>().ok()
}
