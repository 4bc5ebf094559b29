//! The console, which executes commands and writes their results.

use crate::commands::Command;
use crate::lanes::{DrainLine, StateLine};
use rad_desk::Proxy;
use rad_realms::Config;
use std::io::{self, Write};
use std::sync::Wait;

/// Executes a command, and writes its result: a line for each lane, or `unknown`. The output is not flushed.
///
/// # Errors
///
/// The output's own error. Lanes that were drained before it stay drained.
pub fn obey<R: Wait, W: Write>(
    rt: &R,
    config: &Config,
    proxy: &Proxy,
    command: Command,
    output: &mut W,
) -> io::Result<()> {
    match command {
        Command::State => write_states(rt, config, proxy, output),
        Command::Drain => write_drains(rt, proxy, output),
        Command::Unknown => writeln!(output, "unknown"),
    }
}

fn write_states<R: Wait, W: Write>(
    rt: &R,
    config: &Config,
    proxy: &Proxy,
    output: &mut W,
) -> io::Result<()> {
    for number in 0..proxy.lanes() {
        let lane = usize::from(number);
        let Some(home) = config.homes().get(lane) else {
            break;
        };
        let line = StateLine {
            lane,
            name: home.name(),
            counts: proxy.counts(rt, number),
        };
        writeln!(output, "{line}")?;
    }
    Ok(())
}

/// Drains each lane, and writes how many requests it had accepted.
fn write_drains<R: Wait, W: Write>(rt: &R, proxy: &Proxy, output: &mut W) -> io::Result<()> {
    for number in 0..proxy.lanes() {
        let line = DrainLine {
            lane: usize::from(number),
            count: proxy.drain(rt, number),
        };
        writeln!(output, "{line}")?;
    }
    Ok(())
}
