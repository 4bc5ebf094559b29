//! `replay`: its input is a configuration and a script of events, and its output is a line for each result.

ghost use Rattle.std.specs.Prelude.{IfOk};
ghost use Rattle.rad_replay.specs.Replaying.{IsEnd};

use crate::faults::ReplayFault;
use crate::pieces::Pieces;
use crate::script::Script;
use rad_console::EndLine;
use rad_files::{read_at_most, read_configuration};
use rad_realms::{Config, ConfigFault};
use std::alloc::{AllocError, Global};
use std::io::{BufWriter, ErrorKind, Read, Write};
use std::sync::Wait;

/// The most octets of the input.
const MOST_INPUT: u64 = 16_777_216;

/// The line between the configuration and the events.
const SEPARATOR: &[u8] = b"%%";

/// Reads a configuration and events, and writes the results. Returns what is left at the end.
///
/// # Errors
///
/// The first fault, after the results of the events before it are written.
pub fn replay<T: Wait, R: Read + Drop, W: Write + Drop>(
    rt: &T,
    alloc: Global,
    reader: R,
    writer: W,
) -> Result<EndLine, ReplayFault>
    ensures { IfOk result IsEnd }
{
    let input = read_input(alloc, reader)?;
    let (configuration, events) = split_input(input.as_slice());
    let config = read_config(alloc, configuration, events)?;
    run(rt, alloc, &config, events, writer)
}

/// Reads the configuration, if the events are text too.
fn read_config(alloc: Global, configuration: &[u8], events: &[u8]) -> Result<Config, ReplayFault> {
    if str::from_utf8(events).is_err() {
        return Err(ReplayFault::Configuration(ConfigFault::Toml));
    }
    match read_configuration(alloc, configuration) {
        Ok(config) => Ok(config),
        Err(fault) => Err(ReplayFault::Configuration(fault)),
    }
}

fn run<T: Wait, W: Write + Drop>(
    rt: &T,
    alloc: Global,
    config: &Config,
    events: &[u8],
    writer: W,
) -> Result<EndLine, ReplayFault>
    ensures { IfOk result IsEnd }
{
    let Ok(mut output) = BufWriter::new(alloc, writer) else {
        return Err(ReplayFault::Memory);
    };
    let ran = match Script::new(alloc, config) {
        Ok(script) => script.run(rt, events, &mut output),
        Err(AllocError) => Err(ReplayFault::Memory),
    };
    if output.flush().is_err() {
        return Err(ReplayFault::Output);
    }
    ran
}

/// Reads the whole input, if it is at most as long as allowed.
fn read_input<R: Read + Drop>(alloc: Global, reader: R) -> Result<Vec<u8>, ReplayFault> {
    match read_at_most(alloc, reader, MOST_INPUT) {
        Ok(input) => Ok(input),
        Err(error) => match error.kind() {
            ErrorKind::OutOfMemory => Err(ReplayFault::Memory),
            _ => Err(ReplayFault::Input),
        },
    }
}

/// Returns the lines before the separator and those after it; without a separator, all lines are before it.
fn split_input(input: &[u8]) -> (&[u8], &[u8]) {
    let mut lines = Pieces::new(input, b'\n');
    let mut before = 0;
    while let Some(line) = lines.next() {
        let rest = lines.rest().unwrap_or(b"");
        if line == SEPARATOR {
            return (&input[..before], rest);
        }
        before = input.len() - rest.len();
    }
    (input, b"")
}
