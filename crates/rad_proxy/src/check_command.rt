//! The command `check`, which counts what the configuration in a file has.

ghost use Rattle.std.specs.Prelude.{◌≡◌, IfOk, None};
ghost use Rattle.rad_console.specs.Lines.{counts_of};
ghost use Rattle.rad_proxy.specs.Configurations.{IsCounted};

use crate::faults::Fault;
use crate::loading::{load, load_text};
use crate::machine::{Host, Machine};
use rad_console::CountLine;
use rad_files::MOST_FILE_OCTETS;
use rad_log::{Level, Log, logs_at};
use rad_realms::Config;
use spool_writer::{find_spool, log_waiting};
use std::alloc::Global;
use std::io::Read;

/// Counts the clients, home servers and realms of the configuration in a file. Logs what waits in the spool, if there is one.
///
/// # Errors
///
/// Those of `load`; `Memory` if a growth is refused.
pub fn check_file<H: Host, M: Machine, L: Log>(
    rt: &H,
    machine: &M,
    alloc: Global,
    log: &L,
    path: &str,
) -> Result<CountLine, Fault>
    ensures { IfOk result (λ line. IsCounted None MOST_FILE_OCTETS line) }
{
    let config = load(rt, alloc, log, path)?;
    tell_spool(rt, machine, alloc, log, &config)?;
    Ok(count_of(&config))
}

/// Logs what waits in the spool by a configuration, if there is a spool. It is not changed, and not read if nothing is logged.
fn tell_spool<H: Host, M: Machine, L: Log>(
    rt: &H,
    machine: &M,
    alloc: Global,
    log: &L,
    config: &Config,
) -> Result<(), Fault> {
    if !logs_at(log, Level::Error) {
        return Ok(());
    }
    let Some(place) = find_spool(rt, log)? else {
        return Ok(());
    };
    let disk = machine.spool();
    log_waiting(rt, alloc, &disk, place.folder.as_str(), config, log)?;
    Ok(())
}

/// Counts the same in the text that a reader returns, which is that of the file of this path.
pub fn check_text<R: Read + Drop, L: Log>(
    alloc: Global,
    log: &L,
    path: &str,
    file: R,
) -> Result<CountLine, Fault>
    ensures { IfOk result (λ line. IsCounted (R.remaining file) MOST_FILE_OCTETS line) }
{
    let config = load_text(alloc, log, path, file)?;
    Ok(count_of(&config))
}

fn count_of(config: &Config) -> CountLine
    ensures { result ≡ counts_of config.now }
{
    CountLine {
        clients: config.clients().len(),
        homes: config.homes().len(),
        realms: config.realms().len(),
    }
}
