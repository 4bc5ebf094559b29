//! Reading and obeying commands while the workers work.

use super::printing::{Output, Progress};
use crate::faults::ServeFault;
use crate::serving::{Service, linger};
use rad_console::{Command, Commands, obey};
use rad_desk::Gate;
use std::io::{self, ErrorKind, Read, Write};
use std::sync::{Wait, WaitMethods};
use std::time::{Clock, Instant};

/// The commands, and the output for their answers.
#[derive(Drop)]
pub(crate) struct Console<I: Drop, O: Drop> {
    commands: Commands<I>,
    pub(crate) output: Output<O>,
}

impl<I: Read + Drop, O: Drop> Console<I, O> {
    /// Makes it for the commands of this reader.
    pub(crate) fn new(reader: I, output: Output<O>) -> Console<I, O> {
        Console {
            commands: Commands::new(reader),
            output,
        }
    }
}

/// Writes what the output holds once all workers have begun, and obeys the commands to their end. Then it
/// drains the lanes and waits until they are done or `linger` has passed.
///
/// # Errors
///
/// `Ended` if a worker ended by itself, `Input` if the reader failed, `Clock` if the clock failed, `Memory` if a growth
/// was refused, and otherwise as [`Output::advance`].
pub(crate) fn attend<R: Clock + Wait, G: Gate, I: Read + Drop, O: Write + Drop>(
    service: Service<'_, R, G>,
    console: &mut Console<I, O>,
) -> Result<(), ServeFault> {
    service.supervisor.wait_for_all(service.rt);
    send(service, &mut console.output)?;
    obey_each(service, console)?;
    drain_each(service);
    linger(service, end_of_input(service.rt, &console.output)?);
    check_workers(service)
}

/// Returns when the input ended: the time at which that was seen while output waited, and otherwise now.
fn end_of_input<O: Write + Drop>(
    clock: &impl Clock,
    output: &Output<O>,
) -> Result<Instant, ServeFault> {
    if let Some(seen) = output.waited_from() {
        return Ok(seen);
    }
    match Instant::now(clock) {
        Ok(now) => Ok(now),
        Err(_) => Err(ServeFault::Clock),
    }
}

fn obey_each<R: Clock + Wait, G, I: Read + Drop, O: Write + Drop>(
    service: Service<'_, R, G>,
    console: &mut Console<I, O>,
) -> Result<(), ServeFault> {
    for _ in service.rt.forever() {
        let command = console.commands.next();
        if !obey_next(service, command, &mut console.output)? {
            return Ok(());
        }
    }
    unreachable!()
}

/// Obeys the next command, if all workers go on and there is one, and returns whether to read again: also after an
/// interrupted read.
fn obey_next<R: Clock + Wait, G, O: Write + Drop>(
    service: Service<'_, R, G>,
    command: io::Result<Option<Command>>,
    output: &mut Output<O>,
) -> Result<bool, ServeFault> {
    check_workers(service)?;
    match command {
        Ok(Some(command)) => answer(service, command, output)?,
        Ok(None) => return Ok(false),
        Err(error) if error.kind() == ErrorKind::Interrupted => {}
        Err(_) => return Err(ServeFault::Input),
    }
    Ok(true)
}

/// Obeys a command. Its answer is written before the next command is read.
fn answer<R: Clock + Wait, G, O: Write + Drop>(
    service: Service<'_, R, G>,
    command: Command,
    output: &mut Output<O>,
) -> Result<(), ServeFault> {
    let Service {
        rt,
        config,
        proxy,
        ..
    } = service;
    if obey(rt, config, proxy, command, output.text()).is_err() {
        return Err(ServeFault::Memory);
    }
    send(service, output)
}

/// Writes all that the output holds. If that has to wait, and the input ends meanwhile, each lane is drained.
fn send<R: Clock + Wait, G, O: Write + Drop>(
    service: Service<'_, R, G>,
    output: &mut Output<O>,
) -> Result<(), ServeFault> {
    for _ in service.rt.forever() {
        match output.advance(service.rt)? {
            Progress::Done => return Ok(()),
            Progress::Went => {}
            Progress::Waits => mind(service, output.has_input_ended())?,
        }
    }
    unreachable!()
}

/// Checks the workers while the output is waited for, and drains the lanes if the input has ended.
fn mind<R: Wait, G>(service: Service<'_, R, G>, has_input_ended: bool) -> Result<(), ServeFault> {
    if has_input_ended {
        drain_each(service);
    }
    check_workers(service)
}

fn drain_each<R: Wait, G>(service: Service<'_, R, G>) {
    for lane in 0..service.proxy.lanes() {
        service.proxy.drain(service.rt, lane);
    }
}

/// Returns `Ended` if a worker ended by itself.
fn check_workers<R, G>(service: Service<'_, R, G>) -> Result<(), ServeFault> {
    match service.supervisor.ended() {
        Some(worker) => Err(ServeFault::Ended(worker)),
        None => Ok(()),
    }
}
