//! The standard descriptors, 0 to 2. If one of them is closed when the program starts, the next file or socket would
//! get its number, and what arrives there would be read as commands.

use crate::faults::Fault;
use libc::net::{POLLIN, POLLNVAL, poll};
use libc::types::pollfd;
use libc::{STDERR_FILENO, STDIN_FILENO, STDOUT_FILENO};
use std::fs::{Files, OpenOptions};
use std::io::{self, Error, ErrorKind, Read};
use std::os::fd::{IntoRawFd, RawFd};

/// The timeout of a poll that waits without a limit.
const FOR_EVER: i32 = -1;

/// The file that is opened for a closed descriptor.
const NULL_DEVICE: &str = "/dev/null";

/// What a descriptor can do.
#[derive(Clone, Copy, PartialEq, Eq)]
enum Access {
    Read,
    Write,
}

/// Opens the null device for each standard descriptor that is closed, and leaves it open: 0 for writing only and 1 for
/// reading only, so that a read of the input and a write to the output fail, and 2 for writing. No other file may be
/// opened before.
///
/// # Errors
///
/// `Input` if 0 is closed and the null device can't be opened, `Output` if that happens for 1 or 2.
pub fn open_standard<R: Files>(files: &R) -> Result<(), Fault>
where
    R::File: IntoRawFd,
{
    if open_if_closed(files, STDIN_FILENO, Access::Write).is_err() {
        return Err(Fault::Input);
    }
    let output = open_if_closed(files, STDOUT_FILENO, Access::Read);
    let errors = open_if_closed(files, STDERR_FILENO, Access::Write);
    if output.is_err() || errors.is_err() {
        return Err(Fault::Output);
    }
    Ok(())
}

/// Opens the null device for this descriptor if it is closed. Those below it must be open, since the system gives the
/// lowest free number.
fn open_if_closed<R: Files>(files: &R, descriptor: RawFd, access: Access) -> io::Result<()>
where
    R::File: IntoRawFd,
{
    if is_closed(descriptor) {
        let mut options = OpenOptions::new();
        options
            .read(access == Access::Read)
            .write(access == Access::Write);
        options.open(files, NULL_DEVICE)?.into_raw_fd();
    }
    Ok(())
}

fn is_closed(descriptor: RawFd) -> bool {
    let mut ends = [pollfd {
        fd: descriptor,
        events: 0,
        revents: 0,
    }];
    poll(&mut ends, 0) == 1 && ends[0].revents & POLLNVAL != 0
}

/// Standard input, of which a read waits for something also if the descriptor does not block.
#[derive(Drop)]
pub struct WaitingInput<I: Drop>(I);

impl<I: Drop> WaitingInput<I> {
    /// Reads with this reader, which reads from standard input.
    pub fn new(reader: I) -> WaitingInput<I> {
        WaitingInput(reader)
    }
}

impl<I: Read + Drop> Read for WaitingInput<I> {
    ghost remaining = { λ input. I.remaining input.0 };

    /// Reads what is there.
    ///
    /// # Errors
    ///
    /// `Interrupted` if nothing was there: the next read finds something, or the end. Otherwise the reader's own error.
    fn read(&mut self, buf: &mut [u8]) -> io::Result<usize> {
        match self.0.read(buf) {
            Err(error) if error.kind() == ErrorKind::WouldBlock => {
                wait_for_input();
                Err(Error::from(ErrorKind::Interrupted))
            }
            got => got,
        }
    }
}

fn wait_for_input() {
    let mut ends = [pollfd {
        fd: STDIN_FILENO,
        events: POLLIN,
        revents: 0,
    }];
    poll(&mut ends, FOR_EVER);
}
