//! A reader whose wait can be interrupted by a notification.

use crate::waking::Notifier;
use libc::net::{POLLIN, poll};
use libc::types::pollfd;
use mio::Poll;
use std::alloc::{AllocError, Global};
use std::io::{self, Error, ErrorKind, Read};
use std::net::Net;
use std::os::fd::{AsRawFd, RawFd};

/// The timeout of a poll that waits without a limit.
const FOR_EVER: i32 = -1;

/// A reader that waits until there is something to read, and ends the wait if it is notified. Such an end is a read
/// that returned `Interrupted`, so a caller needs no other trait than `Read`. Files and terminals are polled as well as
/// pipes.
#[derive(Drop)]
pub struct Interruptible<I: Drop> {
    reader: I,
    /// The descriptor that the reader reads from; `None` if the reader never waits.
    descriptor: Option<RawFd>,
    interrupts: Interrupts,
}

/// The receiving side of the notifications. One that comes during a wait is never consumed, so it ends each later wait
/// too; one that comes between two waits ends the next one.
#[derive(Drop)]
struct Interrupts {
    poll: Poll,
    notifier: Notifier,
}

impl Interrupts {
    fn new(net: &impl Net, alloc: Global) -> io::Result<Interrupts> {
        let poll = Poll::new(net)?;
        let notifier = Notifier::new(alloc, &poll)?;
        Ok(Interrupts { poll, notifier })
    }

    /// Waits until this descriptor has something to read, and returns whether it may have. It returns `false` if a
    /// notification came first.
    fn wait(&self, descriptor: RawFd) -> bool {
        let may_sleep = self.notifier.try_sleep();
        let is_there = may_sleep && wait_for_first(descriptor, self.poll.as_raw_fd());
        self.notifier.set_awake();
        is_there
    }
}

impl<I: Read + Drop> Interruptible<I> {
    /// Reads from this descriptor with this reader, which reads nothing ahead.
    ///
    /// # Errors
    ///
    /// The system's error, and `OutOfMemory` if memory is refused.
    pub fn new(
        net: &impl Net,
        alloc: Global,
        reader: I,
        descriptor: Option<RawFd>,
    ) -> io::Result<Interruptible<I>> {
        let interrupts = Interrupts::new(net, alloc)?;
        Ok(Interruptible {
            reader,
            descriptor,
            interrupts,
        })
    }

    /// Returns a notifier that ends a wait.
    ///
    /// # Errors
    ///
    /// `AllocError` if memory is refused.
    pub fn notifier(&self) -> Result<Notifier, AllocError> {
        self.interrupts.notifier.share()
    }
}

impl<I: Read + Drop> Read for Interruptible<I> {
    ghost remaining = { λ s. I.remaining s.reader };

    /// Reads what is there, and waits until there is something.
    ///
    /// # Errors
    ///
    /// `Interrupted` if a notification came first, or if another reader took what was there from a descriptor that does
    /// not block; otherwise the reader's own error.
    fn read(&mut self, buf: &mut [u8]) -> io::Result<usize> {
        let Some(descriptor) = self.descriptor else {
            return self.reader.read(buf);
        };
        if !self.interrupts.wait(descriptor) {
            return Err(Error::from(ErrorKind::Interrupted));
        }
        match self.reader.read(buf) {
            Err(error) if error.kind() == ErrorKind::WouldBlock => {
                Err(Error::from(ErrorKind::Interrupted))
            }
            got => got,
        }
    }
}

/// Waits until one of two descriptors has something to read, and returns whether the first one may have.
fn wait_for_first(first: RawFd, second: RawFd) -> bool {
    let mut ends = [first, second].map(|fd| pollfd {
        fd,
        events: POLLIN,
        revents: 0,
    });
    poll(&mut ends, FOR_EVER) < 0 || ends[0].revents != 0
}
