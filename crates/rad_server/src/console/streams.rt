//! Polling whether the output accepts something, and whether the input has ended.

ghost use Rattle.std.specs.Prelude.{◌≡◌, None};

use libc::net::{POLLOUT, POLLRDHUP, poll};
use libc::types::pollfd;
use libc::{SEEK_CUR, isatty, lseek};
use std::os::fd::RawFd;

/// The longest wait of a poll, in milliseconds.
const LOOK: i32 = 20;

/// The octets that a pipe or a socket accepts without waiting once a poll reports that it accepts some.
const MOST: usize = 4096;

/// The same for a terminal, whose poll reports that while there is room for one octet.
const MOST_OF_TERMINAL: usize = 1;

/// The descriptor that a poll ignores.
const NOTHING: RawFd = -1;

/// The descriptors on which the reader and the writer may wait; `None` for one that never waits.
#[derive(Clone, Copy, Debug, PartialEq, Eq)]
pub struct Descriptors {
    /// The descriptor that the reader reads from.
    pub input: Option<RawFd>,
    /// The descriptor that the writer writes to.
    pub output: Option<RawFd>,
}

impl Descriptors {
    /// Returns the descriptors of a reader and a writer that never wait.
    pub fn none() -> Descriptors
        ensures { (result.input ≡ None) × (result.output ≡ None) }
    {
        Descriptors {
            input: None,
            output: None,
        }
    }
}

/// The reader of the commands and the writer of what is printed, with the descriptors on which they may wait.
#[derive(Drop)]
pub struct Streams<I: Drop, O: Drop> {
    pub reader: I,
    pub writer: O,
    pub descriptors: Descriptors,
}

/// Polls the output and the input.
#[derive(Clone, Copy)]
pub(crate) struct StreamPoll {
    descriptors: Descriptors,
    /// The most octets of one write.
    most: usize,
    /// Whether nothing more comes in than what is there already.
    has_ended: bool,
}

impl StreamPoll {
    /// Watches these descriptors. An input that allows seeking, such as a regular file or the null device, counts as
    /// ended from the start: reading it never waits. A poll never reports that end.
    pub(crate) fn new(descriptors: Descriptors) -> StreamPoll {
        let has_ended = match descriptors.input {
            Some(input) => lseek(input, 0, SEEK_CUR) >= 0,
            None => false,
        };
        let is_terminal = match descriptors.output {
            Some(output) => isatty(output) == 1,
            None => false,
        };
        StreamPoll {
            descriptors,
            most: if is_terminal { MOST_OF_TERMINAL } else { MOST },
            has_ended,
        }
    }

    /// Returns the most octets that the output accepts without waiting once it accepts something.
    pub(crate) fn most(&self) -> usize {
        self.most
    }

    /// Returns whether the input was seen to have ended. What came before its end may be unread.
    pub(crate) fn has_ended(&self) -> bool {
        self.has_ended
    }

    /// Records that the input was read to its end.
    pub(crate) fn end(&mut self) {
        self.has_ended = true;
    }

    /// Returns whether the output accepts something. Waits for that, or for the end of the input, but for a short while
    /// only. A poll reports at once that a regular file accepts everything: a write to it waits for no reader. It
    /// reports the same of an output that nobody reads any more, and the write then fails.
    pub(crate) fn look(&mut self) -> bool {
        let Some(output) = self.descriptors.output else {
            return true;
        };
        let (takes, has_ended) = look_at(output, self.watched_input());
        self.has_ended = self.has_ended || has_ended;
        takes
    }

    /// Returns the input, as long as its end was not seen.
    fn watched_input(&self) -> RawFd {
        match self.descriptors.input {
            Some(input) if !self.has_ended => input,
            _ => NOTHING,
        }
    }
}

/// Waits for a short while until the output accepts something or the input has ended, and returns whether each is so.
/// An input has ended once nobody writes to it any more, even if there is still something to read.
fn look_at(output: RawFd, input: RawFd) -> (bool, bool) {
    let mut ends = [polled(output, POLLOUT), polled(input, POLLRDHUP)];
    let has_failed = poll(&mut ends, LOOK) < 0;
    let [of_output, of_input] = ends;
    (has_failed || of_output.revents != 0, of_input.revents != 0)
}

fn polled(fd: RawFd, events: i16) -> pollfd {
    pollfd {
        fd,
        events,
        revents: 0,
    }
}
