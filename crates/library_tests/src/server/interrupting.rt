//! A test that a notification interrupts a read, and nothing else.

use crate::comparing::holds;
use rad_server::Interruptible;
use std::io::{ErrorKind, Read, Write};
use std::os::fd::AsRawFd;
use std::os::unix::net::UnixStream;
use std::test::Fail;

fn read(reader: &mut Interruptible<UnixStream>) -> Option<usize> {
    match reader.read(&mut [0; 8]) {
        Ok(count) => Some(count),
        Err(error) if error.kind() == ErrorKind::Interrupted => None,
        Err(_) => Some(usize::MAX),
    }
}

/// Returns whether a line is read that is there, then none after a notification, then the next line, and then the end.
fn reads_each(reader: &mut Interruptible<UnixStream>, mut given: UnixStream) -> Result<bool, Fail> {
    let notifier = reader.notifier()?;
    given.write_all(b"state\n")?;
    let first = read(reader);
    notifier.notify();
    let notified = read(reader);
    given.write_all(b"drain all\n")?;
    drop(given);
    Ok(
        first == Some(6)
            && notified.is_none()
            && read(reader) == Some(8)
            && read(reader) == Some(2)
            && read(reader) == Some(0),
    )
}

#[test]
fn a_notification_interrupts_a_read(rt: HostRuntime) -> Result<(), Fail> {
    let (reader, given) = UnixStream::pair(&rt)?;
    let input = Some(reader.as_raw_fd());
    let mut reader = Interruptible::new(&rt, rt.alloc(), reader, input)?;
    let is_right = reads_each(&mut reader, given);
    drop(reader);
    holds(&rt, is_right?);
    Ok(())
}
