//! What is reported of the sockets while they are bound.

use crate::telemetry::Telemetry;
use crate::workers::worker_name;
use rad_desk::Worker;
use rad_log::{Level, Log, tell, warn_of_reason};
use rad_metrics::worker_row;
use rad_realms::Endpoint;
use rad_server::{PortsFault, SocketReports};
use std::fmt::{self, Display};
use std::io::Error;
use std::net::Ipv4Addr;
use std::sync::Wait;

impl<L: Log, R: Wait> SocketReports for Telemetry<'_, L, R> {
    fn bound(&self, worker: Worker, place: usize, at: Endpoint, buffer: u32) {
        self.numbers.bound(worker, place, at, buffer);
    }

    fn unbound(&self, at: Endpoint, tried: u32, error: &Error) {
        let tried = Tried(tried);
        let line = format_args!("event=unbound socket={at}{tried} reason=\"{error}\"");
        tell(self.events.log, Level::Error, &line);
    }

    fn ports_tried(&self, lane: Worker, tried: u32) {
        let home = worker_name(self.events.config, worker_row(lane));
        let line = format_args!("event=source-ports home={home} tried={tried}");
        tell(self.events.log, Level::Info, &line);
    }

    fn ports_refused(&self, fault: &PortsFault) {
        let counts = Counts(*fault);
        let line = format_args!("event=source-ports-fault{counts} reason=\"{fault}\"");
        tell(self.events.log, Level::Error, &line);
    }

    fn addresses_unread(&self, error: &Error) {
        warn_of_reason(self.events.log, "addresses-unread", error);
    }

    fn address_unbound(&self, address: [u8; 4]) {
        let address = Ipv4Addr::from(address);
        let line = format_args!("event=address-unbound address={address}");
        tell(self.events.log, Level::Warn, &line);
    }
}

/// How many ports were tried by number, with a space before it, if any was.
#[derive(Clone, Copy)]
struct Tried(u32);

impl Display for Tried {
    fn fmt<W: fmt::Write>(&self, f: &mut fmt::Formatter<W>) -> fmt::Result {
        match self.0 {
            0 => Ok(()),
            tried => write!(f, " tried={tried}"),
        }
    }
}

/// How many ports there are, and how many the lanes need, with a space before each, if there are too few.
#[derive(Clone, Copy)]
struct Counts(PortsFault);

impl Display for Counts {
    fn fmt<W: fmt::Write>(&self, f: &mut fmt::Formatter<W>) -> fmt::Result {
        match self.0 {
            PortsFault::TooFew { ports, needed } => write!(f, " ports={ports} needed={needed}"),
            _ => Ok(()),
        }
    }
}
