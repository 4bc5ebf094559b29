//! The text of the metrics while it is made.

use crate::home_metric::Reading;
use crate::numbers::Numbers;
use crate::own_process::{ProcessReading, read_process};
use crate::socket_numbers::{SocketReading, UDP_TABLE};
use crate::spool_metrics::SpoolNumbers;
use crate::system_files::{SystemFiles, text_of};
use crate::writing::{Known, write_metrics};
use ledger_state::LedgerReading;
use rad_realms::Config;
use std::alloc::{AllocError, Global};
use std::io;
use std::sync::Wait;
use std::time::Clock;

/// A text of the metrics, and what it is made of. Its memory is used again for the next text.
#[derive(Drop)]
pub struct Draft {
    text: Vec<u8>,
    readings: Vec<Reading>,
    /// A text of the system: of the program's process, and then of its UDP sockets.
    table: Vec<u8>,
    process: ProcessReading,
    sockets: Vec<SocketReading>,
}

impl Draft {
    /// Makes a draft with an empty text.
    pub fn new(alloc: Global) -> Draft {
        Draft {
            text: Vec::new(alloc),
            readings: Vec::new(alloc),
            table: Vec::new(alloc),
            process: ProcessReading {
                resident: 0,
                descriptors: 0,
                cpu: 0,
            },
            sockets: Vec::new(alloc),
        }
    }

    /// Reads what was last reported of each lane, and what the system reports of the program's process and of each socket.
    ///
    /// # Errors
    ///
    /// `AllocError` if memory is refused.
    pub fn read<S: Wait, U: SystemFiles, R: Clock>(
        &mut self,
        rt: &S,
        system: &U,
        numbers: &Numbers<'_, R>,
    ) -> Result<(), AllocError> {
        self.readings.clear();
        let started = numbers.started_by_now();
        for home in &numbers.homes {
            self.readings.push(home.reading(rt, started))?;
        }
        self.process = read_process(system, &mut self.table);
        system.read(UDP_TABLE, &mut self.table);
        let table = text_of(&self.table);
        numbers.sockets.read(rt, table, &mut self.sockets)
    }

    /// Makes a text of all metrics, of what was read, and of the ledger and the spool if there are any.
    ///
    /// # Errors
    ///
    /// `OutOfMemory` if memory is refused.
    pub fn write<R: Clock>(
        &mut self,
        config: &Config,
        numbers: &Numbers<'_, R>,
        ledger: Option<LedgerReading<'_>>,
        spool: Option<SpoolNumbers>,
    ) -> io::Result<()> {
        self.text.clear();
        let known = Known {
            clients: config.clients(),
            homes: config.homes(),
            counts: numbers.counts(),
            cells: numbers.homes.as_slice(),
            realms: config.realms(),
            other_lane: config.other_lane(),
            realm_numbers: &numbers.realms,
            program: numbers.program(self.process),
            readings: self.readings.as_slice(),
            sockets: self.sockets.as_slice(),
            ledger,
            spool,
        };
        write_metrics(&mut self.text, &known)
    }

    /// Returns the text.
    pub fn text(&mut self) -> &mut Vec<u8> {
        &mut self.text
    }
}
