//! What the program needs of the system, and of the machine that it runs on.

use ledger_writer::{LedgerDisk, RuntimeDisk};
use rad_addresses::{LocalAddresses, read_local_addresses};
use rad_files::read_at_most;
use rad_metrics::{SystemFiles, count_own_descriptors, read_system_file};
use rad_server::PortSettings;
use rad_telemetry::{ReplaceFile, RuntimeFiles, TraceFault, TraceText, read_trace_text};
use spool_files::{FileCalls, SegmentFile};
use spool_writer::{RuntimeSpoolDisk, SpoolDisk};
use std::alloc::{AllocGlobal, Global};
use std::env::{self, Env, VarError};
use std::fs::{self, Files, OpenFile};
use std::io::{self, Read, Seek, Write};
use std::os::fd::AsRawFd;
use std::random::RandomSource;
use std::rt::Runtime;
use std::sync::Wait;
use std::thread::Threads;

/// The environment variable that pins the ports that the lanes send from.
const SOURCE_PORTS: &str = "RAD_PROXY_SOURCE_PORTS";

/// The most octets that are read of a setting of Linux: more than any list of 65,536 ports has.
const MOST_SETTING_OCTETS: u64 = 1 << 20;

/// A runtime that the program runs on. `Net` is no part of it, so each function that serves names it too: nothing that
/// has its sockets by way of another trait can be given to a thread.
pub trait Host: Runtime
    + AllocGlobal
    + RandomSource
    + Threads
    + Wait
    + Sync
    + Copy
    + Send
    + 'static {}

impl<R> Host for R
where
    R: Runtime + AllocGlobal + RandomSource + Threads + Wait + Sync + Copy + Send + 'static,
{}

/// A machine of which threads read, and on which they write. They write with types that are known in `main`, since nothing
/// that has its files by way of a bound can be given to a thread.
pub trait Machine: LocalAddresses + PortSettings + SystemFiles + TraceText + Sync {
    /// What replaces the file of the counters.
    type Files: ReplaceFile + Drop + Send + 'static;

    /// What keeps the files of a ledger.
    type Disk: LedgerDisk + Drop + Send + 'static;

    /// What keeps the files of a spool.
    type Spool: SpoolDisk<Calls = Self::SpoolCalls> + Drop + Send + 'static;

    /// A file of a spool.
    type SpoolCalls: FileCalls + Drop + Send + 'static;

    fn files(&self) -> Self::Files;

    fn disk(&self) -> Self::Disk;

    fn spool(&self) -> Self::Spool;
}

/// The machine of a runtime.
#[derive(Drop)]
pub struct RuntimeMachine<R> {
    rt: R,
}

impl<R> RuntimeMachine<R> {
    pub fn new(rt: R) -> RuntimeMachine<R> {
        RuntimeMachine { rt }
    }
}

impl<R, F> Machine for RuntimeMachine<R>
where
    R: Files<File = F> + AllocGlobal + Env + RandomSource + Sync + Copy + Send + 'static,
    F: Read + Write + Seek + OpenFile + AsRawFd + Drop + Send + 'static,
{
    type Files = RuntimeFiles<R>;

    type Disk = RuntimeDisk<R, F>;

    type Spool = RuntimeSpoolDisk<R, F>;

    type SpoolCalls = SegmentFile<F>;

    fn files(&self) -> RuntimeFiles<R> {
        RuntimeFiles::new(self.rt)
    }

    fn disk(&self) -> RuntimeDisk<R, F> {
        RuntimeDisk::new(self.rt)
    }

    fn spool(&self) -> RuntimeSpoolDisk<R, F> {
        RuntimeSpoolDisk::new(self.rt)
    }
}

impl<R: Files> LocalAddresses for RuntimeMachine<R>
where
    R::File: Drop,
{
    /// Reads the addresses as [`read_local_addresses`] does.
    fn read(&self, alloc: Global) -> io::Result<Vec<[u8; 4]>> {
        read_local_addresses(&self.rt, alloc)
    }
}

impl<R: Files + Env + AllocGlobal> PortSettings for RuntimeMachine<R>
where
    R::File: Drop,
{
    fn pinned(&self) -> Result<String, VarError> {
        env::var(&self.rt, SOURCE_PORTS)
    }

    fn setting(&self, alloc: Global, path: &str) -> io::Result<Vec<u8>> {
        read_at_most(alloc, fs::open(&self.rt, path)?, MOST_SETTING_OCTETS)
    }
}

impl<R: Files + AllocGlobal + Copy> SystemFiles for RuntimeMachine<R>
where
    R::File: Drop,
{
    /// Reads the text as [`read_system_file`] does.
    fn read(&self, path: &str, text: &mut Vec<u8>) {
        read_system_file(&self.rt, path, text);
    }

    fn count_descriptors(&self) -> u64 {
        count_own_descriptors(&self.rt)
    }
}

impl<R: Files> TraceText for RuntimeMachine<R>
where
    R::File: Drop,
{
    fn read_trace(&self, path: &str, text: &mut Vec<u8>) -> Result<(), TraceFault> {
        read_trace_text(&self.rt, path, text)
    }
}
