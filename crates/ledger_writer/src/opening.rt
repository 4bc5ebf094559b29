//! Opening a ledger: the buffer, and the thread that writes what passes through it.

ghost use Rattle.std.specs.Prelude.{◌≡◌, [], length, vec_len, IfOk};
ghost use Rattle.ledger_writer.specs.Buffer.{HasRoom};
ghost use Rattle.ledger_writer.specs.RunNames.{AreNamesOf};

use crate::accounting::AccountedGiver;
use crate::entry_buffer::EntryBuffer;
use crate::filling::new_batch;
use crate::giving::{PLACES, ParcelGiver, ROOM};
use crate::inlet::LedgerInlet;
use crate::progress::{LaneProgress, NOT_BEGUN};
use crate::record_counts::RecordCounts;
use crate::run_names::RunNames;
use crate::shares::{ClientShares, NOTHING, Taking};
use crate::writer::{LedgerWriter, LineSource};
use ledger_files::LedgerDisk;
use ledger_lines::MOST_LINE_OCTETS;
use ledger_state::{LedgerFault, LedgerState, log_ledger_fault};
use rad_log::Log;
use rad_metrics::time_since_1970;
use rad_realms::{Config, Home, LimitNumbers};
use rtrb::RingBuffer;
use std::alloc::{AllocError, AllocGlobal, Global};
use std::env::{self, Env, VarError};
use std::marker::Sync;
use std::random::RandomSource;
use std::sync::{Arc, Wait};
use std::thread::{self, Threads};
use std::time::{Clock, Duration};

/// The environment variable that names the folder of the ledger.
const LEDGER: &str = "RAD_PROXY_LEDGER";

/// The number of Identifiers on each source port.
const IDENTIFIERS: u32 = 256;

/// How many more places for the handling of requests a lane has than it may hold requests at once.
const BESIDE: u32 = 256;

/// A ledger that is open: the front's end, the writer's end, and what they and the reporter share.
#[derive(Drop)]
pub struct OpenedLedger<'a, R> {
    pub inlet: LedgerInlet<'a, R>,
    pub writer: LedgerWriter,
    pub state: Arc<LedgerState>,
}

/// Returns the folder that `RAD_PROXY_LEDGER` names in the environment, if any; an empty value names none. If the value
/// is not UTF-8, it logs `event=ledger-fault` and returns none.
///
/// # Errors
///
/// `AllocError` if memory is refused.
pub fn find_folder<R, L>(rt: &R, log: &L) -> Result<Option<String>, AllocError>
where
    R: Env + AllocGlobal,
    L: Log,
{
    match env::var(rt, LEDGER) {
        Ok(folder) if folder.is_empty() => Ok(None),
        Ok(folder) => Ok(Some(folder)),
        Err(VarError::NotPresent) => Ok(None),
        Err(VarError::OutOfMemory) => Err(AllocError),
        Err(VarError::NotUnicode) => {
            log_ledger_fault(log, LedgerFault::NoText);
            Ok(None)
        }
    }
}

/// Opens a ledger of a configuration in this folder, for the run of this name. No file is made yet. At the end,
/// requests that are left may wait for room for so long.
///
/// # Errors
///
/// `AllocError` if memory is refused.
pub fn open_ledger<'a, R: Clock>(
    rt: &'a R,
    alloc: Global,
    folder: String,
    config: &Config,
    run: u64,
    longest: Duration,
) -> Result<OpenedLedger<'a, R>, AllocError>
    ensures kept { IfOk result (λ opened. opened.inlet.accounted.handed ≡ []) }
    ensures left { IfOk result (λ opened. opened.inlet.accounted.left ≡ []) }
    ensures room { IfOk result (λ opened. HasRoom 67108864 180000 opened.inlet.accounted.giver) }
    ensures folder { IfOk result (λ opened. opened.writer.source.folder ≡ folder) }
    ensures names { IfOk result (λ opened. AreNamesOf config.now.homes opened.writer.source.names.homes.items) }
    ensures lanes { IfOk result (λ opened. vec_len opened.writer.source.lanes ≡ length config.now.homes) }
    ensures clients { IfOk result (λ opened. vec_len opened.inlet.puts ≡ length config.now.clients) }
{
    let places = places_of(alloc, config.homes())?;
    let clients = config.clients();
    let shared = Shared {
        state: Arc::new(
            alloc,
            LedgerState::new(alloc, places.as_slice(), clients.len())?,
        )?,
        shares: Arc::new(alloc, ClientShares::new(alloc, clients)?)?,
    };
    let (giver, entries) = open_buffer(alloc, &shared)?;
    let puts = no_puts(alloc, clients.len())?;
    let counts = RecordCounts::new(alloc, config.homes().len())?;
    let inlet = open_inlet(rt, giver, (puts, counts), &shared, longest)?;
    let source = open_source(alloc, run, folder, config.homes(), entries, &shared)?;
    let batch = new_batch(alloc)?;
    let writer = LedgerWriter { source, batch };
    Ok(OpenedLedger {
        inlet,
        writer,
        state: shared.state,
    })
}

/// Returns for each lane how many places for the handling of its requests it has.
fn places_of(alloc: Global, homes: &[Home]) -> Result<Vec<usize>, AllocError> {
    let mut places = Vec::with_capacity(alloc, homes.len())?;
    for home in homes {
        places.push(places_by(home.limits().numbers()))?;
    }
    Ok(places)
}

/// Returns how many requests of a lane with these limits may be queued, outstanding or in the ring, and some more.
fn places_by(limits: LimitNumbers) -> usize {
    let pairs = limits.ports.saturating_mul(IDENTIFIERS);
    let held = limits.queue.saturating_add(pairs);
    held.saturating_add(limits.ring).saturating_add(BESIDE) as usize
}

/// What both ends of a ledger share.
#[derive(Drop)]
struct Shared {
    state: Arc<LedgerState>,
    shares: Arc<ClientShares>,
}

/// Makes the two ends of the buffer: of a ring of packets, and of a ring of their heads.
fn open_buffer(alloc: Global, shared: &Shared) -> Result<(ParcelGiver, EntryBuffer), AllocError>
    ensures { IfOk result (λ ends. HasRoom 67108864 180000 ends.0) }
{
    let (packets, taken_packets) = RingBuffer::new(alloc, ROOM)?;
    let (heads, taken_heads) = RingBuffer::new(alloc, PLACES)?;
    let shares = Arc::try_clone(&shared.shares)?;
    let entries = EntryBuffer::new(alloc, taken_packets, taken_heads, shares)?;
    Ok((ParcelGiver::new(packets, heads), entries))
}

/// Makes what the front puts into this end of the buffer.
fn open_inlet<'a, R: Clock>(
    rt: &'a R,
    giver: ParcelGiver,
    counted: (Vec<Taking>, RecordCounts),
    shared: &Shared,
    longest: Duration,
) -> Result<LedgerInlet<'a, R>, AllocError>
    requires { HasRoom 67108864 180000 giver }
    ensures kept { IfOk result (λ inlet. inlet.accounted.handed ≡ []) }
    ensures left { IfOk result (λ inlet. inlet.accounted.left ≡ []) }
    ensures giver { IfOk result (λ inlet. inlet.accounted.giver ≡ giver) }
    ensures puts { IfOk result (λ inlet. inlet.puts ≡ counted.0) }
{
    let (puts, counts) = counted;
    Ok(LedgerInlet {
        clock: rt,
        longest,
        time: 0,
        accounted: AccountedGiver::new(giver),
        puts,
        counts,
        shares: Arc::try_clone(&shared.shares)?,
        state: Arc::try_clone(&shared.state)?,
    })
}

/// Makes what the writer's lines come from, over this end of the buffer.
fn open_source(
    alloc: Global,
    run: u64,
    folder: String,
    homes: &[Home],
    entries: EntryBuffer,
    shared: &Shared,
) -> Result<LineSource, AllocError>
    ensures folder { IfOk result (λ source. source.folder ≡ folder) }
    ensures names { IfOk result (λ source. AreNamesOf homes.now source.names.homes.items) }
    ensures lanes { IfOk result (λ source. vec_len source.lanes ≡ length homes.now) }
{
    Ok(LineSource {
        folder,
        names: RunNames::new(alloc, run, homes)?,
        entries,
        room: Vec::with_capacity(alloc, MOST_LINE_OCTETS)?,
        lanes: no_progress(alloc, homes.len())?,
        state: Arc::try_clone(&shared.state)?,
    })
}

/// Makes the progress of each of so many lanes: nothing is written yet.
fn no_progress(alloc: Global, lanes: usize) -> Result<Vec<LaneProgress>, AllocError>
    ensures { IfOk result (λ progress. vec_len progress ≡ lanes) }
{
    let mut progress = Vec::with_capacity(alloc, lanes)?;
    progress.resize(lanes, NOT_BEGUN)?;
    Ok(progress)
}

/// Makes what each of so many clients put into the buffer: nothing yet.
fn no_puts(alloc: Global, clients: usize) -> Result<Vec<Taking>, AllocError>
    ensures { IfOk result (λ puts. vec_len puts ≡ clients) }
{
    let mut puts = Vec::with_capacity(alloc, clients)?;
    puts.resize(clients, NOTHING)?;
    Ok(puts)
}

/// Draws what names a run. If the system gives no random octets, it is the time.
pub fn draw_name<R: Clock + RandomSource>(rt: &R) -> u64 {
    let mut random = [0; 8];
    match rt.fill_bytes(&mut random) {
        Ok(()) => u64::from_be_bytes(random),
        Err(_) => time_since_1970(rt).unwrap_or(0),
    }
}

/// Starts the thread that writes to this disk, and returns whether that succeeded. No thread joins it: it ends with the program.
pub fn start_writer<R, D>(rt: &R, alloc: Global, writer: LedgerWriter, disk: D) -> bool
where
    R: Clock + Threads + Wait + Sync + Copy + Send + 'static,
    D: LedgerDisk + Drop + Send + 'static,
{
    let own = *rt;
    writer.source.state.start();
    thread::spawn(rt, move || writer.write_all(&own, alloc, disk)).is_ok()
}
