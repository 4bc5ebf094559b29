//! The file that the counters are written to, how it is replaced, and how a text of them gets to the thread that writes it.

use rad_log::{Log, WriterState, find_path, warn_of_reason};
use std::alloc::{AllocError, AllocGlobal, Global};
use std::env::Env;
use std::fmt::{self, Display};
use std::fs::{self, Files, Metadata, OpenFile, OpenOptions, Permissions};
use std::io::{self, ErrorKind, Read, Write};
use std::mem;
use std::os::unix::fs::{MetadataExt, OpenOptionsExt, PermissionsExt};
use std::random::RandomSource;
use std::sync::{Arc, Mutex, Wait};
use std::thread::{self, Threads};
use std::time::{Clock, Duration, Instant};

/// The environment variable that names the file of the counters.
const COUNTERS: &str = "RAD_PROXY_COUNTERS";

const FAULT: &str = "counters-fault";

/// How each text of counters begins, whichever program of this kind wrote it. A file of counters is known by it.
const HEAD: &[u8] = b"# HELP rad_proxy_";

const HEAD_OCTETS: usize = 17;

/// Who may read and write the file: its owner may do both, and everybody may read it.
const MODE: u32 = 0o644;

/// Why the file of the counters is not replaced.
#[derive(Clone, Copy, PartialEq, Eq)]
pub enum FileFault {
    /// At the path is a directory, a link, a pipe, a device or something else that is not a regular file. It is left
    /// alone.
    NotRegular,
    /// At the path is a file that is neither empty nor one of counters, such as the configuration or a file of a ledger.
    /// It is left alone.
    NotCounters,
    /// The system refused a step of the replacement, or memory was refused.
    NotWritten,
    /// The file system takes longer for a text than the time until the next one.
    Late,
    /// The value of the variable is not UTF-8.
    NoText,
}

/// Replaces files.
pub trait ReplaceFile {
    /// Writes a text to a new file that everybody may read, which then replaces the file at this path.
    ///
    /// # Errors
    ///
    /// `NotRegular` if something other than a regular file is at the path; `NotCounters` if it is a file that is neither
    /// empty nor one of counters; `NotWritten` if the system refuses something, or memory is refused.
    fn replace(&mut self, path: &str, text: &[u8]) -> Result<(), FileFault>;
}

/// Replaces the files of a runtime.
#[derive(Drop)]
pub struct RuntimeFiles<R> {
    rt: R,
    /// The file that was written last.
    last: Option<FileId>,
}

/// What tells a file from another one at the same path.
#[derive(Clone, Copy, PartialEq, Eq)]
struct FileId {
    device: u64,
    inode: u64,
}

impl FileId {
    fn of(found: &Metadata) -> FileId {
        FileId {
            device: found.dev(),
            inode: found.ino(),
        }
    }
}

impl<R> RuntimeFiles<R> {
    pub fn new(rt: R) -> RuntimeFiles<R> {
        RuntimeFiles { rt, last: None }
    }
}

impl<R: AllocGlobal + Files + RandomSource> ReplaceFile for RuntimeFiles<R>
where
    R::File: Drop,
{
    fn replace(&mut self, path: &str, text: &[u8]) -> Result<(), FileFault> {
        check_place(&self.rt, path, self.last)?;
        let name = new_name(&self.rt, path)?;
        let new = name.as_str();
        let made = create(&self.rt, new, text)?;
        if made.is_some() && fs::rename(&self.rt, new, path).is_ok() {
            self.last = made;
            return Ok(());
        }
        let _ = fs::remove_file(&self.rt, new);
        Err(FileFault::NotWritten)
    }
}

/// Fails if something other than a file of counters is at a path. A link is not a regular file, wherever it leads. The
/// file that was written last is not opened.
fn check_place<R: Files>(files: &R, path: &str, last: Option<FileId>) -> Result<(), FileFault>
where
    R::File: Drop,
{
    match fs::symlink_metadata(files, path) {
        Ok(found) if !found.is_file() => Err(FileFault::NotRegular),
        Ok(found) if found.len() == 0 || last == Some(FileId::of(&found)) => Ok(()),
        Ok(_) => check_head(files, path),
        Err(error) if error.kind() == ErrorKind::NotFound => Ok(()),
        Err(_) => Err(FileFault::NotWritten),
    }
}

/// Fails if the file at a path does not begin as one of counters.
fn check_head<R: Files>(files: &R, path: &str) -> Result<(), FileFault>
where
    R::File: Drop,
{
    let Ok(mut file) = fs::open(files, path) else {
        return Err(FileFault::NotWritten);
    };
    let mut head = [0; HEAD_OCTETS];
    match file.read_exact(&mut head) {
        Ok(()) if head.as_slice() == HEAD => Ok(()),
        Ok(()) => Err(FileFault::NotCounters),
        Err(error) if error.kind() == ErrorKind::UnexpectedEof => Err(FileFault::NotCounters),
        Err(_) => Err(FileFault::NotWritten),
    }
}

/// Returns a name in the directory of a path, which nobody can know before: the path, with a number and `.new` after it.
fn new_name<R: AllocGlobal + RandomSource>(rt: &R, path: &str) -> Result<String, FileFault> {
    let mut random = [0; 8];
    if rt.fill_bytes(&mut random).is_err() {
        return Err(FileFault::NotWritten);
    }
    let number = u64::from_be_bytes(random);
    let Ok(mut name) = String::from_str(rt.alloc(), path) else {
        return Err(FileFault::NotWritten);
    };
    match fmt::Write::write_fmt(&mut name, format_args!(".{number:016x}.new")) {
        Ok(()) => Ok(name),
        Err(_) => Err(FileFault::NotWritten),
    }
}

/// Creates a file of this name, which must not exist yet. Returns which file it is, if it then has the text and its mode,
/// whatever the umask.
fn create<R: Files>(files: &R, name: &str, text: &[u8]) -> Result<Option<FileId>, FileFault>
where
    R::File: Drop,
{
    let opened = OpenOptions::new()
        .write(true)
        .create_new(true)
        .mode(MODE)
        .open(files, name);
    match opened {
        Ok(mut file) => Ok(write(&mut file, text).ok()),
        Err(_) => Err(FileFault::NotWritten),
    }
}

/// Sets a new file's mode, writes the text to it, and returns which file it is.
fn write<F: OpenFile + Write>(file: &mut F, text: &[u8]) -> io::Result<FileId> {
    file.set_permissions(Permissions::from_mode(MODE))?;
    file.write_all(text)?;
    Ok(FileId::of(&file.metadata()?))
}

impl Display for FileFault {
    ghost use Rattle.std.specs.Prelude.{Some};
    ghost use Rattle.rad_telemetry.specs.FileFaults.{fault_words};

    ghost output = { λ fault. Some (fault_words fault) };

    fn fmt<W: fmt::Write>(&self, f: &mut fmt::Formatter<W>) -> fmt::Result {
        match *self {
            FileFault::NotRegular => f.write_str("no regular file"),
            FileFault::NotCounters => f.write_str("no file of counters"),
            FileFault::NotWritten => f.write_str("not written"),
            FileFault::Late => f.write_str("takes longer than a second"),
            FileFault::NoText => f.write_str("RAD_PROXY_COUNTERS is no text"),
        }
    }
}

/// Returns the file that `RAD_PROXY_COUNTERS` names in the environment, if any; an empty value names none. If the value
/// is not UTF-8, it logs `event=counters-fault` and returns none.
///
/// # Errors
///
/// `AllocError` if memory is refused.
pub fn find_counter_file<R: Env + AllocGlobal, L: Log>(
    rt: &R,
    log: &L,
) -> Result<Option<String>, AllocError> {
    find_path(rt, COUNTERS, log, FAULT, &FileFault::NoText)
}

fn log_fault<L: Log>(log: &L, fault: FileFault) {
    warn_of_reason(log, FAULT, &fault);
}

/// Texts for a file that a thread of its own replaces, so that no other thread waits for a file system. If that
/// thread can't keep up, it writes only the newest text.
#[derive(Drop)]
pub struct CounterTexts {
    next: Mutex<NextText>,
    state: WriterState,
}

/// The text to be written next, and what is wrong with the last ones.
#[derive(Drop)]
struct NextText {
    text: Vec<u8>,
    is_new: bool,
    /// What became of the text that was left last.
    newest: Newest,
    /// Whether texts take longer than a second.
    late: Lasting,
    /// Why the last text that was tried was not written, if it was not.
    fault: Option<FileFault>,
    /// Whether that fault was returned.
    is_told: bool,
}

/// What became of the text that was left last.
#[derive(Clone, Copy, PartialEq, Eq)]
enum Newest {
    /// It was written, or the system refused it. So it is if there was none.
    Tried,
    /// It was left less than a second ago.
    InTime,
    /// It was left a second ago or earlier, and was neither written nor refused by then.
    Overdue,
}

/// Whether something lasts, and was told since it began.
#[derive(Clone, Copy, PartialEq, Eq)]
enum Lasting {
    /// It does not.
    Over,
    /// It does, and was not told.
    Untold,
    /// It does, and was told.
    Told,
}

impl CounterTexts {
    /// Makes a value that has no text yet.
    pub fn new(alloc: Global) -> CounterTexts {
        CounterTexts {
            next: Mutex::new(NextText {
                text: Vec::new(alloc),
                is_new: false,
                newest: Newest::Tried,
                late: Lasting::Over,
                fault: None,
                is_told: false,
            }),
            state: WriterState::new(),
        }
    }

    /// Leaves a text to the thread. If the thread has not taken the last one, this replaces it. `text` gets the memory of
    /// an earlier text.
    pub fn leave<R: Wait>(&self, rt: &R, text: &mut Vec<u8>) {
        self.next.lock(rt).set(text);
        self.state.notify();
    }

    /// Notes that a second has passed since the last text was left. If that is neither written nor refused, texts are late
    /// from now on, until one is written within its second.
    pub fn pass_second<R: Wait>(&self, rt: &R) {
        self.next.lock(rt).pass_second();
    }

    /// Logs what is wrong with the texts and was not logged since it began: that they are late, and why the last one that
    /// was tried was not written.
    pub fn tell_faults<R: Wait, L: Log>(&self, rt: &R, log: &L) {
        let [late, fault] = self.next.lock(rt).take_faults();
        for fault in [late, fault].iter().flatten() {
            log_fault(log, *fault);
        }
    }

    /// Writes the texts to a file as they come, until the last one is written. The thread does nothing else.
    pub fn write_all<R: Wait, F: ReplaceFile + Drop>(
        &self,
        rt: &R,
        alloc: Global,
        path: &str,
        mut files: F,
    ) {
        let mut text = Vec::new(alloc);
        for _ in rt.forever() {
            let is_last = self.state.begin_round();
            if self.next.lock(rt).take(&mut text) {
                let outcome = files.replace(path, text.as_slice());
                self.next.lock(rt).finish(outcome.err());
            }
            if is_last {
                self.state.finish();
                return;
            }
            self.state.sleep(rt);
        }
    }

    /// Makes the thread write the last text and end.
    pub fn end(&self) {
        self.state.end();
    }

    /// Waits until the thread, if there is one, has written the last text, at most until `longest` after `start`.
    pub fn wait<R: Clock + Wait>(&self, rt: &R, start: Option<Instant>, longest: Duration) {
        self.state.wait(rt, start, longest);
    }
}

/// Starts a thread that writes the texts to a file, and returns whether that succeeded. No thread joins it: it ends
/// with the program.
pub fn start_texts<R, F>(
    rt: &R,
    alloc: Global,
    texts: &Arc<CounterTexts>,
    path: String,
    files: F,
) -> bool
where
    R: Threads + Wait + Copy + Send + 'static,
    F: ReplaceFile + Drop + Send + 'static,
{
    let Ok(texts) = Arc::try_clone(texts) else {
        return false;
    };
    let own = *rt;
    texts.state.start();
    thread::spawn(
        rt,
        move || texts.write_all(&own, alloc, path.as_str(), files),
    )
    .is_ok()
}

impl NextText {
    fn set(&mut self, text: &mut Vec<u8>) {
        mem::swap(&mut self.text, text);
        self.is_new = true;
        self.newest = Newest::InTime;
    }

    fn pass_second(&mut self) {
        if self.newest == Newest::Tried {
            return;
        }
        self.newest = Newest::Overdue;
        if self.late == Lasting::Over {
            self.late = Lasting::Untold;
        }
    }

    /// Takes the text, and returns whether there was one.
    fn take(&mut self, text: &mut Vec<u8>) -> bool {
        let is_new = self.is_new;
        if is_new {
            mem::swap(&mut self.text, text);
            self.is_new = false;
        }
        is_new
    }

    /// Notes how the text that was taken last ended. If no other one was left meanwhile, it is the newest.
    fn finish(&mut self, fault: Option<FileFault>) {
        if self.fault != fault {
            self.fault = fault;
            self.is_told = false;
        }
        if self.is_new {
            return;
        }
        if self.newest == Newest::InTime && fault.is_none() {
            self.late = Lasting::Over;
        }
        self.newest = Newest::Tried;
    }

    /// Returns what was not returned since it began: that texts are late, and the fault.
    fn take_faults(&mut self) -> [Option<FileFault>; 2] {
        let late = if self.late == Lasting::Untold {
            self.late = Lasting::Told;
            Some(FileFault::Late)
        } else {
            None
        };
        let fault = if self.is_told { None } else { self.fault };
        self.is_told = true;
        [late, fault]
    }
}
