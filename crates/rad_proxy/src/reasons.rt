//! Why the program ends, and what an operator should know of a configuration: log lines before the line of a fault.

ghost use Rattle.std.specs.Prelude.{◌≡◌, ◌≢◌, IfOk, IsUtf8, option_map};
ghost use Rattle.rad_proxy.specs.Reasons.{name_of_other_home};

use rad_advice::{ConfigText, TextFault, advise_homes, fault_reports, list_warnings, unread_keys};
use rad_log::{Escaped, Level, Log, tell, tell_error, tell_reason, tell_warning, warn_of_reason};
use rad_realms::{Config, ConfigFault};
use std::alloc::Global;
use std::fmt::{self, Display};
use std::io::{Error, ErrorKind};

/// Why a file can't be read.
#[derive(Clone, Copy, Debug, PartialEq, Eq)]
pub enum FileReason {
    /// There is no file of this name.
    Absent,
    Folder,
    /// It has more than 1,048,576 octets.
    TooLong,
    /// It can't be read, for a reason of the system's.
    System,
}

impl FileReason {
    /// Returns the reason that an error of this kind stands for.
    pub fn of(kind: ErrorKind) -> FileReason
        ensures absent { kind ≡ ErrorKind.NotFound → result ≡ FileReason.Absent }
        ensures folder { kind ≡ ErrorKind.IsADirectory → result ≡ FileReason.Folder }
        ensures long { kind ≡ ErrorKind.FileTooLarge → result ≡ FileReason.TooLong }
        ensures other { (kind ≢ ErrorKind.NotFound) → (kind ≢ ErrorKind.IsADirectory) → (kind ≢ ErrorKind.FileTooLarge) → result ≡ FileReason.System }
    {
        match kind {
            ErrorKind::NotFound => FileReason::Absent,
            ErrorKind::IsADirectory => FileReason::Folder,
            ErrorKind::FileTooLarge => FileReason::TooLong,
            _ => FileReason::System,
        }
    }
}

impl Display for FileReason {
    ghost use Rattle.std.specs.Prelude.{Some};
    ghost use Rattle.rad_proxy.specs.Reasons.{file_reason_text};

    ghost output = { λ reason. Some (file_reason_text reason) };

    fn fmt<W: fmt::Write>(&self, f: &mut fmt::Formatter<W>) -> fmt::Result {
        match self {
            FileReason::Absent => f.write_str("there is no such file"),
            FileReason::Folder => f.write_str("it is a folder"),
            FileReason::TooLong => f.write_str("it is longer than 1048576 octets"),
            FileReason::System => f.write_str("it can't be read"),
        }
    }
}

/// The log line of a file that can't be read.
#[derive(Clone, Copy)]
struct FileLine<'a> {
    path: &'a str,
    error: &'a Error,
}

impl Display for FileLine<'_> {
    fn fmt<W: fmt::Write>(&self, f: &mut fmt::Formatter<W>) -> fmt::Result {
        let path = Escaped {
            octets: self.path.as_bytes(),
            also: None,
        };
        let reason = FileReason::of(self.error.kind());
        write!(f, "event=file-fault file={path} reason=\"{reason}")?;
        if reason == FileReason::System {
            let error = self.error;
            write!(f, ": {error}")?;
        }
        f.write_str("\"")
    }
}

/// What is listed in the log, each in a line of its own.
#[derive(Clone, Copy)]
enum Told {
    UnreadKeys,
    Faults,
    Warnings,
}

/// The log line of how many are not listed.
#[derive(Clone, Copy)]
struct MoreLine {
    told: Told,
    count: usize,
}

impl Display for MoreLine {
    ghost use Rattle.std.specs.Prelude.{Some};
    ghost use Rattle.rad_proxy.specs.Reasons.{more_line};

    ghost output = { λ line. Some (more_line line) };

    fn fmt<W: fmt::Write>(&self, f: &mut fmt::Formatter<W>) -> fmt::Result {
        let count = self.count;
        match self.told {
            Told::UnreadKeys => write!(f, "event=unread-keys count={count}"),
            Told::Faults => write!(f, "event=configuration-faults count={count}"),
            Told::Warnings => write!(f, "event=configuration-warnings count={count}"),
        }
    }
}

/// The log line of the home server, of this name, to which all realms lead that are not listed.
#[derive(Clone, Copy)]
struct OtherHomeLine<'a> {
    home: &'a str,
}

impl Display for OtherHomeLine<'_> {
    ghost use Rattle.std.specs.Prelude.{Some};
    ghost use Rattle.rad_proxy.specs.Reasons.{other_home_line};

    ghost output = { λ line. Some (other_home_line line) };

    fn fmt<W: fmt::Write>(&self, f: &mut fmt::Formatter<W>) -> fmt::Result {
        let home = self.home;
        write!(f, "event=other-home home={home}")
    }
}

/// Logs why the file of this path can't be read.
pub fn tell_file<L: Log>(log: &L, path: &str, error: &Error) {
    tell_error(log, &FileLine { path, error });
}

/// Reads octets as the text of a configuration. Logs where they stop being TOML, or which keys are unread. If memory is
/// refused, it logs nothing.
///
/// # Errors
///
/// `Toml` if they are not UTF-8 or not TOML, `OutOfMemory` if memory is refused.
pub fn tell_text<'t, L: Log>(
    alloc: Global,
    log: &L,
    octets: &'t [u8],
) -> Result<ConfigText<'t>, ConfigFault>
    ensures { IfOk result (λ text. IsUtf8 octets.now × (text ≡ octets.now)) }
{
    match ConfigText::read(alloc, octets) {
        Ok(text) => {
            tell_keys(alloc, log, &text);
            Ok(text)
        }
        Err(TextFault::NoToml(error)) => {
            tell_reason(log, "no-toml", &error);
            Err(ConfigFault::Toml)
        }
        Err(TextFault::OutOfMemory) => Err(ConfigFault::OutOfMemory),
    }
}

/// Logs the unread keys of a text. If memory is refused, it logs nothing.
fn tell_keys<L: Log>(alloc: Global, log: &L, text: &ConfigText<'_>) {
    let Ok(keys) = unread_keys(alloc, text) else {
        return;
    };
    for key in keys.first() {
        warn_of_reason(log, "unread-key", key);
    }
    tell_more(log, Told::UnreadKeys, keys.more());
}

/// Logs the faults of a text that is refused. If memory is refused, it logs nothing.
pub fn tell_faults<L: Log>(alloc: Global, log: &L, text: &ConfigText<'_>) {
    if let Ok(faults) = fault_reports(alloc, text) {
        for fault in faults.first() {
            tell_reason(log, "configuration-fault", fault);
        }
        tell_more(log, Told::Faults, faults.more());
    }
}

/// Logs what is hardly meant in a configuration that was read from this text. If memory is refused, it logs nothing.
pub fn tell_doubts<L: Log>(alloc: Global, log: &L, text: &ConfigText<'_>, config: &Config) {
    if let Ok(warnings) = list_warnings(alloc, config, text) {
        for warning in warnings.first() {
            warn_of_reason(log, warning.doubtful.doubt.event(), warning);
        }
        tell_more(log, Told::Warnings, warnings.more());
    }
}

/// Logs to which home server all realms lead that are not listed, if to one.
pub fn tell_other_home<L: Log>(log: &L, config: &Config) {
    if let Some(home) = other_home(config) {
        tell(log, Level::Info, &OtherHomeLine { home });
    }
}

fn other_home(config: &Config) -> Option<&str>
    ensures { option_map (λ name. name.now) result ≡ name_of_other_home config.now }
{
    let lane = config.other_lane()?;
    let home = config.homes().get(usize::from(lane))?;
    Some(home.name())
}

fn tell_more<L: Log>(log: &L, told: Told, count: usize) {
    if count == 0 {
        return;
    }
    let line = MoreLine { told, count };
    match told {
        Told::Faults => tell_error(log, &line),
        Told::UnreadKeys | Told::Warnings => tell_warning(log, &line),
    }
}

/// Logs the home servers that send the proxy its own requests, or that nothing can be sent to, on a machine with these
/// addresses. If memory is refused, it logs nothing.
pub fn tell_homes<L: Log>(alloc: Global, log: &L, config: &Config, local: &[[u8; 4]]) {
    if let Ok(advice) = advise_homes(alloc, config, local) {
        for home in advice.as_slice() {
            warn_of_reason(log, "home-address", home);
        }
    }
}
