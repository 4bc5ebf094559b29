//! Why a configuration is refused, and at which key.

ghost use Rattle.std.specs.Prelude.{◌≡◌};
ghost use Rattle.rad_config.specs.declared.reading.faults.ConfigFault.TheVariants.{OutOfMemory};

use std::alloc::{AllocError, AllocFailed};
use std::fmt;

/// Why a configuration is refused: the first fault of the walk from the top of the document down. It is printed as its
/// name and its place, such as `OutOfRange at home 0 window`.
#[derive(Clone, Copy, Debug, PartialEq, Eq)]
pub enum ConfigFault {
    /// The text is not TOML.
    Toml,
    /// Memory for the configuration was refused. This says nothing about the text, and reading it again may succeed.
    OutOfMemory,
    /// A required key is absent, or an array that needs at least one table has none.
    Missing(Spot),
    /// A value has another type, or an element of an array of tables is not a table.
    WrongType(Spot),
    /// A number is out of its range, or a text has a wrong form: a secret, or the name of a home server or of a realm.
    OutOfRange(Spot),
    /// An earlier table of the same part has the same address or name.
    DoubleName(Spot),
    /// No home server has this name.
    UnknownHome(Spot),
    /// A text is not an address, or not an address and port.
    BadAddress(Spot),
    /// There are more tables than allowed.
    TooMany(Spot),
}

impl fmt::Display for ConfigFault {
    ghost use Rattle.std.specs.Prelude.{Some};
    ghost use Rattle.rad_config.specs.Spot.{fault_text};

    ghost output = { λ e. Some (fault_text e) };

    fn fmt<W: fmt::Write>(&self, f: &mut fmt::Formatter<W>) -> fmt::Result {
        let (name, spot) = match self {
            ConfigFault::Toml => return f.write_str("Toml"),
            ConfigFault::OutOfMemory => return f.write_str("OutOfMemory"),
            ConfigFault::Missing(spot) => ("Missing", spot),
            ConfigFault::WrongType(spot) => ("WrongType", spot),
            ConfigFault::OutOfRange(spot) => ("OutOfRange", spot),
            ConfigFault::DoubleName(spot) => ("DoubleName", spot),
            ConfigFault::UnknownHome(spot) => ("UnknownHome", spot),
            ConfigFault::BadAddress(spot) => ("BadAddress", spot),
            ConfigFault::TooMany(spot) => ("TooMany", spot),
        };
        write!(f, "{name} at {spot}")
    }
}

impl From<AllocError> for ConfigFault {
    ghost from_gives = { λ _ e. e ≡ OutOfMemory };

    fn from(_e: AllocError) -> ConfigFault {
        ConfigFault::OutOfMemory
    }
}

impl<T: Drop> From<AllocFailed<T>> for ConfigFault {
    ghost from_gives = { λ _ e. e ≡ OutOfMemory };

    fn from(_e: AllocFailed<T>) -> ConfigFault {
        ConfigFault::OutOfMemory
    }
}

/// The place of a fault in a configuration. It is printed as the part, the index, and the key. The top of the
/// configuration has no index.
#[derive(Clone, Copy, Debug, PartialEq, Eq)]
pub struct Spot {
    /// The part that contains the key.
    pub part: Part,
    /// The index of the table in that part, counted from 0. It is 0 for the top.
    pub index: usize,
    /// The key whose value is wrong.
    pub key: Key,
}

impl fmt::Display for Spot {
    ghost use Rattle.std.specs.Prelude.{Some};
    ghost use Rattle.rad_config.specs.Spot.{spot_text};

    ghost output = { λ s. Some (spot_text s) };

    fn fmt<W: fmt::Write>(&self, f: &mut fmt::Formatter<W>) -> fmt::Result {
        let part = self.part.name();
        let key = self.key.name();
        if self.part == Part::Top {
            return write!(f, "{part} {key}");
        }
        let index = self.index;
        write!(f, "{part} {index} {key}")
    }
}

/// A part of the configuration. It is printed in lower case.
#[derive(Clone, Copy, Debug, PartialEq, Eq)]
pub enum Part {
    /// The keys that are in no table.
    Top,
    /// A table `[[client]]`.
    Client,
    /// A table `[[home]]`.
    Home,
    /// A table `[[realm]]`.
    Realm,
}

impl Part {
    ghost use Rattle.std.specs.Prelude.{◌≡◌};
    ghost use Rattle.rad_config.specs.Spot.{part_name};

    /// Returns the part as it is printed.
    pub fn name(self) -> &'static str
        ensures { result.now ≡ part_name self }
    {
        match self {
            Part::Top => "top",
            Part::Client => "client",
            Part::Home => "home",
            Part::Realm => "realm",
        }
    }
}

/// A key of the configuration. It is printed as it is written there.
#[derive(Clone, Copy, Debug, PartialEq, Eq)]
pub enum Key {
    /// `listen`.
    Listen,
    /// `default_home`.
    DefaultHome,
    /// `other_home`.
    OtherHome,
    /// `linger`.
    Linger,
    /// `client`.
    Client,
    /// `home`: the tables of the home servers, or in a realm's table the name of one.
    Home,
    /// `realm`.
    Realm,
    /// `address`.
    Address,
    /// `secret`.
    Secret,
    /// `name`.
    Name,
    /// `window`.
    Window,
    /// `queue`.
    Queue,
    /// `book`.
    Book,
    /// `tries`.
    Tries,
    /// `first_wait`.
    FirstWait,
    /// `probe_every`.
    ProbeEvery,
    /// `down_wait`.
    DownWait,
    /// `span`.
    Span,
    /// `ring`.
    Ring,
    /// `ports`.
    Ports,
}

impl Key {
    ghost use Rattle.std.specs.Prelude.{◌≡◌};
    ghost use Rattle.rad_config.specs.Spot.{key_name};

    /// Returns the key as it is written in the configuration.
    pub fn name(self) -> &'static str
        ensures { result.now ≡ key_name self }
    {
        match self {
            Key::Listen => "listen",
            Key::DefaultHome => "default_home",
            Key::OtherHome => "other_home",
            Key::Linger => "linger",
            Key::Client => "client",
            Key::Home => "home",
            Key::Realm => "realm",
            Key::Address => "address",
            Key::Secret => "secret",
            Key::Name => "name",
            Key::Window => "window",
            Key::Queue => "queue",
            Key::Book => "book",
            Key::Tries => "tries",
            Key::FirstWait => "first_wait",
            Key::ProbeEvery => "probe_every",
            Key::DownWait => "down_wait",
            Key::Span => "span",
            Key::Ring => "ring",
            Key::Ports => "ports",
        }
    }
}
