//! Ranges of UDP ports: reading them from texts, and which ports a lane may try.

ghost use Rattle.std.specs.Prelude.{◌≡◌, ◌<◌, ◌++◌, option_to_list, IfOk, IfSome, Result};
ghost use Rattle.std.specs.List.{list_any};
ghost use Rattle.rad_server.specs.Ports.{range_around, pinned_by, range_of_system, reserved_item, reserved_in, holds, is_usual, is_kept, candidate, IsOutside};

use rad_config::{read_number, split_around};
use std::alloc::{AllocError, Global};
use std::fmt;

/// The ports from `first` to `last`.
#[derive(Clone, Copy, Debug, PartialEq, Eq)]
pub struct PortRange {
    pub first: u16,
    pub last: u16,
}

/// Why a text does not say which ports the lanes send from.
#[derive(Clone, Copy, Debug, PartialEq, Eq)]
pub enum PortsFault {
    /// It is not UTF-8.
    NoText,
    /// It is not two ports from 1 to 65535 with `-` between them, the first not above the second.
    NoRange,
    /// There are fewer ports than the lanes need.
    TooFew {
        /// How many ports there are.
        ports: u32,
        /// How many the lanes need.
        needed: u32,
    },
}

/// The range from which Linux chooses a port, unless it is set otherwise.
const USUAL_RANGE: PortRange = PortRange {
    first: 32768,
    last: 60999,
};

/// The greatest of the ports that are for root alone.
const ROOTS: u16 = 1023;

/// If fewer ports than these are below the system's range, those above it are tried too.
const FEW: u16 = 8192;

impl PortRange {
    pub(crate) fn single(port: u16) -> PortRange
        ensures { (result.first ≡ port) × (result.last ≡ port) }
    {
        PortRange {
            first: port,
            last: port,
        }
    }

    pub(crate) fn holds(&self, port: u16) -> bool
        ensures { result ≡ holds self.now port }
    {
        self.first <= port && port <= self.last
    }
}

/// Returns the range that a value of `RAD_PROXY_SOURCE_PORTS` names for lanes that need so many ports; none if it is
/// empty.
///
/// # Errors
///
/// `NoRange` if it is none of that form, and `TooFew` if it has fewer ports.
pub fn read_pinned(value: &str, needed: u32) -> Result<Option<PortRange>, PortsFault>
    ensures { result ≡ pinned_by value.now needed }
{
    if value.is_empty() {
        return Ok(None);
    }
    let Some(range) = read_range(1, '-', value) else {
        return Err(PortsFault::NoRange);
    };
    let ports = u32::from(range.last.saturating_sub(range.first)) + 1;
    if ports < needed {
        return Err(PortsFault::TooFew { ports, needed });
    }
    Ok(Some(range))
}

/// Returns the range from which Linux chooses a port, by its text of /proc/sys/net/ipv4/ip_local_port_range: the usual one
/// if it is no such text.
pub fn read_system_range(text: &str) -> PortRange
    ensures { result ≡ range_of_system text.now }
{
    match read_range(1, '\t', text.trim_end()) {
        Some(range) => range,
        None => USUAL_RANGE,
    }
}

/// Returns the ranges that Linux's text of /proc/sys/net/ipv4/ip_local_reserved_ports lists.
///
/// # Errors
///
/// `AllocError` if memory is refused.
pub fn read_reserved(alloc: Global, text: &str) -> Result<Vec<PortRange>, AllocError>
    ensures { IfOk result (λ ranges. ranges.items ≡ reserved_in text.now) }
{
    let mut ranges = Vec::new(alloc);
    for item in text.trim_end().split(',') {
        add_item(&mut ranges, item)?;
    }
    Ok(ranges)
}

/// Adds the range that an item of that list is, if it is one.
///
/// # Errors
///
/// `AllocError` if memory is refused.
fn add_item(ranges: &mut Vec<PortRange>, item: &str) -> Result<(), AllocError>
    ensures { IfOk result (λ _. ranges.new.items ≡ ranges.old.items ++ option_to_list (reserved_item item.now)) }
{
    match read_item(item) {
        Some(range) => Ok(ranges.push(range)?),
        None => Ok(()),
    }
}

/// Returns the range that an item of that list is: a port, or two with `-` between them.
#[tactic(auto, unfolding(crate::specs::Ports::reserved_item))]
fn read_item(item: &str) -> Option<PortRange>
    ensures { result ≡ reserved_item item.now }
{
    match read_number(0, 65535, item) {
        Some(port) => Some(PortRange::single(port)),
        None => read_range(0, '-', item),
    }
}

/// Returns whether a port is left to others: a usual one of RADIUS, or one of these ranges.
pub fn is_kept(ranges: &[PortRange], port: u16) -> bool
    ensures { result ≡ is_kept ranges.now port }
{
    is_usual(port) || is_in_one(ranges, port)
}

fn is_in_one(ranges: &[PortRange], port: u16) -> bool
    ensures { result ≡ list_any (λ range. holds range port) ranges.now }
{
    ranges.iter().any(|range| range.holds(port))
}

/// Returns whether it is a port at which a server of RADIUS may be started on this machine: of authentication and accounting
/// (1812 and 1813 by RFC 2865 and RFC 2866, 1645 and 1646 before them), that of FreeRADIUS' proxy (1814), of dynamic
/// authorization (3799 by RFC 5176, 1700 before it), or of RADIUS over DTLS (2083 by RFC 7360).
#[tactic(auto, unfolding(crate::specs::Ports::is_usual))]
fn is_usual(port: u16) -> bool
    ensures { result ≡ is_usual port }
{
    port == 1645
        || port == 1646
        || port == 1700
        || port == 1812
        || port == 1813
        || port == 1814
        || port == 2083
        || port == 3799
}

/// Returns the port that a random number chooses outside of the system's range: below it, and if few are there above it
/// too. `None` if there is none.
pub fn choose_port(system: PortRange, random: u64) -> Option<u16>
    ensures chosen { result ≡ candidate system random }
    ensures outside { IfSome result (IsOutside system) }
{
    let below = u64::from(system.first.saturating_sub(ROOTS + 1));
    let top = u64::from(system.last.max(ROOTS));
    let above = if below < u64::from(FEW) {
        65535 - top
    } else {
        0
    };
    if below + above == 0 {
        return None;
    }
    let place = random % (below + above);
    let port = if place < below {
        u64::from(ROOTS) + 1 + place
    } else {
        top + 1 + (place - below)
    };
    Some(port as u16)
}

impl fmt::Display for PortsFault {
    ghost use Rattle.std.specs.Prelude.{Some};
    ghost use Rattle.rad_server.specs.Ports.{fault_words};

    ghost output = { λ fault. Some (fault_words fault) };

    fn fmt<W: fmt::Write>(&self, f: &mut fmt::Formatter<W>) -> fmt::Result {
        match *self {
            PortsFault::NoText => f.write_str("RAD_PROXY_SOURCE_PORTS is no text"),
            PortsFault::NoRange => f.write_str(
                "RAD_PROXY_SOURCE_PORTS is no FIRST-LAST of ports from 1 to 65535",
            ),
            PortsFault::TooFew { .. } => {
                f.write_str("RAD_PROXY_SOURCE_PORTS has fewer ports than the lanes need")
            }
        }
    }
}

/// Reads two numbers up to 65535, from the `least` on, with a sign between them, an ASCII character: the ports from the
/// first to the second, which is not below it.
#[tactic(auto, unfolding(crate::specs::Ports::range_around))]
fn read_range(least: u16, sign: char, text: &str) -> Option<PortRange>
    requires { sign < 128 }
    ensures { result ≡ range_around least sign text.now }
{
    let (first, last) = split_around(text, sign)?;
    let first = read_number(least, 65535, first)?;
    let last = read_number(least, 65535, last)?;
    if first <= last {
        Some(PortRange { first, last })
    } else {
        None
    }
}
