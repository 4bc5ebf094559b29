//! Warnings about home servers whose address cannot be correct: it is not the address of a host, or it is the proxy's
//! own.

ghost use Rattle.std.specs.Prelude.{◌≡◌, ◌++◌, map, option_map, IfOk, OnOk};
ghost use Rattle.std.specs.List.{list_any};
ghost use Rattle.std.specs.Option.{option_to_list};
ghost use Rattle.std.specs.Str.{bytes_eq};
ghost use Rattle.rad_advice.specs.Homes.{Advice, advice_told, is_local as belongs_here, is_served as comes_to, address_fault as fault_at, advice_of, advice_of_all};

use rad_realms::{Config, Endpoint, Home};
use std::alloc::{AllocError, Global};
use std::fmt;

/// Why the address and port of a home server cannot be correct.
#[derive(Clone, Copy, PartialEq, Eq)]
pub enum AddressFault {
    /// The proxy itself receives what is sent to it, on `listen`, so each request would come back as one of a client. An
    /// address 0.0.0.0 is `Unspecified`.
    Listen,
    /// The address is 0.0.0.0, which no host has.
    Unspecified,
    /// The address is 255.255.255.255, which stands for every host of the network (RFC 919 section 7).
    Broadcast,
    /// The address is that of a group of hosts: 224.0.0.0/4 (RFC 5771 section 3).
    Multicast,
    /// The address is reserved for future use: 240.0.0.0/4 (RFC 1112 section 4).
    Reserved,
}

/// A home server, and the fault of its address. It is printed as one line.
#[derive(Clone, Copy)]
pub struct HomeAdvice<'c> {
    /// The home server's name in the configuration.
    pub name: &'c str,
    /// The address and port that requests would be sent to.
    pub endpoint: Endpoint,
    /// The fault of that address and port.
    pub fault: AddressFault,
}

impl fmt::Display for AddressFault {
    ghost use Rattle.std.specs.Prelude.{Some};
    ghost use Rattle.rad_advice.specs.Printed.{address_fault_text};

    ghost output = { λ fault. Some (address_fault_text fault) };

    fn fmt<W: fmt::Write>(&self, f: &mut fmt::Formatter<W>) -> fmt::Result {
        match self {
            AddressFault::Listen => f.write_str("listen serves it, so requests would come back"),
            AddressFault::Unspecified => f.write_str("no host has this address"),
            AddressFault::Broadcast => f.write_str("it is the broadcast address"),
            AddressFault::Multicast => f.write_str("it is a multicast address"),
            AddressFault::Reserved => f.write_str("it is a reserved address"),
        }
    }
}

impl fmt::Display for HomeAdvice<'_> {
    ghost use Rattle.std.specs.Prelude.{Some};
    ghost use Rattle.rad_advice.specs.Printed.{home_advice_text};

    ghost output = { λ advice. Some (home_advice_text advice) };

    fn fmt<W: fmt::Write>(&self, f: &mut fmt::Formatter<W>) -> fmt::Result {
        let name = self.name;
        let endpoint = self.endpoint;
        let fault = self.fault;
        write!(f, "home {name} at {endpoint}: {fault}")
    }
}

/// Returns the faults of the home servers' addresses, in the order of the configuration. Home servers without a fault
/// are omitted. `local` are the addresses of this machine, except those of 127.0.0.0/8.
///
/// # Errors
///
/// If memory is refused.
pub fn advise_homes<'c>(
    alloc: Global,
    config: &'c Config,
    local: &[[u8; 4]],
) -> Result<Vec<HomeAdvice<'c>>, AllocError>
    ensures { IfOk result (λ advice. map advice_told advice.items ≡ advice_of_all local.now config.now) }
{
    let mut advice = Vec::new(alloc);
    let listen = config.listen();
    for home in config.homes() {
        let one = advise_home(listen, local, home);
        add_advice(&mut advice, one)?;
    }
    Ok(advice)
}

/// Returns the fault of a home server's address, if there is one, for a proxy that listens on `listen`. `local` are
/// the addresses of this machine, except those of 127.0.0.0/8.
#[tactic(auto, unfolding(crate::specs::Homes::advice_of))]
pub fn advise_home<'c>(
    listen: Endpoint,
    local: &[[u8; 4]],
    home: &'c Home,
) -> Option<HomeAdvice<'c>>
    ensures { option_map advice_told result ≡ advice_of listen local.now home.now }
{
    let endpoint = Endpoint {
        address: home.address(),
        port: home.port(),
    };
    let is_host = endpoint.address != [0, 0, 0, 0];
    let fault = if is_host && is_served(listen, local, endpoint) {
        AddressFault::Listen
    } else {
        address_fault(endpoint.address)?
    };
    Some(HomeAdvice {
        name: home.name(),
        endpoint,
        fault,
    })
}

fn is_served(listen: Endpoint, local: &[[u8; 4]], to: Endpoint) -> bool
    ensures { result ≡ comes_to listen local.now to }
{
    if listen.port != to.port {
        return false;
    }
    listen.address == to.address || (listen.address == [0, 0, 0, 0] && is_local(local, to.address))
}

fn is_local(local: &[[u8; 4]], address: [u8; 4]) -> bool
    ensures { result ≡ belongs_here local.now address }
{
    address[0] == 127 || has_address(local, address)
}

fn address_fault(address: [u8; 4]) -> Option<AddressFault>
    ensures { result ≡ fault_at address }
{
    if address == [0, 0, 0, 0] {
        Some(AddressFault::Unspecified)
    } else if address == [255, 255, 255, 255] {
        Some(AddressFault::Broadcast)
    } else if address[0] >= 240 {
        Some(AddressFault::Reserved)
    } else if address[0] >= 224 {
        Some(AddressFault::Multicast)
    } else {
        None
    }
}

/// For the proof: appends the fault of a home server, if there is one.
fn add_advice<'c>(
    advice: &mut Vec<HomeAdvice<'c>>,
    one: Option<HomeAdvice<'c>>,
) -> Result<(), AllocError>
    ensures { OnOk result (map advice_told advice.new.items ≡ map advice_told advice.old.items ++ option_to_list (option_map advice_told one.entry)) }
{
    if let Some(one) = one {
        advice.push(one)?;
    }
    Ok(())
}

/// For the proof: whether `address` is one of `local`.
fn has_address(local: &[[u8; 4]], address: [u8; 4]) -> bool
    ensures { result ≡ list_any (λ own. bytes_eq own address) local.now }
{
    local.iter().any(|own| is_same(*own, address))
}

/// For the proof: whether two addresses are equal.
fn is_same(one: [u8; 4], other: [u8; 4]) -> bool
    ensures { result ≡ bytes_eq one other }
{
    one == other
}
