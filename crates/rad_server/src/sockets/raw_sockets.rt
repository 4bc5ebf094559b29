//! Calls that `std` lacks: options of a socket, and a socket that is bound beside another.

use libc::net::{
    _SS_SIZE, AF_INET, SO_RCVBUF, SO_REUSEPORT, SO_SNDBUF, SOCK_CLOEXEC, SOCK_DGRAM, SOCK_NONBLOCK,
    SOL_SOCKET, bind, getsockopt, setsockopt, socket,
};
use os::FromRawFd;
use rad_realms::Endpoint;
use std::io::{Error, Result};
use std::net::UdpSocket;
use std::os::fd::{AsRawFd, RawFd};

/// The octets of an address that C reads.
const ADDRESS_OCTETS: u32 = 16;

/// Asks for a receive buffer and a send buffer of `octets` octets each. The system may grant less. If it refuses, the
/// socket still works, and loses datagrams earlier.
pub(crate) fn widen(socket: &UdpSocket, octets: i32) {
    let value = option_value(octets);
    let descriptor = socket.as_raw_fd();
    let _ = unsafe { setsockopt(descriptor, SOL_SOCKET, SO_RCVBUF, &value, 4) };
    let _ = unsafe { setsockopt(descriptor, SOL_SOCKET, SO_SNDBUF, &value, 4) };
}

/// Returns how many octets of receive buffer were granted, counted as `widen` asks for them; 0 if the system does not
/// say.
pub(crate) fn granted(socket: &UdpSocket) -> u32 {
    let mut value = [0; 16];
    let mut length = 4;
    let descriptor = socket.as_raw_fd();
    let answer = unsafe { getsockopt(descriptor, SOL_SOCKET, SO_RCVBUF, &mut value, &mut length) };
    if answer < 0 {
        return 0;
    }
    // Linux doubles the size that it is asked for, to hold what it keeps besides the octets, and returns the double.
    u32::from_ne_bytes([value[0], value[1], value[2], value[3]]) / 2
}

/// Sets whether other sockets of the same user that are shared too may be bound to the same address and port from now
/// on. No other user's may: Linux compares the users for this option, `SO_REUSEPORT`, and not for `SO_REUSEADDR`.
///
/// # Errors
///
/// The system's error.
pub(crate) fn set_shared(socket: &UdpSocket, is_shared: bool) -> Result<()> {
    share(socket.as_raw_fd(), i32::from(is_shared))
}

/// Returns a non-blocking socket that is bound beside a shared one, and that receives what is sent to this address
/// alone.
///
/// # Errors
///
/// The system's error.
pub(crate) fn bind_beside(endpoint: Endpoint) -> Result<UdpSocket> {
    let socket = new_socket()?;
    set_shared(&socket, true)?;
    let address = raw_address(endpoint);
    check(unsafe { bind(socket.as_raw_fd(), &address, ADDRESS_OCTETS) })?;
    Ok(socket)
}

/// Returns a socket that is non-blocking, not bound, and closed in every program that this one starts.
fn new_socket() -> Result<UdpSocket> {
    let kind = SOCK_DGRAM | SOCK_NONBLOCK | SOCK_CLOEXEC;
    let descriptor = unsafe { socket(AF_INET, kind, 0) };
    if descriptor < 0 {
        return Err(last_error());
    }
    Ok(unsafe { UdpSocket::from_raw_fd(descriptor) })
}

fn share(descriptor: RawFd, is_shared: i32) -> Result<()> {
    let value = option_value(is_shared);
    check(unsafe { setsockopt(descriptor, SOL_SOCKET, SO_REUSEPORT, &value, 4) })
}

fn raw_address(endpoint: Endpoint) -> [u8; _SS_SIZE] {
    let mut raw = [0; _SS_SIZE];
    raw[..2].copy_from_slice(&(AF_INET as u16).to_ne_bytes());
    raw[2..4].copy_from_slice(&endpoint.port.to_be_bytes());
    raw[4..8].copy_from_slice(&endpoint.address);
    raw
}

fn option_value(number: i32) -> [u8; 16] {
    let [a, b, c, d] = number.to_ne_bytes();
    [a, b, c, d, 0, 0, 0, 0, 0, 0, 0, 0, 0, 0, 0, 0]
}

fn check(answer: i32) -> Result<()> {
    if answer < 0 {
        return Err(last_error());
    }
    Ok(())
}

fn last_error() -> Error {
    Error::from_raw_os_error(os::errno())
}
