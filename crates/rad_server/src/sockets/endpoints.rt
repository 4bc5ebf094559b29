//! Addresses and ports as the sockets have them.

use rad_realms::Endpoint;
use std::net::{Ipv4Addr, SocketAddr, SocketAddrV4};

pub(crate) fn endpoint_of(socket: SocketAddrV4) -> Endpoint {
    Endpoint {
        address: socket.ip().octets(),
        port: socket.port(),
    }
}

pub(crate) fn socket_address(endpoint: Endpoint) -> SocketAddr {
    let Endpoint { address, port } = endpoint;
    SocketAddr::V4(SocketAddrV4::new(Ipv4Addr::from(address), port))
}
