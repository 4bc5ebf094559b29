//! The addresses of this machine, and from which of its sockets each client is answered.
//!
//! [`read_local_addresses`] reads the addresses as Linux lists them. The contract to read first is that of
//! [`list_local`]: it says which addresses a text lists. [`Origins`] keeps to which socket the last datagram of each
//! client came.
#![tactic(auto)]

mod fib_trie;
mod known_addresses;
mod local_addresses;
mod origins;

pub use fib_trie::list_local;
pub use known_addresses::KnownAddresses;
pub use local_addresses::{LocalAddresses, read_local_addresses};
pub use origins::Origins;
