//! Checking a datagram that comes from a client of a RADIUS accounting proxy (RFC 2866 section 2.1). The clients, home
//! servers and realms, and reading them from a configuration, are `rad_config`'s, and are passed on here.
//!
//! Contracts describe a configuration by its content (`Configuration` of `rad_config`). `specs/Checking.antt` defines
//! the properties of a checked datagram, and `specs/Incoming.antt` how one is taken.
#![tactic(auto)]

mod checking;
mod laws;

pub use checking::{
    Checked, CheckedStatus, DROPPED, Dropped, Incoming, check_in, realm_of_packet, user_name_of,
};
pub use laws::taken_or_dropped_once;
pub use rad_config::{
    AddressText, Client, Config, ConfigFault, DEFAULT_LIMITS, Destination, Endpoint, Home, Key,
    LimitFault, LimitNumbers, Limits, Part, Realm, Realms, Spot, addresses_have_one_text,
    configurations_are_well_formed, endpoints_have_one_text, list_faults, no_fault_in_range,
    numbers_have_one_text, read_address, read_config, read_document, realm_follows_the_last_sign,
    without_other_home_nothing_changed,
};
