//! The clients, home servers and realms of a RADIUS accounting proxy (RFC 2866 section 2.1), and reading them from a
//! configuration. `rad_realms`, which checks datagrams against them, passes all of it on.
//!
//! Contracts describe a configuration by its content (`specs/Configuration.antt`). `specs/Walk.antt` defines which
//! configuration a document gives, `specs/WellFormed.antt` the invariant of a configuration, and `specs/Realm.antt` the
//! lane of a realm.
#![tactic(auto)]

mod clients;
mod config;
mod homes;
mod laws;
mod limits;
mod name;
mod reading;
mod realms;

pub use clients::Client;
pub use config::Config;
pub use homes::Home;
pub use laws::{
    addresses_have_one_text, configurations_are_well_formed, endpoints_have_one_text,
    no_fault_in_range, numbers_have_one_text, realm_follows_the_last_sign,
    the_walk_stops_at_the_first_fault, without_other_home_nothing_changed,
};
pub use limits::{DEFAULT_LIMITS, LimitFault, LimitNumbers, Limits};
pub use reading::{
    AddressText, ConfigFault, Endpoint, Key, Part, Spot, list_faults, read_address, read_config,
    read_document, read_number, split_around,
};
pub use realms::{Destination, Realm, Realms, realm_of};
