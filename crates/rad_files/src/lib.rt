//! What is read as a whole: a file up to a bound ([`read_at_most`]), and a configuration ([`load_configuration`], [`read_configuration`]).
//! `specs/Configurations.antt` defines which octets are one.
#![tactic(auto)]

mod bounded;
mod configuration;

pub use bounded::read_at_most;
pub use configuration::{LoadFault, MOST_FILE_OCTETS, load_configuration, read_configuration};
