//! Reports on a configuration for its operator: where a text stops being TOML, all of its faults, with their values and
//! a hint, which keys are not read, what is hardly meant as it is, and which home servers have an address that is not
//! the address of a host, or is the proxy's own.
//!
//! [`ConfigText::read`] reads a text once, and all reports are made of what it returns. Nothing here changes how a
//! configuration is read: only `rad_realms::read_config` does that. `specs/Place.antt`
//! defines the place of an octet in a text, `specs/Faults.antt` what is told of a fault, `specs/Keys.antt` which keys of
//! a document are not read, `specs/Doubts.antt` what is hardly meant, and `specs/Homes.antt` the faults of a home
//! server's address. Each report is printed as one line.
#![tactic(auto)]

mod config_text;
mod doubts;
mod faults;
mod finding;
mod hints;
mod homes;
mod keys;
mod listed;
mod name_text;
mod near;
mod place;
mod syntax;
mod tokens;
mod unread;

pub use config_text::{ConfigText, TextFault};
pub use doubts::{Doubt, Doubtful, Warning, list_warnings};
pub use faults::{FaultReport, fault_reports};
pub use homes::{AddressFault, HomeAdvice, advise_home, advise_homes};
pub use listed::Listed;
pub use place::{TextPlace, place_of};
pub use syntax::SyntaxError;
pub use unread::{UnreadKey, unread_keys};
