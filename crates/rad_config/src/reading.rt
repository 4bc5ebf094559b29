//! Reading a configuration from its text, from the walk over the document down to the value of one key, and the faults
//! of it.

mod address;
mod arrays;
mod document;
mod faults;
mod listing;
mod sections;
mod walk;

pub use address::{AddressText, Endpoint, read_address, read_number, split_around};
pub use faults::{ConfigFault, Key, Part, Spot};
pub use listing::list_faults;
pub use walk::{read_config, read_document};
