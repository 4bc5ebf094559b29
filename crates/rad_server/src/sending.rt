//! What the workers send: it is gathered, handed to the system together, and kept while the system takes nothing.

mod client_queue;
mod client_queues;
mod departing;
mod kept;
mod outbox;

pub(crate) use departing::{Departures, Reports};
pub(crate) use outbox::Sent;
