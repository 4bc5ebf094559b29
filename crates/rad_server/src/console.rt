//! The commands of standard input, and the lines of standard output.

mod attending;
mod interrupting;
mod printing;
mod streams;

pub(crate) use attending::{Console, attend};
pub use interrupting::Interruptible;
pub(crate) use printing::Output;
pub use streams::{Descriptors, Streams};
