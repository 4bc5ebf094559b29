//! The limit on the stack of a thread. The system kills the program, which can say nothing then, if a stack grows beyond
//! it.

use libc::types::rlimit;
use libc::{RLIMIT_STACK, getrlimit};
use std::fmt::{self, Display};

/// The least limit with which the program serves, in octets: several times what its first thread takes, which is what
/// takes most.
const LEAST: u64 = 1 << 20;

/// A limit on a stack that is too small, in octets.
#[derive(Clone, Copy)]
pub struct SmallStack(u64);

impl SmallStack {
    /// Returns the limit that the system sets, if it is too small.
    pub fn find() -> Option<SmallStack> {
        let mut limit = rlimit {
            rlim_cur: 0,
            rlim_max: 0,
        };
        if getrlimit(RLIMIT_STACK, &mut limit) == 0 && limit.rlim_cur < LEAST {
            return Some(SmallStack(limit.rlim_cur));
        }
        None
    }
}

impl Display for SmallStack {
    fn fmt<W: fmt::Write>(&self, f: &mut fmt::Formatter<W>) -> fmt::Result {
        let limit = self.0;
        write!(
            f,
            "the limit on a stack is {limit} octets, and has to be {LEAST} at least"
        )
    }
}
