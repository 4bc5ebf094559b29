//! A gate that makes a worker end by itself.

use rad_desk::{Call, Gate, Go, Worker};
use rad_server::SocketReports;
use std::sync::atomic::{AtomicBool, Ordering};

/// Makes one worker end by itself once that is due, and notes that the front accepted a request.
#[derive(Drop)]
pub struct Ending {
    worker: Worker,
    is_due: AtomicBool,
    has_accepted: AtomicBool,
}

impl Ending {
    pub fn new(worker: Worker, is_due: bool) -> Ending {
        Ending {
            worker,
            is_due: AtomicBool::new(is_due),
            has_accepted: AtomicBool::new(false),
        }
    }

    /// Returns whether a request was accepted. From then on the end is due.
    pub fn is_due_after_a_request(&self) -> bool {
        let has_accepted = self.has_accepted.load(Ordering::SeqCst);
        self.is_due.store(has_accepted, Ordering::SeqCst);
        has_accepted
    }
}

impl Gate for Ending {
    fn before(&self, worker: Worker, _call: Call) -> Go {
        if worker == self.worker && self.is_due.load(Ordering::SeqCst) {
            Go::Stop
        } else {
            Go::On
        }
    }

    fn after(&self, _worker: Worker, call: Call) {
        if call == Call::Accept {
            self.has_accepted.store(true, Ordering::SeqCst);
        }
    }
}

impl SocketReports for Ending {}
