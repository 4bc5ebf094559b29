//! The responses of earlier runs that are remembered.

ghost use Rattle.std.specs.Prelude.{◌≡◌, ℕ, List, Option, None, Some, IfSome};
ghost use Rattle.rad_tables.specs.declared.duplicates.Key.{Key};
ghost use Rattle.rad_lane.specs.Accepts.{request_key};
ghost use Rattle.rad_desk.specs.declared.ledger.Earlier.{Earlier as TheEarlier};

use crate::ledger::Earlier;
use rad_packet::Datagram;
use rad_realms::Checked;

/// The responses of earlier runs that are remembered.
///
/// Contracts see it as the response to the request of each key, and as what names that, as far as one is remembered.
pub trait Memory {
    ghost remembered: { Self → Key → Option (List ℕ) };

    ghost named: { Self → Key → Option TheEarlier };

    /// Writes the response that an earlier run gave to a request of this key, and returns what names it, if one is still
    /// remembered. It must not wait for anything.
    fn recall(&self, request: &Checked<'_>, written: &mut Datagram) -> Option<Earlier>
        ensures response { IfSome result (λ _. remembered self.now (request_key request.now) ≡ Some written.new) }
        ensures name { IfSome result (λ its. named self.now (request_key request.now) ≡ Some its) };
}

/// Nothing is remembered.
#[derive(Clone, Copy, Debug, Drop)]
pub struct NothingRemembered;

impl Memory for NothingRemembered {
    ghost remembered = { λ _ _. None };

    ghost named = { λ _ _. None };

    fn recall(&self, _request: &Checked<'_>, _written: &mut Datagram) -> Option<Earlier> {
        None
    }
}
