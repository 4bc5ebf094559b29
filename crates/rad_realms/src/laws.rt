//! A theorem about the definitions. Its function has an empty body, and its contract states the theorem.

ghost use Rattle.std.specs.Prelude.{◌≡◌, List, ℕ};
ghost use Rattle.rad_realms.specs.declared.checking.Dropped.{Dropped};
ghost use Rattle.rad_realms.specs.declared.checking.Incoming.{Incoming};
ghost use Rattle.rad_config.specs.Configuration.{Configuration};
ghost use Rattle.rad_realms.specs.Checking.{Drops};
ghost use Rattle.rad_realms.specs.Incoming.{Takes};

/// No datagram is dropped for two reasons, and none that passes the checks is dropped.
pub fn taken_or_dropped_once()
    ensures reason { (config : Configuration) (address datagram : List ℕ) (e f : Dropped) → Drops config address datagram e → Drops config address datagram f → e ≡ f }
    ensures taken { (config : Configuration) (address : List ℕ) (port : ℕ) (datagram : List ℕ) (taken : Incoming) (e : Dropped) → Takes config address port datagram taken → Drops config address datagram e → ⊥ }
{}
