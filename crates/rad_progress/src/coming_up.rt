//! How long a home server is marked down, and when it is probed.

ghost use Rattle.std.specs.Prelude.{◌≡◌, ◌⊎◌, ◌+◌, ◌-◌, ◌^◌, ◌<◌, ◌≤◌, ℕ, List, Some, None};
ghost use Rattle.std.specs.List.{AllByRecursion};
ghost use Rattle.rad_config.specs.Limits.{AreInRange};
ghost use Rattle.rad_lane.specs.Book.{Book, moment_in};
ghost use Rattle.rad_lane.specs.Datagrams.{Datagrams};
ghost use Rattle.rad_lane.specs.declared.stepping.Action.{Action};
ghost use Rattle.rad_lane.specs.declared.stepping.Action.TheVariants.{Idle, Probed, WentDown, WentUp};
ghost use Rattle.rad_lane.specs.declared.watch.Watch.TheVariants.{Up as up, Down as down};
ghost use Rattle.rad_lane.specs.Steps.{Steps};
ghost use Rattle.rad_progress.specs.Calls.{Calls, IsStepAt};
ghost use Rattle.rad_progress.specs.Downs.{IsNoProbe, IsNotDown, IsNotUp, ProbesOrGoesUp};
ghost use Rattle.rad_tables.specs.declared.slots.Slot.{Slot};

/// A home server that a step marks down is marked down until `down_wait` after the moment of that step, which is the
/// last moment of the book or the given one, whichever is later. A step at that moment or later marks it up, if it
/// was not marked up before, whatever calls come between; only a call that marks it down again begins another wait.
pub fn down_no_longer_than_its_wait()
    ensures until { (old : Book) (moment : ℕ) (random : List ℕ) (d : Datagrams) (new : Book)
        → Steps old moment random WentDown d new
        → new.watch ≡ down (moment_in old moment + old.setup.limits.down_wait) (moment_in old moment) None }
    ensures comes_up { (old : Book) (moment : ℕ) (random : List ℕ) (d : Datagrams) (marked later_book : Book)
        → (later : ℕ) (octets : List ℕ) (action : Action) (e : Datagrams) (new : Book)
        → Steps old moment random WentDown d marked
        → (calls : Calls marked later_book)
        → AllByRecursion (λ given. IsNotDown given.answer) calls.gives
        → moment_in old moment + old.setup.limits.down_wait ≤ moment_in later_book later
        → Steps later_book later octets action e new
        → (later_book.watch ≡ up) ⊎ ((action ≡ WentUp) × (new.watch ≡ up)) }

    // It is not marked down and up again at one moment.
    ensures not_at_once { (old : Book) (moment : ℕ) (random : List ℕ) (d : Datagrams) (marked new : Book)
        → AreInRange old.setup.limits
        → Steps old moment random WentDown d marked
        → (calls : Calls marked new)
        → AllByRecursion (IsStepAt moment) calls.events
        → AllByRecursion (λ given. IsNotUp given.answer) calls.gives }
{}

/// After a probe, the moment that an idle step names is at most `probe_every` after that of the probe, while the home
/// server is marked down. The first step at that moment or later probes it again, or marks it up. So there are at most
/// `probe_every` milliseconds between two probes, if the lane is stepped at each moment that an idle step names. A
/// moment of 2^62 - 1 is the last one that can be named.
pub fn probed_in_time()
    ensures { (old : Book) (moment : ℕ) (random : List ℕ) (slot : Slot) (d : Datagrams) (probed later_book : Book)
        → (then : ℕ) (octets : List ℕ) (named : ℕ) (e : Datagrams) (idle : Book)
        → (later : ℕ) (other : List ℕ) (action : Action) (f : Datagrams) (new : Book)
        → Steps old moment random (Probed slot) d probed
        → (calls : Calls probed later_book)
        → AllByRecursion (λ given. IsNoProbe given.answer) calls.gives
        → Steps later_book then octets (Idle (Some named)) e idle
        → named < 2 ^ 62 - 1
        → named ≤ moment_in idle later
        → Steps idle later other action f new
        → (later_book.watch ≡ up) ⊎ ((named ≤ moment_in old moment + old.setup.limits.probe_every) × ProbesOrGoesUp action) }
{}
