//! Theorems about the definitions. Each function has an empty body; its contract states the theorem.

ghost use Rattle.std.specs.Prelude.{◌≢◌, ℕ, List};
ghost use Rattle.rad_realms.specs.WellFormed.{IsRealmName};
ghost use Rattle.rad_metrics.specs.Samples.{realm_label, others_realm_label};

/// No realm of the table has the label of all other realms.
pub fn other_realms_have_their_own_label()
    ensures { (name : List ℕ) → IsRealmName name → realm_label name ≢ others_realm_label }
{}
