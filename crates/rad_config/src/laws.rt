//! Theorems about the definitions. Each function has an empty body; its contract states the theorem.

ghost use Rattle.std.specs.Prelude.{◌≡◌, ◌<◌, ◌≤◌, ◌^◌, true, ◌↔◌, ◌==◌, ◌++◌, ◌∷◌, [], List, ℕ, Option, Some, None, not};
ghost use Rattle.std.specs.List.{list_all};
ghost use Rattle.std.specs.Fmt.{decimal};
ghost use Rattle.rad_config.specs.declared.limits.LimitNumbers.{LimitNumbers};
ghost use Rattle.rad_config.specs.Limits.{AreInRange, limits_of, first_fault};
ghost use Rattle.rad_config.specs.declared.reading.address.Endpoint.{Endpoint};
ghost use Rattle.rad_config.specs.Address.{number_in, address_in, endpoint_in, IsAddress};
ghost use Rattle.rad_config.specs.Printed.{address_text, endpoint_text};
ghost use Rattle.rad_config.specs.Realm.{realm_in, lane_by, IsRank};
ghost use Rattle.rad_config.specs.Configuration.{Configuration};
ghost use Rattle.std.specs.Prelude.{Ok};
ghost use Rattle.rad_config.specs.Walk.{configuration_in};
ghost use Rattle.rad_config.specs.WellFormed.{IsWellFormed};
ghost use Rattle.std.specs.Result.{result_err};
ghost use Rattle.toml.specs.Data.{Members, get_member};
ghost use Rattle.rad_config.specs.declared.reading.faults.Key.TheVariants.{OtherHome};
ghost use Rattle.rad_config.specs.Spot.{key_name};
ghost use Rattle.rad_config.specs.Walk.{walk};
ghost use Rattle.rad_config.specs.Faults.{first_of, faults_in};
ghost use Rattle.rad_config.specs.WithoutOtherHome.{walk_without, faults_without, lane_without, IsRankWithout};

/// Numbers have no fault exactly if each of them is in its range.
pub fn no_fault_in_range()
    ensures { (n : LimitNumbers) → (first_fault (limits_of n) ≡ None) ↔ AreInRange n }
{}

/// The realm of a User-Name is the part after the last `@`, whatever stands before it. A name without `@` has none.
pub fn realm_follows_the_last_sign()
    ensures follows { (front realm : List ℕ) → list_all (λ o. not (o == 64)) realm ≡ true → realm_in (front ++ 64 ∷ realm) ≡ Some realm }
    ensures none { (name : List ℕ) → list_all (λ o. not (o == 64)) name ≡ true → realm_in name ≡ None }
{}

/// Only its own text is read as a number.
pub fn numbers_have_one_text()
    ensures read { (least most n : ℕ) → n < 2 ^ 64 → least ≤ n → n ≤ most → number_in least most (decimal n) ≡ Some n }
    ensures only { (least most n : ℕ) (text : List ℕ) → number_in least most text ≡ Some n → n < 2 ^ 64 → text ≡ decimal n }
{}

/// Only its own text is read as an address.
pub fn addresses_have_one_text()
    ensures read { (address : List ℕ) → IsAddress address → address_in (address_text address) ≡ Some address }
    ensures only { (address text : List ℕ) → address_in text ≡ Some address → (text ≡ address_text address) × IsAddress address }
{}

/// Only its own text is read as an address and port.
pub fn endpoints_have_one_text()
    ensures read { (e : Endpoint) → IsAddress e.address → 1 ≤ e.port → e.port ≤ 65535 → endpoint_in (endpoint_text e) ≡ Some e }
    ensures only { (e : Endpoint) (text : List ℕ) → endpoint_in text ≡ Some e → (text ≡ endpoint_text e) × IsAddress e.address × (1 ≤ e.port) × (e.port ≤ 65535) }
{}

/// Each configuration that a text gives is well-formed (`specs/WellFormed.antt`).
pub fn configurations_are_well_formed()
    ensures { (text : List ℕ) (config : Configuration) → configuration_in text ≡ Ok config → IsWellFormed config }
{}

/// The first of the listed faults of a document is the one at which the walk stops.
pub fn the_walk_stops_at_the_first_fault()
    ensures { (doc : Members) → first_of (faults_in doc) ≡ result_err (walk doc) }
{}

/// Where a document has no key `other_home`, it gives the configuration, or the first fault, and has the faults that it
/// had before there was this key. Where no lane takes the realms that are not listed, the lane of a realm, of a
/// User-Name and of a packet is what it was by the table and the default, and so is the rank
/// (`specs/WithoutOtherHome.antt`).
pub fn without_other_home_nothing_changed()
    ensures walk { (doc : Members) → get_member (key_name OtherHome) doc ≡ None → walk doc ≡ walk_without doc }
    ensures faults { (doc : Members) → get_member (key_name OtherHome) doc ≡ None → faults_in doc ≡ faults_without doc }
    ensures lane { (c : Configuration) (realm : Option (List ℕ)) → c.other_lane ≡ None → lane_by c realm ≡ lane_without c.realms c.default_lane realm }
    ensures rank { (c : Configuration) (realm : Option (List ℕ)) (lane : ℕ) (rank : Option ℕ) → c.other_lane ≡ None → lane_by c realm ≡ Some lane → IsRank c.realms lane realm rank → IsRankWithout c.realms lane realm rank }
{}
