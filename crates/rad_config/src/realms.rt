//! Realms, their lanes, and the realm of a User-Name.

ghost use Rattle.std.specs.Prelude.{◌≡◌, ◌≤◌, ◌++◌, ◌==◌, length, take, drop, map, filter, IfOk, option_copied};
ghost use Rattle.std.specs.Char.{to_ascii_lowercase};
ghost use Rattle.std.specs.Ordering.{nat_cmp};
ghost use Rattle.std.specs.Cmp.Lexicographic.{slice_cmp};
ghost use Rattle.std.specs.BTreeMap as tree;
ghost use Rattle.rad_config.specs.Realm.{realm_in};

use crate::name::Name;
use std::alloc::{AllocError, Global};
use std::collections::BTreeMap;
use std::marker::Model;

/// The most octets of a realm's name.
pub(crate) const LONGEST_REALM: usize = 252;

/// A realm (RFC 7542 section 2.2), and the lane that it leads to.
#[derive(Drop)]
pub struct Realm {
    /// Its name, as it is written in the configuration.
    name: Name,
    /// The lane that it leads to.
    lane: u16,
}

impl Model for Realm {
    ghost use Rattle.rad_config.specs.Configuration.{RealmEntry};

    ghost Value = { RealmEntry };

    ghost view = { λ r. record { name = r.name; lane = r.lane } };
}

impl Realm {
    ghost use Rattle.std.specs.Prelude.{◌≡◌};

    pub(crate) fn new(name: Name, lane: u16) -> Realm
        ensures { result ≡ record { name = name; lane = lane } }
    {
        Realm { name, lane }
    }

    /// Returns its name, as it is written in the configuration. ASCII letters are compared without case.
    pub fn name(&self) -> &str
        ensures { result.now ≡ self.now.name }
    {
        self.name.as_str()
    }

    /// Returns the number of its lane: the index of its home server in the configuration, counted from 0.
    pub fn lane(&self) -> u16
        ensures { result ≡ self.now.lane }
    {
        self.lane
    }
}

/// The lane of a request, and the rank of its realm.
#[derive(Clone, Copy)]
pub struct Destination {
    /// The lane.
    pub lane: u16,
    /// The index of the request's realm among the realms of the table that lead to this lane, in their order, counted
    /// from 0. A request without a realm has none, nor has one whose realm is in no row.
    pub rank: Option<usize>,
}

/// The realms in the order of the configuration, found by name.
#[derive(Drop)]
pub struct Realms {
    /// The realms in their order.
    items: Vec<Realm>,
    /// The destination of each name in lower case.
    by_name: BTreeMap<Vec<u8>, Destination>,
}

impl Model for Realms {
    ghost use Rattle.std.specs.Prelude.{List};
    ghost use Rattle.rad_config.specs.Configuration.{RealmEntry};
    ghost use Rattle.rad_config.specs.internal.Index.{IndexesRealms};

    ghost Value = { List RealmEntry };

    ghost view = { λ r. r.items.items };

    ghost invariant = { λ r. IndexesRealms r.by_name r.items.items };
}

impl Realms {
    ghost use Rattle.std.specs.Prelude.{◌≡◌, ◌≤◌, [], ◌∷◌, ◌++◌, Some, None, OnOk, IfSome, length, find, is_some, option_map};
    ghost use Rattle.rad_config.specs.Realm.{row_of, IsRank};

    pub(crate) fn new(alloc: Global) -> Realms
        ensures { result ≡ [] }
    {
        Realms {
            items: Vec::new(alloc),
            by_name: BTreeMap::new(alloc),
        }
    }

    pub(crate) fn as_slice(&self) -> &[Realm]
        ensures { result.now ≡ self.now }
    {
        self.items.as_slice()
    }

    /// Returns the destination of the realm with a name. It takes logarithmic time.
    pub(crate) fn find(&self, name: &[u8]) -> Option<Destination>
        ensures lane { option_map (λ d. d.lane) result ≡ option_map (λ r. r.lane) (row_of self.now name.now) }
        ensures rank { IfSome result (λ d. IsRank self.now d.lane (Some name.now) d.rank) }
    {
        let places = &self.by_name;
        if name.len() > LONGEST_REALM {
            return None;
        }
        let mut buffer = [0; LONGEST_REALM];
        put_lower_case(&mut buffer, name);
        destination_kept(places, front(&buffer, name.len()))
    }

    /// Returns whether there is a realm with a name. ASCII letters are compared without case. It takes time logarithmic
    /// in the number of realms, and allocates nothing.
    #[tactic(auto, using(crate::proofs::Names::is_some_mapped))]
    pub fn has(&self, name: &[u8]) -> bool
        ensures { result ≡ is_some (row_of self.now name.now) }
    {
        self.find(name).is_some()
    }

    /// Appends a realm with a new name. Its cost is linear in the number of realms.
    pub(crate) fn push(&mut self, alloc: Global, realm: Realm) -> Result<(), AllocError>
        requires short { length realm.name ≤ 252 }
        requires new { row_of self.old realm.name ≡ None }
        ensures { OnOk result (self.new ≡ self.old ++ realm ∷ []) }
    {
        let key = lower_case(alloc, realm.name().as_bytes())?;
        self.items.reserve(1)?;
        let lane = realm.lane();
        let rank = Some(count_of(self.items.as_slice(), lane));
        self.by_name.insert(key, Destination { lane, rank })?;
        self.items.push(realm).unwrap();
        Ok(())
    }
}

/// Returns the part of a User-Name's value after its last `@` (RFC 7542 section 2.2), if it has one. Looks at each
/// octet after that `@` once.
pub fn realm_of(name: &[u8]) -> Option<&[u8]>
    ensures { option_copied result ≡ realm_in name.now }
{
    let mut place = name.len();
    while place > 0 {
        let rest = &name[place..];
        place -= 1;
        if name[place] == b'@' {
            return Some(rest);
        }
    }
    None
}

fn count_of(realms: &[Realm], lane: u16) -> usize
    ensures { result ≡ length (filter (λ r. r.lane == lane) realms.now) }
{
    realms.iter().filter(|realm| realm.lane() == lane).count()
}

fn lower_case(alloc: Global, name: &[u8]) -> Result<Vec<u8>, AllocError>
    ensures { IfOk result (λ v. v.items ≡ map to_ascii_lowercase name.now) }
{
    name.iter()
        .map(|octet| octet.to_ascii_lowercase())
        .collect(alloc)
}

fn put_lower_case(buffer: &mut [u8], name: &[u8])
    requires { length name.now ≤ length buffer.old }
    ensures { buffer.new ≡ map to_ascii_lowercase name.now ++ drop (length name.now) buffer.old }
{
    let front = &mut buffer[..name.len()];
    front.copy_from_slice(name);
    front.make_ascii_lowercase();
}

/// For the proof: returns the destination of a name in lower case.
fn destination_kept(places: &BTreeMap<Vec<u8>, Destination>, name: &[u8]) -> Option<Destination>
    ensures { result ≡ tree.get_by (λ k. slice_cmp nat_cmp name.now k.items) places.now }
{
    places.get(name).copied()
}

/// For the proof: returns the first `count` octets.
fn front(octets: &[u8], count: usize) -> &[u8]
    requires { count ≤ length octets.now }
    ensures { result.now ≡ take count octets.now }
{
    &octets[..count]
}
