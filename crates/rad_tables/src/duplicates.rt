//! The last number of each request's key, by which repeats are recognised.

ghost use Rattle.std.specs.Prelude.{◌≡◌, ◌+◌, ◌*◌, ◌<◌, IfOk, IsSome, None, OnOk, OnErr, slice_index};
ghost use Rattle.std.specs.FinMap as map;
ghost use Rattle.rad_tables.specs.Keys.{with_last};

use std::alloc::{AllocError, Global};
use std::cmp::Ordering;
use std::collections::BTreeMap;
use std::marker::Model;

/// The key of a request. Requests with the same key are copies of one request (RFC 2866 section 3, Identifier, for
/// the last three fields; the Authenticator is own).
///
/// Keys are ordered by their Authenticators first, since two of these mostly differ in their first octets.
#[derive(Clone, Copy, Debug, PartialEq, Eq)]
pub struct Key {
    /// The packet's Request Authenticator.
    pub authenticator: [u8; 16],
    /// The client's IPv4 address.
    pub client: [u8; 4],
    /// The UDP port that the client sent the request from.
    pub port: u16,
    /// The packet's Identifier.
    pub identifier: u8,
}

impl Ord for Key {
    ghost use Rattle.std.proofs.Common.{rules};
    ghost use Rattle.std.specs.Cmp.Rules.{comparing};
    ghost use Rattle.std.specs.Cmp.Lexicographic.{slice_cmp};
    ghost use Rattle.std.specs.Ordering.{nat_cmp, on, then_cmp};

    ghost cmp = { then_cmp (on (λ k. k.authenticator) (slice_cmp nat_cmp))
        (then_cmp (on (λ k. k.client) (slice_cmp nat_cmp))
        (then_cmp (on (λ k. k.port) nat_cmp) (on (λ k. k.identifier) nat_cmp))) };

    ghost total = { Prim.search (comparing, rules) };

    ghost matches_partial_cmp = { Prim.search (comparing, rules) };

    ghost matches_eq = { Prim.search (comparing, rules) };

    fn cmp(&self, other: &Key) -> Ordering {
        let found = first_four(&self.authenticator).cmp(&first_four(&other.authenticator));
        if found.is_ne() {
            return found;
        }
        let rest = self
            .port
            .cmp(&other.port)
            .then(self.identifier.cmp(&other.identifier));
        let client = self.client.cmp(&other.client);
        self.authenticator
            .cmp(&other.authenticator)
            .then(client.then(rest))
    }
}

impl PartialOrd for Key {
    ghost use Rattle.std.proofs.Common.{rules};
    ghost use Rattle.std.specs.Cmp.{partial_order_from_own_ties, partial_order_from_total, then_total, on_total, nat_cmp_total};
    ghost use Rattle.std.specs.Cmp.Rules.{comparing};
    ghost use Rattle.std.specs.Cmp.Lexicographic.{slice_cmp, nat_list_cmp_total};
    ghost use Rattle.std.specs.Ordering.{nat_cmp, on, then_cmp, as_partial_cmp};

    ghost partial_cmp = { as_partial_cmp (then_cmp (on (λ k. k.authenticator) (slice_cmp nat_cmp))
        (then_cmp (on (λ k. k.client) (slice_cmp nat_cmp))
        (then_cmp (on (λ k. k.port) nat_cmp) (on (λ k. k.identifier) nat_cmp)))) };

    ghost laws = { partial_order_from_own_ties
        (partial_order_from_total (then_total (on_total (λ k. k.authenticator) nat_list_cmp_total)
        (then_total (on_total (λ k. k.client) nat_list_cmp_total)
        (then_total (on_total (λ k. k.port) nat_cmp_total) (on_total (λ k. k.identifier) nat_cmp_total)))))
        (Prim.search (comparing, rules)) };

    fn partial_cmp(&self, other: &Key) -> Option<Ordering> {
        Some(self.cmp(other))
    }
}

/// Returns the first four octets as one number. Of two Authenticators they mostly differ, and then they are ordered as
/// these numbers are.
fn first_four(octets: &[u8; 16]) -> u32
    ensures value { result ≡ ((slice_index octets.now 0 * 256 + slice_index octets.now 1) * 256 + slice_index octets.now 2) * 256 + slice_index octets.now 3 }
    ensures second { slice_index octets.now 1 < 256 }
    ensures third { slice_index octets.now 2 < 256 }
    ensures fourth { slice_index octets.now 3 < 256 }
{
    let first = u32::from(octets[0]) * 256 + u32::from(octets[1]);
    (first * 256 + u32::from(octets[2])) * 256 + u32::from(octets[3])
}

/// A table of the last number of each key.
///
/// It is a search tree, so no choice of keys makes it slow: the number of keys that a call compares is logarithmic in
/// the number of keys in the table.
#[derive(Drop)]
pub struct Duplicates {
    /// The number that was inserted last for each key.
    numbers: BTreeMap<Key, u64>,
}

impl Model for Duplicates {
    ghost use Rattle.std.specs.Prelude.{ℕ};
    ghost use Rattle.std.specs.FinMap as map;
    ghost use Rattle.std.specs.Coded.{coded_ℕ};
    ghost use Rattle.rad_tables.specs.Keys.{key_cmp, coded_key};

    ghost Value = { map.FinMap key_cmp ℕ };

    ghost coded = { map.code coded_key coded_ℕ };

    ghost view = { λ d. map.from_entries d.numbers.entries };
}

impl Duplicates {
    /// Makes an empty table. It takes no memory; what the table needs later is allocated with `alloc`.
    pub fn new(alloc: Global) -> Duplicates
        ensures { result ≡ map.empty }
    {
        Duplicates {
            numbers: BTreeMap::new(alloc),
        }
    }

    /// Returns the last number of a key, if the table has the key.
    pub fn find(&self, key: &Key) -> Option<u64>
        ensures { result ≡ map.get self.now key.now }
    {
        self.numbers.get(key).copied()
    }

    /// Sets the last number of a key.
    ///
    /// # Errors
    ///
    /// If memory is refused. Only a key that is not in the table needs memory. The table is unchanged.
    pub fn insert(&mut self, key: Key, number: u64) -> Result<(), AllocError>
        ensures ok { OnOk result (self.new ≡ map.insert self.old key number) }
        ensures err { OnErr result (self.new ≡ self.old) }
        ensures absent { OnErr result (map.get self.old key ≡ None) }
    {
        self.replace(key, number)?;
        Ok(())
    }

    /// Sets the last number of a key, and returns the number that it replaces, if there is one. One search does both.
    /// [`Duplicates::restore`] undoes it.
    ///
    /// # Errors
    ///
    /// If memory is refused. Only a key that is not in the table needs memory. The table is unchanged.
    pub fn replace(&mut self, key: Key, number: u64) -> Result<Option<u64>, AllocError>
        ensures last { IfOk result (λ last. last ≡ map.get self.old key) }
        ensures ok { OnOk result (self.new ≡ map.insert self.old key number) }
        ensures err { OnErr result (self.new ≡ self.old) }
        ensures absent { OnErr result (map.get self.old key ≡ None) }
    {
        Ok(self.numbers.insert(key, number)?)
    }

    /// Sets a key of the table back to its earlier last number, or removes it if it had none.
    pub fn restore(&mut self, key: &Key, last: Option<u64>)
        requires { IsSome (map.get self.old key.now) }
        ensures { self.new ≡ with_last self.old key.now last }
    {
        match last {
            Some(number) => {
                let Ok(_) = self.replace(*key, number) else {
                    unreachable!()
                };
            }
            None => self.remove(key),
        }
    }

    /// Removes a key, if the table has it.
    pub fn remove(&mut self, key: &Key)
        ensures { self.new ≡ map.remove self.old key.now }
    {
        self.numbers.remove(key);
    }
}
