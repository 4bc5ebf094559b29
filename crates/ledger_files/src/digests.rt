//! The SHA-256 of the body of each of many lines, by threads that share them.

ghost use Rattle.std.specs.Prelude.{◌≡◌, ◌-◌, ◌<◌, [], ℕ, List, length, slice_index_or, MatchResult, OnOk};
ghost use Rattle.sha2.specs.Sha256.{sha256};
ghost use Rattle.ledger_files.specs.Batches.{AreLines};
ghost use Rattle.ledger_files.specs.Tails.{body_in};

use crate::chain::SUM_OCTETS;
use crate::tail::body_of;
use sha2::{Digest, Sha256};
use std::alloc::AllocError;
use std::marker::Sync;
use std::thread::{self, Threads};

/// Digests the bodies of lines that stand one behind the other and end at these places, by so many threads at most.
///
/// # Errors
///
/// `AllocError` if memory is refused. There is no digest then.
pub(crate) fn digest_lines<R: Threads + Sync>(
    rt: &R,
    octets: &[u8],
    ends: &[usize],
    threads: usize,
    digests: &mut Vec<[u8; SUM_OCTETS]>,
) -> Result<(), AllocError>
    requires { 0 < threads }
    ensures count { MatchResult result (λ _. length digests.new.items ≡ length ends.now) (λ _. digests.new.items ≡ []) }
    ensures each { OnOk result ((lines : List (List ℕ)) → AreLines octets.now ends.now lines → (k : ℕ) → k < length lines → slice_index_or digests.new.items k [] ≡ sha256 (body_in (slice_index_or lines k []))) }
{
    digests.clear();
    digests.resize(ends.len(), [0; SUM_OCTETS])?;
    set_digests(rt, octets, ends, threads, digests.as_mut_slice());
    Ok(())
}

/// Sets the digests of the bodies of lines that stand one behind the other and end at these places, by so many threads at most.
fn set_digests<R: Threads + Sync>(
    rt: &R,
    octets: &[u8],
    ends: &[usize],
    threads: usize,
    digests: &mut [[u8; SUM_OCTETS]],
)
    requires { 0 < threads }
    ensures count { length digests.new ≡ length digests.old }
    ensures each { (lines : List (List ℕ)) → AreLines octets.now ends.now lines → (k : ℕ) → k < length digests.old → k < length lines → slice_index_or digests.new k [] ≡ sha256 (body_in (slice_index_or lines k [])) }
{
    thread::for_each_mut(
        rt,
        digests,
        threads,
        &|place, digest| *digest = digest_at(octets, ends, place),
    );
}

/// Returns the SHA-256 of the body of the line at a place.
pub(crate) fn digest_at(octets: &[u8], ends: &[usize], place: usize) -> [u8; SUM_OCTETS]
    ensures { (lines : List (List ℕ)) → AreLines octets.now ends.now lines → place < length lines → result ≡ sha256 (body_in (slice_index_or lines place [])) }
{
    let end = end_at(ends, place).min(octets.len());
    let start = start_at(ends, place).min(end);
    Sha256::digest(body_of(&octets[start..end]))
}

/// Returns where the line at a place begins.
fn start_at(ends: &[usize], place: usize) -> usize
    ensures first { place ≡ 0 → result ≡ 0 }
    ensures further { 0 < place → result ≡ slice_index_or ends.now (place - 1) 0 }
{
    match place.checked_sub(1) {
        Some(before) => end_at(ends, before),
        None => 0,
    }
}

/// Returns where the line at a place ends, or 0 if there is none.
pub(crate) fn end_at(ends: &[usize], place: usize) -> usize
    ensures { result ≡ slice_index_or ends.now place 0 }
{
    match ends.get(place) {
        Some(end) => *end,
        None => 0,
    }
}
