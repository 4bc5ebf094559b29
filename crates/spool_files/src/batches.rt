//! The batches of a segment's file: writing one, and reading all of a file again.

ghost use Rattle.std.specs.Prelude.{◌≡◌, ◌<◌, ◌^◌, ◌++◌, ◌∷◌, [], length, nat_eq, IfOk};
ghost use Rattle.std.specs.Option.{option_map};
ghost use Rattle.std.specs.Int.{w32};
ghost use Rattle.spool_files.specs.Batches.{sealed, frame_octets, octets_of_batches, batch_views, Has};
ghost use Rattle.spool_files.specs.CheckSums.{crc32};
ghost use Rattle.spool_files.specs.internal.Fields.{number_at, frame_at, batch_at};

use crate::check_sum::crc32_of;
use crate::fields::{first_of, octets_of};
use std::alloc::{AllocError, Global};

/// The batches that a segment's file has.
#[derive(Drop)]
pub struct FoundBatches<'a> {
    /// The CRC-32 that stands beside each batch, and its body. A disk that lies may have changed either, so
    /// [`is_sound`] compares them.
    pub batches: Vec<(u32, &'a [u8])>,
    /// Where the last of them ends in the file.
    pub end: usize,
}

/// Returns whether the CRC-32 beside a body is the body's.
pub fn is_sound(check: u32, body: &[u8]) -> bool
    ensures { result ≡ nat_eq check (crc32 body.now) }
{
    check == crc32_of(body)
}

/// Returns what is written behind the closed gate of a segment: a body with its length and CRC-32, and a closed gate.
pub(crate) fn framed(alloc: Global, body: &[u8]) -> Result<Vec<u8>, AllocError>
    requires { length body.now < 2 ^ 32 }
    ensures framed { IfOk result (λ v. v.items ≡ frame_octets (sealed body.now) ++ 0 ∷ []) }
    ensures fits { IfOk result (λ _. crc32 body.now < 2 ^ 32) }
{
    let mut octets = Vec::with_capacity(alloc, body.len() + 9)?;
    octets.extend_from_slice(&(body.len() as u32).to_be_bytes())?;
    octets.extend_from_slice(&crc32_of(body).to_be_bytes())?;
    octets.extend_from_slice(body)?;
    octets.push(0)?;
    Ok(octets)
}

#[tactic(auto, unfolding(crate::specs::internal::Fields::number_at))]
fn u32_of(octets: &[u8]) -> Option<(u32, &[u8])>
    ensures { option_map (λ x. (x.0, x.1.now)) result ≡ number_at w32 octets.now }
{
    if octets.len() < 4 {
        return None;
    }
    let (front, rest) = octets.split_at(4);
    Some((
        u32::from_be_bytes([front[0], front[1], front[2], front[3]]),
        rest,
    ))
}

#[tactic(auto, unfolding(crate::specs::internal::Fields::frame_at))]
fn frame_of(octets: &[u8]) -> Option<(u32, &[u8], &[u8])>
    ensures { option_map (λ x. ((x.0, x.1.now), x.2.now)) result ≡ frame_at octets.now }
{
    let (count, rest) = u32_of(octets)?;
    let (check, rest) = u32_of(rest)?;
    let (body, rest) = octets_of(rest, count as usize)?;
    Some((check, body, rest))
}

#[tactic(auto, unfolding(crate::specs::internal::Fields::batch_at))]
fn batch_of(octets: &[u8]) -> Option<(u32, &[u8], &[u8])>
    ensures { option_map (λ x. ((x.0, x.1.now), x.2.now)) result ≡ batch_at octets.now }
{
    let (gate, rest) = first_of(octets)?;
    let is_open = gate == 1;
    if is_open { frame_of(rest) } else { None }
}

/// Reads the batches of a segment's file, up to the first gate that is not open or whose batch is not whole.
///
/// # Errors
///
/// If memory is refused.
pub fn read_batches(alloc: Global, file: &[u8]) -> Result<FoundBatches<'_>, AllocError>
    ensures batches { IfOk result (λ found. Has file.now (batch_views found.batches.items)) }
    ensures end { IfOk result (λ found. found.end ≡ length (octets_of_batches (batch_views found.batches.items))) }
{
    let mut batches = Vec::new(alloc);
    let mut rest = file;
    while let Some((check, body, after)) = batch_of(rest) {
        batches.push((check, body))?;
        rest = after;
    }
    let end = file.len() - rest.len();
    Ok(FoundBatches { batches, end })
}
