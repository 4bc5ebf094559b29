//! The fields of entries, read from the left: each reader returns a value and the octets behind it.

ghost use Rattle.std.specs.Prelude.{◌≡◌, length, IfSome};
ghost use Rattle.std.specs.Option.{option_map};
ghost use Rattle.std.specs.Int.{w16, w64};
ghost use Rattle.spool_files.specs.internal.Fields.{first_at, octets_at, number_at, key_at, address_at};

use crate::entry::LocalAddress;
use rad_tables::Key;

/// Takes `count` octets from the front.
#[tactic(auto, unfolding(crate::specs::internal::Fields::octets_at))]
pub(crate) fn octets_of(octets: &[u8], count: usize) -> Option<(&[u8], &[u8])>
    ensures taken { option_map (λ x. (x.0.now, x.1.now)) result ≡ octets_at count octets.now }
    ensures length { IfSome result (λ x. length x.0.now ≡ count) }
{
    if octets.len() < count {
        return None;
    }
    Some(octets.split_at(count))
}

pub(crate) fn first_of(octets: &[u8]) -> Option<(u8, &[u8])>
    ensures { option_map (λ x. (x.0, x.1.now)) result ≡ first_at octets.now }
{
    match octets {
        [] => None,
        [octet, rest @ ..] => Some((*octet, rest)),
    }
}

#[tactic(auto, unfolding(crate::specs::internal::Fields::number_at))]
pub(crate) fn u16_of(octets: &[u8]) -> Option<(u16, &[u8])>
    ensures { option_map (λ x. (x.0, x.1.now)) result ≡ number_at w16 octets.now }
{
    if octets.len() < 2 {
        return None;
    }
    let (front, rest) = octets.split_at(2);
    Some((u16::from_be_bytes([front[0], front[1]]), rest))
}

#[tactic(auto, unfolding(crate::specs::internal::Fields::number_at))]
pub(crate) fn u64_of(octets: &[u8]) -> Option<(u64, &[u8])>
    ensures { option_map (λ x. (x.0, x.1.now)) result ≡ number_at w64 octets.now }
{
    if octets.len() < 8 {
        return None;
    }
    let (front, rest) = octets.split_at(8);
    let number = u64::from_be_bytes([
        front[0], front[1], front[2], front[3], front[4], front[5], front[6], front[7],
    ]);
    Some((number, rest))
}

fn array_of_4(octets: &[u8]) -> Option<([u8; 4], &[u8])>
    ensures { option_map (λ x. (x.0, x.1.now)) result ≡ octets_at 4 octets.now }
{
    let (front, rest) = octets_of(octets, 4)?;
    let mut array = [0; 4];
    array.copy_from_slice(front);
    Some((array, rest))
}

fn array_of_16(octets: &[u8]) -> Option<([u8; 16], &[u8])>
    ensures { option_map (λ x. (x.0, x.1.now)) result ≡ octets_at 16 octets.now }
{
    let (front, rest) = octets_of(octets, 16)?;
    let mut array = [0; 16];
    array.copy_from_slice(front);
    Some((array, rest))
}

#[tactic(auto, unfolding(crate::specs::internal::Fields::key_at))]
pub(crate) fn key_of(octets: &[u8]) -> Option<(Key, &[u8])>
    ensures { option_map (λ x. (x.0, x.1.now)) result ≡ key_at octets.now }
{
    let (authenticator, rest) = array_of_16(octets)?;
    let (client, rest) = array_of_4(rest)?;
    let (port, rest) = u16_of(rest)?;
    let (identifier, rest) = first_of(rest)?;
    let key = Key {
        authenticator,
        client,
        port,
        identifier,
    };
    Some((key, rest))
}

#[tactic(auto, unfolding(crate::specs::internal::Fields::address_at))]
pub(crate) fn address_of(octets: &[u8]) -> Option<(LocalAddress, &[u8])>
    ensures { option_map (λ x. (x.0, x.1.now)) result ≡ address_at octets.now }
{
    let (address, rest) = array_of_4(octets)?;
    let (port, rest) = u16_of(rest)?;
    Some((LocalAddress { address, port }, rest))
}
