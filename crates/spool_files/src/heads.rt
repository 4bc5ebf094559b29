//! The heads of entries, read and written.

ghost use Rattle.std.specs.Prelude.{◌≡◌, ◌∷◌, ◌++◌, OnOk};
ghost use Rattle.std.specs.Option.{option_map};
ghost use Rattle.spool_files.specs.Entries.{key_octets, address_octets, begun_octets, came_octets, answered_octets};
ghost use Rattle.spool_files.specs.Entries.{given_up_octets, head_octets, origin_octets, number_octets};
ghost use Rattle.spool_files.specs.internal.Fields.{as_at, begun_at, came_at, answered_at, given_up_at, head_at};

use crate::entry::{Answered, Begun, Came, GivenUp, Head};
use crate::fields::{address_of, first_of, key_of, u16_of, u64_of};
use rad_tables::Key;
use std::alloc::AllocError;

#[tactic(auto, unfolding(crate::specs::internal::Fields::begun_at))]
fn begun_of(octets: &[u8]) -> Option<(Head, &[u8])>
    ensures { option_map (λ x. (x.0, x.1.now)) result ≡ as_at Head.Begun begun_at octets.now }
{
    let (version, rest) = u16_of(octets)?;
    let (run, rest) = u64_of(rest)?;
    let (number, rest) = u64_of(rest)?;
    let begun = Begun {
        version,
        run,
        number,
    };
    Some((Head::Begun(begun), rest))
}

#[tactic(auto, unfolding(crate::specs::internal::Fields::came_at))]
fn came_of(octets: &[u8]) -> Option<(Head, &[u8])>
    ensures { option_map (λ x. (x.0, x.1.now)) result ≡ as_at Head.Came came_at octets.now }
{
    let (key, rest) = key_of(octets)?;
    let (ours, rest) = address_of(rest)?;
    let (arrival, rest) = u64_of(rest)?;
    let (run, rest) = u64_of(rest)?;
    let (lane, rest) = u16_of(rest)?;
    let (number, rest) = u64_of(rest)?;
    let (moment, rest) = u64_of(rest)?;
    let came = Came {
        key,
        ours,
        arrival,
        run,
        lane,
        number,
        moment,
    };
    Some((Head::Came(came), rest))
}

#[tactic(auto, unfolding(crate::specs::internal::Fields::answered_at))]
fn answered_of(octets: &[u8]) -> Option<(Head, &[u8])>
    ensures { option_map (λ x. (x.0, x.1.now)) result ≡ as_at Head.Answered answered_at octets.now }
{
    let (key, rest) = key_of(octets)?;
    let (run, rest) = u64_of(rest)?;
    let (lane, rest) = u16_of(rest)?;
    let (serial, rest) = u64_of(rest)?;
    let (moment, rest) = u64_of(rest)?;
    let answered = Answered {
        key,
        run,
        lane,
        serial,
        moment,
    };
    Some((Head::Answered(answered), rest))
}

#[tactic(auto, unfolding(crate::specs::internal::Fields::given_up_at))]
fn given_up_of(octets: &[u8]) -> Option<(Head, &[u8])>
    ensures { option_map (λ x. (x.0, x.1.now)) result ≡ as_at Head.GivenUp given_up_at octets.now }
{
    let (key, rest) = key_of(octets)?;
    let (moment, rest) = u64_of(rest)?;
    Some((Head::GivenUp(GivenUp { key, moment }), rest))
}

/// Reads a head from the front, and returns it with the octets behind it.
#[tactic(auto, unfolding(crate::specs::internal::Fields::head_at))]
pub(crate) fn head_of(octets: &[u8]) -> Option<(Head, &[u8])>
    ensures { option_map (λ x. (x.0, x.1.now)) result ≡ head_at octets.now }
{
    let (kind, rest) = first_of(octets)?;
    match kind {
        1 => begun_of(rest),
        2 => came_of(rest),
        3 => answered_of(rest),
        4 => given_up_of(rest),
        _ => None,
    }
}

/// Returns the octets of an entry's kind and of the key that it is about.
fn kind_and_key(kind: u8, key: &Key) -> [u8; 24]
    ensures { result ≡ kind ∷ key_octets key.now }
{
    let a = &key.authenticator;
    let c = &key.client;
    let p = key.port.to_be_bytes();
    [
        kind,
        a[0],
        a[1],
        a[2],
        a[3],
        a[4],
        a[5],
        a[6],
        a[7],
        a[8],
        a[9],
        a[10],
        a[11],
        a[12],
        a[13],
        a[14],
        a[15],
        c[0],
        c[1],
        c[2],
        c[3],
        p[0],
        p[1],
        key.identifier,
    ]
}

fn put_begun(octets: &mut Vec<u8>, begun: &Begun) -> Result<(), AllocError>
    ensures { OnOk result (octets.new.items ≡ octets.old.items ++ 1 ∷ begun_octets begun.now) }
{
    let v = begun.version.to_be_bytes();
    let r = begun.run.to_be_bytes();
    let n = begun.number.to_be_bytes();
    octets.extend_from_slice(&[
        1, v[0], v[1], r[0], r[1], r[2], r[3], r[4], r[5], r[6], r[7], n[0], n[1], n[2], n[3],
        n[4], n[5], n[6], n[7],
    ])
}

/// Puts which run and lane an entry is of, its number or serial there, and its moment.
fn put_origin(
    octets: &mut Vec<u8>,
    run: u64,
    lane: u16,
    number: u64,
    moment: u64,
) -> Result<(), AllocError>
    ensures { OnOk result (octets.new.items ≡ octets.old.items ++ origin_octets run lane number moment) }
{
    let r = run.to_be_bytes();
    let l = lane.to_be_bytes();
    let n = number.to_be_bytes();
    let m = moment.to_be_bytes();
    octets.extend_from_slice(&[
        r[0], r[1], r[2], r[3], r[4], r[5], r[6], r[7], l[0], l[1], n[0], n[1], n[2], n[3], n[4],
        n[5], n[6], n[7], m[0], m[1], m[2], m[3], m[4], m[5], m[6], m[7],
    ])
}

/// Returns the octets of where a request came in, and of its numbers.
fn octets_of_numbers(came: &Came) -> [u8; 40]
    ensures { result ≡ address_octets came.now.ours ++ number_octets came.now }
{
    let a = &came.ours.address;
    let p = came.ours.port.to_be_bytes();
    let v = came.arrival.to_be_bytes();
    let r = came.run.to_be_bytes();
    let l = came.lane.to_be_bytes();
    let n = came.number.to_be_bytes();
    let m = came.moment.to_be_bytes();
    [
        a[0], a[1], a[2], a[3], p[0], p[1], v[0], v[1], v[2], v[3], v[4], v[5], v[6], v[7], r[0],
        r[1], r[2], r[3], r[4], r[5], r[6], r[7], l[0], l[1], n[0], n[1], n[2], n[3], n[4], n[5],
        n[6], n[7], m[0], m[1], m[2], m[3], m[4], m[5], m[6], m[7],
    ]
}

fn put_came(octets: &mut Vec<u8>, came: &Came) -> Result<(), AllocError>
    ensures { OnOk result (octets.new.items ≡ octets.old.items ++ 2 ∷ came_octets came.now) }
{
    octets.extend_from_slice(&kind_and_key(2, &came.key))?;
    octets.extend_from_slice(&octets_of_numbers(came))
}

fn put_answered(octets: &mut Vec<u8>, answered: &Answered) -> Result<(), AllocError>
    ensures { OnOk result (octets.new.items ≡ octets.old.items ++ 3 ∷ answered_octets answered.now) }
{
    octets.extend_from_slice(&kind_and_key(3, &answered.key))?;
    put_origin(
        octets,
        answered.run,
        answered.lane,
        answered.serial,
        answered.moment,
    )
}

fn put_given_up(octets: &mut Vec<u8>, given_up: &GivenUp) -> Result<(), AllocError>
    ensures { OnOk result (octets.new.items ≡ octets.old.items ++ 4 ∷ given_up_octets given_up.now) }
{
    octets.extend_from_slice(&kind_and_key(4, &given_up.key))?;
    octets.extend_from_slice(&given_up.moment.to_be_bytes())
}

/// Puts a head behind the octets.
pub(crate) fn put_head(octets: &mut Vec<u8>, head: &Head) -> Result<(), AllocError>
    ensures { OnOk result (octets.new.items ≡ octets.old.items ++ head_octets head.now) }
{
    match head {
        Head::Begun(begun) => put_begun(octets, begun),
        Head::Came(came) => put_came(octets, came),
        Head::Answered(answered) => put_answered(octets, answered),
        Head::GivenUp(given_up) => put_given_up(octets, given_up),
    }
}
