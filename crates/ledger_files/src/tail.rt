//! The end of a line: the sum behind it.

ghost use Rattle.std.specs.Prelude.{◌≡◌, ◌≢◌, [], ◌∷◌, ◌++◌, ℕ, List, length, MatchOption};
ghost use Rattle.hex.specs.Hex.{IsBytes};
ghost use Rattle.ledger_files.specs.Tails.{HasTail, body_in, tail_of};

use crate::chain::SUM_OCTETS;
use hex::FromHex;

/// What stands before the digits of a line's sum.
const KEY: &[u8] = b",\"sum\":\"";

/// What stands behind them.
const CLOSE: &[u8] = b"\"}\n";

/// How many octets the end of a line has, from the key of its sum on, with its line end.
pub(crate) const TAIL_OCTETS: usize = 75;

/// Writes the end of a line that has this sum.
pub(crate) fn write_tail(sum: [u8; SUM_OCTETS], room: &mut [u8])
    requires { length room.old ≡ 75 }
    ensures { room.new ≡ tail_of sum }
{
    let (key, rest) = room.split_at_mut(8);
    let (digits, close) = rest.split_at_mut(64);
    key.copy_from_slice(KEY);
    let _ = hex::encode_to_slice(sum.as_slice(), digits);
    close.copy_from_slice(CLOSE);
}

/// Room for the end of a line that is not made yet.
pub(crate) const NO_TAIL: [u8; TAIL_OCTETS] = [0; TAIL_OCTETS];

/// Returns what stands in a line before its end.
pub(crate) fn body_of(line: &[u8]) -> &[u8]
    ensures { result.now ≡ body_in line.now }
{
    &line[..line.len().saturating_sub(TAIL_OCTETS)]
}

/// Returns the body of a line, which is given without its line end, and its sum, if it ends with one.
pub fn split_sum(line: &[u8]) -> Option<(&[u8], [u8; SUM_OCTETS])>
    ensures { MatchOption result (¬ HasTail (line.now ++ 10 ∷ [])) (λ found. line.now ++ 10 ∷ [] ≡ found.0.now ++ tail_of found.1) }
{
    if line.len() < TAIL_OCTETS - 1 {
        return None;
    }
    let place = line.len() - (TAIL_OCTETS - 1);
    let (body, tail) = line.split_at(place);
    match sum_in(tail) {
        Some(sum) => Some((body, sum)),
        None => None,
    }
}

/// Returns the sum of the end of a line, which is given without its line end, if it is one.
fn sum_in(tail: &[u8]) -> Option<[u8; SUM_OCTETS]>
    requires { length tail.now ≡ 74 }
    ensures { MatchOption result ((sum : List ℕ) → length sum ≡ 32 → IsBytes sum → tail.now ++ 10 ∷ [] ≢ tail_of sum) (λ sum. tail.now ++ 10 ∷ [] ≡ tail_of sum) }
{
    let Ok(sum) = <[u8; SUM_OCTETS]>::from_hex(&tail[8..72]) else {
        return None;
    };
    let mut its = [0; TAIL_OCTETS];
    write_tail(sum, &mut its);
    let (same, _) = its.split_at(TAIL_OCTETS - 1);
    if same == tail { Some(sum) } else { None }
}
