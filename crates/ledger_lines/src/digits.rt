//! Octets, as hexadecimal digits.

ghost use Rattle.std.specs.Prelude.{◌≡◌, ◌*◌, ◌<◌, ℕ, List, length, IfSome, IsErr, MatchBool, MatchOption, MatchResult};
ghost use Rattle.hex.specs.Hex.{decode_of, hex_digit_value, pair_value};
ghost use Rattle.ledger_lines.specs.Lines.{Denies};

use crate::faults::LineFault;

/// The octets whose digits these are, in this room.
#[tactic(auto, using(crate::proofs::Pairs::not_read))]
pub(crate) fn octets_of<'r>(digits: &[u8], room: &'r mut Vec<u8>) -> Result<&'r [u8], LineFault>
    ensures { MatchResult result (λ octets. decode_of digits.now ≡ Ok octets.now) (λ fault. Denies fault ((octets : List ℕ) × (decode_of digits.now ≡ Ok octets))) }
{
    room.resize(digits.len() / 2, 0)?;
    if fill(digits, room.as_mut_slice()) {
        Ok(room.as_slice())
    } else {
        Err(LineFault::NotALine)
    }
}

/// Whether these are digits, twice as many as there are octets. If so, the octets are theirs afterwards.
pub(crate) fn fill(digits: &[u8], octets: &mut [u8]) -> bool
    ensures { MatchBool result ((length digits.now ≡ 2 * length octets.old) × (decode_of digits.now ≡ Ok octets.new)) (length digits.now ≡ 2 * length octets.old → ¬ ((its : List ℕ) × (decode_of digits.now ≡ Ok its))) }
{
    if digits.len() != 2 * octets.len() {
        return false;
    }
    for place in 0..octets.len() {
        match pair(digits[2 * place], digits[2 * place + 1]) {
            Some(octet) => octets[place] = octet,
            None => return false,
        }
    }
    true
}

#[inline]
fn pair(high: u8, low: u8) -> Option<u8>
    ensures { (place : ℕ) → MatchOption result (IsErr (pair_value high low place)) (λ octet. pair_value high low place ≡ Ok octet) }
{
    Some(digit(high)? * 16 + digit(low)?)
}

/// What each octet is worth as a digit, in either case: sixteen, where it is none.
const WORTH: [u8; 256] = [
    16, 16, 16, 16, 16, 16, 16, 16, 16, 16, 16, 16, 16, 16, 16, 16, 16, 16, 16, 16, 16, 16, 16, 16,
    16, 16, 16, 16, 16, 16, 16, 16, 16, 16, 16, 16, 16, 16, 16, 16, 16, 16, 16, 16, 16, 16, 16, 16,
    0, 1, 2, 3, 4, 5, 6, 7, 8, 9, 16, 16, 16, 16, 16, 16, 16, 10, 11, 12, 13, 14, 15, 16, 16, 16,
    16, 16, 16, 16, 16, 16, 16, 16, 16, 16, 16, 16, 16, 16, 16, 16, 16, 16, 16, 16, 16, 16, 16, 10,
    11, 12, 13, 14, 15, 16, 16, 16, 16, 16, 16, 16, 16, 16, 16, 16, 16, 16, 16, 16, 16, 16, 16, 16,
    16, 16, 16, 16, 16, 16, 16, 16, 16, 16, 16, 16, 16, 16, 16, 16, 16, 16, 16, 16, 16, 16, 16, 16,
    16, 16, 16, 16, 16, 16, 16, 16, 16, 16, 16, 16, 16, 16, 16, 16, 16, 16, 16, 16, 16, 16, 16, 16,
    16, 16, 16, 16, 16, 16, 16, 16, 16, 16, 16, 16, 16, 16, 16, 16, 16, 16, 16, 16, 16, 16, 16, 16,
    16, 16, 16, 16, 16, 16, 16, 16, 16, 16, 16, 16, 16, 16, 16, 16, 16, 16, 16, 16, 16, 16, 16, 16,
    16, 16, 16, 16, 16, 16, 16, 16, 16, 16, 16, 16, 16, 16, 16, 16, 16, 16, 16, 16, 16, 16, 16, 16,
    16, 16, 16, 16, 16, 16, 16, 16, 16, 16, 16, 16, 16, 16,
];

#[inline]
fn digit(octet: u8) -> Option<u8>
    ensures value { result ≡ hex_digit_value octet }
    ensures small { IfSome result (λ value. value < 16) }
{
    let worth = WORTH[usize::from(octet)];
    if worth < 16 { Some(worth) } else { None }
}
