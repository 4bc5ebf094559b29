//! Octets as the events write them, in hexadecimal digits.

ghost use Rattle.std.specs.Prelude.{◌≡◌, ◌<◌, ◌↔◌, IsTrue};
ghost use Rattle.std.specs.List.{list_all};
ghost use Rattle.rad_replay.specs.Hex.{AreDigits, is_digit as the_is_digit, digit_value};

use std::alloc::AllocError;

/// Octets as the events write them: two digits for each octet, in lower case.
#[derive(Clone, Copy)]
pub struct Hex<'a> {
    digits: &'a [u8],
}

impl<'a> Hex<'a> {
    ghost use Rattle.std.specs.Prelude.{◌≡◌, ◌+◌, ◌<◌, ◌↔◌, [], ◌++◌, length, slice_index, vec_len, IsSome, IfSome, OnOk, OnErr};
    ghost use Rattle.rad_replay.specs.Hex.{WritesOctets, octets_of, octets_written};

    /// Returns no octets.
    pub fn none() -> Self
        ensures { octets_of result ≡ [] }
    {
        Hex { digits: b"" }
    }

    /// Reads the octets that a word writes: an even number of digits, at least two, or `-` for none. Any other word
    /// writes no octets, and the result is `None`.
    pub fn parse(word: &'a [u8]) -> Option<Self>
        ensures written { IsSome result ↔ WritesOctets word.now }
        ensures octets { IfSome result (λ hex. octets_of hex ≡ octets_written word.now) }
    {
        if word == b"-".as_slice() {
            return Some(Hex::none());
        }
        if !is_written(word) {
            return None;
        }
        Some(Hex { digits: word })
    }

    /// Returns the number of octets.
    #[tactic(auto, using(crate::proofs::HexLemmas::written_count))]
    pub fn count(&self) -> usize
        ensures { result ≡ length (octets_of self.now) }
    {
        self.digits.len() / 2
    }

    /// Adds the octets at the end of `octets`.
    ///
    /// # Errors
    ///
    /// `AllocError` if memory is refused. Then nothing is added.
    pub fn push_to(&self, octets: &mut Vec<u8>) -> Result<(), AllocError>
        ensures added { OnOk result (octets.new.items ≡ octets.old.items ++ octets_of self.now) }
        ensures len { OnOk result (vec_len octets.new ≡ vec_len octets.old + length (octets_of self.now)) }
        ensures refused { OnErr result (octets.new.items ≡ octets.old.items) }
    {
        octets.reserve(self.count())?;
        for index in 0..self.count() {
            octets.push_reserved(self.octet_at(index));
        }
        Ok(())
    }

    #[tactic(auto, using(crate::proofs::HexLemmas::written_count, crate::proofs::HexLemmas::written_octet))]
    fn octet_at(&self, index: usize) -> u8
        requires { index < length (octets_of self.now) }
        ensures { result ≡ slice_index (octets_of self.now) index }
    {
        // The length of the text bounds the indices of both digits.
        let length = self.digits.len();
        prove!(index < length / 2);
        let high = self.digits[2 * index];
        let low = self.digits[2 * index + 1];
        16 * value_of(high) + value_of(low)
    }
}

/// Returns whether a word is an even number of digits, at least two.
fn is_written(word: &[u8]) -> bool
    ensures { IsTrue result ↔ AreDigits word.now }
{
    let is_even = word.len() % 2 == 0;
    !word.is_empty() && is_even && are_digits(word)
}

fn are_digits(text: &[u8]) -> bool
    ensures { result ≡ list_all the_is_digit text.now }
{
    text.iter().all(|octet| is_digit(*octet))
}

fn is_digit(octet: u8) -> bool
    ensures { result ≡ the_is_digit octet }
{
    matches!(octet, b'0'..=b'9' | b'a'..=b'f')
}

fn value_of(digit: u8) -> u8
    ensures value { result ≡ digit_value digit }
    ensures bound { result < 16 }
{
    match digit {
        b'0'..=b'9' => digit - b'0',
        b'a'..=b'f' => digit - b'a' + 10,
        _ => 0,
    }
}
