//! The numbers and addresses in an event's words.

use crate::pieces::Pieces;
use rad_realms::read_address;

/// Returns the next word, if there is one.
pub fn next_word<'a>(words: &mut Pieces<'a>) -> Option<&'a [u8]> {
    words.next()
}

/// Reads the next word as four numbers below 256 that are joined by dots.
pub fn next_address(words: &mut Pieces<'_>) -> Option<[u8; 4]> {
    parse_address(next_word(words)?)
}

/// Reads the next word as a decimal number below 256.
pub fn next_u8(words: &mut Pieces<'_>) -> Option<u8> {
    u8::try_from(next_usize(words)?).ok()
}

/// Reads the next word as a decimal number below 65536.
pub fn next_u16(words: &mut Pieces<'_>) -> Option<u16> {
    u16::try_from(next_usize(words)?).ok()
}

/// Reads the next word as a decimal number below 2^64 without a leading zero.
pub fn next_usize(words: &mut Pieces<'_>) -> Option<usize> {
    parse_usize(next_word(words)?)
}

/// Reads four numbers below 256 that are joined by dots.
fn parse_address(word: &[u8]) -> Option<[u8; 4]> {
    read_address(str::from_utf8(word).ok()?)
}

/// Reads a decimal number below 2^64 without a leading zero.
fn parse_usize(word: &[u8]) -> Option<usize> {
    if word.is_empty() || (word.len() > 1 && word[0] == b'0') {
        return None;
    }
    let mut number: usize = 0;
    for digit in word {
        number = with_digit(number, *digit)?;
    }
    Some(number)
}

/// Returns a decimal number with one more digit.
fn with_digit(number: usize, digit: u8) -> Option<usize> {
    if !digit.is_ascii_digit() {
        return None;
    }
    let value = usize::from(digit - b'0');
    number.checked_mul(10)?.checked_add(value)
}
