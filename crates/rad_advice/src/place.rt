//! The place of an octet in a text, counted as in an editor.

ghost use Rattle.std.specs.Prelude.{◌≡◌, ◌≤◌, length, option_copied};
ghost use Rattle.std.specs.List.{count_by};
ghost use Rattle.rad_advice.specs.Place.{is_line_feed, begins_character, line_behind, line_after, column_after, place_at};

use std::fmt;

/// A place in a text. It is printed as `line 3, column 10`.
#[derive(Clone, Copy, PartialEq, Eq)]
pub struct TextPlace {
    /// The line, counted from 1.
    pub line: usize,
    /// The column in that line, counted from 1 in characters.
    pub column: usize,
}

impl fmt::Display for TextPlace {
    ghost use Rattle.std.specs.Prelude.{Some};
    ghost use Rattle.rad_advice.specs.Printed.{place_text};

    ghost output = { λ place. Some (place_text place) };

    fn fmt<W: fmt::Write>(&self, f: &mut fmt::Formatter<W>) -> fmt::Result {
        let line = self.line;
        let column = self.column;
        write!(f, "line {line}, column {column}")
    }
}

/// ` at ` and a place, if it is known.
#[derive(Clone, Copy)]
pub(crate) struct AtText(pub Option<TextPlace>);

impl fmt::Display for AtText {
    ghost use Rattle.std.specs.Prelude.{Some};
    ghost use Rattle.rad_advice.specs.Printed.{at_text};

    ghost output = { λ at. Some (at_text at.0) };

    fn fmt<W: fmt::Write>(&self, f: &mut fmt::Formatter<W>) -> fmt::Result {
        match self.0 {
            Some(place) => write!(f, " at {place}"),
            None => Ok(()),
        }
    }
}

/// Returns the place of the octet at an offset of a text. At the text's end it is the place of an octet that would
/// follow.
#[tactic(auto, unfolding(crate::specs::Place::place_at))]
pub fn place_of(text: &[u8], offset: usize) -> TextPlace
    requires { offset ≤ length text.now }
    ensures { result ≡ place_at offset text.now }
{
    let before = &text[..offset];
    let line = line_of(before);
    let column = column_of(before);
    TextPlace { line, column }
}

fn line_of(before: &[u8]) -> usize
    ensures { result ≡ line_after before.now }
{
    count_line_feeds(before) + 1
}

fn count_line_feeds(octets: &[u8]) -> usize
    ensures number { result ≡ count_by is_line_feed octets.now }
    ensures most { result ≤ length octets.now }
{
    let mut count = 0;
    for octet in octets {
        if *octet == b'\n' {
            count += 1;
        }
    }
    count
}

fn column_of(before: &[u8]) -> usize
    ensures { result ≡ column_after before.now }
{
    let line = match behind_line_feed(before) {
        Some(line) => line,
        None => before,
    };
    count_characters(line) + 1
}

fn count_characters(octets: &[u8]) -> usize
    ensures number { result ≡ count_by begins_character octets.now }
    ensures most { result ≤ length octets.now }
{
    let mut count = 0;
    for octet in octets {
        if !(0x80..0xc0).contains(octet) {
            count += 1;
        }
    }
    count
}

fn behind_line_feed(octets: &[u8]) -> Option<&[u8]>
    ensures { option_copied result ≡ line_behind octets.now }
{
    let mut place = octets.len();
    while place > 0 {
        let rest = &octets[place..];
        place -= 1;
        if octets[place] == b'\n' {
            return Some(rest);
        }
    }
    None
}
