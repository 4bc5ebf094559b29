//! Texts that are cut at each separator: a script into its lines, and a line into its words.

use rad_console::find_first;

/// The pieces of a text between its separators, in order. A text without a separator is one piece.
#[derive(Drop)]
pub struct Pieces<'a> {
    /// The text that remains to be cut. There is none after the last piece.
    rest: Option<&'a [u8]>,
    separator: u8,
}

impl<'a> Pieces<'a> {
    ghost use Rattle.std.specs.Prelude.{◌≡◌, Some};
    ghost use Rattle.rad_replay.specs.Pieces.{text_left};

    /// Makes the pieces of a text.
    pub fn new(text: &'a [u8], separator: u8) -> Self
        ensures text { text_left result ≡ Some text.now }
        ensures separator { result.separator ≡ separator }
    {
        Pieces {
            rest: Some(text),
            separator,
        }
    }

    /// Returns the text after the pieces returned so far, or none after the last piece.
    pub fn rest(&self) -> Option<&'a [u8]>
        ensures { result ≡ self.now.rest }
    {
        self.rest
    }
}

impl<'a> Iterator for Pieces<'a> {
    type Item = &'a [u8];

    ghost use Rattle.std.specs.Iterator.{at_most};
    ghost use Rattle.rad_replay.specs.Pieces.{CutsPiece, pieces_left};

    ghost next_gives = { CutsPiece };

    ghost remaining = { λ s. at_most (pieces_left s) };

    fn next(&mut self) -> Option<&'a [u8]> {
        let rest = self.rest?;
        match find_first(rest, self.separator) {
            Some(end) => {
                self.rest = Some(&rest[end + 1..]);
                Some(&rest[..end])
            }
            None => {
                self.rest = None;
                Some(rest)
            }
        }
    }
}
