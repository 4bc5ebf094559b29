//! Words as they are printed.

ghost use Rattle.std.specs.Prelude.{◌≡◌, chars, true};
ghost use Rattle.std.specs.Char.{encode_utf8};
ghost use Rattle.std.specs.Fmt.{WritesOnOk};
ghost use Rattle.std.specs.List.{flat_map};
ghost use Rattle.rad_audit.specs.Shown.{character_text, format_runs as the_format_runs, is_escaped as the_is_escaped, is_format as the_is_format, is_hidden as the_is_hidden, octet_text};
ghost use Rattle.rad_audit.specs.declared.shown.Within.{Within as TheWithin};

use rad_log::Escaped;
use std::alloc::{AllocError, Global};
use std::fmt;

/// A word that may be anything, such as a file's name or a home server's. Each octet of a control or format character, such
/// as a line end or a mark of direction, is printed as `%` and two hexadecimal digits, and all else unchanged. So it is
/// never a line of its own, and changes nothing beside it.
#[derive(Clone, Copy)]
pub struct Shown<'a>(pub &'a str);

/// Where a word is printed. In a row `%` and `\` are printed by their octets too.
#[derive(Clone, Copy)]
pub enum Within {
    Line,
    Row,
}

/// A character of a word.
#[derive(Clone, Copy)]
struct Character {
    character: char,
    within: Within,
}

impl fmt::Display for Shown<'_> {
    ghost use Rattle.std.specs.Prelude.{Some};
    ghost use Rattle.rad_audit.specs.Shown.{word_text};

    ghost output = { λ word. Some (word_text word.0.now) };

    fn fmt<W: fmt::Write>(&self, f: &mut fmt::Formatter<W>) -> fmt::Result {
        write_characters(f, self.0, Within::Line)
    }
}

/// Writes a word, one character after the other.
pub fn write_characters<W: fmt::Write>(
    f: &mut fmt::Formatter<W>,
    word: &str,
    within: Within,
) -> fmt::Result
    ensures { WritesOnOk W.write_str_gives f.old result (flat_map (character_text within) (chars word.now)) f.new }
{
    for character in word.chars() {
        let character = Character { character, within };
        write!(f, "{character}")?;
    }
    Ok(())
}

impl fmt::Display for Character {
    ghost use Rattle.std.specs.Prelude.{Some};
    ghost use Rattle.rad_audit.specs.Shown.{character_text};

    ghost output = { λ its. Some (character_text its.within its.character) };

    fn fmt<W: fmt::Write>(&self, f: &mut fmt::Formatter<W>) -> fmt::Result {
        let character = self.character;
        if !is_escaped(character, self.within) {
            return write!(f, "{character}");
        }
        write_escaped(f, character)
    }
}

fn is_escaped(character: char, within: Within) -> bool
    ensures { result ≡ the_is_escaped within character }
{
    match within {
        Within::Line => is_hidden(character),
        Within::Row => is_hidden(character) || character == '%' || character == '\\',
    }
}

fn is_hidden(character: char) -> bool
    ensures { result ≡ the_is_hidden character }
{
    character.is_control() || is_format(u32::from(character))
}

fn is_format(code: u32) -> bool
    ensures { result ≡ the_is_format code }
{
    format_runs()
        .iter()
        .any(|run| run.0 <= code && code <= run.1)
}

fn format_runs() -> &'static [(u32, u32)]
    ensures { result.now ≡ the_format_runs }
{
    &[
        (0xad, 0xad),
        (0x600, 0x605),
        (0x61c, 0x61c),
        (0x6dd, 0x6dd),
        (0x70f, 0x70f),
        (0x890, 0x891),
        (0x8e2, 0x8e2),
        (0x180e, 0x180e),
        (0x200b, 0x200f),
        (0x2028, 0x202e),
        (0x2060, 0x206f),
        (0xfeff, 0xfeff),
        (0xfff9, 0xfffb),
        (0x110bd, 0x110bd),
        (0x110cd, 0x110cd),
        (0x13430, 0x1343f),
        (0x1bca0, 0x1bca3),
        (0x1d173, 0x1d17a),
        (0xe0001, 0xe0001),
        (0xe0020, 0xe007f),
    ]
}

fn write_escaped<W: fmt::Write>(f: &mut fmt::Formatter<W>, character: char) -> fmt::Result
    ensures { (within : TheWithin) → the_is_escaped within character ≡ true → WritesOnOk W.write_str_gives f.old result (flat_map octet_text (encode_utf8 character)) f.new }
{
    let mut room = [0; 4];
    let octets = Escaped {
        octets: character.encode_utf8(&mut room).as_bytes(),
        also: Some(b'\\'),
    };
    write!(f, "{octets}")
}

/// A word that owns its characters. It is printed as [`Shown`].
#[derive(Debug, Drop)]
pub struct Word(String);

impl Word {
    ghost use Rattle.std.specs.Prelude.{◌≡◌, IfOk, string_bytes};

    /// Copies a text.
    ///
    /// # Errors
    ///
    /// `AllocError` if memory is refused.
    pub fn new(alloc: Global, text: &str) -> Result<Word, AllocError>
        ensures { IfOk result (λ word. string_bytes word.0 ≡ text.now) }
    {
        Ok(Word(String::from_str(alloc, text)?))
    }

    /// Returns the text.
    pub fn as_str(&self) -> &str
        ensures { result.now ≡ string_bytes self.now.0 }
    {
        self.0.as_str()
    }
}

impl fmt::Display for Word {
    ghost use Rattle.std.specs.Prelude.{Some, string_bytes};
    ghost use Rattle.rad_audit.specs.Shown.{word_text};

    ghost output = { λ word. Some (word_text (string_bytes word.0)) };

    fn fmt<W: fmt::Write>(&self, f: &mut fmt::Formatter<W>) -> fmt::Result {
        let shown = Shown(self.0.as_str());
        write!(f, "{shown}")
    }
}
