//! Finding the place of a key or of a table in a TOML text.
//!
//! A parsed document does not contain the places of its keys, so the text is searched, one header or one pair of a key
//! and a value at a time. A key that was found is read again and compared before its place is returned.

ghost use Rattle.std.specs.Prelude.{◌≡◌, ◌≤◌, Some, length, option_copied, option_map, IfOk, IfSome, IsTrue, string_bytes};
ghost use Rattle.std.specs.List.{slice_get};
ghost use Rattle.rad_realms.specs.Spot.{part_name};
ghost use Rattle.rad_advice.specs.Keys.{BeginsAt, BeginsAtPlace};

use crate::place::{TextPlace, place_of};
use crate::tokens::{Token, next_token, read_key, skip_expression, skip_part};
use rad_realms::Part;
use std::alloc::{AllocError, Global};
use toml_parser::text::{byte_at, first, skip, skip_blank, skip_ws};

/// The key that is looked for, and its table; or that table itself.
#[derive(Clone, Copy)]
struct Wanted<'a> {
    /// The part that the table belongs to.
    part: Part,
    /// The index of the table in that array, counted from 0.
    index: usize,
    /// The name of the key, or of the array of the table.
    name: &'a str,
    /// Whether the table is looked for.
    is_table: bool,
}

/// The kind of table that the next pair belongs to.
#[derive(Clone, Copy)]
enum Section {
    /// The top: no header was passed yet.
    Top,
    /// The last table so far of the array that is looked for.
    Array,
    /// Any other table.
    Other,
}

/// The progress of the search through the text.
#[derive(Clone, Copy)]
struct Passed {
    /// The kind of table that the last header began.
    section: Section,
    /// The number of tables of the array that have begun.
    tables: usize,
}

/// Returns the place at which a key begins for the first time in the table of this part and index, or `None` if it was
/// not found.
pub(crate) fn find_key(
    alloc: Global,
    text: &str,
    part: Part,
    index: usize,
    name: &str,
) -> Result<Option<TextPlace>, AllocError>
    ensures { IfOk result (λ found. IfSome found (BeginsAtPlace text.now name.now)) }
{
    let wanted = Wanted {
        part,
        index,
        name,
        is_table: false,
    };
    find(alloc, text, wanted)
}

/// Returns the place at which the header of the table of this part and index has the name of its array. If the array is
/// written as one value, it is the place of the array's key. It is `None` if neither was found.
pub(crate) fn find_table(
    alloc: Global,
    text: &str,
    part: Part,
    index: usize,
) -> Result<Option<TextPlace>, AllocError>
    ensures { IfOk result (λ found. IfSome found (BeginsAtPlace text.now (part_name part))) }
{
    let wanted = Wanted {
        part,
        index,
        name: part.name(),
        is_table: true,
    };
    find(alloc, text, wanted)
}

fn find(alloc: Global, text: &str, wanted: Wanted<'_>) -> Result<Option<TextPlace>, AllocError>
    ensures { IfOk result (λ found. IfSome found (BeginsAtPlace text.now wanted.entry.name.now)) }
{
    let mut passed = Passed {
        section: Section::Top,
        tables: 0,
    };
    let mut rest = skip_mark(text);
    for _ in 0..text.len() {
        let start = skip_blank(rest, true);
        if let Some(place) = find_place(alloc, text, wanted, &mut passed, start)? {
            return Ok(Some(place));
        }
        match skip_expression(alloc, start)? {
            Some(after) => rest = after,
            None => return Ok(None),
        }
    }
    Ok(None)
}

/// Returns the place of the key in a text, if the key is in the header or pair at the front of `start`, which is the rest
/// of the text.
fn find_place(
    alloc: Global,
    text: &str,
    wanted: Wanted<'_>,
    passed: &mut Passed,
    start: &str,
) -> Result<Option<TextPlace>, AllocError>
    ensures { IfOk result (λ found. IfSome found (BeginsAtPlace text.now wanted.entry.name.now)) }
{
    let Some(found) = find_in_expression(alloc, wanted, passed, start)? else {
        return Ok(None);
    };
    let offset = text.len().saturating_sub(found.len());
    if stands_at(alloc, text, offset, wanted.name)? {
        Ok(Some(place_of(text.as_bytes(), offset)))
    } else {
        Ok(None)
    }
}

/// Returns a text without the byte order mark that it may begin with.
fn skip_mark(text: &str) -> &str {
    match text.strip_prefix("\u{feff}") {
        Some(rest) => rest,
        None => text,
    }
}

fn stands_at(alloc: Global, text: &str, offset: usize, name: &str) -> Result<bool, AllocError>
    ensures { IfOk result (λ stands. IsTrue stands → (offset ≤ length text.now) × BeginsAt name.now offset text.now) }
{
    let Some(rest) = text.get(offset..) else {
        return Ok(false);
    };
    begins_with(alloc, rest, name)
}

fn is_part(parts: &[String], place: usize, name: &str) -> bool
    ensures { IsTrue result → option_map string_bytes (slice_get parts.now place) ≡ Some name.now }
{
    match part_at(parts, place) {
        Some(part) => part.as_str() == name,
        None => false,
    }
}

/// Looks for the key in the header or pair at the front, and returns the text from the key on, if it is there.
fn find_in_expression<'t>(
    alloc: Global,
    wanted: Wanted<'_>,
    passed: &mut Passed,
    start: &'t str,
) -> Result<Option<&'t str>, AllocError> {
    if first(start) != b'[' {
        return find_in_pair(alloc, wanted, passed, start);
    }
    let double = byte_at(start, 1) == b'[';
    let key = if double {
        skip(start, 2)
    } else {
        skip(start, 1)
    };
    find_in_header(alloc, wanted, passed, double, skip_ws(key))
}

fn find_in_header<'t>(
    alloc: Global,
    wanted: Wanted<'_>,
    passed: &mut Passed,
    double: bool,
    key: &'t str,
) -> Result<Option<&'t str>, AllocError> {
    passed.section = Section::Other;
    let place = match read_key(alloc, key)? {
        Some((parts, _)) => part_in_header(wanted, passed, double, parts.as_slice()),
        None => None,
    };
    match place {
        Some(HeaderPart::First) => Ok(Some(key)),
        Some(HeaderPart::Second) => skip_part(alloc, key),
        None => Ok(None),
    }
}

/// Where the key of a header has the key that is looked for.
#[derive(Clone, Copy)]
enum HeaderPart {
    /// At its first part.
    First,
    /// At its second part, after the name of the array.
    Second,
}

/// Passes a header whose key has these parts, and returns where it has the key that is looked for, if it has it.
fn part_in_header(
    wanted: Wanted<'_>,
    passed: &mut Passed,
    double: bool,
    parts: &[String],
) -> Option<HeaderPart> {
    if wanted.part == Part::Top {
        return is_part(parts, 0, wanted.name).then_some(HeaderPart::First);
    }
    if !is_part(parts, 0, wanted.part.name()) {
        return None;
    }
    if parts.len() > 1 {
        let found = !wanted.is_table
            && passed.is_at(wanted.index)
            && is_part(parts, 1, wanted.name);
        return found.then_some(HeaderPart::Second);
    }
    if !double {
        return None;
    }
    passed.begin();
    let found = wanted.is_table && passed.is_at(wanted.index);
    found.then_some(HeaderPart::First)
}

impl Passed {
    fn begin(&mut self) {
        self.section = Section::Array;
        self.tables = self.tables.saturating_add(1);
    }

    /// Whether the last table of the array that has begun has this index.
    fn is_at(&self, index: usize) -> bool {
        self.tables.checked_sub(1) == Some(index)
    }
}

fn find_in_pair<'t>(
    alloc: Global,
    wanted: Wanted<'_>,
    passed: &Passed,
    start: &'t str,
) -> Result<Option<&'t str>, AllocError> {
    let pair = match read_key(alloc, start)? {
        Some((parts, after)) => pair_of(wanted, passed, parts.as_slice(), after),
        None => Pair::Other,
    };
    match pair {
        Pair::Wanted => Ok(Some(start)),
        Pair::Array(value) => find_in_array(alloc, wanted, value),
        Pair::Other => Ok(None),
    }
}

/// What a pair is for the search.
#[derive(Clone, Copy)]
enum Pair<'t> {
    /// Its key is the one that is looked for.
    Wanted,
    /// Its value is the part's array, and begins this text.
    Array(&'t str),
    /// Any other pair.
    Other,
}

/// Returns what a pair is whose key has these parts. Its value is in the text after the key.
fn pair_of<'t>(wanted: Wanted<'_>, passed: &Passed, parts: &[String], after: &'t str) -> Pair<'t> {
    if is_array(wanted, passed, parts) {
        return if wanted.is_table {
            Pair::Wanted
        } else {
            Pair::Array(after)
        };
    }
    if is_section(wanted, passed) && is_part(parts, 0, wanted.name) {
        return Pair::Wanted;
    }
    Pair::Other
}

fn is_array(wanted: Wanted<'_>, passed: &Passed, parts: &[String]) -> bool {
    wanted.part != Part::Top
        && matches!(passed.section, Section::Top)
        && is_part(parts, 0, wanted.part.name())
}

/// Whether the next pair belongs to the table that is looked for.
fn is_section(wanted: Wanted<'_>, passed: &Passed) -> bool {
    if wanted.part == Part::Top {
        return matches!(passed.section, Section::Top);
    }
    matches!(passed.section, Section::Array) && passed.is_at(wanted.index)
}

/// The open brackets in an array that is written as one value.
#[derive(Clone, Copy)]
struct Brackets {
    /// How many brackets are open.
    depth: usize,
    /// The index of the current element of the array, counted from 0.
    element: usize,
    /// Whether a key of that element, or its end, comes next.
    key_next: bool,
}

/// Looks for the key in an array of tables that is written as one value, given the text after the array's key.
fn find_in_array<'t>(
    alloc: Global,
    wanted: Wanted<'_>,
    value: &'t str,
) -> Result<Option<&'t str>, AllocError> {
    let mut brackets = Brackets {
        depth: 0,
        element: 0,
        key_next: false,
    };
    let mut rest = value;
    for _ in 0..value.len() {
        let start = skip_blank(rest, true);
        if brackets.are_at(wanted.index) && begins_with(alloc, start, wanted.name)? {
            return Ok(Some(start));
        }
        let Some((token, after)) = next_token(alloc, start)? else {
            return Ok(None);
        };
        if !brackets.pass(token) {
            return Ok(None);
        }
        rest = after;
    }
    Ok(None)
}

fn begins_with(alloc: Global, text: &str, name: &str) -> Result<bool, AllocError>
    ensures { IfOk result (λ begins. IsTrue begins → BeginsAt name.now 0 text.now) }
{
    match read_key(alloc, text)? {
        Some((parts, _)) => Ok(is_part(parts.as_slice(), 0, name)),
        None => Ok(false),
    }
}

impl Brackets {
    /// Whether a key of the element of this index, or its end, comes next.
    fn are_at(&self, index: usize) -> bool {
        self.key_next && self.element == index
    }

    /// Passes a token, and returns whether the array goes on.
    fn pass(&mut self, token: Token) -> bool {
        match token {
            Token::Open => self.depth = self.depth.saturating_add(1),
            Token::Close => self.depth = self.depth.saturating_sub(1),
            Token::Comma if self.depth == 1 => self.element = self.element.saturating_add(1),
            Token::Comma | Token::Other => {}
        }
        self.key_next = self.depth == 2 && matches!(token, Token::Open | Token::Comma);
        !matches!(token, Token::Close) || self.depth > 0
    }
}

/// For the proof: returns the part at this index.
fn part_at(parts: &[String], place: usize) -> Option<&String>
    ensures { option_copied result ≡ slice_get parts.now place }
{
    parts.get(place)
}
