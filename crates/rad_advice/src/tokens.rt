//! Stepping over a TOML text from the front, as the search for a key needs it.

ghost use Rattle.std.specs.Prelude.{◌≡◌, true, option_map, IfOk, IfSome, string_bytes};
ghost use Rattle.std.specs.List.{slice_get};
ghost use Rattle.toml_parser.specs.Strings.{key as key_at, starts_string as begins_string};
ghost use Rattle.rad_advice.specs.Keys.{first_part};

use std::alloc::{AllocError, Global};
use toml_parser::bytes::is_bare;
use toml_parser::text::{first, skip, skip_blank, skip_ws};
use toml_parser::{ParseError, dotted_key, quoted, starts_string};

/// A token of a value.
#[derive(Clone, Copy)]
pub(crate) enum Token {
    /// `[` or `{`.
    Open,
    /// `]` or `}`.
    Close,
    /// `,`.
    Comma,
    /// A string, or an octet of anything else.
    Other,
}

/// Reads a key, and returns its parts and the text after it, or `None` if there is no key.
pub(crate) fn read_key(alloc: Global, text: &str) -> Result<Option<(Vec<String>, &str)>, AllocError>
    ensures { IfOk result (λ read. IfSome read (λ parts. option_map (λ k. first_part k.0) (key_at text.now) ≡ option_map string_bytes (slice_get parts.0.items 0))) }
{
    match dotted_key(alloc, text) {
        Ok((key, rest)) => {
            let mut parts = key.path;
            parts.push(key.last)?;
            Ok(Some((parts, rest)))
        }
        Err(ParseError::OutOfMemory) => Err(AllocError),
        Err(ParseError::At(..)) => Ok(None),
    }
}

/// Steps over a part of a key and the dot after it.
pub(crate) fn skip_part(alloc: Global, key: &str) -> Result<Option<&str>, AllocError> {
    let after = if starts_string(key) {
        skip_string(alloc, key)?
    } else {
        Some(skip_bare(key))
    };
    match after {
        Some(after) => Ok(skip_dot(skip_ws(after))),
        None => Ok(None),
    }
}

/// Steps over a dot and the white space after it.
fn skip_dot(text: &str) -> Option<&str> {
    if first(text) == b'.' {
        Some(skip_ws(skip(text, 1)))
    } else {
        None
    }
}

/// Steps over letters, digits, `-` and `_`.
fn skip_bare(text: &str) -> &str {
    let mut rest = text;
    for _ in 0..text.len() {
        if !is_bare(first(rest)) {
            break;
        }
        rest = skip(rest, 1);
    }
    rest
}

fn skip_string(alloc: Global, text: &str) -> Result<Option<&str>, AllocError>
    requires { begins_string text.now ≡ true }
{
    match quoted(alloc, text) {
        Ok((_, rest)) => Ok(Some(rest)),
        Err(ParseError::OutOfMemory) => Err(AllocError),
        Err(ParseError::At(..)) => Ok(None),
    }
}

/// Reads a token of a value, and returns it and the text after it, or `None` if there is none.
pub(crate) fn next_token(alloc: Global, text: &str) -> Result<Option<(Token, &str)>, AllocError> {
    if starts_string(text) {
        return match skip_string(alloc, text)? {
            Some(rest) => Ok(Some((Token::Other, rest))),
            None => Ok(None),
        };
    }
    let octet = first(text);
    if octet == 0 || octet >= 128 {
        return Ok(None);
    }
    Ok(Some((token_of(octet), skip(text, 1))))
}

fn token_of(octet: u8) -> Token {
    match octet {
        b'[' | b'{' => Token::Open,
        b']' | b'}' => Token::Close,
        b',' => Token::Comma,
        _ => Token::Other,
    }
}

/// Steps over a header, or over a pair of a key and a value, to the end of its last line. Returns `None` if the text
/// ends.
pub(crate) fn skip_expression(alloc: Global, text: &str) -> Result<Option<&str>, AllocError> {
    let mut depth = 0usize;
    let mut rest = text;
    for _ in 0..text.len() {
        let start = skip_ws(rest);
        if matches!(first(start), b'#' | b'\n' | b'\r') {
            if depth == 0 {
                return Ok(Some(start));
            }
            rest = skip_blank(start, true);
            continue;
        }
        let Some((token, after)) = next_token(alloc, start)? else {
            return Ok(None);
        };
        depth = depth_behind(depth, token);
        rest = after;
    }
    Ok(None)
}

/// Returns how many brackets are open after a token.
fn depth_behind(depth: usize, token: Token) -> usize {
    match token {
        Token::Open => depth.saturating_add(1),
        Token::Close => depth.saturating_sub(1),
        Token::Comma | Token::Other => depth,
    }
}
