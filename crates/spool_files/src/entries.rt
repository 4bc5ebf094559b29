//! Entries as octets: writing them, and reading them again.

ghost use Rattle.std.specs.Prelude.{◌≡◌, ◌<◌, ◌≤◌, ◌^◌, ◌++◌, length, List, OnOk, IfOk, IsErrOf};
ghost use Rattle.std.specs.Option.{option_map};
ghost use Rattle.std.specs.Int.{w16, to_be_bytes};
ghost use Rattle.spool_files.specs.Entries.{Entry, entry_octets, least_text, greatest_text, Spells, views};
ghost use Rattle.spool_files.specs.internal.Fields.{entry_at, text_at};
ghost use Rattle.spool_files.specs.declared.entries.ReadError.TheVariants.{Memory};

use crate::entry::Head;
use crate::fields::{octets_of, u16_of};
use crate::heads::{head_of, put_head};
use std::alloc::{AllocError, AllocFailed, Global};

/// Why octets were not read as entries.
#[derive(Clone, Copy)]
pub enum ReadError {
    /// Memory was refused.
    Memory,
    /// The octets are not those of entries.
    Malformed,
}

impl From<AllocError> for ReadError {
    ghost from_gives = { λ _ e. e ≡ Memory };

    fn from(_e: AllocError) -> ReadError {
        ReadError::Memory
    }
}

impl<T: Drop> From<AllocFailed<T>> for ReadError {
    ghost from_gives = { λ _ e. e ≡ Memory };

    fn from(_e: AllocFailed<T>) -> ReadError {
        ReadError::Memory
    }
}

impl Head {
    /// Returns how many octets the text of an entry with this head has at least.
    pub fn least_text(&self) -> usize
        ensures { result ≡ least_text self.now }
    {
        match self {
            Head::Came(_) | Head::Answered(_) => 20,
            Head::Begun(_) | Head::GivenUp(_) => 0,
        }
    }

    /// Returns how many octets the text of an entry with this head has at most.
    pub fn greatest_text(&self) -> usize
        ensures { result ≡ greatest_text self.now }
    {
        match self {
            Head::Came(_) | Head::Answered(_) => 4096,
            Head::GivenUp(_) => 255,
            Head::Begun(_) => 0,
        }
    }
}

/// Puts an entry behind the octets.
///
/// # Errors
///
/// If memory is refused. The octets are of no use then.
pub fn put_entry(octets: &mut Vec<u8>, head: &Head, text: &[u8]) -> Result<(), AllocError>
    requires { length text.now ≤ greatest_text head.now }
    ensures { OnOk result (octets.new.items ≡ octets.old.items ++ entry_octets (head.now, text.now)) }
{
    put_head(octets, head)?;
    put_text(octets, text)
}

fn put_text(octets: &mut Vec<u8>, text: &[u8]) -> Result<(), AllocError>
    requires { length text.now < 2 ^ 16 }
    ensures { OnOk result (octets.new.items ≡ octets.old.items ++ (to_be_bytes w16 (length text.now) ++ text.now)) }
{
    octets.extend_from_slice(&(text.len() as u16).to_be_bytes())?;
    octets.extend_from_slice(text)
}

#[tactic(auto, unfolding(crate::specs::internal::Fields::text_at))]
fn text_of<'a>(head: &Head, octets: &'a [u8]) -> Option<(&'a [u8], &'a [u8])>
    ensures { option_map (λ x. (x.0.now, x.1.now)) result ≡ text_at head.now octets.now }
{
    let (count, rest) = u16_of(octets)?;
    let count = usize::from(count);
    if head.least_text() <= count && count <= head.greatest_text() {
        octets_of(rest, count)
    } else {
        None
    }
}

#[tactic(auto, unfolding(crate::specs::internal::Fields::entry_at))]
fn entry_of(octets: &[u8]) -> Option<(Head, &[u8], &[u8])>
    ensures { option_map (λ x. ((x.0, x.1.now), x.2.now)) result ≡ entry_at octets.now }
{
    let (head, rest) = head_of(octets)?;
    let (text, rest) = text_of(&head, rest)?;
    Some((head, text, rest))
}

/// Reads octets as entries, all of them.
///
/// # Errors
///
/// `Malformed` if they are not those of any entries.
pub fn read_entries(alloc: Global, octets: &[u8]) -> Result<Vec<(Head, &[u8])>, ReadError>
    ensures found { IfOk result (λ v. Spells octets.now (views v.items)) }
    ensures malformed { IsErrOf result ReadError.Malformed → (entries : List Entry) → Spells octets.now entries → ⊥ }
{
    let mut entries = Vec::new(alloc);
    let mut rest = octets;
    while !rest.is_empty() {
        let Some((head, text, after)) = entry_of(rest) else {
            return Err(ReadError::Malformed);
        };
        entries.push((head, text))?;
        rest = after;
    }
    Ok(entries)
}
