//! Reading a line of a ledger.

ghost use Rattle.std.specs.Prelude.{MatchResult, codes};
ghost use Rattle.json.specs.Value.{value_view};
ghost use Rattle.ledger_lines.specs.declared.reading.Line.{Line as TheLine};
ghost use Rattle.ledger_lines.specs.declared.reading.SummedLine.{SummedLine as TheSummedLine};
ghost use Rattle.ledger_lines.specs.Lines.{Denies, HasText, IsLine, IsLineOf};

use crate::begin::{Begin, begin_of};
use crate::end::{End, end_of};
use crate::entry::entry_of;
use crate::faults::LineFault;
use crate::hidden::{Hidden, hidden_of};
use crate::left::left_of;
use crate::record_count::{answer_count_of, record_count_of};
use crate::resumed::resumed_of;
use crate::values::{read_value, sum_if_any_at, text_at};
use json::{Scratch, Value};
use ledger_rules::{AnswerCount, Entry, Left, RecordCount, Resumed};
use std::alloc::Global;

/// The most octets of a line.
pub const MOST_LINE_OCTETS: usize = 65_536;

/// A line of a ledger.
#[derive(Drop)]
pub enum Line<'a> {
    /// It names a run, and begins a file.
    Begin(Begin<'a>),
    Entry(Entry<'a>),
    Left(Left<'a>),
    /// It counts how often a response could not be sent.
    Unsent(RecordCount<'a>),
    /// It counts how often a response was sent again.
    Again(RecordCount<'a>),
    /// It counts how often the response of an earlier run was sent again.
    AgainEarlier(AnswerCount<'a>),
    /// A lane took over a request that an earlier run left.
    Resumed(Resumed<'a>),
    /// It ends a run.
    End(End<'a>),
    /// It stands for a line that is left out.
    Hidden(Hidden),
}

/// A line, with the sum that it has, if it has one.
#[derive(Drop)]
pub struct SummedLine<'a> {
    pub line: Line<'a>,
    pub sum: Option<[u8; 32]>,
}

/// What a line is read with: it is used again for each line.
#[derive(Drop)]
pub struct Room {
    scratch: Scratch<Global>,
    octets: Octets,
}

/// Where the octets go that a line has as digits.
#[derive(Drop)]
pub(crate) struct Octets {
    pub(crate) words: Words,
    pub(crate) sent: Vec<u8>,
    pub(crate) reply: Vec<u8>,
    pub(crate) response: Vec<u8>,
    pub(crate) request: Vec<u8>,
}

#[derive(Drop)]
pub(crate) struct Words {
    pub(crate) realm: Vec<u8>,
    pub(crate) session: Vec<u8>,
    pub(crate) user: Vec<u8>,
}

impl Room {
    /// Room for a line. It grows with the longest line that is read with it.
    pub fn new(alloc: Global) -> Room {
        Room {
            scratch: Scratch::new(alloc),
            octets: Octets {
                words: Words {
                    realm: Vec::new(alloc),
                    session: Vec::new(alloc),
                    user: Vec::new(alloc),
                },
                sent: Vec::new(alloc),
                reply: Vec::new(alloc),
                response: Vec::new(alloc),
                request: Vec::new(alloc),
            },
        }
    }
}

/// Reads a line, without its line end: an object of the keys of its kind, each once and in any order. Each kind may have a sum.
///
/// # Errors
///
/// `NotALine` where it is none, `OutOfMemory` where memory was refused.
#[tactic(auto, using(crate::proofs::Types::too_long, crate::proofs::Types::no_value_no_line, crate::proofs::Types::no_line, crate::proofs::Types::no_sum_no_line, crate::proofs::Types::is_line))]
pub fn read_line<'a>(
    alloc: Global,
    octets: &'a [u8],
    room: &'a mut Room,
) -> Result<SummedLine<'a>, LineFault>
    ensures { MatchResult result (λ line. IsLine octets.now line) (λ fault. Denies fault ((line : TheSummedLine) × IsLine octets.now line)) }
{
    if octets.len() > MOST_LINE_OCTETS {
        return Err(LineFault::NotALine);
    }
    let Room {
        scratch,
        octets: digits,
    } = room;
    let value = read_value(alloc, octets, scratch)?;
    let sum = sum_if_any_at(&value, "sum")?;
    let line = line_of(alloc, &value, digits)?;
    Ok(SummedLine { line, sum })
}

fn line_of<'a>(
    alloc: Global,
    value: &Value<'a>,
    room: &'a mut Octets,
) -> Result<Line<'a>, LineFault>
    ensures { MatchResult result (λ line. IsLineOf (value_view value.now) line) (λ fault. Denies fault ((line : TheLine) × IsLineOf (value_view value.now) line)) }
{
    match text_at(value, "type")? {
        "entry" => Ok(Line::Entry(entry_of(value, room)?)),
        "left" => Ok(Line::Left(left_of(value, room)?)),
        "begin" => Ok(Line::Begin(begin_of(alloc, value)?)),
        "end" => Ok(Line::End(end_of(alloc, value)?)),
        "unsent" => Ok(Line::Unsent(record_count_of(value, "unsent")?)),
        "again" => again_of(value),
        "resumed" => Ok(Line::Resumed(resumed_of(value)?)),
        "hidden" => Ok(Line::Hidden(hidden_of(value)?)),
        _ => Err(LineFault::NotALine),
    }
}

/// A line about a response that was sent again: of a record, or of an earlier run.
fn again_of<'a>(value: &Value<'a>) -> Result<Line<'a>, LineFault>
    requires { HasText (codes "type") (value_view value.now) (codes "again") }
    ensures { MatchResult result (λ line. IsLineOf (value_view value.now) line) (λ fault. Denies fault ((line : TheLine) × IsLineOf (value_view value.now) line)) }
{
    if value.get("record").is_none() {
        return Ok(Line::AgainEarlier(answer_count_of(value)?));
    }
    Ok(Line::Again(record_count_of(value, "again")?))
}
