//! The lines that stand for others that are left out, read.

ghost use Rattle.std.specs.Prelude.{Option, MatchResult, codes};
ghost use Rattle.json.specs.Value.{value_view};
ghost use Rattle.ledger_lines.specs.Lines.{Denies, HasKind, HasText, IsHidden, MayHaveKind};
ghost use Rattle.ledger_lines.specs.declared.hidden.Hidden.{Hidden as TheHidden};
ghost use Rattle.ledger_lines.specs.declared.hidden.HiddenKind.{HiddenKind as TheKind};

use crate::faults::LineFault;
use crate::values::{has_only, short_if_any_at, sum_at, text_at};
use json::Value;

/// The kind of a line that is left out.
#[derive(Clone, Copy, Debug, PartialEq, Eq)]
pub enum HiddenKind {
    Entry,
    Left,
    Unsent,
    Again,
    Resumed,
}

/// A line that is left out: its sum stands in its place.
#[derive(Clone, Copy)]
pub struct Hidden {
    /// The lane that it was of, if that is told.
    pub lane: Option<u16>,
    /// Its kind, if that is told.
    pub kind: Option<HiddenKind>,
    /// Its sum.
    pub sum: [u8; 32],
}

#[tactic(auto, using(crate::proofs::Lines::hidden_parts))]
pub(crate) fn hidden_of(value: &Value<'_>) -> Result<Hidden, LineFault>
    requires { HasText (codes "type") (value_view value.now) (codes "hidden") }
    ensures { MatchResult result (λ hidden. IsHidden (value_view value.now) hidden) (λ fault. Denies fault ((hidden : TheHidden) × IsHidden (value_view value.now) hidden)) }
{
    if !has_only(value, &["type", "lane", "kind", "sum"]) {
        return Err(LineFault::NotALine);
    }
    let lane = short_if_any_at(value, "lane")?;
    let kind = kind_if_any_at(value)?;
    let sum = sum_at(value, "sum")?;
    Ok(Hidden { lane, kind, sum })
}

#[tactic(auto, using(crate::proofs::Few::kind_none, crate::proofs::Few::no_kind_if_any))]
fn kind_if_any_at(value: &Value<'_>) -> Result<Option<HiddenKind>, LineFault>
    ensures { MatchResult result (λ kind. MayHaveKind (value_view value.now) kind) (λ fault. Denies fault ((kind : Option TheKind) × MayHaveKind (value_view value.now) kind)) }
{
    if value.get("kind").is_none() {
        return Ok(None);
    }
    Ok(Some(kind_at(value)?))
}

#[tactic(auto, using(crate::proofs::Few::no_kind, crate::proofs::Few::no_kind_text))]
fn kind_at(value: &Value<'_>) -> Result<HiddenKind, LineFault>
    ensures { MatchResult result (λ kind. HasKind (value_view value.now) kind) (λ fault. Denies fault ((kind : TheKind) × HasKind (value_view value.now) kind)) }
{
    match text_at(value, "kind")? {
        "entry" => Ok(HiddenKind::Entry),
        "left" => Ok(HiddenKind::Left),
        "unsent" => Ok(HiddenKind::Unsent),
        "again" => Ok(HiddenKind::Again),
        "resumed" => Ok(HiddenKind::Resumed),
        _ => Err(LineFault::NotALine),
    }
}
