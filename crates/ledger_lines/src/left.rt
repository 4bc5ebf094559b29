//! The lines of requests that were left, read and written.

ghost use Rattle.std.specs.Prelude.{◌≡◌, MatchResult, OnOk, codes, IfOk};
ghost use Rattle.json.specs.Value.{value_view};
ghost use Rattle.ledger_rules.specs.declared.left.Left.{Left as TheLeft};
ghost use Rattle.ledger_lines.specs.Lines.{Denies, HasText, IsLeft, state_text as the_state_text, HasState};
ghost use Rattle.json.specs.Tree.{json_tokens};
ghost use Rattle.json_objects.specs.Adding.{Adds};
ghost use Rattle.json_objects.specs.Written.{HasBodyBehind, HasFrontBehind};
ghost use Rattle.ledger_lines.specs.Written.{left_value};
ghost use Rattle.rad_lane.specs.declared.leftover.LeftState.{LeftState as TheState};

use crate::about::{about_at, lane_members, request_members};
use crate::faults::LineFault;
use crate::reading::Octets;
use crate::values::{count_at, has_only, octets_at, text_at, time_if_any_at, truth_at};
use crate::writing::{digits, number_if_any, text_if_any, true_if, widened};
use json::{Value, Writer};
use json_objects::{close_body, text};
use ledger_rules::{Left, LeftState};
use std::alloc::{AllocError, Global};

/// The keys of a request that was left, in the order in which they are written.
const LEFT_KEYS: [&str; 23] = [
    "type",
    "run",
    "time",
    "home",
    "lane",
    "record",
    "client",
    "port",
    "identifier",
    "authenticator",
    "realm",
    "realm_octets",
    "session",
    "session_octets",
    "status",
    "user",
    "user_octets",
    "state",
    "sendings",
    "accepted",
    "request",
    "kept",
    "sum",
];

pub(crate) fn left_of<'a>(value: &Value<'a>, room: &'a mut Octets) -> Result<Left<'a>, LineFault>
    requires { HasText (codes "type") (value_view value.now) (codes "left") }
    ensures { MatchResult result (λ left. IsLeft (value_view value.now) left) (λ fault. Denies fault ((left : TheLeft) × IsLeft (value_view value.now) left)) }
{
    if !has_only(value, &LEFT_KEYS) {
        return Err(LineFault::NotALine);
    }
    let Octets { words, request, .. } = room;
    let about = about_at(value, words)?;
    let state = state_at(value)?;
    let sendings = count_at(value, "sendings")?;
    let accepted = time_if_any_at(value, "accepted")?;
    let request = octets_at(value, "request", request)?;
    let kept = truth_at(value, "kept")?;
    Ok(Left {
        about,
        state,
        sendings,
        accepted,
        request,
        kept,
    })
}

#[tactic(auto, using(crate::proofs::Parts::no_state, crate::proofs::Parts::no_state_text))]
pub(crate) fn state_at(value: &Value<'_>) -> Result<LeftState, LineFault>
    ensures { MatchResult result (λ state. HasState (value_view value.now) state) (λ fault. Denies fault ((state : TheState) × HasState (value_view value.now) state)) }
{
    match text_at(value, "state")? {
        "queued" => Ok(LeftState::Queued),
        "outstanding" => Ok(LeftState::Outstanding),
        "untaken" => Ok(LeftState::Untaken),
        _ => Err(LineFault::NotALine),
    }
}

/// Writes a request that was left, without its last brace, behind what these octets are.
///
/// # Errors
///
/// Where memory is refused.
pub fn write_left(alloc: Global, left: &Left<'_>, out: Vec<u8>) -> Result<Vec<u8>, AllocError>
    ensures body { IfOk result (λ all. HasBodyBehind out.items all.items) }
    ensures value { IfOk result (λ all. HasFrontBehind out.items all.items (left_value left.now)) }
{
    let mut writer = Writer::new(out);
    left_members(alloc, &mut writer, left)?;
    Ok(close_body(writer))
}

fn left_members(alloc: Global, writer: &mut Writer, left: &Left<'_>) -> Result<(), AllocError>
    ensures { OnOk result (Adds writer.old writer.new (json_tokens (left_value left.now))) }
{
    lane_members(alloc, writer, "left", &left.about)?;
    request_members(alloc, writer, &left.about)?;
    text(writer, "state", state_text(left.state))?;
    number_if_any(writer, "sendings", widened(left.sendings))?;
    text_if_any(writer, "accepted", left.accepted)?;
    digits(alloc, writer, "request", left.request)?;
    true_if(writer, "kept", left.kept)?;
    writer.end_object()
}

fn state_text(state: LeftState) -> &'static str
    ensures { result.now ≡ the_state_text state }
{
    match state {
        LeftState::Queued => "queued",
        LeftState::Outstanding => "outstanding",
        LeftState::Untaken => "untaken",
    }
}
