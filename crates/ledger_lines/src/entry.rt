//! The lines of entries, read and written.

ghost use Rattle.std.specs.Prelude.{MatchResult, OnOk, codes, IfOk};
ghost use Rattle.json.specs.Value.{value_view};
ghost use Rattle.ledger_rules.specs.declared.entry.Entry.{Entry as TheEntry};
ghost use Rattle.ledger_lines.specs.Lines.{Denies, HasText, IsEntry};
ghost use Rattle.json.specs.Tree.{json_tokens};
ghost use Rattle.json_objects.specs.Adding.{Adds};
ghost use Rattle.json_objects.specs.Written.{HasBodyBehind, HasFrontBehind};
ghost use Rattle.ledger_lines.specs.Written.{entry_value};

use crate::about::{about_at, lane_members, request_members};
use crate::faults::LineFault;
use crate::reading::Octets;
use crate::values::{count_at, has_only, octets_at, serial_at, time_if_any_at};
use crate::writing::{digits, number_if_any, text_if_any, widened};
use json::{Value, Writer};
use json_objects::{close_body, number};
use ledger_rules::Entry;
use std::alloc::{AllocError, Global};

/// The keys of an entry, in the order in which they are written.
const ENTRY_KEYS: [&str; 24] = [
    "type",
    "run",
    "time",
    "home",
    "lane",
    "serial",
    "record",
    "client",
    "port",
    "identifier",
    "authenticator",
    "realm",
    "realm_octets",
    "session",
    "session_octets",
    "status",
    "user",
    "user_octets",
    "sent",
    "reply",
    "response",
    "accepted",
    "sendings",
    "sum",
];

pub(crate) fn entry_of<'a>(value: &Value<'a>, room: &'a mut Octets) -> Result<Entry<'a>, LineFault>
    requires { HasText (codes "type") (value_view value.now) (codes "entry") }
    ensures { MatchResult result (λ entry. IsEntry (value_view value.now) entry) (λ fault. Denies fault ((entry : TheEntry) × IsEntry (value_view value.now) entry)) }
{
    if !has_only(value, &ENTRY_KEYS) {
        return Err(LineFault::NotALine);
    }
    let Octets {
        words,
        sent,
        reply,
        response,
        request: _,
    } = room;
    let about = about_at(value, words)?;
    let serial = serial_at(value, "serial")?;
    let sent = octets_at(value, "sent", sent)?;
    let reply = octets_at(value, "reply", reply)?;
    let response = octets_at(value, "response", response)?;
    let accepted = time_if_any_at(value, "accepted")?;
    let sendings = count_at(value, "sendings")?;
    Ok(Entry {
        about,
        serial,
        sent,
        reply,
        response,
        accepted,
        sendings,
    })
}

/// Writes an entry, without its last brace, behind what these octets are.
///
/// # Errors
///
/// Where memory is refused.
pub fn write_entry(alloc: Global, entry: &Entry<'_>, out: Vec<u8>) -> Result<Vec<u8>, AllocError>
    ensures body { IfOk result (λ all. HasBodyBehind out.items all.items) }
    ensures value { IfOk result (λ all. HasFrontBehind out.items all.items (entry_value entry.now)) }
{
    let mut writer = Writer::new(out);
    entry_members(alloc, &mut writer, entry)?;
    Ok(close_body(writer))
}

fn entry_members(alloc: Global, writer: &mut Writer, entry: &Entry<'_>) -> Result<(), AllocError>
    ensures { OnOk result (Adds writer.old writer.new (json_tokens (entry_value entry.now))) }
{
    lane_members(alloc, writer, "entry", &entry.about)?;
    number(writer, "serial", entry.serial)?;
    request_members(alloc, writer, &entry.about)?;
    digits(alloc, writer, "sent", entry.sent)?;
    digits(alloc, writer, "reply", entry.reply)?;
    digits(alloc, writer, "response", entry.response)?;
    text_if_any(writer, "accepted", entry.accepted)?;
    number_if_any(writer, "sendings", widened(entry.sendings))?;
    writer.end_object()
}
