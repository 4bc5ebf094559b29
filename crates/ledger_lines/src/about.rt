//! The request that a line is about, read and written.

ghost use Rattle.std.specs.Prelude.{MatchResult, OnOk};
ghost use Rattle.json.specs.Value.{value_view};
ghost use Rattle.ledger_rules.specs.declared.line_request.LineRequest.{LineRequest as TheRequest};
ghost use Rattle.ledger_lines.specs.Lines.{Denies, IsAbout};
ghost use Rattle.json_objects.specs.Adding.{AddsSlots, Opens};
ghost use Rattle.ledger_lines.specs.Written.{lane_slots, request_slots};

use crate::faults::LineFault;
use crate::reading::Words;
use crate::values::{
    authenticator_at, client_at, count_at, number_at, octet_at, run_at, short_at, text_at, time_at,
    words_at,
};
use crate::writing::{address, digits, first_members, number_if_any, widened, words};
use json::{Value, Writer};
use json_objects::{number, text};
use ledger_rules::LineRequest;
use std::alloc::{AllocError, Global};

pub(crate) fn about_at<'a>(
    value: &Value<'a>,
    room: &'a mut Words,
) -> Result<LineRequest<'a>, LineFault>
    ensures { MatchResult result (λ about. IsAbout (value_view value.now) about) (λ fault. Denies fault ((about : TheRequest) × IsAbout (value_view value.now) about)) }
{
    let Words {
        realm,
        session,
        user,
    } = room;
    let run = run_at(value)?;
    let time = time_at(value, "time")?;
    let home = text_at(value, "home")?;
    let lane = short_at(value, "lane")?;
    let number = number_at(value, "record")?;
    let client = client_at(value)?;
    let port = short_at(value, "port")?;
    let identifier = octet_at(value, "identifier")?;
    let authenticator = authenticator_at(value)?;
    let realm = words_at(value, "realm", "realm_octets", realm)?;
    let session = words_at(value, "session", "session_octets", session)?;
    let status = count_at(value, "status")?;
    let user = words_at(value, "user", "user_octets", user)?;
    Ok(LineRequest {
        run,
        time,
        home,
        lane,
        number,
        client,
        port,
        identifier,
        authenticator,
        realm,
        session,
        status,
        user,
    })
}

/// Begins the object of a line of a type that is about a request, as far as the request's lane.
pub(crate) fn lane_members(
    alloc: Global,
    writer: &mut Writer,
    kind: &str,
    about: &LineRequest<'_>,
) -> Result<(), AllocError>
    ensures { OnOk result (Opens writer.old writer.new (lane_slots kind.now about.now)) }
{
    first_members(alloc, writer, kind, about.run, about.time)?;
    text(writer, "home", about.home)?;
    number(writer, "lane", u64::from(about.lane))
}

/// Writes the request that a line is about, from its number on.
pub(crate) fn request_members(
    alloc: Global,
    writer: &mut Writer,
    about: &LineRequest<'_>,
) -> Result<(), AllocError>
    ensures { OnOk result (AddsSlots writer.old writer.new (request_slots about.now)) }
{
    number(writer, "record", about.number)?;
    address(alloc, writer, "client", about.client)?;
    number(writer, "port", u64::from(about.port))?;
    number(writer, "identifier", u64::from(about.identifier))?;
    digits(alloc, writer, "authenticator", &about.authenticator)?;
    words(alloc, writer, "realm", "realm_octets", about.realm)?;
    words(alloc, writer, "session", "session_octets", about.session)?;
    number_if_any(writer, "status", widened(about.status))?;
    words(alloc, writer, "user", "user_octets", about.user)
}
