//! What an operator is told of a fault besides its name and place: what the value seems to be, or should be.

ghost use Rattle.std.specs.Prelude.{◌≡◌, option_map, length, filter, ◌==◌};
ghost use Rattle.std.specs.List.{list_any};
ghost use Rattle.std.specs.Char.{is_ascii_alphabetic};
ghost use Rattle.rad_advice.specs.Faults.{has_octet as contains_octet, has_letter as contains_letter, has_colons as contains_colons, client_hint as hint_for_client, server_hint as hint_for_server, hint_of_text, missing_hint as hint_for_missing, type_hint as hint_for_type, range_hint as hint_for_range, most_hint as hint_for_most, hint_text};

use rad_realms::{ConfigFault, Key, Part, Spot};

/// A text is needed.
const TEXT: &str = ": a text in quotation marks";

/// Returns the hint of a fault, given the text at its key. It follows the value.
pub(crate) fn hint_of(fault: ConfigFault, text: Option<&str>) -> &'static str
    ensures { result.now ≡ hint_text fault (option_map (λ s. s.now) text.entry) }
{
    match fault {
        ConfigFault::Missing(spot) => missing_hint(spot.part, spot.key),
        ConfigFault::WrongType(spot) => type_hint(spot.part, spot.key),
        ConfigFault::OutOfRange(spot) => range_hint(spot.part, spot.key),
        ConfigFault::UnknownHome(_) => ": no [[home]] has this name",
        ConfigFault::BadAddress(spot) => address_hint(spot.part, text),
        ConfigFault::TooMany(spot) => most_hint(spot.key),
        ConfigFault::Toml | ConfigFault::OutOfMemory | ConfigFault::DoubleName(_) => "",
    }
}

fn missing_hint(part: Part, key: Key) -> &'static str
    ensures { result.now ≡ hint_for_missing part key }
{
    if part != Part::Top {
        return ": it is needed";
    }
    match key {
        Key::Client => ": at least one [[client]] is needed",
        Key::Home => ": at least one [[home]] is needed",
        _ => ": it is needed",
    }
}

fn type_hint(part: Part, key: Key) -> &'static str
    ensures { result.now ≡ hint_for_type part key }
{
    match key {
        Key::Client => ": a table for each, under the header [[client]]",
        Key::Realm => ": a table for each, under the header [[realm]]",
        Key::Home if part == Part::Top => ": a table for each, under the header [[home]]",
        Key::Home | Key::Listen | Key::DefaultHome | Key::OtherHome => TEXT,
        Key::Address | Key::Secret | Key::Name => TEXT,
        _ => ": a whole number without quotation marks",
    }
}

fn range_hint(part: Part, key: Key) -> &'static str
    ensures { result.now ≡ hint_for_range part key }
{
    match key {
        Key::Secret => ": 1 to 128 octets",
        Key::Name if part == Part::Realm => ": 1 to 252 octets, none of them @",
        Key::Name => ": 1 to 64 letters, digits, -, _ and .",
        Key::Linger | Key::Span => ": 0 to 600000",
        Key::Window => ": 1 to 256 x ports - 2",
        Key::Queue => ": 1 to 65536",
        Key::Book => ": 1 to 1000000",
        Key::Tries => ": 1 to 10",
        Key::FirstWait => ": 100 to 60000",
        Key::ProbeEvery => ": 1000 to 600000",
        Key::DownWait => ": 1000 to 3600000",
        Key::Ring => ": 1 to 4096",
        Key::Ports => ": 1 to 4",
        _ => "",
    }
}

fn most_hint(key: Key) -> &'static str
    ensures { result.now ≡ hint_for_most key }
{
    match key {
        Key::Home => ": at most 64",
        _ => ": at most 256",
    }
}

fn address_hint(part: Part, text: Option<&str>) -> &'static str
    ensures { result.now ≡ hint_of_text part (option_map (λ s. s.now) text.entry) }
{
    match text {
        None => "",
        Some(text) if part == Part::Client => client_hint(text.as_bytes()),
        Some(text) => server_hint(text.as_bytes()),
    }
}

fn client_hint(text: &[u8]) -> &'static str
    ensures { result.now ≡ hint_for_client text.now }
{
    if has_octet(text, b'/') {
        ": it is a block: one [[client]] for each address"
    } else if has_colons(text) {
        ": it is IPv6: IPv4 alone is served"
    } else if has_octet(text, b':') {
        ": it has a port: a client has none"
    } else if has_letter(text) {
        ": it is a host name, not an address"
    } else {
        ": four numbers from 0 to 255, joined by dots, none with a 0 before it"
    }
}

fn server_hint(text: &[u8]) -> &'static str
    ensures { result.now ≡ hint_for_server text.now }
{
    if has_octet(text, b'/') {
        ": it is a block, not an address and port"
    } else if has_colons(text) {
        ": it is IPv6: IPv4 alone is served"
    } else if has_letter(text) {
        ": it is a host name, not an address"
    } else if !has_octet(text, b':') {
        ": the port is missing"
    } else {
        ": an address and a port from 1 to 65535, as in 192.0.2.1:1813"
    }
}

fn has_colons(text: &[u8]) -> bool
    ensures { result ≡ contains_colons text.now }
{
    count_colons(text) >= 2
}

/// For the proof: whether a text has this octet.
fn has_octet(text: &[u8], octet: u8) -> bool
    ensures { result ≡ contains_octet text.now octet }
{
    text.iter().any(|other| *other == octet)
}

/// For the proof: whether a text has an ASCII letter.
fn has_letter(text: &[u8]) -> bool
    ensures { result ≡ contains_letter text.now }
{
    text.iter().any(|octet| octet.is_ascii_alphabetic())
}

/// For the proof: returns the number of colons in a text.
fn count_colons(text: &[u8]) -> usize
    ensures { result ≡ length (filter (λ o. o == 58) text.now) }
{
    text.iter().filter(|octet| **octet == b':').count()
}
