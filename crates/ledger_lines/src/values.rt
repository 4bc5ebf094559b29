//! What a line has at its keys.

ghost use Rattle.std.specs.Prelude.{◌≡◌, ◌++◌, [], ◌∷◌, Bool, IfErr, List, MatchResult, OnOk, Option, option_copied, option_map, ◌<◌, ◌^◌, ◌↔◌, ℕ, length, map, MatchOption, IsTrue};
ghost use Rattle.json.specs.Value.{items_view, value_view, members_view};
ghost use Rattle.ledger_lines.specs.declared.faults.LineFault.TheVariants.{OutOfMemory};
ghost use Rattle.json_objects.specs.Written.{IsValue};
ghost use Rattle.ledger_lines.specs.Lines.{Denies, HasText, as_items, HasArray, HasAuthenticator, HasClient, HasList, HasName, HasNumber, HasOctets, HasOnly, HasRun, HasTime, HasTimeForm, HasTruth, has_form, IsTime, MayHaveNumber, MayHaveSum, MayHaveTime, MayHaveWords};
ghost use Rattle.json.specs.Json.{Items, Json};
ghost use Rattle.std.specs.List.{All, Contains};
ghost use Rattle.json.specs.Strict.{keys};
ghost use Rattle.ledger_lines.specs.internal.Known.{IsAbsent};

use crate::digits::{fill, octets_of};
use crate::faults::LineFault;
use crate::moments::is_moment;
use json::{Error, Scratch, Value};
use rad_realms::read_address;
use std::alloc::Global;

/// The value that these octets are, where no object in it has a key twice.
#[tactic(auto, using(crate::proofs::Parts::is_value, crate::proofs::Parts::no_utf8, crate::proofs::Parts::no_value))]
pub(crate) fn read_value<'a>(
    alloc: Global,
    octets: &'a [u8],
    scratch: &'a mut Scratch<Global>,
) -> Result<Value<'a>, LineFault>
    ensures { MatchResult result (λ value. IsValue octets.now (value_view value)) (λ fault. Denies fault ((value : Json) × IsValue octets.now value)) }
{
    let Ok(text) = str::from_utf8(octets) else {
        return Err(LineFault::NotALine);
    };
    match Value::parse_strict(alloc, text, scratch) {
        Ok(value) => Ok(value),
        Err(Error::OutOfMemory) => Err(LineFault::OutOfMemory),
        Err(_) => Err(LineFault::NotALine),
    }
}

/// Whether an object has no keys but these. They are likely in the same order.
pub(crate) fn has_only(value: &Value<'_>, known: &[&str]) -> bool
    ensures { IsTrue result ↔ HasOnly (map (λ k. k.now) known.now) (value_view value.now) }
{
    match value {
        Value::Object(members) => are_known(members.as_slice(), known),
        _ => false,
    }
}

fn are_known(members: &[(&str, Value<'_>)], known: &[&str]) -> bool
    ensures { IsTrue result ↔ All (Contains (map (λ k. k.now) known.now)) (keys (members_view members.now)) }
{
    let mut next = 0;
    for member in members {
        match place_near(known, next, member.0) {
            Some(place) => next = place + 1,
            None => return false,
        }
    }
    true
}

/// The place of a key among these, which is likely this one or one behind it.
fn place_near(known: &[&str], likely: usize, key: &str) -> Option<usize>
    ensures { MatchOption result (¬ Contains (map (λ k. k.now) known.now) key.now) (λ place. (place < length known.now) × Contains (map (λ k. k.now) known.now) key.now) }
{
    match place_from(known, likely, key) {
        Some(place) => Some(place),
        None => place_from(known, 0, key),
    }
}

fn place_from(known: &[&str], from: usize, key: &str) -> Option<usize>
    ensures { MatchOption result (IsAbsent (map (λ k. k.now) known.now) from key.now) (λ place. (place < length known.now) × Contains (map (λ k. k.now) known.now) key.now) }
{
    for place in from..known.len() {
        if known[place] == key {
            return Some(place);
        }
    }
    None
}

#[tactic(auto, using(crate::proofs::Found::text_found, crate::proofs::Found::no_text, crate::proofs::Found::no_text_there))]
pub(crate) fn text_at<'a>(value: &Value<'a>, key: &str) -> Result<&'a str, LineFault>
    ensures { MatchResult result (λ text. HasText key.now (value_view value.now) text.now) (λ fault. Denies fault ((text : List ℕ) × HasText key.now (value_view value.now) text)) }
{
    let Some(found) = value.get(key) else {
        return Err(LineFault::NotALine);
    };
    match found.as_str() {
        Some(text) => Ok(text),
        None => Err(LineFault::NotALine),
    }
}

#[tactic(auto, using(crate::proofs::Found::number_found, crate::proofs::Found::no_number, crate::proofs::Found::no_number_there))]
pub(crate) fn number_at(value: &Value<'_>, key: &str) -> Result<u64, LineFault>
    ensures { MatchResult result (λ its. HasNumber key.now (2 ^ 64) (value_view value.now) its) (λ fault. Denies fault ((its : ℕ) × HasNumber key.now (2 ^ 64) (value_view value.now) its)) }
{
    let Some(found) = value.get(key) else {
        return Err(LineFault::NotALine);
    };
    match found.as_u64() {
        Some(number) => Ok(number),
        None => Err(LineFault::NotALine),
    }
}

#[tactic(auto, using(crate::proofs::Found::narrower, crate::proofs::Found::too_large, crate::proofs::Found::none_below))]
pub(crate) fn serial_at(value: &Value<'_>, key: &str) -> Result<u64, LineFault>
    ensures { MatchResult result (λ its. HasNumber key.now (2 ^ 63) (value_view value.now) its) (λ fault. Denies fault ((its : ℕ) × HasNumber key.now (2 ^ 63) (value_view value.now) its)) }
{
    let number = number_at(value, key)?;
    if number < 1 << 63 {
        Ok(number)
    } else {
        Err(LineFault::NotALine)
    }
}

#[tactic(auto, using(crate::proofs::Found::narrower, crate::proofs::Found::too_large, crate::proofs::Found::none_below))]
pub(crate) fn short_at(value: &Value<'_>, key: &str) -> Result<u16, LineFault>
    ensures { MatchResult result (λ its. HasNumber key.now (2 ^ 16) (value_view value.now) its) (λ fault. Denies fault ((its : ℕ) × HasNumber key.now (2 ^ 16) (value_view value.now) its)) }
{
    match u16::try_from(number_at(value, key)?) {
        Ok(number) => Ok(number),
        Err(_) => Err(LineFault::NotALine),
    }
}

#[tactic(auto, using(crate::proofs::Found::narrower, crate::proofs::Found::too_large, crate::proofs::Found::none_below))]
pub(crate) fn octet_at(value: &Value<'_>, key: &str) -> Result<u8, LineFault>
    ensures { MatchResult result (λ its. HasNumber key.now (2 ^ 8) (value_view value.now) its) (λ fault. Denies fault ((its : ℕ) × HasNumber key.now (2 ^ 8) (value_view value.now) its)) }
{
    match u8::try_from(number_at(value, key)?) {
        Ok(number) => Ok(number),
        Err(_) => Err(LineFault::NotALine),
    }
}

/// The octets whose digits stand at a key, in this room.
#[tactic(auto, using(crate::proofs::Found::octets_found, crate::proofs::Found::no_octets, crate::proofs::Found::no_octets_text))]
pub(crate) fn octets_at<'r>(
    value: &Value<'_>,
    key: &str,
    room: &'r mut Vec<u8>,
) -> Result<&'r [u8], LineFault>
    ensures { MatchResult result (λ octets. HasOctets key.now (value_view value.now) octets.now) (λ fault. Denies fault ((octets : List ℕ) × HasOctets key.now (value_view value.now) octets)) }
{
    let digits = text_at(value, key)?;
    Ok(octets_of(digits.as_bytes(), room)?)
}

/// A run's name: sixteen hexadecimal digits.
pub(crate) fn run_at(value: &Value<'_>) -> Result<u64, LineFault>
    ensures { MatchResult result (λ run. HasRun (value_view value.now) run) (λ fault. Denies fault ((run : ℕ) × HasRun (value_view value.now) run)) }
{
    name_at(value, "run")
}

/// A run's name at a key: sixteen hexadecimal digits.
#[tactic(auto, using(crate::proofs::Parts::array_found, crate::proofs::Parts::name_found, crate::proofs::Parts::no_name, crate::proofs::Parts::no_array, crate::proofs::Parts::no_name_text))]
pub(crate) fn name_at(value: &Value<'_>, key: &str) -> Result<u64, LineFault>
    ensures { MatchResult result (λ run. HasName key.now (value_view value.now) run) (λ fault. Denies fault ((run : ℕ) × HasName key.now (value_view value.now) run)) }
{
    let digits = text_at(value, key)?;
    let mut octets = [0; 8];
    if fill(digits.as_bytes(), &mut octets) {
        Ok(u64::from_be_bytes(octets))
    } else {
        Err(LineFault::NotALine)
    }
}

/// A request's Authenticator: thirty-two hexadecimal digits.
#[tactic(auto, using(crate::proofs::Parts::array_found, crate::proofs::Parts::no_array, crate::proofs::Parts::no_array_text))]
pub(crate) fn authenticator_at(value: &Value<'_>) -> Result<[u8; 16], LineFault>
    ensures { MatchResult result (λ octets. HasAuthenticator (value_view value.now) octets) (λ fault. Denies fault ((octets : List ℕ) × HasAuthenticator (value_view value.now) octets)) }
{
    let digits = text_at(value, "authenticator")?;
    let mut octets = [0; 16];
    if fill(digits.as_bytes(), &mut octets) {
        Ok(octets)
    } else {
        Err(LineFault::NotALine)
    }
}

/// A SHA-256 at a key: sixty-four hexadecimal digits.
#[tactic(auto, using(crate::proofs::Parts::array_found, crate::proofs::Parts::no_array, crate::proofs::Parts::no_array_text))]
pub(crate) fn sum_at(value: &Value<'_>, key: &str) -> Result<[u8; 32], LineFault>
    ensures { MatchResult result (λ sum. HasArray key.now 32 (value_view value.now) sum) (λ fault. Denies fault ((sum : List ℕ) × HasArray key.now 32 (value_view value.now) sum)) }
{
    let digits = text_at(value, key)?;
    let mut sum = [0; 32];
    if fill(digits.as_bytes(), &mut sum) {
        Ok(sum)
    } else {
        Err(LineFault::NotALine)
    }
}

#[tactic(auto, using(crate::proofs::Parts::sum_none, crate::proofs::Parts::no_sum_if_any))]
pub(crate) fn sum_if_any_at(value: &Value<'_>, key: &str) -> Result<Option<[u8; 32]>, LineFault>
    ensures { MatchResult result (λ sum. MayHaveSum key.now (value_view value.now) sum) (λ fault. Denies fault ((sum : Option (List ℕ)) × MayHaveSum key.now (value_view value.now) sum)) }
{
    if value.get(key).is_none() {
        return Ok(None);
    }
    Ok(Some(sum_at(value, key)?))
}

#[tactic(auto, using(crate::proofs::Parts::time_found, crate::proofs::Parts::no_time, crate::proofs::Parts::no_time_text))]
pub(crate) fn time_at<'a>(value: &Value<'a>, key: &str) -> Result<&'a str, LineFault>
    ensures { MatchResult result (λ time. HasTime key.now (value_view value.now) time.now) (λ fault. Denies fault ((time : List ℕ) × HasTime key.now (value_view value.now) time)) }
{
    let time = text_at(value, key)?;
    if is_time(time.as_bytes()) {
        Ok(time)
    } else {
        Err(LineFault::NotALine)
    }
}

#[tactic(auto, using(crate::proofs::Parts::time_none, crate::proofs::Parts::no_time_if_any))]
pub(crate) fn time_if_any_at<'a>(value: &Value<'a>, key: &str) -> Result<Option<&'a str>, LineFault>
    ensures { MatchResult result (λ time. MayHaveTime key.now (value_view value.now) (option_copied time)) (λ fault. Denies fault ((time : Option (List ℕ)) × MayHaveTime key.now (value_view value.now) time)) }
{
    if value.get(key).is_none() {
        return Ok(None);
    }
    Ok(Some(time_at(value, key)?))
}

/// The form of a moment: `d` stands for a digit.
const FORM: [u8; 24] = *b"dddd-dd-ddTdd:dd:dd.dddZ";

/// A moment that exists, of the form `2026-01-31T23:59:59.999Z`.
fn is_time(octets: &[u8]) -> bool
    ensures { IsTrue result ↔ IsTime octets.now }
{
    has_time_form(octets) && is_moment(octets)
}

/// Octets of the form `2026-01-31T23:59:59.999Z`.
fn has_time_form(octets: &[u8]) -> bool
    ensures { IsTrue result ↔ HasTimeForm octets.now }
{
    if octets.len() != 24 {
        return false;
    }
    for place in 0..24 {
        if !fits(FORM[place], octets[place]) {
            return false;
        }
    }
    true
}

/// Whether an octet stands where the form of a moment has this one: `d` for a digit.
fn fits(form: u8, octet: u8) -> bool
    ensures { result ≡ has_form form octet }
{
    if form == b'd' {
        octet.is_ascii_digit()
    } else {
        octet == form
    }
}

#[tactic(auto, using(crate::proofs::Parts::client_found, crate::proofs::Parts::no_client, crate::proofs::Parts::no_client_text))]
pub(crate) fn client_at(value: &Value<'_>) -> Result<[u8; 4], LineFault>
    ensures { MatchResult result (λ client. HasClient (value_view value.now) client) (λ fault. Denies fault ((client : List ℕ) × HasClient (value_view value.now) client)) }
{
    match read_address(text_at(value, "client")?) {
        Some(client) => Ok(client),
        None => Err(LineFault::NotALine),
    }
}

/// A realm, a session or a user: none, a text at the one key, or octets that are no text at the other, in this room.
#[tactic(auto, using(crate::proofs::Parts::words_none, crate::proofs::Parts::words_text, crate::proofs::Parts::words_octets, crate::proofs::Parts::two_words, crate::proofs::Parts::no_words, crate::proofs::Parts::no_words_octets))]
pub(crate) fn words_at<'a>(
    value: &Value<'a>,
    key: &str,
    other: &str,
    room: &'a mut Vec<u8>,
) -> Result<Option<&'a [u8]>, LineFault>
    ensures { MatchResult result (λ words. MayHaveWords key.now other.now (value_view value.now) (option_copied words)) (λ fault. Denies fault ((words : Option (List ℕ)) × MayHaveWords key.now other.now (value_view value.now) words)) }
{
    let Some(found) = value.get(key) else {
        if value.get(other).is_none() {
            return Ok(None);
        }
        return Ok(Some(octets_at(value, other, room)?));
    };
    if value.get(other).is_some() {
        return Err(LineFault::NotALine);
    }
    match found.as_str() {
        Some(text) => Ok(Some(text.as_bytes())),
        None => Err(LineFault::NotALine),
    }
}

#[tactic(auto, using(crate::proofs::Parts::count_none, crate::proofs::Parts::count_found, crate::proofs::Parts::no_count, crate::proofs::Parts::no_count_number))]
pub(crate) fn count_at(value: &Value<'_>, key: &str) -> Result<Option<u32>, LineFault>
    ensures { MatchResult result (λ its. MayHaveNumber key.now (2 ^ 32) (value_view value.now) its) (λ fault. Denies fault ((its : Option ℕ) × MayHaveNumber key.now (2 ^ 32) (value_view value.now) its)) }
{
    if value.get(key).is_none() {
        return Ok(None);
    }
    match u32::try_from(number_at(value, key)?) {
        Ok(its) => Ok(Some(its)),
        Err(_) => Err(LineFault::NotALine),
    }
}

#[tactic(auto, using(crate::proofs::Parts::count_none, crate::proofs::Few::no_short_if_any))]
pub(crate) fn short_if_any_at(value: &Value<'_>, key: &str) -> Result<Option<u16>, LineFault>
    ensures { MatchResult result (λ its. MayHaveNumber key.now (2 ^ 16) (value_view value.now) its) (λ fault. Denies fault ((its : Option ℕ) × MayHaveNumber key.now (2 ^ 16) (value_view value.now) its)) }
{
    if value.get(key).is_none() {
        return Ok(None);
    }
    Ok(Some(short_at(value, key)?))
}

#[tactic(auto, using(crate::proofs::Parts::count_none, crate::proofs::Parts::no_amount))]
pub(crate) fn amount_at(value: &Value<'_>, key: &str) -> Result<Option<u64>, LineFault>
    ensures { MatchResult result (λ its. MayHaveNumber key.now (2 ^ 64) (value_view value.now) its) (λ fault. Denies fault ((its : Option ℕ) × MayHaveNumber key.now (2 ^ 64) (value_view value.now) its)) }
{
    if value.get(key).is_none() {
        return Ok(None);
    }
    Ok(Some(number_at(value, key)?))
}

/// Whether a key stands there, with `true`: with another value it makes no line.
#[tactic(auto, using(crate::proofs::Found::nothing_found, crate::proofs::Found::truth_found, crate::proofs::Found::no_truth, crate::proofs::Found::untrue))]
pub(crate) fn truth_at(value: &Value<'_>, key: &str) -> Result<bool, LineFault>
    ensures { MatchResult result (λ its. HasTruth key.now (value_view value.now) its) (λ fault. Denies fault ((its : Bool) × HasTruth key.now (value_view value.now) its)) }
{
    let Some(found) = value.get(key) else {
        return Ok(false);
    };
    match found.as_bool() {
        Some(true) => Ok(true),
        Some(false) | None => Err(LineFault::NotALine),
    }
}

#[tactic(auto, using(crate::proofs::Lists::list_found, crate::proofs::Lists::no_list, crate::proofs::Lists::no_list_there))]
pub(crate) fn lanes_at<'v, 'a>(value: &'v Value<'a>) -> Result<&'v [Value<'a>], LineFault>
    ensures { MatchResult result (λ values. HasList (value_view value.now) (items_view values.now)) (λ fault. Denies fault ((items : Items) × HasList (value_view value.now) items)) }
{
    let Some(found) = value.get("lanes") else {
        return Err(LineFault::NotALine);
    };
    match items_of(found) {
        Some(values) => Ok(values),
        None => Err(LineFault::NotALine),
    }
}

fn items_of<'v, 'a>(value: &'v Value<'a>) -> Option<&'v [Value<'a>]>
    ensures { option_map (λ values. items_view values.now) result ≡ as_items (value_view value.now) }
{
    if let Value::Array(values) = value {
        Some(values.as_slice())
    } else {
        None
    }
}

pub(crate) fn push<T: Drop>(list: &mut Vec<T>, value: T) -> Result<(), LineFault>
    ensures pushed { OnOk result (list.new.items ≡ list.old.items ++ value ∷ []) }
    ensures refused { IfErr result (λ fault. fault ≡ OutOfMemory) }
{
    match list.push(value) {
        Ok(()) => Ok(()),
        Err(_) => Err(LineFault::OutOfMemory),
    }
}
