//! Warnings about a configuration that is read, and hardly meant as it is.

ghost use Rattle.std.specs.Prelude.{◌≡◌, ◌-◌, ◌<◌, ◌≤◌, ◌++◌, ◌&&◌, ◌==◌, nat_lt, All, length, map, take, option_map, option_to_list, Some, None, if◌then◌else◌, IfOk, IfSome, OnOk};
ghost use Rattle.std.specs.List.{list_any};
ghost use Rattle.std.specs.Str.{bytes_eq};
ghost use Rattle.rad_realms.specs.Spot.{key_name};
ghost use Rattle.rad_realms.specs.Realm.{same_name};
ghost use Rattle.rad_advice.specs.Doubts.{about, example_secrets, is_control as controls, secret_doubt as doubt_of, secret_doubts, client_doubts, leads_nowhere as nothing_leads, is_unused as unused, is_shared as shared, is_default as is_default_lane, home_doubts, means_any as stands_for_any, realm_doubt as doubt_of_realm, realm_doubts, each_doubt, doubts_in, doubtful_told, IsWarnedIn};

use crate::config_text::ConfigText;
use crate::finding::find_key;
use crate::listed::{Listed, list_first};
use crate::place::{AtText, TextPlace};
use crate::unread::TableText;
use rad_realms::{Client, Config, Endpoint, Home, Key, Part, Realm, Spot};
use std::alloc::{AllocError, Global};
use std::fmt;

/// The most warnings that are listed.
const MOST_LISTED: usize = 50;

/// What is hardly meant. It is printed as one sentence.
#[derive(Clone, Copy, PartialEq, Eq)]
pub enum Doubt {
    /// There is no realm, and no home server for requests without one or for all other realms.
    NoRealm,
    /// No realm leads to the home server, and neither requests without one nor all other realms do.
    UnusedHome,
    /// An earlier home server has the same address and port.
    SharedAddress,
    /// The secret is that of an installed example.
    ExampleSecret,
    /// The secret has an ASCII control character.
    ControlSecret,
    /// The secret has fewer than 8 octets.
    ShortSecret,
    /// `span` is below 5000 ms.
    ShortSpan,
    /// The realm's name is `*`, or `DEFAULT` in letters of either case.
    AnyRealm,
    /// The realm's name is `NULL` in letters of either case.
    NullRealm,
    /// The realm's name begins with `/`.
    PatternRealm,
    /// The realm's name begins with `~`.
    TildeRealm,
    /// The realm's name ends with a dot.
    DottedRealm,
}

impl Doubt {
    ghost use Rattle.rad_advice.specs.Doubts.{event_name, doubt_text};

    /// Returns the name of its event in the log.
    pub fn event(self) -> &'static str
        ensures { result.now ≡ event_name self }
    {
        match self {
            Doubt::NoRealm => "no-realm",
            Doubt::UnusedHome => "unused-home",
            Doubt::SharedAddress => "shared-address",
            Doubt::ExampleSecret | Doubt::ControlSecret | Doubt::ShortSecret => "weak-secret",
            Doubt::ShortSpan => "short-span",
            Doubt::AnyRealm
            | Doubt::NullRealm
            | Doubt::PatternRealm
            | Doubt::TildeRealm
            | Doubt::DottedRealm => "realm-name",
        }
    }

    fn text(self) -> &'static str
        ensures { result.now ≡ doubt_text self }
    {
        match self {
            Doubt::NoRealm => "no realm and no default_home, so each request is dropped",
            Doubt::UnusedHome => "no realm and no default_home lead to it",
            Doubt::SharedAddress => "an earlier home server has this address and port",
            Doubt::ExampleSecret => "an example has this secret",
            Doubt::ControlSecret => {
                "it has a control character, as a backslash makes one in quotation marks"
            }
            Doubt::ShortSecret => "it has fewer than 8 octets",
            Doubt::ShortSpan => "below 5000 ms, so a late repeat is sent on as a new request",
            Doubt::AnyRealm => {
                "a realm of this name, not each realm: other_home takes all that are not listed"
            }
            Doubt::NullRealm => {
                "a realm of this name: default_home takes names without a realm, other_home all realms that are not listed"
            }
            Doubt::TildeRealm => {
                "it begins with ~, but a realm is a name, not a pattern: other_home takes all that are not listed"
            }
            Doubt::PatternRealm => "it begins with /, but a realm is a name, not a pattern",
            Doubt::DottedRealm => "it ends with a dot, as hardly a user's realm does",
        }
    }
}

/// A key, and what is hardly meant there.
#[derive(Clone, Copy, PartialEq, Eq)]
pub struct Doubtful {
    /// The key and its table.
    pub spot: Spot,
    /// What is hardly meant.
    pub doubt: Doubt,
}

/// A warning. It is printed as the key, its place and the doubt: `client 0 secret at line 5, column 1: it has fewer than 8
/// octets`.
#[derive(Clone, Copy)]
pub struct Warning {
    /// What it is about.
    pub doubtful: Doubtful,
    /// The place of the key in the text, if it was found.
    pub place: Option<TextPlace>,
}

impl fmt::Display for Warning {
    ghost use Rattle.rad_advice.specs.Doubts.{warning_text};

    ghost output = { λ warning. Some (warning_text warning) };

    fn fmt<W: fmt::Write>(&self, f: &mut fmt::Formatter<W>) -> fmt::Result {
        let Spot { part, index, key } = self.doubtful.spot;
        let table = TableText { part, index };
        let name = key.name();
        let at = AtText(self.place);
        let doubt = self.doubtful.doubt.text();
        write!(f, "{table}{name}{at}: {doubt}")
    }
}

/// Returns the first 50 warnings about a configuration that was read from this text: that nothing leads anywhere; then those
/// about each client, each home server and each realm.
///
/// # Errors
///
/// If memory is refused.
pub fn list_warnings(
    alloc: Global,
    config: &Config,
    text: &ConfigText<'_>,
) -> Result<Listed<Warning>, AllocError>
    ensures first { IfOk result (λ warnings. map doubtful_told warnings.first.items ≡ take 50 (doubts_in config.now)) }
    ensures more { IfOk result (λ warnings. warnings.more ≡ length (doubts_in config.now) - 50) }
    ensures places { IfOk result (λ warnings. All (IsWarnedIn text.now) warnings.first.items) }
{
    let doubts = list_doubts(alloc, config)?;
    warn_first(alloc, text.as_str(), doubts.as_slice())
}

fn warn_first(alloc: Global, text: &str, doubts: &[Doubtful]) -> Result<Listed<Warning>, AllocError>
    ensures first { IfOk result (λ warnings. map doubtful_told warnings.first.items ≡ take 50 doubts.now) }
    ensures more { IfOk result (λ warnings. warnings.more ≡ length doubts.now - 50) }
    ensures places { IfOk result (λ warnings. All (IsWarnedIn text.now) warnings.first.items) }
{
    list_first(
        alloc,
        doubts,
        MOST_LISTED,
        |doubtful| warning_of(alloc, text, doubtful),
    )
}

fn warning_of(alloc: Global, text: &str, doubtful: Doubtful) -> Result<Warning, AllocError>
    ensures entry { IfOk result (λ warning. doubtful_told warning ≡ doubtful) }
    ensures place { IfOk result (λ warning. IsWarnedIn text.now warning) }
{
    let Spot { part, index, key } = doubtful.spot;
    let place = find_key(alloc, text, part, index, key.name())?;
    Ok(Warning { doubtful, place })
}

fn list_doubts(alloc: Global, config: &Config) -> Result<Vec<Doubtful>, AllocError>
    ensures { IfOk result (λ doubts. doubts.items ≡ doubts_in config.now) }
{
    let mut doubts = Vec::new(alloc);
    add_of_config(&mut doubts, config)?;
    Ok(doubts)
}

#[tactic(auto, unfolding(crate::specs::Doubts::doubts_in))]
fn add_of_config(doubts: &mut Vec<Doubtful>, config: &Config) -> Result<(), AllocError>
    ensures { OnOk result (doubts.new.items ≡ doubts.old.items ++ doubts_in config.now) }
{
    let nowhere = doubt_if(leads_nowhere(config), Doubt::NoRealm);
    add_doubt(doubts, Part::Top, 0, Key::Realm, nowhere)?;
    add_of_clients(doubts, config.clients())?;
    add_of_homes(doubts, config, config.homes())?;
    add_of_realms(doubts, config.realms())
}

fn doubt_if(test: bool, doubt: Doubt) -> Option<Doubt>
    ensures { result ≡ (if test then Some doubt else None) }
{
    if test { Some(doubt) } else { None }
}

fn add_of_clients(doubts: &mut Vec<Doubtful>, clients: &[Client]) -> Result<(), AllocError>
    ensures { OnOk result (doubts.new.items ≡ doubts.old.items ++ each_doubt client_doubts 0 clients.now) }
{
    let mut index = 0;
    for client in clients {
        add_of_client(doubts, index, client)?;
        index += 1;
    }
    Ok(())
}

fn add_of_client(
    doubts: &mut Vec<Doubtful>,
    index: usize,
    client: &Client,
) -> Result<(), AllocError>
    ensures { OnOk result (doubts.new.items ≡ doubts.old.items ++ client_doubts index client.now) }
{
    add_of_secret(doubts, Part::Client, index, client.secret().octets())
}

fn add_of_homes(
    doubts: &mut Vec<Doubtful>,
    config: &Config,
    homes: &[Home],
) -> Result<(), AllocError>
    requires { homes.now ≡ config.now.homes }
    ensures { OnOk result (doubts.new.items ≡ doubts.old.items ++ each_doubt (home_doubts config.now) 0 homes.now) }
{
    let mut index = 0;
    for home in homes {
        add_of_home(doubts, config, index, &homes[..index], home)?;
        index += 1;
    }
    Ok(())
}

#[tactic(auto, unfolding(crate::specs::Doubts::home_doubts))]
fn add_of_home(
    doubts: &mut Vec<Doubtful>,
    config: &Config,
    index: usize,
    earlier: &[Home],
    home: &Home,
) -> Result<(), AllocError>
    requires { earlier.now ≡ take index config.now.homes }
    ensures { OnOk result (doubts.new.items ≡ doubts.old.items ++ home_doubts config.now index home.now) }
{
    let endpoint = Endpoint {
        address: home.address(),
        port: home.port(),
    };
    let unused = doubt_if(is_unused(config, index), Doubt::UnusedHome);
    let shared = doubt_if(is_shared(earlier, endpoint), Doubt::SharedAddress);
    let short = doubt_if(has_short_span(home), Doubt::ShortSpan);
    add_doubt(doubts, Part::Home, index, Key::Name, unused)?;
    add_doubt(doubts, Part::Home, index, Key::Address, shared)?;
    add_of_secret(doubts, Part::Home, index, home.secret().octets())?;
    add_doubt(doubts, Part::Home, index, Key::Span, short)
}

fn has_short_span(home: &Home) -> bool
    ensures { result ≡ nat_lt home.now.limits.span 5000 }
{
    home.limits().numbers().span < 5000
}

fn add_of_realms(doubts: &mut Vec<Doubtful>, realms: &[Realm]) -> Result<(), AllocError>
    ensures { OnOk result (doubts.new.items ≡ doubts.old.items ++ each_doubt realm_doubts 0 realms.now) }
{
    let mut index = 0;
    for realm in realms {
        add_of_realm(doubts, index, realm)?;
        index += 1;
    }
    Ok(())
}

fn add_of_realm(doubts: &mut Vec<Doubtful>, index: usize, realm: &Realm) -> Result<(), AllocError>
    ensures { OnOk result (doubts.new.items ≡ doubts.old.items ++ realm_doubts index realm.now) }
{
    let doubt = realm_doubt(realm.name().as_bytes());
    add_doubt(doubts, Part::Realm, index, Key::Name, doubt)
}

fn add_doubt(
    doubts: &mut Vec<Doubtful>,
    part: Part,
    index: usize,
    key: Key,
    doubt: Option<Doubt>,
) -> Result<(), AllocError>
    ensures { OnOk result (doubts.new.items ≡ doubts.old.items ++ option_to_list (option_map (about part index key) doubt)) }
{
    if let Some(doubt) = doubt {
        let spot = Spot { part, index, key };
        doubts.push(Doubtful { spot, doubt })?;
    }
    Ok(())
}

fn add_of_secret(
    doubts: &mut Vec<Doubtful>,
    part: Part,
    index: usize,
    secret: &[u8],
) -> Result<(), AllocError>
    ensures { OnOk result (doubts.new.items ≡ doubts.old.items ++ secret_doubts part index secret.now) }
{
    add_doubt(doubts, part, index, Key::Secret, secret_doubt(secret))
}

fn leads_nowhere(config: &Config) -> bool
    ensures { result ≡ nothing_leads config.now }
{
    config.realms().is_empty() && config.lane_of(None).is_none() && config.other_lane().is_none()
}

fn is_unused(config: &Config, lane: usize) -> bool
    ensures { result ≡ unused config.now lane }
{
    if leads_nowhere(config) {
        return false;
    }
    !has_realm(config.realms(), lane)
        && !is_default(config.lane_of(None), lane)
        && !is_default(config.other_lane(), lane)
}

fn is_default(default: Option<u16>, lane: usize) -> bool
    ensures { result ≡ is_default_lane default lane }
{
    match default {
        Some(default) => usize::from(default) == lane,
        None => false,
    }
}

fn is_shared(earlier: &[Home], endpoint: Endpoint) -> bool
    ensures { result ≡ shared earlier.now endpoint }
{
    earlier.iter().any(|home| is_at(home, endpoint))
}

fn is_at(home: &Home, endpoint: Endpoint) -> bool
    ensures { result ≡ (home.now.endpoint.port == endpoint.port && bytes_eq home.now.endpoint.address endpoint.address) }
{
    home.port() == endpoint.port && home.address() == endpoint.address
}

fn secret_doubt(secret: &[u8]) -> Option<Doubt>
    ensures { result ≡ doubt_of secret.now }
{
    if is_example(secret) {
        Some(Doubt::ExampleSecret)
    } else if has_control(secret) {
        Some(Doubt::ControlSecret)
    } else if secret.len() < 8 {
        Some(Doubt::ShortSecret)
    } else {
        None
    }
}

/// The secrets of the installed examples that are texts to be replaced.
fn examples() -> &'static [&'static str]
    ensures { map (λ example. example.now) result.now ≡ example_secrets }
{
    &[
        "a long secret of this client alone",
        "a long secret of the other client",
        "a long secret of this home server",
        "a long secret of the partner",
        "one long random text for this NAS",
        "one long random text for this home server",
        "one long random text for the first NAS",
        "one long random text for the second NAS",
        "one long random text for the third NAS",
        "one long random text for billing",
        "one long random text for the partner",
        "one long random text for roaming",
    ]
}

fn is_example(secret: &[u8]) -> bool
    ensures { result ≡ list_any (λ example. bytes_eq example secret.now) example_secrets }
{
    has_text(examples(), secret)
}

fn has_control(secret: &[u8]) -> bool
    ensures { result ≡ list_any controls secret.now }
{
    secret.iter().any(|octet| *octet < 32 || *octet == 127)
}

fn realm_doubt(name: &[u8]) -> Option<Doubt>
    ensures { result ≡ doubt_of_realm name.now }
{
    if name.is_empty() {
        return None;
    }
    if means_any(name) {
        Some(Doubt::AnyRealm)
    } else if is_same_word(name, "null") {
        Some(Doubt::NullRealm)
    } else if name[0] == b'/' {
        Some(Doubt::PatternRealm)
    } else if name[0] == b'~' {
        Some(Doubt::TildeRealm)
    } else if name[name.len() - 1] == b'.' {
        Some(Doubt::DottedRealm)
    } else {
        None
    }
}

/// Returns whether a name is one that other proxies take for all realms.
fn means_any(name: &[u8]) -> bool
    ensures { result ≡ stands_for_any name.now }
{
    is_same_word(name, "*") || is_same_word(name, "default")
}

/// Returns whether a name is this word, in letters of either case.
fn is_same_word(name: &[u8], word: &str) -> bool
    ensures { result ≡ same_name name.now word.now }
{
    name.eq_ignore_ascii_case(word.as_bytes())
}

/// For the proof: whether one of the realms leads to a lane.
fn has_realm(realms: &[Realm], lane: usize) -> bool
    ensures { result ≡ list_any (λ r. r.lane == lane) realms.now }
{
    realms.iter().any(|realm| usize::from(realm.lane()) == lane)
}

/// For the proof: whether one of these texts has these octets.
fn has_text(texts: &[&str], octets: &[u8]) -> bool
    ensures { result ≡ list_any (λ text. bytes_eq text.now octets.now) texts.now }
{
    texts.iter().any(|text| text.as_bytes() == octets)
}
