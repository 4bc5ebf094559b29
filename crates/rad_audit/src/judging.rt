//! What is judged of a line by itself, whatever the lines before it are.

ghost use Rattle.std.specs.Prelude.{◌≡◌, ◌<◌, ◌^◌, bytes_eq, find, IfOk, MatchOption, MatchResult, option_copied, option_map};
ghost use Rattle.ledger_rules.specs.Judging.{ArePacketsRight, IsWrongPacket};
ghost use Rattle.ledger_lines.specs.Lines.{Denies, IsLine};
ghost use Rattle.ledger_lines.specs.declared.reading.SummedLine.{SummedLine};
ghost use Rattle.rad_realms.specs.Realm.{client_of};
ghost use Rattle.rad_audit.specs.Judging.{IsAlone, IsJudged, IsJudgedFrom};

use crate::chains::LineSum;
use crate::wording::{LineWords, are_words_of};
use ledger_lines::{Begin, End, Hidden, Line, LineFault, Room, read_line};
use ledger_rules::{AnswerCount, Entry, Left, Reason, RecordCount, Resumed, judge};
use rad_auth::Secret;
use rad_realms::{Config, Home};
use std::alloc::{AllocError, Global};

/// What an entry is by itself.
#[derive(Clone, Copy)]
pub enum Alone {
    /// This is the first thing that is wrong with its packets.
    Wrong(Reason),
    /// Nothing is wrong with its packets, but its words are not theirs.
    OtherWords,
    /// Nothing is wrong with it.
    Right,
}

/// An entry, judged by itself.
#[derive(Clone, Copy)]
pub struct JudgedEntry<'a> {
    pub entry: Entry<'a>,
    /// The secret of its home server; none if the configuration does not have it.
    pub home: Option<&'a Secret>,
    /// The secret of its client; none if the configuration does not have it.
    pub client: Option<&'a Secret>,
    pub alone: Alone,
}

/// What a line of a ledger has.
#[derive(Drop)]
pub enum Content<'a> {
    Begin(Begin<'a>),
    Entry(JudgedEntry<'a>),
    Left(Left<'a>),
    /// It counts what became of a response.
    Count(RecordCount<'a>),
    /// It counts how often the response of an earlier run was sent again.
    AgainEarlier(AnswerCount<'a>),
    /// A lane took over a request that an earlier run left.
    Resumed(Resumed<'a>),
    End(End<'a>),
    Hidden(Hidden),
}

/// A line of a ledger, judged by itself.
#[derive(Drop)]
pub struct JudgedLine<'a> {
    pub content: Content<'a>,
    /// What its end says, if it ends with a sum.
    pub sum: Option<LineSum>,
}

/// Reads a line, without its line end, and judges it by itself.
///
/// # Errors
///
/// `NotALine` if it is none, `OutOfMemory` if memory is refused.
#[tactic(auto, using(crate::proofs::Entries::serial_of_line))]
pub fn judge_line<'a>(
    alloc: Global,
    config: &'a Config,
    octets: &'a [u8],
    room: &'a mut Room,
) -> Result<JudgedLine<'a>, LineFault>
    ensures { MatchResult result (λ line. IsJudgedFrom octets.now line) (λ fault. Denies fault ((line : SummedLine) × IsLine octets.now line)) }
{
    let read = read_line(alloc, octets, room)?;
    let sum = LineSum::of(octets);
    let content = match read.line {
        Line::Begin(begin) => Content::Begin(begin),
        Line::Entry(entry) => match judge_entry(alloc, config, entry) {
            Ok(judged) => Content::Entry(judged),
            Err(_) => return Err(LineFault::OutOfMemory),
        },
        Line::Left(left) => Content::Left(left),
        Line::Unsent(count) | Line::Again(count) => Content::Count(count),
        Line::AgainEarlier(count) => Content::AgainEarlier(count),
        Line::Resumed(resumed) => Content::Resumed(resumed),
        Line::End(end) => Content::End(end),
        Line::Hidden(hidden) => Content::Hidden(hidden),
    };
    Ok(JudgedLine { content, sum })
}

/// Judges an entry by itself, under the secrets of the configuration.
///
/// # Errors
///
/// `AllocError` if memory is refused.
pub fn judge_entry<'a>(
    alloc: Global,
    config: &'a Config,
    entry: Entry<'a>,
) -> Result<JudgedEntry<'a>, AllocError>
    requires { entry.serial < 2 ^ 63 }
    ensures entry { IfOk result (λ its. its.entry ≡ entry.entry) }
    ensures judged { IfOk result IsJudged }
    ensures home { IfOk result (λ its. option_copied its.home ≡ option_map (λ h. h.secret) (find (λ h. bytes_eq h.name entry.entry.about.home.now) config.now.homes)) }
    ensures client { IfOk result (λ its. option_copied its.client ≡ option_map (λ c. c.secret) (client_of config.now entry.entry.about.client)) }
{
    let home = secret_of_home(config, entry.about.home);
    let client = secret_of_client(config, entry.about.client);
    let alone = judge_alone(alloc, &entry, home, client)?;
    Ok(JudgedEntry {
        entry,
        home,
        client,
        alone,
    })
}

/// Returns what an entry is by itself, under these secrets: the first thing that is wrong with its packets, and then whether its
/// words are theirs.
fn judge_alone(
    alloc: Global,
    entry: &Entry<'_>,
    home: Option<&Secret>,
    client: Option<&Secret>,
) -> Result<Alone, AllocError>
    ensures { IfOk result (λ alone. IsAlone entry.now (option_copied home.entry) (option_copied client.entry) alone) }
{
    match wrong_packets(alloc, entry, home, client)? {
        Some(reason) => Ok(Alone::Wrong(reason)),
        None if are_words_of(entry.sent, LineWords::of(&entry.about)) => Ok(Alone::Right),
        None => Ok(Alone::OtherWords),
    }
}

/// Returns the first thing that is wrong with the packets of an entry, if anything is: it is judged as one of no lane.
#[tactic(auto, using(crate::proofs::Alone::wrong_alone))]
fn wrong_packets(
    alloc: Global,
    entry: &Entry<'_>,
    home: Option<&Secret>,
    client: Option<&Secret>,
) -> Result<Option<Reason>, AllocError>
    ensures { IfOk result (λ wrong. MatchOption wrong (ArePacketsRight entry.now (option_copied home.entry) (option_copied client.entry)) (λ reason. IsWrongPacket entry.now (option_copied home.entry) (option_copied client.entry) reason)) }
{
    match judge(alloc, entry, home, client, None, false)? {
        Some(reason) if reason != Reason::UnknownLane => Ok(Some(reason)),
        Some(_) => Ok(None),
        None => Ok(None),
    }
}

fn secret_of_home<'a>(config: &'a Config, name: &str) -> Option<&'a Secret>
    ensures { option_copied result ≡ option_map (λ h. h.secret) (find (λ h. bytes_eq h.name name.now) config.now.homes) }
{
    let mut homes = config.homes().iter();
    let home = homes.find(|home: &&Home| home.name() == name)?;
    Some(home.secret())
}

/// Returns the secret of a client, if the configuration has it.
pub fn secret_of_client(config: &Config, address: [u8; 4]) -> Option<&Secret>
    ensures { option_copied result ≡ option_map (λ c. c.secret) (client_of config.now address) }
{
    Some(config.client_of(address)?.secret())
}
