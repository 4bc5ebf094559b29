//! The words of a line, which its packet says too.

ghost use Rattle.std.specs.Prelude.{◌≡◌, ◌↔◌, IsTrue, option_copied};
ghost use Rattle.rad_packet.specs.Packet.{IsPacketText};
ghost use Rattle.rad_audit.specs.Taking.{HasItsWords, words_of as the_words};

use crate::facts::{ACCT_STATUS_TYPE, USER_NAME, number_at, value_at};
use ledger_rules::{LineRequest, whole_packet};
use rad_lane::session_of;
use rad_realms::realm_of_packet;

/// What a line says of a record besides its packets.
#[derive(Clone, Copy)]
pub struct LineWords<'a> {
    /// The realm of the User-Name.
    pub realm: Option<&'a [u8]>,
    /// The Acct-Session-Id.
    pub session: Option<&'a [u8]>,
    /// The User-Name.
    pub user: Option<&'a [u8]>,
    /// The Acct-Status-Type.
    pub status: Option<u32>,
}

impl<'a> LineWords<'a> {
    /// Returns the words of the request that a line is about.
    pub fn of(about: &LineRequest<'a>) -> LineWords<'a>
        ensures { result ≡ the_words about.now }
    {
        LineWords {
            realm: about.realm,
            session: about.session,
            user: about.user,
            status: about.status,
        }
    }
}

/// Whether words are those of a packet.
pub fn are_words_of(packet: &[u8], words: LineWords<'_>) -> bool
    ensures { IsPacketText packet.now → IsTrue result ↔ HasItsWords packet.now words.entry }
{
    let Some(packet) = whole_packet(packet) else {
        return false;
    };
    is_same(words.realm, realm_of_packet(&packet))
        && is_same(words.session, session_of(&packet))
        && is_same(words.user, value_at(&packet, USER_NAME))
        && words.status == number_at(&packet, ACCT_STATUS_TYPE)
}

fn is_same(word: Option<&[u8]>, other: Option<&[u8]>) -> bool
    ensures { IsTrue result ↔ (option_copied word.entry ≡ option_copied other.entry) }
{
    match (word, other) {
        (Some(word), Some(other)) => word == other,
        (None, None) => true,
        _ => false,
    }
}
