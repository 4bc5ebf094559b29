//! An entry of a ledger.

use crate::line_request::LineRequest;

/// One response, with the packets that show how it came about.
#[derive(Clone, Copy)]
pub struct Entry<'a> {
    pub about: LineRequest<'a>,
    /// How many responses the lane had before it.
    pub serial: u64,
    /// The packet that went to the home server.
    pub sent: &'a [u8],
    /// The home server's reply to it.
    pub reply: &'a [u8],
    /// The packet that went to the client.
    pub response: &'a [u8],
    /// When the request was accepted, if that is known: RFC 3339, in UTC, with milliseconds.
    pub accepted: Option<&'a str>,
    /// How often it was sent to the home server, if that is known.
    pub sendings: Option<u32>,
}
