//! A request that was left when a run ended.

use crate::line_request::LineRequest;
use rad_lane::LeftState;

/// A request that was accepted and whose client has no response of it.
#[derive(Clone, Copy)]
pub struct Left<'a> {
    pub about: LineRequest<'a>,
    /// How it was left.
    pub state: LeftState,
    /// How often it was sent to the home server, if that is known.
    pub sendings: Option<u32>,
    /// When it was accepted, if that is known: RFC 3339, in UTC, with milliseconds.
    pub accepted: Option<&'a str>,
    /// The packet as it came from the client.
    pub request: &'a [u8],
    /// Whether it is open in the spool, so that a later run offers it to its lane.
    pub kept: bool,
}
