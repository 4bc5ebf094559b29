//! The request that a line is about.

/// The request that a line is about, with the run that accepted it, and when the line was made. It borrows from the line that
/// it was read from, or from what is to be written.
#[derive(Clone, Copy)]
pub struct LineRequest<'a> {
    /// The name of the run.
    pub run: u64,
    /// When the line was made: RFC 3339, in UTC, with milliseconds.
    pub time: &'a str,
    /// The home server's name in the configuration.
    pub home: &'a str,
    /// The number of its lane.
    pub lane: u16,
    /// The number of the request in its lane. In a line its key is `record`.
    pub number: u64,
    /// The client's IPv4 address.
    pub client: [u8; 4],
    /// The UDP port that the request came from.
    pub port: u16,
    /// The request's Identifier.
    pub identifier: u8,
    /// The request's Authenticator, as it came.
    pub authenticator: [u8; 16],
    /// The realm, if the request had one.
    pub realm: Option<&'a [u8]>,
    /// The Value of its Acct-Session-Id, if it had one.
    pub session: Option<&'a [u8]>,
    /// The number in its Acct-Status-Type, if it had one.
    pub status: Option<u32>,
    /// The Value of its User-Name, if it had one.
    pub user: Option<&'a [u8]>,
}
