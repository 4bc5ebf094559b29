use rad_auth::Reply;

/// A response on its way to the client that sent the request.
#[derive(Drop)]
pub struct Outgoing {
    /// The number of answers that the lane gave before it.
    pub serial: u64,
    /// The client's IPv4 address.
    pub client: [u8; 4],
    /// The UDP port that the request came from.
    pub port: u16,
    /// The response, with the reply and the sending from which it was made.
    pub reply: Reply,
}
