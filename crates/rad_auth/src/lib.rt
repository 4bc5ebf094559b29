//! RADIUS packets under a shared secret: Request and Response Authenticators (RFC 2866 section 3), Status-Server
//! with its Message-Authenticator (RFC 5997 section 3, RFC 2104), forwarding with the proxy's own Proxy-State
//! (RFC 2866 section 2.1, RFC 2865 section 5.33), and the response to a request after a home server's reply.
//!
//! Contracts describe packets, secrets and authenticators as lists of octets. `specs/` has one file for each family
//! of definitions. `specs/Answers.antt` defines when a response answers a request, and each [`Reply`] satisfies it,
//! by the invariant of the type. No call hashes a packet twice. Only [`respond`], the copies and
//! [`Buffer::with_room`] allocate.
#![tactic(auto)]

mod authenticators;
mod buffer;
mod forwarding;
mod hmac;
mod laws;
mod mark;
mod octets;
mod reply;
mod responding;
mod secret;
mod status;

pub use authenticators::{
    check_request, check_response, is_request_of, request_authenticator, response_authenticator,
    sign,
};
pub use buffer::Buffer;
pub use forwarding::forward;
pub use hmac::hmac_md5;
pub use laws::{forwarded_packet, one_response, refused_or_answered};
pub use mark::{MARK_LENGTH, Mark};
pub use octets::Octets;
pub use reply::{Reply, RequestHead};
pub use responding::{ReplyFault, respond};
pub use secret::{GREATEST_SECRET_LENGTH, Secret, SecretFault};
pub use status::{answer_status, check_status, make_status};

/// The Code of an Accounting-Request (RFC 2866 section 4.1).
pub const ACCOUNTING_REQUEST: u8 = 4;

/// The Code of an Accounting-Response (RFC 2866 section 4.2).
pub const ACCOUNTING_RESPONSE: u8 = 5;

/// The Code of a Status-Server (RFC 5997 section 3).
pub const STATUS_SERVER: u8 = 12;

/// The Type of a Proxy-State (RFC 2865 section 5.33).
pub const PROXY_STATE: u8 = 33;

/// The Type of a Message-Authenticator (RFC 3579 section 3.2).
pub const MESSAGE_AUTHENTICATOR: u8 = 80;
