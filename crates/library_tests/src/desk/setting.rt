//! The configuration of the tests, the endpoint of its client, and the moment.

use rad_realms::Endpoint;
use rad_tables::Moment;

/// A client, and two home servers with a realm each. The ring of the first one has four places.
pub const TEXT: &str = r#"
listen = "127.0.0.1:1813"
[[client]]
address = "10.0.0.1"
secret = "nas-secret"
[[realm]]
name = "example.org"
home = "h1"
[[realm]]
name = "other.org"
home = "h2"
[[home]]
name = "h1"
address = "127.0.0.1:2813"
secret = "home-secret"
ring = 4
[[home]]
name = "h2"
address = "127.0.0.2:2814"
secret = "other-secret"
"#;

/// The client's endpoint.
pub const CLIENT: Endpoint = Endpoint {
    address: [10, 0, 0, 1],
    port: 40_000,
};

/// The moment at which all is done.
pub fn start() -> Moment {
    Moment::new(0).unwrap()
}
