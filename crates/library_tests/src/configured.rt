//! The configuration of a test. The call that reads it is proved once here, and not in each test.

use rad_realms::{Config, read_config};
use std::alloc::Global;
use std::test::Fail;

/// A client, a realm and its home server, whose table is the last.
const ONE_HOME: &str = r#"
listen = "127.0.0.1:1813"
[[client]]
address = "10.0.0.1"
secret = "nas-secret"
[[realm]]
name = "example.org"
home = "h1"
[[home]]
name = "h1"
address = "127.0.0.1:2813"
secret = "home-secret"
"#;

/// A client, and two home servers with a realm each.
const TWO_HOMES: &str = r#"
listen = "127.0.0.1:1813"
[[client]]
address = "10.0.0.1"
secret = "nas-secret"
[[home]]
name = "h1"
address = "127.0.0.1:2813"
secret = "home-secret"
[[home]]
name = "h2"
address = "127.0.0.1:2814"
secret = "home2-secret"
[[realm]]
name = "example.org"
home = "h1"
[[realm]]
name = "example.net"
home = "h2"
"#;

/// Reads a configuration.
pub fn configured(alloc: Global, text: &str) -> Result<Config, Fail> {
    Ok(read_config(alloc, text)?)
}

/// Reads the configuration of one client and one home server, which has these keys.
pub fn with_one_home(alloc: Global, keys: &str) -> Result<Config, Fail> {
    let text = format!(in alloc; "{ONE_HOME}{keys}")?;
    configured(alloc, &text)
}

/// Reads the configuration of one client and two home servers, `h1` and `h2`.
pub fn with_two_homes(alloc: Global) -> Result<Config, Fail> {
    configured(alloc, TWO_HOMES)
}
