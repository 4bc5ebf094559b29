//! HMAC with MD5 (RFC 2104).

ghost use Rattle.std.specs.Prelude.{◌≡◌, ◌≤◌, ◌++◌, length};
ghost use Rattle.rad_auth.specs.Hmac.{each_xor, hmac_md5, key_block, short_key};

use crate::octets::put;
use md5::{Digest, Md5};

/// The block length of MD5 in octets.
const BLOCK_LENGTH: usize = 64;

/// Returns the HMAC-MD5 of a text under a key of any length (RFC 2104 section 2). Hashes the text once.
pub fn hmac_md5(key: &[u8], text: &[u8]) -> [u8; 16]
    ensures { result ≡ hmac_md5 key.now text.now }
{
    hmac_md5_of_parts(key, text, &[], &[])
}

/// Returns the HMAC-MD5 of the concatenation of three parts.
pub(crate) fn hmac_md5_of_parts(key: &[u8], first: &[u8], second: &[u8], third: &[u8]) -> [u8; 16]
    ensures { result ≡ hmac_md5 key.now (first.now ++ second.now ++ third.now) }
{
    let block = filled_key(key);
    let mut inner = Md5::new();
    inner.update(&padded(block, 0x36));
    inner.update(first);
    inner.update(second);
    inner.update(third);
    let mut outer = Md5::new();
    outer.update(&padded(block, 0x5c));
    outer.update(&inner.finalize());
    outer.finalize()
}

/// Returns the key, or its digest if it is longer than a block, padded with zeros to one block.
fn filled_key(key: &[u8]) -> [u8; BLOCK_LENGTH]
    ensures { result ≡ key_block key.now }
{
    let mut block = [0; BLOCK_LENGTH];
    if key.len() > BLOCK_LENGTH {
        put(&mut block, &Md5::digest(key));
    } else {
        put(&mut block, key);
    }
    block
}

/// Combines each octet of a block with `pad` by exclusive or.
fn padded(mut block: [u8; BLOCK_LENGTH], pad: u8) -> [u8; BLOCK_LENGTH]
    ensures { result ≡ each_xor pad block }
{
    for octet in block.iter_mut() {
        *octet ^= pad;
    }
    block
}
