//! The CRC-32 of octets, which detects a disk that gives other octets than were written.
//!
//! Six registers take four octets each, in turn. Each is moved on by the 24 octets of all six at once, so none waits for the
//! one before it. At the end they are joined.

ghost use Rattle.std.specs.Prelude.{◌≡◌, ◌≤◌, ◌+◌, ◌++◌, List, ℕ, length};
ghost use Rattle.spool_files.specs.CheckSums.{shifted_by_eight, register_after, crc32};
ghost use Rattle.spool_files.specs.internal.Registers.{after_octets, joined_after, word_in};

use crate::sum_tables::{AFTER_21, AFTER_22, AFTER_23, AFTER_24, AFTER_ONE};

fn after_one(register: u32) -> u32
    ensures { result ≡ shifted_by_eight register }
{
    AFTER_ONE[(register % 256) as usize] ^ (register / 256)
}

fn after_24(register: u32) -> u32
    ensures { result ≡ after_octets 24 register }
{
    AFTER_24[(register % 256) as usize]
        ^ AFTER_23[(register / 256 % 256) as usize]
        ^ AFTER_22[(register / 65_536 % 256) as usize]
        ^ AFTER_21[(register / 16_777_216) as usize]
}

/// Returns four octets as a register takes them.
fn word_at(octets: &[u8], at: usize) -> u32
    requires { at + 4 ≤ length octets.now }
    ensures { result ≡ word_in octets.now at }
{
    u32::from_le_bytes([octets[at], octets[at + 1], octets[at + 2], octets[at + 3]])
}

/// Has six registers take 24 octets. Behind these five of them take others before they can be joined.
fn taken(registers: &[u32; 6], octets: &[u8]) -> [u32; 6]
    requires { length octets.now ≡ 24 }
    ensures { (more : List ℕ) → 20 ≤ length more
        → joined_after 0 result more ≡ joined_after 0 registers.now (octets.now ++ more) }
{
    [
        after_24(registers[0] ^ word_at(octets, 0)),
        after_24(registers[1] ^ word_at(octets, 4)),
        after_24(registers[2] ^ word_at(octets, 8)),
        after_24(registers[3] ^ word_at(octets, 12)),
        after_24(registers[4] ^ word_at(octets, 16)),
        after_24(registers[5] ^ word_at(octets, 20)),
    ]
}

fn register_of(start: u32, octets: &[u8]) -> u32
    ensures { result ≡ register_after start octets.now }
{
    let mut register = start;
    let mut rest = octets;
    while let [octet, after @ ..] = rest {
        register = after_one(register ^ u32::from(*octet));
        rest = after;
    }
    register
}

/// Joins registers, each at its four octets.
fn joined_of(registers: &[u32], octets: &[u8]) -> u32
    ensures { result ≡ joined_after 0 registers.now octets.now }
{
    let mut register = 0;
    let mut others = registers;
    let mut rest = octets;
    while let [next, after @ ..] = others {
        let (word, behind) = rest.split_at(rest.len().min(4));
        register = register_of(register ^ *next, word);
        others = after;
        rest = behind;
    }
    register_of(register, rest)
}

/// Returns the CRC-32 of octets (ISO 3309).
#[tactic(auto, unfolding(crate::specs::CheckSums::crc32))]
pub fn crc32_of(octets: &[u8]) -> u32
    ensures { result ≡ crc32 octets.now }
{
    let mut registers = [0xffff_ffff, 0, 0, 0, 0, 0];
    let mut rest = octets;
    while rest.len() >= 44 {
        let (block, after) = rest.split_at(24);
        registers = taken(&registers, block);
        rest = after;
    }
    joined_of(&registers, rest) ^ 0xffff_ffff
}
