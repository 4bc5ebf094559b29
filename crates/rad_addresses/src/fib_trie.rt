//! The addresses of this machine, as Linux lists them.

ghost use Rattle.std.specs.Prelude.{◌≡◌, ◌++◌, IfOk, option_copied};
ghost use Rattle.rad_addresses.specs.FibTrie.{named_in, is_local, local_by, local_addresses};

use rad_config::split_around;
use rad_realms::read_address;
use std::alloc::{AllocError, Global};

/// Returns the single addresses of this machine that a text of /proc/net/fib_trie lists, in its order. An address may
/// occur twice.
///
/// # Errors
///
/// `AllocError` if memory is refused.
pub fn list_local(alloc: Global, text: &str) -> Result<Vec<[u8; 4]>, AllocError>
    ensures { IfOk result (λ addresses. addresses.items ≡ local_addresses text.now) }
{
    let mut listed = Vec::new(alloc);
    let mut named = None;
    for line in text.lines() {
        let line = line.trim_start();
        match name_in(line) {
            Some(address) => named = read_address(address),
            None => add_if_local(&mut listed, named, line)?,
        }
    }
    Ok(listed)
}

fn name_in(line: &str) -> Option<&str>
    ensures { option_copied result ≡ named_in line.now }
{
    match split_around(line, ' ') {
        Some((sign, address)) => { if sign == "|--" { Some(address) } else { None } }
        None => None,
    }
}

/// Adds the address that was named last, if a line says that it is local.
///
/// # Errors
///
/// `AllocError` if memory is refused.
fn add_if_local(
    listed: &mut Vec<[u8; 4]>,
    named: Option<[u8; 4]>,
    line: &str,
) -> Result<(), AllocError>
    ensures { IfOk result (λ _. listed.new.items ≡ listed.old.items ++ local_by named (is_local line.now)) }
{
    let told = tells_local(line);
    match named {
        Some(address) if told => Ok(listed.push(address)?),
        _ => Ok(()),
    }
}

#[tactic(auto, unfolding(crate::specs::FibTrie::is_local))]
fn tells_local(line: &str) -> bool
    ensures { result ≡ is_local line.now }
{
    line.as_bytes().starts_with(b"/32 host LOCAL")
}
