//! The entries that are in no batch that is on disk.

ghost use Rattle.std.specs.Prelude.{◌≡◌, ◌≤◌, ◌++◌, length, take, IfOk, OnOk};
ghost use Rattle.spool_files.specs.Entries.{entry_octets, octets_of};
ghost use Rattle.spool_writer.specs.Waiting.{entries_of};

use crate::parcel::Parcel;
use spool_files::put_entry;
use std::alloc::AllocError;

/// An entry that is in no batch that is on disk.
#[derive(Drop)]
pub(crate) struct Waiting {
    pub(crate) parcel: Parcel,
    /// The number of the segment in which the request stands that it closes; 0 if that is on no disk.
    pub(crate) closes: u64,
}

/// Puts the first of these entries behind the octets, until there are so many, and returns how many were put.
///
/// # Errors
///
/// If memory is refused. The octets are of no use then.
pub(crate) fn put_entries(
    octets: &mut Vec<u8>,
    waiting: &[Waiting],
    enough: usize,
) -> Result<usize, AllocError>
    ensures count { IfOk result (λ count. count ≤ length waiting.now) }
    ensures octets { IfOk result (λ count. octets.new.items ≡ octets.old.items ++ octets_of (entries_of (take count waiting.now))) }
{
    for place in 0..waiting.len() {
        if octets.len() >= enough {
            return Ok(place);
        }
        put_waiting(octets, &waiting[place])?;
    }
    Ok(waiting.len())
}

fn put_waiting(octets: &mut Vec<u8>, waiting: &Waiting) -> Result<(), AllocError>
    ensures { OnOk result (octets.new.items ≡ octets.old.items ++ entry_octets (waiting.now.parcel.head, waiting.now.parcel.octets)) }
{
    put_entry(
        octets,
        &waiting.parcel.head,
        waiting.parcel.octets.as_slice(),
    )
}
