//! Names that are near that of a known key.

ghost use Rattle.std.specs.Prelude.{◌≡◌, IfOk};
ghost use Rattle.rad_advice.specs.Keys.{read_names};
ghost use Rattle.rad_advice.specs.Telling.{is_near as lies_near, is_near_one_of};

use crate::keys::names_of;
use rad_realms::Part;
use std::alloc::{AllocError, Global};
use strsim::generic_levenshtein;

/// The most edits that make of a name one that is near it.
const MOST_EDITS: usize = 2;

pub(crate) fn is_near_key(alloc: Global, part: Part, name: &str) -> Result<bool, AllocError>
    ensures { IfOk result (λ near. near ≡ is_near_one_of (read_names part) name.now) }
{
    for known in names_of(part) {
        if is_near(alloc, known.as_bytes(), name.as_bytes())? {
            return Ok(true);
        }
    }
    Ok(false)
}

/// Whether a name is near a known one. If their lengths differ by more edits, it is not, and costs no more time.
fn is_near(alloc: Global, known: &[u8], name: &[u8]) -> Result<bool, AllocError>
    ensures { IfOk result (λ near. near ≡ lies_near known.now name.now) }
{
    if known.len().abs_diff(name.len()) > MOST_EDITS {
        return Ok(false);
    }
    let edits = generic_levenshtein(alloc, known, name)?;
    Ok(edits <= MOST_EDITS)
}
