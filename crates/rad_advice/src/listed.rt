//! The first of what is told of a configuration.

ghost use Rattle.std.specs.Prelude.{◌≡◌, ◌-◌, IfOk, Ok, length, take};
ghost use Rattle.std.specs.List.{AllZip};

use std::alloc::{AllocError, Global};

/// The first of what is told, and the number of the others.
#[derive(Drop)]
pub struct Listed<T> {
    first: Vec<T>,
    more: usize,
}

impl<T> Listed<T> {
    /// Returns the first ones.
    pub fn first(&self) -> &[T]
        ensures { result.now ≡ self.now.first.items }
    {
        self.first.as_slice()
    }

    /// Returns the number of those that are not listed.
    pub fn more(&self) -> usize
        ensures { result ≡ self.now.more }
    {
        self.more
    }
}

/// Lists what is told of each of these items, for `most` of them.
pub(crate) fn list_first<X: Copy, T: Drop, F: Fn(X) -> Result<T, AllocError>>(
    alloc: Global,
    items: &[X],
    most: usize,
    tell: F,
) -> Result<Listed<T>, AllocError>
    requires { F.IsAlwaysCallable tell }
    ensures first { IfOk result (λ listed. AllZip (λ item told. F.post tell item (Ok told)) (take most items.now) listed.first.items) }
    ensures more { IfOk result (λ listed. listed.more ≡ length items.now - most) }
{
    let count = items.len().min(most);
    let mut first = Vec::new(alloc);
    for item in &items[..count] {
        let told = tell(*item)?;
        first.push(told)?;
    }
    let more = items.len() - count;
    Ok(Listed { first, more })
}
