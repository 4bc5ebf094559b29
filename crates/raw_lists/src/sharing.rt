ghost use Rattle.std.specs.Prelude.{◌≡◌, IfOk};

use std::alloc::AllocError;

/// An item of which a second, equal one can be made cheaply.
pub trait Share {
    /// Returns an equal item. It takes no memory that grows with the item.
    ///
    /// # Errors
    ///
    /// If there are already as many of it as there can be.
    fn share(&self) -> Result<Self, AllocError>
        ensures { IfOk result (λ other. other ≡ self.now) };
}

impl<T: Copy> Share for Option<T> {
    fn share(&self) -> Result<Option<T>, AllocError> {
        Ok(*self)
    }
}
