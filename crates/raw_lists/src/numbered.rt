ghost use Rattle.std.specs.Prelude.{◌≡◌, ℕ};

/// An item that has a number.
pub trait Numbered {
    /// The number of an item.
    ghost number_of: { Self → ℕ };

    /// Returns its number. It looks at nothing but the item itself.
    fn number(&self) -> u64
        ensures { result ≡ number_of self.now };
}
