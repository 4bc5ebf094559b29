//! Changing all entries of the slots at once.

ghost use Rattle.std.specs.Prelude.{◌≡◌};

/// A change of each entry of the slots, as when a home server is marked up.
pub trait Change<T> {
    /// An entry after the change.
    ghost changed: { Self → T → T };

    /// Changes an entry.
    fn change(&self, entry: &mut T)
        ensures { entry.new ≡ changed self.now entry.old };
}
