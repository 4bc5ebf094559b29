//! The properties of an entry by which the slots find the one that is due first.

ghost use Rattle.std.specs.Prelude.{◌≡◌, ℕ, Bool};

/// An entry that was sent, and is due to be sent again at some moment.
pub trait Timed {
    /// When it is due, in milliseconds.
    ghost due_of: { Self → ℕ };

    /// Its number, which orders the entries that are due at the same time.
    ghost number_of: { Self → ℕ };

    /// Whether it is spent: no sending of its round is left.
    ghost spent_of: { Self → Bool };

    /// Returns when it is due, in milliseconds.
    fn due(&self) -> u64
        ensures { result ≡ due_of self.now };

    /// Returns its number, which orders the entries that are due at the same time.
    fn number(&self) -> u64
        ensures { result ≡ number_of self.now };

    /// Returns whether it is spent: no sending of its round is left.
    fn spent(&self) -> bool
        ensures { result ≡ spent_of self.now };
}
