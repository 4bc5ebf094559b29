use block_queue::SlidingList;
use std::marker::Model;

/// Items in order, in the list in which a lane held them.
#[derive(Drop)]
pub struct Held<T> {
    items: SlidingList<T>,
}

impl<T> Model for Held<T> {
    ghost use Rattle.std.specs.Prelude.{List};

    ghost Value = { List T };

    ghost view = { λ h. h.items.items };
}

impl<T> Held<T> {
    ghost use Rattle.std.specs.Prelude.{◌≡◌};

    /// Wraps a list. It takes no memory.
    pub(crate) fn over(items: SlidingList<T>) -> Held<T>
        ensures { result ≡ items.items }
    {
        Held { items }
    }

    /// Returns the items.
    pub fn as_slice(&self) -> &[T]
        ensures { result.now ≡ self.now }
    {
        self.items.as_slice()
    }
}
