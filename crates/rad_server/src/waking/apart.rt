//! What one worker writes, apart from what others write.

/// How many words a line of a processor's cache has.
pub(crate) const LINE: usize = 8;

/// A value that one worker writes, with room around it, so that nothing that another worker writes is in its line of the
/// cache.
#[derive(Drop)]
pub(crate) struct Apart<T> {
    before: [u64; LINE],
    pub(crate) value: T,
    behind: [u64; LINE],
}

impl<T> Apart<T> {
    pub(crate) fn new(value: T) -> Apart<T> {
        Apart {
            before: [0; LINE],
            value,
            behind: [0; LINE],
        }
    }
}
