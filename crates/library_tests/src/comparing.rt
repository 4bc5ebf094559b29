//! What ends a test that goes wrong. The comparison is proved once here, and not in each test.

use std::process::Abort;

/// Checks a condition.
pub fn holds(rt: &impl Abort, is_right: bool) {
    assert!(rt; is_right);
}

/// Checks a condition at a place of a table, or at a turn of a loop.
pub fn holds_at(rt: &impl Abort, place: usize, is_right: bool) {
    assert!(rt; is_right, "at {place}");
}

/// Checks a condition of a text, which is printed if it fails.
pub fn holds_of(rt: &impl Abort, text: &str, is_right: bool) {
    assert!(rt; is_right, "{text}");
}
