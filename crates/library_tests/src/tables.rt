//! A test of what no contract says of the tables: that the one call that takes memory, and that no lane makes, succeeds.
//! The rows of `tests/rows` have the other calls made, by lanes.

use super::comparing::holds;
use rad_tables::{Duplicates, Key};
use std::test::Fail;

/// The key of a request.
const KEY: Key = Key {
    client: [10, 0, 0, 1],
    port: 40_000,
    identifier: 7,
    authenticator: [9; 16],
};

#[test]
fn a_number_is_inserted(rt: HostRuntime) -> Result<(), Fail> {
    let mut duplicates = Duplicates::new(rt.alloc());
    duplicates.insert(KEY, 7)?;
    holds(&rt, duplicates.find(&KEY) == Some(7));
    Ok(())
}
