//! The end of a proxy: what is left is told where closing it is tried again after memory was refused.

use crate::comparing::holds;
use crate::configured::configured;
use crate::desk::setting::TEXT;
use crate::desk::threads::{Share, goes_through};
use std::test::Fail;

/// One request is answered. Nobody takes the response.
const LEFT: Share = Share {
    requests: 1,
    taken: 0,
};

/// This test is run with each allocation refused in turn. A proxy that was not closed has what it had, and is closed when
/// that is tried again.
#[test]
fn what_is_left_is_told_again_after_a_refused_growth(rt: HostRuntime) -> Result<(), Fail> {
    let config = configured(rt.alloc(), TEXT)?;
    let is_right = goes_through(&rt, rt.alloc(), &config, LEFT);
    drop(config);
    holds(&rt, is_right?);
    Ok(())
}
