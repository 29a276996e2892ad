//! Patterns, through their public call: their order is part of what a report says.

use crate::words::digits;
use bb_tern::patterns;
use std::test::Fail;

// The four bits that are drawn from the seed 1 are 0, 0, 1 and 1.
#[test]
fn patterns_come_in_their_order(rt: HostRuntime) -> Result<(), Fail> {
    let mut printed = String::new(rt.alloc());
    for pattern in patterns(rt.alloc(), 2, 2, 1)? {
        printed.push_str(&digits(rt.alloc(), &pattern)?)?;
        printed.push(' ')?;
    }
    assert_eq!(rt; printed.as_str(), "00 11 10 01 01 10 00 11 ");
    Ok(())
}
