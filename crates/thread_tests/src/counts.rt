//! The counts that a number gives, worked out by hand.

use std::test::Fail;
use vm_making::counts_of;

#[test]
fn counts_of_rows(rt: HostRuntime) -> Result<(), Fail> {
    assert_eq!(rt; counts_of(1, 1).as_slice(), [7_591].as_slice());
    assert_eq!(rt; counts_of(2, 0).as_slice(), [2_346, 2_607].as_slice());
    Ok(())
}
