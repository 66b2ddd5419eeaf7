//! What no clause says: that the generic fold runs at each of the two folds.
use fold_law::{Max, Sum, whole};
use std::test::*;

#[test]
fn folds_run_over_leaves(rt: HostRuntime) -> Result<(), Fail> {
    const LEAVES: [u64; 3] = [600, 0, 1200];
    assert_eq!(rt; whole::<Sum>(&LEAVES), 1800, "the sum");
    assert_eq!(rt; whole::<Max>(&LEAVES), 1200, "the largest");
    Ok(())
}
