//! What no clause says: that the calls are made where memory is at hand, through threads and
//! through none.
use fork_all::map_all;
use std::test::*;

#[test]
fn gives_each_square_in_its_place(rt: HostRuntime) -> Result<(), Fail> {
    for count in [0, 1, 2, 5, 64] {
        let items: Vec<u64> = (0..count).collect(rt.alloc())?;
        let square = |item: u64| item.wrapping_mul(item);
        let Ok(squares) = map_all(&rt, rt.alloc(), items, &square) else {
            panic!(rt; "no memory for {count} items")
        };
        let want: Vec<u64> = (0..count)
            .map(|item| item.wrapping_mul(item))
            .collect(rt.alloc())?;
        assert_eq!(rt; squares, want, "{count} items");
    }
    Ok(())
}
