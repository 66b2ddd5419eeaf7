//! With ample memory the input is fetched. No clause says that memory isn't wanting.
use gate_ports::{FetchEnd, MemSource, fetch_up_to};
use std::test::Fail;

/// Bytes by the most of one read, the number of a call that fails, and the most that is asked for.
const FETCHES: [(&str, usize, u64, usize, &[u8], FetchEnd); 5] = [
    ("all in one read", 9, 99, 20, b"8=FIX.4.4", FetchEnd::Whole),
    (
        "all in small reads",
        2,
        99,
        20,
        b"8=FIX.4.4",
        FetchEnd::Whole,
    ),
    (
        "no more than asked for",
        2,
        99,
        5,
        b"8=FIX",
        FetchEnd::Whole,
    ),
    ("the first read fails", 9, 0, 20, b"", FetchEnd::Failed),
    ("a later read fails", 2, 2, 20, b"8=FI", FetchEnd::Failed),
];

#[test]
fn fetches_what_is_there(rt: HostRuntime) -> Result<(), Fail> {
    for (name, most_of_one, failing, most, want, end) in FETCHES {
        let bytes = b"8=FIX.4.4".to_vec(rt.alloc())?;
        let calls = [failing].to_vec(rt.alloc())?;
        let mut source = MemSource::new(bytes, most_of_one, calls);
        let got = fetch_up_to(rt.alloc(), &mut source, most);
        assert_eq!(rt; got.bytes.as_slice(), want, "{name}");
        assert_eq!(rt; got.end, end, "{name}");
    }
    Ok(())
}
