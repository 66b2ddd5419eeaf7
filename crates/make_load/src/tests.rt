//! What no clause says: whole files, byte for byte, as the rule of loads gives them by hand, and that a
//! load is made where memory is ample.

use crate::{Asked, Counts, make_load, summary_text};
use std::test::*;

const LEFT: &[u8] =
    b"8=FIX.4.4\x019=111\x0135=D\x0149=C00\x0156=GATE\x0134=1\x0152=20240102-10:00:00\x01\
11=o00-0\x011=A3\x0155=S0\x0154=2\x0138=37\x0140=2\x0144=6.00\x01\
60=20240102-10:00:00\x0110=234\x01\n\
8=FIX.4.4\x019=113\x0135=8\x0149=VENUE\x0156=GATE\x0134=1\x0152=20240102-10:00:00\x01\
37=O0\x0111=o00-0\x0117=E1\x01150=0\x0139=0\x0155=S0\x0154=2\x0138=37\x01151=37\x01\
14=0\x016=0\x0110=133\x01\n";

const CANCELED: &[u8] =
    b"8=FIX.4.4\x019=111\x0135=D\x0149=C00\x0156=GATE\x0134=1\x0152=20240102-10:00:00\x01\
11=o00-0\x011=A1\x0155=S0\x0154=2\x0138=48\x0140=2\x0144=4.00\x01\
60=20240102-10:00:00\x0110=232\x01\n\
8=FIX.4.4\x019=113\x0135=8\x0149=VENUE\x0156=GATE\x0134=1\x0152=20240102-10:00:00\x01\
37=O0\x0111=o00-0\x0117=E1\x01150=0\x0139=0\x0155=S0\x0154=2\x0138=48\x01151=48\x01\
14=0\x016=0\x0110=137\x01\n\
8=FIX.4.4\x019=102\x0135=F\x0149=C00\x0156=GATE\x0134=2\x0152=20240102-10:00:00\x01\
11=c00-0\x0141=o00-0\x0155=S0\x0154=2\x0138=48\x0160=20240102-10:00:00\x0110=145\x01\n\
8=FIX.4.4\x019=121\x0135=8\x0149=VENUE\x0156=GATE\x0134=2\x0152=20240102-10:00:00\x01\
37=O0\x0111=c00-0\x0141=o00-0\x0117=E2\x01150=4\x0139=4\x0155=S0\x0154=2\x0138=48\x01\
151=0\x0114=0\x016=0\x0110=025\x01\n";

const FILLED: &[u8] =
    b"8=FIX.4.4\x019=112\x0135=D\x0149=C00\x0156=GATE\x0134=1\x0152=20240102-10:00:00\x01\
11=o00-0\x011=A1\x0155=S1\x0154=1\x0138=26\x0140=2\x0144=53.00\x01\
60=20240102-10:00:00\x0110=025\x01\n\
8=FIX.4.4\x019=113\x0135=8\x0149=VENUE\x0156=GATE\x0134=1\x0152=20240102-10:00:00\x01\
37=O0\x0111=o00-0\x0117=E1\x01150=0\x0139=0\x0155=S1\x0154=1\x0138=26\x01151=26\x01\
14=0\x016=0\x0110=129\x01\n\
8=FIX.4.4\x019=132\x0135=8\x0149=VENUE\x0156=GATE\x0134=2\x0152=20240102-10:00:00\x01\
37=O0\x0111=o00-0\x0117=E2\x01150=F\x0139=2\x0155=S1\x0154=1\x0138=26\x0132=26\x01\
31=53.00\x01151=0\x0114=26\x016=53.00\x0110=005\x01\n";

const LAST: &[u8] =
    b"8=FIX.4.4\x019=114\x0135=D\x0149=C10\x0156=GATE\x0134=15\x0152=20240102-10:00:00\x01\
11=o10-11\x011=A1\x0155=S0\x0154=2\x0138=45\x0140=2\x0144=16.00\x01\
60=20240102-10:00:00\x0110=132\x01\n\
8=FIX.4.4\x019=117\x0135=8\x0149=VENUE\x0156=GATE\x0134=17\x0152=20240102-10:00:00\x01\
37=O11\x0111=o10-11\x0117=E17\x01150=0\x0139=0\x0155=S0\x0154=2\x0138=45\x01151=45\x01\
14=0\x016=0\x0110=090\x01\n";

#[test]
fn a_first_order_has_one_of_three_fates(rt: HostRuntime) -> Result<(), Fail> {
    const FILES: [(&str, u32, &[u8]); 3] = [
        ("an order of which no more is heard", 0, LEFT),
        ("an order that is canceled", 1, CANCELED),
        ("an order that is filled", 4, FILLED),
    ];
    for (name, number, want) in FILES {
        let load = make_load(rt.alloc(), number, 1, 1)?;
        assert_eq!(rt; load.sessions.len(), 1, "{name}");
        assert_eq!(rt; load.sessions[0].as_slice(), want, "{name}");
    }
    Ok(())
}

#[test]
fn a_later_session_ends_with_its_last_order(rt: HostRuntime) -> Result<(), Fail> {
    let load = make_load(rt.alloc(), 0, 11, 12)?;
    assert_eq!(rt; load.sessions.len(), 11);
    assert!(rt; load.sessions[10].as_slice().ends_with(LAST));
    Ok(())
}

#[test]
fn messages_are_counted_over_all_sessions(rt: HostRuntime) -> Result<(), Fail> {
    const LOADS: [(&str, u32, u32, u32, [u32; 3]); 3] = [
        ("one order", 0, 1, 1, [1, 0, 1]),
        ("a small load", 7, 8, 20, [160, 42, 235]),
        ("a large load", 7, 8, 2000, [16000, 4018, 24049]),
    ];
    for (name, number, sessions, orders, want) in LOADS {
        let load = make_load(rt.alloc(), number, sessions, orders)?;
        assert_eq!(rt; [load.new, load.cancel, load.report], want, "{name}");
    }
    Ok(())
}

#[test]
fn a_load_of_one_order_is_summed_up(rt: HostRuntime) -> Result<(), Fail> {
    let asked = Asked {
        number: 0,
        sessions: 1,
        orders: 1,
    };
    let counts = Counts {
        new: 1,
        cancel: 0,
        report: 1,
        bytes: 272,
        reads: 4,
    };
    let text = summary_text(rt.alloc(), &asked, &counts)?;
    assert!(rt;
        text.starts_with(b"make 0 1 1\nnew 1 cancel 0 report 1 bytes 272\nreads 4\ntree 0 firm")
    );
    assert!(rt;
        text.ends_with(b"tree 12 symbol S7 LEGAL WITHIN LIMITS\ntree 13 halt LEGAL\nstatus 0\n")
    );
    Ok(())
}
