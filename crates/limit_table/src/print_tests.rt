//! What no clause says: whole texts that are printed, byte by byte, and that the calls that print
//! run.
use crate::{Limits, print_limits, read_limits};
use std::test::*;

/// A text that is read, and what is printed for its limits.
type Printed = (&'static str, &'static [u8], &'static [u8]);

const PRINTED: [Printed; 13] = [
    (
        "the firm alone",
        b"firm,,0007,,,",
        b"firm,,7,,,\nquota,,50000,,,\nrepeat,,0,,,\n",
    ),
    (
        "a limit of 0",
        b"firm,,0,,,\naccount,ACC,100000,,,\nsymbol,XYZ,100000,1,12,100000\n",
        b"firm,,0,,,\naccount,ACC,100000,,,\nsymbol,XYZ,100000,1.0000,12.0000,100000\n\
        quota,,50000,,,\nrepeat,,0,,,\n",
    ),
    (
        "a limit of 1,000",
        b"firm,,1000,,,\naccount,ACC,100000,,,\nsymbol,XYZ,100000,1,12,100000\n",
        b"firm,,1000,,,\naccount,ACC,100000,,,\nsymbol,XYZ,100000,1.0000,12.0000,100000\n\
        quota,,50000,,,\nrepeat,,0,,,\n",
    ),
    (
        "a limit of 5,000",
        b"firm,,5000,,,\naccount,ACC,100000,,,\nsymbol,XYZ,100000,1,12,100000\n",
        b"firm,,5000,,,\naccount,ACC,100000,,,\nsymbol,XYZ,100000,1.0000,12.0000,100000\n\
        quota,,50000,,,\nrepeat,,0,,,\n",
    ),
    (
        "a limit of 100,000",
        b"firm,,100000,,,\naccount,ACC,100000,,,\nsymbol,XYZ,100000,1,12,100000\n",
        b"firm,,100000,,,\naccount,ACC,100000,,,\nsymbol,XYZ,100000,1.0000,12.0000,100000\n\
        quota,,50000,,,\nrepeat,,0,,,\n",
    ),
    (
        "the largest limit",
        b"firm,,999999999999,,,\naccount,ACC,100000,,,\nsymbol,XYZ,100000,1,12,100000\n",
        b"firm,,999999999999,,,\naccount,ACC,100000,,,\nsymbol,XYZ,100000,1.0000,12.0000,100000\n\
        quota,,50000,,,\nrepeat,,0,,,\n",
    ),
    (
        "rows of each kind, in any order",
        b"off,size,7,,,\nrepeat,,3,,,\nquota,,9,,,\ntrip,,2,,,\nsymbol,Y,5,.5,1.25,6\n\
        symbol,X,4,2,2,1\naccount,B,3,,,\naccount,A,2,,,\nfirm,,1,,,\noff,collar,0,,,\n",
        b"firm,,1,,,\naccount,B,3,,,\naccount,A,2,,,\nsymbol,Y,5,0.5000,1.2500,6\n\
        symbol,X,4,2.0000,2.0000,1\ntrip,,2,,,\nquota,,9,,,\nrepeat,,3,,,\noff,size,7,,,\n\
        off,collar,0,,,\n",
    ),
    (
        "the least and the largest price",
        b"firm,,1,,,\nsymbol,X,0,.0001,999999.9999,1000000000\n",
        b"firm,,1,,,\nsymbol,X,0,0.0001,999999.9999,1000000000\nquota,,50000,,,\nrepeat,,0,,,\n",
    ),
    (
        "a comma and a quote in names",
        b"firm,,1,,,\naccount,\"A,B\",1,,,\nsymbol,\"\"\"\",1,1,1,1\noff,\"say \"\"no\"\"\",1,,,\n",
        b"firm,,1,,,\naccount,\"A,B\",1,,,\nsymbol,\"\"\"\",1,1.0000,1.0000,1\nquota,,50000,,,\n\
        repeat,,0,,,\noff,\"say \"\"no\"\"\",1,,,\n",
    ),
    (
        "blanks in names",
        b"firm,,1,,,\naccount, ,1,,,\naccount, A B ,1,,,\n",
        b"firm,,1,,,\naccount, ,1,,,\naccount, A B ,1,,,\nquota,,50000,,,\nrepeat,,0,,,\n",
    ),
    (
        "an account that is net",
        b"version,2,,,,,\nfirm,,5000,,,,\naccount,ACC,100000,,,,net\naccount,B,1,,,,gross\n\
        symbol,XYZ,100000,1,12,100000,\n",
        b"version,2,,,,,\nfirm,,5000,,,,\naccount,ACC,100000,,,,net\naccount,B,1,,,,\n\
        symbol,XYZ,100000,1.0000,12.0000,100000,\nquota,,50000,,,,\nrepeat,,0,,,,\n",
    ),
    (
        "version 2 with no account that is net",
        b"version,2,,,,,\nfirm,,1,,,,\naccount,A,2,,,,gross\n",
        b"firm,,1,,,\naccount,A,2,,,\nquota,,50000,,,\nrepeat,,0,,,\n",
    ),
    (
        "a number sign, and the name of a kind",
        b"firm,,1,,,\naccount,#,1,,,\naccount,firm,1,,,\n",
        b"firm,,1,,,\naccount,#,1,,,\naccount,firm,1,,,\nquota,,50000,,,\nrepeat,,0,,,\n",
    ),
];

/// Whether both are the same limits.
fn are_same(a: &Limits, b: &Limits) -> bool {
    let rows = a.accounts.rows() == b.accounts.rows()
        && a.symbols.rows() == b.symbols.rows()
        && a.off.rows() == b.off.rows();
    rows && a.firm == b.firm && a.trip == b.trip && a.quota == b.quota && a.repeat == b.repeat
}

#[test]
fn limits_are_printed_and_read_again(rt: HostRuntime) -> Result<(), Fail> {
    for (name, text, want) in PRINTED {
        let Ok(limits) = read_limits(rt.alloc(), text) else {
            panic!(rt; "{name}: no limits");
        };
        let Ok(printed) = print_limits(rt.alloc(), &limits) else {
            panic!(rt; "{name}: nothing is printed");
        };
        assert_eq!(rt; printed.as_slice(), want, "{name}");
        let Ok(again) = read_limits(rt.alloc(), printed.as_slice()) else {
            panic!(rt; "{name}: what is printed isn't read");
        };
        assert!(rt; are_same(&limits, &again), "{name}");
    }
    Ok(())
}
