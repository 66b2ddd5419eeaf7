//! What no clause says of versions: how their rows are spelled, and which rows of a file are net.
use crate::{LimitFault, read_limits};
use std::test::*;

type Want = Option<LimitFault>;

const VERSIONS: [(&str, &[u8], Want); 8] = [
    (
        "an account that is net",
        b"version,2,,,,,\nfirm,,5000,,,,\naccount,ACC,100000,,,,net\nsymbol,XYZ,100000,1,12,100000,\n",
        None,
    ),
    (
        "six columns",
        b"version,2,,,,,\nfirm,,1,,,\n",
        Some(LimitFault::RowShape(2)),
    ),
    (
        "seven columns in version 1",
        b"firm,,1,,,\naccount,A,1,,,,net\n",
        Some(LimitFault::RowShape(2)),
    ),
    (
        "no such version",
        b"version,3,,,,,\n",
        Some(LimitFault::RowShape(1)),
    ),
    (
        "a row of the version in six columns",
        b"version,2,,,,\n",
        Some(LimitFault::Kind(1)),
    ),
    (
        "a number that isn't spelled so",
        b"version,02,,,,,\n",
        Some(LimitFault::RowShape(1)),
    ),
    (
        "the version again",
        b"version,2,,,,,\nversion,2,,,,,\n",
        Some(LimitFault::Kind(2)),
    ),
    (
        "the version alone",
        b"version,2,,,,,\n",
        Some(LimitFault::NoFirm),
    ),
];

const MODES: [(&str, &[u8], Want); 7] = [
    (
        "another mode",
        b"version,2,,,,,\nfirm,,5000,,,,\naccount,ACC,100000,,,,net\n\
        symbol,XYZ,100000,1,12,100000,\naccount,A2,1,,,,both\n",
        Some(LimitFault::Kind(5)),
    ),
    (
        "a capital letter",
        b"version,2,,,,,\naccount,A,1,,,,Net\n",
        Some(LimitFault::Kind(2)),
    ),
    (
        "a mode of the firm",
        b"version,2,,,,,\nfirm,,1,,,,net\n",
        Some(LimitFault::RowShape(2)),
    ),
    (
        "a wrong mode of a symbol",
        b"version,2,,,,,\nsymbol,A,1,1,1,1,both\n",
        Some(LimitFault::RowShape(2)),
    ),
    (
        "the mode before a filled column",
        b"version,2,,,,,\naccount,A,1,1,,,both\n",
        Some(LimitFault::Kind(2)),
    ),
    (
        "a filled column before the number",
        b"version,2,,,,,\naccount,A,x,1,,,net\n",
        Some(LimitFault::RowShape(2)),
    ),
    (
        "rows are counted with that of the version",
        b"version,2,,,,,\nfirm,,1,,,,\nfirm,,1,,,,\n",
        Some(LimitFault::Repeated(3)),
    ),
];

#[test]
fn versions_are_told_by_the_first_row(rt: HostRuntime) -> Result<(), Fail> {
    for (name, text, want) in VERSIONS {
        assert_eq!(rt; read_limits(rt.alloc(), text).err(), want, "{name}");
    }
    Ok(())
}

#[test]
fn modes_are_those_of_accounts(rt: HostRuntime) -> Result<(), Fail> {
    for (name, text, want) in MODES {
        assert_eq!(rt; read_limits(rt.alloc(), text).err(), want, "{name}");
    }
    Ok(())
}

#[test]
fn an_account_is_net_by_its_mode(rt: HostRuntime) -> Result<(), Fail> {
    let text = b"version,2,,,,,\nfirm,,1,,,,\naccount,A,1,,,,net\naccount,B,1,,,,gross\n\
        account,C,1,,,,\n";
    let Ok(limits) = read_limits(rt.alloc(), text) else {
        panic!(rt; "no limits");
    };
    let [a, b, c] = limits.accounts() else {
        panic!(rt; "other rows");
    };
    assert_eq!(rt; (a.net, b.net, c.net), (true, false, false));
    Ok(())
}
