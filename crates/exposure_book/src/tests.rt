//! What no clause says: that each call answers with ample memory, and the values of whole sequences
//! of messages, worked by hand, and summed from scratch by a plain book.
ghost use Rattle.std.specs.Prelude.{◌≡◌, ◌<◌, length};

use crate::net_sequences::NET_SEQUENCES;
use crate::plain_book::PlainBook;
use crate::proposing::{new_order, with_replace};
use crate::sequences::{SEQUENCES, Step, Want};
use crate::{Applied, Book, Pending};
use fix_orders::{Cancel, CancelReject, Exec, Head, IdText, NewOrder, OrderKind, Replace, Report};
use limit_table::{Limits, read_limits};
use std::alloc::Global;
use std::process::Abort;
use std::test::*;

/// Two accounts; a symbol up to 12.0000 and one up to 20.0000.
const LIMITS: &[u8] = b"firm,,1000000,,,
account,ACC,1000000,,,
account,OTHER,1000000,,,
symbol,XYZ,1000000,1,12,100000
symbol,ABC,1000000,1,20,100000
";

/// The same, where the first account is net.
const NET_LIMITS: &[u8] = b"version,2,,,,,
firm,,1000000,,,,
account,ACC,1000000,,,,net
account,OTHER,1000000,,,,
symbol,XYZ,1000000,1,12,100000,
symbol,ABC,1000000,1,20,100000,
";

/// The id of this text.
fn id(text: &[u8]) -> Result<IdText, Fail> {
    match IdText::read(text) {
        Ok(id) => Ok(id),
        Err(_) => Err("no id")?,
    }
}

/// A head that no book looks at.
fn head() -> Result<Head<'static>, Fail> {
    Ok(Head {
        sender: id(b"C1")?,
        target: id(b"GATE")?,
        seq: 1,
        time: id(b"20240102-10:00:00")?,
    })
}

/// A market order where the price is 0.
fn kind(price: u64) -> OrderKind {
    if price == 0 {
        OrderKind::Market
    } else {
        OrderKind::Limit
    }
}

/// The upper collar price of this symbol.
fn high_of(symbol: u32) -> u64 {
    if symbol == 0 { 120_000 } else { 200_000 }
}

/// These values, as they are wanted.
fn wanted(firm: u64, account: u64, symbol: u64) -> Want {
    if firm == account && firm == symbol {
        Want::All(firm)
    } else {
        Want::Values(firm, account, symbol)
    }
}

fn reported(applied: Applied) -> Want {
    match applied {
        Applied::Applied(terms) => {
            wanted(terms.firm_value, terms.account_value, terms.symbol_value)
        }
        Applied::Stray => Want::Stray,
        Applied::Over => Want::Over,
    }
}

/// Proposes this order and commits it where it is taken.
fn take_new(
    rt: &impl Abort,
    book: &mut Book,
    plain: &mut PlainBook,
    asked: &NewOrder,
    account: u32,
    symbol: u32,
) -> Result<Want, Fail>
    requires accounts { book.old.value.accounts ≡ 2 }
    requires symbols { book.old.value.symbols ≡ 2 }
    ensures accounts { book.new.value.accounts ≡ 2 }
    ensures symbols { book.new.value.symbols ≡ 2 }
{
    assert!(rt; account < 2 && symbol < 2, "in range");
    book.reserve_one()?;
    let high = high_of(symbol);
    match book.propose_new(asked, account, symbol, high) {
        Ok(values) => {
            book.commit_new(asked, account, symbol, high);
            plain.add(&new_order(asked, account, symbol, high), Pending::Nothing)?;
            Ok(wanted(values.firm, values.account, values.symbol))
        }
        Err(fault) => Ok(Want::Refused(fault)),
    }
}

/// Proposes this cancel and commits it where it is taken.
fn take_cancel(book: &mut Book, plain: &mut PlainBook, request: &Cancel) -> Result<Want, Fail>
    requires accounts { book.old.value.accounts ≡ 2 }
    requires symbols { book.old.value.symbols ≡ 2 }
    ensures accounts { book.new.value.accounts ≡ 2 }
    ensures symbols { book.new.value.symbols ≡ 2 }
{
    book.reserve_one()?;
    match book.propose_cancel(request) {
        Ok(()) => {
            book.commit_cancel(request);
            let pending = Pending::Cancel {
                id: request.id.owned(),
            };
            plain.ask(&request.id.owned(), &request.orig.owned(), pending)?;
            Ok(Want::Taken)
        }
        Err(fault) => Ok(Want::Refused(fault)),
    }
}

/// Proposes this replace and commits it where it is taken.
fn take_replace(
    book: &mut Book,
    plain: &mut PlainBook,
    request: &Replace,
    limits: &Limits,
) -> Result<Want, Fail>
    requires accounts { book.old.value.accounts ≡ 2 }
    requires symbols { book.old.value.symbols ≡ 2 }
    requires account_rows { length limits.now.accounts ≡ 2 }
    requires symbol_rows { length limits.now.symbols ≡ 2 }
    ensures accounts { book.new.value.accounts ≡ 2 }
    ensures symbols { book.new.value.symbols ≡ 2 }
{
    book.reserve_one()?;
    match book.propose_replace(request, limits) {
        Ok(values) => {
            book.commit_replace(request, limits);
            let orig = request.orig.owned();
            let order = plain.order(&orig).ok_or("an order")?;
            if order.account < 2 && order.symbol < 2 {
                let pending = with_replace(request, limits, &order).pending;
                plain.ask(&request.id.owned(), &orig, pending)?;
            }
            Ok(wanted(values.firm, values.account, values.symbol))
        }
        Err(fault) => Ok(Want::Refused(fault)),
    }
}

/// A D with this ClOrdID.
fn order(text: &[u8], side: u8, quantity: u64, price: u64) -> Result<NewOrder, Fail> {
    Ok(NewOrder {
        head: head()?,
        id: id(text)?,
        account: id(b"ACC")?,
        symbol: id(b"XYZ")?,
        side,
        quantity,
        kind: kind(price),
        price,
    })
}

/// A G of these ids, account and symbol.
fn replace<'a>(
    names: [&'a [u8]; 4],
    side: u8,
    quantity: u64,
    price: u64,
) -> Result<Replace<'a>, Fail> {
    let [own, orig, account, symbol] = names;
    Ok(Replace {
        head: head()?,
        id: id(own)?,
        orig: id(orig)?,
        account: IdText::read(account).ok(),
        symbol: id(symbol)?,
        side,
        quantity,
        kind: kind(price),
        price,
    })
}

/// Applies a report, and has the plain book do the same.
fn take_report(
    book: &mut Book,
    plain: &mut PlainBook,
    text: &[u8],
    exec: Exec,
) -> Result<Want, Fail>
    requires accounts { book.old.value.accounts ≡ 2 }
    requires symbols { book.old.value.symbols ≡ 2 }
    ensures accounts { book.new.value.accounts ≡ 2 }
    ensures symbols { book.new.value.symbols ≡ 2 }
{
    let report = Report {
        head: head()?,
        id: IdText::read(text).ok(),
        exec,
    };
    let applied = book.apply(&report);
    if let (Some(own), Applied::Applied(_)) = (&report.id, applied) {
        plain.report(&own.owned(), exec);
    }
    Ok(reported(applied))
}

/// Applies a cancel reject, and has the plain book do the same.
fn take_reject(book: &mut Book, plain: &mut PlainBook, text: &[u8]) -> Result<Want, Fail>
    requires accounts { book.old.value.accounts ≡ 2 }
    requires symbols { book.old.value.symbols ≡ 2 }
    ensures accounts { book.new.value.accounts ≡ 2 }
    ensures symbols { book.new.value.symbols ≡ 2 }
{
    let reject = CancelReject {
        head: head()?,
        id: id(text)?,
    };
    plain.reject(&reject.id.owned());
    Ok(reported(book.apply_reject(&reject)))
}

/// Gives the book one message, and the plain book the same.
fn take(
    rt: &impl Abort,
    book: &mut Book,
    plain: &mut PlainBook,
    limits: &Limits,
    step: Step,
) -> Result<Want, Fail>
    requires accounts { book.old.value.accounts ≡ 2 }
    requires symbols { book.old.value.symbols ≡ 2 }
    requires account_rows { length limits.now.accounts ≡ 2 }
    requires symbol_rows { length limits.now.symbols ≡ 2 }
    ensures accounts { book.new.value.accounts ≡ 2 }
    ensures symbols { book.new.value.symbols ≡ 2 }
{
    match step {
        Step::Buy(own, quantity, price) => {
            take_new(rt, book, plain, &order(own, b'1', quantity, price)?, 0, 0)
        }
        Step::New(own, account, symbol, side, quantity, price) => {
            take_new(
                rt,
                book,
                plain,
                &order(own, side, quantity, price)?,
                account,
                symbol,
            )
        }
        Step::Cancel(own, orig) => {
            let request = Cancel {
                head: head()?,
                id: id(own)?,
                orig: id(orig)?,
            };
            take_cancel(book, plain, &request)
        }
        Step::Replace(own, orig, quantity, price) => {
            let request = replace([own, orig, b"", b"XYZ"], b'1', quantity, price)?;
            take_replace(book, plain, &request, limits)
        }
        Step::ReplaceOf(own, orig, account, symbol, side, quantity, price) => {
            let request = replace([own, orig, account, symbol], side, quantity, price)?;
            take_replace(book, plain, &request, limits)
        }
        Step::Trade(own, quantity, price) => {
            take_report(book, plain, own, Exec::Trade { quantity, price })
        }
        Step::Report(own, exec) => take_report(book, plain, own, exec),
        Step::Reject(own) => take_reject(book, plain, own),
    }
}

/// The id by which a step names its order once it is taken.
fn named(step: Step) -> &'static [u8] {
    match step {
        Step::Buy(own, ..)
        | Step::New(own, ..)
        | Step::Cancel(own, ..)
        | Step::Replace(own, ..)
        | Step::ReplaceOf(own, ..)
        | Step::Trade(own, ..)
        | Step::Report(own, ..)
        | Step::Reject(own) => own,
    }
}

/// Compares the values with those that the plain book sums from scratch.
fn compare(
    rt: &impl Abort,
    book: &Book,
    plain: &PlainBook,
    step: Step,
    got: Want,
) -> Result<(), Fail> {
    let [firm, account, symbol] = match got {
        Want::All(value) => [value, value, value],
        Want::Values(firm, account, symbol) => [firm, account, symbol],
        Want::Taken | Want::Refused(_) | Want::Stray | Want::Over => return Ok(()),
    };
    let own = id(named(step))?;
    let (own_account, own_symbol) = book.pair_of(&own).ok_or("a pair")?;
    assert_eq!(rt;
        plain.values(own_account, own_symbol),
        [u128::from(firm), u128::from(account), u128::from(symbol)],
        "from scratch"
    );
    Ok(())
}

/// Gives a new book the messages in turn, and compares each answer.
fn follow(
    rt: &impl Abort,
    alloc: Global,
    limits: &Limits,
    name: &str,
    steps: &[(Step, Want)],
) -> Result<(), Fail>
    requires account_rows { length limits.now.accounts ≡ 2 }
    requires symbol_rows { length limits.now.symbols ≡ 2 }
{
    let mut book = Book::new(alloc, limits)?;
    let net = limits.accounts()[0].net;
    let mut plain = PlainBook::new(alloc, if net { Some(0) } else { None });
    for (step, want) in steps {
        let got = take(rt, &mut book, &mut plain, limits, *step)?;
        assert_eq!(rt; got, *want, "{name}: {step:?}");
        compare(rt, &book, &plain, *step, got)?;
    }
    Ok(())
}

/// Follows each of these sequences under these limits.
fn follow_all(
    rt: &impl Abort,
    alloc: Global,
    text: &[u8],
    sequences: &[(&str, &[(Step, Want)])],
) -> Result<(), Fail> {
    let Ok(limits) = read_limits(alloc, text) else {
        return Err("limits")?;
    };
    assert!(rt;
        limits.accounts().len() == 2 && limits.symbols().len() == 2,
        "two of each"
    );
    for (name, steps) in sequences {
        follow(rt, alloc, &limits, name, steps)?;
    }
    Ok(())
}

#[test]
fn values_follow_each_message(rt: HostRuntime) -> Result<(), Fail> {
    follow_all(&rt, rt.alloc(), LIMITS, &SEQUENCES)
}

#[test]
fn fills_of_a_net_account_offset_each_other(rt: HostRuntime) -> Result<(), Fail> {
    follow_all(&rt, rt.alloc(), NET_LIMITS, &NET_SEQUENCES)
}
