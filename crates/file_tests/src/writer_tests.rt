//! What no clause says: a whole message, byte for byte, as an engine of FIX 4.4 writes it.
ghost use Rattle.std.specs.Prelude.{◌≡◌, ℕ, ◌+◌, ◌*◌, ◌≤◌, length, IfSome, IsSome};
ghost use Rattle.fix_fields.specs.Fields.{FieldValue, IsField, field};

use fix_fields::Writer;
use std::test::*;

const FORWARD: &[u8] = b"8=FIX.4.4\x019=116\x0135=D\x0149=GATE\x0156=VENUE\x0134=1\x01\
52=20240102-10:00:00\x0111=a1\x011=ACC\x0155=XYZ\x0154=1\x0138=100\x0140=2\x0144=10.0000\x01\
60=20240102-10:00:00\x0110=193\x01";

const SHORTEST: &[u8] = b"8=FIX.4.4\x019=5\x0135=0\x0110=163\x01";

// Begins a message, and counts its first field.
fn begin(to: &mut Writer, kind: u8) -> usize
    requires { (33 ≤ kind) × (kind ≤ 126) }
    ensures count { result ≡ 1 }
    ensures begun { IsSome to.new }
    ensures short { IfSome to.new (λ body. length body ≤ result * 80) }
{
    to.begin(kind);
    1
}

// Appends a field of at most 64 bytes, and counts it.
fn put(to: &mut Writer, count: usize, tag: u32, value: &[u8]) -> usize
    requires few { count ≤ 100 }
    requires begun { IsSome to.old }
    requires short { IfSome to.old (λ body. length body ≤ count * 80) }
    requires field { IsField (field tag value.now) }
    requires small { length value.now ≤ 64 }
    ensures count { result ≡ count + 1 }
    ensures begun { IsSome to.new }
    ensures short { IfSome to.new (λ body. length body ≤ result * 80) }
{
    to.put(tag, value);
    count + 1
}

// Appends a number, and counts its field.
fn put_number(to: &mut Writer, count: usize, tag: u32, value: u64) -> usize
    requires few { count ≤ 100 }
    requires begun { IsSome to.old }
    requires short { IfSome to.old (λ body. length body ≤ count * 80) }
    requires tag { (1 ≤ tag) × (tag ≤ 999999) }
    ensures count { result ≡ count + 1 }
    ensures begun { IsSome to.new }
    ensures short { IfSome to.new (λ body. length body ≤ result * 80) }
{
    to.put_number(tag, value);
    count + 1
}

#[test]
fn a_forward_is_written(rt: HostRuntime) -> Result<(), Fail> {
    let mut to = Writer::new();
    let kind = begin(&mut to, b'D');
    let sender = put(&mut to, kind, 49, b"GATE");
    let target = put(&mut to, sender, 56, b"VENUE");
    let seq = put_number(&mut to, target, 34, 1);
    let time = put(&mut to, seq, 52, b"20240102-10:00:00");
    let id = put(&mut to, time, 11, b"a1");
    let account = put(&mut to, id, 1, b"ACC");
    let symbol = put(&mut to, account, 55, b"XYZ");
    let side = put(&mut to, symbol, 54, b"1");
    let quantity = put_number(&mut to, side, 38, 100);
    let order_type = put(&mut to, quantity, 40, b"2");
    let price = put(&mut to, order_type, 44, b"10.0000");
    let _count = put(&mut to, price, 60, b"20240102-10:00:00");
    assert_eq!(rt; to.finish(), FORWARD, "the forward");
    Ok(())
}

#[test]
fn a_message_follows_another(rt: HostRuntime) -> Result<(), Fail> {
    let mut to = Writer::new();
    let kind = begin(&mut to, b'D');
    let _count = put(&mut to, kind, 49, b"GATE");
    let _first = to.finish();
    to.begin(b'0');
    assert_eq!(rt; to.finish(), SHORTEST, "a heartbeat");
    Ok(())
}
