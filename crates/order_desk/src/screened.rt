//! Sequences of messages behind screens for size, price and repeats, as those in `sequences`.
use crate::Effect::Applied;
use crate::Refusal::{Duplicate, Pending, Screen, UnknownAccount};
use crate::sequences::Answer::{Refused, Sent, Settled};
use crate::sequences::Posted::All;
use crate::sequences::Step::{Buy, Cancel, New, Reject, Replace};
use crate::sequences::{Sequence, over};

/// A symbol up to 12.0000 and 100,000, where the last two orders judged may not be repeated.
const TWO: &[u8] =
    b"firm,,100000,,,\naccount,ACC,100000,,,\nsymbol,XYZ,100000,1,12,100000\nrepeat,,2,,,\n";

/// The same with the last one alone.
const ONE: &[u8] =
    b"firm,,100000,,,\naccount,ACC,100000,,,\nsymbol,XYZ,100000,1,12,100000\nrepeat,,1,,,\n";

/// As TWO, where the screen for repeats is dropped as order 2 is taken up, and that for prices as
/// order 3.
const OFF: &[u8] =
    b"firm,,100000,,,\naccount,ACC,100000,,,\nsymbol,XYZ,100000,1,12,100000\nrepeat,,2,,,\n\
        off,collar,3,,,\noff,repeat,2,,,\noff,other,0,,,\n";

/// The sequences.
pub(crate) const SCREENED: [Sequence; 4] = [
    over! { TWO, "two repeats, and a price above the collar";
        Buy(b"a1", 5, 100000) => Sent, 7, All(50);
        Buy(b"a2", 5, 100000) => Refused(Screen(3)), 0, All(50);
        Buy(b"a3", 5, 100000) => Refused(Screen(3)), 0, All(50);
        Buy(b"a4", 1, 120100) => Refused(Screen(2)), 0, All(50);
        Buy(b"a5", 100001, 10000) => Refused(Screen(1)), 0, All(50);
    },
    over! { ONE, "what is refused before the screens isn't judged by them";
        Buy(b"a1", 5, 100000) => Sent, 7, All(50);
        New(b"a2", b"NONE", b"XYZ", b'1', 6, 100000) => Refused(UnknownAccount), 0, All(50);
        Buy(b"a1", 6, 100000) => Refused(Duplicate), 0, All(50);
        Buy(b"a2", 5, 100000) => Refused(Screen(3)), 0, All(50);
        Buy(b"a2", 6, 100000) => Sent, 7, All(110);
        Buy(b"a3", 5, 100000) => Sent, 7, All(160);
    },
    over! { TWO, "a replace is judged as the order that it asks for, and a cancel isn't judged";
        Buy(b"a1", 100, 100000) => Sent, 7, All(1000);
        Replace(b"b1", b"a1", 100, 120001) => Refused(Screen(2)), 0, All(1000);
        Replace(b"b1", b"a1", 100, 100000) => Refused(Screen(3)), 0, All(1000);
        Replace(b"b1", b"a1", 150, 100000) => Sent, 7, All(1500);
        Replace(b"c1", b"a1", 170, 100000) => Refused(Pending), 0, All(1500);
        Reject(b"b1") => Settled(Applied), 3, All(1000);
        Replace(b"c1", b"a1", 150, 100000) => Refused(Screen(3)), 0, All(1000);
        Replace(b"c1", b"a1", 80, 100000) => Sent, 0, All(1000);
        Reject(b"c1") => Settled(Applied), 0, All(1000);
        Cancel(b"d1", b"a1") => Sent, 0, All(1000);
    },
    over! { OFF, "screens are dropped by the numbers of the orders, of which a cancel is none";
        Buy(b"a1", 5, 100000) => Sent, 7, All(50);
        Cancel(b"c1", b"a1") => Sent, 0, All(50);
        Buy(b"a2", 5, 100000) => Refused(Screen(3)), 0, All(50);
        Buy(b"a3", 5, 100000) => Sent, 7, All(100);
        Buy(b"a4", 1, 120100) => Sent, 7, All(113);
        Buy(b"a5", 100001, 10000) => Refused(Screen(1)), 0, All(113);
    },
];
