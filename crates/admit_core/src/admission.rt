//! Post, read, decide.
ghost use Rattle.std.specs.Prelude.{◌≡◌, ◌≢◌, ◌≤◌, ◌↔◌, All, AllPairs, IsTrue};
ghost use Rattle.admit_core.specs.declared.ask.TheConstants.{MOST_CALLS};
ghost use Rattle.admit_core.specs.Admission.{admitted, roots_read, unread, IsWithin};
ghost use Rattle.admit_core.specs.Admission.{all_unplaced, with_posts, with_reads, CanPostAll, AreInRange};
ghost use Rattle.admit_core.specs.Asking.{lacks_posts, verdict_of};
ghost use Rattle.admit_core.specs.Hands.{IsAfter};
ghost use Rattle.admit_core.specs.Legs.{legs_asked, trees_of, IsLegOf, AreApart};

use crate::ask::{Ask, Outcome, Verdict};
use crate::hands::Hands;
use crate::verdict::decide;
use risk_board::{Hand, Seen};

/// A root that was not read.
const UNREAD: Seen = Seen { stamp: 0, value: 0 };

/// Posts the new values in the three trees, then reads the halt root and then the three roots, and
/// decides. After a verdict other than `Sent` it posts the old values back. Where two more posts may not
/// be left in one of the trees, it makes no call at all.
///
/// The order of the calls matters: whoever tripped the halt tree before the last of these posts is seen
/// by the read after it. Each answer has its clause, which makes the head longer than others.
pub fn admit<H: Hand, M: Hand>(hands: &mut Hands<H, M>, ask: &Ask) -> Outcome
    requires legs { All (IsLegOf hands.old.halt_tree hands.old.acts) (legs_asked ask.now) }
    requires apart { AllPairs AreApart (legs_asked ask.now) }
    requires room { MOST_CALLS ≤ hands.old.room }
    ensures after { IsAfter H.SameOrigin M.SameOrigin hands.old hands.new MOST_CALLS }

    // The acts tell the calls of both hands, in the order in which they were made.
    ensures acts { hands.new.acts
        ≡ admitted hands.old.halt_tree (legs_asked ask.now) result hands.old.acts }

    // Too few posts are left, exactly then. Otherwise the verdict is that of the roots that were read.
    ensures quota { (result.verdict ≡ Verdict.Quota)
        ↔ IsTrue (lacks_posts hands.old.quota hands.old.acts (legs_asked ask.now)) }
    ensures unread { result.verdict ≡ Verdict.Quota → result ≡ unread }
    ensures verdict { result.verdict ≢ Verdict.Quota
        → result.verdict ≡ verdict_of (legs_asked ask.now) (roots_read result.halt result.roots) }
    ensures within { result.verdict ≡ Verdict.Sent → IsWithin ask.now result }
{
    if has_few_left(hands, ask) {
        return Outcome {
            verdict: Verdict::Quota,
            halt: UNREAD,
            roots: [UNREAD; 3],
        };
    }
    post_new(hands, ask);
    let halt = hands.read_halt();
    let roots = read_all(hands, ask);
    let verdict = decide(ask, &halt, &roots);
    if verdict != Verdict::Sent {
        post_back(hands, ask);
    }
    Outcome {
        verdict,
        halt,
        roots,
    }
}

/// Whether in one of the three trees a post and one that takes it back are more than are left.
fn has_few_left<H: Hand, M: Hand>(hands: &Hands<H, M>, ask: &Ask) -> bool
    requires { AreInRange hands.now.halt_tree ask.now.trees }
    ensures { result ≡ lacks_posts hands.now.quota hands.now.acts (legs_asked ask.now) }
{
    hands.left(ask.trees[0]) < 2 || hands.left(ask.trees[1]) < 2 || hands.left(ask.trees[2]) < 2
}

/// Posts the new values, in order.
fn post_new<H: Hand, M: Hand>(hands: &mut Hands<H, M>, ask: &Ask)
    requires posts { CanPostAll hands.old (λ leg. leg.new) ask.now }
    requires room { 3 ≤ hands.old.room }
    ensures after { IsAfter H.SameOrigin M.SameOrigin hands.old hands.new 3 }
    ensures acts { hands.new.acts ≡ with_posts (λ leg. leg.new) (legs_asked ask.now) hands.old.acts }
{
    hands.post(ask.trees[0], ask.new[0]);
    hands.post(ask.trees[1], ask.new[1]);
    hands.post(ask.trees[2], ask.new[2]);
}

/// Posts the old values back, in order.
fn post_back<H: Hand, M: Hand>(hands: &mut Hands<H, M>, ask: &Ask)
    requires posts { CanPostAll hands.old (λ leg. leg.old) ask.now }
    requires room { 3 ≤ hands.old.room }
    ensures after { IsAfter H.SameOrigin M.SameOrigin hands.old hands.new 3 }
    ensures acts { hands.new.acts ≡ with_posts (λ leg. leg.old) (legs_asked ask.now) hands.old.acts }
{
    hands.post(ask.trees[0], ask.old[0]);
    hands.post(ask.trees[1], ask.old[1]);
    hands.post(ask.trees[2], ask.old[2]);
}

/// Reads the roots of the three trees, in order.
fn read_all<H: Hand, M: Hand>(hands: &mut Hands<H, M>, ask: &Ask) -> [Seen; 3]
    requires trees { AreInRange hands.old.halt_tree ask.now.trees }
    requires room { 3 ≤ hands.old.room }
    ensures after { IsAfter H.SameOrigin M.SameOrigin hands.old hands.new 3 }
    ensures acts { hands.new.acts
        ≡ with_reads (trees_of (legs_asked ask.now)) (all_unplaced result) hands.old.acts }
{
    let firm = hands.read(ask.trees[0]);
    let account = hands.read(ask.trees[1]);
    let symbol = hands.read(ask.trees[2]);
    [firm, account, symbol]
}
