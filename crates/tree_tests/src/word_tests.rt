//! What no clause says: each call once at worked numbers, and that the law's call returns.
use fold_law::SESSIONS;
use stamp_word::{Shape, each_word_is_one_pair, pack, stamp_of, value_of};
use std::test::*;

#[test]
fn words_have_worked_numbers(rt: HostRuntime) -> Result<(), Fail> {
    const WORDS: [(&str, u32, u64, u64); 3] = [
        ("nothing", 0, 0, 0),
        ("the first stamp", 1, 1000, 274_877_907_944),
        ("both at their ends", 67_108_863, 274_877_906_943, u64::MAX),
    ];
    for (name, stamp, value, word) in WORDS {
        assert_eq!(rt; pack(stamp, value), word, "{name}");
        assert_eq!(rt; stamp_of(word), stamp, "{name}");
        assert_eq!(rt; value_of(word), value, "{name}");
        each_word_is_one_pair(word);
    }
    Ok(())
}

#[test]
fn shapes_have_the_fewest_levels(rt: HostRuntime) -> Result<(), Fail> {
    const LEVELS: [(u32, u32); 12] = [
        (1, 0),
        (2, 1),
        (3, 2),
        (4, 2),
        (5, 3),
        (8, 3),
        (9, 4),
        (16, 4),
        (17, 5),
        (32, 5),
        (33, 6),
        (64, 6),
    ];
    for (sessions, levels) in LEVELS {
        assert!(rt;
            sessions >= 1 && sessions <= SESSIONS,
            "{sessions} sessions"
        );
        assert_eq!(rt;
            Shape::of(sessions, 1).levels,
            levels,
            "{sessions} sessions"
        );
    }
    Ok(())
}

#[test]
fn shapes_have_worked_places(rt: HostRuntime) -> Result<(), Fail> {
    let shape = Shape::of(3, 2);
    assert_eq!(rt; shape.levels, 2, "levels for three sessions");
    assert_eq!(rt; shape.root(1), 9, "the root of the second tree");
    assert_eq!(rt; shape.leaf(2), 6, "the leaf of the third session");
    assert_eq!(rt; shape.path(1, 6), 14, "that leaf's word in the second tree");
    assert_eq!(rt; shape.left(3), 6, "the left child");
    assert_eq!(rt; shape.right(3), 7, "the right child");
    Ok(())
}
