//! A word as a stamp and a value.
ghost use Rattle.std.specs.Prelude.{◌≡◌, ◌<◌};
ghost use Rattle.stamp_word.specs.Word.{pack_of, stamp_in, value_in, IsOnePair};
ghost use Rattle.fold_law.specs.declared.limits.TheConstants.{STAMPS, VALUES};

use fold_law::VALUES;

/// The word `{ stamp, value }`.
pub fn pack(stamp: u32, value: u64) -> u64
    requires stamp { stamp < STAMPS }
    requires value { value < VALUES }
    ensures word { result ≡ pack_of stamp value }
    ensures stamp { stamp_in result ≡ stamp }
    ensures value { value_in result ≡ value }
{
    u64::from(stamp) * VALUES + value
}

/// The stamp of a word.
pub fn stamp_of(word: u64) -> u32
    ensures stamp { result ≡ stamp_in word }
    ensures small { result < STAMPS }
{
    (word / VALUES) as u32
}

/// The value of a word.
pub fn value_of(word: u64) -> u64
    ensures value { result ≡ value_in word }
    ensures small { result < VALUES }
{
    word % VALUES
}

/// A law: each u64 is the word of exactly one stamp and value.
pub fn each_word_is_one_pair(word: u64)
    ensures { IsOnePair word }
{}
