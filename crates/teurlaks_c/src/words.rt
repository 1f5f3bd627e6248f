// Words as C has them.
ghost use Rattle.std.specs.Prelude.{◌≡◌, ◌≤◌, ◌++◌, IfSome, MatchOption, drop, length};
ghost use Rattle.span.specs.Classes.{IsObject, width_of};
ghost use Rattle.teurlaks_c.specs.Words.{word_of, words_of};

use crate::replies::RawWord;
use arena::Word;
use span::names::Class;

/// The word of these halves.
#[inline(always)]
pub(crate) fn value_of(word: RawWord) -> u128
    ensures { result ≡ word_of word }
{
    word.high as u128 * 0x1_0000_0000_0000_0000 + word.low as u128
}

/// The halves of the word.
#[inline(always)]
pub(crate) fn raw_word(value: u128) -> RawWord
    ensures { word_of result ≡ value }
{
    RawWord {
        low: (value % 0x1_0000_0000_0000_0000) as u64,
        high: (value / 0x1_0000_0000_0000_0000) as u64,
    }
}

/// The class whose objects have that many words, or `None` where they are not 1 to 16.
pub(crate) fn class_for(words: &[RawWord]) -> Option<Class>
    ensures class { MatchOption result (IsObject (words_of words.now) → ⊥)
        (λ class. IsObject (words_of words.now) × (length (words_of words.now) ≡ width_of class)) }
    ensures most { IfSome result (λ class. length words.now ≤ 16) }
{
    Class::of_words(words.len())
}

/// Writes the words, each of its two halves, in their order.
pub(crate) fn join_all(values: &mut [u128], words: &[RawWord])
    requires { length values.old ≡ length words.now }
    ensures { values.new ≡ words_of words.now }
{
    for place in 0..values.len() {
        values[place] = value_of(words[place]);
    }
}

/// Writes the words into the room, from its first place on. There is room for all of them.
pub(crate) fn write_words(room: &mut [RawWord], values: &[u128])
    requires { length values.now ≤ length room.old }
    ensures { words_of room.new ≡ values.now ++ drop (length values.now) (words_of room.old) }
{
    split_all(&mut room[..values.len()], values);
}

// Writes the halves of the words, in their order.
fn split_all(room: &mut [RawWord], values: &[u128])
    requires { length room.old ≡ length values.now }
    ensures { words_of room.new ≡ values.now }
{
    for place in 0..room.len() {
        room[place] = raw_word(values[place]);
    }
}

impl Word for RawWord {
    ghost word = { word_of };

    #[inline(always)]
    fn of(value: u128) -> RawWord {
        raw_word(value)
    }
}
