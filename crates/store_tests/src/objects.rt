// Objects of each class, and what a look-up found, for tests to compare.
ghost use Rattle.shard.specs.Calls.{FindsObject};

use shard::Found;
use span::names::{Class, Object};

/// The object of 64 bytes that this word tells.
pub(crate) fn wide(word: u128) -> Object {
    object(Class::C64, word)
}

/// The object of 256 bytes that this word tells.
pub(crate) fn widest(word: u128) -> Object {
    object(Class::C256, word)
}

/// The object of the class whose words differ from this one in the four lowest bits, by their
/// place: from a multiple of sixteen on they count.
pub(crate) fn object(class: Class, word: u128) -> Object {
    let mut words = [word; 16];
    for place in 0..words.len() {
        words[place] = word ^ place as u128;
    }
    first_of(class, &words)
}

/// The object of the class that has the first of these words.
pub(crate) fn first_of(class: Class, words: &[u128; 16]) -> Object {
    Object::of(class, &words[..class.words()])
}

/// The object of the class whose words are all zero.
pub(crate) fn zeros(class: Class) -> Object {
    first_of(class, &[0; 16])
}

/// What a look-up found, with the object in place of its words, which are lent.
#[derive(Clone, Copy, PartialEq, Eq, Debug)]
pub(crate) enum Sought {
    /// The key is live, and this is its object; its span's log has so many changes.
    Value(Object, usize),
    /// The span is there, and the key is not live; its span's log has so many changes.
    Gone(usize),
    /// There is no such span.
    NotHere,
}

impl Sought {
    /// What was found.
    pub(crate) fn of(found: Found<'_>) -> Sought
        requires { FindsObject found }
    {
        match found {
            Found::Value(words, at) => Sought::Value(Object::from_words(words), at),
            Found::Gone(at) => Sought::Gone(at),
            Found::NotHere => Sought::NotHere,
        }
    }
}
