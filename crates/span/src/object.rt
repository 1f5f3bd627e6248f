// What a key holds.
ghost use Rattle.std.specs.Prelude.{◌≡◌, ◌↔◌, ◌∷◌, [], IfSome, IsSome, length};
ghost use Rattle.span.specs.Classes.{IsObject, class_of, width_of};

use crate::class::Class;
use std::marker::Model;

/// An object: a class, and as many words as the class has. Contracts see it as the list of its
/// words, whose length tells the class.
///
/// It takes 272 bytes whatever its class, so it stands at the outermost calls alone: below them
/// words go as slices, and no list keeps objects.
#[derive(Clone, Copy, PartialEq, Eq, Debug)]
pub struct Object {
    kept: Words,
}

// As many words as the class has. One word is by far the most frequent, and so has no others to
// write.
#[derive(Clone, Copy, PartialEq, Eq, Debug)]
enum Words {
    One([u128; 1]),
    // More than one, and zeros behind them.
    More { class: Class, words: [u128; 16] },
}

impl Model for Object {
    ghost use Rattle.std.specs.Prelude.{List, ℕ};
    ghost use Rattle.span.specs.Objects.{IsKept, kept_of, words_in};

    ghost Value = { List ℕ };

    ghost view = { λ o. words_in o.kept };

    ghost invariant = { λ o. IsKept o.kept };

    ghost inverse = { λ words. record { kept = kept_of words } };

    ghost inverse_ok = { λ o is i. record { kept = is.1 i } };
}

impl Object {
    /// The object of one word.
    pub fn c16(word: u128) -> Object
        ensures { result ≡ word ∷ [] }
    {
        Object {
            kept: Words::One([word]),
        }
    }

    /// The object of these words, or `None` if they are none or more than 16.
    pub fn new(words: &[u128]) -> Option<Object>
        ensures some { IsSome result ↔ IsObject words.now }
        ensures words { IfSome result (λ object. object ≡ words.now) }
    {
        match Class::of_words(words.len()) {
            Some(class) => Some(Object::of(class, words)),
            None => None,
        }
    }

    /// The object of these words, which are as many as a class has.
    pub fn from_words(words: &[u128]) -> Object
        requires { IsObject words.now }
        ensures { result ≡ words.now }
    {
        match Object::new(words) {
            Some(object) => object,
            None => unreachable!(),
        }
    }

    /// The object of these words, which are as many as the class has.
    pub fn of(class: Class, words: &[u128]) -> Object
        requires { length words.now ≡ width_of class }
        ensures { result ≡ words.now }
    {
        if words.len() == 1 {
            return Object::c16(words[0]);
        }
        let mut padded = [0; 16];
        padded[..words.len()].copy_from_slice(words);
        Object {
            kept: Words::More {
                class,
                words: padded,
            },
        }
    }

    /// Its class.
    pub fn class(&self) -> Class
        ensures class { result ≡ class_of self.now }
        ensures width { length self.now ≡ width_of result }
    {
        match &self.kept {
            Words::One(_) => Class::C16,
            Words::More { class, .. } => *class,
        }
    }

    /// Its words.
    pub fn words(&self) -> &[u128]
        ensures words { result.now ≡ self.now }
        ensures width { IsObject result.now }
    {
        match &self.kept {
            Words::One(words) => words.as_slice(),
            Words::More { class, words } => &words[..class.words()],
        }
    }
}
