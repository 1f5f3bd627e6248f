//! Verbs that name the class of an object: `put` and `fill` alone for one word, and else with the
//! bytes of an object behind them, as in `put48`.

ghost use Rattle.std.specs.Prelude.{◌≡◌, codes};
ghost use Rattle.trace_text.specs.Form.{class_behind, class_filled, class_of_bytes, class_of_size, class_put};

use super::numeral::{Number, parse_number};
use span::names::Class;

/// The class of objects of that many bytes, which are more than one word.
fn class_of_bytes(bytes: u128) -> Option<Class>
    ensures { result ≡ class_of_bytes bytes }
{
    if 16 < bytes && bytes <= 256 && bytes % 16 == 0 {
        Class::of_words((bytes / 16) as usize)
    } else {
        None
    }
}

/// The class of objects of as many bytes as the digits say.
fn class_of_size(digits: &[u8]) -> Option<Class>
    ensures { result ≡ class_of_size digits.now }
{
    match parse_number(digits)? {
        Number::Fits(bytes) => class_of_bytes(bytes),
        Number::Large => None,
    }
}

/// The class that a verb names, if it is that word alone, or with a size behind it.
fn class_behind(word: &[u8], verb: &[u8]) -> Option<Class>
    ensures { result ≡ class_behind word.now verb.now }
{
    if verb == word {
        return Some(Class::C16);
    }
    class_of_size(verb.strip_prefix(word)?)
}

/// The class of the object that a call of that verb puts.
pub fn class_put(verb: &[u8]) -> Option<Class>
    ensures { result ≡ class_put verb.now }
{
    class_behind(b"put", verb)
}

/// The class of the objects that a fill of that verb puts.
pub fn class_filled(verb: &[u8]) -> Option<Class>
    ensures { result ≡ class_filled verb.now }
{
    class_behind(b"fill", verb)
}
