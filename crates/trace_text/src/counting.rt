//! The objects that lines put.

ghost use Rattle.std.specs.Prelude.{◌≡◌, ◌+◌, ◌<◌, ◌≤◌, ◌^◌, length};
ghost use Rattle.std.specs.List.{range_with_len};
ghost use Rattle.span.specs.Classes.{width_of};
ghost use Rattle.trace_text.specs.Objects.{counted_from, last_word};

use span::names::{Class, Object};

/// Writes the base into the first of the words, and into each further one one more than into the
/// word before it.
pub fn count_up(words: &mut [u128], base: u128)
    requires { base + length words.old ≤ 2 ^ 128 }
    ensures { words.new ≡ range_with_len base (length words.old) }
{
    for place in 0..words.len() {
        words[place] = base + place as u128;
    }
}

/// Writes the words of the object of the class that counts up from that base into the first of the
/// room, and lends them.
pub fn counted_in(room: &mut [u128; 16], class: Class, base: u128) -> &[u128]
    requires { last_word class base < 2 ^ 128 }
    ensures words { result.now ≡ counted_from class base }
    ensures width { length result.now ≡ width_of class }
{
    let words = &mut room[..class.words()];
    count_up(words, base);
    words
}

/// The object of the class that counts up from that base: its words are the base, one more than
/// that, and so on.
pub fn counting_from(class: Class, base: u128) -> Object
    requires { last_word class base < 2 ^ 128 }
    ensures { result ≡ counted_from class base }
{
    match class {
        Class::C16 => Object::c16(base),
        _ => {
            let mut room = [0; 16];
            Object::of(class, counted_in(&mut room, class, base))
        }
    }
}
