// Words of objects that stand one after the other in a list.
ghost use Rattle.std.specs.Prelude.{◌≡◌, ◌≤◌, ◌+◌, ◌++◌, length, vec_len, vec_capacity};
ghost use Rattle.span.specs.Classes.{width_of};
ghost use Rattle.span.specs.Stored.{run_from};

use crate::class::Class;

/// The words of an object of the class that begins at the word `first`.
pub(crate) fn run(words: &[u128], first: usize, class: Class) -> &[u128]
    requires { first + width_of class ≤ length words.now }
    ensures words { result.now ≡ run_from words.now first (width_of class) }
    ensures width { length result.now ≡ width_of class }
{
    words_from(words, first, class.words())
}

/// So many words from the word `first` on.
pub(crate) fn words_from(words: &[u128], first: usize, width: usize) -> &[u128]
    requires { first + width ≤ length words.now }
    ensures words { result.now ≡ run_from words.now first width }
    ensures width { length result.now ≡ width }
{
    &words[first..first + width]
}

/// Adds words at the end, in reserved room, which needs no memory. One word is by far the most
/// frequent.
pub(crate) fn push_words(list: &mut Vec<u128>, words: &[u128])
    requires { vec_len list.old + length words.now ≤ vec_capacity list.old }
    ensures items { list.new.items ≡ list.old.items ++ words.now }
    ensures len { vec_len list.new ≡ vec_len list.old + length words.now }
{
    if words.len() == 1 {
        list.push_reserved(words[0]);
        return;
    }
    match list.extend_from_slice(words) {
        Ok(()) => {}
        Err(_) => unreachable!(),
    }
}
