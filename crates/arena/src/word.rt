// The form of a word that the caller of a look-up chooses.
ghost use Rattle.std.specs.Prelude.{◌≡◌, ◌≤◌, ◌++◌, ℕ, drop, length, map};

/// A word of 128 bits in the form in which a caller keeps it, such as two halves for C.
pub trait Word: Copy {
    /// The word that it is the form of.
    ghost word: { Self → ℕ };

    /// The form of the word.
    fn of(value: u128) -> Self
        ensures { word result ≡ value };
}

impl Word for u128 {
    ghost word = { λ w. w };

    #[inline(always)]
    fn of(value: u128) -> u128 {
        value
    }
}

/// Writes the words into the room, from its first place on. There is room for all of them. One word
/// is by far the most frequent.
#[inline(always)]
pub(crate) fn write_words<W: Word>(room: &mut [W], words: &[u128])
    requires { length words.now ≤ length room.old }
    ensures { map W.word room.new ≡ words.now ++ drop (length words.now) (map W.word room.old) }
{
    if let [word] = words {
        room[0] = W::of(*word);
        return;
    }
    write_all(&mut room[..words.len()], words);
}

// Writes the words, each into its place.
#[inline(never)]
fn write_all<W: Word>(room: &mut [W], words: &[u128])
    requires { length room.old ≡ length words.now }
    ensures { map W.word room.new ≡ words.now }
{
    for place in 0..room.len() {
        room[place] = W::of(words[place]);
    }
}
