// What a key holds, as a receipt shows it.
ghost use Rattle.std.specs.Prelude.{◌≡◌, ◌↔◌, IsTrue, length};
ghost use Rattle.span.specs.ReceiptViews.{words_viewed};

/// An object, as [`Object`](crate::names::Object), that is not copied if its words stand
/// somewhere. A list of receipts keeps of words that count up the first alone, so what it shows of
/// the others is the word itself.
#[derive(Clone, Copy)]
pub enum ObjectView<'a> {
    /// The words, which are lent.
    Lent(&'a [u128]),
    /// The one word of an object of class [`Class::C16`](crate::names::Class::C16).
    Word(u128),
}

impl ObjectView<'_> {
    /// How many words it has.
    #[inline(always)]
    pub fn len(self) -> usize
        ensures { result ≡ length (words_viewed self.entry) }
    {
        match self {
            ObjectView::Lent(words) => words.len(),
            ObjectView::Word(_) => 1,
        }
    }

    /// Whether its words are these.
    #[inline(always)]
    pub fn is(self, words: &[u128]) -> bool
        ensures { IsTrue result ↔ words_viewed self.entry ≡ words.now }
    {
        match self {
            ObjectView::Lent(lent) => lent == words,
            ObjectView::Word(word) => words.len() == 1 && words[0] == word,
        }
    }
}
