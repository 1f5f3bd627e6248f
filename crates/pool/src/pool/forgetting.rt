// Groups and guests that can never be live again, which the pool forgets.
ghost use Rattle.std.specs.Prelude.{◌≡◌, ◌≤◌};
ghost use Rattle.span.specs.declared.key.Key.{Key};
ghost use Rattle.pool.specs.Forgets.{Forgets};
ghost use Rattle.pool.specs.Shown.{shown};
ghost use Rattle.pool.specs.Sound.{IsSound};
ghost use Rattle.span.specs.declared.limits.TheConstants.{ALL_IDS};

use super::Pool;
use span::spans::Counted;

impl Pool<Counted> {
    /// Forgets the groups in which no slot is live, which have no page, with all their spans, and
    /// of each other group the guests in which no slot is live. Answers how many spans that were.
    /// Nothing is put into the pool, and no group without a page is adopted or folded onto, so none
    /// of their keys can be live again: a look-up and a free of one no longer find its span. A head
    /// with a live guest stays, since its id names the group. It gives back what the groups had,
    /// and asks for memory only for a smaller table in the place of a larger one, which stays if
    /// there is none.
    pub fn forget(&mut self) -> usize
        ensures forgets { Forgets self.old result self.new }
        ensures at_most { result ≤ ALL_IDS }
        ensures value { (key : Key) → (shown self.new).value_of key
            ≡ (shown self.old).value_of key }
        ensures sound { IsSound self.new }
    {
        let Some(stock) = &mut self.stock else {
            return 0;
        };
        let count = stock.forget();
        self.give_back();
        count
    }
}
