// Groups and guests that can never be live again, which are forgotten.
ghost use Rattle.std.specs.Prelude.{◌≡◌, ◌≤◌};
ghost use Rattle.span.specs.declared.key.Key.{Key};
ghost use Rattle.pool.specs.Forgets.{Forgets};
ghost use Rattle.pool.specs.Shown.{shown};
ghost use Rattle.pool.specs.Sound.{IsSound};
ghost use Rattle.span.specs.declared.limits.TheConstants.{ALL_IDS};

use super::Stock;
use span::spans::Counted;

impl Stock<Counted> {
    /// Forgets the groups that have no page, and of each other group the guests in which no slot is
    /// live. Answers how many spans that were. It gives back what the groups had.
    pub(crate) fn forget(&mut self) -> usize
        ensures forgets { Forgets self.old result self.new }
        ensures at_most { result ≤ ALL_IDS }
        ensures value { (key : Key) → (shown self.new).value_of key
            ≡ (shown self.old).value_of key }
        ensures sound { IsSound self.new }
    {
        let before = self.span_count();
        self.groups.forget(&mut self.directory);
        self.directory.give_back();
        before - self.span_count()
    }
}
