// How many spans there are, and their logs.
ghost use Rattle.std.specs.Prelude.{◌≡◌, ◌+◌, ◌++◌, ◌≤◌, length, map};
ghost use Rattle.span.specs.SpanLogs.{AreLegal, room_for_logs, span_of_log};
ghost use Rattle.groups.specs.Group.{spans_in};
ghost use Rattle.span.specs.declared.limits.TheConstants.{ALL_IDS};

use super::Stock;
use span::spans::{Kept, Log, SpanLog};

impl<L: Log> Stock<L> {
    /// How many spans it has, heads and guests.
    pub(crate) fn span_count(&self) -> usize
        ensures count { result ≡ length (spans_in self.now.groups) }
        ensures at_most { result ≤ ALL_IDS }
    {
        self.groups.span_count()
    }
}

impl Stock<Kept> {
    /// Moves the log of each of its spans, heads and guests by ascending head, to the end of a list
    /// with room for them.
    pub(crate) fn into_logs(self, logs: &mut Vec<SpanLog>)
        requires room { length (spans_in self.groups) ≤ room_for_logs logs.old }
        ensures logs { map span_of_log logs.new.items ≡ map span_of_log logs.old.items
            ++ spans_in self.groups }
        ensures legal { AreLegal logs.old.items → AreLegal logs.new.items }
        ensures room { room_for_logs logs.old ≡ room_for_logs logs.new + length
            (spans_in self.groups) }
    {
        self.groups.into_logs(logs);
    }
}
