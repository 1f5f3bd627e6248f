// Which spans can be forgotten once they are guests.
ghost use Rattle.std.specs.Prelude.{◌≡◌};
ghost use Rattle.groups.specs.Dead as dead;

use span::spans::{Log, Span};

// Whether one of its slots is live.
pub(crate) fn is_live<L: Log>(span: &Span<L>) -> bool
    ensures { result ≡ dead.is_live span.now }
{
    span.live_count() > 0
}
