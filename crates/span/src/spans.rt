//! One span with its log, for the crates that keep spans (`groups`, `shard`, `pool`), and what is
//! left of a span when its run is over, for `audit`.
pub use crate::change::Change;
pub use crate::log::{Counted, Kept, Log};
pub use crate::span::Span;
pub use crate::span_log::SpanLog;
pub use crate::view::ChangeView;
