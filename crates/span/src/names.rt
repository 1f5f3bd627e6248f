//! What every crate above speaks of: the ids of spans, the keys of their slots, the classes of
//! objects, objects, and the limits of all of these. Nothing here changes.
//!
//! ```text
//!   key 3.17/255/1    the span 3.17, its slot 255, the slot's first put
//!   id  3.17          the span that shard 3 opened after 17 others
//! ```
pub use crate::class::{CLASSES, Class};
pub use crate::entry::Entry;
pub use crate::id::SpanId;
pub use crate::key::Key;
pub use crate::limits::{ALL_IDS, MOST_PAGES, MOST_RING_KEYS, MOST_SHARDS, MOST_SPANS};
pub use crate::object::Object;
