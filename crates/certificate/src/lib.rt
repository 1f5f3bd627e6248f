//! Plans of folds, and the certificates that no plan has more pairs.
//!
//! A [`Plan`] pairs abandoned groups with owned groups that they may be folded onto, no group
//! twice. Beside it stands a [`Short`] set: abandoned groups that have so few partners between them
//! that as many of them must be left out as the plan leaves out. [`check`] believes nothing: it
//! tests the sets of a [`Snapshot`](mesh_graph::Snapshot) pair by pair. With whoever found the plan
//! it shares the test of two sets, and no graph and no rows (as the certifying algorithms of LEDA
//! do). Rows are for [`partners`] alone, which lists those of a short set for a report and is not
//! asked by `check`. A [`Runner`](mesh_graph::Runner) fills these rows, at hand or by threads.
//!
//! ```text
//!   abandoned           owned                 plan: 0.0 onto 3.0
//!     0.0 {0} ───────── 3.0 {1}               short set: 0.0, 1.0, 2.0, whose one partner is 3.0
//!     1.0 {0} ────────╱
//!     2.0 {0} ───────╱                        1 pair + 3 short  =  3 abandoned + 1 partner
//! ```
//!
//! The public fact of the crate is that where `check` says yes, no plan of the snapshot has more
//! pairs. That is the deficiency form of Hall's theorem: of the short set at most as many groups
//! are planned as it has partners, so every plan leaves out all the others.
//!
//! A [`Certificate`] has snapshot, plan and short set together. [`write()`] gives it as text, and
//! [`read`] reads that text again, and texts of version 1, which name no classes; of a text that is
//! none it names the first line at fault. Ids have any serial, and groups any class: a text is of
//! version 2 if each serial is below [`TEXT_SPANS`] and each class 16, 64 or 256, and else of
//! version 3.
//!
//! # Examples
//!
//! ```
//! // Whoever found the plan, and however: yes means that no plan has more pairs.
//! let certificate = read(alloc, text)?;
//! if check(&certificate.snapshot, &certificate.plan, &certificate.short) {
//!     for (abandoned, owned) in certificate.plan.pairs() {
//!         // A fold that belongs to a largest plan.
//!     }
//! }
//! ```
#![tactic(auto)]

mod certificate;
mod checking;
mod distinct;
mod partner;
mod place_set;
mod plan;
mod text;

pub use certificate::Certificate;
pub use checking::check;
pub use partner::{partner_count, partners};
pub use plan::{Plan, Short};
pub use text::{Cause, ReadError, TEXT_SPANS, read, write};
