// What the calls of a worker are held against.
use crate::first::Firsts;
use crate::log::LogPlaces;
use crate::row::Sections;
use crate::slot::SlotChange;
use span::spans::SpanLog;

/// The logs, and the tables that were made of them and of the receipts: what the calls of each
/// worker are held against, whichever thread does so.
#[derive(Clone, Copy)]
pub struct Records<'a> {
    pub logs: &'a [SpanLog],
    /// Where each span's log stands.
    pub table: &'a LogPlaces,
    /// The section of each change of each log.
    pub sections: &'a [Sections],
    /// The changes of each log by slot.
    pub orders: &'a [Vec<SlotChange>],
    /// Where those of a slot begin.
    pub firsts: &'a Firsts,
}
