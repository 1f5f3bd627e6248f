// Which section made each change, as far as receipts tell.
ghost use Rattle.std.specs.Prelude.{◌≡◌, ◌↔◌, ◌<◌, IsTrue, IfOk, [], ℕ, None, Some, false, vec_len, length, map, replicate, slice_index_or};
ghost use Rattle.audit.specs.Tables.{AreRowsOf, AreFull, IsFull, IsBetween, filled_row, full_row, sections_in, IsMarked};

use crate::row::{Row, Sections};
use span::spans::{Log, SpanLog};
use std::alloc::{AllocError, Global};

// A row in which no change was seen.
fn empty_row(alloc: Global, changes: usize) -> Result<Row, AllocError>
    ensures len { IfOk result (λ row. length (filled_row row) ≡ changes) }
    ensures none { IfOk result (λ row. (at : ℕ) → slice_index_or (filled_row row) at None ≡ None) }
{
    let sections = vec![in alloc; 0u64; changes]?;
    let told = vec![in alloc; false; changes]?;
    Ok(Row { sections, told })
}

/// For each log a row in which no change was seen.
pub fn empty_rows(alloc: Global, logs: &[SpanLog]) -> Result<Vec<Row>, AllocError>
    ensures len { IfOk result (λ rows. vec_len rows ≡ length logs.now) }
    ensures each { IfOk result (λ rows. AreRowsOf [] logs.now (map filled_row rows.items)) }
{
    let mut rows = Vec::new(alloc);
    for log in logs {
        rows.push(empty_row(alloc, log.log.len())?)?;
    }
    Ok(rows)
}

/// Enters the section at the place, where the row has it and none stands there. Whether it did.
pub fn mark(row: &mut Row, at: usize, section: u64) -> bool
    ensures marked { IsTrue result
        → IsMarked (filled_row row.old) at section (filled_row row.new) }
    ensures taken { result ≡ false → at < length (filled_row row.old) → (s : ℕ)
        × (slice_index_or (filled_row row.old) at None ≡ Some s) }
{
    if row.told.len() <= at || row.told[at] {
        return false;
    }
    row.told[at] = true;
    row.sections[at] = section;
    true
}

// Whether each place of the row has a section.
fn is_full(row: &Row) -> bool
    ensures { IsTrue result ↔ IsFull (filled_row row.now) }
{
    for told in &row.told {
        if !*told {
            return false;
        }
    }
    true
}

/// Whether each place of each row has a section.
pub fn are_full(rows: &[Row]) -> bool
    ensures { IsTrue result ↔ AreFull (map filled_row rows.now) }
{
    for row in rows {
        if !is_full(row) {
            return false;
        }
    }
    true
}

// Whether all of the sections are this one.
fn are_same(sections: &[u64], section: u64) -> bool
    ensures { IsTrue result → sections.now ≡ replicate (length sections.now) section }
{
    for other in sections {
        if *other != section {
            return false;
        }
    }
    true
}

// The sections of a log's changes, as one where they are the same.
fn packed(sections: Vec<u64>) -> Sections
    ensures { sections_in result ≡ sections.items }
{
    if sections.is_empty() {
        return Sections::Each(sections);
    }
    let section = sections[0];
    let changes = sections.len();
    if are_same(sections.as_slice(), section) {
        Sections::Same { section, changes }
    } else {
        Sections::Each(sections)
    }
}

/// The sections of the rows alone, as they are kept where all were told.
pub fn full_rows(alloc: Global, rows: Vec<Row>) -> Result<Vec<Sections>, AllocError>
    ensures { IfOk result (λ full. map full_row full.items
        ≡ map (λ row. map Some row.sections.items) rows.items) }
{
    let mut full = Vec::with_capacity(alloc, rows.len())?;
    for row in rows {
        full.push(packed(row.sections))?;
    }
    Ok(full)
}

// The section of the change at the place, if there is one.
fn section_at(row: &Sections, at: usize) -> Option<u64>
    ensures { result ≡ slice_index_or (full_row row.now) at None }
{
    match row {
        Sections::Same { section, changes } => if at < *changes { Some(*section) } else { None },
        Sections::Each(sections) => if at < sections.len() {
            Some(sections[at])
        } else {
            None
        },
    }
}

/// Whether the section is none lower than that of the change before the place, and none higher than
/// that of the change at it.
pub fn is_between(row: &Sections, at: usize, section: u64) -> bool
    ensures { IsTrue result ↔ IsBetween (full_row row.now) at section }
{
    if 1 <= at
        && let Some(before) = section_at(row, at - 1)
        && section < before
    {
        return false;
    }
    if let Some(after) = section_at(row, at)
        && after < section
    {
        return false;
    }
    true
}
