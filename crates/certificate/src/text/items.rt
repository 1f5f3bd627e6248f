// The lists of a certificate: a title with a count, and a line for each item.
ghost use Rattle.std.specs.Prelude.{◌≡◌, ◌+◌, ◌<◌, ◌≤◌, codes, length, map, option_map, IfOk};
ghost use Rattle.std.specs.List.{All};
ghost use Rattle.mesh_graph.specs.Groups.{IsAscending, ids};
ghost use Rattle.certificate.specs.Grammar.{ComesAfter, Reads, at_line, count_in, entry_in, entry_parts, id_in, id_parts, item_in, order_of, pair_in, pair_parts, result_map};
ghost use Rattle.certificate.specs.Text.{FitsClass};
ghost use Rattle.mesh_graph.specs.declared.build.TheConstants.{MOST_GROUPS};
ghost use Rattle.certificate.specs.NextLines.{next_line, next_list};

use super::cause::{Cause, ReadError};
use super::lines::Lines;
use super::version::Version;
use super::words::{parse_count, parse_entry, parse_id, parse_pair};
use mesh_graph::Entry;
use span::names::SpanId;
use std::alloc::Global;

/// Whether the id stands after the last one of its list.
fn in_order(last: Option<SpanId>, id: SpanId) -> Result<(), Cause>
    ensures order { result ≡ order_of (option_map id_parts last) (id_parts id) }
    ensures after { IfOk result (λ _. ComesAfter last id) }
{
    let Some(last) = last else {
        return Ok(());
    };
    if last.rank() < id.rank() {
        Ok(())
    } else {
        Err(Cause::Order)
    }
}

/// How many items a list has.
fn read_count(lines: &mut Lines, title: &[u8]) -> Result<usize, ReadError>
    requires { lines.old.at ≤ 32768 }
    ensures read { result ≡ at_line lines.old.at (next_line (count_in title.now) lines.old) }
    ensures at_most { IfOk result (λ count. count ≤ MOST_GROUPS) }
    ensures text { IfOk result (λ _. lines.new.text.now ≡ lines.old.text.now) }
    ensures passed { IfOk result (λ _. lines.new.at ≡ lines.old.at + 1) }
{
    let line = lines.next_number();
    match count_at(lines, title) {
        Ok(count) => Ok(count),
        Err(cause) => Err(ReadError::BadCertificate { line, cause }),
    }
}

fn count_at(lines: &mut Lines, title: &[u8]) -> Result<usize, Cause>
    ensures line { result ≡ next_line (count_in title.now) lines.old }
    ensures text { IfOk result (λ _. lines.new.text.now ≡ lines.old.text.now) }
    ensures passed { IfOk result (λ _. lines.new.at ≡ lines.old.at + 1) }
{
    parse_count(title, lines.next_line()?)
}

fn entry_at(lines: &mut Lines, version: Version, last: Option<SpanId>) -> Result<Entry, Cause>
    ensures line { result_map entry_parts result
        ≡ next_line (item_in (entry_in version) (λ x. x.id) (option_map id_parts last)) lines.old }
    ensures fits { IfOk result FitsClass }
    ensures after { IfOk result (λ entry. ComesAfter last entry.id) }
    ensures text { IfOk result (λ _. lines.new.text.now ≡ lines.old.text.now) }
    ensures passed { IfOk result (λ _. lines.new.at ≡ lines.old.at + 1) }
{
    let entry = parse_entry(version, lines.next_line()?)?;
    in_order(last, entry.id)?;
    Ok(entry)
}

fn pair_at(
    lines: &mut Lines,
    version: Version,
    last: Option<SpanId>,
) -> Result<(SpanId, SpanId), Cause>
    ensures line { result_map pair_parts result
        ≡ next_line (item_in (pair_in version) (λ p. p.0) (option_map id_parts last)) lines.old }
    ensures after { IfOk result (λ pair. ComesAfter last pair.0) }
    ensures text { IfOk result (λ _. lines.new.text.now ≡ lines.old.text.now) }
    ensures passed { IfOk result (λ _. lines.new.at ≡ lines.old.at + 1) }
{
    let pair = parse_pair(version, lines.next_line()?)?;
    in_order(last, pair.0)?;
    Ok(pair)
}

fn id_at(lines: &mut Lines, version: Version, last: Option<SpanId>) -> Result<SpanId, Cause>
    ensures line { result_map id_parts result
        ≡ next_line (item_in (id_in version) (λ id. id) (option_map id_parts last)) lines.old }
    ensures after { IfOk result (λ id. ComesAfter last id) }
    ensures text { IfOk result (λ _. lines.new.text.now ≡ lines.old.text.now) }
    ensures passed { IfOk result (λ _. lines.new.at ≡ lines.old.at + 1) }
{
    let id = parse_id(version, lines.next_line()?)?;
    in_order(last, id)?;
    Ok(id)
}

/// The groups of a side.
pub(super) fn read_entries(
    alloc: Global,
    lines: &mut Lines,
    version: Version,
    title: &[u8],
) -> Result<Vec<Entry>, ReadError>
    requires { lines.old.at ≤ 16384 }
    ensures read { Reads (λ entries. map entry_parts entries.items) result
        (next_list title.now (entry_in version) (λ x. x.id) lines.old) }
    ensures fit { IfOk result (λ entries. All FitsClass entries.items) }
    ensures at_most { IfOk result (λ entries. length entries.items ≤ MOST_GROUPS) }
    ensures ascending { IfOk result (λ entries. IsAscending (ids entries.items)) }
    ensures text { IfOk result (λ _. lines.new.text.now ≡ lines.old.text.now) }
    ensures passed { IfOk result (λ entries. lines.new.at
        ≡ lines.old.at + 1 + length entries.items) }
{
    let count = read_count(lines, title)?;
    let mut entries = Vec::new(alloc);
    let mut last = None;
    for _k in 0..count {
        let line = lines.next_number();
        let entry = match entry_at(lines, version, last) {
            Ok(entry) => entry,
            Err(cause) => return Err(ReadError::BadCertificate { line, cause }),
        };
        last = Some(entry.id);
        entries.push(entry)?;
    }
    Ok(entries)
}

/// The folds.
pub(super) fn read_folds(
    alloc: Global,
    lines: &mut Lines,
    version: Version,
) -> Result<Vec<(SpanId, SpanId)>, ReadError>
    requires { lines.old.at ≤ 16384 }
    ensures read { Reads (λ pairs. map pair_parts pairs.items) result
        (next_list (codes "folds") (pair_in version) (λ p. p.0) lines.old) }
    ensures at_most { IfOk result (λ pairs. length pairs.items ≤ MOST_GROUPS) }
    ensures ascending { IfOk result (λ pairs. IsAscending (map (λ p. p.0) pairs.items)) }
    ensures text { IfOk result (λ _. lines.new.text.now ≡ lines.old.text.now) }
    ensures passed { IfOk result (λ pairs. lines.new.at ≡ lines.old.at + 1 + length pairs.items) }
{
    let count = read_count(lines, b"folds")?;
    let mut pairs = Vec::new(alloc);
    let mut last = None;
    for _k in 0..count {
        let line = lines.next_number();
        let pair = match pair_at(lines, version, last) {
            Ok(pair) => pair,
            Err(cause) => return Err(ReadError::BadCertificate { line, cause }),
        };
        last = Some(pair.0);
        pairs.push(pair)?;
    }
    Ok(pairs)
}

/// The short set.
pub(super) fn read_short(
    alloc: Global,
    lines: &mut Lines,
    version: Version,
) -> Result<Vec<SpanId>, ReadError>
    requires { lines.old.at ≤ 16384 }
    ensures read { Reads (λ short. map id_parts short.items) result
        (next_list (codes "short") (id_in version) (λ id. id) lines.old) }
    ensures at_most { IfOk result (λ short. length short.items ≤ MOST_GROUPS) }
    ensures ascending { IfOk result (λ short. IsAscending short.items) }
    ensures text { IfOk result (λ _. lines.new.text.now ≡ lines.old.text.now) }
    ensures passed { IfOk result (λ short. lines.new.at ≡ lines.old.at + 1 + length short.items) }
{
    let count = read_count(lines, b"short")?;
    let mut short = Vec::new(alloc);
    let mut last = None;
    for _k in 0..count {
        let line = lines.next_number();
        let id = match id_at(lines, version, last) {
            Ok(id) => id,
            Err(cause) => return Err(ReadError::BadCertificate { line, cause }),
        };
        last = Some(id);
        short.push(id)?;
    }
    Ok(short)
}
