// The partners of a short set: found by the rows of its members' slots, class by class, and counted
// by tests of two sets for the checker.
ghost use Rattle.std.specs.Prelude.{◌≡◌, ◌==◌, ◌<◌, ◌≤◌, ◌+◌, ◌*◌, ◌^◌, ◌∷◌, [], ◌++◌, ℕ, List, None, length, map, not, slice_index, slice_index_or, IfOk, OnOk};
ghost use Rattle.bitmap.specs.Slots.{has_bit};
ghost use Rattle.std.specs.List.{count_by, filter, flat_map, list_any};
ghost use Rattle.lane_kernels.specs.Rows.{row_at, width_of as row_words};
ghost use Rattle.mesh_graph.specs.Groups.{IsAscending, ids};
ghost use Rattle.mesh_graph.specs.Rows.{HaveRows};
ghost use Rattle.mesh_graph.specs.declared.build.TheConstants.{MOST_GROUPS};
ghost use Rattle.span.specs.Entries.{are_compatible};
ghost use Rattle.span.specs.declared.class.TheConstants.{CLASSES};
ghost use Rattle.span.specs.declared.entry.Entry.{Entry};
ghost use Rattle.span.specs.declared.id.SpanId.{SpanId};
ghost use Rattle.certificate.specs.Chosen.{AreMembers, GainPlaceIf, GainPlaces, HasFitting, fits_among, fits_any, fits_some, groups_with, is_of_class, members_in, sets_of};
ghost use Rattle.certificate.specs.Plans.{partners_of};

use crate::place_set::PlaceSet;
use crate::plan::Short;
use lane_kernels::{Planes, SlotRows};
use mesh_graph::{Entry, MOST_GROUPS, Runner, Snapshot, place_of, sets_by_slots, steps_over};
use span::names::{CLASSES, SpanId};
use std::alloc::{AllocError, Global};

/// The owned groups that are compatible with some abandoned group of the short set, by ascending
/// ids. An id that no abandoned group has gives none. The error means that memory ran out.
///
/// It looks at up to 4,096 owned groups at a time. The runner fills their rows, in so many `pieces`
/// at most: a group's row has a bit for each member of its class. The answer does not depend on the
/// runner.
pub fn partners<R: Runner>(
    runner: &R,
    alloc: Global,
    snapshot: &Snapshot,
    short: &Short,
    pieces: usize,
) -> Result<Vec<SpanId>, AllocError>
    requires pieces { 1 ≤ pieces }
    requires ready { R.ready runner.now }
    ensures { IfOk result (λ found. found.items ≡ partners_of snapshot.now short.now) }
{
    let chosen = short.ids();
    let asked = snapshot.owned().len();
    let pieces = pieces_of(runner, snapshot, short, pieces);
    let members = Members::of(runner, alloc, snapshot.abandoned(), chosen, asked, pieces)?;
    let found = partners_among(runner, alloc, &members, snapshot.owned(), pieces)?;
    Ok(found)
}

/// In how many pieces the runner fills the rows of the owned groups over the members of a short
/// set.
fn pieces_of<R: Runner>(runner: &R, snapshot: &Snapshot, short: &Short, pieces: usize) -> usize
    requires { 1 ≤ pieces }
    ensures { 1 ≤ result }
{
    let steps = steps_over(snapshot.owned(), short.ids().len());
    runner.pieces(steps, pieces)
}

/// How many partners the abandoned groups with these ids have. It tests two sets at a time and
/// takes no memory, and the checker counts by it, so that nobody who believes a verdict has to
/// believe rows.
pub fn partner_count(snapshot: &Snapshot, short: &[SpanId]) -> usize
    ensures count { result ≡ length (partners_of snapshot.now short.now) }
    ensures in_range { result < 2 ^ 63 }
{
    count_among(snapshot.abandoned(), short, snapshot.owned())
}

/// The sets of chosen groups by class, as rows: those of a class stand at its number.
#[derive(Drop)]
struct Members {
    by_class: Vec<SlotRows>,
}

impl Members {
    /// The sets of the groups with these ids, of which at most so many rows will be asked for.
    fn of<R: Runner>(
        runner: &R,
        alloc: Global,
        abandoned: &[Entry],
        chosen: &[SpanId],
        asked: usize,
        pieces: usize,
    ) -> Result<Members, AllocError>
        requires ascending { IsAscending (ids abandoned.now) }
        requires pieces { 1 ≤ pieces }
        requires ready { R.ready runner.now }
        ensures { IfOk result (AreMembers abandoned.now chosen.now) }
    {
        let groups = chosen_groups(alloc, abandoned, chosen)?;
        let mut by_class = Vec::new(alloc);
        for number in 0..CLASSES {
            by_class.push(rows_of(runner, alloc, &groups, number, asked, pieces)?)?;
        }
        Ok(Members { by_class })
    }
}

/// The groups with these ids, in the order of the ids.
fn chosen_groups(
    alloc: Global,
    abandoned: &[Entry],
    chosen: &[SpanId],
) -> Result<Vec<Entry>, AllocError>
    requires { IsAscending (ids abandoned.now) }
    ensures { IfOk result (λ groups. groups.items
        ≡ flat_map (groups_with abandoned.now) chosen.now) }
{
    let mut groups = Vec::new(alloc);
    for id in chosen {
        push_group(&mut groups, abandoned, *id)?;
    }
    Ok(groups)
}

/// Adds the group with the id, if there is one.
fn push_group(groups: &mut Vec<Entry>, abandoned: &[Entry], id: SpanId) -> Result<(), AllocError>
    requires { IsAscending (ids abandoned.now) }
    ensures { IfOk result (λ _. groups.new.items
        ≡ groups.old.items ++ groups_with abandoned.now id) }
{
    let Some(place) = place_of(abandoned, id) else {
        return Ok(());
    };
    groups.push(abandoned[place])?;
    Ok(())
}

/// The sets of the groups of the class with the number, as rows.
fn rows_of<R: Runner>(
    runner: &R,
    alloc: Global,
    groups: &[Entry],
    number: usize,
    asked: usize,
    pieces: usize,
) -> Result<SlotRows, AllocError>
    requires pieces { 1 ≤ pieces }
    requires ready { R.ready runner.now }
    ensures { IfOk result (λ rows. rows ≡ sets_of number groups.now) }
{
    let planes = planes_of(alloc, groups, number)?;
    sets_by_slots(runner, alloc, planes, asked, pieces)
}

/// The sets of the groups of the class with the number.
fn planes_of(alloc: Global, groups: &[Entry], number: usize) -> Result<Planes, AllocError>
    ensures { IfOk result (λ planes. planes ≡ sets_of number groups.now) }
{
    let mut planes = Planes::new(alloc);
    for entry in groups {
        if is_of(entry, number) {
            planes.push(&entry.occupied)?;
        }
    }
    Ok(planes)
}

/// Whether the group is of the class with the number.
fn is_of(entry: &Entry, number: usize) -> bool
    ensures { result ≡ is_of_class number entry.now }
{
    entry.class.number() == number
}

/// The ids of the owned groups that share no slot with some member of their class. It looks at so
/// many at a time as a set has places.
fn partners_among<R: Runner>(
    runner: &R,
    alloc: Global,
    members: &Members,
    owned: &[Entry],
    pieces: usize,
) -> Result<Vec<SpanId>, AllocError>
    requires pieces { 1 ≤ pieces }
    requires ready { R.ready runner.now }
    ensures { IfOk result (λ found. found.items
        ≡ map (λ y. y.id) (filter (fits_some members.now) owned.now)) }
{
    let mut found = Vec::new(alloc);
    let mut rest = owned;
    while rest.len() > MOST_GROUPS {
        let (first, others) = rest.split_at(MOST_GROUPS);
        push_partners(runner, alloc, members, first, pieces, &mut found)?;
        rest = others;
    }
    push_partners(runner, alloc, members, rest, pieces, &mut found)?;
    Ok(found)
}

/// Appends the ids of those of the owned groups that share no slot with some member of their class.
fn push_partners<R: Runner>(
    runner: &R,
    alloc: Global,
    members: &Members,
    owned: &[Entry],
    pieces: usize,
    found: &mut Vec<SpanId>,
) -> Result<(), AllocError>
    requires pieces { 1 ≤ pieces }
    requires ready { R.ready runner.now }
    requires few { length owned.now ≤ MOST_GROUPS }
    ensures { OnOk result (found.new.items ≡ found.old.items
        ++ map (λ y. y.id) (filter (fits_some members.now) owned.now)) }
{
    let fitting = fitting_among(runner, alloc, members, owned, pieces)?;
    for place in 0..owned.len() {
        if fitting.contains(place) {
            found.push(owned[place].id)?;
        }
    }
    Ok(())
}

/// The places of the owned groups that share no slot with some member of their class.
fn fitting_among<R: Runner>(
    runner: &R,
    alloc: Global,
    members: &Members,
    owned: &[Entry],
    pieces: usize,
) -> Result<PlaceSet, AllocError>
    requires pieces { 1 ≤ pieces }
    requires ready { R.ready runner.now }
    requires few { length owned.now ≤ MOST_GROUPS }
    ensures { IfOk result (λ fitting. (place : ℕ) (d : Entry) → place < length owned.now
        → has_bit fitting.words place ≡ fits_some members.now (slice_index_or owned.now place d)) }
{
    let mut fitting = PlaceSet::empty();
    for number in 0..members.by_class.len() {
        add_class(runner, alloc, members, number, owned, pieces, &mut fitting)?;
    }
    Ok(fitting)
}

/// Puts in the places of the owned groups of the class with the number that share no slot with some
/// member of it.
fn add_class<R: Runner>(
    runner: &R,
    alloc: Global,
    members: &Members,
    number: usize,
    owned: &[Entry],
    pieces: usize,
    fitting: &mut PlaceSet,
) -> Result<(), AllocError>
    requires number { number < length members.now.by_class.items }
    requires pieces { 1 ≤ pieces }
    requires ready { R.ready runner.now }
    requires few { length owned.now ≤ MOST_GROUPS }
    ensures { OnOk result (GainPlaces (fits_among number (members_in members.now number))
        owned.now fitting.old.words fitting.new.words) }
{
    let sets = &members.by_class[number];
    if sets.len() == 0 {
        return Ok(());
    }
    let own = of_class(alloc, owned, number)?;
    let rows = rows_over(runner, alloc, sets, &own, pieces)?;
    add_places(fitting, &rows, sets, number, owned);
    Ok(())
}

/// The groups of the class with the number.
fn of_class(alloc: Global, groups: &[Entry], number: usize) -> Result<Vec<Entry>, AllocError>
    ensures { IfOk result (λ own. own.items ≡ filter (is_of_class number) groups.now) }
{
    let mut own = Vec::new(alloc);
    for entry in groups {
        if is_of(entry, number) {
            own.push(*entry)?;
        }
    }
    Ok(own)
}

/// The rows of the groups over the sets, one after another: bit j of a row says that set j shares
/// no slot with the group's.
fn rows_over<R: Runner>(
    runner: &R,
    alloc: Global,
    sets: &SlotRows,
    groups: &[Entry],
    pieces: usize,
) -> Result<Vec<u64>, AllocError>
    requires pieces { 1 ≤ pieces }
    requires ready { R.ready runner.now }
    ensures { IfOk result (λ rows. HaveRows groups.now sets.now None (length groups.now)
        rows.items) }
{
    let mut rows = empty_rows(alloc, sets, groups.len())?;
    runner.fill(groups, sets, &None, pieces, &mut rows);
    Ok(rows)
}

/// Room for the rows of so many groups, without a bit.
fn empty_rows(alloc: Global, sets: &SlotRows, groups: usize) -> Result<Vec<u64>, AllocError>
    ensures { IfOk result (λ rows. length rows.items ≡ row_words (length sets.now) * groups) }
{
    // If there are more words than a number counts, there is no memory for them either.
    let Some(words) = sets.row_words().checked_mul(groups) else {
        return Err(AllocError);
    };
    vec![in alloc; 0; words]
}

/// Puts in the places of the owned groups of the class with the number whose row has a bit. Only
/// groups of the class have a row.
fn add_places(fitting: &mut PlaceSet, rows: &[u64], sets: &SlotRows, number: usize, owned: &[Entry])
    requires few { length owned.now ≤ MOST_GROUPS }
    requires rows { HaveRows (filter (is_of_class number) owned.now) sets.now None
        (length (filter (is_of_class number) owned.now)) rows.now }
    ensures { GainPlaces (fits_among number sets.now) owned.now
        fitting.old.words fitting.new.words }
{
    let words = sets.row_words();
    let mut row = 0;
    for place in 0..owned.len() {
        if is_of(&owned[place], number) {
            add_by_row(fitting, place, rows, words, row);
            row += 1;
        }
    }
}

/// Puts the place in, if the row has a bit.
fn add_by_row(fitting: &mut PlaceSet, place: usize, rows: &[u64], words: usize, row: usize)
    requires place { place < MOST_GROUPS }
    requires within { words * row + words ≤ length rows.now }
    ensures bits { GainPlaceIf (list_any (λ word. not (word == 0)) (row_at words rows.now row))
        place fitting.old.words fitting.new.words }
    ensures words { (k : ℕ) → slice_index (row_at words rows.now row) k < 2 ^ 64 }
{
    let start = words * row;
    if has_any_bit(&rows[start..start + words]) {
        fitting.insert(place);
    }
}

/// Whether a bit is set.
fn has_any_bit(row: &[u64]) -> bool
    ensures any { result ≡ list_any (λ word. not (word == 0)) row.now }
    ensures words { (k : ℕ) → slice_index row.now k < 2 ^ 64 }
{
    row.iter().any(|word| *word != 0)
}

/// How many of the owned groups are compatible with some abandoned group of these ids. It looks at
/// so many at a time as a set has places.
fn count_among(abandoned: &[Entry], chosen: &[SpanId], owned: &[Entry]) -> usize
    requires { IsAscending (ids abandoned.now) }
    ensures count { result ≡ count_by (λ y. fits_any abandoned.now chosen.now y) owned.now }
    ensures at_most { result ≤ length owned.now }
{
    let mut count = 0;
    let mut rest = owned;
    while rest.len() > MOST_GROUPS {
        let (first, others) = rest.split_at(MOST_GROUPS);
        count += count_few(abandoned, chosen, first);
        rest = others;
    }
    count + count_few(abandoned, chosen, rest)
}

/// The same of owned groups that have their places in one set.
fn count_few(abandoned: &[Entry], chosen: &[SpanId], owned: &[Entry]) -> usize
    requires ascending { IsAscending (ids abandoned.now) }
    requires few { length owned.now ≤ MOST_GROUPS }
    ensures count { result ≡ count_by (λ y. fits_any abandoned.now chosen.now y) owned.now }
    ensures at_most { result ≤ length owned.now }
{
    let mut fitting = PlaceSet::empty();
    for id in chosen {
        add_fitting(&mut fitting, abandoned, *id, owned);
    }
    fitting.count_below(owned.len())
}

/// Puts in the places of the owned groups that are compatible with the abandoned group with the id,
/// if there is one.
fn add_fitting(fitting: &mut PlaceSet, abandoned: &[Entry], id: SpanId, owned: &[Entry])
    requires ascending { IsAscending (ids abandoned.now) }
    requires few { length owned.now ≤ MOST_GROUPS }
    ensures { (before : List SpanId) → HasFitting abandoned.now before owned.now fitting.old.words
        → HasFitting abandoned.now (before ++ id ∷ []) owned.now fitting.new.words }
{
    if let Some(place) = place_of(abandoned, id) {
        add_partners(fitting, &abandoned[place], owned);
    }
}

/// Puts in the places of the owned groups that are compatible with this one.
fn add_partners(fitting: &mut PlaceSet, abandoned: &Entry, owned: &[Entry])
    requires { length owned.now ≤ MOST_GROUPS }
    ensures { GainPlaces (are_compatible abandoned.now) owned.now
        fitting.old.words fitting.new.words }
{
    for place in 0..owned.len() {
        add_partner(fitting, place, abandoned, &owned[place]);
    }
}

/// Puts the place in, where the groups are compatible. Where it is in, they are not tested.
fn add_partner(fitting: &mut PlaceSet, place: usize, abandoned: &Entry, owned: &Entry)
    requires { place < MOST_GROUPS }
    ensures { GainPlaceIf (are_compatible abandoned.now owned.now) place
        fitting.old.words fitting.new.words }
{
    if fitting.contains(place) {
        return;
    }
    if abandoned.is_compatible(owned) {
        fitting.insert(place);
    }
}
