//! A small graph, and graphs at their limits. Where an allocation is refused, what was refused is
//! asked again.
ghost use Rattle.std.specs.Prelude.{◌≤◌};

use bitmap::Bits256;
use mesh_graph::{AtHand, BuildError, ByThreads, Entry, Graph, Snapshot};
use span::names::{CLASSES, Class, SpanId};
use std::alloc::Global;
use std::thread::Threads;

// The group of the id `shard.serial` with these slots.
fn entry(shard: u32, serial: u32, class: Class, slots: &[u8]) -> Option<Entry> {
    let id = SpanId::new(shard, serial)?;
    let mut occupied = Bits256::empty();
    for slot in slots {
        occupied.insert(*slot);
    }
    Some(Entry {
        id,
        class,
        occupied,
    })
}

// A list of these groups. Where the first allocation was refused, it is made the second time.
fn list(alloc: Global, groups: &[Entry]) -> Option<Vec<Entry>> {
    match Vec::from_slice(alloc, groups) {
        Err(_) => Vec::from_slice(alloc, groups).ok(),
        list => list.ok(),
    }
}

// Builds. Where memory was refused, that is the answer, and the same call builds the second time.
fn build_again(alloc: Global, snapshot: &Snapshot, pieces: usize) -> Result<Graph, BuildError>
    requires { 1 ≤ pieces }
{
    match Graph::build(&AtHand, alloc, snapshot, pieces) {
        Err(BuildError::OutOfMemory) => Graph::build(&AtHand, alloc, snapshot, pieces),
        answer => answer,
    }
}

// Builds by threads, however few groups there are: from two on.
fn build_by_threads<'a, R: Threads + Sync>(
    rt: &R,
    alloc: Global,
    snapshot: &'a Snapshot,
    pieces: usize,
) -> Result<Graph<'a>, BuildError>
    requires { 1 ≤ pieces }
{
    let runner = ByThreads::from_steps(rt, 0);
    match Graph::build(&runner, alloc, snapshot, pieces) {
        Err(BuildError::OutOfMemory) => Graph::build(&runner, alloc, snapshot, pieces),
        answer => answer,
    }
}

// Groups that fit and groups that clash. The abandoned ones are of the first class, and the last
// owned one of the second.
fn small(alloc: Global, class: Class, last: Class) -> Option<Snapshot> {
    let abandoned = [entry(0, 1, class, &[1])?, entry(0, 0, class, &[0])?];
    let owned = [
        entry(4, 0, last, &[])?,
        entry(3, 1, class, &[0])?,
        entry(3, 0, class, &[1])?,
    ];
    Snapshot::new(list(alloc, &abandoned)?, list(alloc, &owned)?).ok()
}

// The first word of a row, and its first partner from place 1 on.
fn word_and_partner(graph: &Graph, i: usize) -> Option<(u64, Option<usize>)> {
    if i >= graph.abandoned() {
        return None;
    }
    let row = graph.row(i);
    Some((*row.first()?, graph.next_partner_among(i, 1, row)))
}

fn words_and_partners(
    alloc: Global,
    pieces: usize,
    last: Class,
) -> Option<[Option<(u64, Option<usize>)>; 2]>
    requires { 1 ≤ pieces }
{
    let snapshot = small(alloc, Class::C64, last)?;
    let graph = build_again(alloc, &snapshot, pieces).ok()?;
    Some([word_and_partner(&graph, 0), word_and_partner(&graph, 1)])
}

#[test]
fn a_row_has_a_bit_for_each_partner(rt: HostRuntime) {
    for pieces in 1..4 {
        assert_eq!(rt;
            words_and_partners(rt.alloc(), pieces, Class::C64),
            Some([Some((0b101, Some(2))), Some((0b110, Some(1)))])
        );
    }
}

#[test]
fn a_row_has_no_bit_between_two_classes(rt: HostRuntime) {
    for other in [Class::C16, Class::C48, Class::C80, Class::C256] {
        assert_eq!(rt;
            words_and_partners(rt.alloc(), 1, other),
            Some([Some((0b001, None)), Some((0b010, Some(1)))])
        );
    }
}

// As many groups without slots.
fn empty_groups(alloc: Global, count: u32) -> Option<Vec<Entry>> {
    let mut groups = Vec::new(alloc);
    for k in 0..count {
        groups
            .push(entry(k / 1024, k % 1024, Class::C16, &[])?)
            .ok()?;
    }
    Some(groups)
}

fn empty_groups_again(alloc: Global, count: u32) -> Option<Vec<Entry>> {
    match empty_groups(alloc, count) {
        None => empty_groups(alloc, count),
        groups => groups,
    }
}

// How many groups of the pool a graph of so many on each side has, or why there is none.
fn built(alloc: Global, abandoned: u32, owned: u32) -> Option<Result<usize, BuildError>> {
    let abandoned = empty_groups_again(alloc, abandoned)?;
    let owned = empty_groups_again(alloc, owned)?;
    let snapshot = Snapshot::new(abandoned, owned).ok()?;
    let rows = match build_again(alloc, &snapshot, 1) {
        Ok(graph) => Ok(graph.abandoned()),
        Err(error) => Err(error),
    };
    Some(rows)
}

#[test]
fn a_side_has_at_most_4096_groups(rt: HostRuntime) {
    assert_eq!(rt;
        (built(rt.alloc(), 4096, 4096), built(rt.alloc(), 0, 4097)),
        (Some(Ok(4096)), Some(Err(BuildError::TooMany)))
    );
}

// The slot of the number, by as many as the class has.
fn slot_in(class: Class, number: u32) -> u8 {
    (number % u32::from(class.slots()).max(1)) as u8
}

// A side of so many groups, which are of so many classes in turn. Group k has the slots
// k % 13 + 16 * seed, k * k and k / 3, by as many as its class has.
fn side(alloc: Global, shard: u32, count: u32, seed: u32, classes: usize) -> Option<Vec<Entry>> {
    let mut groups = Vec::new(alloc);
    for k in 0..count.min(1024) {
        let class = Class::of_words(k as usize % classes.max(1) + 1)?;
        let slots = [
            slot_in(class, k % 13 + seed % 8 * 16),
            slot_in(class, k * k),
            slot_in(class, k / 3),
        ];
        groups.push(entry(shard, k, class, &slots)?).ok()?;
    }
    Some(groups)
}

fn side_again(
    alloc: Global,
    shard: u32,
    count: u32,
    seed: u32,
    classes: usize,
) -> Option<Vec<Entry>> {
    match side(alloc, shard, count, seed, classes) {
        None => side(alloc, shard, count, seed, classes),
        groups => groups,
    }
}

// Whether the bits of the row are those of pairwise tests.
fn is_pairwise(snapshot: &Snapshot, row: &[u64], group: &Entry) -> bool {
    let mut bits = 0usize;
    for (j, owned) in snapshot.owned().iter().enumerate() {
        let Some(word) = row.get(j / 64) else {
            return false;
        };
        let bit = (*word >> (j % 64)) & 1 == 1;
        if bit != group.is_compatible(owned) {
            return false;
        }
        bits = bits.saturating_add(usize::from(bit));
    }
    bits == count_of(row)
}

// How many bits of the row are set.
fn count_of(row: &[u64]) -> usize {
    let mut bits = 0usize;
    for word in row {
        bits = bits.saturating_add(word.count_ones() as usize);
    }
    bits
}

// Whether both graphs of the snapshot have the same rows, which pairwise tests give.
fn have_same_rows(snapshot: &Snapshot, one: &Graph, other: &Graph) -> bool {
    for (i, group) in snapshot.abandoned().iter().enumerate() {
        if i >= one.abandoned() || i >= other.abandoned() {
            return false;
        }
        if one.row(i) != other.row(i) || !is_pairwise(snapshot, one.row(i), group) {
            return false;
        }
    }
    one.abandoned() == other.abandoned()
}

// Whether the rows that threads fill in pieces, of so many groups a side, are those of one piece,
// and of pairwise tests.
fn are_of_one_piece<R: Threads + Sync>(
    rt: &R,
    alloc: Global,
    count: u32,
    pieces: usize,
    classes: usize,
) -> Option<bool>
    requires { 1 ≤ pieces }
{
    let abandoned = side_again(alloc, 0, count, 1, classes)?;
    let owned = side_again(alloc, 1, count, 2, classes)?;
    let snapshot = Snapshot::new(abandoned, owned).ok()?;
    let one = build_again(alloc, &snapshot, 1).ok()?;
    let other = build_by_threads(rt, alloc, &snapshot, pieces).ok()?;
    Some(have_same_rows(&snapshot, &one, &other))
}

#[test]
fn rows_are_those_of_one_piece(rt: HostRuntime) {
    for count in [0, 1, 63] {
        for pieces in [1, 2, 3, 7, 64] {
            for classes in [1, 3, CLASSES] {
                assert_eq!(rt;
                    are_of_one_piece(&rt, rt.alloc(), count, pieces, classes),
                    Some(true)
                );
            }
        }
    }
}

#[test]
fn rows_are_those_of_one_piece_in_full(rt: HostRuntime) {
    for count in [64, 65, 300] {
        for pieces in [1, 2, 3, 7, 64] {
            for classes in [1, 3, CLASSES] {
                assert_eq!(rt;
                    are_of_one_piece(&rt, rt.alloc(), count, pieces, classes),
                    Some(true)
                );
            }
        }
    }
}
