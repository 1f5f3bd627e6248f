//! Rows of three sets, worked out by hand, and of up to 130 and some 1,000, beside plain tests, by
//! planes and by slots; counts and unions. Where an allocation is refused, what was refused is
//! asked again.
ghost use Rattle.std.specs.Prelude.{◌≡◌, length, IfSome};

use bitmap::Bits256;
use lane_kernels::{LEAST_BY_SLOTS, Planes, SlotRows};
use std::alloc::Global;

fn set_of(slots: &[u8]) -> Bits256 {
    let mut set = Bits256::empty();
    for slot in slots {
        set.insert(*slot);
    }
    set
}

// Set j has slot j % 7 and slot 250 - j % 251.
fn spread(j: u32) -> Bits256 {
    set_of(&[(j % 7) as u8, (250 - j % 251) as u8])
}

fn push_again(planes: &mut Planes, set: &Bits256) -> Option<()> {
    match planes.push(set) {
        Err(_) => planes.push(set).ok(),
        pushed => pushed.ok(),
    }
}

// The sets {0}, {1} and {0, 255}.
fn three(alloc: Global) -> Option<Planes> {
    let mut planes = Planes::new(alloc);
    push_again(&mut planes, &set_of(&[0]))?;
    push_again(&mut planes, &set_of(&[1]))?;
    push_again(&mut planes, &set_of(&[0, 255]))?;
    Some(planes)
}

fn many(alloc: Global, count: u32) -> Option<Planes> {
    let mut planes = Planes::new(alloc);
    for j in 0..count {
        push_again(&mut planes, &spread(j))?;
    }
    Some(planes)
}

fn three_by_slots(alloc: Global) -> Option<SlotRows> {
    match SlotRows::of(alloc, three(alloc)?, LEAST_BY_SLOTS) {
        Err(_) => SlotRows::of(alloc, three(alloc)?, LEAST_BY_SLOTS).ok(),
        rows => rows.ok(),
    }
}

fn many_by_slots(alloc: Global, count: u32, asked: usize) -> Option<SlotRows> {
    match SlotRows::of(alloc, many(alloc, count)?, asked) {
        Err(_) => SlotRows::of(alloc, many(alloc, count)?, asked).ok(),
        rows => rows.ok(),
    }
}

// Words in which bits are set, so that a row that is left as it was is seen.
fn words(alloc: Global, count: usize) -> Option<Vec<u64>>
    ensures { IfSome result (λ words. length words.items ≡ count) }
{
    match vec![in alloc; 0x5555_5555_5555_5555u64; count] {
        Err(_) => vec![in alloc; 0x5555_5555_5555_5555u64; count].ok(),
        words => words.ok(),
    }
}

fn row_by_planes(alloc: Global, planes: &Planes, given: &Bits256) -> Option<Vec<u64>> {
    let mut row = words(alloc, planes.row_words())?;
    planes.disjoint_row(given, &mut row);
    Some(row)
}

fn row_by_slots(alloc: Global, rows: &SlotRows, given: &Bits256) -> Option<Vec<u64>> {
    let mut row = words(alloc, rows.row_words())?;
    rows.disjoint_row(given, &mut row);
    Some(row)
}

// The row of the three sets, by planes and by slots.
fn rows_of_three(alloc: Global, slots: &[u8]) -> Option<(u64, u64)> {
    let given = set_of(slots);
    let by_planes = row_by_planes(alloc, &three(alloc)?, &given)?;
    let rows = three_by_slots(alloc)?;
    let by_slots = row_by_slots(alloc, &rows, &given)?;
    Some((*by_planes.first()?, *by_slots.first()?))
}

#[test]
fn three_sets_by_hand(rt: HostRuntime) {
    let alloc = rt.alloc();
    assert_eq!(rt;
        (
            rows_of_three(alloc, &[0]),
            rows_of_three(alloc, &[5]),
            rows_of_three(alloc, &[]),
            rows_of_three(alloc, &[0, 1])
        ),
        (
            Some((0b010, 0b010)),
            Some((0b111, 0b111)),
            Some((0b111, 0b111)),
            Some((0, 0))
        )
    );
}

// How many slots each of the three has, and the slots that some has.
fn counted(alloc: Global) -> Option<([u32; 3], Bits256)> {
    let planes = three(alloc)?;
    let mut counts = [9u32; 3];
    if planes.len() != 3 {
        return None;
    }
    planes.count_all(&mut counts);
    Some((counts, planes.union_all()))
}

#[test]
fn counts_and_the_union(rt: HostRuntime) {
    assert_eq!(rt;
        counted(rt.alloc()),
        Some(([1, 1, 2], set_of(&[0, 1, 255])))
    );
}

fn all_slots() -> Bits256 {
    let mut set = Bits256::empty();
    for slot in 0..=255 {
        set.insert(slot);
    }
    set
}

fn empty_sets(alloc: Global, count: u32) -> Option<Planes> {
    let mut planes = Planes::new(alloc);
    for _ in 0..count {
        push_again(&mut planes, &Bits256::empty())?;
    }
    Some(planes)
}

// Both words of the row of 65 empty sets for the full one, where all bits of the words were set
// before.
fn of_empty_sets(alloc: Global) -> Option<[u64; 2]> {
    let mut row = [u64::MAX; 2];
    let planes = empty_sets(alloc, 65)?;
    if planes.len() != 65 {
        return None;
    }
    planes.disjoint_row(&all_slots(), &mut row);
    Some(row)
}

// How many words the row of no set has, and the slots that some set has.
fn of_no_set(alloc: Global) -> Option<(usize, Bits256)> {
    let planes = Planes::new(alloc);
    let row = row_by_planes(alloc, &planes, &all_slots())?;
    Some((row.len(), planes.union_all()))
}

#[test]
fn empty_sets_and_no_set(rt: HostRuntime) {
    assert_eq!(rt;
        (of_empty_sets(rt.alloc()), of_no_set(rt.alloc())),
        (Some([u64::MAX, 1]), Some((0, Bits256::empty())))
    );
}

// The bits of 64 sets from the first on, of as many as there are, by plain tests.
fn plain_word(first: u32, count: u32, given: &Bits256) -> u64 {
    let mut word = 0;
    for bit in 0..64u32 {
        let j = first.saturating_add(bit);
        if j < count && spread(j).is_disjoint(given) {
            word |= 1 << bit;
        }
    }
    word
}

fn is_plain_row(row: &[u64], count: u32, given: &Bits256) -> bool {
    let mut first = 0u32;
    for word in row {
        if *word != plain_word(first, count, given) {
            return false;
        }
        first = first.saturating_add(64);
    }
    first >= count
}

// Whether the rows of so many sets are the plain one: by planes, by slots, and where too few are
// asked for to lay out slots.
fn are_plain(alloc: Global, count: u32) -> Option<(bool, bool, bool)> {
    let given = set_of(&[3, 200]);
    let by_planes = row_by_planes(alloc, &many(alloc, count)?, &given)?;
    let laid_out = many_by_slots(alloc, count, LEAST_BY_SLOTS)?;
    let by_slots = row_by_slots(alloc, &laid_out, &given)?;
    let of_few = row_by_slots(alloc, &many_by_slots(alloc, count, 1)?, &given)?;
    Some((
        is_plain_row(&by_planes, count, &given),
        is_plain_row(&by_slots, count, &given),
        is_plain_row(&of_few, count, &given),
    ))
}

#[test]
fn every_number_of_sets(rt: HostRuntime) {
    for count in 0..=16 {
        assert_eq!(rt; are_plain(rt.alloc(), count), Some((true, true, true)));
    }
}

#[test]
fn every_number_of_sets_in_full(rt: HostRuntime) {
    for count in 17..=130 {
        assert_eq!(rt; are_plain(rt.alloc(), count), Some((true, true, true)));
    }
}

// Rows by slots go by blocks of 1,024 sets.
#[test]
fn numbers_about_a_block(rt: HostRuntime) {
    for count in [1023, 1024, 1025, 1089] {
        assert_eq!(rt; are_plain(rt.alloc(), count), Some((true, true, true)));
    }
}

// The slots of all sets, and those that some set has, by plain calls.
fn plain_totals(count: u32) -> (u64, Bits256) {
    let mut sum = 0u64;
    let mut all = Bits256::empty();
    for j in 0..count {
        let set = spread(j);
        sum = sum.saturating_add(u64::from(set.count()));
        all = all.union(&set);
    }
    (sum, all)
}

fn counts_again(alloc: Global, planes: &Planes) -> Option<Vec<u32>>
    ensures { IfSome result (λ counts. length counts.items ≡ length planes.now) }
{
    match vec![in alloc; 9u32; planes.len()] {
        Err(_) => vec![in alloc; 9u32; planes.len()].ok(),
        counts => counts.ok(),
    }
}

// The same by the kernels.
fn totals(alloc: Global, count: u32) -> Option<(u64, Bits256)> {
    let planes = many(alloc, count)?;
    let mut counts = counts_again(alloc, &planes)?;
    planes.count_all(&mut counts);
    let mut sum = 0u64;
    for each in &counts {
        sum = sum.saturating_add(u64::from(*each));
    }
    Some((sum, planes.union_all()))
}

#[test]
fn counts_and_unions_of_every_number_of_sets(rt: HostRuntime) {
    for count in 0..=130 {
        assert_eq!(rt; totals(rt.alloc(), count), Some(plain_totals(count)));
    }
}
