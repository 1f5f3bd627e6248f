//! How many phases a plan takes. Where an allocation is refused, what was refused is asked again.
use augment::{plan, plan_counted};
use bitmap::Bits256;
use certificate::{Plan, Short, check};
use mesh_graph::{AtHand, BuildError, Entry, Graph, Snapshot};
use span::names::{Class, SpanId};
use std::alloc::{AllocError, Global};

// Two owned groups with which an abandoned one is compatible, or one that is told twice, by their
// serials.
type Partners = (u8, u8);

// Snapshots in which owned group j has slot j alone, and abandoned group i all slots but those of
// its partners.
#[derive(Clone, Copy)]
enum Made {
    Chain,
    EvenAndOdd,
    Crossing,
    Chains,
}

// A pass in ascending order plans each group but the last, whose walk turns all these pairs round.
fn in_chain(i: u8) -> Partners {
    match i.checked_add(1) {
        Some(next) => (i, next),
        None => (0, 0),
    }
}

// A pass in ascending order plans each even group onto the place that the next odd group needs, so
// a second phase has 128 short walks to turn round.
fn even_and_odd(i: u8) -> Partners {
    if i % 2 == 0 {
        (i, i | 1)
    } else {
        (i & 254, i & 254)
    }
}

// A pass in ascending order leaves 4, 6, 7 and 8 out. Three of them have walks of two pairs that
// share no group. A walk from one of them that leaves the shortest layers takes the places of
// another, which then needs a phase more.
fn crossing(i: u8) -> Partners {
    match i {
        0 => (1, 5),
        1 => (1, 3),
        2 => (0, 7),
        3 => (6, 8),
        4 => (2, 2),
        5 => (0, 6),
        6 => (2, 2),
        7 => (3, 6),
        _ => (1, 1),
    }
}

// Chains of two groups, of three, and so on up to thirteen. A pass in ascending order plans each
// but the last of a chain, whose walk turns all of its pairs round. So each length takes a phase.
fn in_chains(i: u8) -> Partners {
    let mut first = 0u8;
    for length in 2..14u8 {
        let next = first.saturating_add(length);
        if i.saturating_add(1) < next {
            return (i, i.saturating_add(1));
        }
        if i < next {
            return (first, first);
        }
        first = next;
    }
    (0, 0)
}

fn partners(made: Made, i: u8) -> Partners {
    match made {
        Made::Chain => in_chain(i),
        Made::EvenAndOdd => even_and_odd(i),
        Made::Crossing => crossing(i),
        Made::Chains => in_chains(i),
    }
}

fn all_but(partners: Partners) -> Bits256 {
    let mut slots = Bits256::empty();
    for slot in 0..=255 {
        if slot != partners.0 && slot != partners.1 {
            slots.insert(slot);
        }
    }
    slots
}

fn only(slot: u8) -> Bits256 {
    let mut slots = Bits256::empty();
    slots.insert(slot);
    slots
}

fn entry(shard: u32, serial: u8, occupied: Bits256) -> Option<Entry> {
    let id = SpanId::new(shard, u32::from(serial))?;
    Some(Entry {
        id,
        class: Class::C16,
        occupied,
    })
}

// Adds a group for each number up to the last one to both sides.
fn fill(made: Made, last: u8, abandoned: &mut Vec<Entry>, owned: &mut Vec<Entry>) -> Option<()> {
    for i in 0..=last {
        abandoned
            .push(entry(0, i, all_but(partners(made, i)))?)
            .ok()?;
        owned.push(entry(1, i, only(i))?).ok()?;
    }
    Some(())
}

fn snapshot(alloc: Global, made: Made, last: u8) -> Option<Snapshot> {
    let mut abandoned = Vec::new(alloc);
    let mut owned = Vec::new(alloc);
    fill(made, last, &mut abandoned, &mut owned)?;
    Snapshot::new(abandoned, owned).ok()
}

fn build_again(alloc: Global, snapshot: &Snapshot) -> Result<Graph<'_>, BuildError> {
    match Graph::build(&AtHand, alloc, snapshot, 1) {
        Err(_) => Graph::build(&AtHand, alloc, snapshot, 1),
        graph => graph,
    }
}

fn snapshot_again(alloc: Global, made: Made, last: u8) -> Option<Snapshot> {
    match snapshot(alloc, made, last) {
        None => snapshot(alloc, made, last),
        snapshot => snapshot,
    }
}

// Plans. Where memory was refused, the same call plans the second time.
fn plan_again(alloc: Global, graph: &Graph) -> Result<(Plan, Short), AllocError> {
    match plan(alloc, graph) {
        Err(_) => plan(alloc, graph),
        found => found,
    }
}

fn plan_counted_again(alloc: Global, graph: &Graph) -> Result<(Plan, Short, usize), AllocError> {
    match plan_counted(alloc, graph) {
        Err(_) => plan_counted(alloc, graph),
        found => found,
    }
}

// How many pairs and members of the short set a plan has and how many phases found it, where the
// checker accepts it.
fn counted(alloc: Global, made: Made, last: u8) -> Option<(usize, usize, usize)> {
    let snapshot = snapshot_again(alloc, made, last)?;
    let graph = build_again(alloc, &snapshot).ok()?;
    let (plan, short, phases) = plan_counted_again(alloc, &graph).ok()?;
    if check(&snapshot, &plan, &short) {
        Some((plan.pairs().len(), short.ids().len(), phases))
    } else {
        None
    }
}

// The last phase, which finds no walk, counts too.
#[test]
fn each_phase_turns_the_shortest_walks_round(rt: HostRuntime) {
    let table = [
        (Made::Chain, 255, (256, 0, 3)),
        (Made::EvenAndOdd, 255, (256, 0, 3)),
        (Made::Crossing, 8, (8, 2, 3)),
        (Made::Chains, 89, (90, 0, 14)),
    ];
    for (made, last, wanted) in table {
        assert_eq!(rt; counted(rt.alloc(), made, last), Some(wanted));
    }
}

fn sizes(alloc: Global) -> Option<(usize, usize)> {
    let snapshot = snapshot_again(alloc, Made::Crossing, 8)?;
    let graph = build_again(alloc, &snapshot).ok()?;
    let (plan, short) = plan_again(alloc, &graph).ok()?;
    Some((plan.pairs().len(), short.ids().len()))
}

#[test]
fn those_who_compete_are_short(rt: HostRuntime) {
    assert_eq!(rt; sizes(rt.alloc()), Some((8, 2)));
}
