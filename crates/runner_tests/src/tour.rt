//! The lines to begin with of `docs/CALLING.md`. What a test owns is let go at each exit, so the
//! lines with most exits stand in functions that are lent it.
use arena_core::{Core, Event, Reply};
use bitmap::Bits256;
use certificate::check;
use mesh_graph::{AtHand, Entry, Graph, Snapshot};
use pool::Pool;
use shard::{Found, Freed, Shard};
use span::names::{Class, Key, Object, SpanId};
use std::process::Abort;
use std::test::Fail;
use trace_runner::{Memory, replay_serial};

// The lines that need a shard alone; its two keys.
fn puts_and_frees(rt: &impl Abort, shard: &mut Shard) -> Result<(Key, Key), Fail> {
    let (key, _) = shard.put(Object::c16(7))?; // 0.0/0/1
    assert_eq!(rt; shard.get(&key), Found::Value(&[7], 1));
    assert_eq!(rt; shard.free(&key), Freed::Yes(1));
    let (again, _) = shard.put(Object::c16(8))?; // 0.0/0/2: the same slot, the next generation
    assert_eq!(rt; shard.get(&key), Found::Gone(3));
    Ok((key, again))
}

// What the shard that adopted them answers of the two keys.
fn finds(rt: &impl Abort, other: &Shard, key: Key, again: Key) {
    assert_eq!(rt; other.get(&again), Found::Value(&[8], 3));
    assert_eq!(rt; other.get(&key), Found::Gone(3));
}

#[test]
fn moves_a_group_whole(rt: HostRuntime) -> Result<(), Fail> {
    let alloc = rt.alloc();
    // Shard 0 may have 16 pages, and a slot 2 generations.
    let mut shard = Shard::new(alloc, 0, 16, 2)?;
    let (key, again) = puts_and_frees(&rt, &mut shard)?;

    // Its thread ends: its groups go to the pool, and another shard adopts one, with its page.
    let mut pool = Pool::new(alloc);
    pool.receive(&mut shard)?;
    let mut other = Shard::new(alloc, 1, 16, 2)?;
    let head = pool.adopt(&mut other)?; // 0.0
    assert_eq!(rt; head, again.span);
    finds(&rt, &other, key, again);
    Ok(())
}

// The lines that need a core.
fn folds(rt: &impl Abort, core: &mut Core) -> Result<(), Fail> {
    let put = |shard, word| Event::Put {
        shard,
        value: Object::c16(word),
    };
    let Reply::Issued(first) = core.step(put(0, 10)) else {
        return Err("no key".into());
    };
    let Reply::Issued(key) = core.step(put(0, 11)) else {
        return Err("no key".into());
    };
    core.step(Event::Free { key: first });
    core.step(Event::End { shard: 0 }); // its group 0.0 goes to the pool, with its page
    core.step(put(1, 7));

    core.step(Event::Mark); // plans one fold: 0.0 onto 1.0
    core.step(Event::Step); // carries it out: one page less
    core.step(Event::Close);
    let found = core.step(Event::Get { key }); // the key finds its object, at the same offset
    assert!(rt; matches!(found, Reply::Found(Some(object)) if object == Object::c16(11)));
    assert_eq!(rt; core.totals().pages, 1);
    Ok(())
}

#[test]
fn folds_a_group_away(rt: HostRuntime) -> Result<(), Fail> {
    let alloc = rt.alloc();
    // Two shards of 4 pages each, rings of 4 keys, 9 generations.
    let mut core = Core::new(alloc, 2, 4, 4, 9)?;
    folds(&rt, &mut core)
}

// The first group of the shard, with these slots occupied.
fn entry(shard: u32, slots: &[u8]) -> Option<Entry> {
    let mut occupied = Bits256::empty();
    for slot in slots {
        occupied.insert(*slot);
    }
    let id = SpanId::new(shard, 0)?;
    Some(Entry {
        id,
        class: Class::C16,
        occupied,
    })
}

#[test]
fn plans_and_checks(rt: HostRuntime) -> Result<(), Fail> {
    let alloc = rt.alloc();
    let mut abandoned = Vec::new(alloc);
    abandoned.push(entry(0, &[0, 1]).ok_or("id")?)?;
    let mut owned = Vec::new(alloc);
    owned.push(entry(1, &[2, 3]).ok_or("id")?)?;

    let snapshot = Snapshot::new(abandoned, owned)?;
    let graph = Graph::build(&AtHand, alloc, &snapshot, 1)?;
    let (plan, short) = augment::plan(alloc, &graph)?;
    assert_eq!(rt; plan.pairs().len(), 1);
    assert!(rt; check(&snapshot, &plan, &short)); // no plan has more pairs
    Ok(())
}

#[test]
fn replays_a_trace(rt: HostRuntime) -> Result<(), Fail> {
    let alloc = rt.alloc();
    let trace = b"mesh 1\nshards 1\npages 4\nring 4\ngens 9\n0 put a 5\n0 get a\n".as_slice();
    let mut report = Memory::new(alloc);
    let mut certificate = Vec::new(alloc);
    replay_serial(&AtHand, alloc, trace, true, &mut report, &mut certificate)?;
    assert_eq!(rt;
        report.bytes.as_slice(),
        b"6 key 0.0/0/1\n7 value 5\nend pages 1 live 1 calls 2\n".as_slice()
    );
    Ok(())
}
