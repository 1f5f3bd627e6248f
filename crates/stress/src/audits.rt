//! Receipts that agree with a log, and lists that differ from them in one thing, over objects of
//! all classes.
ghost use Rattle.std.specs.Prelude.{◌≡◌, ◌≤◌, OnOk};

use audit::{AuditCause, AuditError, audit, audit_by_threads};
use span::names::{CLASSES, Class, Key, Object, SpanId};
use span::receipts::{Call, Receipt, ReceiptList};
use span::spans::{Change, Kept, Log, SpanLog};
use std::alloc::{AllocError, Global};
use std::test::Fail;
use std::thread::Threads;

// A put of the object at the slot, at generation 1.
fn put_of(slot: u8, value: Object) -> Change {
    Change::Put {
        slot,
        generation: 1,
        value,
    }
}

// A set of slot 0 to the object, at generation 1.
fn set_to(value: Object) -> Change {
    Change::Set {
        slot: 0,
        generation: 1,
        value,
    }
}

const FREE: Change = Change::Free {
    slot: 0,
    generation: 1,
};

// The object of so many words, which count from 5 on.
fn object_of(words: usize) -> Result<Object, Fail> {
    let all = [5, 6, 7, 8, 9, 10, 11, 12, 13, 14, 15, 16, 17, 18, 19, 20];
    if words > all.len() {
        return Err("an object has 16 words at most".into());
    }
    Ok(Object::new(&all[..words]).ok_or("1 to 16 words are an object's")?)
}

// The objects of one word, of four and of sixteen.
fn objects() -> Result<[Object; 3], Fail> {
    Ok([object_of(1)?, object_of(4)?, object_of(16)?])
}

// An object that differs from that of four words in the last of them.
fn other_four() -> Result<Object, Fail> {
    Ok(Object::new(&[5, 6, 7, 9]).ok_or("4 words are an object's")?)
}

// The key of the slot of span 0.0 at generation 1.
fn key_of(slot: u8) -> Result<Key, Fail> {
    let id = SpanId::new(0, 0).ok_or("there are 64 shards")?;
    Ok(Key::new(id, slot, 1).ok_or("generations count from 1")?)
}

fn receipt(key: Key, section: u64, at: usize, call: Call) -> Receipt {
    Receipt {
        key,
        worker: 0,
        section,
        at,
        call,
    }
}

fn put(key: Key, section: u64, at: usize, value: Object) -> Receipt {
    receipt(key, section, at, Call::Put { value })
}

fn get(key: Key, section: u64, at: usize, found: Option<Object>) -> Receipt {
    receipt(key, section, at, Call::look_up(found))
}

fn set(key: Key, at: usize, value: Object, done: bool) -> Receipt {
    receipt(key, 0, at, Call::set(value, done))
}

fn free(key: Key, section: u64, at: usize, done: bool) -> Receipt {
    receipt(key, section, at, Call::free(done))
}

// Makes room for a change, and asks again where memory was refused.
fn make_room<L: Log>(log: &mut L, words: usize) -> Result<(), AllocError>
    ensures changes { L.changes log.new ≡ L.changes log.old }
    ensures room { OnOk result (1 ≤ L.room log.new) }
    ensures words { OnOk result (words ≤ L.word_room log.new) }
{
    match log.reserve(1, words) {
        Ok(()) => Ok(()),
        Err(_) => log.reserve(1, words),
    }
}

// Adds a change to a log, which has a few.
fn add_change<L: Log>(log: &mut L, change: &Change) -> Result<(), Fail> {
    if log.len() > 9 {
        return Err("a log of a few changes".into());
    }
    match change {
        Change::Put {
            slot,
            generation,
            value,
        } => {
            make_room(log, value.words().len())?;
            log.push_put(*slot, *generation, value.class(), value.words());
        }
        Change::Set {
            slot,
            generation,
            value,
        } => {
            make_room(log, value.words().len())?;
            log.push_set(*slot, *generation, value.class(), value.words());
        }
        Change::Free { slot, generation } => {
            make_room(log, 0)?;
            log.push_free(*slot, *generation);
        }
    }
    Ok(())
}

// A log of span 0.0, which is of the class, with these changes.
fn log_of(alloc: Global, class: Class, changes: &[Change]) -> Result<SpanLog, Fail> {
    let mut log = Kept::new(alloc);
    for change in changes {
        add_change(&mut log, change)?;
    }
    Ok(SpanLog {
        span: key_of(0)?.span,
        class,
        gens: 9,
        log,
    })
}

// Adds a receipt to a list, and asks again where memory was refused.
fn add(list: &mut ReceiptList, receipt: &Receipt) -> Result<(), AllocError> {
    match list.push(receipt) {
        Ok(()) => Ok(()),
        Err(_) => list.push(receipt),
    }
}

// A worker's list.
fn list_of(alloc: Global, receipts: &[Receipt]) -> Result<ReceiptList, Fail> {
    let mut list = ReceiptList::new(alloc);
    for receipt in receipts {
        add(&mut list, receipt)?;
    }
    Ok(list)
}

// Why the audit is not passed, if it is not. It asks again where memory was refused.
fn told(
    alloc: Global,
    logs: &[SpanLog],
    first: &[Receipt],
    second: &[Receipt],
) -> Result<Option<AuditCause>, Fail> {
    let lists = [list_of(alloc, first)?, list_of(alloc, second)?];
    let mut answer = audit(alloc, logs, &lists);
    if answer == Err(AuditError::OutOfMemory) {
        answer = audit(alloc, logs, &lists);
    }
    match answer {
        Ok(()) => Ok(None),
        Err(AuditError::Fault(cause)) => Ok(Some(cause)),
        Err(AuditError::OutOfMemory) => Err("out of memory".into()),
    }
}

// The same of one span of the class with these changes.
fn cause(
    alloc: Global,
    class: Class,
    changes: &[Change],
    first: &[Receipt],
    second: &[Receipt],
) -> Result<Option<AuditCause>, Fail> {
    told(alloc, &[log_of(alloc, class, changes)?], first, second)
}

// The same of a span with two logs.
fn cause_of_two(
    alloc: Global,
    class: Class,
    changes: &[Change],
    receipts: &[Receipt],
) -> Result<Option<AuditCause>, Fail> {
    let logs = [
        log_of(alloc, class, changes)?,
        log_of(alloc, class, changes)?,
    ];
    told(alloc, &logs, receipts, &[])
}

// The answers to honest receipts of the object, and to lists that differ from them in one thing.
fn causes(alloc: Global, object: &Object) -> Result<[Option<AuditCause>; 8], Fail> {
    let (key, class, found) = (key_of(0)?, object.class(), Some(*object));
    let log = [put_of(0, *object), FREE];
    let (put_0, get_1, free_1, get_2) = (
        put(key, 0, 0, *object),
        get(key, 0, 1, found),
        free(key, 0, 1, true),
        get(key, 0, 2, None),
    );
    let honest = [put_0, get_1, free_1, get_2];
    let later = [
        put(key, 1, 0, *object),
        get(key, 1, 1, found),
        free(key, 1, 1, true),
        get(key, 1, 2, None),
    ];
    let twice = [put_0, get_1, put(key, 0, 1, *object), get_2];
    let unseen = [put_0, get(key, 0, 1, None), free_1, get_2];
    Ok([
        cause(alloc, class, &log, &honest, &[])?,
        cause(alloc, class, &[FREE, log[0]], &honest, &[])?,
        cause(alloc, class, &log, &[put_0, get_1, get_2], &[])?,
        cause(alloc, class, &log, &twice, &[])?,
        cause(alloc, class, &log, &unseen, &[])?,
        cause(alloc, class, &log, &[put_0, get_1, get_2, free_1], &[])?,
        cause(alloc, class, &log, &honest, &[get(key, 1, 0, None)])?,
        cause(alloc, class, &log, &later, &[get(key, 0, 1, found)])?,
    ])
}

// The answers to a span with two logs, a generation that is used twice, a change with two receipts,
// a look-up that answers what the span held when it was opened, and a span that was never opened.
fn other_causes(alloc: Global) -> Result<[Option<AuditCause>; 6], Fail> {
    let (key, object, class) = (key_of(0)?, Object::c16(5), Class::C16);
    let log = [put_of(0, object), FREE];
    let honest = [put(key, 0, 0, object), free(key, 0, 1, true)];
    let again = [log[0], FREE, log[0]];
    Ok([
        cause_of_two(alloc, class, &log, &honest)?,
        cause(alloc, class, &again, &honest, &[put(key, 0, 2, object)])?,
        cause(alloc, class, &log, &honest, &[put(key, 0, 0, object)])?,
        cause(
            alloc,
            class,
            &log,
            &honest,
            &[get(key, 0, 2, None), get(key, 0, 0, None)],
        )?,
        told(
            alloc,
            &[],
            &[get(key, 0, 0, None), free(key, 0, 0, false)],
            &[],
        )?,
        told(alloc, &[], &[get(key, 0, 1, None)], &[])?,
    ])
}

// The answers to an object that differs in its last word, or is of another class, in a look-up and
// in a put.
fn causes_of_others(alloc: Global) -> Result<[Option<AuditCause>; 4], Fail> {
    let ([one, four, _], other) = (objects()?, other_four()?);
    let (key, class, log) = (key_of(0)?, Class::C64, [put_of(0, four)]);
    let put_0 = put(key, 0, 0, four);
    Ok([
        cause(alloc, class, &log, &[put_0], &[get(key, 0, 1, Some(other))])?,
        cause(alloc, class, &log, &[put_0], &[get(key, 0, 1, Some(one))])?,
        cause(alloc, class, &log, &[put(key, 0, 0, other)], &[])?,
        cause(alloc, class, &log, &[put(key, 0, 0, one)], &[])?,
    ])
}

// The calls of a worker on the key, which holds 5 until it is set to the object at place 1.
fn calls_with_set(key: Key, value: Object) -> [Receipt; 5] {
    [
        put(key, 0, 0, Object::c16(5)),
        get(key, 0, 1, Some(Object::c16(5))),
        set(key, 1, value, true),
        free(key, 0, 2, true),
        get(key, 0, 3, None),
    ]
}

// The answer to a log of a put of 5, a set to 8 and a free, with the set's receipt naming the
// object, and a second list.
fn cause_of_set(
    alloc: Global,
    object: Object,
    second: &[Receipt],
) -> Result<Option<AuditCause>, Fail> {
    let log = [put_of(0, Object::c16(5)), set_to(Object::c16(8)), FREE];
    let first = calls_with_set(key_of(0)?, object);
    cause(alloc, Class::C16, &log, &first, second)
}

// The answers to honest receipts of a set, to one that names another object, to a put in the place
// of a set, to a set in the place of a put, to a set of a slot that is not live, and to one of
// another class.
fn causes_of_sets(alloc: Global) -> Result<[Option<AuditCause>; 6], Fail> {
    let ([one, four, _], key, class) = (objects()?, key_of(0)?, Class::C16);
    let (put_0, set_1) = (put(key, 0, 0, one), set(key, 1, one, true));
    let (log, again) = ([put_of(0, one), set_to(one)], put(key, 0, 1, one));
    Ok([
        cause_of_set(alloc, Object::c16(8), &[])?,
        cause_of_set(alloc, Object::c16(9), &[])?,
        cause(alloc, class, &log, &[put_0, again], &[])?,
        cause(alloc, class, &log, &[set(key, 0, one, true), set_1], &[])?,
        cause(alloc, class, &[log[1], log[0]], &[put_0, set_1], &[])?,
        cause(alloc, class, &[log[0], set_to(four)], &[put_0], &[])?,
    ])
}

// The answers, beside honest receipts of a set to 8, to another call: a look-up after the set that
// finds 8, and one that finds 5, a set that is not done since the key is not live, one since its
// object has another class, and one for no reason, and one that is done and makes no change.
fn causes_beside_set(alloc: Global) -> Result<[Option<AuditCause>; 6], Fail> {
    let ([one, four, _], key, eight) = (objects()?, key_of(0)?, Object::c16(8));
    Ok([
        cause_of_set(alloc, eight, &[get(key, 0, 2, Some(eight))])?,
        cause_of_set(alloc, eight, &[get(key, 0, 2, Some(one))])?,
        cause_of_set(alloc, eight, &[set(key, 3, one, false)])?,
        cause_of_set(alloc, eight, &[set(key, 2, four, false)])?,
        cause_of_set(alloc, eight, &[set(key, 2, one, false)])?,
        cause_of_set(alloc, eight, &[set(key, 3, one, true)])?,
    ])
}

// The answer to a log of one put of the object at the slot, in a span of the class.
fn cause_at(
    alloc: Global,
    class: Class,
    slot: u8,
    object: Object,
) -> Result<Option<AuditCause>, Fail> {
    let receipts = [put(key_of(slot)?, 0, 0, object)];
    cause(alloc, class, &[put_of(slot, object)], &receipts, &[])
}

// The answers to an object of one word in a span of its class and of another, and at its last slot.
fn causes_of_one(alloc: Global) -> Result<[Option<AuditCause>; 3], Fail> {
    let one = object_of(1)?;
    Ok([
        cause_at(alloc, Class::C16, 0, one)?,
        cause_at(alloc, Class::C32, 0, one)?,
        cause_at(alloc, Class::C16, 255, one)?,
    ])
}

// The answers to an object of so many words in a span of the class below, at the last slot of a
// page of its own class, and at the slot after it.
fn causes_of_width(alloc: Global, words: usize) -> Result<[Option<AuditCause>; 3], Fail> {
    let object = object_of(words)?;
    let narrower = object_of(words.saturating_sub(1))?.class();
    let objects = 256usize.checked_div(words).unwrap_or(0);
    let after = u8::try_from(objects).unwrap_or(0);
    Ok([
        cause_at(alloc, narrower, 0, object)?,
        cause_at(alloc, object.class(), after.saturating_sub(1), object)?,
        cause_at(alloc, object.class(), after, object)?,
    ])
}

#[test]
fn names_the_first_part_that_fails(rt: HostRuntime) -> Result<(), Fail> {
    let wanted = [
        None,
        Some(AuditCause::Log),
        Some(AuditCause::Change),
        Some(AuditCause::Change),
        Some(AuditCause::Reply),
        Some(AuditCause::Order),
        Some(AuditCause::Barrier),
        Some(AuditCause::Barrier),
    ];
    for words in 1..=CLASSES {
        let object = object_of(words)?;
        assert_eq!(rt; causes(rt.alloc(), &object)?, wanted);
    }
    Ok(())
}

#[test]
fn looks_at_each_part(rt: HostRuntime) -> Result<(), Fail> {
    let wanted = [
        Some(AuditCause::Log),
        Some(AuditCause::Log),
        Some(AuditCause::Change),
        Some(AuditCause::Order),
        None,
        Some(AuditCause::Reply),
    ];
    assert_eq!(rt; other_causes(rt.alloc())?, wanted);
    Ok(())
}

#[test]
fn compares_all_words(rt: HostRuntime) -> Result<(), Fail> {
    let wanted = [
        Some(AuditCause::Reply),
        Some(AuditCause::Reply),
        Some(AuditCause::Change),
        Some(AuditCause::Change),
    ];
    assert_eq!(rt; causes_of_others(rt.alloc())?, wanted);
    Ok(())
}

#[test]
fn knows_a_set_in_place(rt: HostRuntime) -> Result<(), Fail> {
    let (log, change) = (Some(AuditCause::Log), Some(AuditCause::Change));
    assert_eq!(rt;
        causes_of_sets(rt.alloc())?,
        [None, change, change, change, log, log]
    );
    Ok(())
}

#[test]
fn asks_what_a_set_answers(rt: HostRuntime) -> Result<(), Fail> {
    let (reply, change) = (Some(AuditCause::Reply), Some(AuditCause::Change));
    assert_eq!(rt;
        causes_beside_set(rt.alloc())?,
        [None, reply, None, None, reply, change]
    );
    Ok(())
}

#[test]
fn asks_each_log_for_its_class(rt: HostRuntime) -> Result<(), Fail> {
    let log = Some(AuditCause::Log);
    assert_eq!(rt; causes_of_one(rt.alloc())?, [None, log, None]);
    for words in 2..=CLASSES {
        assert_eq!(rt; causes_of_width(rt.alloc(), words)?, [log, None, log]);
    }
    Ok(())
}

// Why the audit of the two lists, each on a thread of its own, is not passed, if it is not.
fn told_by_threads<R: Threads + Sync>(
    rt: &R,
    alloc: Global,
    object: Object,
    first: &[Receipt],
    second: &[Receipt],
) -> Result<Option<AuditCause>, Fail> {
    let logs = [log_of(alloc, object.class(), &[put_of(0, object), FREE])?];
    let lists = [list_of(alloc, first)?, list_of(alloc, second)?];
    let mut answer = audit_by_threads(rt, alloc, &logs, &lists);
    if answer == Err(AuditError::OutOfMemory) {
        answer = audit_by_threads(rt, alloc, &logs, &lists);
    }
    match answer {
        Ok(()) => Ok(None),
        Err(AuditError::Fault(cause)) => Ok(Some(cause)),
        Err(AuditError::OutOfMemory) => Err("out of memory".into()),
    }
}

// Of the parts that lists fail the first is told, whichever list fails it: here the second fails
// the reply, and the first the order, which comes after it.
fn causes_by_threads<R: Threads + Sync>(
    rt: &R,
    alloc: Global,
) -> Result<[Option<AuditCause>; 2], Fail> {
    let [_, _, object] = objects()?;
    let key = key_of(0)?;
    let (put_0, free_1) = (put(key, 0, 0, object), free(key, 0, 1, true));
    let (honest, turned) = ([put_0, free_1], [free_1, put_0]);
    let found = get(key, 0, 1, Some(object));
    Ok([
        told_by_threads(rt, alloc, object, &honest, &[found])?,
        told_by_threads(rt, alloc, object, &turned, &[get(key, 0, 1, None)])?,
    ])
}

#[test]
fn asks_lists_side_by_side(rt: HostRuntime) -> Result<(), Fail> {
    let causes = causes_by_threads(&rt, rt.alloc())?;
    assert_eq!(rt; causes, [None, Some(AuditCause::Reply)]);
    Ok(())
}
