// Pages that a shard gives back while it runs, and opens anew.
use super::{
    Put, close, free, get, id, key, lift, listed, put, put_object, put_once, reopen, shard, sizes,
    with_guest,
};
use crate::objects::{Sought, object};
use shard::{Freed, PutError, Shard};
use span::names::{Class, Key, Object, SpanId};
use std::test::Fail;

fn trim(shard: &mut Shard) -> usize {
    shard.trim()
}

// Whether each of the groups has a page, where there are so many.
fn are_paged(shard: &Shard) -> Option<[bool; 3]> {
    if shard.len() != 3 {
        return None;
    }
    Some([shard.is_paged(0), shard.is_paged(1), shard.is_paged(2)])
}

// What is seen of the shard: its pages and live keys, its first groups that have a page, and what
// the key finds.
fn look(shard: &Shard, key: &Key) -> ((usize, usize), [Option<(SpanId, u32)>; 2], Sought) {
    let groups = [listed(shard, 0), listed(shard, 1)];
    (sizes(shard), groups, get(shard, key))
}

// Puts onto a group with no page. Where memory was refused, nothing has changed, and it puts the
// second time.
fn put_anew(shard: &mut Shard, value: Object, old: &Key) -> Put {
    let before = look(shard, old);
    let made = put_once(shard, value);
    if made == Err(PutError::OutOfMemory) && look(shard, old) == before {
        put_once(shard, value)
    } else {
        made
    }
}

#[test]
fn gives_back_pages_with_nothing_live(rt: HostRuntime) {
    let mut shard = shard(rt.alloc(), 3, 2);
    let keys = [
        key(id(3, 0), 0, 1),
        key(id(3, 1), 0, 1),
        key(id(3, 2), 0, 1),
    ];
    let puts = (
        put(&mut shard, 5),
        put_object(&mut shard, object(Class::C64, 6)),
        put_object(&mut shard, object(Class::C256, 7)),
    );
    let before = (
        trim(&mut shard),
        free(&mut shard, &keys[0]),
        free(&mut shard, &keys[2]),
        are_paged(&shard),
        sizes(&shard),
    );
    let trims = (trim(&mut shard), trim(&mut shard), are_paged(&shard));
    assert_eq!(rt;
        (puts, before, trims, look(&shard, &keys[0])),
        (
            (Ok((keys[0], 0)), Ok((keys[1], 0)), Ok((keys[2], 0))),
            (0, Freed::Yes(1), Freed::Yes(1), Some([true; 3]), (3, 1)),
            (2, 0, Some([false, true, false])),
            ((1, 1), [Some((id(3, 1), 1)), None], Sought::Gone(2)),
        )
    );
}

// Whether the page of the group at the index takes another block, at once or asked again.
fn renew(shard: &mut Shard, index: usize) -> bool {
    for _ in 0..2 {
        if index < shard.len() && shard.renew(index).is_ok() {
            return true;
        }
    }
    false
}

#[test]
fn pages_in_other_blocks_have_the_same_objects(rt: HostRuntime) {
    let mut shard = shard(rt.alloc(), 3, 2);
    let keys = [
        key(id(3, 0), 0, 1),
        key(id(3, 1), 0, 1),
        key(id(3, 2), 0, 1),
    ];
    let puts = (
        put(&mut shard, 5),
        put_object(&mut shard, object(Class::C64, 6)),
        put_object(&mut shard, object(Class::C256, 7)),
    );
    let freed = (free(&mut shard, &keys[2]), trim(&mut shard));
    let before = (look(&shard, &keys[0]), get(&shard, &keys[1]));
    let renewed = [
        renew(&mut shard, 0),
        renew(&mut shard, 1),
        renew(&mut shard, 2),
        renew(&mut shard, 3),
    ];
    let after = (look(&shard, &keys[0]), get(&shard, &keys[1]));
    assert_eq!(rt;
        (puts, freed, renewed, before == after),
        (
            (Ok((keys[0], 0)), Ok((keys[1], 0)), Ok((keys[2], 0))),
            (Freed::Yes(1), 1),
            [true, true, true, false],
            true,
        )
    );
}

// A put, its free and a trim; then a put, and what its key and the freed one find.
type Anew = ((Put, Freed, usize), Put, [Sought; 2], (usize, usize));

fn put_after_a_trim(shard: &mut Shard, class: Class) -> Anew {
    let (old, new) = (key(id(3, 0), 0, 1), key(id(3, 0), 0, 2));
    let trims = (
        put_object(shard, object(class, 7)),
        free(shard, &old),
        trim(shard),
    );
    let made = put_anew(shard, object(class, 8), &old);
    let found = [get(shard, &new), get(shard, &old)];
    (trims, made, found, sizes(shard))
}

#[test]
fn opens_a_page_anew(rt: HostRuntime) {
    let (old, new) = (key(id(3, 0), 0, 1), key(id(3, 0), 0, 2));
    for class in [Class::C16, Class::C48, Class::C256] {
        let mut shard = shard(rt.alloc(), 1, 2);
        let found = [Sought::Value(object(class, 8), 3), Sought::Gone(3)];
        assert_eq!(rt;
            put_after_a_trim(&mut shard, class),
            (
                (Ok((old, 0)), Freed::Yes(1), 1),
                Ok((new, 2)),
                found,
                (1, 1)
            )
        );
    }
}

#[test]
fn leaves_a_closed_group_its_page(rt: HostRuntime) {
    let mut shard = shard(rt.alloc(), 1, 2);
    let (head, made) = (id(3, 0), key(id(3, 0), 0, 1));
    let closed = (
        put(&mut shard, 5),
        close(&mut shard, head),
        free(&mut shard, &made),
        trim(&mut shard),
        sizes(&shard),
    );
    reopen(&mut shard);
    assert_eq!(rt;
        (closed, trim(&mut shard), sizes(&shard)),
        ((Ok((made, 0)), true, Freed::Yes(1), 0, (1, 0)), 1, (0, 0))
    );
}

// A guest stays with its group, and the page that is opened anew has no object but the new one.
#[test]
fn gives_back_a_page_with_a_guest(rt: HostRuntime) -> Result<(), Fail> {
    let (first, of_guest, next) = (
        key(id(5, 0), 0, 1),
        key(id(6, 0), 1, 1),
        key(id(5, 0), 0, 2),
    );
    let mut shard = with_guest(rt.alloc())?;
    let trims = (
        free(&mut shard, &first),
        trim(&mut shard),
        free(&mut shard, &of_guest),
        trim(&mut shard),
        sizes(&shard),
    );
    let made = (
        put_anew(&mut shard, Object::c16(9), &of_guest),
        get(&shard, &of_guest),
    );
    assert_eq!(rt;
        (trims, made, lift(&mut shard, id(5, 0))),
        (
            (Freed::Yes(1), 0, Freed::Yes(1), 1, (0, 0)),
            (Ok((next, 2)), Sought::Gone(2)),
            Some((id(5, 0), 2, 1, (9, 0))),
        )
    );
    Ok(())
}
