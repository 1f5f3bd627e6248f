//! That a retirement at a seat moves as many groups as it is told to, if the shard has as many.
use crate::shared::{Shards, Shared, make_shared, put_object, retire};
use arena::Seat;
use marks::Totals;
use span::names::{Class, Object};
use std::alloc::Global;
use std::test::Fail;

// Fills pages with objects of sixteen words, of which each has as many.
fn fill(arena: &Shards, seat: &mut Seat, pages: u32) -> Option<()> {
    for number in 0..pages.saturating_mul(16) {
        let object = Object::of(Class::C256, &[u128::from(number); 16]);
        put_object(arena, seat, object)?;
    }
    Some(())
}

// How many groups of thirteen went, when it was to be six, then five, and at last all; and what the
// arena has.
fn retired(alloc: Global) -> Option<([usize; 4], Totals)> {
    let Shared {
        arena,
        mut first,
        ..
    } = make_shared(alloc, 16)?;
    fill(&*arena, &mut first, 13)?;
    let counts = [
        retire(&*arena, &mut first, 6)?,
        retire(&*arena, &mut first, 5)?,
        retire(&*arena, &mut first, 99)?,
        retire(&*arena, &mut first, 99)?,
    ];
    Some((counts, arena.try_totals().ok()?))
}

#[test]
fn moves_as_many_as_it_is_told(rt: HostRuntime) -> Result<(), Fail> {
    let totals = Totals {
        pages: 13,
        live: 208,
    };
    assert_eq!(rt; retired(rt.alloc()), Some(([6, 5, 2, 0], totals)));
    Ok(())
}
