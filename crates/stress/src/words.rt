//! That calls which do not wait answer as the log of the key's span says, wherever that is.
ghost use Rattle.std.specs.Prelude.{◌≡◌};

use crate::held::{Holding, Signals, TURNS, Three, make_three};
use crate::shared::first_of;
use arena::{Arena, Seat, Stepped, Steward};
use fold::Step;
use span::names::{CLASSES, Class, Key, Object};
use span::spans::Counted;
use std::alloc::Global;
use std::test::Fail;

fn put(arena: &Arena<Holding<'_>, Counted>, seat: &mut Seat, word: u128) -> Option<(Key, usize)>
    requires { seat.old.limits ≡ arena.now.limits }
    ensures { seat.new.limits ≡ seat.old.limits }
{
    match seat.try_put(arena, Class::C16, &[word]) {
        Ok(Ok(put)) => Some((put.key(), put.at())),
        _ => None,
    }
}

fn set(
    arena: &Arena<Holding<'_>, Counted>,
    seat: &mut Seat,
    key: &Key,
    word: u128,
) -> Option<(bool, usize)>
    requires { seat.old.limits ≡ arena.now.limits }
    ensures { seat.new.limits ≡ seat.old.limits }
{
    match seat.try_set(arena, key, &[word]) {
        Ok(Ok(set)) => Some((set.done(), set.at())),
        _ => None,
    }
}

fn free(arena: &Arena<Holding<'_>, Counted>, seat: &mut Seat, key: &Key) -> Option<(bool, usize)>
    requires { seat.old.limits ≡ arena.now.limits }
    ensures { seat.new.limits ≡ seat.old.limits }
{
    let freed = seat.try_free(arena, key).ok()?;
    Some((freed.done(), freed.at()))
}

// How many words a look-up finds, the first of them, and how many changes the log of the key's span
// has.
fn found(
    arena: &Arena<Holding<'_>, Counted>,
    seat: &mut Seat,
    key: &Key,
) -> Option<(Option<usize>, u128, usize)>
    requires { seat.old.limits ≡ arena.now.limits }
    ensures { seat.new.limits ≡ seat.old.limits }
{
    let mut room = [0u128];
    match seat.try_get(arena, key, &mut room) {
        Ok(looked) => Some((looked.word_count(), room[0], looked.at())),
        Err(_) => None,
    }
}

// Finds the word, and sets the key to the next one after as many changes: whether it did, and after
// how many.
fn visit(
    arena: &Arena<Holding<'_>, Counted>,
    seat: &mut Seat,
    key: &Key,
    word: u8,
) -> Option<(bool, usize)>
    requires { seat.old.limits ≡ arena.now.limits }
    ensures { seat.new.limits ≡ seat.old.limits }
{
    let word = u128::from(word);
    let before = found(arena, seat, key)?;
    let (is_set, at) = set(arena, seat, key, word + 1)?;
    if before != (Some(1), word, at) {
        return None;
    }
    Some((is_set, at))
}

// Whether the seat's one group went to the pool.
fn retires(arena: &Arena<Holding<'_>, Counted>, seat: &mut Seat) -> bool
    requires { seat.old.limits ≡ arena.now.limits }
    ensures { seat.new.limits ≡ seat.old.limits }
{
    seat.try_retire(arena, 4) == Ok(Ok(1))
}

// Whether there was a plan, whose first pair was folded, and which was closed.
fn carries_out(arena: &Arena<Holding<'_>, Counted>, steward: &mut Steward) -> bool
    requires { steward.old.limits ≡ arena.now.limits }
{
    let is_marked = matches!(arena.try_mark(steward), Ok(Ok(_)));
    let is_folded = matches!(
        arena.try_step(steward),
        Ok(Ok(Stepped::Taken(_, _, Step::Folded)))
    );
    let is_closed = arena.try_close(steward) == Ok(true);
    is_marked && is_folded && is_closed
}

// Whether the group of the one seat was folded onto that of the other, which has a key at the
// lowest slot.
fn folds(
    arena: &Arena<Holding<'_>, Counted>,
    from: &mut Seat,
    onto: &mut Seat,
    steward: &mut Steward,
) -> bool
    requires from { from.old.limits ≡ arena.now.limits }
    requires onto { onto.old.limits ≡ arena.now.limits }
    requires steward { steward.old.limits ≡ arena.now.limits }
    ensures from { from.new.limits ≡ from.old.limits }
    ensures onto { onto.new.limits ≡ onto.old.limits }
{
    let is_put = put(arena, onto, 1).is_some();
    let is_retired = retires(arena, from);
    let is_carried_out = carries_out(arena, steward);
    is_put && is_retired && is_carried_out
}

// After how many changes two keys were put, and the first of them was freed; what the visits
// answered of the second, in the shard that opened its span, in the pool, in a shard that adopted
// it and in one onto whose group it was folded; what two frees of it answered then, and a set; and
// what a look-up finds.
type Answers = (
    [usize; 2],
    [(bool, usize); 5],
    [(bool, usize); 3],
    (Option<usize>, u128, usize),
);

fn answers(
    arena: &Arena<Holding<'_>, Counted>,
    first: &mut Seat,
    second: &mut Seat,
    third: &mut Seat,
    steward: &mut Steward,
) -> Option<Answers>
    requires first { first.old.limits ≡ arena.now.limits }
    requires second { second.old.limits ≡ arena.now.limits }
    requires third { third.old.limits ≡ arena.now.limits }
    requires steward { steward.old.limits ≡ arena.now.limits }
{
    let (low, at_low) = put(arena, first, 6)?;
    let (key, at_key) = put(arena, first, 7)?;
    let freed = free(arena, second, &low)?;
    let at_home = visit(arena, second, &key, 7)?;
    if first.try_end(arena) != Ok(Ok(())) {
        return None;
    }
    let in_pool = visit(arena, second, &key, 8)?;
    if !matches!(second.try_adopt(arena), Ok(Ok(_))) {
        return None;
    }
    let adopted = visit(arena, third, &key, 9)?;
    if !folds(arena, second, third, steward) {
        return None;
    }
    let folded = visit(arena, first, &key, 10)?;
    let gone = [
        free(arena, first, &key)?,
        free(arena, second, &key)?,
        set(arena, third, &key, 5)?,
    ];
    let none = found(arena, third, &key)?;
    Some((
        [at_low, at_key],
        [freed, at_home, in_pool, adopted, folded],
        gone,
        none,
    ))
}

// The same of a new arena, whose gate holds nobody.
fn answered(alloc: Global) -> Option<Answers> {
    let signals = Signals::new();
    let gate = Holding {
        signals: &signals,
        shard: 0,
        turns: TURNS,
    };
    let Three {
        arena,
        mut first,
        mut second,
        mut third,
        mut steward,
    } = make_three(alloc, gate)?;
    answers(&arena, &mut first, &mut second, &mut third, &mut steward)
}

#[test]
fn answer_as_the_log_says(rt: HostRuntime) -> Result<(), Fail> {
    let visits = [(true, 2), (true, 3), (true, 4), (true, 5), (true, 6)];
    let gone = [(true, 7), (false, 8), (false, 8)];
    let wanted = ([0, 1], visits, gone, (None, 0, 8));
    assert_eq!(rt; answered(rt.alloc()), Some(wanted));
    Ok(())
}

// The words of a look-up, of which there are that many.
fn words_of(
    arena: &Arena<Holding<'_>, Counted>,
    seat: &mut Seat,
    key: &Key,
    count: usize,
) -> Option<[u128; 16]>
    requires { seat.old.limits ≡ arena.now.limits }
    ensures { seat.new.limits ≡ seat.old.limits }
{
    let mut room = [0u128; 16];
    match seat.try_get(arena, key, &mut room) {
        Ok(looked) if looked.word_count() == Some(count) => Some(room),
        _ => None,
    }
}

// Whether the key's object was this one, and was then set to that of these words.
fn is_found_and_set(
    arena: &Arena<Holding<'_>, Counted>,
    seat: &mut Seat,
    key: &Key,
    object: Object,
    words: &[u128],
) -> bool
    requires { seat.old.limits ≡ arena.now.limits }
    ensures { seat.new.limits ≡ seat.old.limits }
{
    let mut room = [0u128; 16];
    let found = match seat.try_get(arena, key, &mut room) {
        Ok(looked) => looked.object(&room),
        Err(_) => None,
    };
    found == Some(object) && matches!(seat.try_set(arena, key, words), Ok(Ok(set)) if set.done())
}

// Words that count from this one on, as many as any object has.
fn counting_from(first: u128) -> [u128; 16] {
    let mut words = [first; 16];
    for place in 0..words.len() {
        words[place] = first.saturating_add(place as u128);
    }
    words
}

// The first words of these that an object of the class has, and zeros behind them.
fn padded(class: Class, words: &[u128; 16]) -> [u128; 16] {
    let mut padded = [0; 16];
    for place in 0..class.words().min(words.len()) {
        padded[place] = words[place];
    }
    padded
}

// What look-ups by words find of an object of the class, which is then set to another.
type Looks = [Option<[u128; 16]>; 2];

fn looks(
    arena: &Arena<Holding<'_>, Counted>,
    first: &mut Seat,
    second: &mut Seat,
    class: Class,
) -> Option<Looks>
    requires first { first.old.limits ≡ arena.now.limits }
    requires second { second.old.limits ≡ arena.now.limits }
{
    let (words, others) = (counting_from(1), counting_from(21));
    let (object, other) = (first_of(class, &words), first_of(class, &others));
    let put = first.try_put(arena, class, object.words()).ok()?.ok()?;
    let key = put.key();
    let before = words_of(arena, second, &key, class.words());
    if !is_found_and_set(arena, second, &key, object, other.words()) {
        return None;
    }
    Some([before, words_of(arena, second, &key, class.words())])
}

// The same of a new arena, and what it ought to be.
fn looks_of_new(alloc: Global, words: usize) -> Option<[Looks; 2]> {
    let class = Class::of_words(words)?;
    let signals = Signals::new();
    let gate = Holding {
        signals: &signals,
        shard: 0,
        turns: TURNS,
    };
    let Three {
        arena,
        mut first,
        mut second,
        ..
    } = make_three(alloc, gate)?;
    let wanted = [
        Some(padded(class, &counting_from(1))),
        Some(padded(class, &counting_from(21))),
    ];
    Some([looks(&arena, &mut first, &mut second, class)?, wanted])
}

#[test]
fn keep_each_word_in_its_place(rt: HostRuntime) -> Result<(), Fail> {
    for words in 1..=CLASSES {
        let looks = looks_of_new(rt.alloc(), words);
        assert!(rt; matches!(looks, Some([found, wanted]) if found == wanted));
    }
    Ok(())
}
