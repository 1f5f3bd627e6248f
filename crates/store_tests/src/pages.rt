//! A page at work, and what a refused allocation leaves.
//!
//! Each call stands in a helper that promises nothing, and the answers are compared at once. A page
//! that was refused memory is asked for again.
ghost use Rattle.std.specs.Prelude.{◌<◌, ◌≤◌};
ghost use Rattle.page.specs.Words.{IsInObjects};
ghost use Rattle.span.specs.Classes.{slots_in};

use crate::objects::{object, zeros};
use page::Page;
use span::names::{CLASSES, Class, Object};
use std::alloc::Global;

// Sets the object of the class that the word tells, for which the page takes memory.
fn set_at(page: &mut Page, alloc: Global, class: Class, slot: u8, word: u128)
    requires on_page { slot < slots_in class }
    requires whole { IsInObjects class page.old.room }
    ensures { IsInObjects class page.new.room }
{
    let value = object(class, word);
    if value.class() != class {
        return;
    }
    let is_refused = page.reserve(alloc, class, slot).is_err();
    if is_refused && page.reserve(alloc, class, slot).is_err() {
        return;
    }
    if page.takes(class, slot, value.words()) {
        page.set_at(class, slot, value.words());
    }
}

fn value_at(page: &Page, class: Class, slot: u8) -> Option<Object>
    requires on_page { slot < slots_in class }
    requires whole { IsInObjects class page.now.room }
{
    Some(Object::of(class, page.value_at(class, slot)))
}

// What stands at the first two slots and at the last two of a page, which grows in between, after
// an object at its first and another at its last.
fn ends_of(alloc: Global, class: Class) -> Option<[Option<Object>; 4]> {
    let last = last_slot(class);
    if u16::from(last) >= class.slots() || last < 2 {
        return None;
    }
    let mut page = Page::blank(alloc);
    set_at(&mut page, alloc, class, 0, 7);
    set_at(&mut page, alloc, class, last, 8);
    Some([
        value_at(&page, class, 0),
        value_at(&page, class, 1),
        value_at(&page, class, last - 1),
        value_at(&page, class, last),
    ])
}

// The last slot of a page of objects of the class: the objects fill its 256 words, but for less
// than one.
fn last_slot(class: Class) -> u8 {
    let objects = 256usize.checked_div(class.words()).unwrap_or(0);
    u8::try_from(objects.saturating_sub(1)).unwrap_or(0)
}

// The same where the objects are apart.
fn two_ends(class: Class) -> Option<[Option<Object>; 4]> {
    Some([
        Some(object(class, 7)),
        Some(zeros(class)),
        Some(zeros(class)),
        Some(object(class, 8)),
    ])
}

// A page has as many objects as its words have room for, and each object's words are apart from
// those of its neighbours.
#[test]
fn a_page_has_objects_of_each_class(rt: HostRuntime) {
    for words in 1..=CLASSES {
        let class = Class::of_words(words);
        assert_eq!(rt;
            class.and_then(|class| ends_of(rt.alloc(), class)),
            class.and_then(two_ends)
        );
    }
}
