// The groups of a shard by ascending place. No group moves if another comes or goes.
ghost use Rattle.std.specs.Prelude.{◌≡◌, ◌<◌, ◌≤◌, ◌+◌, ◌++◌, ◌∷◌, None, OnOk, Some, [], false, filter, get_or, insert, length, min, option_to_list, remove, slice_get, true, vec_capacity, vec_len};
ghost use Rattle.std.specs.Borrow.{Lends, sem};
ghost use Rattle.std.specs.List.{swap};
ghost use Rattle.groups.specs.Group.{Ascend};
ghost use Rattle.shard.specs.Leaving.{has_left, has_stayed};
ghost use Rattle.shard.specs.Parts.{AreExchanged, AreLower, AreNotLower, IsParted};
ghost use Rattle.shard.specs.Row.{IsOrder, in_order};
ghost use Rattle.span.specs.declared.limits.TheConstants.{MOST_PAGES};

use crate::group::Group;
use span::names::SpanId;
use span::spans::Log;
use std::alloc::{AllocError, Global};
use std::marker::Model;
use std::ops::{Index, IndexMut};

/// Groups by ascending place. They stand in one list in no order, and a list of numbers says where
/// each is: so a group that comes or goes moves 4 bytes for each behind it, and no group.
#[derive(Drop)]
pub struct GroupRow<L: Log> {
    groups: Vec<Group<L>>,
    // By index, the place of the list at which the group stands.
    order: Vec<u32>,
}

impl<L: Log> Model for GroupRow<L> {
    ghost use Rattle.std.specs.Prelude.{length, min, vec_capacity};
    ghost use Rattle.std.specs.Coded.{codes};
    ghost use Rattle.shard.specs.Row.{RowState, IsOrder, in_order};

    ghost Value = { RowState };

    ghost coded = { Prim.hlevel codes };

    ghost view = { λ r. record {
      items = in_order r.groups.items r.order.items;
      room = min (vec_capacity r.groups) (vec_capacity r.order);
    } };

    ghost invariant = { λ r. IsOrder (length r.groups.items) r.order.items };
}

impl<L: Log> GroupRow<L> {
    /// No group. It takes no memory.
    pub fn new(alloc: Global) -> GroupRow<L>
        ensures items { result.items ≡ [] }
    {
        GroupRow {
            groups: Vec::new(alloc),
            order: Vec::new(alloc),
        }
    }

    /// How many groups there are.
    #[inline(always)]
    pub fn len(&self) -> usize
        ensures { result ≡ length self.now.items }
    {
        self.order.len()
    }

    /// How many groups there is room for.
    pub fn capacity(&self) -> usize
        ensures { result ≡ self.now.room }
    {
        self.groups.capacity().min(self.order.capacity())
    }

    /// Makes room for so many more groups, and for twice as many as there are if it takes more.
    ///
    /// # Errors
    ///
    /// `AllocError` if memory is refused. The groups stay.
    pub fn reserve(&mut self, more: usize) -> Result<(), AllocError>
        ensures items { self.new.items ≡ self.old.items }
        ensures len { length self.new.items ≡ length self.old.items }
        ensures capacity { self.old.room ≤ self.new.room }
        ensures ok { OnOk result (length self.new.items + more ≤ self.new.room) }
    {
        self.groups.reserve(more)?;
        self.order.reserve(more)?;
        Ok(())
    }

    /// Makes room for so many more groups and for no others.
    ///
    /// # Errors
    ///
    /// `AllocError` if memory is refused. The groups stay.
    pub fn reserve_exact(&mut self, more: usize) -> Result<(), AllocError>
        ensures items { self.new.items ≡ self.old.items }
        ensures len { length self.new.items ≡ length self.old.items }
        ensures capacity { self.old.room ≤ self.new.room }
        ensures ok { OnOk result (length self.new.items + more ≤ self.new.room) }
    {
        self.groups.reserve_exact(more)?;
        self.order.reserve_exact(more)?;
        Ok(())
    }

    /// Gives room back but for so many groups, or for those that are here.
    pub fn shrink_to(&mut self, count: usize)
        ensures items { self.new.items ≡ self.old.items }
        ensures room { min count self.old.room ≤ self.new.room }
    {
        self.groups.shrink_to(count);
        self.order.shrink_to(count);
    }

    /// How many heads are lower than the id.
    pub fn lower_heads(&self, id: SpanId) -> usize
        requires { Ascend self.now.items }
        ensures within { result ≤ length self.now.items }
        ensures lower { AreLower self.now.items id result }
        ensures others { AreNotLower self.now.items id result }
    {
        lower_heads(self.groups.as_slice(), self.order.as_slice(), id)
    }

    /// Has the group stand at the index, where there is room for it. It takes no memory.
    pub fn insert_reserved(&mut self, index: usize, group: Group<L>)
        requires within { index ≤ length self.old.items }
        requires room { length self.old.items < self.old.room }
        requires few { length self.old.items < MOST_PAGES }
        ensures items { self.new.items ≡ insert self.old.items index group }
        ensures len { length self.new.items ≡ length self.old.items + 1 }
        ensures capacity { self.old.room ≤ self.new.room }
    {
        put_in(&mut self.groups, &mut self.order, index, group);
    }

    /// Takes the group at the index out.
    pub fn remove(&mut self, index: usize) -> Group<L>
        requires within { index < length self.old.items }
        requires ascend { Ascend self.old.items }
        ensures value { result ≡ get_or self.old.items index result }
        ensures items { self.new.items ≡ remove self.old.items index }
        ensures len { length self.new.items + 1 ≡ length self.old.items }
        ensures capacity { self.new.room ≡ self.old.room }
    {
        take_out(&mut self.groups, &mut self.order, index)
    }

    /// Takes the last group out, if there is one.
    pub fn pop(&mut self) -> Option<Group<L>>
        requires { Ascend self.old.items }
        ensures items { self.old.items ≡ self.new.items ++ option_to_list result }
        ensures empty { result ≡ None → self.old.items ≡ [] }
        ensures len { length self.new.items + length (option_to_list result)
            ≡ length self.old.items }
        ensures capacity { self.new.room ≡ self.old.room }
    {
        let count = self.len();
        if count == 0 {
            return None;
        }
        Some(self.remove(count - 1))
    }

    /// Drops the places of groups that have left.
    pub fn drop_left(&mut self)
        requires { Ascend self.old.items }
        ensures items { self.new.items ≡ filter has_stayed self.old.items }
        ensures capacity { self.new.room ≡ self.old.room }
    {
        let stayed = part(&mut self.groups, &mut self.order);
        cut(&mut self.groups, &mut self.order, stayed);
    }

    /// The groups in one list by ascending place. It takes no memory.
    pub fn into_list(self) -> Vec<Group<L>>
        requires { Ascend self.items }
        ensures { result.items ≡ self.items }
    {
        let GroupRow { groups, order } = self;
        let mut groups = groups;
        let mut order = order;
        line_up(&mut groups, &mut order);
        groups
    }
}

impl<L: Log> Index<usize> for GroupRow<L> {
    type Output = Group<L>;

    ghost can_index = { λ row index. index < length row.items };

    ghost index_gives = { λ row index group. group ≡ get_or row.items index group };

    #[inline(always)]
    fn index(&self, index: usize) -> &Group<L> {
        let place = self.order[index] as usize;
        &self.groups[place]
    }
}

impl<L: Log> IndexMut<usize> for GroupRow<L> {
    ghost use Rattle.shard.specs.RowLends.{lends_group};

    #[inline(always)]
    fn index_mut(&mut self, index: usize) -> &mut Group<L>
        requires { index < length self.old.items }
        ensures* writes_back { sem 𝓛 (lends_group L.row L.Log self.entry index result) }
        ensures value { result.now ≡ get_or self.old.items index result.now }
    {
        let place = self.order[index] as usize;
        &mut self.groups[place]
    }
}

// How many heads are lower than the id, by halving.
fn lower_heads<L: Log>(groups: &[Group<L>], order: &[u32], id: SpanId) -> usize
    requires order { IsOrder (length groups.now) order.now }
    requires ascend { Ascend (in_order groups.now order.now) }
    ensures within { result ≤ length order.now }
    ensures lower { AreLower (in_order groups.now order.now) id result }
    ensures others { AreNotLower (in_order groups.now order.now) id result }
{
    let mut low = 0;
    let mut high = order.len();
    while low < high {
        let middle = low + (high - low) / 2;
        let place = order[middle] as usize;
        if groups[place].head_id().rank() < id.rank() {
            low = middle + 1;
            continue;
        }
        high = middle;
    }
    low
}

// At which index the group at the place of the list stands, by its head.
fn index_of<L: Log>(groups: &[Group<L>], order: &[u32], place: usize) -> usize
    requires order { IsOrder (length groups.now) order.now }
    requires ascend { Ascend (in_order groups.now order.now) }
    requires within { place < length groups.now }
    ensures { slice_get order.now result ≡ Some place }
{
    lower_heads(groups, order, groups[place].head_id())
}

// Has the groups at two indexes stand at each other's place of the list.
fn exchange<L: Log>(groups: &mut Vec<Group<L>>, order: &mut Vec<u32>, first: usize, second: usize)
    requires order { IsOrder (length groups.old.items) order.old.items }
    requires first { first < length order.old.items }
    requires second { second < length order.old.items }
    ensures groups { AreExchanged order.old.items first second groups.old.items groups.new.items }
    ensures entries { order.new.items ≡ swap order.old.items first second }
    ensures order { IsOrder (length groups.new.items) order.new.items }
    ensures same { in_order groups.new.items order.new.items
        ≡ in_order groups.old.items order.old.items }
    ensures room { vec_capacity groups.new ≡ vec_capacity groups.old }
    ensures order_room { vec_capacity order.new ≡ vec_capacity order.old }
{
    groups.swap(order[first] as usize, order[second] as usize);
    order.swap(first, second);
}

// Has the group stand at the end of the list, and at the index.
fn put_in<L: Log>(groups: &mut Vec<Group<L>>, order: &mut Vec<u32>, index: usize, group: Group<L>)
    requires order { IsOrder (length groups.old.items) order.old.items }
    requires within { index ≤ length order.old.items }
    requires room { vec_len groups.old < vec_capacity groups.old }
    requires order_room { vec_len order.old < vec_capacity order.old }
    requires few { length groups.old.items < MOST_PAGES }
    ensures order { IsOrder (length groups.new.items) order.new.items }
    ensures items { in_order groups.new.items order.new.items
        ≡ insert (in_order groups.old.items order.old.items) index group }
    ensures room { vec_capacity groups.old ≤ vec_capacity groups.new }
    ensures order_room { vec_capacity order.old ≤ vec_capacity order.new }
{
    insert_place(order, index, groups.len() as u32);
    push_reserved(groups, group);
}

// Inserts where there is room, which needs no memory.
fn insert_place(order: &mut Vec<u32>, index: usize, place: u32)
    requires within { index ≤ vec_len order.old }
    requires room { vec_len order.old < vec_capacity order.old }
    ensures items { order.new.items ≡ insert order.old.items index place }
    ensures capacity { vec_capacity order.new ≡ vec_capacity order.old }
{
    match order.insert(index, place) {
        Ok(()) => {}
        Err(_) => unreachable!(),
    }
}

// Pushes where there is room, which needs no memory.
fn push_reserved<L: Log>(groups: &mut Vec<Group<L>>, group: Group<L>)
    requires { vec_len groups.old < vec_capacity groups.old }
    ensures items { groups.new.items ≡ groups.old.items ++ group ∷ [] }
    ensures capacity { vec_capacity groups.old ≤ vec_capacity groups.new }
{
    match groups.push(group) {
        Ok(()) => {}
        Err(_) => unreachable!(),
    }
}

// Takes the group at the index out. The one that stands last in the list takes its place there.
fn take_out<L: Log>(groups: &mut Vec<Group<L>>, order: &mut Vec<u32>, index: usize) -> Group<L>
    requires order { IsOrder (length groups.old.items) order.old.items }
    requires ascend { Ascend (in_order groups.old.items order.old.items) }
    requires within { index < length order.old.items }
    ensures order { IsOrder (length groups.new.items) order.new.items }
    ensures value { result ≡ get_or (in_order groups.old.items order.old.items) index result }
    ensures items { in_order groups.new.items order.new.items
        ≡ remove (in_order groups.old.items order.old.items) index }
    ensures room { vec_capacity groups.new ≡ vec_capacity groups.old }
    ensures order_room { vec_capacity order.new ≡ vec_capacity order.old }
{
    let last = groups.len() - 1;
    let other = index_of(groups.as_slice(), order.as_slice(), last);
    exchange(groups, order, index, other);
    let _ = order.remove(index);
    groups.remove(last)
}

// Has the groups that have not left stand first in the list, and answers how many these are.
fn part<L: Log>(groups: &mut Vec<Group<L>>, order: &mut Vec<u32>) -> usize
    requires order { IsOrder (length groups.old.items) order.old.items }
    requires ascend { Ascend (in_order groups.old.items order.old.items) }
    ensures order { IsOrder (length groups.new.items) order.new.items }
    ensures same { in_order groups.new.items order.new.items
        ≡ in_order groups.old.items order.old.items }
    ensures parted { IsParted groups.new.items result result }
    ensures within { result ≤ length groups.new.items }
    ensures room { vec_capacity groups.new ≡ vec_capacity groups.old }
    ensures order_room { vec_capacity order.new ≡ vec_capacity order.old }
{
    let mut low = 0;
    let mut high = groups.len();
    while low < high {
        if groups[low].has_left() {
            high -= 1;
            exchange_places(groups, order, low, high);
            continue;
        }
        low += 1;
    }
    low
}

// Has the groups at two places of the list stand at each other's.
fn exchange_places<L: Log>(
    groups: &mut Vec<Group<L>>,
    order: &mut Vec<u32>,
    place: usize,
    other: usize,
)
    requires order { IsOrder (length groups.old.items) order.old.items }
    requires ascend { Ascend (in_order groups.old.items order.old.items) }
    requires place { place < length groups.old.items }
    requires other { other < length groups.old.items }
    ensures groups { groups.new.items ≡ swap groups.old.items place other }
    ensures order { IsOrder (length groups.new.items) order.new.items }
    ensures same { in_order groups.new.items order.new.items
        ≡ in_order groups.old.items order.old.items }
    ensures room { vec_capacity groups.new ≡ vec_capacity groups.old }
    ensures order_room { vec_capacity order.new ≡ vec_capacity order.old }
{
    let first = index_of(groups.as_slice(), order.as_slice(), place);
    let second = index_of(groups.as_slice(), order.as_slice(), other);
    exchange(groups, order, first, second);
}

// Keeps the first groups of the list, as many as have stayed, and their places alone.
fn cut<L: Log>(groups: &mut Vec<Group<L>>, order: &mut Vec<u32>, stayed: usize)
    requires order { IsOrder (length groups.old.items) order.old.items }
    requires parted { IsParted groups.old.items stayed stayed }
    requires within { stayed ≤ length groups.old.items }
    ensures order { IsOrder (length groups.new.items) order.new.items }
    ensures items { in_order groups.new.items order.new.items
        ≡ filter has_stayed (in_order groups.old.items order.old.items) }
    ensures room { vec_capacity groups.new ≡ vec_capacity groups.old }
    ensures order_room { vec_capacity order.new ≡ vec_capacity order.old }
{
    order.retain(|place| (*place as usize) < stayed);
    groups.truncate(stayed);
}

// Has each group stand at its index in the list.
fn line_up<L: Log>(groups: &mut Vec<Group<L>>, order: &mut Vec<u32>)
    requires order { IsOrder (length groups.old.items) order.old.items }
    requires ascend { Ascend (in_order groups.old.items order.old.items) }
    ensures { groups.new.items ≡ in_order groups.old.items order.old.items }
{
    for index in 0..order.len() {
        let place = order[index] as usize;
        if place == index {
            continue;
        }
        let other = index_of(groups.as_slice(), order.as_slice(), index);
        exchange(groups, order, index, other);
    }
}
