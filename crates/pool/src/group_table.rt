// The groups of the pool, found by their heads.
ghost use Rattle.std.specs.Prelude.{◌≡◌, ◌<◌, ◌≤◌, ◌-◌, ◌+◌, ◌++◌, ◌*◌, ◌↔◌, ℕ, [], IfOk, IfSome, IsSome, IsTrue, MatchOption, OnErr, OnOk, Some, length, map, max, min, slice_get, swap_remove, vec_capacity};
ghost use Rattle.std.specs.Bool.{OnTrue, OnFalse};
ghost use Rattle.std.specs.FinMap as table;
ghost use Rattle.std.specs.List.{Contains};
ghost use Rattle.span.specs.Ids.{rank};
ghost use Rattle.span.specs.Log.{Holds};
ghost use Rattle.span.specs.SpanLogs.{AreLegal, room_for_logs, span_of_log};
ghost use Rattle.span.specs.State.{IsSettable};
ghost use Rattle.groups.specs.Dead.{AreEntered, dead_among, forgotten, live_among, without_dead};
ghost use Rattle.groups.specs.Directory.{KnowsGuests, struck, with_entries};
ghost use Rattle.groups.specs.FirstLive.{IsFirstAmong};
ghost use Rattle.groups.specs.Group.{HasNoHead, HaveGuestsOnce, paged_in, spans_in, spans_of, summary};
ghost use Rattle.groups.specs.Pages.{set_group};
ghost use Rattle.groups.specs.Sound.{AreSoundGroups, IsSoundGroup};
ghost use Rattle.groups.specs.Spans.{live_count, with_free_at};
ghost use Rattle.pool.specs.Calls.{HasNoPage};
ghost use Rattle.pool.specs.Forgets.{left_in};
ghost use Rattle.pool.specs.Groups.{FreesIn, HasHeadAt, Inserts, OfMember, OnDone, Removes, with_group};
ghost use Rattle.pool.specs.Handover.{HaveOneIn};
ghost use Rattle.pool.specs.Noted.{AreNoted, HasNoPageAt, IsHeadOfFirstPaged, IsPagedHead};
ghost use Rattle.pool.specs.Ranked.{AreFound, HaveOwnHeads, KeepsPaged, LetsGo, head_rank, in_order};
ghost use Rattle.pool.specs.Samples.{Samples};
ghost use Rattle.pool.specs.Sparse.{HaveSparsest};
ghost use Rattle.pool.specs.State.{PooledState};
ghost use Rattle.pool.specs.Tabled.{AreKept};
ghost use Rattle.span.specs.declared.limits.TheConstants.{ALL_IDS};
ghost use Rattle.bitmap.specs.declared.bits.TheConstants.{SLOTS};

use crate::in_both::have_one_in;
use crate::least_live::{byte_of_pooled, give_back_bytes, note_bytes};
use crate::pooled::Pooled;
use crate::ranks::Ranks;
use crate::sparse::sparse;
use crate::walks;
use groups::{Directory, LateTable};
use shard::{Sample, Shard};
use span::names::{Entry, Key, SpanId};
use span::spans::{Counted, Kept, Log, SpanLog};
use std::alloc::{AllocError, Global};
use std::marker::Model;

/// Groups in a row, with a hash table that says where the group of each head stands, and a binary
/// heap of the heads whose groups have a page.
///
/// Memory follows the groups that are here, whichever heads they have, and a look-up, an arrival
/// and a departure cost the same however many there are: the last of the row takes the place of a
/// group that goes. A rank stays in the heap when its group goes or gives its page up. It is
/// dropped when it comes to be the least, or when more than half of the heap would be such.
#[derive(Drop)]
pub(crate) struct GroupTable<L: Log> {
    // The groups, in no order.
    row: Vec<Pooled<L>>,
    // For each of them, how many of its slots are live at the least.
    least: Vec<u8>,
    // By the rank of a head, where in `row` its group stands.
    places: LateTable<usize>,
    // The ranks of the heads of all groups that have a page, and of some that have none or are
    // here no more.
    paged: Ranks,
    // For how many more groups room is reserved.
    room: usize,
}

impl<L: Log> Model for GroupTable<L> {
    ghost use Rattle.pool.specs.Groups.{GroupsState};
    ghost use Rattle.std.specs.Coded.{codes};

    ghost Value = { GroupsState };

    ghost coded = { Prim.hlevel codes };

    ghost use Rattle.pool.specs.TableKept.{IsKept, state_of};

    ghost view = { state_of };

    ghost invariant = { IsKept };
}

impl<L: Log> GroupTable<L> {
    /// No group. Takes no memory.
    pub(crate) fn new(alloc: Global) -> GroupTable<L>
        ensures { result ≡ record { groups = []; room = 0 } }
    {
        GroupTable {
            row: Vec::new(alloc),
            least: Vec::new(alloc),
            places: LateTable::new(alloc),
            paged: Ranks::new(alloc),
            room: 0,
        }
    }

    /// The group of the head, if it is here.
    pub(crate) fn get(&self, head: SpanId) -> Option<&Pooled<L>>
        ensures { MatchOption result (HasNoHead self.now.groups head)
            (λ group. HasHeadAt self.now.groups head group.now) }
    {
        let Some(place) = place_of(&self.places, head) else {
            return None;
        };
        Some(&self.row[place])
    }

    /// Makes room for that many more groups, where less is reserved.
    ///
    /// # Errors
    ///
    /// `AllocError` where memory is refused. The groups are then as they were.
    pub(crate) fn reserve(&mut self, more: usize) -> Result<(), AllocError>
        ensures ok { OnOk result (self.new ≡ record self.old { room = max self.old.room more }) }
        ensures err { OnErr result (self.new ≡ self.old) }
    {
        make_room(&mut self.paged, self.row.len(), more)?;
        self.row.reserve(more)?;
        self.least.reserve(more)?;
        self.places.reserve(more)?;
        self.room = self.room.max(more);
        Ok(())
    }

    /// The group comes, in reserved room.
    pub(crate) fn insert(&mut self, group: Pooled<L>)
        requires room { 0 < self.old.room }
        requires new { HasNoHead self.old.groups group.head.id }
        ensures { Inserts self.old group self.new }
    {
        note(&mut self.paged, &group);
        let byte = byte_of_pooled(&group);
        let place = self.row.len();
        self.places.insert_reserved(group.head_id().rank(), place);
        self.row.push_reserved(group);
        self.least.push_reserved(byte);
        self.room -= 1;
    }

    /// The group of the head goes, if it is here. The reserved room stays.
    pub(crate) fn remove(&mut self, head: SpanId) -> Option<Pooled<L>>
        ensures { Removes self.old head result self.new }
    {
        let Some(place) = place_of(&self.places, head) else {
            return None;
        };
        let group = let_go(&mut self.row, &mut self.places, place);
        let _ = self.least.swap_remove(place);
        tidy(&mut self.row, &mut self.places, &mut self.paged, self.room);
        give_back_bytes(&mut self.least, self.room);
        Some(group)
    }

    /// Sets the object of the slot in the span at the place of the head's group to these words,
    /// where the slot is live there at the generation and its object has as many, and says whether
    /// it was. The group keeps its page, which has them then, too.
    ///
    /// # Errors
    ///
    /// `AllocError` in place of `true`, where the span's log could not grow, or memory was refused
    /// for the words of a page that had only zeros. The groups are then as they were.
    pub(crate) fn set(
        &mut self,
        alloc: Global,
        head: SpanId,
        place: usize,
        slot: u8,
        generation: u32,
        words: &[u128],
    ) -> Result<bool, AllocError>
        requires { (group : PooledState) × HasHeadAt self.old.groups head group
            × (place < length (spans_of group)) × IsSoundGroup group }
        ensures found { OfMember self.old.groups head place (λ _ _ span. IfOk result
            (λ done. IsTrue done ↔ IsSettable span slot generation words.now)) }
        ensures set { OfMember self.old.groups head place (λ at group span. OnDone result (self.new
            ≡ with_group self.old at (set_group group place span slot generation words.now))) }
        ensures unknown { IfOk result (λ done. OnFalse done (self.new ≡ self.old)) }
        ensures refused { OfMember self.old.groups head place
            (λ _ _ span. OnErr result (IsSettable span slot generation words.now)) }
        ensures err { OnErr result (self.new ≡ self.old) }
    {
        let Some(at) = place_of(&self.places, head) else {
            unreachable!();
        };
        self.row[at].set(alloc, place, slot, generation, words)
    }

    /// Frees the slot in the span at the place of the head's group, where it is live there at the
    /// generation, and gives up the page of a group that it empties.
    pub(crate) fn free(
        &mut self,
        alloc: Global,
        head: SpanId,
        place: usize,
        slot: u8,
        generation: u32,
    ) -> bool
        requires { (group : PooledState) × HasHeadAt self.old.groups head group
            × (place < length (spans_of group)) }
        ensures found { OfMember self.old.groups head place
            (λ _ _ span. IsTrue result ↔ Holds span.log slot generation) }
        ensures freed { OfMember self.old.groups head place (λ index group span. OnTrue result
            (FreesIn self.old index group place (with_free_at span slot generation) self.new)) }
        ensures unknown { OnFalse result (self.new ≡ self.old) }
    {
        let Some(at) = place_of(&self.places, head) else {
            unreachable!();
        };
        let freed = self.row[at].free(alloc, place, slot, generation);
        self.least[at] = byte_of_pooled(&self.row[at]);
        freed
    }

    /// Moves the pages of up to `most` groups, from the one at the place `from` of the row on, to
    /// blocks that it asks for now, and says how many groups these are.
    ///
    /// # Errors
    ///
    /// `AllocError` if a block is refused. Some pages have moved then.
    pub(crate) fn gather(
        &mut self,
        alloc: Global,
        from: usize,
        most: usize,
    ) -> Result<usize, AllocError>
        ensures same { self.new ≡ self.old }
        ensures count { IfOk result (λ count. count ≡ min most (length self.old.groups - from)) }
    {
        gather_some(&mut self.row, alloc, from, most)
    }

    /// The head of the group of lowest head that has a page. A rank whose group has none is looked
    /// at once.
    pub(crate) fn lowest_paged(&mut self) -> Option<SpanId>
        ensures lowest { MatchOption result (HasNoPage self.old.groups)
            (IsHeadOfFirstPaged self.old.groups) }
        ensures same { self.new ≡ self.old }
    {
        lowest_paged(self.row.as_slice(), &self.places, &mut self.paged)
    }

    /// How many groups have a page.
    pub(crate) fn pages(&self) -> usize
        ensures { result ≡ length (paged_in self.now.groups) }
    {
        walks::pages(self.row.as_slice())
    }

    /// How many groups there are.
    pub(crate) fn len(&self) -> usize
        ensures { result ≡ length self.now.groups }
    {
        self.row.len()
    }

    /// Whether one of their spans is in the shard, too.
    pub(crate) fn have_one_in(&self, shard: &Shard<L>) -> bool
        ensures { IsTrue result ↔ HaveOneIn shard.now.groups self.now.groups }
    {
        have_one_in(self.row.as_slice(), shard)
    }

    /// The first live key of their spans from this id on, by ids and then by slots.
    pub(crate) fn first_live(&self, from: SpanId) -> Option<Key>
        ensures { IsFirstAmong (spans_in self.now.groups) (rank from) result }
    {
        walks::first_live(self.row.as_slice(), from)
    }

    /// How many keys are live in those that have a page.
    pub(crate) fn live(&self) -> usize
        ensures live { result ≡ live_count (spans_in (paged_in self.now.groups)) }
        ensures at_most { result ≤ SLOTS * length self.now.groups }
    {
        walks::live(self.row.as_slice())
    }

    /// What a group has together with one after each `gap` others.
    pub(crate) fn sample(&self, gap: u32) -> Sample
        ensures samples { Samples gap self.now.groups result }
        ensures few { result.pages ≤ length self.now.groups }
        ensures few_live { result.live ≤ SLOTS * length self.now.groups }
    {
        walks::sample(self.row.as_slice(), gap)
    }

    /// How many spans they have, heads and guests.
    pub(crate) fn span_count(&self) -> usize
        requires { length (spans_in self.now.groups) ≤ ALL_IDS }
        ensures { result ≡ length (spans_in self.now.groups) }
    {
        walks::span_count(self.row.as_slice())
    }

    /// Each group that has a page, by ascending head: its head, its class and the slots that are
    /// live in one of its spans.
    ///
    /// # Errors
    ///
    /// `AllocError` where the list could not grow.
    pub(crate) fn summaries(&self, alloc: Global) -> Result<Vec<Entry>, AllocError>
        ensures { IfOk result (λ list. list.items ≡ map summary (paged_in self.now.groups)) }
    {
        let mut list = walks::summaries(self.row.as_slice(), alloc)?;
        list.sort_unstable_by_key(|entry| entry.id.rank());
        Ok(list)
    }

    /// At least `most` of the groups that have a page, or all if there are no more, in no order.
    /// None has more live slots than one that is left out.
    ///
    /// # Errors
    ///
    /// `AllocError` if the list could not grow.
    pub(crate) fn sparse(&self, alloc: Global, most: usize) -> Result<Vec<Entry>, AllocError>
        ensures { IfOk result (λ list.
            HaveSparsest most (map summary (paged_in self.now.groups)) list.items) }
    {
        sparse(self.row.as_slice(), self.least.as_slice(), alloc, most)
    }
}

impl GroupTable<Kept> {
    /// Moves the log of each of their spans, by ascending head, to the end of a list with room for
    /// them.
    pub(crate) fn into_logs(self, logs: &mut Vec<SpanLog>)
        requires { length (spans_in self.groups) ≤ room_for_logs logs.old }
        ensures logs { map span_of_log logs.new.items ≡ map span_of_log logs.old.items
            ++ spans_in self.groups }
        ensures legal { AreLegal logs.old.items → AreLegal logs.new.items }
        ensures room { room_for_logs logs.old ≡ room_for_logs logs.new + length
            (spans_in self.groups) }
    {
        let mut groups = self.row;
        groups.sort_unstable_by_key(|group| group.head_id().rank());
        walks::into_logs(groups, logs);
    }
}

impl GroupTable<Counted> {
    /// The groups that have no page go, and each other forgets its guests in which no slot is live.
    /// The directory says where the guests stand that are left.
    pub(crate) fn forget(&mut self, directory: &mut Directory)
        requires known { KnowsGuests self.old.groups directory.old.entries }
        requires once { HaveGuestsOnce self.old.groups }
        requires sound { AreSoundGroups self.old.groups }
        ensures groups { self.new ≡ record self.old { groups = left_in self.old.groups } }
        ensures known { KnowsGuests self.new.groups directory.new.entries }
        ensures room { directory.new.room ≡ directory.old.room }
    {
        forget_all(&mut self.row, directory);
        drop_unpaged(&mut self.row, &mut self.places);
        tidy(&mut self.row, &mut self.places, &mut self.paged, self.room);
        note_bytes(&mut self.least, self.row.as_slice());
        give_back_bytes(&mut self.least, self.room);
    }
}

// Moves the pages of up to `most` groups, from the one at this place on, the first first.
fn gather_some<L: Log>(
    row: &mut Vec<Pooled<L>>,
    alloc: Global,
    from: usize,
    most: usize,
) -> Result<usize, AllocError>
    ensures items { row.new.items ≡ row.old.items }
    ensures capacity { vec_capacity row.new ≡ vec_capacity row.old }
    ensures count { IfOk result (λ count. count ≡ min most (length row.old.items - from)) }
{
    let left = row.len().saturating_sub(from);
    let count = left.min(most);
    for place in from..from + count {
        renew_at(row, alloc, place)?;
    }
    Ok(count)
}

// Moves the page of the group at the place.
fn renew_at<L: Log>(row: &mut Vec<Pooled<L>>, alloc: Global, place: usize) -> Result<(), AllocError>
    requires { place < length row.old.items }
    ensures items { row.new.items ≡ row.old.items }
    ensures capacity { vec_capacity row.new ≡ vec_capacity row.old }
{
    row[place].renew(alloc)
}

// Where in the row the head's group stands, if it is here.
fn place_of(places: &LateTable<usize>, head: SpanId) -> Option<usize>
    ensures { result ≡ table.get places.now.entries (rank head) }
{
    places.get(head.rank())
}

// The group at the place goes, and the last takes its place.
fn let_go<L: Log>(
    groups: &mut Vec<Pooled<L>>,
    places: &mut LateTable<usize>,
    place: usize,
) -> Pooled<L>
    requires within { place < length groups.old.items }
    requires found { AreFound groups.old.items (table.get places.old.entries) }
    ensures gone { slice_get groups.old.items place ≡ Some result }
    ensures swapped { groups.new.items ≡ swap_remove groups.old.items place result }
    ensures left { LetsGo groups.old.items place groups.new.items }
    ensures lower { (at : ℕ) → at < place
        → slice_get groups.new.items at ≡ slice_get groups.old.items at }
    ensures found { AreFound groups.new.items (table.get places.new.entries) }
    ensures fewer { length groups.new.items < length groups.old.items }
    ensures capacity { vec_capacity groups.new ≡ vec_capacity groups.old }
    ensures spare { places.old.room ≤ places.new.room }
{
    let group = groups.swap_remove(place);
    places.remove(group.head_id().rank());
    if place < groups.len() {
        places.write_over(groups[place].head_id().rank(), place);
    }
    group
}

// Gives memory back where a quarter of the room in the row would do for the groups and those that
// room is reserved for. Twice as much stays, so that groups that come and go move a row only where
// it has halved or doubled.
fn give_back<L: Log>(groups: &mut Vec<Pooled<L>>, places: &mut LateTable<usize>, room: usize)
    requires room { length groups.old.items + room ≤ vec_capacity groups.old }
    requires spare { room ≤ places.old.room }
    ensures same { groups.new.items ≡ groups.old.items }
    ensures entries { places.new.entries ≡ places.old.entries }
    ensures room { length groups.new.items + room ≤ vec_capacity groups.new }
    ensures spare { room ≤ places.new.room }
{
    let wanted = groups.len() + room;
    if wanted < groups.capacity() / 4 {
        groups.shrink_to(2 * wanted);
        places.shrink_to(wanted);
    }
}

// Makes room in the ranks for those of all groups that are here and of that many more.
fn make_room(paged: &mut Ranks, groups: usize, more: usize) -> Result<(), AllocError>
    ensures same { paged.new.ranks ≡ paged.old.ranks }
    ensures ranks { OnOk result (length paged.new.ranks + more ≤ paged.new.capacity) }
    ensures groups { OnOk result (groups + more ≤ paged.new.capacity) }
    ensures capacity { paged.old.capacity ≤ paged.new.capacity }
{
    let missing = groups.saturating_sub(paged.len());
    let Some(wanted) = more.checked_add(missing) else {
        return Err(AllocError);
    };
    paged.reserve(wanted)
}

// The head of the group of lowest head that has a page. Ranks of no such group are dropped on the
// way.
fn lowest_paged<L: Log>(
    row: &[Pooled<L>],
    places: &LateTable<usize>,
    paged: &mut Ranks,
) -> Option<SpanId>
    requires found { AreFound row.now (table.get places.now.entries) }
    requires noted { AreNoted row.now paged.old.ranks }
    ensures lowest { MatchOption result (HasNoPage (in_order row.now))
        (IsHeadOfFirstPaged (in_order row.now)) }
    ensures noted { AreNoted row.now paged.new.ranks }
    ensures fewer { length paged.new.ranks ≤ length paged.old.ranks }
    ensures capacity { paged.new.capacity ≡ paged.old.capacity }
{
    while let Some(rank) = paged.least() {
        if let Some(head) = paged_head(row, places, rank) {
            return Some(head);
        }
        paged.drop_least();
    }
    None
}

// The head of the rank, if its group is here and has a page.
fn paged_head<L: Log>(row: &[Pooled<L>], places: &LateTable<usize>, rank: u64) -> Option<SpanId>
    requires { AreFound row.now (table.get places.now.entries) }
    ensures { MatchOption result (HasNoPageAt row.now rank)
        (IsPagedHead (in_order row.now) rank) }
{
    let Some(place) = places.get(rank) else {
        return None;
    };
    let group = &row[place];
    if !group.is_paged() {
        return None;
    }
    Some(group.head_id())
}

// Notes the ranks anew where most of them are of no account, and gives memory back.
fn tidy<L: Log>(
    row: &mut Vec<Pooled<L>>,
    places: &mut LateTable<usize>,
    paged: &mut Ranks,
    room: usize,
)
    requires { AreKept row.old.items (vec_capacity row.old) (table.get places.old.entries)
        places.old.room paged.old room }
    ensures same { row.new.items ≡ row.old.items }
    ensures kept { AreKept row.new.items (vec_capacity row.new) (table.get places.new.entries)
        places.new.room paged.new room }
    ensures few { length paged.new.ranks ≤ 2 * length row.new.items + 1 }
{
    give_back(row, places, room);
    renew(row.as_slice(), paged);
    let used = row.len().max(paged.len());
    paged.give_back(used, room);
}

// Notes the ranks anew where there are more than twice as many of them as groups.
fn renew<L: Log>(row: &[Pooled<L>], paged: &mut Ranks)
    requires noted { AreNoted row.now paged.old.ranks }
    requires room { length row.now ≤ paged.old.capacity }
    ensures noted { AreNoted row.now paged.new.ranks }
    ensures few { length paged.new.ranks ≤ 2 * length row.now + 1 }
    ensures fewer { length paged.new.ranks ≤ max (length paged.old.ranks) (length row.now) }
    ensures capacity { paged.old.capacity ≤ paged.new.capacity }
{
    if paged.len() / 2 <= row.len() {
        return;
    }
    note_all(row, paged);
}

// Notes the ranks of the groups that have a page, and no other.
fn note_all<L: Log>(groups: &[Pooled<L>], paged: &mut Ranks)
    requires { length groups.now ≤ paged.old.capacity }
    ensures noted { AreNoted groups.now paged.new.ranks }
    ensures few { length paged.new.ranks ≤ length groups.now }
    ensures capacity { paged.old.capacity ≤ paged.new.capacity }
{
    paged.clear();
    for group in groups {
        note(paged, group);
    }
}

// Notes the rank of the group's head, where the group has a page and there is room.
fn note<L: Log>(paged: &mut Ranks, group: &Pooled<L>)
    requires { length paged.old.ranks < paged.old.capacity }
    ensures noted { IsSome group.now.page → Contains paged.new.ranks (head_rank group.now) }
    ensures more { (number : ℕ) → Contains paged.old.ranks number
        → Contains paged.new.ranks number }
    ensures few { length paged.new.ranks ≤ length paged.old.ranks + 1 }
    ensures capacity { paged.old.capacity ≤ paged.new.capacity }
{
    if group.is_paged() {
        paged.put(group.head_id().rank());
    }
}

// Has each of the groups forget its guests in which no slot is live.
fn forget_all(groups: &mut Vec<Pooled<Counted>>, directory: &mut Directory)
    requires known { KnowsGuests groups.old.items directory.old.entries }
    requires heads { HaveOwnHeads groups.old.items }
    requires once { HaveGuestsOnce groups.old.items }
    ensures items { groups.new.items ≡ map without_dead groups.old.items }
    ensures capacity { vec_capacity groups.new ≡ vec_capacity groups.old }
    ensures known { KnowsGuests groups.new.items directory.new.entries }
    ensures room { directory.new.room ≡ directory.old.room }
{
    for index in 0..groups.len() {
        forget_in(&mut groups[index], directory);
    }
}

// Has the group forget its guests in which no slot is live. The entries of the others say where
// they stand then.
fn forget_in(group: &mut Pooled<Counted>, directory: &mut Directory)
    requires { AreEntered (struck directory.old.entries (dead_among group.old.guests))
        (live_among group.old.guests) }
    ensures group { group.new ≡ without_dead group.old }
    ensures directory { directory.new
        ≡ with_entries directory.old (forgotten directory.old.entries group.old) }
{
    directory.strike_dead(group.spans().guests());
    group.forget_guests();
    directory.move_all(group.spans().guests(), group.head_id());
}

// The groups that have no page go, and the last of the row takes the place of each.
fn drop_unpaged<L: Log>(groups: &mut Vec<Pooled<L>>, places: &mut LateTable<usize>)
    requires { AreFound groups.old.items (table.get places.old.entries) }
    ensures left { KeepsPaged groups.old.items groups.new.items }
    ensures found { AreFound groups.new.items (table.get places.new.entries) }
    ensures fewer { length groups.new.items ≤ length groups.old.items }
    ensures capacity { vec_capacity groups.new ≡ vec_capacity groups.old }
    ensures spare { places.old.room ≤ places.new.room }
{
    let mut place = 0;
    while place < groups.len() {
        if groups[place].is_paged() {
            place += 1;
        } else {
            drop_at(groups, places, place);
        }
    }
}

// The group at the place goes, and the last takes its place.
fn drop_at<L: Log>(groups: &mut Vec<Pooled<L>>, places: &mut LateTable<usize>, place: usize)
    requires within { place < length groups.old.items }
    requires found { AreFound groups.old.items (table.get places.old.entries) }
    ensures left { LetsGo groups.old.items place groups.new.items }
    ensures lower { (at : ℕ) → at < place
        → slice_get groups.new.items at ≡ slice_get groups.old.items at }
    ensures found { AreFound groups.new.items (table.get places.new.entries) }
    ensures fewer { length groups.new.items < length groups.old.items }
    ensures capacity { vec_capacity groups.new ≡ vec_capacity groups.old }
    ensures spare { places.old.room ≤ places.new.room }
{
    let_go(groups, places, place);
}
