// Whether no group of a side stands twice in a list of ids.
ghost use Rattle.std.specs.Prelude.{◌≡◌, ◌↔◌, ◌≤◌, ◌<◌, ◌++◌, ◌∷◌, ◌&&◌, [], IsTrue, List, length, not, slice_index_or};
ghost use Rattle.std.specs.List.{list_any};
ghost use Rattle.mesh_graph.specs.Groups.{IsAscending, has_id, ids};
ghost use Rattle.mesh_graph.specs.declared.build.TheConstants.{MOST_GROUPS};
ghost use Rattle.span.specs.Ids.{same_span};
ghost use Rattle.span.specs.declared.id.SpanId.{SpanId};
ghost use Rattle.certificate.specs.Chosen.{AreOnce, HasSeen, ids_in};

use crate::place_set::PlaceSet;
use mesh_graph::{Entry, MOST_GROUPS, place_of};
use span::names::SpanId;

/// A list of ids, as it lies in a plan or a short set.
#[derive(Clone, Copy)]
pub(crate) enum IdList<'a> {
    /// The abandoned groups of these pairs.
    Abandoned(&'a [(SpanId, SpanId)]),
    /// The owned groups of these pairs.
    Owned(&'a [(SpanId, SpanId)]),
    /// These ids.
    Short(&'a [SpanId]),
}

impl IdList<'_> {
    fn len(&self) -> usize
        ensures { result ≡ length (ids_in self.now) }
    {
        match self {
            IdList::Abandoned(pairs) => pairs.len(),
            IdList::Owned(pairs) => pairs.len(),
            IdList::Short(ids) => ids.len(),
        }
    }

    /// The id at the place.
    fn at(&self, k: usize) -> SpanId
        requires { k < length (ids_in self.now) }
        ensures { (d : SpanId) → result ≡ slice_index_or (ids_in self.now) k d }
    {
        match self {
            IdList::Abandoned(pairs) => pair_at(pairs, k).0,
            IdList::Owned(pairs) => pair_at(pairs, k).1,
            IdList::Short(ids) => id_at(ids, k),
        }
    }
}

fn pair_at(pairs: &[(SpanId, SpanId)], k: usize) -> (SpanId, SpanId)
    requires { k < length pairs.now }
    ensures { (d : SpanId × SpanId) → result ≡ slice_index_or pairs.now k d }
{
    pairs[k]
}

fn id_at(ids: &[SpanId], k: usize) -> SpanId
    requires { k < length ids.now }
    ensures { (d : SpanId) → result ≡ slice_index_or ids.now k d }
{
    ids[k]
}

/// Whether no id of these groups stands twice in the list. It looks at so many groups at a time as
/// a set has places.
pub(crate) fn are_once(entries: &[Entry], list: &IdList<'_>) -> bool
    requires { IsAscending (ids entries.now) }
    ensures { IsTrue result ↔ AreOnce entries.now (ids_in list.now) }
{
    let mut rest = entries;
    while rest.len() > MOST_GROUPS {
        let (first, others) = rest.split_at(MOST_GROUPS);
        if !few_are_once(first, list) {
            return false;
        }
        rest = others;
    }
    few_are_once(rest, list)
}

/// The same of groups that have their places in one set.
fn few_are_once(entries: &[Entry], list: &IdList<'_>) -> bool
    requires ascending { IsAscending (ids entries.now) }
    requires few { length entries.now ≤ MOST_GROUPS }
    ensures { IsTrue result ↔ AreOnce entries.now (ids_in list.now) }
{
    let mut seen = PlaceSet::empty();
    for k in 0..list.len() {
        if !is_new(&mut seen, entries, list.at(k)) {
            return false;
        }
    }
    true
}

/// Puts the place of the group with the id in, if there is one. Whether it is not one that was seen
/// before.
fn is_new(seen: &mut PlaceSet, entries: &[Entry], id: SpanId) -> bool
    requires ascending { IsAscending (ids entries.now) }
    requires few { length entries.now ≤ MOST_GROUPS }
    ensures new { (before : List SpanId) → HasSeen entries.now before seen.old.words
        → result ≡ not (has_id entries.now id && list_any (same_span id) before) }
    ensures seen { (before : List SpanId) → HasSeen entries.now before seen.old.words
        → HasSeen entries.now (before ++ id ∷ []) seen.new.words }
{
    match place_of(entries, id) {
        Some(place) => seen.insert(place),
        None => true,
    }
}
