// Where each thread's lines stand, and which keys they bind.
ghost use Rattle.std.specs.Prelude.{◌≡◌, ◌+◌, ◌<◌, ◌≤◌, ◌^◌, ◌∷◌, ◌++◌, [], IfOk, IfSome, List, OnOk, Some, length, map, slice_get, take, true, vec_items};
ghost use Rattle.std.proofs.Props.{props};
ghost use Rattle.trace_text.specs.Causes.{keys_at, keys_by, keys_in};
ghost use Rattle.trace_text.specs.declared.line.Line.{Line};
ghost use Rattle.thread_runner.specs.Asked.{places_of};
ghost use Rattle.thread_runner.specs.Laid.{AddsAt, AreFirsts, AreLaid};

use std::alloc::{AllocError, Global};
use trace_runner::{Call, Line, LineList, Trace};

/// What all workers read.
#[derive(Drop)]
pub(crate) struct Text<'a> {
    pub(crate) trace: &'a Trace,
    pub(crate) layout: Layout,
    /// Whether the report has the replies.
    pub(crate) replies: bool,
    ghost laid: { AreLaid trace.now.lines.items (map vec_items layout.places.items) } by { Prim.hlevel props },
    ghost numbered: { AreFirsts trace.now.lines.items layout.firsts.items } by { Prim.hlevel props },
}

/// A line, and how many keys the lines above it bind.
#[derive(Clone, Copy)]
pub(crate) struct LineFirst {
    /// Its place below the header.
    place: usize,
    first: usize,
}

/// Where each thread's lines stand in a trace, and which keys the lines bind. It is found once,
/// before anything runs.
#[derive(Drop)]
pub(crate) struct Layout {
    /// Of each thread, the places of its lines below the header, and of the adoptions by its shard,
    /// ascending.
    places: Vec<Vec<usize>>,
    /// Of each line that is neither empty nor a remark, how many keys the lines above it bind; by
    /// place.
    firsts: Vec<LineFirst>,
}

// That many empty lists.
fn empty_lists(alloc: Global, count: usize) -> Result<Vec<Vec<usize>>, AllocError>
    ensures { IfOk result (λ lists. AreLaid [] (map vec_items lists.items)) }
{
    let mut lists = Vec::with_capacity(alloc, count)?;
    for _ in 0..count {
        lists.push(Vec::new(alloc))?;
    }
    Ok(lists)
}

// Enters the line at that place, where it is a thread's, or an adoption by its shard.
fn enter_place(places: &mut [Vec<usize>], place: usize, line: &Line) -> Result<(), AllocError>
    ensures { (above : List Line) → length above ≡ place → AreLaid above (map vec_items places.old)
        → OnOk result (AreLaid (above ++ line.now ∷ []) (map vec_items places.new)) }
{
    match line {
        Line::Call { thread, .. } => push_at(places, *thread as usize, place),
        Line::Adopt { shard } => push_at(places, *shard as usize, place),
        Line::Silent | Line::Mark => Ok(()),
    }
}

// Adds the place to the list of the thread, where it has one.
fn push_at(lists: &mut [Vec<usize>], thread: usize, place: usize) -> Result<(), AllocError>
    ensures { OnOk result (AddsAt thread place (map vec_items lists.old)
        (map vec_items lists.new)) }
{
    if thread < lists.len() {
        lists[thread].push(place)?;
    }
    Ok(())
}

// Where the lines of each of that many threads stand.
fn places_by_thread(
    alloc: Global,
    lines: &LineList,
    threads: usize,
) -> Result<Vec<Vec<usize>>, AllocError>
    ensures { IfOk result (λ places. AreLaid lines.now.items (map vec_items places.items)) }
{
    let mut places = empty_lists(alloc, threads)?;
    for place in 0..lines.len() {
        enter_place(places.as_mut_slice(), place, lines.line_at(place))?;
    }
    Ok(places)
}

// Enters the number of a line's place, where the line is neither empty nor a remark.
fn enter_first(
    firsts: &mut Vec<LineFirst>,
    line: &Line,
    place: usize,
    first: usize,
) -> Result<(), AllocError>
    ensures { (lines : List Line) → AreFirsts lines firsts.old.items
        → first ≡ keys_in (take place lines) → OnOk result (AreFirsts lines firsts.new.items) }
{
    if let Line::Silent = line {
        return Ok(());
    }
    firsts.push(LineFirst { place, first })?;
    Ok(())
}

// How many keys the lines above each line bind. More than a number counts find no memory.
fn firsts_of(alloc: Global, lines: &LineList) -> Result<Vec<LineFirst>, AllocError>
    ensures { IfOk result (λ firsts. AreFirsts lines.now.items firsts.items) }
{
    let mut firsts = Vec::new(alloc);
    let mut count = 0usize;
    for place in 0..lines.len() {
        let line = lines.line_at(place);
        enter_first(&mut firsts, line, place, count)?;
        count = count.checked_add(keys_at(line)).ok_or(AllocError)?;
    }
    Ok(firsts)
}

// The number of that index, where it is that of the place.
fn first_at(firsts: &[LineFirst], index: usize, place: usize) -> Option<usize>
    ensures { (lines : List Line) → AreFirsts lines firsts.now
        → IfSome result (λ first. first ≡ keys_in (take place lines)) }
{
    if index >= firsts.len() {
        return None;
    }
    let one = &firsts[index];
    if one.place == place {
        Some(one.first)
    } else {
        None
    }
}

impl Layout {
    /// The layout of a trace.
    pub(crate) fn of(alloc: Global, trace: &Trace) -> Result<Layout, AllocError>
        ensures laid { IfOk result (λ layout. AreLaid trace.now.lines.items
            (map vec_items layout.places.items)) }
        ensures firsts { IfOk result (λ layout. AreFirsts trace.now.lines.items
            layout.firsts.items) }
    {
        let shards = trace.header.shards as usize;
        let lines = &trace.lines;
        Ok(Layout {
            places: places_by_thread(alloc, lines, shards)?,
            firsts: firsts_of(alloc, lines)?,
        })
    }

    /// The place of the line of the thread that comes after that many of its lines, where that is
    /// above `end`.
    pub(crate) fn line_after(&self, thread: u32, done: usize, end: usize) -> Option<usize>
        ensures place { (lines : List Line) → AreLaid lines (map vec_items self.now.places.items)
            → IfSome result (λ place. slice_get (places_of thread lines) done ≡ Some place) }
        ensures above { IfSome result (λ place. place < end) }
        ensures room { IfSome result (λ _. done + 1 < 2 ^ 64) }
    {
        let place = *self.places.get(thread as usize)?.get(done)?;
        if place < end { Some(place) } else { None }
    }

    /// Whether the thread has a list of lines, and no line after that many.
    pub(crate) fn has_no_line_after(&self, thread: u32, done: usize) -> bool
        ensures { (lines : List Line) → AreLaid lines (map vec_items self.now.places.items)
            → result ≡ true → length (places_of thread lines) ≤ done }
    {
        match self.places.get(thread as usize) {
            Some(places) => places.len() <= done,
            None => false,
        }
    }

    /// How many lines the thread has from the one after that many of its lines up to, and without,
    /// the place `end`.
    pub(crate) fn lines_between(&self, thread: u32, done: usize, end: usize) -> usize {
        let Some(places) = self.places.get(thread as usize) else {
            return 0;
        };
        places
            .partition_point(|place| *place < end)
            .saturating_sub(done)
    }

    /// The place, among all keys that the lines bind, of the first key that the line at that place
    /// binds.
    pub(crate) fn first(&self, place: usize) -> Option<usize>
        ensures { (lines : List Line) → AreFirsts lines self.now.firsts.items
            → IfSome result (λ first. first ≡ keys_in (take place lines)) }
    {
        // Where no line above is left out, it is that of the place.
        if let Some(first) = first_at(self.firsts.as_slice(), place, place) {
            return Some(first);
        }
        let index = self.firsts.partition_point(|one| one.place < place);
        first_at(self.firsts.as_slice(), index, place)
    }
}

// How many keys a call binds.
fn keys_by(call: &Call) -> usize
    ensures { result ≡ keys_by call.now }
{
    match call {
        Call::Put { .. } => 1,
        Call::Fill { count, .. } => *count as usize,
        Call::Get { .. } | Call::Set { .. } | Call::Free { .. } | Call::Sweep { .. } => 0,
        Call::Later { .. } | Call::Tend | Call::Trim | Call::Retire { .. } => 0,
        Call::End | Call::Begin => 0,
    }
}

// How many keys a line binds.
fn keys_at(line: &Line) -> usize
    ensures { result ≡ keys_at line.now }
{
    match line {
        Line::Call { call, .. } => keys_by(call),
        Line::Silent | Line::Adopt { .. } | Line::Mark => 0,
    }
}
