//! The lines below a header.

ghost use Rattle.std.specs.Prelude.{◌≡◌, ◌<◌, ◌≤◌, ◌-◌, ◌^◌, ◌++◌, ◌∷◌, [], ℕ, List, IfNone, IfSome, OnErr, OnOk, Some, false, length, nat_lt, option_map, slice_get};
ghost use Rattle.std.specs.List.{find};
ghost use Rattle.trace_text.specs.AllLines.{AllLines, AreInOrder, is_at, lines_kept};
ghost use Rattle.trace_text.specs.Causes.{speaks};
ghost use Rattle.trace_text.specs.declared.line_list.KeptLine.{KeptLine};
ghost use Rattle.trace_text.specs.declared.line.Line.TheVariants as line;

use super::line::Line;
use std::alloc::{AllocError, Global};
use std::marker::Model;

/// A line that is neither empty nor a remark.
#[derive(Drop)]
pub struct KeptLine {
    /// Its place among all lines, from 0.
    place: usize,
    /// The place of the first key that it reads among all keys that the lines bind; 0 where it
    /// reads none.
    reads: usize,
    line: Line,
}

/// The lines below a header, so that the first is line 6 of the text. Empty lines and remarks take
/// no memory.
#[derive(Drop)]
pub struct LineList {
    /// The others, in order.
    kept: Vec<KeptLine>,
    /// How many lines there are.
    count: usize,
    /// What is lent for a line that is not kept.
    silent: Line,
}

impl Model for LineList {
    ghost Value = { AllLines };

    ghost view = { λ l. lines_kept l.kept.items l.count };

    ghost invariant = { λ l. AreInOrder l.kept.items l.count × (l.count < 2 ^ 63)
        × (l.silent ≡ line.Silent) };
}

// How many of the lines that are kept stand above that place.
fn count_above(kept: &[KeptLine], place: usize) -> usize
    requires { (count : ℕ) × AreInOrder kept.now count }
    ensures within { result ≤ length kept.now }
    ensures above { (other : ℕ) (one : KeptLine) → other < result
        → slice_get kept.now other ≡ Some one → one.place < place }
    ensures others { (other : ℕ) (one : KeptLine) → result ≤ other
        → slice_get kept.now other ≡ Some one → place ≤ one.place }
{
    kept.partition_point(
        |one: &KeptLine| -> bool
            ensures { result ≡ nat_lt one.now.place place }
        { one.place < place },
    )
}

// The line of that index, where it is kept for that place.
fn kept_there(kept: &[KeptLine], index: usize, place: usize) -> Option<&KeptLine>
    ensures some { (count : ℕ) → AreInOrder kept.now count → IfSome result
        (λ one. find (is_at place) kept.now ≡ Some one.now) }
    ensures none { IfNone result ((one : KeptLine) → slice_get kept.now index ≡ Some one
        → one.place ≡ place → ⊥) }
{
    if index >= kept.len() {
        return None;
    }
    let one = &kept[index];
    if one.place == place { Some(one) } else { None }
}

// What is kept for that place. Most texts have no line that is not kept above it, or none below it,
// and then no search is needed.
fn find_kept(kept: &[KeptLine], count: usize, place: usize) -> Option<&KeptLine>
    requires { (least : ℕ) × AreInOrder kept.now least }
    ensures { option_map (λ one. one.now) result ≡ find (is_at place) kept.now }
{
    if let Some(one) = kept_there(kept, place, place) {
        return Some(one);
    }
    let below = count.saturating_sub(place);
    if let Some(one) = kept_there(kept, kept.len().saturating_sub(below), place) {
        return Some(one);
    }
    if let Some(one) = kept_there(kept, count_above(kept, place), place) {
        return Some(one);
    }
    None
}

impl LineList {
    /// No line.
    pub fn new(alloc: Global) -> LineList
        ensures lines { result.items ≡ [] }
        ensures places { result.places ≡ [] }
    {
        LineList {
            kept: Vec::new(alloc),
            count: 0,
            silent: Line::Silent,
        }
    }

    /// How many lines there are.
    pub fn len(&self) -> usize
        ensures len { result ≡ length self.now.items }
        ensures few { result < 2 ^ 63 }
    {
        self.count
    }

    /// The line at that place, from 0.
    pub fn line_at(&self, place: usize) -> &Line
        requires { place < length self.now.items }
        ensures { slice_get self.now.items place ≡ Some result.now }
    {
        match find_kept(self.kept.as_slice(), self.count, place) {
            Some(one) => &one.line,
            None => &self.silent,
        }
    }

    /// The line at that place, from 0, where there are so many.
    pub fn get(&self, place: usize) -> Option<&Line>
        ensures { option_map (λ line. line.now) result ≡ slice_get self.now.items place }
    {
        if place >= self.len() {
            return None;
        }
        Some(self.line_at(place))
    }

    /// The place of the first key that the line at that place reads among all keys that the lines
    /// bind; 0 where it reads none.
    pub fn place_read(&self, place: usize) -> usize
        requires { place < length self.now.items }
        ensures { slice_get self.now.places place ≡ Some result }
    {
        match find_kept(self.kept.as_slice(), self.count, place) {
            Some(one) => one.reads,
            None => 0,
        }
    }

    /// Adds a line, with the place of the first key that it reads, which is 0 where it is empty or
    /// a remark.
    ///
    /// # Errors
    ///
    /// `AllocError` where memory is refused for a line that is kept. The list is then as it was.
    pub fn push(&mut self, line: Line, reads: usize) -> Result<(), AllocError>
        requires silent { speaks line ≡ false → reads ≡ 0 }
        requires room { length self.old.items < 2 ^ 63 - 1 }
        ensures lines { OnOk result (self.new.items ≡ self.old.items ++ line ∷ []) }
        ensures places { OnOk result (self.new.places ≡ self.old.places ++ reads ∷ []) }
        ensures err { OnErr result (self.new ≡ self.old) }
    {
        let place = self.count;
        if let Line::Silent = line {
            self.count = place + 1;
            return Ok(());
        }
        self.kept.push(KeptLine { place, reads, line })?;
        self.count = place + 1;
        Ok(())
    }
}
