// Rows of bits that keep to one class.
ghost use Rattle.std.specs.Prelude.{◌≡◌, ◌==◌, ◌&&◌, ◌||◌, ◌+◌, ◌*◌, ◌/◌, ◌<◌, ◌≤◌, ℕ, IfOk, MatchOption, length};
ghost use Rattle.std.specs.Bool.{OnTrue};
ghost use Rattle.std.specs.List.{list_all};
ghost use Rattle.bitmap.specs.Slots.{has_bit};
ghost use Rattle.lane_kernels.specs.Rows.{row_at, width_of as row_words};
ghost use Rattle.span.specs.Classes.{width_of};
ghost use Rattle.span.specs.declared.class.Class.{Class};
ghost use Rattle.span.specs.declared.class.TheConstants.{CLASSES};
ghost use Rattle.mesh_graph.specs.Masked.{AreAsWide, AreMasks, AreOfOneClass, HasRows, HaveClassBits, is_kept, mask_in};

use crate::graph::row_of;
use span::names::{CLASSES, Class, Entry};
use std::alloc::{AllocError, Global};

/// The owned groups of each class, as a row of bits: that of a class stands at its number.
#[derive(Drop)]
pub struct Masks {
    words: Vec<u64>,
    // How many words a row has.
    width: usize,
}

impl Masks {
    /// The masks of the owned groups; none where the groups of both sides are of one class.
    pub(crate) fn of(
        alloc: Global,
        abandoned: &[Entry],
        owned: &[Entry],
    ) -> Result<Option<Masks>, AllocError>
        ensures { IfOk result (λ masks. MatchOption masks (AreOfOneClass abandoned.now owned.now)
            (AreMasks owned.now)) }
    {
        if are_of_one_class(abandoned, owned) {
            return Ok(None);
        }
        let width = (owned.len() + 63) / 64;
        let words = mask_words(alloc, owned, width)?;
        Ok(Some(Masks { words, width }))
    }

    /// The mask of the class.
    fn mask(&self, class: Class) -> &[u64]
        requires { HasRows self.now self.now.width }
        ensures { result.now ≡ mask_in self.now class }
    {
        row_of(&self.words, self.width, class.number())
    }
}

/// Whether all groups are of one class, where there is an owned one.
fn are_of_one_class(abandoned: &[Entry], owned: &[Entry]) -> bool
    ensures { OnTrue result (AreOfOneClass abandoned.now owned.now) }
{
    match owned {
        [] => true,
        [first, ..] => {
            if !are_all_of(first.class, owned) {
                return false;
            }
            are_all_of(first.class, abandoned)
        }
    }
}

fn are_all_of(class: Class, entries: &[Entry]) -> bool
    ensures { result ≡ list_all (λ x. width_of x.class == width_of class) entries.now }
{
    entries
        .iter()
        .all(|entry| entry.class.words() == class.words())
}

/// The masks of all classes, one after another. Each owned group sets a bit in that of its class.
fn mask_words(alloc: Global, owned: &[Entry], width: usize) -> Result<Vec<u64>, AllocError>
    requires { width ≡ row_words (length owned.now) }
    ensures size { IfOk result (λ words. length words.items ≡ width * CLASSES) }
    ensures bits { IfOk result (λ words. HaveClassBits owned.now width words.items) }
{
    let mut words = vec![in alloc; 0; width * CLASSES]?;
    for j in 0..owned.len() {
        set_bit(&mut words, width, owned[j].class.number(), j);
    }
    Ok(words)
}

/// Sets bit `j` of row `i` of rows that stand one after another.
fn set_bit(words: &mut [u64], width: usize, i: usize, j: usize)
    requires bit { j / 64 < width }
    requires within { width * i + width ≤ length words.old }
    ensures len { length words.new ≡ length words.old }
    ensures bits { (k q : ℕ) → has_bit (row_at width words.new k) q
        ≡ ((k == i && q == j) || has_bit (row_at width words.old k) q) }
{
    words[width * i + j / 64] |= 1 << (j % 64);
}

/// Clears the bits of groups that are of another class.
pub(crate) fn keep_class(masks: &Option<Masks>, class: Class, row: &mut [u64])
    requires { AreAsWide masks.now (length row.old) }
    ensures len { length row.new ≡ length row.old }
    ensures bits { (j : ℕ) → has_bit row.new j ≡ (is_kept masks.now class j && has_bit row.old j) }
{
    if let Some(masks) = masks {
        keep(masks.mask(class), row);
    }
}

/// Clears the bits that the mask lacks.
fn keep(mask: &[u64], row: &mut [u64])
    requires { length mask.now ≡ length row.old }
    ensures len { length row.new ≡ length row.old }
    ensures bits { (j : ℕ) → has_bit row.new j ≡ (has_bit mask.now j && has_bit row.old j) }
{
    for w in 0..row.len() {
        row[w] &= mask[w];
    }
}
