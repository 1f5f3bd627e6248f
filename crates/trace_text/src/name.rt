//! Names, and references to the keys that they name.

ghost use Rattle.std.specs.Prelude.{◌≡◌, List, ℕ, IfSome, is_some, nat_eq, true};
ghost use Rattle.std.specs.Cmp.{on_equiv, on_per, partial_equiv_from_equiv};
ghost use Rattle.std.specs.Cmp.Lexicographic.{pointwise, nat_list_eq_equiv};
ghost use Rattle.std.specs.Cmp.Rules.{hashing};
ghost use Rattle.std.specs.Hash as fed;
ghost use Rattle.std.proofs.Common.{rules};
ghost use Rattle.trace_text.specs.Name.{is_name, has_name_bytes};

use super::numeral::clipped_number;
use super::words::parts;
use arrayvec::ArrayVec;
use std::hash::{Hash, Hasher};
use std::marker::Model;

/// The longest name has that many bytes.
const NAME_LENGTH: usize = 16;

/// A name: 1 to 16 small letters and digits, of which the first is a letter.
#[derive(Clone, Drop)]
pub struct Name {
    bytes: ArrayVec<u8, NAME_LENGTH>,
}

impl Model for Name {
    ghost Value = { List ℕ };

    ghost view = { λ name. name.bytes.items };

    ghost invariant = { λ name. is_name name.bytes.items ≡ true };
}

/// Whether each byte may stand in a name after its first.
fn has_name_bytes(bytes: &[u8]) -> bool
    ensures { result ≡ has_name_bytes bytes.now }
{
    bytes
        .iter()
        .all(|b| b.is_ascii_lowercase() || b.is_ascii_digit())
}

/// Whether the word is a name.
fn is_name(word: &[u8]) -> bool
    ensures { result ≡ is_name word.now }
{
    match word {
        [] => false,
        [first, rest @ ..] => {
            word.len() <= NAME_LENGTH && first.is_ascii_lowercase() && has_name_bytes(rest)
        }
    }
}

impl Name {
    /// The name that a word is.
    pub fn new(word: &[u8]) -> Option<Name>
        ensures some { is_some result ≡ is_name word.now }
        ensures name { IfSome result (λ name. name ≡ word.now) }
    {
        if !is_name(word) {
            return None;
        }
        let bytes = ArrayVec::try_from(word).ok()?;
        Some(Name { bytes })
    }

    /// The bytes of the name.
    pub fn as_bytes(&self) -> &[u8]
        ensures { result.now ≡ self.now }
    {
        self.bytes.as_slice()
    }
}

impl PartialEq for Name {
    ghost eq = { λ s t. pointwise nat_eq s t };

    ghost laws = { on_per (λ s. s) (partial_equiv_from_equiv nat_list_eq_equiv) };

    fn eq(&self, other: &Self) -> bool {
        self.as_bytes() == other.as_bytes()
    }
}

impl Eq for Name {
    ghost laws = { on_equiv (λ s. s) nat_list_eq_equiv };
}

impl Hash for Name {
    ghost hash_input = { λ s. fed.slice (λ b. fed.u8 b) s };

    ghost respects_eq = { Prim.search (hashing, rules) };

    fn hash<H: Hasher>(&self, state: &mut H) {
        self.as_bytes().hash(state);
    }
}

/// A name, or a name and an index, for one of the keys that the name is bound to.
#[derive(Drop)]
pub struct Reference {
    /// The name, which an earlier line binds.
    pub name: Name,
    /// Counted from 0, in the order of the fill.
    pub index: Option<u32>,
}

impl Reference {
    ghost use Rattle.trace_text.specs.Reference.{clipped_reference, reference_in};

    /// The reference that a word is. An index that does not fit is kept as the greatest that does,
    /// since no name has such a key.
    #[inline(always)]
    pub fn new(word: &[u8]) -> Option<Reference>
        ensures { result ≡ clipped_reference (reference_in word.now) }
    {
        let parts = parts(b'.', word)?;
        match parts.as_slice() {
            [name] => Some(Reference {
                name: Name::new(name)?,
                index: None,
            }),
            [name, index] => Some(Reference {
                name: Name::new(name)?,
                index: Some(clipped_number(index)?),
            }),
            _ => None,
        }
    }
}
