// A page on its way from one owner to another, or none.
ghost use Rattle.std.specs.Prelude.{◌≡◌, None, false, is_some};
ghost use Rattle.page.specs.Words.{blank_page, page_of};

use crate::page::Page;
use std::alloc::Global;
use std::marker::Model;

/// What a group has of a page: one whose words are in memory as far as needed, or none. Contracts
/// see the words, if there is a page, and how many are in memory.
#[derive(Drop)]
pub struct MaybePage {
    words: Page,
    is_paged: bool,
}

impl Model for MaybePage {
    ghost use Rattle.std.specs.Prelude.{◌≡◌, false};
    ghost use Rattle.page.specs.Words.{MaybeState, blank_page, page_of};

    ghost Value = { MaybeState };

    ghost view = { λ a. record { page = page_of a.is_paged a.words.words; room = a.words.room } };

    ghost invariant = { λ a. a.is_paged ≡ false → a.words.words ≡ blank_page };
}

impl MaybePage {
    /// No page.
    pub fn none(alloc: Global) -> MaybePage
        ensures { result ≡ record { page = None; room = 0 } }
    {
        MaybePage {
            words: Page::blank(alloc),
            is_paged: false,
        }
    }

    /// The page, if `is_paged`, or else none, for which it has to be one of zeros.
    pub fn new(words: Page, is_paged: bool) -> MaybePage
        requires { is_paged ≡ false → words.words ≡ blank_page }
        ensures { result ≡ record { page = page_of is_paged words.words; room = words.room } }
    {
        MaybePage { words, is_paged }
    }

    /// Whether there is a page.
    pub fn is_some(&self) -> bool
        ensures { result ≡ is_some self.now.page }
    {
        self.is_paged
    }

    /// Its words, and whether there is a page: they are zeros if there is none.
    pub fn into_parts(self) -> (Page, bool)
        ensures page { self.page ≡ page_of result.1 result.0.words }
        ensures room { self.room ≡ result.0.room }
        ensures none { result.1 ≡ false → result.0.words ≡ blank_page }
    {
        (self.words, self.is_paged)
    }
}
