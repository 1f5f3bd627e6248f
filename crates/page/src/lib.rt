//! A page: 256 words, in slots of 1 to 16 words, as many as there is room for.
//!
//! A [`Page`] has its words in memory as far as one was put, in one allocation of 256, 1,024, 2,048
//! or 4,096 bytes, and the rest reads as zeros. Who has the page has its words: a group owns its
//! page, moves with it from owner to owner without a word copied, and drops it, so that it goes
//! back to the allocator (no contract can say so). A page is 256 words whatever lies on it: a call
//! on a slot names the class of its objects. Several spans may lie on one page: so two half empty
//! pages become one, and the keys of both stay good (Mesh, PLDI 2019). Which span owns a slot is
//! nothing that a page knows.
//!
//! A page on which only zeros were put has no words in memory. Before an object is written,
//! [`Page::takes`] says whether the page needs more words for it, and [`Page::reserve`] takes them.
//! A [`MaybePage`] says besides whether there is a page at all.
//!
//! # Examples
//!
//! ```
//! let mut page = Page::blank(alloc);     // 256 words, all 0, and none of them in memory
//! page.reserve(alloc, Class::C16, 3)?;   // 16 of them are now
//! page.set_at(Class::C16, 3, &[7]);
//! assert_eq!(rt; page.value_at(Class::C16, 3), &[7]);
//! ```
#![tactic(auto)]

mod maybe_page;
mod object_of_zeros;
mod page;

pub use maybe_page::MaybePage;
pub use object_of_zeros::is_zeros;
pub use page::Page;
