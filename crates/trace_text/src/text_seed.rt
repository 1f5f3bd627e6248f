//! The hash of names.

use std::hash::{BuildHasher, DefaultHasher, FoldHasher, Hasher};

/// Hashes names by std's fast hash, which begins with a hash of the whole text (SipHash-1-3).
/// Whoever writes a text of names whose hashes are alike changes the hashes by the names that he
/// writes, as a seed of its own for each run would, and the same text takes the same time in each
/// run.
#[derive(Clone, Copy)]
pub struct TextSeed {
    begun: FoldHasher,
}

impl TextSeed {
    /// The seed of a text.
    pub fn of(text: &[u8]) -> TextSeed {
        let mut whole = DefaultHasher::new();
        whole.write(text);
        let mut begun = FoldHasher::default();
        begun.write(&whole.finish().to_le_bytes());
        TextSeed { begun }
    }
}

impl BuildHasher for TextSeed {
    type Hasher = FoldHasher;

    ghost build_hasher = { λ seed. seed.begun };

    fn build_hasher(&self) -> FoldHasher {
        self.begun
    }
}
