// Where the words of each block of changes begin. The first block's begin at 0, which is not kept.
ghost use Rattle.std.specs.Prelude.{◌≡◌, ◌≤◌, ◌<◌, ◌+◌, ◌++◌, ◌∷◌, [], length, vec_len, vec_capacity};
ghost use Rattle.span.specs.Stored.{base_of};

/// Where the words of the block begin.
pub(crate) fn base_of(bases: &[usize], block: usize) -> usize
    requires { block ≤ length bases.now }
    ensures { result ≡ base_of bases.now block }
{
    if block == 0 { 0 } else { bases[block - 1] }
}

/// Notes, in reserved room, that the words of the block begin at the word `first`, if it is the
/// first block that isn't noted.
pub(crate) fn begin_block(bases: &mut Vec<usize>, block: usize, first: usize)
    requires next { block ≤ length bases.old.items + 1 }
    requires room { block ≤ vec_capacity bases.old }
    ensures noted { block ≤ length bases.old.items → bases.new.items ≡ bases.old.items }
    ensures new { length bases.old.items < block → bases.new.items ≡ bases.old.items ++ first ∷ [] }
    ensures capacity { vec_capacity bases.new ≡ vec_capacity bases.old }
{
    if block > bases.len() {
        bases.push_reserved(first);
    }
}
