// How many bits a number takes.
ghost use Rattle.std.specs.Prelude.{◌≤◌, ◌^◌};
ghost use Rattle.key_bits.specs.Numbers.{IsLeastWidth};

/// The fewest bits by which so many numbers, from 0 on, are told apart.
pub(crate) fn width_of(count: u64) -> u32
    requires { count ≤ 2 ^ 32 }
    ensures least { IsLeastWidth count result }
    ensures at_most { result ≤ 32 }
{
    for bits in 0..32 {
        if count <= 1 << bits {
            return bits;
        }
    }
    32
}
