// Objects whose words are all 0.
ghost use Rattle.std.specs.Prelude.{◌≡◌, ◌≤◌, length, true};
ghost use Rattle.page.specs.Words.{is_zeros};

// The widest object, where it is zeros.
static ZEROS: [u128; 16] = [0; 16];

/// Whether each word of the object is 0. Such an object needs no words in memory.
pub fn is_zeros(object: &[u128]) -> bool
    ensures { result ≡ is_zeros object.now }
{
    object.iter().all(|word| *word == 0)
}

/// An object of zeros.
#[inline(always)]
pub(crate) fn zeros(width: usize) -> &'static [u128]
    requires { width ≤ 16 }
    ensures zeros { is_zeros result.now ≡ true }
    ensures width { length result.now ≡ width }
{
    &ZEROS[..width]
}
