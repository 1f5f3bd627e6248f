// Numbers in decimal digits.
ghost use Rattle.std.specs.Prelude.{◌≡◌, option_map};
ghost use Rattle.std.specs.Char.{is_ascii_digit};
ghost use Rattle.std.specs.List.{list_all};
ghost use Rattle.std.specs.Str.Parse.{AllDigits, digits_value};
ghost use Rattle.certificate.specs.Number.{clip, number_in};

/// The number that the word says, or `None` where it is not a number in digits without a sign and
/// without a leading zero. A number that does not fit is kept as the greatest that does.
pub(super) fn parse_number(word: &[u8]) -> Option<u32>
    ensures { result ≡ option_map clip (number_in word.now) }
{
    match word {
        [] | [b'0', _, ..] => None,
        _ => {
            if !has_digits_only(word) {
                return None;
            }
            Some(value_of(word))
        }
    }
}

/// Whether each byte is a digit.
fn has_digits_only(word: &[u8]) -> bool
    ensures { result ≡ list_all is_ascii_digit word.now }
{
    word.iter().all(|byte| byte.is_ascii_digit())
}

/// The value of digits.
fn value_of(digits: &[u8]) -> u32
    requires { AllDigits 10 digits.now }
    ensures { result ≡ clip (digits_value 10 digits.now) }
{
    let mut value: u32 = 0;
    for digit in digits {
        value = value
            .saturating_mul(10)
            .saturating_add(u32::from(*digit - b'0'));
    }
    value
}
