//! Numbers in decimal digits.

ghost use Rattle.std.specs.Prelude.{◌≡◌, IfSome};
ghost use Rattle.std.specs.Char.{is_ascii_digit};
ghost use Rattle.std.specs.List.{list_all};
ghost use Rattle.std.specs.Str.Parse.{AllDigits, digits_value};
ghost use Rattle.certificate.specs.Number.{number_in};
ghost use Rattle.trace_text.specs.Number.{clipped_number, HasValue, KeepsNumber};

/// A number in digits, of any length.
#[derive(Clone, Copy)]
pub enum Number {
    /// Its value.
    Fits(u128),
    /// It is above the greatest `u128`.
    Large,
}

/// Whether each byte is a digit.
fn has_digits_only(word: &[u8]) -> bool
    ensures { result ≡ list_all is_ascii_digit word.now }
{
    word.iter().all(|b| b.is_ascii_digit())
}

/// The number that the word says, or none where it is not a number in digits without a sign and
/// without a leading zero.
pub fn parse_number(word: &[u8]) -> Option<Number>
    ensures { KeepsNumber result (number_in word.now) }
{
    match word {
        [] | [b'0', _, ..] => None,
        _ => {
            if !has_digits_only(word) {
                return None;
            }
            Some(value_of(word))
        }
    }
}

/// The value of digits, where it is below 2^64. Most are, and a register holds them.
fn short_value(digits: &[u8]) -> Option<u64>
    requires { AllDigits 10 digits.now }
    ensures { IfSome result (λ value. value ≡ digits_value 10 digits.now) }
{
    let mut value: u64 = 0;
    for digit in digits {
        let tens = value.checked_mul(10)?;
        value = tens.checked_add(u64::from(*digit - b'0'))?;
    }
    Some(value)
}

/// The value of digits, however large.
fn long_value(digits: &[u8]) -> Number
    requires { AllDigits 10 digits.now }
    ensures { HasValue result (digits_value 10 digits.now) }
{
    let mut value: u128 = 0;
    for digit in digits {
        let Some(tens) = value.checked_mul(10) else {
            return Number::Large;
        };
        let Some(more) = tens.checked_add(u128::from(*digit - b'0')) else {
            return Number::Large;
        };
        value = more;
    }
    Number::Fits(value)
}

/// The value of digits.
fn value_of(digits: &[u8]) -> Number
    requires { AllDigits 10 digits.now }
    ensures { HasValue result (digits_value 10 digits.now) }
{
    match short_value(digits) {
        Some(value) => Number::Fits(u128::from(value)),
        None => long_value(digits),
    }
}

/// The number that a word says. One that does not fit is kept as the greatest that does.
pub fn clipped_number(word: &[u8]) -> Option<u32>
    ensures { result ≡ clipped_number (number_in word.now) }
{
    let number = match parse_number(word)? {
        Number::Fits(n) => n.min(u128::from(u32::MAX)) as u32,
        Number::Large => u32::MAX,
    };
    Some(number)
}
