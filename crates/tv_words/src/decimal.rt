//! Numbers in decimal.

ghost use Rattle.std.specs.Prelude.{◌≡◌};
ghost use Rattle.tv_words.specs.Reading.Numbers.{add_digit, digits_in, magnitude, negative, positive, number_of};

// The number with one digit more, where it stays below 2^32.
fn add_digit(number: u32, ch: char) -> Option<u32>
    ensures { result ≡ add_digit number ch }
{
    let digit = ch.to_digit(10)?;
    number.checked_mul(10)?.checked_add(digit)
}

fn digits(text: &[char]) -> Option<u32>
    ensures { result ≡ digits_in text.now }
{
    let mut number = 0;
    for ch in text {
        number = add_digit(number, *ch)?;
    }
    Some(number)
}

// The digits of a number above 0.
fn magnitude(text: &[char]) -> Option<u32>
    ensures { result ≡ magnitude text.now }
{
    match text {
        [] | ['0', ..] => None,
        _ => digits(text),
    }
}

fn negative(magnitude: u32) -> Option<i32>
    ensures { result ≡ negative magnitude }
{
    i32::try_from(-i64::from(magnitude)).ok()
}

fn positive(magnitude: u32) -> Option<i32>
    ensures { result ≡ positive magnitude }
{
    i32::try_from(magnitude).ok()
}

/// Returns the number of which this is the decimal text, without a leading zero or a plus.
pub fn number(text: &[char]) -> Option<i32>
    ensures { result ≡ number_of text.now }
{
    match text {
        ['0'] => Some(0),
        ['-', digits @ ..] => negative(magnitude(digits)?),
        digits => positive(magnitude(digits)?),
    }
}
