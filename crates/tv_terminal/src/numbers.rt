//! The numbers of a sequence.

ghost use Rattle.std.specs.Prelude.{◌≡◌, ◌≤◌, ◌<◌};
ghost use Rattle.tv_terminal.specs.Sequences.{with_byte, with_digit};

/// One to three numbers, or what no sequence with a meaning has in their place.
#[derive(Clone, Copy, Debug)]
pub(crate) enum Numbers {
    One(u32),
    Two(u32, u32),
    Three(u32, u32, u32),
    Other,
}

fn with_digit(number: u32, digit: u8) -> u32
    requires { (48 ≤ digit) × (digit ≤ 57) }
    ensures { result ≡ with_digit number digit }
{
    let digit = u32::from(digit - b'0');
    number
        .saturating_mul(10)
        .saturating_add(digit)
        .min(2_000_000)
}

impl Numbers {
    // With one byte more: a digit, or the `;` before the next number.
    pub(crate) fn with_byte(self, byte: u8) -> Numbers
        ensures { result ≡ with_byte self byte }
    {
        match self {
            Numbers::One(x) if byte == b';' => Numbers::Two(x, 0),
            Numbers::One(x) if byte.is_ascii_digit() => Numbers::One(with_digit(x, byte)),
            Numbers::Two(x, y) if byte == b';' => Numbers::Three(x, y, 0),
            Numbers::Two(x, y) if byte.is_ascii_digit() => Numbers::Two(x, with_digit(y, byte)),
            Numbers::Three(x, y, z) if byte.is_ascii_digit() => {
                Numbers::Three(x, y, with_digit(z, byte))
            }
            _ => Numbers::Other,
        }
    }
}
