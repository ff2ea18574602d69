//! Texts of whole numbers between two bounds.

ghost use Rattle.std.specs.Prelude.{◌≡◌, ◌↔◌, ◌+◌, ◌^◌, ◌≤◌, ◌<◌, ◌≤ℤ◌, ◌<ℤ◌, min, ℕ, List, length, pos, neg_ℤ, unsigned_abs, IsTrue, IfSome, IfNone};
ghost use Rattle.tv_valid.specs.Domain.{number_of_digits, IsDigits, IsFromTo, InRange, IsRangeChar, HasNumber};

/// The bound on a sum of digits: more than any bound of a range.
const LARGE: u64 = 10_000_000_000;

/// Returns the value of the digits, or `LARGE` where that is less; `None` where there are none, or a character is no
/// digit.
fn magnitude(digits: &[char]) -> Option<u64>
    ensures some { IfSome result (λ sum. IsDigits digits.now × (sum ≡ min (number_of_digits digits.now) 10000000000)) }
    ensures none { IfNone result (IsDigits digits.now → ⊥) }
{
    if digits.is_empty() {
        return None;
    }
    let mut sum = 0u64;
    for ch in digits {
        if !ch.is_ascii_digit() {
            return None;
        }
        sum = (sum * 10 + u64::from(u32::from(*ch) - 48)).min(LARGE);
    }
    Some(sum)
}

fn is_at_least(least: &i32, sum: u64) -> bool
    requires { sum ≤ 10000000000 }
    ensures { (value : ℕ) → sum ≡ min value 10000000000 → (IsTrue result ↔ (least.now ≤ℤ pos value)) }
{
    i64::from(*least) <= sum as i64
}

fn is_at_most(sum: u64, greatest: &i32) -> bool
    requires { sum ≤ 10000000000 }
    ensures { (value : ℕ) → sum ≡ min value 10000000000 → (IsTrue result ↔ (pos value ≤ℤ greatest.now)) }
{
    sum as i64 <= i64::from(*greatest)
}

fn is_negative_at_least(least: &i32, sum: u64) -> bool
    requires { sum ≤ 10000000000 }
    ensures { (value : ℕ) → sum ≡ min value 10000000000 → (IsTrue result ↔ (least.now ≤ℤ neg_ℤ (pos value))) }
{
    i64::from(*least) <= -(sum as i64)
}

fn is_negative_at_most(sum: u64, greatest: &i32) -> bool
    requires { sum ≤ 10000000000 }
    ensures { (value : ℕ) → sum ≡ min value 10000000000 → (IsTrue result ↔ (neg_ℤ (pos value) ≤ℤ greatest.now)) }
{
    -(sum as i64) <= i64::from(*greatest)
}

/// Whether the digits write a number in the range.
fn digits_in_range(least: &i32, greatest: &i32, digits: &[char]) -> bool
    ensures { IsTrue result ↔ (IsDigits digits.now × IsFromTo least.now (pos (number_of_digits digits.now)) greatest.now) }
{
    match magnitude(digits) {
        Some(sum) => is_at_least(least, sum) && is_at_most(sum, greatest),
        None => false,
    }
}

/// Whether the digits after a `-` write a number in the range.
fn negative_in_range(least: &i32, greatest: &i32, digits: &[char]) -> bool
    ensures { IsTrue result
        ↔ (IsDigits digits.now × (least.now <ℤ pos 0)
        × IsFromTo least.now (neg_ℤ (pos (number_of_digits digits.now))) greatest.now) }
{
    match magnitude(digits) {
        Some(sum) => *least < 0
            && is_negative_at_least(least, sum)
            && is_negative_at_most(sum, greatest),
        None => false,
    }
}

/// Whether the text writes a number in the range.
pub fn in_range(least: &i32, greatest: &i32, text: &[char]) -> bool
    ensures { IsTrue result ↔ InRange least.now greatest.now text.now }
{
    match text {
        ['+', digits @ ..] => digits_in_range(least, greatest, digits),
        ['-', digits @ ..] => negative_in_range(least, greatest, digits),
        digits => digits_in_range(least, greatest, digits),
    }
}

/// Whether the character may stand in the text of a number that is at least `least`.
pub fn is_range_char(least: &i32, ch: char) -> bool
    ensures { IsTrue result ↔ IsRangeChar least.now ch }
{
    ch == '+' || ch.is_ascii_digit() || (ch == '-' && *least < 0)
}

/// Whether so many digits are enough for the number.
fn has_digits(number: u64, digits: usize) -> bool
    requires { digits ≤ 120 }
    ensures { IsTrue result ↔ (number < 10 ^ digits) }
{
    let mut left = number;
    for _ in 0..digits {
        left /= 10;
    }
    left == 0
}

fn size(number: &i32) -> u64
    ensures { result ≡ unsigned_abs number.now }
{
    u64::from(number.unsigned_abs())
}

/// Whether a text of at most `room` characters writes a number in the range.
pub fn has_text(least: &i32, greatest: &i32, room: usize) -> bool
    requires { room ≤ 120 }
    ensures { IsTrue result ↔ HasNumber least.now greatest.now room }
{
    if *least > *greatest || room == 0 {
        return false;
    }
    if *least > 0 {
        return has_digits(size(least), room);
    }
    if *greatest < 0 {
        return has_digits(size(greatest), room - 1);
    }
    true
}
