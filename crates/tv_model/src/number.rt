//! Numbers of columns and rows.

ghost use Rattle.std.specs.Prelude.{◌≡◌};
ghost use Rattle.tv_model.specs.Description.Numbers.{natural};

/// Returns a number of columns or rows, 0 for one below it.
pub fn natural(number: &i32) -> u32
    ensures { result ≡ natural number.now }
{
    if *number < 0 { 0 } else { *number as u32 }
}
