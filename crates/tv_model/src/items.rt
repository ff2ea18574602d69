//! Items by their numbers.

ghost use Rattle.std.specs.Prelude.{◌≡◌};
ghost use Rattle.tv_model.specs.Description.Rules.{is_item};

/// Whether the item is one of so many, counted from 1.
pub fn is_item(item: &i32, count: usize) -> bool
    ensures { result ≡ is_item item.now count }
{
    1 <= *item && i128::from(*item) <= count as i128
}
