//! Keys of status items.

ghost use Rattle.std.specs.Prelude.{◌≡◌};
ghost use Rattle.tv_model.specs.Faults.Letters.{is_same_key};

use tv_event::Key;

/// Whether the two are the same key of those that a status item may have.
pub fn is_same_key(key: Key, other: Key) -> bool
    ensures { result ≡ is_same_key key other }
{
    match (key, other) {
        (Key::Function(number), Key::Function(other)) => number == other,
        (Key::Ctrl(letter), Key::Ctrl(other)) => letter == other,
        (Key::Alt(ch), Key::Alt(other)) => ch == other,
        _ => false,
    }
}
