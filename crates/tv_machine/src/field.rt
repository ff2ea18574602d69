//! Fields: the controls whose values are saved.

ghost use Rattle.std.specs.Prelude.{◌≡◌};
ghost use Rattle.tv_machine.specs.Safe.{is_field};

use tv_model::Kind;

/// Whether a control of the kind has a value that is saved.
pub fn is_field(kind: &Kind) -> bool
    ensures { result ≡ is_field kind.now }
{
    matches!(
        kind,
        Kind::Input(_) | Kind::CheckBoxes(_) | Kind::RadioButtons(_) | Kind::List(_)
    )
}
