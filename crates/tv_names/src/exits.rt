//! F17: rules over the ways out of a dialog or a window.

ghost use Rattle.std.specs.Prelude.{◌≡◌};
ghost use Rattle.tv_model.specs.Faults.Letters.{rules_cancel};

use tv_model::{CommandSpec, Effect, Rule};

/// Whether the rule could disable the way out of a dialog or a window: `cancel` or `close`.
pub fn rules_cancel(rule: &Rule) -> bool
    ensures { result ≡ rules_cancel rule.now }
{
    matches!(
        rule.effect,
        Effect::Enable(CommandSpec::Cancel | CommandSpec::Close)
    )
}
