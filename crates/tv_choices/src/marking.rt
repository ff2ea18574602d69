//! What clusters and lists damage by an event.

ghost use Rattle.std.specs.Prelude.{◌≡◌};
ghost use Rattle.tv_view.specs.Core.{leaf_with};
ghost use Rattle.tv_model.specs.Controls.Contents.{Content};
ghost use Rattle.tv_view.specs.Damage.{Damages};
ghost use Rattle.tv_view.specs.Effects.{StaysWherePassed};
ghost use Rattle.tv_view.specs.Meaning.{Leaf};

use tv_cells::Damage;
use tv_view::{LeafCore, Reaction};

/// Adds the rectangle of a control to the damage, unless this is the reaction of one that passed an event on.
pub(crate) fn mark_unless_passed(core: &LeafCore, reaction: Reaction, damage: &mut Damage)
    ensures { (old : Leaf) (content : Content) → old.node ≡ core.now.node
        → StaysWherePassed reaction old (leaf_with core.now content)
        → Damages old (leaf_with core.now content) damage.old damage.new }
{
    if reaction != Reaction::Pass {
        core.mark(damage);
    }
}
