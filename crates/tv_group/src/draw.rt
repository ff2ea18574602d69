//! Drawing groups, and what another environment changes of that.

ghost use Rattle.std.specs.Prelude.{◌≡◌};
ghost use Rattle.tv_cells.specs.Rectangle.{IsPointNear};
ghost use Rattle.tv_view.specs.Damage.{AllEnvDamages, AllEnvDrawn};
ghost use Rattle.tv_view.specs.Drawing.{is_near, leaves_layers};
ghost use Rattle.tv_cells.specs.Layers.{Lays};

use crate::group::{GroupOf, MemberOf};
use tv_cells::{Canvas, Damage, Point, Screen};
use tv_view::{Env, View};

fn is_near(point: Point) -> bool
    ensures { result ≡ is_near point }
{
    -100_000 <= point.x && point.x <= 100_000 && -100_000 <= point.y && point.y <= 100_000
}

impl<V: View> MemberOf<V> {
    ghost use Rattle.tv_group.specs.Opened.{opened_member};

    #[cycle(draw)]
    fn draw(&self, screen: &mut Screen, canvas: Canvas, env: &Env)
        requires { IsPointNear canvas.origin }
        ensures { Lays (leaves_layers env.now canvas (opened_member V.meaning self.now)) screen.old screen.new }
    {
        match self {
            MemberOf::Leaf(view) => view.draw(screen, canvas, env),
            MemberOf::Pane(group) => group.draw(screen, canvas, env),
        }
    }

    #[cycle(env_damage)]
    fn env_damage(&self, old: &Env, new: &Env, damage: &mut Damage)
        ensures { AllEnvDrawn old.now new.now (opened_member V.meaning self.now) damage.old damage.new }
    {
        match self {
            MemberOf::Leaf(view) => view.env_damage(old, new, damage),
            MemberOf::Pane(group) => group.env_damage(old, new, damage),
        }
    }
}

impl<V: View> GroupOf<V> {
    ghost use Rattle.tv_group.specs.Opened.{group_bounds, opened};

    /// Draws the leaves that are shown, the last on top, each cut by the groups around it.
    #[cycle(draw)]
    pub fn draw(&self, screen: &mut Screen, canvas: Canvas, env: &Env)
        requires { IsPointNear canvas.origin }
        ensures { Lays (leaves_layers env.now canvas (opened V.meaning self.now)) screen.old screen.new }
    {
        let inner = canvas.sub(self.bounds.rect());
        if !is_near(inner.origin) || inner.clip.is_empty() {
            return;
        }
        for member in &self.members {
            member.draw(screen, inner, env);
        }
    }

    /// Adds what its leaves show otherwise under another environment.
    #[cycle(env_damage)]
    pub fn env_damage(&self, old: &Env, new: &Env, damage: &mut Damage)
        ensures { AllEnvDamages (group_bounds self.now) old.now new.now (opened V.meaning self.now) damage.old damage.new }
    {
        let mut inner = Damage::new();
        for member in &self.members {
            member.env_damage(old, new, &mut inner);
        }
        damage.add_within(&inner, self.bounds.rect());
    }
}
