//! What windows show otherwise than before.

ghost use Rattle.std.specs.Prelude.{◌≡◌, ◌<◌, false, true, List, length, vec_capacity};
ghost use Rattle.tv_cells.specs.Picture.{Picture};
ghost use Rattle.tv_cells.specs.Repainting.{AreAlike};
ghost use Rattle.tv_group.specs.Stack.{raised_at};
ghost use Rattle.tv_machine.specs.Screen.Layers.{stack_layers};
ghost use Rattle.tv_machine.specs.State.{OpenWindow};
ghost use Rattle.tv_model.specs.declared.desc.Desc.{Desc};
ghost use Rattle.tv_cells.specs.Damage.{AddsAll, GrowsIn};
ghost use Rattle.tv_window.specs.Damage.{AreStacksAlike, WindowEnvDamages, front_rects, raised_rects, windows_of};
ghost use Rattle.tv_window.specs.Desk.{IsDesk};

use crate::desk::DeskOf;
use crate::head::looks_same;
use crate::window::WindowOf;
use tv_cells::Damage;
use tv_view::{Env, View};

impl<V: View> WindowOf<V> {
    /// Adds what it shows otherwise in another environment: all of it where its frame does, else what its views tell.
    pub fn env_damage(&self, old: &Env, new: &Env, damage: &mut Damage)
        ensures { WindowEnvDamages V.meaning old.now new.now self.now damage.old damage.new }
    {
        if looks_same(old, new) {
            let mut inner = Damage::new();
            self.body.env_damage(old, new, &mut inner);
            damage.add_within(&inner, self.bounds());
        } else {
            damage.add(self.bounds());
        }
    }
}

impl<V: View> DeskOf<V> {
    /// Adds the front window, which alone shows whether it is active.
    pub fn front_damage(&self, damage: &mut Damage)
        ensures active { (d : Desc) (stack : List OpenWindow) (p : Picture) → IsDesk V.meaning d stack self.now
            → AreAlike p damage.new (stack_layers d true stack) (stack_layers d false stack) }
        ensures added { AddsAll (front_rects (windows_of self.now)) damage.old damage.new }
    {
        if let Some(front) = self.windows.items.first() {
            damage.add(front.bounds());
        }
    }

    /// Brings the window at a place to the front. Adds it with its shadow, and the window that was in front, which is
    /// active no longer.
    pub(crate) fn raise(&mut self, place: usize, damage: &mut Damage)
        requires { place < length (windows_of self.old) }
        ensures windows { windows_of self.new ≡ raised_at (windows_of self.old) place }
        ensures damage { (d : Desc) (stack : List OpenWindow) → IsDesk V.meaning d stack self.old
            → AreStacksAlike d damage.new stack (raised_at stack place) }
        ensures grown { GrowsIn (raised_rects (windows_of self.old) place) damage.old damage.new }
        ensures room { vec_capacity self.new.windows.items ≡ vec_capacity self.old.windows.items }
    {
        if place > 0 {
            damage.add_with_shadow(self.windows.items[place].bounds());
            self.front_damage(damage);
            self.windows.raise(place);
        }
    }
}
