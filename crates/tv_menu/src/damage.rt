//! What the bar, the box of the open menu and the status line show otherwise than before.

ghost use Rattle.std.specs.Prelude.{◌≡◌, ◌↔◌, [], ◌∷◌, ◌++◌, All, IsTrue, ℤ, true};
ghost use Rattle.tv_cells.specs.Damage.{AddsAll, Grows, Holds, has};
ghost use Rattle.tv_cells.specs.Picture.{Picture};
ghost use Rattle.tv_cells.specs.Repainting.{AreAlike};
ghost use Rattle.tv_cells.specs.declared.rect.Rect.{Rect as Region};
ghost use Rattle.tv_machine.specs.State.{State};
ghost use Rattle.tv_machine.specs.Screen.Layers.{bar_layer, box_layers, status_layer};
ghost use Rattle.tv_model.specs.declared.desc.Desc.{Desc as Declared};
ghost use Rattle.tv_menu.specs.Bar.{IsBarOf, open_of};
ghost use Rattle.tv_menu.specs.Cells.{is_item_in};
ghost use Rattle.tv_menu.specs.Damage.{bar_row, box_rects, line_row, menu_seen};
ghost use Rattle.tv_menu.specs.Lawful.{IsLawfulStatusItem};
ghost use Rattle.tv_menu.specs.Line.{AreEnabled, IsStatusLineOf};

use crate::bars::{MenuBar, StatusLine};
use crate::effect::{Place, menu_of};
use crate::status::is_enabled;
use tv_cells::{Damage, Rect};
use tv_event::CommandSet;
use tv_faces::rect_at;
use tv_model::StatusItem;

// Whether each item is enabled in both sets, or in neither.
#[tactic(auto, using(crate::proofs::LawfulLemmas::items_behind, crate::proofs::LawfulLemmas::item_ahead))]
fn are_same(items: &[StatusItem], old: &CommandSet, new: &CommandSet) -> bool
    requires { All IsLawfulStatusItem items.now }
    ensures { IsTrue result ↔ All (λ item. is_item_in old.now item ≡ is_item_in new.now item) items.now }
{
    match items.split_first() {
        Some((item, others)) => {
            is_enabled(item, old) == is_enabled(item, new) && are_same(others, old, new)
        }
        None => true,
    }
}

impl MenuBar {
    /// Returns which menu is open, and its current item, or `None` while no menu is open.
    pub fn opened(&self) -> Option<Place>
        ensures { menu_seen result ≡ open_of self.now }
    {
        self.open
    }

    /// Adds what the bar and the box show otherwise than with the menu open that was open before: the bar's row where
    /// it was another menu, and the boxes of both with their shadows. Adds nothing where the same item of the same menu
    /// is the current one.
    pub fn damage_since(&self, before: Option<Place>, damage: &mut Damage)
        ensures bar { (d : Declared) (p : Picture) → IsBarOf d self.now
            → AreAlike p damage.new (bar_layer d (menu_seen before) ∷ []) (bar_layer d (open_of self.now) ∷ []) }
        ensures menu { (d : Declared) (p : Picture) → IsBarOf d self.now
            → AreAlike p damage.new (box_layers d (menu_seen before)) (box_layers d (open_of self.now)) }
        ensures kept { (x y : ℤ) → has damage.old x y ≡ true → has damage.new x y ≡ true }
        ensures within { (d : Declared) (r : Region) → IsBarOf d self.now → Holds r damage.old
            → Holds r (bar_row self.now ∷ box_rects d (menu_seen before) ++ box_rects d (open_of self.now)) → Holds r damage.new }
        ensures same { menu_seen before ≡ open_of self.now → damage.new ≡ damage.old }
    {
        if before == self.open {
            return;
        }
        self.add_row(before, damage);
        self.add_box(before, damage);
        self.add_box(self.open, damage);
    }

    // Adds the bar's row, if another menu was open before.
    fn add_row(&self, before: Option<Place>, damage: &mut Damage)
        ensures bar { (d : Declared) (p : Picture) → IsBarOf d self.now
            → AreAlike p damage.new (bar_layer d (menu_seen before) ∷ []) (bar_layer d (open_of self.now) ∷ []) }
        ensures grown { Grows (bar_row self.now) damage.old damage.new }
    {
        if menu_of(before) != self.open_place() {
            damage.add(self.row());
        }
    }

    fn row(&self) -> Rect
        ensures { result ≡ bar_row self.now }
    {
        rect_at(&0, &0, &self.width, &1)
    }

    // Adds the box of an open menu with its shadow.
    fn add_box(&self, place: Option<Place>, damage: &mut Damage)
        ensures kept { (x y : ℤ) → has damage.old x y ≡ true → has damage.new x y ≡ true }
        ensures added { (d : Declared) → IsBarOf d self.now → AddsAll (box_rects d (menu_seen place)) damage.old damage.new }
    {
        if let Some(current) = place {
            damage.add_with_shadow(self.box_of(current.menu));
        }
    }
}

impl StatusLine {
    /// Adds the row of the line, if an item is enabled in one set of commands and not in the other.
    pub fn damage_between(&self, old: &CommandSet, new: &CommandSet, damage: &mut Damage)
        ensures line { (d : Declared) (s t : State) (p : Picture) → IsStatusLineOf d self.now → AreEnabled d s old.now
            → AreEnabled d t new.now
            → AreAlike p damage.new (status_layer d s ∷ []) (status_layer d t ∷ []) }
        ensures grown { Grows (line_row self.now) damage.old damage.new }
        ensures same { All (λ item. is_item_in old.now item ≡ is_item_in new.now item) self.now.items → damage.new ≡ damage.old }
    {
        if !are_same(self.items.as_slice(), old, new) {
            damage.add(self.row());
        }
    }

    fn row(&self) -> Rect
        ensures { result ≡ line_row self.now }
    {
        rect_at(&0, &(self.height - 1), &self.width, &1)
    }
}
