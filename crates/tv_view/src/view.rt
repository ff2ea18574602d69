//! The contract of a view.

ghost use Rattle.std.specs.Prelude.{◌≡◌, ◌↔◌, IsTrue};
ghost use Rattle.tv_cells.specs.Layers.{Lays};
ghost use Rattle.tv_cells.specs.Rectangle.{IsPointNear};
ghost use Rattle.tv_view.specs.Meaning.{Leaf, bounds_of, fresh, holds_mouse};
ghost use Rattle.tv_model.specs.Description.Rectangles.{IsSmallRect};
ghost use Rattle.tv_view.specs.Calls.{Fits, HasRoom, applied, focused_to, gathered, invalid_id, item_pressed, option_bits, set_from, state_bits, takes_focus};
ghost use Rattle.tv_view.specs.Damage.{Damages, EnvDamages};
ghost use Rattle.tv_view.specs.Drawing.{leaf_layers};
ghost use Rattle.tv_view.specs.Effects.{StaysWherePassed, handled};
ghost use Rattle.tv_view.specs.Reactions.{answer};

use crate::env::{Env, Rules};
use crate::reaction::Reaction;
use tv_cells::{Canvas, Damage, Rect, Screen};
use tv_event::{Event, Options, Phase, State};
use tv_model::{Id, Node, Record};

/// A control, a label or a static text.
///
/// The meaning of a view is a leaf: the node of its declaration, and how it stands now. The clauses of each call speak
/// of that leaf, and go by the node's kind. So a view type of any crate may take the place of the toolkit's own, but it
/// has to answer and show what a view of that kind does. Points and rectangles are seen from the corner of what the
/// view stands in.
///
/// A call that may change what it shows takes the damage, the points that are to be painted again. A point that the
/// damage lacks afterwards is drawn as before the call, and what it adds is the whole of the view's rectangle, or nothing
/// (`added` of `Damages` and of `EnvDamages`).
pub trait View: Drop {
    ghost meaning: { Self → Leaf };

    /// Returns the line of its declaration.
    fn id(&self) -> Id
        ensures { result ≡ (meaning self.now).node.id };

    /// Returns its rectangle, seen from the corner of what it stands in.
    fn bounds(&self) -> Rect
        ensures is { result ≡ bounds_of (meaning self.now) }
        ensures small { IsSmallRect result };

    /// Returns its flags as they are now: visible, selected and focused, disabled.
    fn state(&self) -> State
        ensures { result.0 ≡ state_bits (meaning self.now) };

    /// Returns what it asks of its owner, which its kind decides.
    fn options(&self) -> Options
        ensures { result.0 ≡ option_bits (meaning self.now).node.kind };

    /// Handles an event in a phase, and returns what it asks of its owner. The owner hands it only what it should get:
    /// a mouse down where it is the topmost visible view, moves and ups while it holds the mouse, and keys and commands
    /// while it is shown and enabled. A point may lie anywhere. A view that passes an event on stays as it is.
    fn handle(&mut self, event: &Event, phase: Phase, env: &Env, damage: &mut Damage) -> Reaction
        ensures reaction { result ≡ answer event.now phase env.now (meaning self.old) }
        ensures after { meaning self.new ≡ handled event.now phase env.now (meaning self.old) }
        ensures passed { StaysWherePassed result (meaning self.old) (meaning self.new) }
        ensures damage { Damages (meaning self.old) (meaning self.new) damage.old damage.new };

    /// Draws its face in its rectangle, which is seen from the canvas's origin. Draws nothing while it is hidden.
    fn draw(&self, screen: &mut Screen, canvas: Canvas, env: &Env)
        requires { IsPointNear canvas.origin }
        ensures { Lays (leaf_layers env.now canvas (meaning self.now)) screen.old screen.new };

    /// Moves the focus to control `id`. Returns whether this is that control; every other view loses the focus.
    fn focus_to(&mut self, id: Id, damage: &mut Damage) -> bool
        ensures found { result ≡ takes_focus id (meaning self.old) }
        ensures moved { meaning self.new ≡ focused_to id (meaning self.old) }
        ensures damage { Damages (meaning self.old) (meaning self.new) damage.old damage.new };

    /// Selects and presses an item, counted from 1, if the view is the cluster of the id and has the item.
    fn press_item(&mut self, id: Id, item: u8, damage: &mut Damage)
        ensures pressed { meaning self.new ≡ item_pressed id item (meaning self.old) }
        ensures damage { Damages (meaning self.old) (meaning self.new) damage.old damage.new };

    /// Whether it holds the mouse.
    fn held(&self) -> bool
        ensures { result ≡ holds_mouse (meaning self.now) };

    /// Returns its id, if it is an input whose text lies outside its domain.
    fn first_invalid(&self) -> Option<Id>
        ensures { result ≡ invalid_id (meaning self.now) };

    /// Puts its value into the record, if it is a field.
    fn get(&self, values: &mut Record)
        requires { HasRoom (meaning self.now) values.old }
        ensures { values.new ≡ gathered (meaning self.now) values.old };

    /// Opens it with its value in the record. It then has neither the focus nor the mouse.
    fn set(&mut self, values: &Record, damage: &mut Damage)
        requires { Fits values.now (meaning self.old) }
        ensures set { meaning self.new ≡ set_from values.now (meaning self.old) }
        ensures damage { Damages (meaning self.old) (meaning self.new) damage.old damage.new };

    /// Shows or hides it, and enables or disables it, as the rules say.
    fn apply(&mut self, rules: &Rules, damage: &mut Damage)
        ensures applied { meaning self.new ≡ applied rules.now (meaning self.old) }
        ensures damage { Damages (meaning self.old) (meaning self.new) damage.old damage.new };

    /// Adds what it shows otherwise under another environment.
    fn env_damage(&self, old: &Env, new: &Env, damage: &mut Damage)
        ensures { EnvDamages old.now new.now (meaning self.now) damage.old damage.new };

    /// Whether it stands as the node declares it, before any event.
    fn is_fresh(&self, node: &Node) -> bool
        ensures { IsTrue result ↔ (meaning self.now ≡ fresh node.now) };
}

impl View for Box<dyn View> {
    ghost meaning = { λ b. (View-box b).meaning b.value };

    fn id(&self) -> Id {
        (**self).id()
    }

    fn bounds(&self) -> Rect {
        (**self).bounds()
    }

    fn state(&self) -> State {
        (**self).state()
    }

    fn options(&self) -> Options {
        (**self).options()
    }

    fn handle(&mut self, event: &Event, phase: Phase, env: &Env, damage: &mut Damage) -> Reaction {
        (**self).handle(event, phase, env, damage)
    }

    fn draw(&self, screen: &mut Screen, canvas: Canvas, env: &Env) {
        (**self).draw(screen, canvas, env)
    }

    fn focus_to(&mut self, id: Id, damage: &mut Damage) -> bool {
        (**self).focus_to(id, damage)
    }

    fn press_item(&mut self, id: Id, item: u8, damage: &mut Damage) {
        (**self).press_item(id, item, damage)
    }

    fn held(&self) -> bool {
        (**self).held()
    }

    fn first_invalid(&self) -> Option<Id> {
        (**self).first_invalid()
    }

    fn get(&self, values: &mut Record) {
        (**self).get(values)
    }

    fn set(&mut self, values: &Record, damage: &mut Damage) {
        (**self).set(values, damage)
    }

    fn apply(&mut self, rules: &Rules, damage: &mut Damage) {
        (**self).apply(rules, damage)
    }

    fn env_damage(&self, old: &Env, new: &Env, damage: &mut Damage) {
        (**self).env_damage(old, new, damage)
    }

    fn is_fresh(&self, node: &Node) -> bool {
        (**self).is_fresh(node)
    }
}
