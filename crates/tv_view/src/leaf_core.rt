//! The part that all controls have in common.

ghost use Rattle.std.specs.Prelude.{◌≡◌, ◌↔◌, ◌==◌, ◌+ℤ◌, ◌≤ℤ◌, IfNone, IfOk, IfSome, IsTrue, None, Some, false, pos};
ghost use Rattle.tv_cells.specs.Canvas.{sub};
ghost use Rattle.tv_cells.specs.Damage.{Grows, HasAll};
ghost use Rattle.tv_cells.specs.Layers.{Lays};
ghost use Rattle.tv_cells.specs.Picture.{Picture};
ghost use Rattle.tv_cells.specs.Rectangle.{IsPointNear};
ghost use Rattle.tv_model.specs.Controls.Contents.{Content};
ghost use Rattle.tv_view.specs.Damage.{Damages, EnvDamages};
ghost use Rattle.tv_view.specs.Drawing.{leaf_layers};
ghost use Rattle.tv_view.specs.declared.env.Env.{Env as Lent};
ghost use Rattle.tv_model.specs.Description.Rectangles.{IsSmallRect, place_of_node};
ghost use Rattle.tv_view.specs.Meaning.{has_item};
ghost use Rattle.tv_model.specs.Description.LawfulNodes.{HasLawfulCount, IsLawfulCommand, IsLawfulNode};
ghost use Rattle.tv_model.specs.Description.Commands.{command_of};
ghost use Rattle.tv_model.specs.Description.Nodes.{height_of, is_cluster};
ghost use Rattle.tv_view.specs.Core.{fresh_core, leaf_with, plain_leaf, with_rules};
ghost use Rattle.tv_view.specs.Calls.{is_kind_enabled_among, state_bits};
ghost use Rattle.tv_view.specs.Colours.{has_focus, is_lent_default, is_link_focus, linked_by};
ghost use Rattle.tv_model.specs.Kinds.{behaviour};

use crate::env::{Env, Rules};
use crate::looks::{has_focus, has_same_colours, is_default_now};
use bitflags::Flags;
use std::alloc::{AllocError, Global};
use std::marker::Model;
use tv_cells::{Canvas, Damage, Rect};
use tv_event::{CommandSet, State};
use tv_faces::rect_at;
use tv_model::{Id, Kind, Node};

/// What every control keeps: its declaration, whether it is shown, enabled and focused, and what it remembers while it
/// holds the mouse. Each kind keeps for itself what else it holds.
#[derive(Drop)]
pub struct LeafCore {
    node: Node,
    // Its rectangle. Each draw and each mouse event asks for it.
    bounds: Rect,
    is_focused: bool,
    held: Option<u32>,
    is_shown: bool,
    is_enabled: bool,
}

impl Model for LeafCore {
    ghost use Rattle.std.specs.Prelude.{◌≡◌};
    ghost use Rattle.tv_model.specs.Description.LawfulNodes.{IsLawfulNode};
    ghost use Rattle.tv_model.specs.Description.Rectangles.{place_of_node};
    ghost use Rattle.tv_view.specs.Core.{Core};

    ghost Value = { Core };

    ghost view = { λ c. record {
      node = c.node;
      is_focused = c.is_focused;
      held = c.held;
      is_shown = c.is_shown;
      is_enabled = c.is_enabled;
    } };

    ghost invariant = { λ c. IsLawfulNode c.node × (c.bounds ≡ place_of_node c.node) };
}

fn height(kind: &Kind) -> i32
    requires { HasLawfulCount kind.now }
    ensures { result ≡ height_of kind.now }
{
    match kind {
        Kind::Window(head) => head.h,
        Kind::Dialog(head) => head.h,
        Kind::Text(text) => text.h,
        Kind::List(list) => list.h,
        Kind::Pane(pane) => pane.h,
        Kind::CheckBoxes(boxes) => boxes.items.as_slice().len() as i32,
        Kind::RadioButtons(radios) => radios.items.as_slice().len() as i32,
        Kind::Label(_) | Kind::Button(_) | Kind::Input(_) => 1,
    }
}

// The rectangle of a node.
fn place(node: &Node) -> Rect
    requires { IsLawfulNode node.now }
    ensures { result ≡ place_of_node node.now }
{
    let height = height(&node.kind);
    rect_at(&node.x, &node.y, &node.w, &height)
}

fn is_kind_enabled(commands: &CommandSet, kind: &Kind) -> bool
    requires { IsLawfulCommand (command_of kind.now) }
    ensures { result ≡ is_kind_enabled_among commands.now kind.now }
{
    match kind {
        Kind::Button(button) => commands.has(button.command.command()),
        _ => true,
    }
}

impl LeafCore {
    /// Makes the core of a control from its node, as it is before any event.
    ///
    /// # Errors
    ///
    /// `AllocError` where there is no memory for a copy of the node.
    pub fn new(alloc: Global, node: &Node) -> Result<LeafCore, AllocError>
        requires { IsLawfulNode node.now }
        ensures { IfOk result (λ core. core ≡ fresh_core node.now) }
    {
        Ok(LeafCore {
            node: node.copy(alloc)?,
            bounds: place(node),
            is_focused: false,
            held: None,
            is_shown: true,
            is_enabled: true,
        })
    }

    /// Returns its declaration.
    pub fn node(&self) -> &Node
        ensures node { result.now ≡ self.now.node }
        ensures lawful { IsLawfulNode result.now }
    {
        &self.node
    }

    /// Returns the line of its declaration.
    pub fn id(&self) -> Id
        ensures { result ≡ self.now.node.id }
    {
        self.node.id
    }

    /// Returns its rectangle, seen from the corner of what it stands in.
    pub fn bounds(&self) -> Rect
        ensures is { result ≡ place_of_node self.now.node }
        ensures small { IsSmallRect result }
        ensures cluster { IsTrue (is_cluster self.now.node.kind) → result.b.y ≤ℤ (result.a.y +ℤ pos 16) }
    {
        self.bounds
    }

    /// Returns the canvas of its rectangle, or `None` where nothing of it can be seen: while it is hidden, and where its
    /// rectangle misses the clip. A face costs much more than this test.
    pub fn seen(&self, canvas: Canvas) -> Option<Canvas>
        requires { IsPointNear canvas.origin }
        ensures shown { IfSome result (λ _. IsTrue self.now.is_shown) }
        ensures place { IfSome result (λ seen. seen ≡ sub canvas (place_of_node self.now.node)) }
        ensures none { IfNone result ((env : Lent) (c : Content) (p : Picture) → Lays (leaf_layers env canvas (leaf_with self.now c)) p p) }
    {
        if !self.is_shown {
            return None;
        }
        let seen = canvas.sub(self.bounds());
        if seen.clip.is_empty() {
            return None;
        }
        Some(seen)
    }

    /// Whether the focus was given to it last.
    pub fn is_focused(&self) -> bool
        ensures { result ≡ self.now.is_focused }
    {
        self.is_focused
    }

    /// Whether the rules show it.
    pub fn is_shown(&self) -> bool
        ensures { result ≡ self.now.is_shown }
    {
        self.is_shown
    }

    /// Whether the rules enable it.
    pub fn is_enabled(&self) -> bool
        ensures { result ≡ self.now.is_enabled }
    {
        self.is_enabled
    }

    /// Returns what it remembers while it holds the mouse.
    pub fn held(&self) -> Option<u32>
        ensures { result ≡ self.now.held }
    {
        self.held
    }

    /// Whether it holds the mouse.
    pub fn holds(&self) -> bool
        ensures { result ≡ has_item self.now.held }
    {
        self.held.is_some()
    }

    /// Returns its flags as they are now: visible, selected and focused, disabled.
    pub fn state(&self) -> State
        ensures { result.0 ≡ state_bits (plain_leaf self.now) }
    {
        let mut state = State::empty();
        if self.is_shown {
            state.insert(State::VISIBLE);
        }
        if self.is_focused {
            state.insert(State::SELECTED);
            state.insert(State::FOCUSED);
        }
        if !self.is_enabled {
            state.insert(State::DISABLED);
        }
        state
    }

    /// Moves the focus to control `id`. Returns whether this is that control; otherwise it loses the focus. For
    /// controls only.
    pub fn focus_to(&mut self, id: Id) -> bool
        ensures found { result ≡ (self.old.node.id.0 == id.0) }
        ensures core { self.new ≡ record self.old { is_focused = result } }
    {
        self.is_focused = self.node.id == id;
        self.is_focused
    }

    /// Lets it hold the mouse from now on, and remember an item, or 0.
    pub fn hold(&mut self, item: u32)
        ensures { self.new ≡ record self.old { held = Some item } }
    {
        self.held = Some(item);
    }

    /// Ends its hold of the mouse.
    pub fn release(&mut self)
        ensures { self.new ≡ record self.old { held = None } }
    {
        self.held = None;
    }

    /// Takes the focus and the mouse from it, as its dialog opens.
    pub fn reset(&mut self)
        ensures { self.new ≡ record self.old { is_focused = false; held = None } }
    {
        self.is_focused = false;
        self.held = None;
    }

    /// Adds its rectangle to the damage.
    pub fn mark(&self, damage: &mut Damage)
        ensures all { HasAll (place_of_node self.now.node) damage.new }
        ensures grown { Grows (place_of_node self.now.node) damage.old damage.new }
    {
        damage.add(self.bounds());
    }

    // Shows or hides it, and enables or disables it. Returns whether that changes neither.
    fn is_ruled_same(&mut self, rules: &Rules) -> bool
        ensures core { self.new ≡ with_rules rules.now self.old }
        ensures same { IsTrue result ↔ (self.new.is_shown ≡ self.old.is_shown) × (self.new.is_enabled ≡ self.old.is_enabled) }
    {
        let was_shown = self.is_shown;
        let was_enabled = self.is_enabled;
        self.is_shown = rules.shows(self.node.id);
        self.is_enabled = is_kind_enabled(rules.commands, &self.node.kind);
        self.is_shown == was_shown && self.is_enabled == was_enabled
    }

    /// Shows or hides it, and enables or disables it, as the rules say. Adds its rectangle to the damage if that changes
    /// something.
    pub fn apply(&mut self, rules: &Rules, damage: &mut Damage)
        ensures core { self.new ≡ with_rules rules.now self.old }
        ensures damage { (content : Content) → Damages (leaf_with self.old content) (leaf_with self.new content) damage.old damage.new }
    {
        if !self.is_ruled_same(rules) {
            self.mark(damage);
        }
    }

    // Whether the id is the focus, and the default button, of both environments or of neither.
    fn has_same_part(&self, old: &Env, new: &Env) -> bool
        ensures { IsTrue result
            ↔ (has_focus new.now self.now.node.id ≡ has_focus old.now self.now.node.id)
            × (is_lent_default new.now self.now.node.id ≡ is_lent_default old.now self.now.node.id) }
    {
        has_focus(old, self.node.id) == has_focus(new, self.node.id)
            && is_default_now(old, self.node.id) == is_default_now(new, self.node.id)
    }

    // Whether two environments say the same of it, but for what it links.
    fn is_told_same(&self, old: &Env, new: &Env) -> bool
        ensures { IsTrue result
            ↔ (new.now.owner ≡ old.now.owner)
            × (new.now.chain.now ≡ old.now.chain.now)
            × (has_focus new.now self.now.node.id ≡ has_focus old.now self.now.node.id)
            × (is_lent_default new.now self.now.node.id ≡ is_lent_default old.now self.now.node.id) }
    {
        has_same_colours(old, new) && self.has_same_part(old, new)
    }

    /// Adds its rectangle to the damage if it is shown and the environments differ in what it may show of them.
    /// `is_link_same` says that what it links has the focus in both or in neither.
    pub fn link_damage(&self, old: &Env, new: &Env, is_link_same: bool, damage: &mut Damage)
        requires { IsTrue is_link_same
            → is_link_focus new.now (linked_by new.now self.now.node.kind)
            ≡ is_link_focus old.now (linked_by old.now self.now.node.kind) }
        ensures { (content : Content) → EnvDamages old.now new.now (leaf_with self.now content) damage.old damage.new }
    {
        if is_link_same && self.is_told_same(old, new) {
            return;
        }
        if self.is_shown {
            self.mark(damage);
        }
    }

    /// Adds its rectangle to the damage if it is shown and the environments differ in what it may show of them. For
    /// controls that link nothing, which are all but labels.
    pub fn env_damage(&self, old: &Env, new: &Env, damage: &mut Damage)
        requires { (behaviour self.now.node.kind).link ≡ None }
        ensures { (content : Content) → EnvDamages old.now new.now (leaf_with self.now content) damage.old damage.new }
    {
        self.link_damage(old, new, true, damage);
    }

    /// Whether it stands as the node declares it, before any event.
    pub fn is_fresh(&self, node: &Node) -> bool
        ensures { IsTrue result ↔ (self.now ≡ fresh_core node.now) }
    {
        self.node.is(node)
            && !self.is_focused
            && self.held.is_none()
            && self.is_shown
            && self.is_enabled
    }
}
