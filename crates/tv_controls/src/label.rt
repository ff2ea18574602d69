//! Labels.

ghost use Rattle.std.specs.Prelude.{◌≡◌, ◌↔◌, IfOk, IsErrOf, IsTrue, None, false, true, bytes_eq, if◌then◌else◌, option_copied};
ghost use Rattle.tv_cells.specs.Canvas.{sub};
ghost use Rattle.tv_cells.specs.Layers.{Lays};
ghost use Rattle.tv_cells.specs.declared.canvas.Canvas.{Canvas as Given};
ghost use Rattle.tv_model.specs.Description.LawfulNodes.{IsLawfulNode};
ghost use Rattle.tv_model.specs.Description.Rectangles.{place_of_node};
ghost use Rattle.tv_model.specs.Description.Names.{gives_name, meant};
ghost use Rattle.tv_view.specs.Drawing.{leaf_layers};
ghost use Rattle.tv_view.specs.Meaning.{fresh};
ghost use Rattle.tv_model.specs.declared.kind.Label.{Label as Declared};
ghost use Rattle.tv_model.specs.declared.kind.Kind.TheVariants as kinds;
ghost use Rattle.tv_view.specs.Colours.{is_link_focus, link_of, linked_by};
ghost use Rattle.tv_view.specs.Reactions.{answer, calling_letter, calls, focus_on};
ghost use Rattle.tv_view.specs.declared.env.Env.{Env as Lent};
ghost use Rattle.tv_event.specs.declared.event.Event.TheVariants as events;
ghost use Rattle.tv_view.specs.Core.{plain_leaf};
ghost use Rattle.tv_controls.specs.Label.{is_label, label_text_role};

use bitflags::Flags;
use std::alloc::Global;
use tv_cells::{Canvas, Damage, Rect, Screen, lay};
use tv_event::{Event, Key, Options, Phase, State};
use tv_faces::LabelFace;
use tv_model::{Id, Kind, Label as Declared, Node, Record, natural};
use tv_palette::{LabelRole, Role};
use tv_valid::Chars;
use tv_view::{ControlFault, Env, LeafCore, Reaction, Rules, View, has_focus};

/// A label: its letter and the mouse ask for the focus of the control that it stands for.
#[derive(Drop)]
pub struct Label {
    core: LeafCore,
    ghost own_kind: { IsTrue (is_label core.node.kind) },
    ghost unfocused: { core.is_focused ≡ false },
    ghost free: { core.held ≡ None },
}

fn is_label(kind: &Kind) -> bool
    ensures { result ≡ is_label kind.now }
{
    matches!(kind, Kind::Label(_))
}

// Most names that differ do so in their lengths.
fn has_same_length(name: &Chars, other: &Chars) -> bool
    ensures { bytes_eq name.now other.now ≡ true → result ≡ true }
{
    name.as_slice().len() == other.as_slice().len()
}

fn is_same(name: &Chars, other: &Chars) -> bool
    ensures { result ≡ bytes_eq name.now other.now }
{
    name.as_slice() == other.as_slice()
}

fn gives_name(node: &Node, name: &Chars) -> bool
    ensures { result ≡ gives_name name.now node.now }
{
    match node.kind.name() {
        Some(other) => has_same_length(other, name) && is_same(other, name),
        None => false,
    }
}

fn meant<'a>(views: &'a [Node], name: &Chars) -> Option<&'a Node>
    ensures { option_copied result ≡ meant views.now name.now }
{
    views.iter().find(|node| gives_name(node, name))
}

fn link_of(views: &[Node], name: &Chars) -> Option<Id>
    ensures { result ≡ link_of views.now name.now }
{
    match meant(views, name) {
        Some(node) => Some(node.id),
        None => None,
    }
}

fn focus_on(link: Option<Id>) -> Reaction
    ensures { result ≡ focus_on link }
{
    match link {
        Some(id) => Reaction::Focus(id),
        None => Reaction::Pass,
    }
}

fn is_focus(env: &Env, link: Option<Id>) -> bool
    ensures { result ≡ is_link_focus env.now link }
{
    match link {
        Some(id) => has_focus(env, id),
        None => false,
    }
}

// The role of the text but for its marked letter.
fn text_role(is_linked: bool) -> LabelRole
    ensures { result ≡ label_text_role is_linked }
{
    if is_linked {
        LabelRole::Focused
    } else {
        LabelRole::Normal
    }
}

// The letter by which a key calls it.
fn called(phase: Phase, key: Key) -> Option<char>
    ensures { result ≡ calling_letter phase key }
{
    match (phase, key) {
        (Phase::Pre, Key::Alt(ch)) => Some(ch),
        (Phase::Post, Key::Char(ch)) => Some(ch),
        _ => None,
    }
}

impl Label {
    /// Makes the label of a node, which must be one that sound descriptions may have.
    ///
    /// # Errors
    ///
    /// `WrongKind` for any other node, `NoMemory` where there is none for its texts.
    pub fn new(alloc: Global, node: &Node) -> Result<Label, ControlFault>
        requires { IsLawfulNode node.now }
        ensures made { IfOk result (λ view. plain_leaf view.core ≡ fresh node.now) }
        ensures wrong { IsErrOf result ControlFault.WrongKind ↔ (is_label node.now.kind ≡ false) }
    {
        if !is_label(&node.kind) {
            return Err(ControlFault::WrongKind);
        }
        Ok(Label {
            core: LeafCore::new(alloc, node)?,
        })
    }

    // What its line declares.
    fn declared(&self) -> &Declared
        ensures { self.now.core.node.kind ≡ kinds.Label result.now }
    {
        match &self.core.node().kind {
            Kind::Label(label) => label,
            _ => unreachable!(),
        }
    }

    // The control that it stands for.
    fn link(&self, env: &Env) -> Option<Id>
        ensures { result ≡ linked_by env.now self.now.core.node.kind }
    {
        link_of(env.views, &self.declared().link)
    }

    // Whether a letter calls it, in either case.
    fn is_called(&self, letter: Option<char>) -> bool
        ensures { (label : Declared) → self.now.core.node.kind ≡ kinds.Label label → result ≡ calls label.text letter }
    {
        match letter {
            Some(ch) => self.declared().text.marks(ch.to_ascii_uppercase()),
            None => false,
        }
    }

    fn key_answer(&self, key: Key, phase: Phase, env: &Env) -> Reaction
        ensures { result ≡ answer (events.Key key) phase env.now (plain_leaf self.now.core) }
    {
        if self.is_called(called(phase, key)) {
            focus_on(self.link(env))
        } else {
            Reaction::Pass
        }
    }

    // Draws its face, where its rectangle can be seen. It isn't inlined, so that one that can't be costs the test alone.
    #[inline(never)]
    #[tactic(auto, unfolding(tv_view::specs::Drawing::leaf_layers))]
    fn draw_face(&self, screen: &mut Screen, seen: Canvas, env: &Env)
        requires { IsTrue self.now.core.is_shown }
        ensures { (canvas : Given) → seen ≡ sub canvas (place_of_node self.now.core.node)
            → Lays (leaf_layers env.now canvas (plain_leaf self.now.core)) screen.old screen.new }
    {
        let text = &self.declared().text;
        let rest = text_role(is_focus(env, self.link(env)));
        let face = LabelFace {
            text: text.text.as_slice(),
            mark: text.mark,
            letter: Role::Label(LabelRole::Letter).attr(env.chain),
            rest: Role::Label(rest).attr(env.chain),
        };
        let width = natural(&self.core.node().w);
        lay(screen, seen, width, 1, &face);
    }

    // Whether its link has the focus in both environments or in neither.
    fn is_link_same(&self, old: &Env, new: &Env) -> bool
        ensures { IsTrue result
            → is_link_focus new.now (linked_by new.now self.now.core.node.kind)
            ≡ is_link_focus old.now (linked_by old.now self.now.core.node.kind) }
    {
        is_focus(old, self.link(old)) == is_focus(new, self.link(new))
    }
}

#[tactic(auto, unfolding(tv_view::specs::Reactions::answer, tv_view::specs::Effects::handled, tv_view::specs::Calls::focused_to, tv_view::specs::Calls::item_pressed, tv_view::specs::Calls::invalid_id, tv_view::specs::Calls::gathered, tv_view::specs::Calls::set_from, tv_view::specs::Calls::applied, tv_view::specs::Drawing::leaf_layers))]
impl View for Label {
    ghost meaning = { λ label. plain_leaf label.core };

    fn id(&self) -> Id {
        self.core.id()
    }

    fn bounds(&self) -> Rect {
        self.core.bounds()
    }

    fn state(&self) -> State {
        self.core.state()
    }

    fn options(&self) -> Options {
        let mut options = Options::PRE_PROCESS;
        options.insert(Options::POST_PROCESS);
        options
    }

    fn handle(&mut self, event: &Event, phase: Phase, env: &Env, _damage: &mut Damage) -> Reaction {
        match event {
            Event::Key(key) => self.key_answer(*key, phase, env),
            Event::Down(_) => focus_on(self.link(env)),
            _ => Reaction::Pass,
        }
    }

    fn draw(&self, screen: &mut Screen, canvas: Canvas, env: &Env) {
        let Some(seen) = self.core.seen(canvas) else {
            return;
        };
        self.draw_face(screen, seen, env);
    }

    fn focus_to(&mut self, _id: Id, _damage: &mut Damage) -> bool {
        false
    }

    fn press_item(&mut self, _id: Id, _item: u8, _damage: &mut Damage) {}

    fn held(&self) -> bool {
        false
    }

    fn first_invalid(&self) -> Option<Id> {
        None
    }

    fn get(&self, _values: &mut Record) {}

    fn set(&mut self, _values: &Record, _damage: &mut Damage) {}

    fn apply(&mut self, rules: &Rules, damage: &mut Damage) {
        self.core.apply(rules, damage);
    }

    fn env_damage(&self, old: &Env, new: &Env, damage: &mut Damage) {
        let is_link_same = self.is_link_same(old, new);
        self.core.link_damage(old, new, is_link_same, damage);
    }

    fn is_fresh(&self, node: &Node) -> bool {
        self.core.is_fresh(node)
    }
}
