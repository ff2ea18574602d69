//! Buttons.

ghost use Rattle.std.specs.Prelude.{◌≡◌, ◌↔◌, IfOk, IsErrOf, IsTrue, Some, false, if◌then◌else◌};
ghost use Rattle.tv_cells.specs.Canvas.{sub};
ghost use Rattle.tv_cells.specs.Layers.{Lays};
ghost use Rattle.tv_cells.specs.declared.canvas.Canvas.{Canvas as Given};
ghost use Rattle.tv_model.specs.Description.Marks.{marks, upper};
ghost use Rattle.tv_model.specs.Description.LawfulNodes.{IsLawfulCommand, IsLawfulNode};
ghost use Rattle.tv_model.specs.Description.Nodes.{is_button};
ghost use Rattle.tv_model.specs.Description.Rectangles.{place_of_node};
ghost use Rattle.tv_view.specs.Drawing.{leaf_layers};
ghost use Rattle.tv_view.specs.Meaning.{fresh};
ghost use Rattle.tv_model.specs.declared.kind.Button.{Button as Declared};
ghost use Rattle.tv_model.specs.declared.kind.Kind.TheVariants as kinds;
ghost use Rattle.tv_cells.specs.declared.rect.Point.{Point};
ghost use Rattle.tv_view.specs.Effects.{captured, lifted};
ghost use Rattle.tv_view.specs.Reactions.{answer, broadcast_answer, captures, down_answer, lifted_answer, post_of};
ghost use Rattle.tv_view.specs.declared.env.Env.{Env as Lent};
ghost use Rattle.tv_event.specs.declared.event.Event.TheVariants as events;
ghost use Rattle.tv_view.specs.Core.{plain_leaf};
ghost use Rattle.tv_controls.specs.Button.{is_pressed_by};

use bitflags::Flags;
use std::alloc::Global;
use tv_cells::{Canvas, Damage, Point, Rect, Screen, lay};
use tv_event::{Command, Event, Key, Options, Phase, State};
use tv_faces::{ButtonFace, ButtonLook};
use tv_model::{Button as Declared, Id, Kind, Node, Record, natural};
use tv_view::{
    ControlFault, Env, LeafCore, Reaction, Rules, View, contains, has_focus, is_default_now,
};

/// A button: it gives its command where it is pressed, by Space or Enter in the focus, by its letter, or by the mouse.
#[derive(Drop)]
pub struct Button {
    core: LeafCore,
    ghost own_kind: { IsTrue (is_button core.node.kind) },
}

impl Button {
    /// Makes the button of a node, which must be one that sound descriptions may have.
    ///
    /// # Errors
    ///
    /// `WrongKind` for any other node, `NoMemory` where there is none for its texts.
    pub fn new(alloc: Global, node: &Node) -> Result<Button, ControlFault>
        requires { IsLawfulNode node.now }
        ensures made { IfOk result (λ view. plain_leaf view.core ≡ fresh node.now) }
        ensures wrong { IsErrOf result ControlFault.WrongKind ↔ (is_button node.now.kind ≡ false) }
    {
        if !node.kind.is_button() {
            return Err(ControlFault::WrongKind);
        }
        Ok(Button {
            core: LeafCore::new(alloc, node)?,
        })
    }

    // What its line declares.
    fn declared(&self) -> &Declared
        ensures is { self.now.core.node.kind ≡ kinds.Button result.now }
        ensures lawful { IsLawfulCommand (Some result.now.command) }
    {
        match &self.core.node().kind {
            Kind::Button(button) => button,
            _ => unreachable!(),
        }
    }

    // What is asked for where it is pressed.
    fn post(&self) -> Reaction
        ensures { (button : Declared) → self.now.core.node.kind ≡ kinds.Button button
            → result ≡ post_of (plain_leaf self.now.core) button.command }
    {
        Reaction::Post(self.core.id(), self.declared().command.command())
    }

    // Whether a plain letter calls it, in either case.
    fn is_called(&self, ch: char) -> bool
        ensures { (button : Declared) → self.now.core.node.kind ≡ kinds.Button button → result ≡ marks (upper ch) button.text }
    {
        self.declared().text.marks(ch.to_ascii_uppercase())
    }

    // Whether a key presses it: Space in the focus, and its letter before and after that, with Alt and without.
    fn is_pressed_by(&self, key: Key, phase: Phase) -> bool
        ensures { (button : Declared) → self.now.core.node.kind ≡ kinds.Button button → result ≡ is_pressed_by button phase key }
    {
        match phase {
            Phase::Focused => key == Key::Char(' '),
            Phase::Pre => match key {
                Key::Alt(ch) => self.is_called(ch),
                _ => false,
            },
            Phase::Post => match key {
                Key::Char(ch) => self.is_called(ch),
                _ => false,
            },
        }
    }

    fn key_answer(&self, key: Key, phase: Phase) -> Reaction
        ensures { (env : Lent) → result ≡ answer (events.Key key) phase env (plain_leaf self.now.core) }
    {
        if self.is_pressed_by(key, phase) {
            self.post()
        } else {
            Reaction::Pass
        }
    }

    // A mouse down where it is the topmost leaf.
    fn down_answer(&mut self) -> Reaction
        ensures reaction { (env : Lent) → result ≡ down_answer env (plain_leaf self.old.core) }
        ensures after { (env : Lent) (point : Point)
            → plain_leaf self.new.core
            ≡ (if captures (plain_leaf self.old.core) self.old.core.node.kind
            then captured env point (plain_leaf self.old.core) else plain_leaf self.old.core) }
        ensures rest { self.new.core ≡ record self.old.core { held = self.new.core.held } }
    {
        if self.declared().grabs && !self.core.is_focused() {
            return Reaction::Focus(self.core.id());
        }
        self.core.hold(0);
        Reaction::Capture(self.core.id())
    }

    // The mouse goes up.
    fn up_answer(&mut self, point: Point) -> Reaction
        ensures reaction { result ≡ lifted_answer (plain_leaf self.old.core) point self.old.core.held }
        ensures after { plain_leaf self.new.core ≡ lifted point self.old.core.held (plain_leaf self.old.core) }
        ensures rest { self.new.core ≡ record self.old.core { held = self.new.core.held } }
    {
        if !self.core.holds() {
            return Reaction::Pass;
        }
        self.core.release();
        if contains(self.core.bounds(), point) {
            self.post()
        } else {
            Reaction::Release
        }
    }

    // A broadcast: the one that Enter becomes presses the default button.
    fn broadcast_answer(&self, command: Command, env: &Env) -> Reaction
        ensures { result ≡ broadcast_answer env.now (plain_leaf self.now.core) command }
    {
        let is_pressed = command == Command::DEFAULT
            && is_default_now(env, self.core.id())
            && self.core.is_enabled();
        if is_pressed {
            self.post()
        } else {
            Reaction::Pass
        }
    }

    // Draws its face, where its rectangle can be seen. It isn't inlined, so that one that can't be costs the test alone.
    #[inline(never)]
    #[tactic(auto, unfolding(tv_view::specs::Drawing::leaf_layers))]
    fn draw_face(&self, screen: &mut Screen, seen: Canvas, env: &Env)
        requires { IsTrue self.now.core.is_shown }
        ensures { (canvas : Given) → seen ≡ sub canvas (place_of_node self.now.core.node)
            → Lays (leaf_layers env.now canvas (plain_leaf self.now.core)) screen.old screen.new }
    {
        let look = ButtonLook {
            is_focused: has_focus(env, self.core.id()),
            is_default_now: is_default_now(env, self.core.id()),
            is_disabled: !self.core.is_enabled(),
        };
        let width = natural(&self.core.node().w);
        let text = &self.declared().text;
        let face = ButtonFace {
            width,
            text: text.text.as_slice(),
            mark: text.mark,
            is_default_now: look.is_default_now,
            letter: look.attr(env.chain, true),
            rest: look.attr(env.chain, false),
        };
        lay(screen, seen, width, 1, &face);
    }
}

#[tactic(auto, unfolding(tv_view::specs::Reactions::answer, tv_view::specs::Effects::handled, tv_view::specs::Calls::focused_to, tv_view::specs::Calls::item_pressed, tv_view::specs::Calls::invalid_id, tv_view::specs::Calls::gathered, tv_view::specs::Calls::set_from, tv_view::specs::Calls::applied, tv_view::specs::Drawing::leaf_layers))]
impl View for Button {
    ghost meaning = { λ button. plain_leaf button.core };

    fn id(&self) -> Id {
        self.core.id()
    }

    fn bounds(&self) -> Rect {
        self.core.bounds()
    }

    fn state(&self) -> State {
        self.core.state()
    }

    fn options(&self) -> Options {
        let mut options = Options::SELECTABLE;
        options.insert(Options::FIRST_CLICK);
        options.insert(Options::PRE_PROCESS);
        options.insert(Options::POST_PROCESS);
        options
    }

    fn handle(&mut self, event: &Event, phase: Phase, env: &Env, _damage: &mut Damage) -> Reaction {
        match event {
            Event::Key(key) => self.key_answer(*key, phase),
            Event::Down(_) => self.down_answer(),
            Event::Move(_) if self.core.holds() => Reaction::Done,
            Event::Up(point) => self.up_answer(*point),
            Event::Broadcast(command) => self.broadcast_answer(*command, env),
            _ => Reaction::Pass,
        }
    }

    fn draw(&self, screen: &mut Screen, canvas: Canvas, env: &Env) {
        let Some(seen) = self.core.seen(canvas) else {
            return;
        };
        self.draw_face(screen, seen, env);
    }

    fn focus_to(&mut self, id: Id, _damage: &mut Damage) -> bool {
        self.core.focus_to(id)
    }

    fn press_item(&mut self, _id: Id, _item: u8, _damage: &mut Damage) {}

    fn held(&self) -> bool {
        self.core.holds()
    }

    fn first_invalid(&self) -> Option<Id> {
        None
    }

    fn get(&self, _values: &mut Record) {}

    fn set(&mut self, _values: &Record, _damage: &mut Damage) {
        self.core.reset();
    }

    fn apply(&mut self, rules: &Rules, damage: &mut Damage) {
        self.core.apply(rules, damage);
    }

    fn env_damage(&self, old: &Env, new: &Env, damage: &mut Damage) {
        self.core.env_damage(old, new, damage);
    }

    fn is_fresh(&self, node: &Node) -> bool {
        self.core.is_fresh(node)
    }
}
