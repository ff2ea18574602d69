//! Input lines.

ghost use Rattle.std.specs.Prelude.{◌≡◌, ◌↔◌, ◌≤◌, IfOk, IsErrOf, IsTrue, Some, false, if◌then◌else◌, length, unwrap_or};
ghost use Rattle.tv_valid.specs.Asking.{domain_of};
ghost use Rattle.tv_valid.specs.Deciding.{in_domain};
ghost use Rattle.tv_view.specs.Drawing.{leaf_layers};
ghost use Rattle.tv_view.specs.Meaning.{fresh, holds_mouse};
ghost use Rattle.tv_model.specs.Kinds.InputLine.{HasAnyText, MayStand};
ghost use Rattle.tv_cells.specs.Canvas.{sub};
ghost use Rattle.tv_cells.specs.Layers.{Lays};
ghost use Rattle.tv_cells.specs.declared.canvas.Canvas.{Canvas as Given};
ghost use Rattle.tv_model.specs.Description.LawfulNodes.{IsLawfulNode};
ghost use Rattle.tv_model.specs.Description.Rectangles.{place_of_node};
ghost use Rattle.tv_model.specs.Log.Record.{value_of};
ghost use Rattle.tv_model.specs.declared.kind.Input.{Input as Declared};
ghost use Rattle.tv_model.specs.declared.kind.Kind.TheVariants as kinds;
ghost use Rattle.tv_cells.specs.declared.rect.Point.{Point};
ghost use Rattle.tv_view.specs.Calls.{Fits, focused_to, set_from, takes_focus};
ghost use Rattle.tv_view.specs.Effects.{StaysWherePassed, captured, first_shown_before, handled, leaf_keyed, lifted};
ghost use Rattle.tv_view.specs.Reactions.{answer, captures, down_answer, lifted_answer};
ghost use Rattle.tv_view.specs.declared.env.Env.{Env as Lent};
ghost use Rattle.tv_event.specs.declared.event.Event.TheVariants as events;
ghost use Rattle.tv_controls.specs.InputLine.{asked_by, input_leaf, is_input, is_own_key, text_of_value};

use crate::line_edit::{LineEdit, is_edit_key};
use bitflags::Flags;
use std::alloc::Global;
use tv_cells::{Canvas, Damage, Point, Rect, Screen, lay};
use tv_event::{Event, Key, Options, Phase, State};
use tv_faces::{InputColours, InputFace, first_shown};
use tv_model::{Id, Input as Declared, Kind, Node, Record, Value, natural};
use tv_valid::{Domain, DomainFault, InputSpec, Text};
use tv_view::{ControlFault, Env, LeafCore, Reaction, Rules, View, column_of, has_focus};

/// An input line: a text is typed in it, as far as its domain lets.
#[derive(Drop)]
pub struct InputLine {
    core: LeafCore,
    domain: Domain,
    edit: LineEdit,
    /// Whether its text lies in its domain, while that is known.
    verdict: Option<bool>,
    ghost own_kind: { IsTrue (is_input core.node.kind) },
    ghost asked: { asked_by core.node.kind ≡ Some domain },
    ghost judged: { unwrap_or verdict (in_domain domain edit.text) ≡ in_domain domain edit.text },
}

fn domain_of(alloc: Global, spec: &InputSpec) -> Result<Domain, ControlFault>
    requires { HasAnyText spec.now }
    ensures made { IfOk result (λ domain. domain_of spec.now ≡ Some domain) }
    ensures right { IsErrOf result ControlFault.WrongKind → ⊥ }
{
    match Domain::new(alloc, spec) {
        Ok(domain) => Ok(domain),
        Err(DomainFault::NoMemory) => Err(ControlFault::NoMemory),
        Err(_) => unreachable!(),
    }
}

fn start_of(input: &Declared) -> Text
    requires { MayStand input.now.start input.now.spec }
    ensures { result ≡ input.now.start }
{
    Text::from_chars(input.start.as_slice()).unwrap()
}

// The text of a field, where the record has one.
fn text_in(values: &Record, id: Id) -> Option<Text>
    ensures { result ≡ text_of_value (value_of values.now id.0) }
{
    match values.value(id)? {
        Value::Text(text) => Some(text.copy()),
        Value::Marks(_) | Value::Item(_) => None,
    }
}

// Whether it consumes a key.
fn is_own_key(phase: Phase, key: Key) -> bool
    ensures { result ≡ is_own_key phase key }
{
    match phase {
        Phase::Focused => is_edit_key(key),
        _ => false,
    }
}

impl InputLine {
    /// Makes the input line of a node, with its start text. The node must be one that sound descriptions may have.
    ///
    /// # Errors
    ///
    /// `WrongKind` for any other node, `NoMemory` where there is none for its domain and its texts.
    pub fn new(alloc: Global, node: &Node) -> Result<InputLine, ControlFault>
        requires { IsLawfulNode node.now }
        ensures made { IfOk result (λ view. input_leaf view.core view.edit ≡ fresh node.now) }
        ensures wrong { IsErrOf result ControlFault.WrongKind ↔ (is_input node.now.kind ≡ false) }
    {
        match &node.kind {
            Kind::Input(input) => Ok(InputLine {
                core: LeafCore::new(alloc, node)?,
                domain: domain_of(alloc, &input.spec)?,
                edit: LineEdit::new(start_of(input)),
                verdict: None,
            }),
            _ => Err(ControlFault::WrongKind),
        }
    }

    // What its line declares.
    fn declared(&self) -> &Declared
        ensures { self.now.core.node.kind ≡ kinds.Input result.now }
    {
        match &self.core.node().kind {
            Kind::Input(input) => input,
            _ => unreachable!(),
        }
    }

    // Whether its text lies in its domain. A picture can take long to say so, which is why its answer is kept.
    fn is_valid(&self) -> bool
        ensures { result ≡ in_domain self.now.domain self.now.edit.text }
    {
        match self.verdict {
            Some(is_valid) => is_valid,
            None => self.domain.accepts(self.edit.text()),
        }
    }

    // Keeps whether its text lies in its domain, until a key edits it or it opens with another one.
    fn judge(&mut self)
        ensures core { self.new.core ≡ self.old.core }
        ensures edit { self.new.edit ≡ self.old.edit }
    {
        if self.verdict.is_none() {
            self.verdict = Some(self.is_valid());
        }
    }

    fn key(&mut self, key: Key, phase: Phase) -> Reaction
        ensures reaction { (env : Lent) → result ≡ answer (events.Key key) phase env (input_leaf self.old.core self.old.edit) }
        ensures after { input_leaf self.new.core self.new.edit ≡ leaf_keyed key phase (input_leaf self.old.core self.old.edit) }
        ensures node { self.new.core.node ≡ self.old.core.node }
    {
        if !is_own_key(phase, key) {
            // Its owner may move the focus or end the dialog by the key, and asks before that whether the text is valid.
            self.judge();
            return Reaction::Pass;
        }
        self.verdict = None;
        self.edit.edit(&self.domain, key);
        Reaction::Done
    }

    // The first place of the text that was shown when the event came.
    fn first_before(&self, env: &Env) -> u32
        ensures value { result ≡ first_shown_before env.now (input_leaf self.now.core self.now.edit) }
        ensures within { result ≤ length self.now.edit.text }
    {
        let cursor = self.edit.cursor();
        if has_focus(env, self.core.id()) {
            first_shown(natural(&self.core.node().w), cursor)
        } else {
            0
        }
    }

    // A mouse down where it is the topmost leaf.
    fn down(&mut self, point: Point, env: &Env) -> Reaction
        ensures reaction { result ≡ down_answer env.now (input_leaf self.old.core self.old.edit) }
        ensures after { input_leaf self.new.core self.new.edit
            ≡ (if captures (input_leaf self.old.core self.old.edit) self.old.core.node.kind
            then captured env.now point (input_leaf self.old.core self.old.edit) else input_leaf self.old.core self.old.edit) }
        ensures node { self.new.core.node ≡ self.old.core.node }
    {
        if !self.core.is_focused() {
            return Reaction::Focus(self.core.id());
        }
        let first = self.first_before(env);
        let column = column_of(self.core.bounds(), point);
        self.edit.click(first as usize, column);
        self.core.hold(0);
        Reaction::Capture(self.core.id())
    }

    // The mouse goes up.
    fn up(&mut self) -> Reaction
        ensures reaction { (point : Point) → result ≡ lifted_answer (input_leaf self.old.core self.old.edit) point self.old.core.held }
        ensures after { (point : Point) → input_leaf self.new.core self.new.edit
            ≡ lifted point self.old.core.held (input_leaf self.old.core self.old.edit) }
        ensures node { self.new.core.node ≡ self.old.core.node }
    {
        if !self.core.holds() {
            return Reaction::Pass;
        }
        self.core.release();
        Reaction::Release
    }

    // Opens with the text of its field in the record.
    fn open(&mut self, values: &Record)
        requires { Fits values.now (input_leaf self.old.core self.old.edit) }
        ensures after { input_leaf self.new.core self.new.edit ≡ set_from values.now (input_leaf self.old.core self.old.edit) }
        ensures node { self.new.core.node ≡ self.old.core.node }
    {
        self.core.reset();
        match text_in(values, self.core.id()) {
            Some(text) => {
                if self.edit.text().as_slice() != text.as_slice() {
                    self.verdict = None;
                }
                self.edit.open(text);
            }
            None => unreachable!(),
        }
    }

    // Draws its face, where its rectangle can be seen. It isn't inlined, so that one that can't be costs the test alone.
    #[inline(never)]
    fn draw_face(&self, screen: &mut Screen, seen: Canvas, env: &Env)
        requires { IsTrue self.now.core.is_shown }
        ensures { (canvas : Given) → seen ≡ sub canvas (place_of_node self.now.core.node)
            → Lays (leaf_layers env.now canvas (input_leaf self.now.core self.now.edit)) screen.old screen.new }
    {
        let width = natural(&self.core.node().w);
        let face = InputFace {
            width,
            text: self.edit.text().as_slice(),
            cursor: self.edit.cursor(),
            is_whole: self.edit.is_whole(),
            is_focused: has_focus(env, self.core.id()),
            colours: InputColours::of(env.chain),
        };
        lay(screen, seen, width, 1, &face);
    }

    // What it answers to an event, and becomes.
    #[tactic(auto, unfolding(tv_view::specs::Reactions::answer, tv_view::specs::Effects::handled))]
    fn react(&mut self, event: &Event, phase: Phase, env: &Env) -> Reaction
        ensures reaction { result ≡ answer event.now phase env.now (input_leaf self.old.core self.old.edit) }
        ensures after { input_leaf self.new.core self.new.edit ≡ handled event.now phase env.now (input_leaf self.old.core self.old.edit) }
        ensures passed { StaysWherePassed result (input_leaf self.old.core self.old.edit) (input_leaf self.new.core self.new.edit) }
        ensures node { self.new.core.node ≡ self.old.core.node }
    {
        match event {
            Event::Key(key) => self.key(*key, phase),
            Event::Down(point) => self.down(*point, env),
            Event::Move(_) if self.core.holds() => Reaction::Done,
            Event::Up(_) => self.up(),
            _ => Reaction::Pass,
        }
    }
}

#[tactic(auto, unfolding(tv_view::specs::Reactions::answer, tv_view::specs::Effects::handled, tv_view::specs::Calls::focused_to, tv_view::specs::Calls::item_pressed, tv_view::specs::Calls::invalid_id, tv_view::specs::Calls::gathered, tv_view::specs::Calls::set_from, tv_view::specs::Calls::applied, tv_view::specs::Drawing::leaf_layers))]
impl View for InputLine {
    ghost meaning = { λ line. input_leaf line.core line.edit };

    fn id(&self) -> Id {
        self.core.id()
    }

    fn bounds(&self) -> Rect {
        self.core.bounds()
    }

    fn state(&self) -> State {
        self.core.state()
    }

    fn options(&self) -> Options {
        let mut options = Options::SELECTABLE;
        options.insert(Options::FIRST_CLICK);
        if self.declared().validates {
            options.insert(Options::VALIDATE);
        }
        options
    }

    fn handle(&mut self, event: &Event, phase: Phase, env: &Env, damage: &mut Damage) -> Reaction {
        let reaction = self.react(event, phase, env);
        if reaction != Reaction::Pass {
            self.core.mark(damage);
        }
        reaction
    }

    fn draw(&self, screen: &mut Screen, canvas: Canvas, env: &Env) {
        let Some(seen) = self.core.seen(canvas) else {
            return;
        };
        self.draw_face(screen, seen, env);
    }

    fn focus_to(&mut self, id: Id, damage: &mut Damage) -> bool {
        self.judge();
        let had_focus = self.core.is_focused();
        let has_focus = self.core.focus_to(id);
        if !has_focus {
            if self.edit.leave() {
                self.core.mark(damage);
            }
        } else if !had_focus {
            self.edit.enter();
            self.core.mark(damage);
        }
        has_focus
    }

    fn press_item(&mut self, _id: Id, _item: u8, _damage: &mut Damage) {}

    fn held(&self) -> bool {
        self.core.holds()
    }

    fn first_invalid(&self) -> Option<Id> {
        if self.is_valid() {
            None
        } else {
            Some(self.core.id())
        }
    }

    fn get(&self, values: &mut Record) {
        values.put(self.core.id(), Value::Text(self.edit.text().copy()));
    }

    fn set(&mut self, values: &Record, damage: &mut Damage) {
        self.open(values);
        self.core.mark(damage);
    }

    fn apply(&mut self, rules: &Rules, damage: &mut Damage) {
        self.core.apply(rules, damage);
    }

    fn env_damage(&self, old: &Env, new: &Env, damage: &mut Damage) {
        self.core.env_damage(old, new, damage);
    }

    fn is_fresh(&self, node: &Node) -> bool {
        self.core.is_fresh(node) && self.edit.is_start(self.declared().start.as_slice())
    }
}
