//! A control of any of the toolkit's kinds.

ghost use Rattle.std.specs.Prelude.{◌≡◌, ◌↔◌, IfOk, IsErrOf, IsTrue};
ghost use Rattle.tv_check.specs.Plan.{is_owner};
ghost use Rattle.tv_model.specs.Description.LawfulNodes.{IsLawfulNode};
ghost use Rattle.tv_app.specs.Control.{control_leaf};
ghost use Rattle.tv_app.specs.Making.{IsLeafNode};
ghost use Rattle.tv_view.specs.Meaning.{fresh};

use std::alloc::{AllocError, Global};
use tv_cells::{Canvas, Damage, Rect, Screen};
use tv_choices::{CheckBoxes, ListBox, RadioButtons};
use tv_controls::{Button, InputLine, Label, StaticText};
use tv_event::{Event, Options, Phase, State};
use tv_model::{Id, Kind, Node, Record};
use tv_view::{ControlFault, Env, Reaction, Rules, View};

/// A control of one of the toolkit's seven kinds, without a box. It is what the view in it is.
#[derive(Drop)]
pub enum Control {
    Text(StaticText),
    Label(Label),
    Button(Button),
    Input(InputLine),
    CheckBoxes(CheckBoxes),
    RadioButtons(RadioButtons),
    List(ListBox),
}

impl Control {
    /// Makes the control that a node declares, as it stands before any event.
    ///
    /// # Errors
    ///
    /// `WrongKind` for the node of a window, dialog or pane, and for no other; `NoMemory`.
    #[tactic(auto, using(tv_view::proofs::CoreLemmas::limited_small))]
    pub fn new(alloc: Global, node: &Node) -> Result<Control, ControlFault>
        requires { IsLawfulNode node.now }
        ensures declared { IfOk result (λ control. control_leaf control ≡ fresh node.now) }
        ensures wrong { IsErrOf result ControlFault.WrongKind ↔ IsTrue (is_owner node.now.kind) }
    {
        match node.kind {
            Kind::Text(_) => Ok(Control::Text(StaticText::new(alloc, node)?)),
            Kind::Label(_) => Ok(Control::Label(Label::new(alloc, node)?)),
            Kind::Button(_) => Ok(Control::Button(Button::new(alloc, node)?)),
            Kind::Input(_) => Ok(Control::Input(InputLine::new(alloc, node)?)),
            Kind::CheckBoxes(_) => Ok(Control::CheckBoxes(CheckBoxes::new(alloc, node)?)),
            Kind::RadioButtons(_) => Ok(Control::RadioButtons(RadioButtons::new(alloc, node)?)),
            Kind::List(_) => Ok(Control::List(ListBox::new(alloc, node)?)),
            Kind::Window(_) | Kind::Dialog(_) | Kind::Pane(_) => Err(ControlFault::WrongKind),
        }
    }
}

impl Control {
    /// Makes the control of a leaf's node, as it stands before any event.
    ///
    /// # Errors
    ///
    /// `AllocError` where memory ran out.
    pub fn of_leaf(alloc: Global, node: &Node) -> Result<Control, AllocError>
        requires { IsLeafNode node.now }
        ensures { IfOk result (λ control. control_leaf control ≡ fresh node.now) }
    {
        match Control::new(alloc, node) {
            Ok(control) => Ok(control),
            Err(ControlFault::NoMemory) => Err(AllocError),
            Err(ControlFault::WrongKind) => unreachable!(),
        }
    }
}

impl View for Control {
    ghost use Rattle.tv_app.specs.Control.{control_leaf};

    ghost meaning = { control_leaf };

    fn id(&self) -> Id {
        match self {
            Control::Text(view) => view.id(),
            Control::Label(view) => view.id(),
            Control::Button(view) => view.id(),
            Control::Input(view) => view.id(),
            Control::CheckBoxes(view) => view.id(),
            Control::RadioButtons(view) => view.id(),
            Control::List(view) => view.id(),
        }
    }

    fn bounds(&self) -> Rect {
        match self {
            Control::Text(view) => view.bounds(),
            Control::Label(view) => view.bounds(),
            Control::Button(view) => view.bounds(),
            Control::Input(view) => view.bounds(),
            Control::CheckBoxes(view) => view.bounds(),
            Control::RadioButtons(view) => view.bounds(),
            Control::List(view) => view.bounds(),
        }
    }

    fn state(&self) -> State {
        match self {
            Control::Text(view) => view.state(),
            Control::Label(view) => view.state(),
            Control::Button(view) => view.state(),
            Control::Input(view) => view.state(),
            Control::CheckBoxes(view) => view.state(),
            Control::RadioButtons(view) => view.state(),
            Control::List(view) => view.state(),
        }
    }

    fn options(&self) -> Options {
        match self {
            Control::Text(view) => view.options(),
            Control::Label(view) => view.options(),
            Control::Button(view) => view.options(),
            Control::Input(view) => view.options(),
            Control::CheckBoxes(view) => view.options(),
            Control::RadioButtons(view) => view.options(),
            Control::List(view) => view.options(),
        }
    }

    fn handle(&mut self, event: &Event, phase: Phase, env: &Env, damage: &mut Damage) -> Reaction {
        match self {
            Control::Text(view) => view.handle(event, phase, env, damage),
            Control::Label(view) => view.handle(event, phase, env, damage),
            Control::Button(view) => view.handle(event, phase, env, damage),
            Control::Input(view) => view.handle(event, phase, env, damage),
            Control::CheckBoxes(view) => view.handle(event, phase, env, damage),
            Control::RadioButtons(view) => view.handle(event, phase, env, damage),
            Control::List(view) => view.handle(event, phase, env, damage),
        }
    }

    fn draw(&self, screen: &mut Screen, canvas: Canvas, env: &Env) {
        match self {
            Control::Text(view) => view.draw(screen, canvas, env),
            Control::Label(view) => view.draw(screen, canvas, env),
            Control::Button(view) => view.draw(screen, canvas, env),
            Control::Input(view) => view.draw(screen, canvas, env),
            Control::CheckBoxes(view) => view.draw(screen, canvas, env),
            Control::RadioButtons(view) => view.draw(screen, canvas, env),
            Control::List(view) => view.draw(screen, canvas, env),
        }
    }

    fn focus_to(&mut self, id: Id, damage: &mut Damage) -> bool {
        match self {
            Control::Text(view) => view.focus_to(id, damage),
            Control::Label(view) => view.focus_to(id, damage),
            Control::Button(view) => view.focus_to(id, damage),
            Control::Input(view) => view.focus_to(id, damage),
            Control::CheckBoxes(view) => view.focus_to(id, damage),
            Control::RadioButtons(view) => view.focus_to(id, damage),
            Control::List(view) => view.focus_to(id, damage),
        }
    }

    fn press_item(&mut self, id: Id, item: u8, damage: &mut Damage) {
        match self {
            Control::Text(view) => view.press_item(id, item, damage),
            Control::Label(view) => view.press_item(id, item, damage),
            Control::Button(view) => view.press_item(id, item, damage),
            Control::Input(view) => view.press_item(id, item, damage),
            Control::CheckBoxes(view) => view.press_item(id, item, damage),
            Control::RadioButtons(view) => view.press_item(id, item, damage),
            Control::List(view) => view.press_item(id, item, damage),
        }
    }

    fn held(&self) -> bool {
        match self {
            Control::Text(view) => view.held(),
            Control::Label(view) => view.held(),
            Control::Button(view) => view.held(),
            Control::Input(view) => view.held(),
            Control::CheckBoxes(view) => view.held(),
            Control::RadioButtons(view) => view.held(),
            Control::List(view) => view.held(),
        }
    }

    fn first_invalid(&self) -> Option<Id> {
        match self {
            Control::Text(view) => view.first_invalid(),
            Control::Label(view) => view.first_invalid(),
            Control::Button(view) => view.first_invalid(),
            Control::Input(view) => view.first_invalid(),
            Control::CheckBoxes(view) => view.first_invalid(),
            Control::RadioButtons(view) => view.first_invalid(),
            Control::List(view) => view.first_invalid(),
        }
    }

    fn get(&self, values: &mut Record) {
        match self {
            Control::Text(view) => view.get(values),
            Control::Label(view) => view.get(values),
            Control::Button(view) => view.get(values),
            Control::Input(view) => view.get(values),
            Control::CheckBoxes(view) => view.get(values),
            Control::RadioButtons(view) => view.get(values),
            Control::List(view) => view.get(values),
        }
    }

    fn set(&mut self, values: &Record, damage: &mut Damage) {
        match self {
            Control::Text(view) => view.set(values, damage),
            Control::Label(view) => view.set(values, damage),
            Control::Button(view) => view.set(values, damage),
            Control::Input(view) => view.set(values, damage),
            Control::CheckBoxes(view) => view.set(values, damage),
            Control::RadioButtons(view) => view.set(values, damage),
            Control::List(view) => view.set(values, damage),
        }
    }

    fn apply(&mut self, rules: &Rules, damage: &mut Damage) {
        match self {
            Control::Text(view) => view.apply(rules, damage),
            Control::Label(view) => view.apply(rules, damage),
            Control::Button(view) => view.apply(rules, damage),
            Control::Input(view) => view.apply(rules, damage),
            Control::CheckBoxes(view) => view.apply(rules, damage),
            Control::RadioButtons(view) => view.apply(rules, damage),
            Control::List(view) => view.apply(rules, damage),
        }
    }

    fn env_damage(&self, old: &Env, new: &Env, damage: &mut Damage) {
        match self {
            Control::Text(view) => view.env_damage(old, new, damage),
            Control::Label(view) => view.env_damage(old, new, damage),
            Control::Button(view) => view.env_damage(old, new, damage),
            Control::Input(view) => view.env_damage(old, new, damage),
            Control::CheckBoxes(view) => view.env_damage(old, new, damage),
            Control::RadioButtons(view) => view.env_damage(old, new, damage),
            Control::List(view) => view.env_damage(old, new, damage),
        }
    }

    fn is_fresh(&self, node: &Node) -> bool {
        match self {
            Control::Text(view) => view.is_fresh(node),
            Control::Label(view) => view.is_fresh(node),
            Control::Button(view) => view.is_fresh(node),
            Control::Input(view) => view.is_fresh(node),
            Control::CheckBoxes(view) => view.is_fresh(node),
            Control::RadioButtons(view) => view.is_fresh(node),
            Control::List(view) => view.is_fresh(node),
        }
    }
}
