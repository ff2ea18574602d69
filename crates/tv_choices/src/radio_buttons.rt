//! Radio buttons.

ghost use Rattle.std.specs.Prelude.{◌≡◌, ◌↔◌, ◌≤◌, IfOk, IsErrOf, IsTrue, Some, false, length, if◌then◌else◌};
ghost use Rattle.tv_cells.specs.declared.rect.Point.{Point};
ghost use Rattle.tv_choices.specs.Choices.{is_radio_kind, radios_leaf};
ghost use Rattle.tv_event.specs.declared.event.Phase.TheVariants as phases;
ghost use Rattle.tv_view.specs.Meaning.{fresh};
ghost use Rattle.tv_model.specs.Controls.Contents.{IsItem};
ghost use Rattle.tv_model.specs.Description.LawfulNodes.{IsLawfulNode};
ghost use Rattle.tv_model.specs.Description.Numbers.{natural};
ghost use Rattle.tv_model.specs.declared.kind.Kind.TheVariants as kinds;
ghost use Rattle.tv_model.specs.declared.kind.RadioButtons.{RadioButtons as Declared};
ghost use Rattle.tv_view.specs.Effects.{StaysWherePassed, captured, handled, leaf_keyed, lifted};
ghost use Rattle.tv_view.specs.Reactions.{answer, captures, down_answer, keyed_answer, lifted_answer};
ghost use Rattle.tv_view.specs.declared.env.Env.{Env as Lent};

use crate::cluster::{ClusterKey, cluster_key, is_item, item_released, letter_answer, row_item};
use crate::marking::mark_unless_passed;
use bitflags::Flags;
use std::alloc::Global;
use tv_cells::{Canvas, Damage, Point, Rect, Screen, lay};
use tv_event::{Event, Key, Options, Phase, State};
use tv_faces::{ClusterFace, ClusterMarks};
use tv_model::{Id, Kind, Node, RadioButtons as Declared, Record, Value, natural};
use tv_view::{ControlFault, Env, LeafCore, Reaction, Rules, View, has_focus};

/// Radio buttons: one of their items is marked, and that is the selected one.
#[derive(Drop)]
pub struct RadioButtons {
    core: LeafCore,
    marked: u8,
    ghost own_kind: { IsTrue (is_radio_kind core.node.kind) },
}

fn first_marked(declared: &Declared) -> u8
    requires item { IsItem declared.now.start (length declared.now.items) }
    requires count { length declared.now.items ≤ 16 }
    ensures { result ≡ natural declared.now.start }
{
    declared.start as u8
}

impl RadioButtons {
    /// Makes the radio buttons of a node, which must be one that sound descriptions may have.
    ///
    /// # Errors
    ///
    /// `WrongKind` for any other node, `NoMemory` where there is none for its texts.
    pub fn new(alloc: Global, node: &Node) -> Result<RadioButtons, ControlFault>
        requires { IsLawfulNode node.now }
        ensures made { IfOk result (λ view. radios_leaf view.core view.marked ≡ fresh node.now) }
        ensures wrong { IsErrOf result ControlFault.WrongKind ↔ (is_radio_kind node.now.kind ≡ false) }
    {
        match &node.kind {
            Kind::RadioButtons(declared) => {
                let marked = first_marked(declared);
                Ok(RadioButtons {
                    core: LeafCore::new(alloc, node)?,
                    marked,
                })
            }
            _ => Err(ControlFault::WrongKind),
        }
    }

    // What their line declares.
    fn declared(&self) -> &Declared
        ensures is { self.now.core.node.kind ≡ kinds.RadioButtons result.now }
        ensures count { length result.now.items ≤ 16 }
        ensures start { IsItem result.now.start (length result.now.items) }
    {
        match &self.core.node().kind {
            Kind::RadioButtons(radios) => radios,
            _ => unreachable!(),
        }
    }

    // A key in the focus.
    fn focused_key(&mut self, key: Key) -> Reaction
        ensures reaction { (env : Lent) → result ≡ keyed_answer env (radios_leaf self.old.core self.old.marked) key phases.Focused }
        ensures after { radios_leaf self.new.core self.new.marked
            ≡ leaf_keyed key phases.Focused (radios_leaf self.old.core self.old.marked) }
    {
        match cluster_key(self.declared().items.as_slice(), self.marked, key) {
            ClusterKey::Passed => Reaction::Pass,
            ClusterKey::Selects(item) | ClusterKey::Presses(item) => {
                self.marked = item;
                Reaction::Changed(self.core.id())
            }
        }
    }

    // A key in any phase.
    fn key_answer(&mut self, key: Key, phase: Phase) -> Reaction
        ensures reaction { (env : Lent) → result ≡ keyed_answer env (radios_leaf self.old.core self.old.marked) key phase }
        ensures after { radios_leaf self.new.core self.new.marked ≡ leaf_keyed key phase (radios_leaf self.old.core self.old.marked) }
    {
        match phase {
            Phase::Focused => self.focused_key(key),
            Phase::Pre | Phase::Post => {
                letter_answer(self.core.id(), self.declared().items.as_slice(), key, phase)
            }
        }
    }

    // A mouse down where they are the topmost leaf.
    fn down_answer(&mut self, point: Point) -> Reaction
        ensures reaction { (env : Lent) → result ≡ down_answer env (radios_leaf self.old.core self.old.marked) }
        ensures after { (env : Lent)
            → radios_leaf self.new.core self.new.marked
            ≡ (if captures (radios_leaf self.old.core self.old.marked) self.old.core.node.kind
            then captured env point (radios_leaf self.old.core self.old.marked)
            else radios_leaf self.old.core self.old.marked) }
    {
        if !self.core.is_focused() {
            return Reaction::Focus(self.core.id());
        }
        self.core.hold(row_item(self.core.bounds(), point));
        Reaction::Capture(self.core.id())
    }

    // The mouse goes up.
    fn up_answer(&mut self, point: Point) -> Reaction
        ensures reaction { result ≡ lifted_answer (radios_leaf self.old.core self.old.marked) point self.old.core.held }
        ensures after { radios_leaf self.new.core self.new.marked
            ≡ lifted point self.old.core.held (radios_leaf self.old.core self.old.marked) }
    {
        let Some(item) = self.core.held() else {
            return Reaction::Pass;
        };
        self.core.release();
        match item_released(self.core.bounds(), point, item) {
            Some(item) => {
                self.marked = item;
                Reaction::Changed(self.core.id())
            }
            None => Reaction::Release,
        }
    }
}

#[tactic(auto, unfolding(tv_view::specs::Reactions::answer, tv_view::specs::Effects::handled))]
impl RadioButtons {
    // What they answer to an event, and become.
    fn react(&mut self, event: &Event, phase: Phase, env: &Env) -> Reaction
        ensures reaction { result ≡ answer event.now phase env.now (radios_leaf self.old.core self.old.marked) }
        ensures after { radios_leaf self.new.core self.new.marked
            ≡ handled event.now phase env.now (radios_leaf self.old.core self.old.marked) }
        ensures passed { StaysWherePassed result (radios_leaf self.old.core self.old.marked) (radios_leaf self.new.core self.new.marked) }
    {
        match event {
            Event::Key(key) => self.key_answer(*key, phase),
            Event::Down(point) => self.down_answer(*point),
            Event::Move(_) if self.core.holds() => Reaction::Done,
            Event::Up(point) => self.up_answer(*point),
            _ => Reaction::Pass,
        }
    }
}

#[tactic(auto, unfolding(tv_view::specs::Calls::focused_to, tv_view::specs::Calls::item_pressed, tv_view::specs::Calls::invalid_id, tv_view::specs::Calls::gathered, tv_view::specs::Calls::HasRoom, tv_view::specs::Calls::Fits, tv_view::specs::Calls::set_from, tv_view::specs::Calls::applied, tv_view::specs::Drawing::leaf_layers))]
impl View for RadioButtons {
    ghost meaning = { λ view. radios_leaf view.core view.marked };

    fn id(&self) -> Id {
        self.core.id()
    }

    fn bounds(&self) -> Rect {
        self.core.bounds()
    }

    fn state(&self) -> State {
        self.core.state()
    }

    fn options(&self) -> Options {
        let mut options = Options::SELECTABLE;
        options.insert(Options::FIRST_CLICK);
        options.insert(Options::PRE_PROCESS);
        options.insert(Options::POST_PROCESS);
        options
    }

    fn handle(&mut self, event: &Event, phase: Phase, env: &Env, damage: &mut Damage) -> Reaction {
        let reaction = self.react(event, phase, env);
        mark_unless_passed(&self.core, reaction, damage);
        reaction
    }

    fn draw(&self, screen: &mut Screen, canvas: Canvas, env: &Env) {
        let Some(seen) = self.core.seen(canvas) else {
            return;
        };
        let items = self.declared().items.as_slice();
        let face = ClusterFace {
            items,
            marks: ClusterMarks::Radios,
            selected: self.marked,
            is_focused: has_focus(env, self.core.id()),
            chain: env.chain,
        };
        let width = natural(&self.core.node().w);
        let height = items.len() as u32;
        lay(screen, seen, width, height, &face);
    }

    fn focus_to(&mut self, id: Id, _damage: &mut Damage) -> bool {
        self.core.focus_to(id)
    }

    fn press_item(&mut self, id: Id, item: u8, damage: &mut Damage) {
        if self.core.id() == id && is_item(self.declared().items.as_slice().len(), item) {
            self.core.mark(damage);
            self.marked = item;
        }
    }

    fn held(&self) -> bool {
        self.core.holds()
    }

    fn first_invalid(&self) -> Option<Id> {
        None
    }

    fn get(&self, values: &mut Record) {
        values.put(self.core.id(), Value::Item(self.marked));
    }

    fn set(&mut self, values: &Record, damage: &mut Damage) {
        self.core.reset();
        if let Some(Value::Item(item)) = values.value(self.core.id()) {
            self.core.mark(damage);
            self.marked = *item;
        }
    }

    fn apply(&mut self, rules: &Rules, damage: &mut Damage) {
        self.core.apply(rules, damage);
    }

    fn env_damage(&self, old: &Env, new: &Env, damage: &mut Damage) {
        self.core.env_damage(old, new, damage);
    }

    fn is_fresh(&self, node: &Node) -> bool {
        self.core.is_fresh(node) && self.marked == first_marked(self.declared())
    }
}
