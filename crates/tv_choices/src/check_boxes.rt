//! Check boxes.

ghost use Rattle.std.specs.Prelude.{◌≡◌, ◌↔◌, ◌≤◌, ◌-◌, ◌^◌, All, IfOk, IsErrOf, IsTrue, Some, false, length, if◌then◌else◌};
ghost use Rattle.std.specs.Int.RustNames.{bit_xor};
ghost use Rattle.tv_cells.specs.declared.rect.Point.{Point};
ghost use Rattle.tv_choices.specs.Choices.{is_boxes, boxes_leaf};
ghost use Rattle.tv_event.specs.declared.event.Phase.TheVariants as phases;
ghost use Rattle.tv_view.specs.Meaning.{fresh};
ghost use Rattle.tv_model.specs.Kinds.Cluster.{marks_of};
ghost use Rattle.tv_model.specs.Controls.Contents.{IsItem};
ghost use Rattle.tv_model.specs.Description.LawfulNodes.{IsLawfulNode};
ghost use Rattle.tv_model.specs.Description.Numbers.{natural};
ghost use Rattle.tv_model.specs.declared.kind.Kind.TheVariants as kinds;
ghost use Rattle.tv_model.specs.declared.kind.CheckBoxes.{CheckBoxes as Declared};
ghost use Rattle.tv_view.specs.Effects.{StaysWherePassed, captured, handled, leaf_keyed, lifted};
ghost use Rattle.tv_view.specs.Reactions.{answer, captures, down_answer, keyed_answer, lifted_answer};
ghost use Rattle.tv_view.specs.declared.env.Env.{Env as Lent};

use crate::cluster::{ClusterKey, cluster_key, is_item, item_released, letter_answer, row_item};
use crate::marking::mark_unless_passed;
use bitflags::Flags;
use std::alloc::Global;
use tv_cells::{Canvas, Damage, Point, Rect, Screen, lay};
use tv_event::{Event, Key, Options, Phase, State};
use tv_faces::{ClusterFace, ClusterMarks};
use tv_model::{CheckBoxes as Declared, Id, Kind, Node, Record, Value, natural};
use tv_view::{ControlFault, Env, LeafCore, Reaction, Rules, View, has_focus};

/// Check boxes: any of their items are marked, and one is selected.
#[derive(Drop)]
pub struct CheckBoxes {
    core: LeafCore,
    marks: u16,
    selected: u8,
    ghost own_kind: { IsTrue (is_boxes core.node.kind) },
    ghost own_item: { selected ≤ 16 },
}

// The mark of an item: bit 0 is that of the first one.
fn mark_of(item: u8) -> u16
    requires { item ≤ 16 }
    ensures { result ≡ 2 ^ (item - 1) }
{
    1 << item.saturating_sub(1)
}

fn declared_mark(item: &i32) -> u16
    requires { IsItem item.now 16 }
    ensures { result ≡ 2 ^ (natural item.now - 1) }
{
    mark_of(*item as u8)
}

fn marks_of(items: &[i32]) -> u16
    requires { All (λ item. IsItem item 16) items.now }
    ensures { result ≡ marks_of items.now }
{
    let mut marks = 0;
    for i in (0..items.len()).rev() {
        marks |= declared_mark(&items[i]);
    }
    marks
}

fn first_marks(declared: &Declared) -> u16
    requires items { All (λ item. IsItem item (length declared.now.items)) declared.now.start }
    requires count { length declared.now.items ≤ 16 }
    ensures { result ≡ marks_of declared.now.start }
{
    marks_of(declared.start.as_slice())
}

impl CheckBoxes {
    /// Makes the check boxes of a node, which must be one that sound descriptions may have.
    ///
    /// # Errors
    ///
    /// `WrongKind` for any other node, `NoMemory` where there is none for its texts.
    pub fn new(alloc: Global, node: &Node) -> Result<CheckBoxes, ControlFault>
        requires { IsLawfulNode node.now }
        ensures made { IfOk result (λ view. boxes_leaf view.core view.marks view.selected ≡ fresh node.now) }
        ensures wrong { IsErrOf result ControlFault.WrongKind ↔ (is_boxes node.now.kind ≡ false) }
    {
        match &node.kind {
            Kind::CheckBoxes(declared) => {
                let marks = first_marks(declared);
                Ok(CheckBoxes {
                    core: LeafCore::new(alloc, node)?,
                    marks,
                    selected: 1,
                })
            }
            _ => Err(ControlFault::WrongKind),
        }
    }

    // What their line declares.
    fn declared(&self) -> &Declared
        ensures is { self.now.core.node.kind ≡ kinds.CheckBoxes result.now }
        ensures count { length result.now.items ≤ 16 }
        ensures start { All (λ item. IsItem item (length result.now.items)) result.now.start }
    {
        match &self.core.node().kind {
            Kind::CheckBoxes(boxes) => boxes,
            _ => unreachable!(),
        }
    }

    // Selects an item, and flips its mark.
    fn press(&mut self, item: u8)
        requires { item ≤ 16 }
        ensures core { self.new.core ≡ self.old.core }
        ensures marks { self.new.marks ≡ bit_xor self.old.marks (2 ^ (item - 1)) }
        ensures selected { self.new.selected ≡ item }
    {
        self.marks ^= mark_of(item);
        self.selected = item;
    }

    // A key in the focus.
    fn focused_key(&mut self, key: Key) -> Reaction
        ensures reaction { (env : Lent)
            → result ≡ keyed_answer env
            (boxes_leaf self.old.core self.old.marks self.old.selected) key phases.Focused }
        ensures after { boxes_leaf self.new.core self.new.marks self.new.selected
            ≡ leaf_keyed key phases.Focused (boxes_leaf self.old.core self.old.marks self.old.selected) }
    {
        match cluster_key(self.declared().items.as_slice(), self.selected, key) {
            ClusterKey::Passed => Reaction::Pass,
            ClusterKey::Selects(item) => {
                self.selected = item;
                Reaction::Done
            }
            ClusterKey::Presses(item) => {
                self.press(item);
                Reaction::Changed(self.core.id())
            }
        }
    }

    // A key in any phase.
    fn key_answer(&mut self, key: Key, phase: Phase) -> Reaction
        ensures reaction { (env : Lent) → result ≡ keyed_answer env (boxes_leaf self.old.core self.old.marks self.old.selected) key phase }
        ensures after { boxes_leaf self.new.core self.new.marks self.new.selected
            ≡ leaf_keyed key phase (boxes_leaf self.old.core self.old.marks self.old.selected) }
    {
        match phase {
            Phase::Focused => self.focused_key(key),
            Phase::Pre | Phase::Post => {
                letter_answer(self.core.id(), self.declared().items.as_slice(), key, phase)
            }
        }
    }

    // A mouse down where they are the topmost leaf.
    fn down_answer(&mut self, point: Point) -> Reaction
        ensures reaction { (env : Lent) → result ≡ down_answer env (boxes_leaf self.old.core self.old.marks self.old.selected) }
        ensures after { (env : Lent)
            → boxes_leaf self.new.core self.new.marks self.new.selected
            ≡ (if captures (boxes_leaf self.old.core self.old.marks self.old.selected) self.old.core.node.kind
            then captured env point (boxes_leaf self.old.core self.old.marks self.old.selected)
            else boxes_leaf self.old.core self.old.marks self.old.selected) }
    {
        if !self.core.is_focused() {
            return Reaction::Focus(self.core.id());
        }
        self.core.hold(row_item(self.core.bounds(), point));
        Reaction::Capture(self.core.id())
    }

    // The mouse goes up.
    fn up_answer(&mut self, point: Point) -> Reaction
        ensures reaction { result ≡ lifted_answer (boxes_leaf self.old.core self.old.marks self.old.selected) point self.old.core.held }
        ensures after { boxes_leaf self.new.core self.new.marks self.new.selected
            ≡ lifted point self.old.core.held (boxes_leaf self.old.core self.old.marks self.old.selected) }
    {
        let Some(item) = self.core.held() else {
            return Reaction::Pass;
        };
        self.core.release();
        match item_released(self.core.bounds(), point, item) {
            Some(item) => {
                self.press(item);
                Reaction::Changed(self.core.id())
            }
            None => Reaction::Release,
        }
    }
}

#[tactic(auto, unfolding(tv_view::specs::Reactions::answer, tv_view::specs::Effects::handled))]
impl CheckBoxes {
    // What they answer to an event, and become.
    fn react(&mut self, event: &Event, phase: Phase, env: &Env) -> Reaction
        ensures reaction { result ≡ answer event.now phase env.now (boxes_leaf self.old.core self.old.marks self.old.selected) }
        ensures after { boxes_leaf self.new.core self.new.marks self.new.selected
            ≡ handled event.now phase env.now (boxes_leaf self.old.core self.old.marks self.old.selected) }
        ensures passed { StaysWherePassed result (boxes_leaf self.old.core self.old.marks self.old.selected)
            (boxes_leaf self.new.core self.new.marks self.new.selected) }
    {
        match event {
            Event::Key(key) => self.key_answer(*key, phase),
            Event::Down(point) => self.down_answer(*point),
            Event::Move(_) if self.core.holds() => Reaction::Done,
            Event::Up(point) => self.up_answer(*point),
            _ => Reaction::Pass,
        }
    }
}

#[tactic(auto, unfolding(tv_view::specs::Calls::focused_to, tv_view::specs::Calls::item_pressed, tv_view::specs::Calls::invalid_id, tv_view::specs::Calls::gathered, tv_view::specs::Calls::HasRoom, tv_view::specs::Calls::Fits, tv_view::specs::Calls::set_from, tv_view::specs::Calls::applied, tv_view::specs::Drawing::leaf_layers))]
impl View for CheckBoxes {
    ghost meaning = { λ view. boxes_leaf view.core view.marks view.selected };

    fn id(&self) -> Id {
        self.core.id()
    }

    fn bounds(&self) -> Rect {
        self.core.bounds()
    }

    fn state(&self) -> State {
        self.core.state()
    }

    fn options(&self) -> Options {
        let mut options = Options::SELECTABLE;
        options.insert(Options::FIRST_CLICK);
        options.insert(Options::PRE_PROCESS);
        options.insert(Options::POST_PROCESS);
        options
    }

    fn handle(&mut self, event: &Event, phase: Phase, env: &Env, damage: &mut Damage) -> Reaction {
        let reaction = self.react(event, phase, env);
        mark_unless_passed(&self.core, reaction, damage);
        reaction
    }

    fn draw(&self, screen: &mut Screen, canvas: Canvas, env: &Env) {
        let Some(seen) = self.core.seen(canvas) else {
            return;
        };
        let items = self.declared().items.as_slice();
        let face = ClusterFace {
            items,
            marks: ClusterMarks::Boxes(self.marks),
            selected: self.selected,
            is_focused: has_focus(env, self.core.id()),
            chain: env.chain,
        };
        let width = natural(&self.core.node().w);
        let height = items.len() as u32;
        lay(screen, seen, width, height, &face);
    }

    fn focus_to(&mut self, id: Id, _damage: &mut Damage) -> bool {
        self.core.focus_to(id)
    }

    fn press_item(&mut self, id: Id, item: u8, damage: &mut Damage) {
        if self.core.id() == id && is_item(self.declared().items.as_slice().len(), item) {
            self.core.mark(damage);
            self.press(item);
        }
    }

    fn held(&self) -> bool {
        self.core.holds()
    }

    fn first_invalid(&self) -> Option<Id> {
        None
    }

    fn get(&self, values: &mut Record) {
        values.put(self.core.id(), Value::Marks(self.marks));
    }

    fn set(&mut self, values: &Record, damage: &mut Damage) {
        self.core.reset();
        if let Some(Value::Marks(marks)) = values.value(self.core.id()) {
            self.core.mark(damage);
            self.marks = *marks;
            self.selected = 1;
        }
    }

    fn apply(&mut self, rules: &Rules, damage: &mut Damage) {
        self.core.apply(rules, damage);
    }

    fn env_damage(&self, old: &Env, new: &Env, damage: &mut Damage) {
        self.core.env_damage(old, new, damage);
    }

    fn is_fresh(&self, node: &Node) -> bool {
        self.core.is_fresh(node) && self.selected == 1 && self.marks == first_marks(self.declared())
    }
}
