//! Lists.

ghost use Rattle.std.specs.Prelude.{◌≡◌, ◌↔◌, ◌≤◌, ◌≤ℤ◌, ◌+◌, ◌-◌, IfOk, IsErrOf, IsTrue, false, length, max, pos, if◌then◌else◌};
ghost use Rattle.tv_cells.specs.declared.rect.Point.{Point};
ghost use Rattle.tv_choices.specs.Choices.{is_list, list_leaf};
ghost use Rattle.tv_event.specs.declared.event.Phase.TheVariants as phases;
ghost use Rattle.tv_model.specs.Kinds.ListBox.{chosen_of, with_chosen, row_chosen, chosen};
ghost use Rattle.tv_view.specs.Meaning.{fresh};
ghost use Rattle.tv_model.specs.Controls.Contents.{IsItem};
ghost use Rattle.tv_model.specs.Description.LawfulNodes.{IsLawfulNode};
ghost use Rattle.tv_model.specs.Description.Numbers.{natural};
ghost use Rattle.tv_model.specs.declared.kind.Kind.TheVariants as kinds;
ghost use Rattle.tv_model.specs.declared.kind.ListBox.{ListBox as Declared};
ghost use Rattle.tv_view.specs.Effects.{StaysWherePassed, captured, handled, leaf_keyed, lifted, moved};
ghost use Rattle.tv_view.specs.Fields.{content_of, with_content};
ghost use Rattle.tv_view.specs.Reactions.{answer, captures, down_answer, keyed_answer, lifted_answer, move_answer};
ghost use Rattle.tv_view.specs.declared.env.Env.{Env as Lent};

use crate::chosen::Chosen;
use crate::marking::mark_unless_passed;
use bitflags::Flags;
use std::alloc::Global;
use tv_cells::{Canvas, Damage, Point, Rect, Screen, lay};
use tv_event::{Event, Key, Options, Phase, State};
use tv_faces::ListFace;
use tv_model::{Id, Kind, ListBox as Declared, Node, Record, Value, natural};
use tv_view::{ControlFault, Env, LeafCore, Reaction, Rules, View, contains, has_focus, row_of};

/// A list: one of its items is chosen, and as many are shown as it has rows.
#[derive(Drop)]
pub struct ListBox {
    core: LeafCore,
    chosen: Chosen,
    ghost own_kind: { IsTrue (is_list core.node.kind) },
}

fn first_chosen(declared: &Declared) -> Chosen
    requires item { IsItem declared.now.start (length declared.now.items) }
    requires count { length declared.now.items ≤ 100 }
    requires height { pos 1 ≤ℤ declared.now.h }
    ensures item { result.item ≡ natural declared.now.start }
    ensures top { result.top ≡ max 1 (natural declared.now.start + 1 - natural declared.now.h) }
{
    Chosen::opened(natural(&declared.h), declared.start as u8)
}

impl ListBox {
    /// Makes the list of a node, which must be one that sound descriptions may have.
    ///
    /// # Errors
    ///
    /// `WrongKind` for any other node, `NoMemory` where there is none for its texts.
    pub fn new(alloc: Global, node: &Node) -> Result<ListBox, ControlFault>
        requires { IsLawfulNode node.now }
        ensures made { IfOk result (λ view. list_leaf view.core view.chosen ≡ fresh node.now) }
        ensures wrong { IsErrOf result ControlFault.WrongKind ↔ (is_list node.now.kind ≡ false) }
    {
        match &node.kind {
            Kind::List(declared) => {
                let chosen = first_chosen(declared);
                Ok(ListBox {
                    core: LeafCore::new(alloc, node)?,
                    chosen,
                })
            }
            _ => Err(ControlFault::WrongKind),
        }
    }

    // What its line declares.
    fn declared(&self) -> &Declared
        ensures is { self.now.core.node.kind ≡ kinds.List result.now }
        ensures count { length result.now.items ≤ 100 }
        ensures one { pos 1 ≤ℤ result.now.h }
        ensures low { result.now.h ≤ℤ pos 60 }
        ensures start { IsItem result.now.start (length result.now.items) }
    {
        match &self.core.node().kind {
            Kind::List(list) => list,
            _ => unreachable!(),
        }
    }

    // Its rows.
    fn height(&self) -> u32
        ensures is { (list : Declared) → self.now.core.node.kind ≡ kinds.List list → result ≡ natural list.h }
        ensures one { 1 ≤ result }
        ensures low { result ≤ 60 }
    {
        natural(&self.declared().h)
    }

    // The number of its items.
    fn count(&self) -> usize
        ensures is { (list : Declared) → self.now.core.node.kind ≡ kinds.List list → result ≡ length list.items }
        ensures small { result ≤ 100 }
    {
        self.declared().items.as_slice().len()
    }

    // Chooses the item, or the nearest that there is.
    fn choose(&mut self, item: u32)
        ensures core { self.new.core ≡ self.old.core }
        ensures chosen { (list : Declared) → self.old.core.node.kind ≡ kinds.List list
            → list_leaf self.new.core self.new.chosen
            ≡ with_content (with_chosen
            (chosen (natural list.h) (length list.items) item
            (chosen_of (content_of (list_leaf self.old.core self.old.chosen))))
            (content_of (list_leaf self.old.core self.old.chosen))) (list_leaf self.old.core self.old.chosen) }
    {
        self.chosen = self.chosen.with(self.height(), self.count(), item);
    }

    // Chooses the item of a row, or the last one.
    fn choose_row(&mut self, row: u32)
        ensures core { self.new.core ≡ self.old.core }
        ensures chosen { (list : Declared) → self.old.core.node.kind ≡ kinds.List list
            → list_leaf self.new.core self.new.chosen
            ≡ with_content (row_chosen (natural list.h) (length list.items) row
            (content_of (list_leaf self.old.core self.old.chosen))) (list_leaf self.old.core self.old.chosen) }
    {
        self.choose(self.chosen.item_at_row(self.count(), row));
    }

    // A key in the focus.
    fn focused_key(&mut self, key: Key) -> Reaction
        ensures reaction { (env : Lent) → result ≡ keyed_answer env (list_leaf self.old.core self.old.chosen) key phases.Focused }
        ensures after { list_leaf self.new.core self.new.chosen ≡ leaf_keyed key phases.Focused (list_leaf self.old.core self.old.chosen) }
    {
        match self.chosen.asked_item(self.height(), self.count(), key) {
            Some(item) => {
                self.choose(item);
                Reaction::Done
            }
            None => Reaction::Pass,
        }
    }

    // A key in any phase.
    fn key_answer(&mut self, key: Key, phase: Phase) -> Reaction
        ensures reaction { (env : Lent) → result ≡ keyed_answer env (list_leaf self.old.core self.old.chosen) key phase }
        ensures after { list_leaf self.new.core self.new.chosen ≡ leaf_keyed key phase (list_leaf self.old.core self.old.chosen) }
    {
        match phase {
            Phase::Focused => self.focused_key(key),
            Phase::Pre | Phase::Post => Reaction::Pass,
        }
    }

    // A mouse down where it is the topmost leaf.
    fn down_answer(&mut self, point: Point) -> Reaction
        ensures reaction { (env : Lent) → result ≡ down_answer env (list_leaf self.old.core self.old.chosen) }
        ensures after { (env : Lent)
            → list_leaf self.new.core self.new.chosen
            ≡ (if captures (list_leaf self.old.core self.old.chosen) self.old.core.node.kind
            then captured env point (list_leaf self.old.core self.old.chosen)
            else list_leaf self.old.core self.old.chosen) }
    {
        if !self.core.is_focused() {
            return Reaction::Focus(self.core.id());
        }
        let row = row_of(self.core.bounds(), point);
        self.choose_row(row);
        self.core.hold(0);
        Reaction::Capture(self.core.id())
    }

    // The mouse moves.
    fn move_answer(&mut self, point: Point) -> Reaction
        ensures reaction { result ≡ move_answer (list_leaf self.old.core self.old.chosen) }
        ensures after { list_leaf self.new.core self.new.chosen ≡ moved point (list_leaf self.old.core self.old.chosen) }
    {
        if !self.core.holds() {
            return Reaction::Pass;
        }
        let bounds = self.core.bounds();
        if contains(bounds, point) {
            self.choose_row(row_of(bounds, point));
        }
        Reaction::Done
    }

    // The mouse goes up.
    fn up_answer(&mut self) -> Reaction
        ensures reaction { (point : Point) → result ≡ lifted_answer (list_leaf self.old.core self.old.chosen) point self.old.core.held }
        ensures after { (point : Point)
            → list_leaf self.new.core self.new.chosen
            ≡ lifted point self.old.core.held (list_leaf self.old.core self.old.chosen) }
    {
        if !self.core.holds() {
            return Reaction::Pass;
        }
        self.core.release();
        Reaction::Release
    }
}

#[tactic(auto, unfolding(tv_view::specs::Reactions::answer, tv_view::specs::Effects::handled))]
impl ListBox {
    // What it answers to an event, and becomes.
    fn react(&mut self, event: &Event, phase: Phase, env: &Env) -> Reaction
        ensures reaction { result ≡ answer event.now phase env.now (list_leaf self.old.core self.old.chosen) }
        ensures after { list_leaf self.new.core self.new.chosen
            ≡ handled event.now phase env.now (list_leaf self.old.core self.old.chosen) }
        ensures passed { StaysWherePassed result (list_leaf self.old.core self.old.chosen) (list_leaf self.new.core self.new.chosen) }
    {
        match event {
            Event::Key(key) => self.key_answer(*key, phase),
            Event::Down(point) => self.down_answer(*point),
            Event::Move(point) => self.move_answer(*point),
            Event::Up(_) => self.up_answer(),
            _ => Reaction::Pass,
        }
    }
}

#[tactic(auto, unfolding(tv_view::specs::Calls::focused_to, tv_view::specs::Calls::item_pressed, tv_view::specs::Calls::invalid_id, tv_view::specs::Calls::gathered, tv_view::specs::Calls::HasRoom, tv_view::specs::Calls::Fits, tv_view::specs::Calls::set_from, tv_view::specs::Calls::applied, tv_view::specs::Drawing::leaf_layers))]
impl View for ListBox {
    ghost meaning = { λ view. list_leaf view.core view.chosen };

    fn id(&self) -> Id {
        self.core.id()
    }

    fn bounds(&self) -> Rect {
        self.core.bounds()
    }

    fn state(&self) -> State {
        self.core.state()
    }

    fn options(&self) -> Options {
        let mut options = Options::SELECTABLE;
        options.insert(Options::FIRST_CLICK);
        options
    }

    fn handle(&mut self, event: &Event, phase: Phase, env: &Env, damage: &mut Damage) -> Reaction {
        let reaction = self.react(event, phase, env);
        mark_unless_passed(&self.core, reaction, damage);
        reaction
    }

    fn draw(&self, screen: &mut Screen, canvas: Canvas, env: &Env) {
        let Some(seen) = self.core.seen(canvas) else {
            return;
        };
        let face = ListFace {
            items: self.declared().items.as_slice(),
            chosen: self.chosen.item,
            top: self.chosen.top,
            is_focused: has_focus(env, self.core.id()),
            chain: env.chain,
        };
        let width = natural(&self.core.node().w);
        let height = self.height();
        lay(screen, seen, width, height, &face);
    }

    fn focus_to(&mut self, id: Id, _damage: &mut Damage) -> bool {
        self.core.focus_to(id)
    }

    fn press_item(&mut self, _id: Id, _item: u8, _damage: &mut Damage) {}

    fn held(&self) -> bool {
        self.core.holds()
    }

    fn first_invalid(&self) -> Option<Id> {
        None
    }

    fn get(&self, values: &mut Record) {
        values.put(self.core.id(), Value::Item(self.chosen.item));
    }

    fn set(&mut self, values: &Record, damage: &mut Damage) {
        self.core.reset();
        if let Some(Value::Item(item)) = values.value(self.core.id()) {
            self.core.mark(damage);
            self.chosen = Chosen::opened(self.height(), *item);
        }
    }

    fn apply(&mut self, rules: &Rules, damage: &mut Damage) {
        self.core.apply(rules, damage);
    }

    fn env_damage(&self, old: &Env, new: &Env, damage: &mut Damage) {
        self.core.env_damage(old, new, damage);
    }

    fn is_fresh(&self, node: &Node) -> bool {
        self.core.is_fresh(node) && self.chosen == first_chosen(self.declared())
    }
}
