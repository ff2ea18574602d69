//! A view that passes each call on to a control, and notes what it was told.

use crate::journal::{Call, Journal};
use std::alloc::AllocError;
use std::rc::Rc;
use tv_cells::{Canvas, Damage, Rect, Screen};
use tv_event::{Event, Options, Phase, State};
use tv_model::{Id, Node, Record};
use tv_view::{Env, Reaction, Rules, View};

/// A view that is another, which it tells all that it is told itself.
pub struct Probe<V: View> {
    view: V,
    journal: Rc<Journal>,
}

impl<V: View> Probe<V> {
    /// A probe of the view, which notes its calls in the journal.
    pub fn new(view: V, journal: &Rc<Journal>) -> Result<Probe<V>, AllocError> {
        Ok(Probe {
            view,
            journal: Rc::clone(journal)?,
        })
    }
}

impl<V: View> Drop for Probe<V> {
    fn drop(self) {
        self.journal.note(self.view.id(), Call::Dropped);
        let Probe {
            view: _,
            journal: _,
        } = self;
    }
}

impl<V: View> View for Probe<V> {
    ghost meaning = { λ probe. V.meaning probe.view };

    fn id(&self) -> Id {
        self.view.id()
    }

    fn bounds(&self) -> Rect {
        self.view.bounds()
    }

    fn state(&self) -> State {
        self.view.state()
    }

    fn options(&self) -> Options {
        self.view.options()
    }

    fn handle(&mut self, event: &Event, phase: Phase, env: &Env, damage: &mut Damage) -> Reaction {
        self.journal
            .note(self.view.id(), Call::Handed(*event, phase));
        self.view.handle(event, phase, env, damage)
    }

    fn draw(&self, screen: &mut Screen, canvas: Canvas, env: &Env) {
        self.journal.note(self.view.id(), Call::Drawn);
        self.view.draw(screen, canvas, env)
    }

    fn focus_to(&mut self, id: Id, damage: &mut Damage) -> bool {
        let has_focus = self.view.focus_to(id, damage);
        if has_focus {
            self.journal.note(self.view.id(), Call::Focused);
        }
        has_focus
    }

    fn press_item(&mut self, id: Id, item: u8, damage: &mut Damage) {
        self.view.press_item(id, item, damage)
    }

    fn held(&self) -> bool {
        self.view.held()
    }

    fn first_invalid(&self) -> Option<Id> {
        self.view.first_invalid()
    }

    fn get(&self, values: &mut Record) {
        self.view.get(values)
    }

    fn set(&mut self, values: &Record, damage: &mut Damage) {
        self.view.set(values, damage)
    }

    fn apply(&mut self, rules: &Rules, damage: &mut Damage) {
        self.view.apply(rules, damage)
    }

    fn env_damage(&self, old: &Env, new: &Env, damage: &mut Damage) {
        self.view.env_damage(old, new, damage)
    }

    fn is_fresh(&self, node: &Node) -> bool {
        self.view.is_fresh(node)
    }
}
