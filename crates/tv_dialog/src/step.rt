//! What a dialog makes of an event that it is handed.

ghost use Rattle.std.specs.Prelude.{◌≡◌, ◌<◌, [], length, true};
ghost use Rattle.tv_model.specs.declared.desc.Dialog.{Dialog};
ghost use Rattle.tv_machine.specs.Dialog.Focus.{is_free_at};
ghost use Rattle.tv_machine.specs.Dialog.Lawful.{IsLawfulDialog};
ghost use Rattle.tv_machine.specs.Dialog.Modal.{Modal};
ghost use Rattle.tv_machine.specs.Dialog.Mouse.{is_close_mark};
ghost use Rattle.tv_machine.specs.Dialog.Shortcuts.{HaveOneMarker};
ghost use Rattle.tv_machine.specs.Dialog.Step.{dialog_step};
ghost use Rattle.tv_group.specs.Ready.{HoldsLeaf};
ghost use Rattle.tv_group.specs.Calls.{any_holds};
ghost use Rattle.tv_group.specs.Opened.{group_bounds, opened};
ghost use Rattle.tv_view.specs.Damage.{AllEnvDamages};
ghost use Rattle.tv_dialog.specs.Damage.{BodyDrawn, DialogDamages};
ghost use Rattle.tv_dialog.specs.Drawn.{lent};
ghost use Rattle.tv_dialog.specs.Standing.{Stands};
ghost use Rattle.tv_dialog.specs.Stepping.{IsHandedIn, posted, posted_free, posted_held, posted_key, begun_anew, walked};

use crate::dialog::DialogOf;
use crate::plan::Plan;
use tv_cells::{Damage, Point};
use tv_event::{Command, Event, Key};
use tv_group::{Dir, GroupOf};
use tv_model::Id;
use tv_view::{Env, View};

/// Whether a point, seen from a dialog's corner, lies on the mark in its frame that closes it.
pub fn is_close_mark(point: Point) -> bool
    ensures { result ≡ is_close_mark point }
{
    point.y == 0 && 2 <= point.x && point.x <= 4
}

fn posted_key(key: Key) -> Option<Event>
    ensures { result ≡ posted_key key }
{
    match key {
        Key::Tab | Key::ShiftTab => None,
        Key::Esc => Some(Event::Command(Command::CANCEL)),
        Key::Enter => Some(Event::Broadcast(Command::DEFAULT)),
        _ => Some(Event::Key(key)),
    }
}

// What an event is posted as while no view holds the mouse, if it is.
fn posted_free(event: &Event) -> Option<Event>
    ensures { result ≡ posted_free event.now }
{
    match event {
        Event::Key(key) => posted_key(*key),
        Event::Down(point) => {
            if is_close_mark(*point) {
                Some(Event::Command(Command::CLOSE))
            } else {
                Some(Event::Down(*point))
            }
        }
        Event::Command(command) => Some(Event::Command(*command)),
        Event::Up(_) | Event::Move(_) | Event::Broadcast(_) => None,
    }
}

// The same while a view holds the mouse.
fn posted_held(event: &Event) -> Option<Event>
    ensures { result ≡ posted_held event.now }
{
    match event {
        Event::Up(point) => Some(Event::Up(*point)),
        Event::Move(point) => Some(Event::Move(*point)),
        Event::Command(command) => Some(Event::Command(*command)),
        Event::Key(_) | Event::Down(_) | Event::Broadcast(_) => None,
    }
}

fn posted(is_held: bool, event: &Event) -> Option<Event>
    ensures { result ≡ posted is_held event.now }
{
    if is_held {
        posted_held(event)
    } else {
        posted_free(event)
    }
}

// Adds what the views show otherwise once the focus, and with it the default button, is elsewhere. It asks no view where
// the focus has stayed.
fn refocus_damage<V: View>(
    body: &GroupOf<V>,
    plan: &Plan,
    was: Id,
    focus: Id,
    env: &Env,
    damage: &mut Damage,
)
    ensures { AllEnvDamages (group_bounds body.now) (lent plan.now was env.now) (lent plan.now focus env.now)
        (opened V.meaning body.now) damage.old damage.new }
{
    if was == focus {
        return;
    }
    let old = plan.lent(was, env);
    let new = plan.lent(focus, env);
    body.env_damage(&old, &new, damage);
}

impl<V: View> DialogOf<V> {
    // Handles the keys that lead from control to control.
    fn walk(&mut self, event: &Event)
        ensures stands { (d : Dialog) (m : Modal) → IsLawfulDialog d → length m.log < 66
            → Stands V.meaning d m.leaves m self.old → Stands V.meaning d (walked d event.now m).leaves (walked d event.now m) self.new }
        ensures pending { self.new.pending ≡ self.old.pending }
        ensures drawn { BodyDrawn V.meaning self.old self.new }
    {
        match event {
            Event::Key(Key::Tab) => self.advance(Dir::Forward),
            Event::Key(Key::ShiftTab) => self.advance(Dir::Backward),
            _ => {}
        }
    }

    /// Handles an event, whose point is seen from the dialog's corner. `env` is what the dialog's owner lends it, with
    /// the dialog's own views; the dialog itself adds who has the focus and what Enter presses. Adds to the damage what
    /// it shows otherwise then.
    pub fn step(&mut self, event: &Event, env: &Env, damage: &mut Damage)
        requires { self.old.is_open ≡ true }
        ensures stands { (d : Dialog) (m : Modal) → IsLawfulDialog d → env.now.views.now ≡ d.views → IsHandedIn event.now → HoldsLeaf d m
            → is_free_at d m.leaves m.focus ≡ true → HaveOneMarker d m.leaves → Stands V.meaning d m.leaves m self.old
            → Stands V.meaning d (dialog_step d event.now (begun_anew m)).leaves (dialog_step d event.now (begun_anew m)) self.new }
        ensures pending { self.new.pending ≡ [] }
        ensures corner { self.new.corner ≡ self.old.corner }
        ensures sheet { self.new.sheet ≡ self.old.sheet }
        ensures damage { DialogDamages V.meaning env.now self.old self.new damage.old damage.new }
    {
        self.step_with_hold(self.held(), event, env, damage);
    }

    /// Handles an event as `step` does, told whether one of its views holds the mouse. To ask that costs a call of each.
    pub fn step_with_hold(&mut self, is_held: bool, event: &Event, env: &Env, damage: &mut Damage)
        requires going { self.old.is_open ≡ true }
        requires held { is_held ≡ any_holds (opened V.meaning self.old.body) }
        ensures stands { (d : Dialog) (m : Modal) → IsLawfulDialog d → env.now.views.now ≡ d.views → IsHandedIn event.now → HoldsLeaf d m
            → is_free_at d m.leaves m.focus ≡ true → HaveOneMarker d m.leaves → Stands V.meaning d m.leaves m self.old
            → Stands V.meaning d (dialog_step d event.now (begun_anew m)).leaves (dialog_step d event.now (begun_anew m)) self.new }
        ensures pending { self.new.pending ≡ [] }
        ensures corner { self.new.corner ≡ self.old.corner }
        ensures sheet { self.new.sheet ≡ self.old.sheet }
        ensures damage { DialogDamages V.meaning env.now self.old self.new damage.old damage.new }
    {
        let was = self.focus;
        self.damage.clear();
        self.answer(is_held, event, env);
        refocus_damage(
            &self.body,
            &self.plan,
            was,
            self.focus,
            env,
            &mut self.damage,
        );
        damage.add_within(&self.damage, self.bounds());
    }

    // Does what an event comes to.
    fn answer(&mut self, is_held: bool, event: &Event, env: &Env)
        requires going { self.old.is_open ≡ true }
        requires held { is_held ≡ any_holds (opened V.meaning self.old.body) }
        ensures stands { (d : Dialog) (m : Modal) → IsLawfulDialog d → env.now.views.now ≡ d.views → IsHandedIn event.now → HoldsLeaf d m
            → is_free_at d m.leaves m.focus ≡ true → HaveOneMarker d m.leaves → Stands V.meaning d m.leaves m self.old
            → Stands V.meaning d (dialog_step d event.now (begun_anew m)).leaves (dialog_step d event.now (begun_anew m)) self.new }
        ensures pending { self.new.pending ≡ [] }
        ensures drawn { BodyDrawn V.meaning self.old self.new }
    {
        self.log.clear();
        self.pending.clear();
        match posted(is_held, event) {
            Some(event) => {
                self.pending.post(event);
                self.settle(env);
            }
            None => {
                if !is_held {
                    self.walk(event);
                }
            }
        }
    }
}
