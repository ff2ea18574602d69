//! How a posted event is handled.

ghost use Rattle.std.specs.Prelude.{◌≡◌, ◌≤◌, ◌∷◌, [], List, length, None};
ghost use Rattle.tv_cells.specs.declared.rect.Point.{Point};
ghost use Rattle.tv_event.specs.declared.event.Command.{Command};
ghost use Rattle.tv_event.specs.declared.event.Event.{Event};
ghost use Rattle.tv_event.specs.declared.event.Event.TheVariants as events;
ghost use Rattle.tv_model.specs.declared.desc.Dialog.{Dialog};
ghost use Rattle.tv_machine.specs.Dialog.Lawful.{IsLawfulDialog};
ghost use Rattle.tv_machine.specs.Dialog.Modal.{Modal};
ghost use Rattle.tv_machine.specs.State.{LeafState};
ghost use Rattle.tv_group.specs.Handling.{group_after, group_answer};
ghost use Rattle.tv_group.specs.Opened.{opened};
ghost use Rattle.tv_machine.specs.Dialog.Alike.{HoldSame};
ghost use Rattle.tv_group.specs.Ready.{KeepsMarks};
ghost use Rattle.tv_view.specs.Damage.{AllDrawn};
ghost use Rattle.tv_dialog.specs.Settling.{SettlesTo, IsPosted, IsReadyFor, IsReadyForAll, IsReadyForDown, PostedAfter, may_call, may_take, posted_by, reacted_first, turned};
ghost use Rattle.tv_dialog.specs.Damage.{BodyDrawn};
ghost use Rattle.tv_dialog.specs.Standing.{Stands};
ghost use Rattle.tv_group.specs.TreeTurns.{IsLentBy, phases_after, phases_answer};

use crate::dialog::DialogOf;
use crate::log::note;
use tv_cells::Damage;
use tv_event::{Event, Key, Phase};
use tv_group::{GroupOf, is_pass};
use tv_model::LogLine;
use tv_view::{Env, Reaction, View};

// Whether a key may call a view that marks a letter: with Alt before the current view has its turn, and by itself after
// that. The current view may take any key.
fn may_call(key: Key, phase: Phase) -> bool
    ensures { result ≡ may_call key phase }
{
    match phase {
        Phase::Pre => matches!(key, Key::Alt(_)),
        Phase::Focused => true,
        Phase::Post => matches!(key, Key::Char(_)),
    }
}

// Whether a view may take the event in the phase.
fn may_take(event: &Event, phase: Phase) -> bool
    ensures { result ≡ may_take event.now phase }
{
    match event {
        Event::Key(key) => may_call(*key, phase),
        _ => true,
    }
}

// Hands an event to the views whose turn the phase is, unless none of them would take it.
fn offer<V: View>(
    body: &mut GroupOf<V>,
    event: &Event,
    phase: Phase,
    env: &Env,
    damage: &mut Damage,
) -> Reaction
    ensures reaction { result ≡ group_answer event.now phase env.now (opened V.meaning body.old) }
    ensures after { opened V.meaning body.new ≡ group_after event.now phase env.now (opened V.meaning body.old) }
    ensures drawn { AllDrawn (opened V.meaning body.old) (opened V.meaning body.new) damage.old damage.new }
{
    if may_take(event, phase) {
        body.handle(event, phase, env, damage)
    } else {
        Reaction::Pass
    }
}

// Hands an event that isn't a mouse down to the views in the three phases, until one takes it.
fn offer_in_phases<V: View>(
    body: &mut GroupOf<V>,
    event: &Event,
    env: &Env,
    damage: &mut Damage,
) -> Reaction
    ensures handled { ((p : Point) → event.now ≡ events.Down p → ⊥) → (result ≡ phases_answer event.now env.now (opened V.meaning body.old))
        × (opened V.meaning body.new ≡ phases_after event.now env.now (opened V.meaning body.old)) }
    ensures drawn { AllDrawn (opened V.meaning body.old) (opened V.meaning body.new) damage.old damage.new }
{
    let first = offer(body, event, Phase::Pre, env, damage);
    if !is_pass(&first) {
        return first;
    }
    let second = offer(body, event, Phase::Focused, env, damage);
    if !is_pass(&second) {
        return second;
    }
    offer(body, event, Phase::Post, env, damage)
}

impl<V: View> DialogOf<V> {
    // Does what a view asks for.
    fn react(&mut self, reaction: Reaction)
        requires { self.old.pending ≡ [] }
        ensures stands { (d : Dialog) (ruled : List LeafState) (m : Modal) → IsLawfulDialog d → length m.log ≤ 1 → m.ended ≡ None
            → (KeepsMarks reaction → HoldSame d ruled m.leaves) → Stands V.meaning d ruled m self.old
            → Stands V.meaning d (reacted_first d reaction m).leaves (reacted_first d reaction m) self.new }
        ensures pending { self.new.pending ≡ posted_by reaction }
        ensures drawn { BodyDrawn V.meaning self.old self.new }
    {
        match reaction {
            Reaction::Focus(id) => {
                self.request(id);
            }
            Reaction::FocusPress(id, item) => {
                if self.request(id) {
                    self.body.press_item(id, item, &mut self.damage);
                    self.reapply_rules();
                }
            }
            Reaction::Post(id, command) => {
                note(&mut self.log, LogLine::Press(id));
                self.pending.post(Event::Command(command));
            }
            Reaction::Changed(_) => self.reapply_rules(),
            Reaction::Pass => {}
            Reaction::Done => {}
            Reaction::Capture(_) => {}
            Reaction::Release => {}
        }
    }

    // Handles a mouse down. A view that asks for the focus, and gets it, is handed the mouse down once more.
    fn press(&mut self, event: &Event, env: &Env)
        requires { self.old.pending ≡ [] }
        ensures stands { (d : Dialog) (m : Modal) → IsLawfulDialog d → IsLentBy d m env.now → (p : Point) → event.now ≡ events.Down p
            → IsReadyForDown m p → Stands V.meaning d m.leaves m self.old
            → SettlesTo V.meaning d (turned d event.now m) self.new }
        ensures pending { IsPosted self.new.pending }
        ensures drawn { BodyDrawn V.meaning self.old self.new }
    {
        match self
            .body
            .handle(event, Phase::Focused, env, &mut self.damage)
        {
            Reaction::Focus(id) => {
                if self.request(id) {
                    self.body
                        .handle(event, Phase::Focused, env, &mut self.damage);
                }
            }
            reaction => self.react(reaction),
        }
    }

    // Hands an event to every view.
    fn tell(&mut self, event: &Event, env: &Env)
        requires { self.old.pending ≡ [] }
        ensures stands { (d : Dialog) (m : Modal) → IsLawfulDialog d → IsLentBy d m env.now → IsReadyForAll d m event.now
            → Stands V.meaning d m.leaves m self.old → SettlesTo V.meaning d (turned d event.now m) self.new }
        ensures pending { IsPosted self.new.pending }
        ensures drawn { BodyDrawn V.meaning self.old self.new }
    {
        let reaction = self
            .body
            .handle(event, Phase::Focused, env, &mut self.damage);
        self.react(reaction);
    }

    // Handles a posted event, with one environment for all that follows from it.
    fn turn(&mut self, event: &Event, env: &Env)
        requires { self.old.pending ≡ [] }
        ensures stands { (d : Dialog) (m : Modal) → IsLawfulDialog d → env.now.views.now ≡ d.views → IsReadyFor d m event.now
            → Stands V.meaning d m.leaves m self.old → SettlesTo V.meaning d (turned d event.now m) self.new }
        ensures pending { PostedAfter event.now self.new.pending }
        ensures drawn { BodyDrawn V.meaning self.old self.new }
    {
        let env = self.lent(env);
        match event {
            Event::Key(_) => {
                let reaction = offer_in_phases(&mut self.body, event, &env, &mut self.damage);
                self.react(reaction);
            }
            Event::Command(command) => {
                match offer_in_phases(&mut self.body, event, &env, &mut self.damage) {
                    Reaction::Pass => self.command(*command),
                    reaction => self.react(reaction),
                }
            }
            Event::Down(_) => self.press(event, &env),
            Event::Up(_) => self.tell(event, &env),
            Event::Move(_) => self.tell(event, &env),
            Event::Broadcast(_) => self.tell(event, &env),
        }
    }

    // Handles the event that has waited longest, if one does.
    fn turn_next(&mut self, env: &Env)
        requires { length self.old.pending ≤ 1 }
        ensures stands { (d : Dialog) (m : Modal) (e : Event) → IsLawfulDialog d → env.now.views.now ≡ d.views → IsReadyFor d m e
            → self.old.pending ≡ e ∷ [] → Stands V.meaning d m.leaves m self.old → SettlesTo V.meaning d (turned d e m) self.new }
        ensures rests { self.old.pending ≡ [] → self.new ≡ self.old }
        ensures posted { IsPosted self.new.pending }
        ensures last { (c : Command) → self.old.pending ≡ events.Command c ∷ [] → self.new.pending ≡ [] }
        ensures drawn { BodyDrawn V.meaning self.old self.new }
    {
        if let Some(event) = self.pending.next() {
            self.turn(&event, env);
        }
    }

    /// Handles the posted event, and what that posts: a key, a press or a release may post a command, which posts
    /// nothing.
    pub(crate) fn settle(&mut self, env: &Env)
        requires { length self.old.pending ≤ 1 }
        ensures stands { (d : Dialog) (m : Modal) (e : Event) → IsLawfulDialog d → env.now.views.now ≡ d.views → IsReadyFor d m e
            → self.old.pending ≡ e ∷ [] → Stands V.meaning d m.leaves m self.old
            → Stands V.meaning d (turned d e m).leaves (turned d e m) self.new }
        ensures rests { self.old.pending ≡ [] → self.new ≡ self.old }
        ensures pending { self.new.pending ≡ [] }
        ensures drawn { BodyDrawn V.meaning self.old self.new }
    {
        self.turn_next(env);
        self.turn_next(env);
    }
}
