//! What events and commands make of a description at work.

ghost use Rattle.std.specs.Prelude.{◌≡◌, ◌⊎◌, IfErr, IfOk};
ghost use Rattle.tv_dialogs.specs.Handed.{HasPointGiven};
ghost use Rattle.tv_held.specs.Acting.{CommandActs, HasLine, HasNoLine, IsDone, Leads, LineActs, PauseActs, TakingActs, refusal, sole_event};
ghost use Rattle.tv_held.specs.Holding.{Holding, IsHeld, answer_after, bare};
ghost use Rattle.tv_held.specs.declared.answer.Answer.TheVariants as answers;
ghost use Rattle.tv_machine.specs.Run.{Session, stepped};
ghost use Rattle.tv_app.specs.Running.{Runs};
ghost use Rattle.tv_play.specs.Ends.{is_finished};
ghost use Rattle.tv_terminal.specs.Sent.{IsSentAction};

use crate::answer::{Answer, Told, unopened};
use crate::held::Held;
use std::alloc::Global;
use tv_app::App;
use tv_event::{Command, Event};
use tv_machine::Item;
use tv_play::{Step, brought, nothing_can_happen, step_of};
use tv_script::{Script, ScriptFault};
use tv_terminal::Action;

// Whether nothing can happen any more.
fn is_finished(app: &App) -> bool
    ensures { (s : Session) → Runs app.now s → result ≡ is_finished s }
{
    nothing_can_happen(app.desc(), app.log(), app.focus())
}

// What is answered after an event.
fn answer_after(app: &App) -> Answer
    ensures { (s : Session) → Runs app.now s → result ≡ answer_after s }
{
    if is_finished(app) {
        Answer::Over
    } else {
        Answer::Event
    }
}

// Performs an event.
fn perform(app: &mut App, event: &Event) -> Answer
    requires near { HasPointGiven event.now }
    requires there { (s : Session) × Runs app.old s }
    ensures goes_on { (s : Session) → Runs app.old s → Runs app.new (stepped s event.now) }
    ensures answer { (s : Session) → Runs app.old s → result ≡ answer_after (stepped s event.now) }
{
    app.step(event);
    answer_after(app)
}

// Does what the user or the terminal did.
fn do_action(app: &mut App, action: Action) -> Answer
    requires sent { IsSentAction action }
    requires there { (s : Session) × Runs app.old s }
    ensures { (s : Session) → Runs app.old s → IsDone s action app.new result }
{
    match step_of(app.desc(), action) {
        Step::Leave => Answer::Left,
        Step::Refresh => Answer::Refresh,
        Step::Perform(event) => {
            let event = brought(app.desc(), &event);
            perform(app, &event)
        }
    }
}

// What is answered to a line that is none.
fn refusal(fault: ScriptFault) -> Answer
    ensures { result ≡ refusal fault }
{
    match fault {
        ScriptFault::NoMemory => Answer::NoMemory,
        ScriptFault::Syntax(_) | ScriptFault::OffScreen(_) | ScriptFault::TooLong => {
            Answer::Refused
        }
    }
}

// The event that is all there is.
fn sole_event(items: &[Item]) -> Option<Event>
    ensures { result ≡ sole_event items.now }
{
    match items {
        [Item::Event(event)] => Some(*event),
        _ => None,
    }
}

// The one event of a script's line.
fn event_of(alloc: Global, app: &App, line: &[u8]) -> Result<Event, Answer>
    requires { (s : Session) × Runs app.now s }
    ensures event { IfOk result (λ event. (s : Session) → Runs app.now s → HasLine s line.now event) }
    ensures near { IfOk result HasPointGiven }
    ensures refused { IfErr result (λ answer. (answer ≡ answers.NoMemory)
        ⊎ ((answer ≡ answers.Refused) × ((s : Session) → Runs app.now s → HasNoLine s line.now))) }
{
    let screen = app.screen();
    let (width, height) = (screen.width() as i32, screen.height() as i32);
    let script = match Script::parse(alloc, line, width, height) {
        Ok(script) => script,
        Err(fault) => return Err(refusal(fault)),
    };
    match sole_event(script.items()) {
        Some(event) => Ok(event),
        None => Err(Answer::Refused),
    }
}

impl Held {
    /// Takes bytes of a terminal, up to the first with which something is done.
    pub(crate) fn take(&mut self, bytes: &[u8]) -> Told
        requires { (h : Holding) × IsHeld self.old h }
        ensures { (h : Holding) → IsHeld self.old h → Leads (TakingActs bytes.now) h self.new result }
    {
        let Held { opened, decoder } = self;
        let app = match opened {
            Ok(app) => app,
            Err(fault) => return Told::bare(unopened(fault)),
        };
        for (place, byte) in bytes.iter().enumerate() {
            if let Some(action) = decoder.take(*byte) {
                return Told {
                    answer: do_action(app, action),
                    used: place + 1,
                };
            }
        }
        Told {
            answer: Answer::Done,
            used: bytes.len(),
        }
    }

    /// Takes notice that for a while no byte came.
    pub(crate) fn pause(&mut self) -> Answer
        requires { (h : Holding) × IsHeld self.old h }
        ensures { (h : Holding) → IsHeld self.old h → Leads PauseActs h self.new (bare result) }
    {
        let app = match &mut self.opened {
            Ok(app) => app,
            Err(fault) => return unopened(fault),
        };
        match self.decoder.pause() {
            Some(action) => do_action(app, action),
            None => Answer::Done,
        }
    }

    /// Performs the one event of a script's line.
    pub(crate) fn line(&mut self, alloc: Global, line: &[u8]) -> Answer
        requires { (h : Holding) × IsHeld self.old h }
        ensures { (h : Holding) → IsHeld self.old h → Leads (LineActs line.now) h self.new (bare result) }
    {
        let app = match &mut self.opened {
            Ok(app) => app,
            Err(fault) => return unopened(fault),
        };
        match event_of(alloc, app, line) {
            Ok(event) => perform(app, &event),
            Err(answer) => answer,
        }
    }

    /// Gives the command of the number.
    pub(crate) fn command(&mut self, command: Command) -> Answer
        requires { (h : Holding) × IsHeld self.old h }
        ensures { (h : Holding) → IsHeld self.old h → Leads (CommandActs command) h self.new (bare result) }
    {
        let app = match &mut self.opened {
            Ok(app) => app,
            Err(fault) => return unopened(fault),
        };
        if app.command(command) {
            answer_after(app)
        } else {
            Answer::Refused
        }
    }
}
