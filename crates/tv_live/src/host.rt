//! What the user does, and what the program makes of it.

ghost use Rattle.std.specs.Prelude.{◌≡◌, [], ◌∷◌, ◌++◌, map, IfNone, IfSome, None};
ghost use Rattle.tv_app.specs.Running.{Runs};
ghost use Rattle.tv_live.specs.Course.{Begins, Does, Turns};
ghost use Rattle.tv_live.specs.Host.{Asks, IsReady, KeepsHost, LivesOn, SeesTo, outcome_of, scene_of};
ghost use Rattle.tv_live.specs.Shown.{IsPainterOf};
ghost use Rattle.tv_machine.specs.Run.{Session};
ghost use Rattle.tv_play.specs.Ends.{IsTakenFor};
ghost use Rattle.tv_play.specs.Notes.{size_with};
ghost use Rattle.tv_play.specs.Pieces.{FitsRoom, symbols_in};
ghost use Rattle.tv_play.specs.declared.ends.Step.TheVariants as steps;
ghost use Rattle.tv_terminal.specs.Decoding.{Byte, Pause, before, decode_after, left_after};
ghost use Rattle.tv_terminal.specs.Sent.{IsSent, IsSentAction};
ghost use Rattle.tv_terminal.specs.declared.action.Action.TheVariants as actions;

use crate::program::{News, Next, Program};
use crate::show::{show, show_all};
use tv_app::{App, Event};
use tv_io::{Pen, Writer};
use tv_play::{Parting, Piece, PlayFault, Step, brought, step_of};
use tv_terminal::{Action, Decoder, Painter, Size};

/// How a run ends.
pub(crate) type Outcome = Result<Parting, PlayFault>;

/// A program at work in a terminal: its application, what the terminal shows, how large it told last that it is, where its bytes go,
/// and what was read.
///
/// It owns no memory, so that what it is lent is given back where it is let go.
#[derive(Drop)]
pub(crate) struct Host<'a, 'p, 'm, 't, P: Program, T: Writer> {
    pub(crate) app: &'a mut App,
    pub(crate) program: &'p mut P,
    pub(crate) painter: &'m mut Painter,
    pub(crate) size: Option<Size>,
    pub(crate) pen: Pen<'t, T>,
    pub(crate) decoder: Decoder,
}

impl<P: Program, T: Writer> Host<'_, '_, '_, '_, P, T> {
    /// Lets the program begin, and shows the whole screen. Tells how the run ends with it, if it does.
    pub(crate) fn begin(&mut self) -> Option<Outcome>
        requires ready { IsReady (scene_of T.seen self.old) }
        requires painter { (s : Session) → Runs self.old.app.now s → IsPainterOf s.desc None self.old.painter.now }
        requires untold { self.old.size ≡ None }
        ensures kept { KeepsHost T.seen self.old self.new result }
        ensures same { self.new.decoder ≡ self.old.decoder }
        ensures begins { (s : Session) → Runs self.old.app.now s
            → LivesOn P.makes self.old.painter.now.colours self.old.program.now s (T.seen self.old.pen.out.now)
            (Begins ∷ []) (scene_of T.seen self.new) result }
    {
        let next = self.program.act(self.app, &News::Begin);
        show_all(self.painter, &mut self.pen, self.app, self.size);
        outcome_of(self.pen.stopped, next, self.app.is_over())
    }

    // Asks the program, and shows what it left.
    fn ask(&mut self, news: &News) -> Option<Outcome>
        requires ready { IsReady (scene_of T.seen self.old) }
        ensures kept { KeepsHost T.seen self.old self.new result }
        ensures same { self.new.decoder ≡ self.old.decoder }
        ensures asks { Asks P.makes (scene_of T.seen self.old) (scene_of T.seen self.new) news.now result }
    {
        let next = self.program.act(self.app, news);
        show(self.painter, &mut self.pen, self.app);
        outcome_of(self.pen.stopped, next, self.app.is_over())
    }

    // Performs an event, brought to the screen, and asks the program.
    fn perform(&mut self, told: &Event) -> Option<Outcome>
        requires sent { IsSent told.now }
        requires taken { (u : Session) → Runs self.old.app.now u
            → IsTakenFor u.desc (actions.Event told.now) (steps.Perform told.now) }
        requires ready { IsReady (scene_of T.seen self.old) }
        ensures kept { KeepsHost T.seen self.old self.new result }
        ensures same { self.new.decoder ≡ self.old.decoder }
        ensures sees { SeesTo P.makes (scene_of T.seen self.old) (scene_of T.seen self.new) (Does (actions.Event told.now) ∷ []) result }
    {
        let event = brought(self.app.desc(), told);
        let is_left = self.app.leaves(&event);
        self.app.step(&event);
        self.ask(&News::Event { event, is_left })
    }

    // Shows the whole screen anew, for an action that asks for it.
    fn refresh(&mut self, action: Action) -> Option<Outcome>
        requires taken { (u : Session) → Runs self.old.app.now u → IsTakenFor u.desc action steps.Refresh }
        requires ready { IsReady (scene_of T.seen self.old) }
        ensures kept { KeepsHost T.seen self.old self.new result }
        ensures same { self.new.decoder ≡ self.old.decoder }
        ensures sees { SeesTo P.makes (scene_of T.seen self.old) (scene_of T.seen self.new) (Does action ∷ []) result }
    {
        self.size = size_with(self.size, action);
        show_all(self.painter, &mut self.pen, self.app, self.size);
        outcome_of(self.pen.stopped, Next::Wait, false)
    }

    // Takes what the user or the terminal did.
    fn take_action(&mut self, action: Action) -> Option<Outcome>
        requires sent { IsSentAction action }
        requires ready { IsReady (scene_of T.seen self.old) }
        ensures kept { KeepsHost T.seen self.old self.new result }
        ensures same { self.new.decoder ≡ self.old.decoder }
        ensures sees { SeesTo P.makes (scene_of T.seen self.old) (scene_of T.seen self.new) (Does action ∷ []) result }
    {
        match step_of(self.app.desc(), action) {
            Step::Leave => Some(Ok(Parting::Left)),
            Step::Refresh => self.refresh(action),
            Step::Perform(event) => self.perform(&event),
        }
    }

    // The same, for what the user may have done.
    fn take_meant(&mut self, action: Option<Action>) -> Option<Outcome>
        requires sent { IfSome action IsSentAction }
        requires ready { IsReady (scene_of T.seen self.old) }
        ensures kept { KeepsHost T.seen self.old self.new result }
        ensures same { self.new.decoder ≡ self.old.decoder }
        ensures sees { SeesTo P.makes (scene_of T.seen self.old) (scene_of T.seen self.new) (map Does (before action [])) result }
    {
        let Some(action) = action else {
            return None;
        };
        self.take_action(action)
    }

    // Takes the bytes of a piece, up to one with which the run ends.
    fn take_bytes(&mut self, bytes: &[u8]) -> Option<Outcome>
        requires ready { IsReady (scene_of T.seen self.old) }
        ensures kept { KeepsHost T.seen self.old self.new result }
        ensures read { result ≡ None → self.new.decoder ≡ left_after self.old.decoder (map Byte bytes.now) }
        ensures sees { SeesTo P.makes (scene_of T.seen self.old) (scene_of T.seen self.new) (map Does (decode_after self.old.decoder (map Byte bytes.now))) result }
    {
        for byte in bytes {
            let action = self.decoder.take(*byte);
            if let Some(outcome) = self.take_meant(action) {
                return Some(outcome);
            }
        }
        None
    }

    // Takes notice of a pause.
    fn take_pause(&mut self) -> Option<Outcome>
        requires ready { IsReady (scene_of T.seen self.old) }
        ensures kept { KeepsHost T.seen self.old self.new result }
        ensures read { result ≡ None → self.new.decoder ≡ left_after self.old.decoder (Pause ∷ []) }
        ensures sees { SeesTo P.makes (scene_of T.seen self.old) (scene_of T.seen self.new) (map Does (decode_after self.old.decoder (Pause ∷ []))) result }
    {
        let action = self.decoder.pause();
        self.take_meant(action)
    }

    // Takes a piece whose bytes stand in a room.
    fn take_piece(&mut self, piece: Piece, room: &[u8]) -> Option<Outcome>
        requires within { FitsRoom piece room.now }
        requires ready { IsReady (scene_of T.seen self.old) }
        ensures kept { KeepsHost T.seen self.old self.new result }
        ensures read { result ≡ None → self.new.decoder ≡ left_after self.old.decoder (symbols_in piece room.now) }
        ensures sees { SeesTo P.makes (scene_of T.seen self.old) (scene_of T.seen self.new)
            (map Does (decode_after self.old.decoder (symbols_in piece room.now))) result }
    {
        match piece {
            Piece::Bytes(count) => self.take_bytes(&room[..count]),
            Piece::Pause | Piece::End => self.take_pause(),
        }
    }

    /// Takes a piece whose bytes stand in a room, and then the program's turn. Tells how the run ends with it, if it does.
    pub(crate) fn take_turn(&mut self, piece: Piece, room: &[u8]) -> Option<Outcome>
        requires within { FitsRoom piece room.now }
        requires ready { IsReady (scene_of T.seen self.old) }
        ensures kept { KeepsHost T.seen self.old self.new result }
        ensures read { result ≡ None → self.new.decoder ≡ left_after self.old.decoder (symbols_in piece room.now) }
        ensures sees { SeesTo P.makes (scene_of T.seen self.old) (scene_of T.seen self.new)
            (map Does (decode_after self.old.decoder (symbols_in piece room.now)) ++ Turns ∷ []) result }
    {
        if let Some(outcome) = self.take_piece(piece, room) {
            return Some(outcome);
        }
        self.turn()
    }

    // Gives the program its turn, with an empty log.
    fn turn(&mut self) -> Option<Outcome>
        requires ready { IsReady (scene_of T.seen self.old) }
        ensures kept { KeepsHost T.seen self.old self.new result }
        ensures same { self.new.decoder ≡ self.old.decoder }
        ensures sees { SeesTo P.makes (scene_of T.seen self.old) (scene_of T.seen self.new) (Turns ∷ []) result }
    {
        self.app.forget_log();
        self.ask(&News::Turn)
    }
}

// The size that the terminal told last, with an action.
fn size_with(was: Option<Size>, action: Action) -> Option<Size>
    ensures { result ≡ size_with was action }
{
    match action {
        Action::Resized(size) => Some(size),
        Action::Event(_) | Action::Quit | Action::Ready => was,
    }
}

// How a run ends with a call of the program, if it does.
fn outcome_of(is_stopped: bool, next: Next, is_over: bool) -> Option<Outcome>
    ensures { result ≡ outcome_of is_stopped next is_over }
{
    if is_stopped {
        return Some(Err(PlayFault::Screen));
    }
    match next {
        Next::Wait if !is_over => None,
        _ => Some(Ok(Parting::Over)),
    }
}
