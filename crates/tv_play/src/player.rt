//! What the user does, and what comes of it.

ghost use Rattle.std.specs.Prelude.{◌≡◌, [], ◌∷◌, map, IfNone, IfSome};
ghost use Rattle.tv_machine.specs.Run.{Session};
ghost use Rattle.tv_play.specs.Ends.{IsTakenFor};
ghost use Rattle.tv_play.specs.declared.ends.Step.TheVariants as steps;
ghost use Rattle.tv_play.specs.Pieces.{FitsRoom, symbols_in};
ghost use Rattle.tv_play.specs.Player.{Acts, Hears, IsReady, KeepsPlayer};
ghost use Rattle.tv_play.specs.Notes.{size_with};
ghost use Rattle.tv_play.specs.Steps.{outcome_of};
ghost use Rattle.tv_terminal.specs.Decoding.{Byte, Pause, before};
ghost use Rattle.tv_terminal.specs.Sent.{IsSent, IsSentAction};
ghost use Rattle.tv_terminal.specs.declared.action.Action.TheVariants as actions;

use crate::edge::brought;
use crate::ends::{Step, is_finished, step_of};
use crate::journal::write_log;
use crate::live::Live;
use crate::monitor::Monitor;
use crate::parting::{Parting, PlayFault};
use crate::pieces::Piece;
use crate::show;
use tv_event::Event;
use tv_io::{Pen, WriteFailed, Writer};
use tv_script::put_event_line;
use tv_terminal::{Action, Decoder, Size};

/// How a run in a terminal ends.
pub(crate) type Outcome = Result<Parting, PlayFault>;

/// A run in a terminal: what is run, what is known of the terminal, where its bytes, the log and the events go, and what
/// was read.
///
/// It owns no memory, so that what it is lent is given back where it is let go.
#[derive(Drop)]
pub(crate) struct Player<'s, 'm, 't, 'w, 'r, L: Live, T: Writer, W: Writer, R: Writer> {
    pub(crate) stage: &'s mut L,
    pub(crate) monitor: &'m mut Monitor,
    pub(crate) pen: Pen<'t, T>,
    pub(crate) log: &'w mut W,
    pub(crate) tape: Pen<'r, R>,
    pub(crate) decoder: Decoder,
}

impl<L: Live, T: Writer, W: Writer, R: Writer> Player<'_, '_, '_, '_, '_, L, T, W, R> {
    // Performs an event, brought to the screen, once its line is on the tape: the terminal shows what it changes, and its log is
    // written. Tells how the run ends with it, if it does.
    fn act(&mut self, told: &Event) -> Option<Outcome>
        requires sent { IsSent told.now }
        requires taken { (t : Session) → L.stands self.old.stage.now t
            → IsTakenFor t.desc (actions.Event told.now) (steps.Perform told.now) }
        requires ready { IsReady L.stands self.old }
        ensures kept { KeepsPlayer L.stands self.old self.new result }
        ensures acts { Acts L.stands T.seen W.seen R.seen self.old self.new (actions.Event told.now ∷ []) result }
    {
        let event = brought(self.stage.desc(), told);
        put_event_line(&mut self.tape, &event);
        self.stage.react(&event);
        show::repaint(self.monitor, &mut self.pen, self.stage, &event);
        let is_finished = is_finished(self.stage);
        let written = write_log(self.log, self.stage);
        outcome_of(is_finished, written, self.pen.stopped, self.tape.stopped)
    }

    // Paints the whole screen anew, for an action that asks for it.
    fn refresh(&mut self, action: Action) -> Option<Outcome>
        requires taken { (t : Session) → L.stands self.old.stage.now t → IsTakenFor t.desc action steps.Refresh }
        requires ready { IsReady L.stands self.old }
        ensures kept { KeepsPlayer L.stands self.old self.new result }
        ensures acts { Acts L.stands T.seen W.seen R.seen self.old self.new (action ∷ []) result }
    {
        show::show_all(self.monitor, &mut self.pen, self.stage, size_in(action));
        outcome_of(false, Ok(()), self.pen.stopped, self.tape.stopped)
    }

    // Takes what the user or the terminal did. Tells how the run ends with it, if it does.
    fn take_action(&mut self, action: Action) -> Option<Outcome>
        requires sent { IsSentAction action }
        requires ready { IsReady L.stands self.old }
        ensures kept { KeepsPlayer L.stands self.old self.new result }
        ensures acts { Acts L.stands T.seen W.seen R.seen self.old self.new (action ∷ []) result }
    {
        match step_of(self.stage.desc(), action) {
            Step::Leave => Some(Ok(Parting::Left)),
            Step::Refresh => self.refresh(action),
            Step::Perform(event) => self.act(&event),
        }
    }

    // The same, for what the user may have done.
    fn take_meant(&mut self, action: Option<Action>) -> Option<Outcome>
        requires sent { IfSome action IsSentAction }
        requires ready { IsReady L.stands self.old }
        ensures kept { KeepsPlayer L.stands self.old self.new result }
        ensures acts { Acts L.stands T.seen W.seen R.seen self.old self.new (before action []) result }
    {
        let Some(action) = action else {
            return None;
        };
        self.take_action(action)
    }

    // Takes the bytes of a piece, up to one with which the run ends.
    fn take_bytes(&mut self, bytes: &[u8]) -> Option<Outcome>
        requires ready { IsReady L.stands self.old }
        ensures kept { KeepsPlayer L.stands self.old self.new result }
        ensures hears { Hears L.stands T.seen W.seen R.seen self.old self.new (map Byte bytes.now) result }
    {
        for byte in bytes {
            let action = self.decoder.take(*byte);
            if let Some(outcome) = self.take_meant(action) {
                return Some(outcome);
            }
        }
        None
    }

    // Takes notice of a pause.
    fn take_pause(&mut self) -> Option<Outcome>
        requires ready { IsReady L.stands self.old }
        ensures kept { KeepsPlayer L.stands self.old self.new result }
        ensures hears { Hears L.stands T.seen W.seen R.seen self.old self.new (Pause ∷ []) result }
    {
        let action = self.decoder.pause();
        self.take_meant(action)
    }

    /// Takes a piece whose bytes stand in a room. Tells how the run ends with it, if it does.
    pub(crate) fn take_piece(&mut self, piece: Piece, room: &[u8]) -> Option<Outcome>
        requires within { FitsRoom piece room.now }
        requires ready { IsReady L.stands self.old }
        ensures kept { KeepsPlayer L.stands self.old self.new result }
        ensures hears { Hears L.stands T.seen W.seen R.seen self.old self.new (symbols_in piece room.now) result }
    {
        match bytes_in(piece, room) {
            Some(bytes) => self.take_bytes(bytes),
            None => self.take_pause(),
        }
    }
}

// The size that an action tells.
fn size_in(action: Action) -> Option<Size>
    ensures { result ≡ size_with None action }
{
    match action {
        Action::Resized(size) => Some(size),
        Action::Event(_) | Action::Quit | Action::Ready => None,
    }
}

/// Tells how a run ends with an event.
pub(crate) fn outcome_of(
    is_finished: bool,
    written: Result<(), WriteFailed>,
    is_stopped: bool,
    is_torn: bool,
) -> Option<Outcome>
    ensures { result ≡ outcome_of is_finished written is_stopped is_torn }
{
    if written.is_err() {
        return Some(Err(PlayFault::Log));
    }
    if is_stopped {
        return Some(Err(PlayFault::Screen));
    }
    if is_torn {
        return Some(Err(PlayFault::Tape));
    }
    if is_finished {
        return Some(Ok(Parting::Over));
    }
    None
}

// The bytes of a piece; any other is a pause.
fn bytes_in(piece: Piece, room: &[u8]) -> Option<&[u8]>
    requires { FitsRoom piece room.now }
    ensures bytes { IfSome result (λ bytes. symbols_in piece room.now ≡ map Byte bytes.now) }
    ensures pause { IfNone result (symbols_in piece room.now ≡ Pause ∷ []) }
{
    match piece {
        Piece::Bytes(count) => Some(&room[..count]),
        Piece::Pause | Piece::End => None,
    }
}
