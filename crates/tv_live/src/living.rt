//! A program in a terminal, from its begin to its end.

ghost use Rattle.std.specs.Prelude.{◌≡◌, None, false, IfOk};
ghost use Rattle.tv_app.specs.Running.{Runs};
ghost use Rattle.tv_live.specs.Host.{HasRun, HasSame, IsReady, RunsOn, place_in, place_with, scene_of, told_with};
ghost use Rattle.tv_live.specs.Living.{Lives, LivesTo};
ghost use Rattle.tv_live.specs.Shown.{IsPainterOf};
ghost use Rattle.tv_machine.specs.Run.{Session};
ghost use Rattle.tv_play.specs.Playing.{IsShownBefore};
ghost use Rattle.tv_terminal.specs.Decoding.{between};
ghost use Rattle.tv_terminal.specs.declared.colour.Colours.TheVariants.{Sixteen};

use crate::host::{Host, Outcome};
use crate::program::Program;
use std::alloc::Global;
use tv_app::App;
use tv_cells::ScreenFault;
use tv_io::{Pen, Writer};
use tv_play::{Parting, Piece, Pieces, PlayFault};
use tv_terminal::{Colours, Decoder, Painter};

/// The bytes that are asked for at once.
const PIECE: usize = 64;

/// Runs a program in a terminal: takes what comes from the user in pieces, has the application handle it, asks the program at the
/// begin, after each event and after each piece, and shows on `screen` what it left, in the terminal's own sixteen colours. What was
/// written is passed on before each read, and at the end. Tells why it ended: by itself, where the program left or the run was
/// quit; by the user, with Ctrl-\ always and with Ctrl-C where no status item has that key; or with its input.
///
/// It takes memory before anything is read or written, and none after that. The terminal is turned to its alternate screen, and at
/// the end back to its normal one. By Ctrl-L, where no status item has that key, and where the terminal tells its size, the whole
/// screen is painted anew.
///
/// # Errors
///
/// - `NoMemory`: nothing was read or written, and the program wasn't asked.
/// - `Read`: the reader failed. What came before was seen to.
/// - `Screen`: the writer failed, or couldn't pass on what it took; a proper prefix of its text came out. Nothing more is read.
pub fn live<P: Program, I: Pieces, T: Writer>(
    alloc: Global,
    app: &mut App,
    pieces: &mut I,
    screen: &mut T,
    program: &mut P,
) -> Result<Parting, PlayFault>
    requires there { (s : Session) × Runs app.old s }
    ensures lives { (s : Session) → Runs app.old s
        → LivesTo P.makes Sixteen s (place_with app.old program.old (I.heard pieces.old) (T.seen screen.old))
        (place_with app.new program.new (I.heard pieces.new) (T.seen screen.new)) result }
    ensures passed { IsShownBefore T.seen (T.seen screen.old) (T.seen screen.new) result }
{
    let Ok(mut painter) = painter_of(alloc, app) else {
        return Err(PlayFault::NoMemory);
    };
    live_with(app, pieces, screen, program, &mut painter)
}

// The painter for the application's screen, which knows nothing of the terminal.
fn painter_of(alloc: Global, app: &App) -> Result<Painter, ScreenFault>
    ensures size { (s : Session) → Runs app.now s → IfOk result (λ painter. IsPainterOf s.desc None painter) }
    ensures colours { IfOk result (λ painter. painter.colours ≡ Sixteen) }
{
    let screen = app.screen();
    Painter::new(alloc, screen.width(), screen.height(), Colours::Sixteen)
}

// Runs it with such a painter.
fn live_with<P: Program, I: Pieces, T: Writer>(
    app: &mut App,
    pieces: &mut I,
    screen: &mut T,
    program: &mut P,
    painter: &mut Painter,
) -> Outcome
    requires there { (s : Session) × Runs app.old s }
    requires painter { (s : Session) → Runs app.old s → IsPainterOf s.desc None painter.old }
    ensures lives { (s : Session) → Runs app.old s
        → Lives P.makes painter.old.colours s (place_with app.old program.old (I.heard pieces.old) (T.seen screen.old))
        (place_with app.new program.new (I.heard pieces.new) (T.seen screen.new)) result }
    ensures passed { IsShownBefore T.seen (T.seen screen.old) (T.seen screen.new) result }
{
    let mut host = Host {
        app,
        program,
        painter,
        size: None,
        pen: Pen {
            out: screen,
            stopped: false,
        },
        decoder: Decoder::new(),
    };
    host.live_through(pieces)
}

impl<P: Program, T: Writer> Host<'_, '_, '_, '_, P, T> {
    // Runs it, and shows at the end what the terminal showed before.
    fn live_through<I: Pieces>(&mut self, pieces: &mut I) -> Outcome
        requires ready { IsReady (scene_of T.seen self.old) }
        requires painter { (s : Session) → Runs self.old.app.now s → IsPainterOf s.desc None self.old.painter.now }
        requires fresh { self.old.decoder ≡ between false }
        requires untold { self.old.size ≡ None }
        ensures same { HasSame self.old self.new }
        ensures lives { (s : Session) → Runs self.old.app.now s
            → Lives P.makes self.old.painter.now.colours s (place_in (I.heard pieces.old) (scene_of T.seen self.old))
            (place_in (I.heard pieces.new) (scene_of T.seen self.new)) result }
        ensures passed { IsShownBefore T.seen (T.seen self.old.pen.out.now) (T.seen self.new.pen.out.now) result }
    {
        let outcome = self.live_begun(pieces);
        self.painter.end(&mut self.pen);
        self.pen.pass_on();
        told_with(outcome, self.pen.stopped)
    }

    // Lets it begin, and runs it on, but for the end.
    fn live_begun<I: Pieces>(&mut self, pieces: &mut I) -> Outcome
        requires ready { IsReady (scene_of T.seen self.old) }
        requires painter { (s : Session) → Runs self.old.app.now s → IsPainterOf s.desc None self.old.painter.now }
        requires fresh { self.old.decoder ≡ between false }
        requires untold { self.old.size ≡ None }
        ensures same { HasSame self.old self.new }
        ensures runs { (s : Session) → Runs self.old.app.now s
            → HasRun P.makes self.old.painter.now.colours self.old.program.now s (T.seen self.old.pen.out.now)
            (I.heard pieces.old) (I.heard pieces.new) (scene_of T.seen self.new) result }
    {
        match self.begin() {
            Some(outcome) => outcome,
            None => self.live_on(pieces),
        }
    }

    // Takes what comes, piece by piece.
    fn live_on<I: Pieces>(&mut self, pieces: &mut I) -> Outcome
        requires ready { IsReady (scene_of T.seen self.old) }
        requires fresh { self.old.decoder ≡ between false }
        ensures same { HasSame self.old self.new }
        ensures runs { RunsOn P.makes (I.heard pieces.old) (I.heard pieces.new) (scene_of T.seen self.old)
            (scene_of T.seen self.new) result }
    {
        let mut room = [0u8; PIECE];
        for turn in 0..u64::MAX {
            self.pen.pass_on();
            if self.pen.stopped {
                return Err(PlayFault::Screen);
            }
            let Some(piece) = pieces.next(&mut room) else {
                return Err(PlayFault::Read);
            };
            if let Some(outcome) = self.take_turn(piece, &room) {
                return outcome;
            }
            if let Piece::End = piece {
                return Ok(Parting::Ended);
            }
        }
        Ok(Parting::Ended)
    }
}

// How a run ended, where the screen may not have been written.
fn told_with(outcome: Outcome, is_stopped: bool) -> Outcome
    ensures { result ≡ told_with outcome is_stopped }
{
    match outcome {
        Ok(_) if is_stopped => Err(PlayFault::Screen),
        _ => outcome,
    }
}
