//! A run in a terminal, from its begin to its end.

ghost use Rattle.std.specs.Prelude.{◌≡◌, [], None, false, IfOk};
ghost use Rattle.tv_terminal.specs.Decoding.{between};
ghost use Rattle.tv_machine.specs.Run.{Session};
ghost use Rattle.tv_play.specs.Player.{HasPlayed, HasSame, IsReady, outside_of, ports_of};
ghost use Rattle.tv_play.specs.Outputs.{HasSameOutputs, ports_with};
ghost use Rattle.tv_play.specs.Playing.{IsShownBefore, Plays, PlaysTo, told_with};
ghost use Rattle.tv_play.specs.Notes.{IsMonitorOf};
ghost use Rattle.tv_play.specs.Steps.{HasRun, Outside, or_end};

use crate::ends::is_finished;
use crate::journal::write_log;
use crate::live::Live;
use crate::monitor::Monitor;
use crate::outputs::Outputs;
use crate::parting::{Parting, PlayFault};
use crate::pieces::{Piece, Pieces};
use crate::player::{Outcome, Player, outcome_of};
use crate::show;
use std::alloc::Global;
use tv_cells::ScreenFault;
use tv_io::{Pen, WriteFailed, Writer};
use tv_terminal::{Colours, Decoder, Painter};

/// The bytes that are asked for at once.
const PIECE: usize = 64;

/// Plays a run in a terminal: takes what comes from the user in pieces, shows on the outputs' `screen` what it leaves, in their
/// `colours`, writes the log on `log`, and on `tape` a line for each event before it is performed, as a script has it. What was
/// written is passed on before each read, and at the end. Tells why it ended.
///
/// It takes memory before anything is read or written, and none after that. The terminal is turned to its alternate screen, and at
/// the end back to its normal one, also where it is broken off.
///
/// # Errors
///
/// - `NoMemory`: nothing was read or written.
/// - `Read`: the reader failed. What came before was performed.
/// - `Log`, `Screen`, `Tape`: that writer failed, or couldn't pass on what it took; a proper prefix of its text came out. Nothing more
///   is read.
pub fn play<L: Live, P: Pieces, T: Writer, W: Writer, R: Writer>(
    alloc: Global,
    stage: &mut L,
    pieces: &mut P,
    outputs: &mut Outputs<T, W, R>,
) -> Result<Parting, PlayFault>
    requires there { (s : Session) × L.stands stage.old s }
    ensures same { HasSameOutputs outputs.old outputs.new }
    ensures plays { (s : Session) → L.stands stage.old s
        → PlaysTo outputs.old.colours s (ports_with T.seen W.seen R.seen (P.heard pieces.old) outputs.old)
        (ports_with T.seen W.seen R.seen (P.heard pieces.new) outputs.new) (L.stands stage.new) result }
    ensures passed { IsShownBefore T.seen (T.seen outputs.old.screen.now) (T.seen outputs.new.screen.now) result }
{
    let Ok(mut monitor) = monitor_of(alloc, stage, outputs.colours) else {
        return Err(PlayFault::NoMemory);
    };
    play_with(stage, pieces, outputs, &mut monitor)
}

// The terminal for its screen, of which nothing is known.
fn monitor_of<L: Live>(alloc: Global, stage: &L, colours: Colours) -> Result<Monitor, ScreenFault>
    ensures size { (s : Session) → L.stands stage.now s → IfOk result (λ monitor. IsMonitorOf s.desc monitor) }
    ensures colours { IfOk result (λ monitor. monitor.painter.colours ≡ colours) }
    ensures untold { IfOk result (λ monitor. monitor.size ≡ None) }
{
    let screen = stage.screen();
    Ok(Monitor {
        painter: Painter::new(alloc, screen.width(), screen.height(), colours)?,
        size: None,
        is_noted: false,
    })
}

// Plays it in such a terminal.
fn play_with<L: Live, P: Pieces, T: Writer, W: Writer, R: Writer>(
    stage: &mut L,
    pieces: &mut P,
    outputs: &mut Outputs<T, W, R>,
    monitor: &mut Monitor,
) -> Outcome
    requires there { (t : Session) × L.stands stage.old t × IsMonitorOf t.desc monitor.old }
    requires untold { monitor.old.size ≡ None }
    ensures same { HasSameOutputs outputs.old outputs.new }
    ensures plays { (s : Session) → L.stands stage.old s
        → PlaysTo monitor.old.painter.colours s (ports_with T.seen W.seen R.seen (P.heard pieces.old) outputs.old)
        (ports_with T.seen W.seen R.seen (P.heard pieces.new) outputs.new) (L.stands stage.new) result }
    ensures passed { IsShownBefore T.seen (T.seen outputs.old.screen.now) (T.seen outputs.new.screen.now) result }
{
    let mut player = Player {
        stage,
        monitor,
        pen: Pen {
            out: &mut *outputs.screen,
            stopped: false,
        },
        log: &mut *outputs.log,
        tape: Pen {
            out: &mut *outputs.tape,
            stopped: false,
        },
        decoder: Decoder::new(),
    };
    player.play_through(pieces)
}

impl<L: Live, T: Writer, W: Writer, R: Writer> Player<'_, '_, '_, '_, '_, L, T, W, R> {
    // Plays a run, and shows at the end what the terminal showed before.
    fn play_through<P: Pieces>(&mut self, pieces: &mut P) -> Outcome
        requires ready { IsReady L.stands self.old }
        requires fresh { self.old.decoder ≡ between false }
        requires untold { self.old.monitor.now.size ≡ None }
        ensures same { HasSame self.old self.new }
        ensures plays { (s : Session) → L.stands self.old.stage.now s
            → Plays self.old.monitor.now.painter.colours s (ports_of T.seen W.seen R.seen (P.heard pieces.old) self.old)
            (ports_of T.seen W.seen R.seen (P.heard pieces.new) self.new) (L.stands self.new.stage.now) result }
        ensures passed { IsShownBefore T.seen (T.seen self.old.pen.out.now) (T.seen self.new.pen.out.now) result }
    {
        let outcome = self.play_begun(pieces);
        show::end(&mut self.monitor.painter, &mut self.pen);
        match outcome {
            Ok(parting) => {
                self.tape.pass_on();
                let passed = self.log.pass_on();
                told_with(parting, passed, self.pen.stopped, self.tape.stopped)
            }
            Err(fault) => Err(fault),
        }
    }

    // Shows and logs the beginning, and plays what comes, but for the end.
    fn play_begun<P: Pieces>(&mut self, pieces: &mut P) -> Outcome
        requires ready { IsReady L.stands self.old }
        requires fresh { self.old.decoder ≡ between false }
        requires untold { self.old.monitor.now.size ≡ None }
        ensures same { HasSame self.old self.new }
        ensures runs { (s : Session) → L.stands self.old.stage.now s
            → HasRun s (P.heard pieces.old) (P.heard pieces.new) (outside_of T.seen W.seen R.seen self.old)
            (outside_of T.seen W.seen R.seen self.new) (L.stands self.new.stage.now) result }
    {
        show::show_all(self.monitor, &mut self.pen, self.stage, None);
        let is_finished = is_finished(self.stage);
        let written = write_log(self.log, self.stage);
        match outcome_of(is_finished, written, self.pen.stopped, self.tape.stopped) {
            Some(outcome) => outcome,
            None => self.play_all(pieces),
        }
    }

    // Takes what comes, piece by piece.
    fn play_all<P: Pieces>(&mut self, pieces: &mut P) -> Outcome
        requires ready { IsReady L.stands self.old }
        ensures same { HasSame self.old self.new }
        ensures runs { (s : Session) (from : Outside) → HasPlayed L.stands T.seen W.seen R.seen s [] from self.old
            → HasRun s (P.heard pieces.old) (P.heard pieces.new) from (outside_of T.seen W.seen R.seen self.new)
            (L.stands self.new.stage.now) result }
    {
        let mut room = [0u8; PIECE];
        for turn in 0..u64::MAX {
            self.pen.pass_on();
            self.tape.pass_on();
            let passed = self.log.pass_on();
            if let Some(outcome) = outcome_of(false, passed, self.pen.stopped, self.tape.stopped) {
                return outcome;
            }
            let Some(piece) = pieces.next(&mut room) else {
                return Err(PlayFault::Read);
            };
            let outcome = self.take_piece(piece, &room);
            if let Some(outcome) = or_end(outcome, piece) {
                return outcome;
            }
        }
        Ok(Parting::Ended)
    }
}

// How a run ended by itself, where the log may not have been passed on, or the screen or the tape not written.
fn told_with(
    parting: Parting,
    passed: Result<(), WriteFailed>,
    is_stopped: bool,
    is_torn: bool,
) -> Outcome
    ensures { result ≡ told_with parting passed is_stopped is_torn }
{
    if passed.is_err() {
        return Err(PlayFault::Log);
    }
    if is_stopped {
        return Err(PlayFault::Screen);
    }
    if is_torn {
        return Err(PlayFault::Tape);
    }
    Ok(parting)
}

// How a run ends after a piece: as it did with it, or because nothing comes after it.
fn or_end(outcome: Option<Outcome>, piece: Piece) -> Option<Outcome>
    ensures { result ≡ or_end outcome piece }
{
    match (outcome, piece) {
        (None, Piece::End) => Some(Ok(Parting::Ended)),
        _ => outcome,
    }
}
