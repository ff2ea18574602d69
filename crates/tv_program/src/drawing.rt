//! A script, performed for its pictures.

ghost use Rattle.std.specs.Prelude.{◌≡◌, ◌≤◌, ◌<◌, ◌+◌, ◌^◌, ◌∷◌, [], length, All, IfOk, MatchResult, OnOk};
ghost use Rattle.tv_io.specs.Writer.{Cuts, Takes};
ghost use Rattle.tv_machine.specs.Output.{after, event_after, session_after};
ghost use Rattle.tv_machine.specs.Run.{Session};
ghost use Rattle.tv_program.specs.Albums.{FailsFor, Gains, GainsAll};
ghost use Rattle.tv_program.specs.Naming.{named_from};
ghost use Rattle.tv_program.specs.Pictures.{item_svgs, named_shots, session_svg};
ghost use Rattle.tv_script.specs.Lines.{IsEventOnScreen, IsItemOnScreen};
ghost use Rattle.tv_terminal.specs.Svg.{svg_of};

use crate::album::{Album, AlbumFault};
use crate::naming::shot_name;
use crate::picture_fault::ShotFault;
use std::alloc::Global;
use tv_cells::Screen;
use tv_event::Event;
use tv_io::{WriteFailed, Writer};
use tv_machine::Item;
use tv_script::{Script, Stage};
use tv_terminal::write_svg;

/// Performs a script, and draws the screen that it leaves. The log is dropped.
///
/// # Errors
///
/// The writer failed, or took nothing.
pub fn draw<S: Stage, W: Writer>(
    stage: &mut S,
    script: &Script,
    out: &mut W,
) -> Result<(), WriteFailed>
    requires there { (s : Session) × S.stands stage.old s }
    ensures drawn { (s : Session) → S.stands stage.old s → MatchResult result
        (λ _. Takes (W.seen out.old) (W.seen out.new) (session_svg (after s script.now)))
        (λ _. Cuts (W.seen out.old) (W.seen out.new) (session_svg (after s script.now))) }
    ensures state { (s : Session) → S.stands stage.old s → S.stands stage.new (after s script.now) }
{
    advance(stage, script.items());
    write_svg(stage.screen(), out)
}

/// Performs a script, and draws the screen at each `shot` of it: `NAME-1.svg`, `NAME-2.svg` and so on. The log is dropped.
///
/// # Errors
///
/// The first picture that fails. Those before it are there.
pub fn draw_shots<S: Stage, A: Album>(
    alloc: Global,
    stage: &mut S,
    script: &Script,
    name: &str,
    album: &mut A,
) -> Result<(), ShotFault>
    requires there { (s : Session) × S.stands stage.old s }
    ensures drawn { (s : Session) → S.stands stage.old s
        → GainsAll (A.hung album.old) (A.hung album.new) (named_shots name.now s script.now) result }
    ensures state { OnOk result ((s : Session) → S.stands stage.old s → S.stands stage.new (after s script.now)) }
{
    stage.forget_log();
    let mut number = 1;
    for item in script.items() {
        let shot = ShotName {
            script: name,
            number,
        };
        number = draw_item(alloc, stage, item, shot, album)?;
    }
    Ok(())
}

/// What a picture is called by: its script, and which picture of that it is, from 1 on.
#[derive(Clone, Copy)]
struct ShotName<'a> {
    script: &'a str,
    number: usize,
}

// Performs an item, and draws the screen if it asks for its characters, as this picture. Returns the number of the next one.
fn draw_item<S: Stage, A: Album>(
    alloc: Global,
    stage: &mut S,
    item: &Item,
    shot: ShotName,
    album: &mut A,
) -> Result<usize, ShotFault>
    requires few { shot.number + 1 < 2 ^ 64 }
    requires shown { IsItemOnScreen item.now }
    requires there { (s : Session) × S.stands stage.old s }
    ensures few { IfOk result (λ next. next ≤ shot.entry.number + 1) }
    ensures drawn { (s : Session) → S.stands stage.old s → MatchResult result
        (λ next. Gains (A.hung album.old) (A.hung album.new) (named_from shot.entry.script.now shot.entry.number (item_svgs s item.now))
        × (next ≡ shot.entry.number + length (item_svgs s item.now)))
        (λ failed. FailsFor (A.hung album.old) (A.hung album.new) failed.fault × (failed.number ≡ shot.entry.number)
        × (item_svgs s item.now ≡ session_svg s ∷ [])) }
    ensures state { (s : Session) → S.stands stage.old s → S.stands stage.new (session_after s item.now) }
{
    match item {
        Item::Event(event) => {
            advance_by(stage, event);
            Ok(shot.number)
        }
        Item::Shot => {
            draw_shot(alloc, stage.screen(), shot, album)?;
            Ok(shot.number + 1)
        }
        Item::Colors => Ok(shot.number),
    }
}

// Draws a screen as this picture.
fn draw_shot<A: Album>(
    alloc: Global,
    screen: &Screen,
    shot: ShotName,
    album: &mut A,
) -> Result<(), ShotFault>
    ensures { MatchResult result
        (λ _. Gains (A.hung album.old) (A.hung album.new) (named_from shot.entry.script.now shot.entry.number (svg_of screen.now ∷ [])))
        (λ failed. FailsFor (A.hung album.old) (A.hung album.new) failed.fault × (failed.number ≡ shot.entry.number)) }
{
    let ShotName { script, number } = shot;
    let Ok(name) = shot_name(alloc, script, number) else {
        let fault = AlbumFault::NoMemory;
        return Err(ShotFault { number, fault });
    };
    match album.add(name.as_str(), screen) {
        Ok(()) => Ok(()),
        Err(fault) => Err(ShotFault { number, fault }),
    }
}

// Performs items.
fn advance<S: Stage>(stage: &mut S, items: &[Item])
    requires shown { All IsItemOnScreen items.now }
    requires there { (s : Session) × S.stands stage.old s }
    ensures { (s : Session) → S.stands stage.old s → S.stands stage.new (after s items.now) }
{
    stage.forget_log();
    for item in items {
        advance_item(stage, item);
    }
}

fn advance_item<S: Stage>(stage: &mut S, item: &Item)
    requires shown { IsItemOnScreen item.now }
    requires there { (s : Session) × S.stands stage.old s }
    ensures { (s : Session) → S.stands stage.old s → S.stands stage.new (session_after s item.now) }
{
    match item {
        Item::Event(event) => advance_by(stage, event),
        Item::Shot | Item::Colors => {}
    }
}

fn advance_by<S: Stage>(stage: &mut S, event: &Event)
    requires shown { IsEventOnScreen event.now }
    requires there { (s : Session) × S.stands stage.old s }
    ensures { (s : Session) → S.stands stage.old s → S.stands stage.new (event_after s event.now) }
{
    stage.step(event);
    stage.forget_log();
}
