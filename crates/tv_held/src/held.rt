//! What stands at a handle.

ghost use Rattle.std.specs.Prelude.{◌≡◌};
ghost use Rattle.tv_held.specs.Asking.{CommandsIn, IsTold};
ghost use Rattle.tv_held.specs.Holding.{Begins, Holding, IsHeld, status_of};

use crate::answer::{Answer, Told, unopened};
use crate::asked::Asked;
use std::alloc::Global;
use tv_app::{App, OpenFault, open};
use tv_event::Command;
use tv_terminal::Decoder;

/// A description at work, or why it couldn't be opened; and what of the bytes of a terminal is unfinished.
///
/// It stands for a `Holding`, which each call reads or moves on: that is what `IsHeld` says.
#[derive(Drop)]
pub struct Held {
    pub(crate) opened: Result<App, OpenFault>,
    pub(crate) decoder: Decoder,
}

impl Held {
    /// Opens a description's text. Where it can't be opened, each call that asks for something says so.
    pub fn new(alloc: Global, text: &[u8]) -> Held
        ensures { (h : Holding) × IsHeld result h × Begins text.now h }
    {
        Held {
            opened: open(alloc, text),
            decoder: Decoder::new(),
        }
    }

    /// Says whether a description was opened.
    pub fn status(&self) -> Answer
        ensures { (h : Holding) → IsHeld self.now h → result ≡ status_of h }
    {
        match &self.opened {
            Ok(_) => Answer::Done,
            Err(fault) => unopened(fault),
        }
    }

    /// Does what is asked for with the input. A text is shown in the room, if it fits; the room stays as it was for whatever else
    /// is asked.
    pub fn ask(&mut self, alloc: Global, asked: Asked, input: &[u8], room: &mut [u8]) -> Told
        requires { (h : Holding) × IsHeld self.old h }
        ensures { (h : Holding) → IsHeld self.old h
            → (later : Holding) × IsHeld self.new later × IsTold asked input.now h later room.old room.new result }
    {
        match asked {
            Asked::Status => Told::bare(self.status()),
            Asked::Bytes => self.take(input),
            Asked::Pause => Told::bare(self.pause()),
            Asked::Line => Told::bare(self.line(alloc, input)),
            Asked::Command => self.command_in(input),
            Asked::Text(look) => self.look(alloc, look, input, room),
        }
    }

    // Gives the command of the number that is the one byte of the input.
    fn command_in(&mut self, input: &[u8]) -> Told
        requires { (h : Holding) × IsHeld self.old h }
        ensures { (h : Holding) → IsHeld self.old h
            → (later : Holding) × IsHeld self.new later × CommandsIn input.now h later result }
    {
        match input {
            [number] => Told::bare(self.command(Command(*number))),
            _ => Told::bare(Answer::Refused),
        }
    }
}
