//! Sets of commands.

ghost use Rattle.std.specs.Prelude.{◌↔◌, ◌≡◌, ◌≢◌, ℕ, ◌<◌, IsTrue};
ghost use Rattle.tv_event.specs.Commands.{HasCommand};

use crate::event::Command;
use std::marker::Model;

/// A set of commands, as the enabled ones. Contracts ask it which numbers it has.
#[derive(Debug, Drop)]
pub struct CommandSet {
    has: [bool; 256],
}

impl Model for CommandSet {
    ghost use Rattle.std.specs.Prelude.{Bool, List};

    ghost Value = { List Bool };

    ghost view = { λ s. s.has };
}

impl CommandSet {
    /// Makes the set of all commands.
    pub fn all() -> CommandSet
        ensures { (number : ℕ) → number < 256 → HasCommand result number }
    {
        CommandSet { has: [true; 256] }
    }

    /// Makes a set of the same commands.
    pub fn copy(&self) -> CommandSet
        ensures { result ≡ self.now }
    {
        CommandSet { has: self.has }
    }

    /// Whether the command is in the set.
    pub fn has(&self, command: Command) -> bool
        ensures { IsTrue result ↔ HasCommand self.now command.0 }
    {
        self.has[command.0 as usize]
    }

    /// Puts the command into the set.
    pub fn enable(&mut self, command: Command)
        ensures added { HasCommand self.new command.0 }
        ensures others { (other : ℕ) → other ≢ command.0 → (HasCommand self.new other ↔ HasCommand self.old other) }
    {
        self.has[command.0 as usize] = true;
    }

    /// Takes the command out of the set.
    pub fn disable(&mut self, command: Command)
        ensures removed { ¬ HasCommand self.new command.0 }
        ensures others { (other : ℕ) → other ≢ command.0 → (HasCommand self.new other ↔ HasCommand self.old other) }
    {
        self.has[command.0 as usize] = false;
    }
}
