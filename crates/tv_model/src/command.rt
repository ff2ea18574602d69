//! Commands as descriptions name them.

ghost use Rattle.std.specs.Prelude.{◌≡◌, Some};
ghost use Rattle.tv_model.specs.Description.Commands.{command_number};
ghost use Rattle.tv_model.specs.Description.LawfulNodes.{IsLawfulCommand};

use crate::number::natural;
use tv_event::Command;

/// A command as a description names it: by a word, or by a number, which is 100 to 255 in sound descriptions.
#[derive(Clone, Copy, Debug, PartialEq, Eq, Hash)]
pub enum CommandSpec {
    Quit,
    Menu,
    Close,
    Next,
    Ok,
    Cancel,
    Yes,
    No,
    Number(i32),
}

impl CommandSpec {
    /// Returns the command that is named. A number must be 100 to 255, as in sound descriptions.
    pub fn command(&self) -> Command
        requires { IsLawfulCommand (Some self.now) }
        ensures { result.0 ≡ command_number self.now }
    {
        match self {
            CommandSpec::Quit => Command::QUIT,
            CommandSpec::Menu => Command::MENU,
            CommandSpec::Close => Command::CLOSE,
            CommandSpec::Next => Command::NEXT,
            CommandSpec::Ok => Command::OK,
            CommandSpec::Cancel => Command::CANCEL,
            CommandSpec::Yes => Command::YES,
            CommandSpec::No => Command::NO,
            CommandSpec::Number(number) => Command(*number as u8),
        }
    }

    /// Returns the number of the command that is named, which may be any.
    pub fn number(&self) -> u32
        ensures { result ≡ command_number self.now }
    {
        match self {
            CommandSpec::Quit => 1,
            CommandSpec::Menu => 3,
            CommandSpec::Close => 4,
            CommandSpec::Next => 7,
            CommandSpec::Ok => 10,
            CommandSpec::Cancel => 11,
            CommandSpec::Yes => 12,
            CommandSpec::No => 13,
            CommandSpec::Number(number) => natural(number),
        }
    }
}

/// The commands by which a dialog may end.
#[derive(Clone, Copy, Debug, PartialEq, Eq)]
pub struct Ends {
    pub ok: bool,
    pub cancel: bool,
    pub yes: bool,
    pub no: bool,
}
