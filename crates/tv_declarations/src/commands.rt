//! Commands as words.

ghost use Rattle.std.specs.Prelude.{◌≡◌, option_copied};
ghost use Rattle.tv_declarations.specs.Spelling.Terms.{command_name};
ghost use Rattle.tv_declarations.specs.Reading.Commands.{command_in, command_named, named_command, ends_in, is_next, after_next, button_options_in};

use crate::keywords;
use tv_model::{CommandSpec, Ends};
use tv_words::Word;

/// The commands that have a word.
const NAMED: [CommandSpec; 8] = [
    CommandSpec::Quit,
    CommandSpec::Menu,
    CommandSpec::Close,
    CommandSpec::Next,
    CommandSpec::Ok,
    CommandSpec::Cancel,
    CommandSpec::Yes,
    CommandSpec::No,
];

/// Reads the command that a word names; `None` where it names none.
pub fn command(word: &Word) -> Option<CommandSpec>
    ensures { result ≡ command_in word.now }
{
    match word.number() {
        Some(number) => Some(CommandSpec::Number(number)),
        None => named_command(word),
    }
}

fn named_command(word: &Word) -> Option<CommandSpec>
    ensures { result ≡ named_command word.now }
{
    first_named(&NAMED, word).copied()
}

fn first_named<'a>(commands: &'a [CommandSpec], word: &Word) -> Option<&'a CommandSpec>
    ensures { option_copied result ≡ command_named commands.now word.now }
{
    commands
        .iter()
        .find(|command| word.is(command_name(**command)))
}

/// Returns the word of a command. A command with a number has none, and gets the empty text.
pub fn command_name(command: CommandSpec) -> &'static [u8]
    ensures { result.now ≡ command_name command }
{
    match command {
        CommandSpec::Quit => b"quit",
        CommandSpec::Menu => b"menu",
        CommandSpec::Close => b"close",
        CommandSpec::Next => b"next",
        CommandSpec::Ok => b"ok",
        CommandSpec::Cancel => b"cancel",
        CommandSpec::Yes => b"yes",
        CommandSpec::No => b"no",
        CommandSpec::Number(_) => b"",
    }
}

/// Reads the commands that the words list, each at most once and in the order ok, cancel, yes, no; `None` for other
/// words.
pub fn ends(words: &[Word]) -> Option<Ends>
    ensures { result ≡ ends_in words.now }
{
    let (ok, words) = skip(words, command_name(CommandSpec::Ok));
    let (cancel, words) = skip(words, command_name(CommandSpec::Cancel));
    let (yes, words) = skip(words, command_name(CommandSpec::Yes));
    let (no, words) = skip(words, command_name(CommandSpec::No));
    words.is_empty().then_some(Ends {
        ok,
        cancel,
        yes,
        no,
    })
}

/// Reads whether a button is the default, and whether it grabs the focus; `None` for other words.
pub fn button_options(words: &[Word]) -> Option<(bool, bool)>
    ensures { result ≡ button_options_in words.now }
{
    let (is_default, words) = skip(words, keywords::DEFAULT);
    let (grabs, words) = skip(words, keywords::GRAB);
    words.is_empty().then_some((is_default, grabs))
}

/// Skips the keyword where it comes first. Returns whether it did, and the words that are left.
pub fn skip<'a>(words: &'a [Word], keyword: &[u8]) -> (bool, &'a [Word])
    ensures found { result.0 ≡ is_next keyword.now words.now }
    ensures rest { result.1.now ≡ after_next keyword.now words.now }
{
    match words {
        [first, rest @ ..] if first.is(keyword) => (true, rest),
        _ => (false, words),
    }
}
