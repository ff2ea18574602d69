//! How far a log is read, line by line.

ghost use Rattle.std.specs.Prelude.{◌≡◌, IfOk, option_copied, find, position};
ghost use Rattle.tv_answers.specs.ReadLogs.{end_taken, ended, ended_by, field_answered, field_in_block, field_taken, has_end, is_field_named, named_valued, nothing_read, other_taken, passed, with_misfit, words_answered};
ghost use Rattle.tv_answers.specs.declared.misfit.MisfitKind.TheVariants.{NoDialog, NoEnd, NoField, NoValue};
ghost use Rattle.tv_model.specs.Description.Commands.{is_end};
ghost use Rattle.tv_model.specs.Description.Heads.{dialog_head, is_named};

use crate::answers::Answers;
use crate::field_values::value_for;
use crate::log_line::{command_in, is_passed, is_value};
use crate::misfit::MisfitKind;
use std::alloc::{AllocError, Global};
use tv_event::Command;
use tv_machine::is_field;
use tv_model::{Desc, Dialog, Ends, Node};
use tv_valid::Chars;
use tv_words::Word;

/// A log that is read up to some line.
#[derive(Drop)]
pub struct Progress {
    pub answers: Answers,
    pub block: Block,
}

/// What the next lines belong to.
#[derive(Clone, Copy)]
pub enum Block {
    /// No dialog has ended yet, so a field can't come.
    Missing,
    /// To an end that saved nothing, or that the description doesn't have.
    Passed,
    /// To an end of the dialog at this place.
    Saved(usize),
}

impl Progress {
    /// Begins with a description of which nothing is answered.
    pub fn new(alloc: Global, desc: &Desc) -> Result<Progress, AllocError>
        ensures { IfOk result (λ progress. progress ≡ nothing_read desc.now) }
    {
        let answers = Answers::new(alloc, desc)?;
        let block = Block::Missing;
        Ok(Progress { answers, block })
    }

    /// Returns what is answered.
    pub fn finish(self) -> Answers
        ensures { result ≡ self.answers }
    {
        let Progress { answers, .. } = self;
        answers
    }

    /// Takes a line by its words, or returns `None` where it is none of a log or can't come here.
    pub fn take(
        self,
        alloc: Global,
        desc: &Desc,
        line: usize,
        words: &[Word],
    ) -> Result<Option<Progress>, AllocError>
        ensures { IfOk result (λ further. further ≡ words_answered desc.now line self words.now) }
    {
        let [word, name, rest @ ..] = words else {
            return Ok(other(self, words));
        };
        let at = LinePlace { desc, line };
        if word.is(b"end") {
            end(alloc, at, self.answers, name.name(), command_in(rest))
        } else if word.is(b"field") {
            field(alloc, at, self, name.name(), rest)
        } else {
            Ok(other(self, words))
        }
    }
}

// Where a line stands, and the description that it answers.
#[derive(Clone, Copy)]
struct LinePlace<'a> {
    desc: &'a Desc,
    line: usize,
}

fn other(read: Progress, words: &[Word]) -> Option<Progress>
    ensures { result ≡ other_taken read words.now }
{
    if is_passed(words) { Some(read) } else { None }
}

// After an `end` line that saves nothing.
fn passed(answers: Answers) -> Progress
    ensures { result ≡ passed answers }
{
    let block = Block::Passed;
    Progress { answers, block }
}

fn is_named(dialog: &Dialog, name: &Chars) -> bool
    ensures { result ≡ is_named name.now dialog.now }
{
    dialog.head().name.as_slice() == name.as_slice()
}

// The place of the first dialog of the name.
fn place_of(dialogs: &[Dialog], name: &Chars) -> Option<usize>
    ensures { result ≡ position (is_named name.now) dialogs.now }
{
    dialogs.iter().position(|dialog| is_named(dialog, name))
}

fn is_end(ends: &Ends, command: Command) -> bool
    ensures { result ≡ is_end ends.now command.0 }
{
    (command == Command::CANCEL && ends.cancel)
        || (command == Command::OK && ends.ok)
        || (command == Command::YES && ends.yes)
        || (command == Command::NO && ends.no)
}

fn has_end(desc: &Desc, place: usize, command: Command) -> bool
    ensures { result ≡ has_end desc.now place command }
{
    match desc.dialogs.as_slice().get(place) {
        Some(dialog) => is_end(&dialog.head().ends, command),
        None => false,
    }
}

// The dialog at the place ended by a command that it has.
fn ended_by(answers: Answers, command: Command, place: usize) -> Progress
    ensures { result ≡ ended_by place command answers }
{
    if command == Command::CANCEL {
        return passed(answers);
    }
    let answers = answers.with_command(place, command);
    let block = Block::Saved(place);
    Progress { answers, block }
}

fn no_dialog(
    alloc: Global,
    answers: Answers,
    line: usize,
    name: &Chars,
) -> Result<Progress, AllocError>
    ensures { IfOk result (λ read. read ≡ passed (with_misfit line (NoDialog name.now) answers)) }
{
    let kind = MisfitKind::NoDialog(name.copy(alloc)?);
    Ok(passed(answers.with_misfit(line, kind)?))
}

fn no_end(
    alloc: Global,
    answers: Answers,
    line: usize,
    name: &Chars,
    command: Command,
) -> Result<Progress, AllocError>
    ensures { IfOk result (λ read. read ≡ passed (with_misfit line (NoEnd name.now command) answers)) }
{
    let kind = MisfitKind::NoEnd(name.copy(alloc)?, command);
    Ok(passed(answers.with_misfit(line, kind)?))
}

// A dialog of the name ended by the command.
fn ended(
    alloc: Global,
    at: LinePlace<'_>,
    answers: Answers,
    name: &Chars,
    command: Command,
) -> Result<Progress, AllocError>
    ensures { IfOk result (λ read. read ≡ ended at.entry.desc.now at.entry.line answers name.now command) }
{
    let Some(place) = place_of(at.desc.dialogs.as_slice(), name) else {
        return no_dialog(alloc, answers, at.line, name);
    };
    if has_end(at.desc, place, command) {
        Ok(ended_by(answers, command, place))
    } else {
        no_end(alloc, answers, at.line, name, command)
    }
}

// An `end` line.
fn end(
    alloc: Global,
    at: LinePlace<'_>,
    answers: Answers,
    name: Option<&Chars>,
    command: Option<Command>,
) -> Result<Option<Progress>, AllocError>
    ensures { IfOk result (λ further. further
        ≡ end_taken at.entry.desc.now at.entry.line answers (option_copied name.entry) command) }
{
    match (name, command) {
        (Some(name), Some(command)) => {
            let read = ended(alloc, at, answers, name, command)?;
            Ok(Some(read))
        }
        _ => Ok(None),
    }
}

fn is_field_named(view: &Node, name: &Chars) -> bool
    ensures { result ≡ is_field_named name.now view.now }
{
    is_field(&view.kind) && view.gives_name(name)
}

// The first field of the name.
fn field_named<'a>(views: &'a [Node], name: &Chars) -> Option<&'a Node>
    ensures { option_copied result ≡ find (is_field_named name.now) views.now }
{
    views.iter().find(|view| is_field_named(view, name))
}

fn no_field(
    alloc: Global,
    answers: Answers,
    line: usize,
    dialog: &Dialog,
    name: &Chars,
) -> Result<Answers, AllocError>
    ensures { IfOk result (λ more. more ≡ with_misfit line (NoField (dialog_head dialog.now).name name.now) answers) }
{
    let dialog = dialog.head().name.copy(alloc)?;
    let kind = MisfitKind::NoField(dialog, name.copy(alloc)?);
    answers.with_misfit(line, kind)
}

fn no_value(
    alloc: Global,
    answers: Answers,
    line: usize,
    dialog: &Dialog,
    name: &Chars,
) -> Result<Answers, AllocError>
    ensures { IfOk result (λ more. more ≡ with_misfit line (NoValue (dialog_head dialog.now).name name.now) answers) }
{
    let dialog = dialog.head().name.copy(alloc)?;
    let kind = MisfitKind::NoValue(dialog, name.copy(alloc)?);
    answers.with_misfit(line, kind)
}

// A line of a field, by its name and the words of its value.
#[derive(Clone, Copy)]
struct FieldLine<'a> {
    number: usize,
    name: &'a Chars,
    words: &'a [Word],
}

// A field of the dialog at the place.
fn valued(
    alloc: Global,
    answers: Answers,
    place: usize,
    dialog: &Dialog,
    line: FieldLine<'_>,
) -> Result<Answers, AllocError>
    ensures { IfOk result (λ more. more
        ≡ named_valued line.entry.number place dialog.now line.entry.name.now line.entry.words.now answers) }
{
    let Some(view) = field_named(dialog.views.as_slice(), line.name) else {
        return no_field(alloc, answers, line.number, dialog, line.name);
    };
    match value_for(alloc, &view.kind, line.words)? {
        Some(value) => answers.with_entry(place, view.id, value),
        None => no_value(alloc, answers, line.number, dialog, line.name),
    }
}

fn field_answered(
    alloc: Global,
    desc: &Desc,
    answers: Answers,
    place: usize,
    line: FieldLine<'_>,
) -> Result<Answers, AllocError>
    ensures { IfOk result (λ more. more
        ≡ field_answered desc.now line.entry.number place line.entry.name.now line.entry.words.now answers) }
{
    match desc.dialogs.as_slice().get(place) {
        Some(dialog) => valued(alloc, answers, place, dialog, line),
        None => Ok(answers),
    }
}

fn field_in_block(
    alloc: Global,
    desc: &Desc,
    read: Progress,
    line: FieldLine<'_>,
) -> Result<Option<Progress>, AllocError>
    ensures { IfOk result (λ further. further
        ≡ field_in_block desc.now line.entry.number read read.block line.entry.name.now line.entry.words.now) }
{
    let Progress { answers, block } = read;
    match block {
        Block::Missing => Ok(None),
        Block::Passed => Ok(Some(Progress { answers, block })),
        Block::Saved(place) => {
            let answers = field_answered(alloc, desc, answers, place, line)?;
            Ok(Some(Progress { answers, block }))
        }
    }
}

// A `field` line.
fn field(
    alloc: Global,
    at: LinePlace<'_>,
    read: Progress,
    name: Option<&Chars>,
    words: &[Word],
) -> Result<Option<Progress>, AllocError>
    ensures { IfOk result (λ further. further
        ≡ field_taken at.entry.desc.now at.entry.line read (option_copied name.entry) words.now) }
{
    let Some(name) = name else {
        return Ok(None);
    };
    if !is_value(words) {
        return Ok(None);
    }
    let line = FieldLine {
        number: at.line,
        name,
        words,
    };
    field_in_block(alloc, at.desc, read, line)
}
