//! What a log answers.

ghost use Rattle.std.specs.Prelude.{◌≡◌, IfOk, Some};
ghost use Rattle.tv_answers.specs.ReadLogs.{changed_at, no_answer, no_answers, with_command, with_entry, with_misfit};
ghost use Rattle.tv_model.specs.Log.Record.{with_value};

use crate::entries::FieldEntries;
use crate::misfit::{Misfit, MisfitKind};
use std::alloc::{AllocError, Global};
use tv_event::Command;
use tv_model::{Desc, Id, Sequence, Value};

/// What is answered of a dialog.
#[derive(Debug, Drop)]
pub struct Answer {
    /// The command of its last end that saved something.
    pub command: Option<Command>,
    /// The last value of each field that has one.
    pub entries: FieldEntries,
}

/// What is answered of a description.
#[derive(Debug, Drop)]
pub struct Answers {
    /// One for each dialog, in description order.
    pub dialogs: Sequence<Answer>,
    /// What doesn't fit the description, line by line.
    pub misfits: Sequence<Misfit>,
}

impl Answers {
    /// Makes the answers of a description of which nothing is answered.
    pub(crate) fn new(alloc: Global, desc: &Desc) -> Result<Answers, AllocError>
        ensures { IfOk result (λ answers. answers ≡ no_answers desc.now) }
    {
        let mut dialogs = Sequence::new(alloc);
        for _ in desc.dialogs.as_slice() {
            dialogs.push(no_answer(alloc))?;
        }
        let misfits = Sequence::new(alloc);
        Ok(Answers { dialogs, misfits })
    }

    /// Adds what doesn't fit in a line.
    pub(crate) fn with_misfit(self, line: usize, kind: MisfitKind) -> Result<Answers, AllocError>
        ensures { IfOk result (λ answers. answers ≡ with_misfit line kind self) }
    {
        let Answers {
            dialogs,
            mut misfits,
        } = self;
        misfits.push(Misfit { line, kind })?;
        Ok(Answers { dialogs, misfits })
    }

    /// Gives the dialog at a place the command by which it ended last.
    pub(crate) fn with_command(self, place: usize, command: Command) -> Answers
        ensures { result ≡ with_command place command self }
    {
        let Answers { dialogs, misfits } = self;
        let dialogs = commanded(dialogs, place, command);
        Answers { dialogs, misfits }
    }

    /// Gives a field of the dialog at a place the value that it had last.
    pub(crate) fn with_entry(
        self,
        place: usize,
        id: Id,
        value: Value,
    ) -> Result<Answers, AllocError>
        ensures { IfOk result (λ answers. answers ≡ with_entry place id value self) }
    {
        let Answers { dialogs, misfits } = self;
        let dialogs = entered(dialogs, place, id, value)?;
        Ok(Answers { dialogs, misfits })
    }
}

fn no_answer(alloc: Global) -> Answer
    ensures { result ≡ no_answer }
{
    Answer {
        command: None,
        entries: FieldEntries::new(alloc),
    }
}

fn commanded(answers: Sequence<Answer>, place: usize, command: Command) -> Sequence<Answer>
    ensures { result ≡ changed_at place (λ answer. record answer { command = Some command }) answers }
{
    let mut list = answers.into_vec();
    if place < list.len() {
        let answer = &mut list[place];
        answer.command = Some(command);
    }
    Sequence::from_vec(list)
}

fn entered(
    answers: Sequence<Answer>,
    place: usize,
    id: Id,
    value: Value,
) -> Result<Sequence<Answer>, AllocError>
    ensures { IfOk result (λ changed. changed
        ≡ changed_at place (λ answer. record answer { entries = with_value answer.entries id value }) answers) }
{
    let mut list = answers.into_vec();
    if place < list.len() {
        let answer = &mut list[place];
        answer.entries.put(id, value)?;
    }
    Ok(Sequence::from_vec(list))
}
