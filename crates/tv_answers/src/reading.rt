//! Answers, read from a log.

ghost use Rattle.std.specs.Prelude.{◌≡◌, ◌↔◌, ◌<◌, ◌≤◌, IfErr, IfOk, Err, Some, length};
ghost use Rattle.tv_answers.specs.Filling.{HaveSpelledValues};
ghost use Rattle.tv_answers.specs.ReadLogs.{IsAnswered, RefusesAnswers, line_answered};
ghost use Rattle.tv_answers.specs.Outcomes.{RefusesLine, StopsAt, Value, log_outcome};

use crate::answers::Answers;
use crate::log_line::is_row;
use crate::progress::Progress;
use std::alloc::{AllocError, Global};
use thiserror::Error;
use tv_model::Desc;
use tv_words::{Lines, words_of};

/// Why a text answers nothing.
#[derive(Clone, Copy, Debug, PartialEq, Eq, Error)]
pub enum AnswersFault {
    #[error("out of memory")]
    NoMemory,
    /// The first line that is none of a log, or that can't stand there, counted from 1.
    #[error("line {0} is no line of a log that can stand there")]
    Syntax(usize),
    #[error("the text is longer than 1,048,576 bytes")]
    TooLong,
}

impl From<AllocError> for AnswersFault {
    ghost use Rattle.std.specs.Prelude.{◌≡◌};
    ghost use Rattle.tv_answers.specs.declared.reading.AnswersFault.TheVariants.{NoMemory};

    ghost from_gives = { λ _ e. e ≡ NoMemory };

    fn from(_error: AllocError) -> AnswersFault {
        AnswersFault::NoMemory
    }
}

/// The most bytes of answers.
const LONGEST: usize = 1_048_576;

/// Reads what a log of at most 1,048,576 bytes answers of a description. What doesn't fit the description is among the
/// answers' misfits.
pub fn read_answers(alloc: Global, desc: &Desc, text: &[u8]) -> Result<Answers, AnswersFault>
    ensures read { IfOk result (IsAnswered desc.now text.now) }
    ensures spelled { IfOk result HaveSpelledValues }
    ensures fault { IfErr result (RefusesAnswers desc.now text.now) }
    ensures too_long { (result ≡ Err AnswersFault.TooLong) ↔ (1048576 < length text.now) }
{
    if text.len() > LONGEST {
        return Err(AnswersFault::TooLong);
    }
    read_lines(alloc, desc, text)
}

fn read_lines(alloc: Global, desc: &Desc, text: &[u8]) -> Result<Answers, AnswersFault>
    requires { length text.now ≤ 1048576 }
    ensures value { IfOk result (λ answers. log_outcome desc.now text.now ≡ Value answers) }
    ensures fault { IfErr result (λ fault. StopsAt fault (log_outcome desc.now text.now)) }
{
    let mut read = Progress::new(alloc, desc)?;
    let mut number = 1;
    for line in Lines::new(text) {
        read = take_line(alloc, desc, read, line, number)?;
        number += 1;
    }
    Ok(read.finish())
}

fn take_line(
    alloc: Global,
    desc: &Desc,
    read: Progress,
    line: &[u8],
    number: usize,
) -> Result<Progress, AnswersFault>
    ensures value { IfOk result (λ further. line_answered desc.now number read line.now ≡ Some further) }
    ensures fault { IfErr result (λ fault. RefusesLine fault number (line_answered desc.now number read line.now)) }
{
    if is_row(line) {
        return Ok(read);
    }
    let Some(list) = words_of(alloc, line)? else {
        return Err(AnswersFault::Syntax(number));
    };
    let words = list.as_slice();
    if words.is_empty() {
        return Ok(read);
    }
    match read.take(alloc, desc, number, words)? {
        Some(further) => Ok(further),
        None => Err(AnswersFault::Syntax(number)),
    }
}
