//! A description, read line by line.

ghost use Rattle.std.specs.Prelude.{◌≡◌, ◌↔◌, ◌+◌, ◌<◌, ◌≤◌, ◌^◌, length, IfOk, IfErr, Err};
ghost use Rattle.tv_model.specs.declared.desc.Desc.{Desc as SeenDesc};
ghost use Rattle.tv_lang.specs.CanonicalDescription.{CanBeSpelled};
ghost use Rattle.tv_lang.specs.Faults.{RefusesToParse, GivesDescription, Spells};
ghost use Rattle.tv_words.specs.Lines.{lines_of};
ghost use Rattle.tv_lang.specs.Reading.Descriptions.{line_step, Next, RefusesDescriptionLine, description_outcome, Value, DescriptionStopsAt};

use crate::progress::Progress;
use std::alloc::{AllocError, Global};
use thiserror::Error;
use tv_model::Desc;
use tv_words::{Lines, words_of};

/// Why a text is no description.
#[derive(Clone, Copy, Debug, PartialEq, Eq, Error)]
pub enum LangFault {
    #[error("out of memory")]
    NoMemory,
    /// The first line that can't follow those before it, counted from 1. A line that is missing counts as one.
    #[error("line {0} is no declaration that can stand there")]
    Syntax(usize),
    #[error("the text is longer than 262,144 bytes")]
    TooLong,
    #[error("the description is of another version")]
    Version,
}

impl From<AllocError> for LangFault {
    ghost use Rattle.std.specs.Prelude.{◌≡◌};
    ghost use Rattle.tv_lang.specs.declared.description.LangFault.TheVariants.{NoMemory};

    ghost from_gives = { λ _ e. e ≡ NoMemory };

    fn from(_error: AllocError) -> LangFault {
        LangFault::NoMemory
    }
}

/// The most bytes of a description.
const LONGEST: usize = 262_144;

/// Reads the description that a text of at most 262,144 bytes spells.
pub fn parse(alloc: Global, text: &[u8]) -> Result<Desc, LangFault>
    ensures spelled { IfOk result (λ desc. Spells text.now desc) }
    ensures can_be_spelled { IfOk result (λ desc. CanBeSpelled desc) }
    ensures only { (desc : SeenDesc) → Spells text.now desc → GivesDescription result desc }
    ensures fault { IfErr result (λ fault. RefusesToParse text.now fault) }
    ensures too_long { (result ≡ Err LangFault.TooLong) ↔ (262144 < length text.now) }
{
    if text.len() > LONGEST {
        return Err(LangFault::TooLong);
    }
    read_lines(alloc, text)
}

fn read_lines(alloc: Global, text: &[u8]) -> Result<Desc, LangFault>
    requires { length text.now ≤ 262144 }
    ensures value { IfOk result (λ desc. description_outcome text.now ≡ Value desc) }
    ensures fault { IfErr result (λ fault. DescriptionStopsAt fault (description_outcome text.now)) }
{
    let mut progress = Progress::new(alloc);
    let mut number = 1;
    for line in Lines::new(text) {
        progress = take_line(alloc, progress, line, number)?;
        number += 1;
    }
    progress.finish().ok_or(LangFault::Syntax(number))
}

fn take_line(
    alloc: Global,
    progress: Progress,
    line: &[u8],
    number: usize,
) -> Result<Progress, LangFault>
    requires { progress.next + 1 < 2 ^ 32 }
    ensures value { IfOk result (λ further. line_step progress line.now ≡ Next further) }
    ensures next { IfOk result (λ further. further.next ≤ progress.next + 1) }
    ensures fault { IfErr result (λ fault. RefusesDescriptionLine fault number (line_step progress line.now)) }
{
    let Some(list) = words_of(alloc, line)? else {
        drop(progress);
        return Err(LangFault::Syntax(number));
    };
    let words = list.as_slice();
    if words.is_empty() {
        return Ok(progress);
    }
    if progress.is_other_version(words) {
        drop(progress);
        return Err(LangFault::Version);
    }
    match progress.take(alloc, words)? {
        Some(further) => Ok(further),
        None => Err(LangFault::Syntax(number)),
    }
}
