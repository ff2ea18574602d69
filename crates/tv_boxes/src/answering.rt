//! The description that the words of a command line ask for.

ghost use Rattle.std.specs.Prelude.{IfErr, IfOk, map, string_bytes};
ghost use Rattle.tv_boxes.specs.Asked.{Asks, AsksFor, Denies, DeniesBox, IsTextOf, RefusesWords};

use crate::arguments::{read_request, words_of};
use crate::making::{BoxFault, boxed};
use crate::misuse::Misuse;
use crate::request::Request;
use std::alloc::{AllocError, Global};
use tv_valid::Chars;

/// Why no description is written.
#[derive(Debug, Drop)]
pub enum Refusal {
    NoMemory,
    /// What is wrong with the words, or with the box that they ask for.
    Told(String),
}

impl From<AllocError> for Refusal {
    ghost use Rattle.std.specs.Prelude.{◌≡◌};
    ghost use Rattle.tv_boxes.specs.declared.answering.Refusal.TheVariants.{NoMemory};

    ghost from_gives = { λ _ e. e ≡ NoMemory };

    fn from(_error: AllocError) -> Refusal {
        Refusal::NoMemory
    }
}

/// Writes the description of the box that these words ask for, or says what is wrong with them.
pub fn box_text(alloc: Global, words: &[String]) -> Result<String, Refusal>
    ensures text { IfOk result (λ text. AsksFor (map string_bytes words.now) (string_bytes text)) }
    ensures fault { IfErr result (RefusesWords (map string_bytes words.now)) }
{
    let words = words_of(alloc, words)?;
    asked_text(alloc, words.as_slice())
}

fn asked_text(alloc: Global, words: &[Chars]) -> Result<String, Refusal>
    ensures text { IfOk result (λ text. Asks words.now (string_bytes text)) }
    ensures fault { IfErr result (Denies words.now) }
{
    match read_request(alloc, words) {
        Ok(request) => request_text(alloc, &request),
        Err(Misuse::NoMemory) => Err(Refusal::NoMemory),
        Err(misuse) => Err(Refusal::Told(misuse.told(alloc, words)?)),
    }
}

fn request_text(alloc: Global, request: &Request) -> Result<String, Refusal>
    ensures text { IfOk result (λ text. IsTextOf request.now (string_bytes text)) }
    ensures fault { IfErr result (DeniesBox request.now) }
{
    match boxed(alloc, request) {
        Ok(text) => Ok(text),
        Err(BoxFault::NoMemory) => Err(Refusal::NoMemory),
        Err(BoxFault::Unfit(what)) => Err(Refusal::Told(format!(in alloc; "{what}")?)),
        Err(BoxFault::Faults) => { Err(Refusal::Told(format!(in alloc; "{}", BoxFault::Faults)?)) }
    }
}
