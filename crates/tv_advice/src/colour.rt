//! Colours of a terminal.

ghost use Rattle.std.specs.Prelude.{◌≡◌, IfOk, string_bytes};
ghost use Rattle.tv_advice.specs.Heads.{sequence, shown_in};

use crate::manner::Manner;
use std::alloc::{AllocError, Global};

/// What parts of a report are coloured.
#[derive(Clone, Copy)]
pub enum Colour {
    Fault,
    Other,
    Help,
}

impl Colour {
    // The sequence of a terminal that begins it.
    fn sequence(self) -> &'static str
        ensures { result.now ≡ sequence self }
    {
        match self {
            Colour::Fault => "\x1b[1;31m",
            Colour::Other => "\x1b[1;34m",
            Colour::Help => "\x1b[1;32m",
        }
    }
}

/// Returns a text as it is shown in this colour, which is as it stands where colours weren't asked for.
pub fn shown_in(
    alloc: Global,
    manner: Manner,
    colour: Colour,
    text: &str,
) -> Result<String, AllocError>
    ensures { IfOk result (λ shown. string_bytes shown ≡ shown_in manner colour text.now) }
{
    match manner {
        Manner::Coloured => {
            let begin = colour.sequence();
            format!(in alloc; "{begin}{text}\x1b[0m")
        }
        Manner::Plain | Manner::Json => String::from_str(alloc, text),
    }
}
