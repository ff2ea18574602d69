//! A description, printed.

ghost use Rattle.std.specs.Prelude.{◌≡◌, string_bytes, IfOk};
ghost use Rattle.tv_declarations.specs.CanonicalDescription.{description_text};
ghost use Rattle.tv_lang.specs.CanonicalDescription.{CanBeSpelled, SpellsOnly};

use crate::printer::description_text;
use std::alloc::{AllocError, Global};
use tv_model::Desc;

/// Writes the canonical text of a description: each declaration on a line, one space between words, no comments. Where
/// any text spells the description, this one does, and it spells no other.
pub fn print(alloc: Global, desc: &Desc) -> Result<String, AllocError>
    ensures text { IfOk result (λ text. string_bytes text ≡ description_text desc.now) }
    ensures spelled { IfOk result (λ text. CanBeSpelled desc.now → SpellsOnly (string_bytes text) desc.now) }
{
    description_text(alloc, desc)
}
