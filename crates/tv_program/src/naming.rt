//! The names of pictures.

ghost use Rattle.std.specs.Prelude.{◌≡◌, IfOk, string_bytes};
ghost use Rattle.tv_program.specs.Naming.{shot_name};

use std::alloc::{AllocError, Global};

/// Returns the name of the picture with a number, of those of a script with this name.
pub(crate) fn shot_name(alloc: Global, script: &str, number: usize) -> Result<String, AllocError>
    ensures { IfOk result (λ name. string_bytes name ≡ shot_name script.now number) }
{
    format!(in alloc; "{script}-{number}.svg")
}
