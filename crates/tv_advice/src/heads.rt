//! How the block of a report begins: where to look, and at which fault.

ghost use Rattle.std.specs.Prelude.{◌≡◌, IfOk, string_bytes};
ghost use Rattle.tv_advice.specs.Heads.{block_head, in_json, object_head, plain_head};

use crate::colour::{Colour, shown_in};
use crate::manner::Manner;
use crate::source::Source;
use serde_json::Value;
use std::alloc::{AllocError, Global};

// A text as JSON has it.
fn in_json(alloc: Global, text: &str) -> Result<String, AllocError>
    ensures { IfOk result (λ written. string_bytes written ≡ in_json text.now) }
{
    Value::String(String::from_str(alloc, text)?).to_string(alloc)
}

// The first members of an object, with a comma behind them.
fn object_head(
    alloc: Global,
    name: &str,
    line: usize,
    column: usize,
    fault: &str,
) -> Result<String, AllocError>
    ensures { IfOk result (λ head. string_bytes head ≡ object_head name.now line column fault.now) }
{
    let file = in_json(alloc, name)?;
    let fault = in_json(alloc, fault)?;
    format!(in alloc; "{{\"file\":{file},\"line\":{line},\"column\":{column},\"fault\":{fault},")
}

// What editors take for a place, and the fault, with a colon and a space behind each.
fn plain_head(
    alloc: Global,
    source: &Source,
    line: usize,
    column: usize,
    fault: &str,
) -> Result<String, AllocError>
    ensures { IfOk result (λ head. string_bytes head
        ≡ plain_head source.now.manner source.now.name.now line column fault.now) }
{
    let name = source.name;
    let fault = shown_in(alloc, source.manner, Colour::Fault, fault)?;
    format!(in alloc; "{name}:{line}:{column}: {fault}: ")
}

/// Writes the head of a block: the file, the line and the column, and the fault.
pub fn head(
    alloc: Global,
    source: &Source,
    line: usize,
    column: usize,
    fault: &str,
) -> Result<String, AllocError>
    ensures { IfOk result (λ head. string_bytes head
        ≡ block_head source.now.manner source.now.name.now line column fault.now) }
{
    match source.manner {
        Manner::Json => object_head(alloc, source.name, line, column, fault),
        Manner::Plain | Manner::Coloured => plain_head(alloc, source, line, column, fault),
    }
}
