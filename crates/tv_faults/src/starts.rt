//! F12 and F13: inputs whose domain is empty, and start values that can't be. Both ask for an input's domain, which is
//! made once.

ghost use Rattle.std.specs.Prelude.{◌≡◌, map, not, IfOk};
ghost use Rattle.std.specs.List.{list_any};
ghost use Rattle.tv_valid.specs.Deciding.{viable};
ghost use Rattle.tv_model.specs.Description.Rules.{is_item};
ghost use Rattle.tv_model.specs.Faults.Starts.{starts_outside};
ghost use Rattle.tv_faults.specs.Starts.{start_faults, starts_of};

use crate::domains::domain_of;
use std::alloc::{AllocError, Global};
use tv_model::{Input, Kind, Node, Sequence, is_item};
use tv_valid::{Chars, Domain, Text};

/// Which of F12 and F13 a view has.
#[derive(Clone, Copy)]
pub struct StartFaults {
    /// Whether it is an input with a bad picture, or with a domain in which no text lies.
    pub empty_domain: bool,
    /// Whether it starts with a text that isn't viable, or with an item that it doesn't have.
    pub bad_start: bool,
}

fn starts_among(start: &[i32], count: usize) -> bool
    ensures { result ≡ list_any (λ item. not (is_item item count)) start.now }
{
    start.iter().any(|item| !is_item(item, count))
}

/// Whether the declaration starts with an item that it doesn't have.
pub fn starts_outside(kind: &Kind) -> bool
    ensures { result ≡ starts_outside kind.now }
{
    match kind {
        Kind::CheckBoxes(boxes) => {
            starts_among(boxes.start.as_slice(), boxes.items.as_slice().len())
        }
        Kind::RadioButtons(radios) => !is_item(&radios.start, radios.items.as_slice().len()),
        Kind::List(list) => !is_item(&list.start, list.items.as_slice().len()),
        _ => false,
    }
}

// Whether the text may stand in an input of the domain.
fn is_viable(domain: &Domain, text: &Chars) -> bool
    ensures { result ≡ viable domain.now text.now }
{
    match Text::from_chars(text.as_slice()) {
        Some(text) => domain.viable(&text),
        None => false,
    }
}

// What the domain and the start text of an input have.
fn input_faults(alloc: Global, input: &Input) -> Result<StartFaults, AllocError>
    ensures { IfOk result (λ faults. faults ≡ start_faults (Kind.Input input.now)) }
{
    Ok(match domain_of(alloc, &input.spec)? {
        Some(domain) => StartFaults {
            empty_domain: false,
            bad_start: !is_viable(&domain, &input.start),
        },
        None => StartFaults {
            empty_domain: true,
            bad_start: false,
        },
    })
}

// What the domain and the start of a view have.
fn start_faults(alloc: Global, kind: &Kind) -> Result<StartFaults, AllocError>
    ensures { IfOk result (λ faults. faults ≡ start_faults kind.now) }
{
    match kind {
        Kind::Input(input) => input_faults(alloc, input),
        _ => Ok(StartFaults {
            empty_domain: false,
            bad_start: starts_outside(kind),
        }),
    }
}

/// Judges the domain and the start of each view of a window or dialog.
pub fn judge_starts(alloc: Global, views: &[Node]) -> Result<Sequence<StartFaults>, AllocError>
    ensures { IfOk result (λ starts. starts ≡ starts_of views.now) }
{
    let mut starts = Sequence::new(alloc);
    for view in views {
        starts.push(start_faults(alloc, &view.kind)?)?;
    }
    Ok(starts)
}

/// Returns of each whether the domain is empty.
pub fn empty_domains(alloc: Global, starts: &[StartFaults]) -> Result<Vec<bool>, AllocError>
    ensures { IfOk result (λ empty. empty.items ≡ map (λ start. start.empty_domain) starts.now) }
{
    starts.iter().map(|start| start.empty_domain).collect(alloc)
}

/// Returns of each whether the start is bad.
pub fn bad_starts(alloc: Global, starts: &[StartFaults]) -> Result<Vec<bool>, AllocError>
    ensures { IfOk result (λ bad. bad.items ≡ map (λ start. start.bad_start) starts.now) }
{
    starts.iter().map(|start| start.bad_start).collect(alloc)
}
