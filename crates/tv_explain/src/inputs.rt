//! Domains and starts that can't be: F12 and F13.

ghost use Rattle.std.specs.Prelude.{◌≡◌, is_some, IfOk};
ghost use Rattle.tv_valid.specs.Asking.{domain_of};
ghost use Rattle.tv_explain.specs.Inputs.{domain_reason, start_reason};

use crate::why::Reason;
use std::alloc::{AllocError, Global};
use tv_faults::starts_outside;
use tv_model::Kind;
use tv_valid::{Domain, DomainFault, InputSpec};

// Whether the input asks for a domain: its picture, if it has one, is spelled right.
fn has_domain(alloc: Global, spec: &InputSpec) -> Result<bool, AllocError>
    ensures { IfOk result (λ has. has ≡ is_some (domain_of spec.now)) }
{
    match Domain::new(alloc, spec) {
        Ok(domain) => {
            drop(domain);
            Ok(true)
        }
        Err(DomainFault::Empty) => Ok(true),
        Err(DomainFault::BadPicture(_)) => Ok(false),
        Err(DomainFault::NoMemory) => Err(AllocError),
    }
}

/// Tells why nothing can fill an input.
pub fn domain_reason(alloc: Global, kind: &Kind) -> Result<Reason, AllocError>
    ensures { IfOk result (λ reason. reason ≡ domain_reason kind.now) }
{
    match kind {
        Kind::Input(input) if has_domain(alloc, &input.spec)? => Ok(Reason::NoText),
        Kind::Input(_) => Ok(Reason::BadPicture),
        _ => Ok(Reason::Itself),
    }
}

/// Tells what can't be at the start.
pub fn start_reason(kind: &Kind) -> Reason
    ensures { result ≡ start_reason kind.now }
{
    if starts_outside(kind) {
        Reason::StartItem
    } else {
        Reason::StartText
    }
}
