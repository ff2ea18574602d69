//! Domains of inputs.

ghost use Rattle.std.specs.Prelude.{◌≡◌, Some, false, IfOk, IfSome, IfNone, IsTrue};
ghost use Rattle.tv_valid.specs.Asking.{domain_of};
ghost use Rattle.tv_valid.specs.Deciding.{has_text};
ghost use Rattle.tv_model.specs.Faults.Domains.{any_text};

use std::alloc::{AllocError, Global};
use tv_valid::{Domain, DomainFault, InputSpec};

/// Makes the domain that the input asks for, or returns `None` where its picture isn't well-formed or no text lies in
/// it.
pub fn domain_of(alloc: Global, spec: &InputSpec) -> Result<Option<Domain>, AllocError>
    ensures some { IfOk result (λ found. IfSome found (λ domain. (domain_of spec.now ≡ Some domain) × IsTrue (has_text domain))) }
    ensures none { IfOk result (λ found. IfNone found (any_text spec.now ≡ false)) }
{
    match Domain::new(alloc, spec) {
        Ok(domain) => Ok(Some(domain)),
        Err(DomainFault::NoMemory) => Err(AllocError),
        Err(DomainFault::BadPicture(_) | DomainFault::Empty) => Ok(None),
    }
}
