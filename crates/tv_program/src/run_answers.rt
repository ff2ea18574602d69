//! What comes of answering with what a run wrote, as a contract.

ghost use Rattle.tv_lang.specs.CanonicalDescription.{CanBeSpelled};
ghost use Rattle.tv_model.specs.Faults.{IsSound};
ghost use Rattle.tv_program.specs.Playing.{IsMismade, Makes};
ghost use Rattle.tv_program.specs.RunAnswers.{RunsComeAgain};

use std::alloc::Global;
use tv_check::Checked;
use tv_model::Desc;
use tv_session::{BuildFault, Views};
use tv_view::View;

/// A theorem, as a function without a body: where `answer_text` is given what a run of the description wrote, all of it
/// fits, no dialog refuses its end, and with `Ok` each logs its last end again.
pub fn run_is_answered<V: View, F: Fn(Global, &Checked) -> Result<Views<V>, BuildFault>>(
    _desc: &Desc,
    _make: &F,
)
    requires spelled { CanBeSpelled _desc.now }
    requires sound { IsSound _desc.now }
    ensures { RunsComeAgain (IsMismade (Makes F.Fn _make.now) V.meaning) _desc.now }
{}
