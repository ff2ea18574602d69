//! What answers and logs come to, as contracts.

ghost use Rattle.tv_answers.specs.Again.{EndAgain};
ghost use Rattle.tv_answers.specs.Laws.{EndsAreRead, LogIsRead, OpenAsAnswered};
ghost use Rattle.tv_answers.specs.Scripts.{ReadsTyped};
ghost use Rattle.tv_lang.specs.CanonicalDescription.{CanBeSpelled};
ghost use Rattle.tv_model.specs.Faults.{IsSound};

use tv_model::Desc;

/// A theorem, as a function without a body: filled with what a log answers, a dialog of a description that a text can
/// spell opens with the answered values, and else with the declared ones.
pub fn opens_as_answered(_desc: &Desc, _text: &[u8])
    requires spelled { CanBeSpelled _desc.now }
    ensures { OpenAsAnswered _desc.now _text.now }
{}

/// A theorem, as a function without a body: what a dialog of a sound description that a text can spell logs of its end
/// answers just what that end saves.
pub fn ends_are_read(_desc: &Desc)
    requires spelled { CanBeSpelled _desc.now }
    requires sound { IsSound _desc.now }
    ensures { EndsAreRead _desc.now }
{}

/// A theorem, as a function without a body: what a run of a sound description that a text can spell writes for a script
/// answers, without a misfit, what the run saved, and of each dialog the command of its last end but `cancel`.
pub fn log_is_read(_desc: &Desc)
    requires spelled { CanBeSpelled _desc.now }
    requires sound { IsSound _desc.now }
    ensures { LogIsRead _desc.now }
{}

/// A theorem, as a function without a body: where the description is filled with what such a log answers, each dialog that
/// is opened and given its last end but `cancel` ends by that, and logs it again with the record that the run saved.
pub fn log_is_answered(_desc: &Desc)
    requires spelled { CanBeSpelled _desc.now }
    requires sound { IsSound _desc.now }
    ensures { EndAgain _desc.now }
{}

/// A theorem, as a function without a body: what is read of a script types characters, so that the laws of logs ask nothing
/// of such a script.
pub fn script_is_typed(_text: &[u8])
    ensures { ReadsTyped _text.now }
{}
