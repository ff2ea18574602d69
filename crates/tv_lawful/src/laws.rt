//! The laws of all runs, as a contract.
ghost use Rattle.tv_lang.specs.CanonicalDescription.{CanBeSpelled};
ghost use Rattle.tv_lawful.specs.Laws.{RunsByLaws};
ghost use Rattle.tv_model.specs.Faults.{IsSound};

use tv_model::Desc;

/// A theorem, as a function without a body: every run of a sound description that a text can spell goes by the laws,
/// whatever events, commands of the program and records come.
pub fn runs_go_by_laws(_desc: &Desc)
    requires spelled { CanBeSpelled _desc.now }
    requires sound { IsSound _desc.now }
    ensures { RunsByLaws _desc.now }
{}
