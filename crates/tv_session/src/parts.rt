//! What holds of every description that was checked, as a contract.
ghost use Rattle.std.specs.Prelude.{All};
ghost use Rattle.tv_lang.specs.CanonicalDescription.{CanBeSpelled};
ghost use Rattle.tv_session.specs.Desk.{AreLawfulWindows};
ghost use Rattle.tv_session.specs.Parts.{HasLimitedHead, HaveNearCorners, StartsLawfully};
ghost use Rattle.tv_menu.specs.Lawful.{AreLawfulMenus, AreLawfulStatusItems, IsLawfulScreen};
ghost use Rattle.tv_model.specs.Faults.{IsSound};

use tv_model::Desc;

/// A theorem, as a function without a body: a sound description that a text can spell has what a run of it asks for.
pub fn parts_are_lawful(_desc: &Desc)
    requires spelled { CanBeSpelled _desc.now }
    requires sound { IsSound _desc.now }
    ensures screen { IsLawfulScreen _desc.now.width _desc.now.height }
    ensures menus { AreLawfulMenus _desc.now.menus }
    ensures status { AreLawfulStatusItems _desc.now.status }
    ensures windows { AreLawfulWindows _desc.now.windows }
    ensures heads { All HasLimitedHead _desc.now.dialogs }
    ensures corners { HaveNearCorners _desc.now }
    ensures starts { All StartsLawfully _desc.now.dialogs }
{}
