//! What calls are made on, and how many allocations it takes by itself.

ghost use Rattle.std.specs.Prelude.{IfOk};
ghost use Rattle.tv_lang.specs.CanonicalDescription.{CanBeSpelled};

use super::ending::{Ending, expect_whole};
use std::alloc::Global;
use std::test::Fail;
use tv_check::{Certificate, CertificateFault, Checked};
use tv_controls::Button;
use tv_lang::{LangFault, parse};
use tv_model::Desc;
use tv_program::{RunFault, read_checked};
use tv_session::{BuildFault, Views};
use tv_test_support::button_views::buttons;
use tv_test_support::certificates::CANCEL_CERTIFICATE;
use tv_test_support::descriptions::CANCEL;

/// Two windows and two dialogs, of which the second is open at the start.
pub const FOUR: &str = r#"tvd 1
screen 30 12
start b
window one 1 1 16 4 1 "One"
end
window two 8 3 20 4 2 "Two"
end
dialog a 2 2 14 4 "Q" opens 100 ends cancel
button c 2 1 10 "~C~ancel" cancel
end
dialog b 3 3 14 4 "R" opens 101 ends cancel
button m 2 1 10 "~M~ore" 100
end
"#;

/// The description that a text spells.
pub fn desc_of(alloc: Global, text: &str) -> Result<Desc, Ending>
    ensures { IfOk result (λ desc. CanBeSpelled desc) }
{
    match parse(alloc, text.as_bytes()) {
        Ok(desc) => Ok(desc),
        Err(LangFault::NoMemory) => Err(Ending::NoMemory),
        Err(_) => Err(Ending::Other("no description")),
    }
}

/// The same, where it has no faults.
pub fn checked_of(alloc: Global, text: &str) -> Result<Checked, Ending> {
    match read_checked(alloc, text.as_bytes()) {
        Ok(checked) => Ok(checked),
        Err(RunFault::NoMemory) => Err(Ending::NoMemory),
        Err(_) => Err(Ending::Other("no sound description")),
    }
}

/// The certificate that a text spells.
pub fn certificate_of(alloc: Global, text: &str) -> Result<Certificate, Ending> {
    match Certificate::read(alloc, text.as_bytes()) {
        Ok(certificate) => Ok(certificate),
        Err(CertificateFault::NoMemory) => Err(Ending::NoMemory),
        Err(_) => Err(Ending::Other("no certificate")),
    }
}

/// The views of a description whose controls are buttons.
pub fn views_of(alloc: Global, checked: &Checked) -> Result<Views<Button>, Ending> {
    match buttons(alloc, checked) {
        Ok(views) => Ok(views),
        Err(BuildFault::NoMemory) => Err(Ending::NoMemory),
        Err(BuildFault::WrongPlan) => Err(Ending::Other("no plan of buttons")),
    }
}

fn described(alloc: Global) -> Result<(), Ending> {
    desc_of(alloc, CANCEL)?;
    Ok(())
}

#[test]
fn description(rt: HostRuntime) -> Result<(), Fail> {
    expect_whole(described(rt.alloc()))
}

fn found_sound(alloc: Global) -> Result<(), Ending> {
    checked_of(alloc, CANCEL)?;
    Ok(())
}

#[test]
fn sound_description(rt: HostRuntime) -> Result<(), Fail> {
    expect_whole(found_sound(rt.alloc()))
}

fn certified(alloc: Global) -> Result<(), Ending> {
    certificate_of(alloc, CANCEL_CERTIFICATE)?;
    Ok(())
}

#[test]
fn certificate_alone(rt: HostRuntime) -> Result<(), Fail> {
    expect_whole(certified(rt.alloc()))
}

fn built(alloc: Global) -> Result<(), Ending> {
    let checked = checked_of(alloc, CANCEL)?;
    views_of(alloc, &checked)?;
    Ok(())
}

#[test]
fn built_views(rt: HostRuntime) -> Result<(), Fail> {
    expect_whole(built(rt.alloc()))
}
