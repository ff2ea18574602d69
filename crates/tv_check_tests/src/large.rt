//! A description near the limits: where there is memory, nothing is refused for the want of it.

use std::test::Fail;
use tv_test_support::large::{large_certificate, large_description, large_plan};
use tv_test_support::{
    Certifying, Planning, PrintingCertificate, expect_accepted, expect_answer, expect_canonical,
    expect_finding,
};

#[test]
fn large_descriptions(rt: HostRuntime) -> Result<(), Fail> {
    let desc = large_description(rt.alloc())?;
    expect_finding(rt.alloc(), &desc, "sound")?;
    expect_canonical(rt.alloc(), &desc)
}

#[test]
fn large_certificates(rt: HostRuntime) -> Result<(), Fail> {
    let desc = large_description(rt.alloc())?;
    let certificate = large_certificate(rt.alloc())?;
    expect_answer(&Certifying, rt.alloc(), &desc, &certificate)?;
    expect_answer(&PrintingCertificate, rt.alloc(), &certificate, &certificate)?;
    expect_accepted(rt.alloc(), &[(&desc, &certificate)])
}

#[test]
fn large_plans(rt: HostRuntime) -> Result<(), Fail> {
    let desc = large_description(rt.alloc())?;
    let plan = large_plan(rt.alloc())?;
    expect_answer(&Planning, rt.alloc(), &desc, &plan)
}
