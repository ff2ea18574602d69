//! The certificates of descriptions that have no faults, and what was checked.
#![tactic(auto)]

mod acceptance;
mod acceptance_owners;
mod acceptance_tabs;
mod certification;
mod desc_fault;
mod owner;
mod owners;
mod plan;

pub use acceptance::{Checked, Refusal, accept, examine};
pub use certification::{CertifyFault, certify};
pub use desc_fault::DescFault;
pub use plan::BuildStep;
pub use tv_certificate::{Block, Certificate, CertificateFault, KeyLine};
pub use tv_faults::faults;
