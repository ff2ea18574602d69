//! Certificates: what they hold, how they are read and how they are printed.
#![tactic(auto)]

mod alphabet;
mod certificate;
mod printing;
mod progress;
mod reading;
mod version;

pub use alphabet::letters;
pub use certificate::{Block, Certificate, KeyLine};
pub use reading::CertificateFault;
