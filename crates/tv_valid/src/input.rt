//! What an input line asks of its text.

ghost use Rattle.std.specs.Prelude.{◌≡◌, ◌↔◌, IfOk, IsTrue};

use crate::chars::Chars;
use std::alloc::{AllocError, Global};

/// The domain of an input, as a description gives it. A picture isn't read yet.
#[derive(Debug, Drop)]
pub enum DomainSpec {
    /// Every text.
    Any,
    /// The texts of these characters.
    Filter(Chars),
    /// The whole numbers from `least` to `greatest`.
    Range { least: i32, greatest: i32 },
    /// The members of a picture.
    Picture(Chars),
}

/// What an `input` line of a description asks of the text.
#[derive(Debug, Drop)]
pub struct InputSpec {
    /// The most characters that the text may have.
    pub max: i32,
    pub domain: DomainSpec,
    /// Whether the empty text lies in the domain too.
    pub optional: bool,
    /// Whether literals that must follow are added by themselves. Only a picture has such literals.
    pub fill: bool,
}

impl DomainSpec {
    /// Copies the domain, its characters too.
    pub fn copy(&self, alloc: Global) -> Result<DomainSpec, AllocError>
        ensures { IfOk result (λ copy. copy ≡ self.now) }
    {
        Ok(match self {
            DomainSpec::Any => DomainSpec::Any,
            DomainSpec::Filter(set) => DomainSpec::Filter(set.copy(alloc)?),
            DomainSpec::Range { least, greatest } => DomainSpec::Range {
                least: *least,
                greatest: *greatest,
            },
            DomainSpec::Picture(text) => DomainSpec::Picture(text.copy(alloc)?),
        })
    }

    /// Whether the two are written alike. Domains of the same texts may be written differently.
    pub fn is(&self, other: &DomainSpec) -> bool
        ensures { IsTrue result ↔ (self.now ≡ other.now) }
    {
        match (self, other) {
            (DomainSpec::Any, DomainSpec::Any) => true,
            (DomainSpec::Filter(set), DomainSpec::Filter(other)) => set.is(other),
            (
                DomainSpec::Range { least, greatest },
                DomainSpec::Range {
                    least: other_least,
                    greatest: other_greatest,
                },
            ) => least == other_least && greatest == other_greatest,
            (DomainSpec::Picture(text), DomainSpec::Picture(other)) => text.is(other),
            _ => false,
        }
    }
}

impl InputSpec {
    /// Copies what the line asks.
    pub fn copy(&self, alloc: Global) -> Result<InputSpec, AllocError>
        ensures { IfOk result (λ copy. copy ≡ self.now) }
    {
        Ok(InputSpec {
            max: self.max,
            domain: self.domain.copy(alloc)?,
            optional: self.optional,
            fill: self.fill,
        })
    }

    /// Whether the two lines ask the same, in the same words.
    pub fn is(&self, other: &InputSpec) -> bool
        ensures { IsTrue result ↔ (self.now ≡ other.now) }
    {
        self.max == other.max
            && self.domain.is(&other.domain)
            && self.optional == other.optional
            && self.fill == other.fill
    }
}
