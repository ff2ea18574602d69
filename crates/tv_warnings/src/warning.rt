//! All that there is to warn of in a description, told.

ghost use Rattle.std.specs.Prelude.{◌≡◌, ◌≤◌, IfOk, length, string_bytes};
ghost use Rattle.std.specs.List.{list_any};
ghost use Rattle.tv_app.specs.Opening.{IsSpelledSound};
ghost use Rattle.tv_explain.specs.Places.{places_of};
ghost use Rattle.tv_warnings.specs.Findings.{is_warning};
ghost use Rattle.tv_warnings.specs.Warned.{IsWarned, IsWarning, IsWarningReport};

use crate::finding::Finding;
use crate::looking::findings;
use crate::notes::warning_on;
use crate::page::Page;
use crate::sayings::saying_of;
use crate::standing::standing_of;
use std::alloc::{AllocError, Global};
use tv_advice::{Index, Manner, Source, warning_block};
use tv_explain::Places;
use tv_model::Desc;

/// What there is to warn of.
#[derive(Debug, Drop)]
pub struct Warned {
    /// A block for each finding.
    pub report: String,
    /// Whether one is a warning, and no note.
    pub is_any: bool,
}

// The block of a finding.
fn block_on(
    alloc: Global,
    source: &Source,
    page: &Page,
    finding: &Finding,
) -> Result<String, AllocError>
    requires { page.now.places ≡ places_of source.now.text.now }
    ensures { IfOk result (λ block. IsWarning source.now.manner source.now.name.now source.now.text.now page.now.desc.now finding.now (string_bytes block)) }
{
    let standing = standing_of(alloc, page.desc, finding)?;
    let saying = saying_of(alloc, page, finding, standing)?;
    let warning = warning_on(alloc, page, standing.own, saying)?;
    warning_block(alloc, source, &page.index, finding.code(), &warning)
}

// A block for each of these findings.
fn report_on(
    alloc: Global,
    source: &Source,
    desc: &Desc,
    found: &[Finding],
) -> Result<String, AllocError>
    requires { length source.now.text.now ≤ 262144 }
    ensures { IfOk result (λ report. IsWarningReport source.now.manner source.now.name.now source.now.text.now desc.now found.now (string_bytes report)) }
{
    let page = Page {
        desc,
        index: Index::new(alloc, source.text, desc)?,
        places: Places::new(alloc, source.text)?,
    };
    let mut report = String::new(alloc);
    for finding in found {
        let block = block_on(alloc, source, &page, finding)?;
        report.push_str(&block)?;
    }
    Ok(report)
}

fn is_any_warning(found: &[Finding]) -> bool
    ensures { result ≡ list_any is_warning found.now }
{
    found.iter().any(|finding| finding.is_warning())
}

/// Reports what fails the users of the description that the text spells, with a block for each finding. The text is that of the
/// file of this name.
pub fn warn(
    alloc: Global,
    manner: Manner,
    name: &str,
    text: &[u8],
    desc: &Desc,
) -> Result<Warned, AllocError>
    requires spelled { IsSpelledSound text.now desc.now }
    requires few { length text.now ≤ 262144 }
    ensures { IfOk result (IsWarned manner name.now text.now desc.now) }
{
    let source = Source { manner, name, text };
    let found = findings(alloc, text, desc)?;
    let report = report_on(alloc, &source, desc, &found)?;
    Ok(Warned {
        report,
        is_any: is_any_warning(&found),
    })
}
