//! All that there is to tell of a description.

ghost use Rattle.std.specs.Prelude.{◌≡◌, ℕ, ◌<◌, ◌≤◌, length, IfOk, OnOk, Ok, string_bytes};
ghost use Rattle.tv_lang.specs.CanonicalDescription.{CanBeSpelled};
ghost use Rattle.tv_lang.specs.Faults.{Spells};
ghost use Rattle.tv_advice.specs.Blocks.{AreUnreadBlocks, IsReportOn, IsUnreadReport, IsVersionBlock};
ghost use Rattle.tv_words.specs.Lines.{lines_of};
ghost use Rattle.tv_advice.specs.Beginnings.{first_declared};
ghost use Rattle.tv_advice.specs.Told.{IsToldOf};

use crate::advice::advise;
use crate::beginning::first_declared;
use crate::forms::Language;
use crate::index::Index;
use crate::manner::Manner;
use crate::report::{advice_block, unread_block};
use crate::source::Source;
use crate::spans::lines_of;
use crate::unread::{Unread, explain_behind, explain_line, explain_version};
use std::alloc::{AllocError, Global};
use tv_explain::{Explained, explain};
use tv_lang::{LangFault, parse};
use tv_model::Desc;

/// What there is to tell of a description.
#[derive(Debug, Drop)]
pub enum Told {
    /// This description has no fault.
    Sound(Desc),
    /// Its faults, or why it can't be read.
    Faulty(String),
    /// It has too many bytes.
    TooLong,
}

// The most bytes of a description.
const LONGEST: usize = 262_144;

// A block for each of these faults of a description.
fn report_on(
    alloc: Global,
    source: &Source,
    desc: &Desc,
    faults: &[Explained],
) -> Result<String, AllocError>
    ensures { IfOk result (λ report. IsReportOn source.now.manner source.now.name.now faults.now (string_bytes report)) }
{
    let index = Index::new(alloc, source.text, desc)?;
    let mut report = String::new(alloc);
    for fault in faults {
        let advice = advise(alloc, &index, fault)?;
        let block = advice_block(alloc, source, &index, &advice)?;
        report.push_str(&block)?;
    }
    Ok(report)
}

// What there is to tell of a text that spells this description.
fn tell_faults(alloc: Global, source: &Source, desc: Desc) -> Result<Told, AllocError>
    requires few { length source.now.text.now ≤ 262144 }
    requires can_be_spelled { CanBeSpelled desc }
    ensures { Spells source.now.text.now desc → IfOk result (IsToldOf source.now.manner source.now.name.now source.now.text.now) }
{
    let list = explain(alloc, source.text, &desc)?;
    let faults = list.as_slice();
    if faults.is_empty() {
        return Ok(Told::Sound(desc));
    }
    Ok(Told::Faulty(report_on(alloc, source, &desc, faults)?))
}

// Blocks on lines that can't be read, and the line of the last of them.
#[derive(Drop)]
struct UnreadBlocks {
    report: String,
    last: usize,
}

// Adds a block on a line that can't be read, if it is behind the last one of which is told.
fn add_unread(
    alloc: Global,
    source: &Source,
    lines: &[&str],
    blocks: &mut UnreadBlocks,
    unread: &Unread,
) -> Result<(), AllocError>
    ensures { OnOk result ((first : ℕ)
        → AreUnreadBlocks source.now.manner source.now.name.now first blocks.old.last (string_bytes blocks.old.report)
        → AreUnreadBlocks source.now.manner source.now.name.now first blocks.new.last (string_bytes blocks.new.report)) }
{
    if unread.own.line <= blocks.last {
        return Ok(());
    }
    let block = unread_block(alloc, source, lines, "syntax", unread)?;
    blocks.report.push_str(&block)?;
    blocks.last = unread.own.line;
    Ok(())
}

/// Writes why the line of this number can't be read, and why lines behind it can't.
pub fn unread_report(
    alloc: Global,
    source: &Source,
    language: Language,
    line: usize,
) -> Result<String, AllocError>
    ensures { IfOk result (λ report. IsUnreadReport source.now.manner source.now.name.now line (string_bytes report)) }
{
    let lines = lines_of(alloc, source.text)?;
    let first = explain_line(alloc, language, source.text, line)?;
    let report = unread_block(alloc, source, &lines, "syntax", &first)?;
    let mut blocks = UnreadBlocks { report, last: line };
    let further = explain_behind(alloc, language, source.text, line)?;
    for unread in &further {
        add_unread(alloc, source, &lines, &mut blocks, unread)?;
    }
    Ok(blocks.report)
}

// Writes that the language has no such version.
fn version_report(alloc: Global, source: &Source) -> Result<String, AllocError>
    requires few { length source.now.text.now ≤ 262144 }
    ensures { IfOk result (λ report. IsVersionBlock source.now.manner source.now.name.now
        (first_declared 1 (lines_of source.now.text.now)) (string_bytes report)) }
{
    let number = first_declared(alloc, source.text)?;
    let lines = lines_of(alloc, source.text)?;
    let unread = explain_version(alloc, &lines, number)?;
    unread_block(alloc, source, &lines, "version", &unread)
}

/// Tells what a description in the file of this name, whose text is this, has of faults, or why it can't be read.
pub fn tell(alloc: Global, manner: Manner, name: &str, text: &[u8]) -> Result<Told, AllocError>
    ensures told { IfOk result (IsToldOf manner name.now text.now) }
    ensures too_long { 262144 < length text.now → result ≡ Ok Told.TooLong }
{
    if text.len() > LONGEST {
        return Ok(Told::TooLong);
    }
    let source = Source { manner, name, text };
    match parse(alloc, text) {
        Ok(desc) => tell_faults(alloc, &source, desc),
        Err(LangFault::Syntax(line)) => Ok(Told::Faulty(unread_report(
            alloc,
            &source,
            Language::Description,
            line,
        )?)),
        Err(LangFault::Version) => Ok(Told::Faulty(version_report(alloc, &source)?)),
        Err(LangFault::TooLong) => Ok(Told::TooLong),
        Err(LangFault::NoMemory) => Err(AllocError),
    }
}
