//! What the parser and the checker find in a description.

ghost use Rattle.std.specs.Prelude.{IfOk};
ghost use Rattle.tv_lang.specs.CanonicalDescription.{CanBeSpelled};

use crate::tables::{Question, expect_row};
use std::alloc::{AllocError, Global};
use std::test::Fail;
use tv_check::faults;
use tv_lang::{LangFault, parse};
use tv_model::{Desc, Fault};

/// What is found in a description: `sound`, its faults in their order, as `F1 line 5`, or why it can't be read.
#[derive(Clone, Copy)]
pub struct Findings;

impl Question for Findings {
    fn answer(&self, alloc: Global, text: &[u8]) -> Result<String, Fail> {
        match desc_of(alloc, text) {
            Ok(desc) => faults_told(alloc, &desc),
            Err(fault) => unread_told(alloc, fault),
        }
    }
}

/// Whether a text is read as a description: `read`, or why it can't be.
#[derive(Clone, Copy)]
pub struct Reading;

impl Question for Reading {
    fn answer(&self, alloc: Global, text: &[u8]) -> Result<String, Fail> {
        match desc_of(alloc, text).err() {
            None => Ok(String::from_str(alloc, "read\n")?),
            Some(fault) => unread_told(alloc, fault),
        }
    }
}

// The description that a text spells.
pub(crate) fn desc_of(alloc: Global, text: &[u8]) -> Result<Desc, LangFault>
    ensures { IfOk result (λ desc. CanBeSpelled desc) }
{
    parse(alloc, text)
}

fn unread_told(alloc: Global, fault: LangFault) -> Result<String, Fail> {
    match fault {
        LangFault::Syntax(line) => Ok(format!(in alloc; "syntax at line {line}\n")?),
        LangFault::TooLong => Ok(String::from_str(alloc, "too long\n")?),
        LangFault::Version => Ok(String::from_str(alloc, "unknown version\n")?),
        LangFault::NoMemory => Err(Fail::new("no memory")),
    }
}

fn faults_told(alloc: Global, desc: &Desc) -> Result<String, Fail> {
    let list = faults(alloc, desc)?;
    Ok(list_told(alloc, list.as_slice())?)
}

fn list_told(alloc: Global, list: &[Fault]) -> Result<String, AllocError> {
    if list.is_empty() {
        return String::from_str(alloc, "sound\n");
    }
    let mut told = String::new(alloc);
    for fault in list {
        push_fault(&mut told, alloc, fault)?;
    }
    Ok(told)
}

fn push_fault(told: &mut String, alloc: Global, fault: &Fault) -> Result<(), AllocError> {
    let line = fault_told(alloc, "", fault)?;
    told.push_str(&line)
}

// A fault by its number and line, after some word.
pub(crate) fn fault_told(alloc: Global, word: &str, fault: &Fault) -> Result<String, AllocError> {
    format!(in alloc; "{word}F{} line {}\n", fault.kind.number(), fault.line)
}

/// Fails where something else than this is found in a description.
pub fn expect_finding(alloc: Global, text: &str, wanted: &str) -> Result<(), Fail> {
    let wanted = format!(in alloc; "{wanted}\n")?;
    expect_row(&Findings, alloc, text, &wanted)
}
