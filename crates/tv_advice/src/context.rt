//! What a line of a text stands in: what may come next, and what is open.

use crate::forms::Language;
use crate::stage::Stage;
use std::alloc::{AllocError, Global};

/// A menu, a window, a dialog or a pane that no `end` has closed yet: the line that opened it, and its keyword.
#[derive(Clone, Copy, Debug, PartialEq, Eq)]
pub struct Unclosed {
    pub line: usize,
    pub keyword: &'static str,
}

/// What the lines so far say of the next one.
#[derive(Drop)]
pub struct Context {
    pub stage: Stage,
    // What is open, the innermost last.
    open: Vec<Unclosed>,
}

impl Context {
    /// Begins a text.
    pub fn new(alloc: Global, language: Language) -> Context {
        Context {
            stage: Stage::first(language),
            open: Vec::new(alloc),
        }
    }

    /// Goes on behind the line of this number, which has this keyword.
    pub fn pass(&mut self, line: usize, keyword: &'static str) -> Result<(), AllocError> {
        self.stage = self.stage.after(keyword);
        match keyword {
            "menu" | "window" | "dialog" => {
                self.open.clear();
                self.open.push(Unclosed { line, keyword })?;
            }
            "pane" => self.open.push(Unclosed { line, keyword })?,
            "end" => {
                self.open.pop();
            }
            "show" | "enable" => self.open.truncate(1),
            _ => {}
        }
        Ok(())
    }

    /// Returns the innermost of what is open.
    pub fn innermost(&self) -> Option<Unclosed> {
        self.open.last().copied()
    }
}
