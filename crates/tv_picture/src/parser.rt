//! A picture read from its text.

ghost use Rattle.std.specs.Prelude.{◌≡◌, ◌+◌, ◌≤◌, ◌<◌, ℕ, Some, IfOk, OnOk, MatchOption, true, false};
ghost use Rattle.tv_picture.specs.Parsing.{reading, nothing_parsed, with_single_mark, part_finished, merged, bracket_opened, bracket_closed, divided, starred, counted_as, text_step, built_by, with_op, is_closed, Took};

use crate::code::{Mark, Op};
use arrayvec::ArrayVec;
use std::alloc::{AllocError, Global};

/// A kind of brackets.
#[derive(Clone, Copy, Debug, Default, PartialEq, Eq)]
pub enum Bracket {
    /// `[` and `]`.
    #[default]
    Square,
    /// `{` and `}`.
    Curly,
}

/// How often a part is repeated.
#[derive(Clone, Copy, Debug, Default, PartialEq, Eq)]
pub enum Repeat {
    #[default]
    Once,
    Many,
    Times(u8),
}

/// An open bracket, and what waits for its end.
#[derive(Clone, Copy, Debug, Default, Drop)]
pub struct Open {
    pub bracket: Bracket,
    /// How often the part between the brackets is repeated.
    pub repeat: Repeat,
    /// Whether the sequence around it comes after a comma.
    pub choice: bool,
}

/// What has been read of a picture.
#[derive(Drop)]
pub struct Parser {
    pub code: Vec<Op>,
    pub brackets: ArrayVec<Open, 8>,
    /// Whether the sequence that is read comes after a comma.
    pub choice: bool,
    /// How often the next part is repeated.
    pub repeat: Repeat,
    /// Whether the next character comes after `;`.
    pub quoted: bool,
}

impl Parser {
    /// Makes a parser that has read nothing.
    pub fn new(alloc: Global) -> Result<Parser, AllocError>
        ensures { IfOk result (λ parser. reading parser ≡ nothing_parsed) }
    {
        let mut code = Vec::new(alloc);
        code.push(Op::Empty)?;
        Ok(Parser {
            code,
            brackets: ArrayVec::new(),
            choice: false,
            repeat: Repeat::Once,
            quoted: false,
        })
    }

    fn emit(&mut self, op: Op) -> Result<(), AllocError>
        ensures built { OnOk result (built_by self.new.code.items ≡ with_op (built_by self.old.code.items) op) }
        ensures rest { OnOk result (self.new ≡ record self.old { code = self.new.code }) }
    {
        self.code.push(op)?;
        Ok(())
    }

    /// Moves the part on top of the stack to the end of the sequence.
    fn finish(&mut self) -> Result<(), AllocError>
        ensures { OnOk result (reading self.new ≡ part_finished (reading self.old)) }
    {
        match self.repeat {
            Repeat::Once => {}
            Repeat::Many => self.emit(Op::Many)?,
            Repeat::Times(count) => self.emit(Op::Times(count))?,
        }
        self.emit(Op::Sequence)?;
        self.repeat = Repeat::Once;
        self.quoted = false;
        Ok(())
    }

    fn mark(&mut self, mark: Mark) -> Result<bool, AllocError>
        ensures { IfOk result (λ took. Took (Some (with_single_mark (reading self.old) mark)) took (reading self.new)) }
    {
        self.emit(Op::One(mark))?;
        self.finish()?;
        Ok(true)
    }

    /// Makes one pattern of the alternatives so far.
    fn merge(&mut self) -> Result<(), AllocError>
        ensures built { OnOk result (built_by self.new.code.items ≡ merged self.old.choice (built_by self.old.code.items)) }
        ensures rest { OnOk result (self.new ≡ record self.old { code = self.new.code }) }
    {
        if self.choice {
            self.emit(Op::Either)?;
        }
        Ok(())
    }

    fn open(&mut self, bracket: Bracket) -> Result<bool, AllocError>
        ensures { IfOk result (λ took. Took (bracket_opened (reading self.old) bracket) took (reading self.new)) }
    {
        if self.brackets.is_full() {
            return Ok(false);
        }
        self.emit(Op::Empty)?;
        self.brackets.push(Open {
            bracket,
            repeat: self.repeat,
            choice: self.choice,
        });
        self.choice = false;
        self.repeat = Repeat::Once;
        self.quoted = false;
        Ok(true)
    }

    fn close(&mut self, bracket: Bracket) -> Result<bool, AllocError>
        ensures { IfOk result (λ took. Took (bracket_closed (reading self.old) bracket) took (reading self.new)) }
    {
        if self.repeat != Repeat::Once {
            return Ok(false);
        }
        let Some(open) = self.brackets.pop() else {
            return Ok(false);
        };
        if open.bracket != bracket {
            return Ok(false);
        }
        self.merge()?;
        self.emit(match bracket {
            Bracket::Square => Op::Optional,
            Bracket::Curly => Op::Group,
        })?;
        self.choice = open.choice;
        self.repeat = open.repeat;
        self.finish()?;
        Ok(true)
    }

    fn divide(&mut self) -> Result<bool, AllocError>
        ensures { IfOk result (λ took. Took (divided (reading self.old)) took (reading self.new)) }
    {
        if self.repeat != Repeat::Once {
            return Ok(false);
        }
        self.merge()?;
        self.emit(Op::Empty)?;
        self.choice = true;
        self.quoted = false;
        Ok(true)
    }

    fn star(&mut self) -> bool
        ensures { Took (starred (reading self.old)) result (reading self.new) }
    {
        if self.repeat != Repeat::Once {
            return false;
        }
        self.repeat = Repeat::Many;
        self.quoted = false;
        true
    }

    fn digit(&mut self, digit: u8) -> Result<bool, AllocError>
        requires { digit < 10 }
        ensures { IfOk result (λ took. Took (counted_as (reading self.old) digit (reading self.old).repeat) took (reading self.new)) }
    {
        let count = match self.repeat {
            Repeat::Once => return self.mark(Mark::Literal(char::from(48 + digit))),
            Repeat::Many if digit == 0 => return Ok(false),
            Repeat::Many => digit,
            Repeat::Times(count) if count > 12 || count * 10 + digit > 120 => return Ok(false),
            Repeat::Times(count) => count * 10 + digit,
        };
        self.repeat = Repeat::Times(count);
        self.quoted = false;
        Ok(true)
    }

    /// Reads one character more. Where it has no place in a picture, says false.
    pub fn take(&mut self, ch: char) -> Result<bool, AllocError>
        ensures { IfOk result (λ took. Took (text_step (reading self.old) ch) took (reading self.new)) }
    {
        if self.quoted {
            return self.mark(Mark::Quoted(ch));
        }
        match ch {
            '#' => self.mark(Mark::Digit),
            '?' => self.mark(Mark::Letter),
            '&' => self.mark(Mark::Capital),
            '@' => self.mark(Mark::Any),
            '!' => self.mark(Mark::NotLower),
            ';' => {
                self.quoted = true;
                Ok(true)
            }
            '*' => Ok(self.star()),
            '[' => self.open(Bracket::Square),
            '{' => self.open(Bracket::Curly),
            ']' => self.close(Bracket::Square),
            '}' => self.close(Bracket::Curly),
            ',' => self.divide(),
            '0'..='9' => self.digit((u32::from(ch) - 48) as u8),
            _ => self.mark(Mark::Literal(ch)),
        }
    }

    /// Returns the whole picture's code, or `None` where something is still waited for.
    pub fn into_code(mut self) -> Result<Option<Vec<Op>>, AllocError>
        ensures { IfOk result (λ code. MatchOption code (is_closed (reading self) ≡ false) (λ v.
            (is_closed (reading self) ≡ true) × (built_by v.items ≡ merged self.choice (built_by self.code.items)))) }
    {
        if !self.brackets.is_empty() || self.repeat != Repeat::Once || self.quoted {
            return Ok(None);
        }
        self.merge()?;
        let Parser { code, .. } = self;
        Ok(Some(code))
    }
}
