//! A parsed picture.

ghost use Rattle.std.specs.Prelude.{◌≡◌, ◌≢◌, ◌≤◌, ◌++◌, ℕ, List, [], length, take, chars, Contains, Some, IfSome, IfNone, IfOk, IfErr, MatchResult};
ghost use Rattle.tv_picture.specs.Pattern.{Pattern, IsMember, Begins, IsStatus, IsNextLiteral, IsShortest};
ghost use Rattle.tv_picture.specs.Spelling.{spelled, IsPicture, RefusesPicture};
ghost use Rattle.tv_picture.specs.Parsing.{picture_of};
ghost use Rattle.tv_picture.specs.Matching.{match_status, next_literal_of, shortest_length};
ghost use Rattle.tv_picture.specs.Table.{IsTableRow};

use crate::code::Op;
use crate::fault::PictureFault;
use crate::parser::Parser;
use crate::parts::read_parts;
use crate::reading::read;
use crate::row::{Next, Row};
use crate::shortest::shortest;
use std::alloc::{AllocError, Global};
use std::marker::Model;

/// What a text is to a picture.
#[derive(Clone, Copy, Debug, PartialEq, Eq)]
pub enum Status {
    /// The text is right as it stands.
    Complete,
    /// More has to be typed after it.
    Viable,
    /// Nothing typed after it makes it right.
    Error,
}

/// A picture, which says what texts are right. Contracts see its pattern.
#[derive(Debug, Drop)]
pub struct Picture {
    code: Vec<Op>,
}

impl Model for Picture {
    ghost use Rattle.std.specs.Prelude.{◌≡◌, Some};
    ghost use Rattle.std.specs.Coded.{code_by, coded_list};
    ghost use Rattle.tv_picture.specs.contracts.code.Op as op;
    ghost use Rattle.tv_picture.specs.Pattern.{Pattern};
    ghost use Rattle.tv_picture.specs.Code.{pattern_of, code_of, height_from};
    ghost use Rattle.tv_picture.specs.Code.{pattern_of-code_of};

    ghost Value = { Pattern };

    ghost coded = { code_by _ (coded_list op.the_row.coded) code_of pattern_of pattern_of-code_of };

    ghost view = { λ p. pattern_of p.code.items };

    ghost invariant = { λ p. height_from 0 p.code.items ≡ Some 1 };
}

fn characters(alloc: Global, text: &str) -> Result<Vec<char>, AllocError>
    ensures { IfOk result (λ v. v.items ≡ chars text.now) }
{
    text.chars().collect(alloc)
}

impl Picture {
    /// Reads a picture.
    pub fn parse(alloc: Global, text: &str) -> Result<Picture, PictureFault>
        ensures ok { IfOk result (λ p. IsPicture p × (spelled p ≡ chars text.now)) }
        ensures err { IfErr result (λ fault. RefusesPicture (chars text.now) fault) }
        ensures only { (p : Pattern) → IsPicture p → spelled p ≡ chars text.now
            → MatchResult result (λ q. q ≡ p) (λ fault. fault ≡ PictureFault.NoMemory) }
        ensures computed { IfOk result (λ p. picture_of (chars text.now) ≡ Some p) }
    {
        let text = characters(alloc, text)?;
        Picture::from_chars(alloc, &text)
    }

    /// Reads a picture from its characters.
    pub fn from_chars(alloc: Global, text: &[char]) -> Result<Picture, PictureFault>
        ensures ok { IfOk result (λ p. IsPicture p × (spelled p ≡ text.now)) }
        ensures err { IfErr result (λ fault. RefusesPicture text.now fault) }
        ensures only { (p : Pattern) → IsPicture p → spelled p ≡ text.now
            → MatchResult result (λ q. q ≡ p) (λ fault. fault ≡ PictureFault.NoMemory) }
        ensures computed { IfOk result (λ p. picture_of text.now ≡ Some p) }
    {
        let mut parser = Parser::new(alloc)?;
        for (place, ch) in text.iter().enumerate() {
            let took = parser.take(*ch)?;
            if !took {
                return Err(PictureFault::Syntax(place));
            }
        }
        match parser.into_code()? {
            Some(code) => Ok(Picture { code }),
            None => Err(PictureFault::Syntax(text.len())),
        }
    }

    /// Finds where the picture's members that begin the text end in it, and what may follow the text.
    fn row(&self, text: &[char]) -> Row
        requires { length text.now ≤ 120 }
        ensures { IsTableRow self.now text.now 0 result }
    {
        match read_parts(&self.code, text) {
            Some(row) => row,
            None => read(&self.code, text),
        }
    }

    /// Tells what the text is to the picture. A viable text can be completed by typing on, and a text that is no error is typed
    /// through viable and complete ones alone.
    ///
    /// Takes no memory, and a time that the square of the text's length and the length of the picture bound.
    pub fn status(&self, text: &[char]) -> Status
        requires { length text.now ≤ 120 }
        ensures status { IsStatus self.now text.now result }
        ensures completed { result ≡ Status.Viable → (more : List ℕ) × (more ≢ []) × IsMember self.now (text.now ++ more) }
        ensures beginnings { result ≢ Status.Error → (k : ℕ) → Begins self.now (take k text.now) }
        ensures computed { result ≡ match_status self.now text.now }
    {
        let row = self.row(text);
        if row.ends.has(text.len()) {
            return Status::Complete;
        }
        match row.next {
            Next::Nothing => Status::Error,
            _ => Status::Viable,
        }
    }

    /// Returns the only character with which the text can go on, where it has to. It stands in the picture.
    pub fn next_literal(&self, text: &[char]) -> Option<char>
        requires { length text.now ≤ 120 }
        ensures some { IfSome result (λ c. IsNextLiteral self.now text.now c) }
        ensures none { IfNone result ((c : ℕ) → IsNextLiteral self.now text.now c → ⊥) }
        ensures literal { IfSome result (λ c. Contains (spelled self.now) c) }
        ensures computed { result ≡ next_literal_of self.now text.now }
    {
        let row = self.row(text);
        if text.len() == 120 || row.ends.has(text.len()) {
            return None;
        }
        match row.next {
            Next::Only(ch) => Some(ch),
            _ => None,
        }
    }

    /// Returns the length of the shortest right text whose characters all take one column, or 121 where none has 120 characters
    /// or fewer.
    pub fn shortest(&self) -> u32
        ensures shortest { IsShortest self.now result }
        ensures computed { result ≡ shortest_length self.now }
    {
        shortest(&self.code)
    }
}
