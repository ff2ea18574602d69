//! How far a description is read, line by line.

ghost use Rattle.std.specs.Prelude.{◌≡◌, ◌+◌, ◌<◌, ◌^◌, IfOk};
ghost use Rattle.std.specs.Option.{option_map};
ghost use Rattle.tv_lang.specs.Reading.Stages.{finished_description, nothing_read, progress, declaration_taken, is_other, is_other_version, position, description_line_taken};

use crate::stage::Stage;
use std::alloc::{AllocError, Global};
use tv_declarations::{Declaration, Position, declared, keywords};
use tv_model::{Desc, Id, Sequence, Version};
use tv_words::Word;

/// A description that is read up to some declaration.
#[derive(Drop)]
pub struct Progress {
    // The line of the next declaration in the canonical text.
    pub next: u32,
    stage: Stage,
    desc: Desc,
}

impl Progress {
    /// Starts with nothing read.
    pub fn new(alloc: Global) -> Progress
        ensures { result ≡ nothing_read }
    {
        Progress {
            next: 1,
            stage: Stage::Version,
            desc: Desc {
                version: Version::One,
                width: 0,
                height: 0,
                start: None,
                menus: Sequence::new(alloc),
                status: Sequence::new(alloc),
                windows: Sequence::new(alloc),
                dialogs: Sequence::new(alloc),
            },
        }
    }

    /// Whether the words are the first declaration, and it is one of another version.
    pub fn is_other_version(&self, words: &[Word]) -> bool
        ensures { result ≡ is_other_version self.now words.now }
    {
        match (&self.stage, words) {
            (Stage::Version, [keyword, version]) => keyword.is(keywords::TVD)
                && is_other(version.number()),
            _ => false,
        }
    }

    /// Takes the declaration that the words spell, or returns `None` where it can't come here.
    pub fn take(self, alloc: Global, words: &[Word]) -> Result<Option<Progress>, AllocError>
        requires { self.next + 1 < 2 ^ 32 }
        ensures { IfOk result (λ further. further ≡ description_line_taken self words.now) }
    {
        let at = self.position();
        match declared(alloc, at, words)? {
            Some(declaration) => self.go(alloc, declaration),
            None => {
                drop(self);
                Ok(None)
            }
        }
    }

    // Where the next declaration stands.
    fn position(&self) -> Position
        ensures { result ≡ position self.now }
    {
        Position {
            id: Id(self.next),
            depth: self.stage.open_panes(),
        }
    }

    // Takes the declaration, which stands on the next line.
    fn go(self, alloc: Global, declaration: Declaration) -> Result<Option<Progress>, AllocError>
        requires { self.next + 1 < 2 ^ 32 }
        ensures { IfOk result (λ further. further
            ≡ option_map (progress (self.next + 1)) (declaration_taken self.stage self.desc declaration)) }
    {
        let Progress {
            next,
            stage,
            mut desc,
        } = self;
        match stage.take(alloc, &mut desc, declaration)? {
            Some(stage) => Ok(Some(Progress {
                next: next + 1,
                stage,
                desc,
            })),
            None => Ok(None),
        }
    }

    fn into_desc(self) -> Desc
        ensures { result ≡ self.desc }
    {
        self.desc
    }

    /// Returns the description, or `None` where it isn't read to its end.
    pub fn finish(self) -> Option<Desc>
        ensures { result ≡ finished_description self }
    {
        if self.stage.is_between() {
            Some(self.into_desc())
        } else {
            None
        }
    }
}

fn is_other(version: Option<i32>) -> bool
    ensures { result ≡ is_other version }
{
    version.is_some_and(|number| number != 1 && number != 2)
}
