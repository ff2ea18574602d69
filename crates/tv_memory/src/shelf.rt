//! Files in memory.

ghost use Rattle.std.specs.Prelude.{◌≡◌, Err};
ghost use Rattle.tv_files.specs.Files.{MakesAs};
ghost use Rattle.tv_memory.specs.Shelves.{files_of};
ghost use Rattle.tv_program.specs.declared.album.AlbumFault.TheVariants.{Write};

use std::alloc::Global;
use tv_files::{AlbumFault, FileStore, ReadFault};
use tv_io::{FileReader, Gathering};

/// A text, and the path under which it is found.
#[derive(Clone, Copy)]
pub struct NamedText<'a> {
    pub name: &'a [u8],
    pub text: &'a [u8],
}

/// Two files. Where both have one path, the first is found there; at an empty path, and at any other, there is none. None can be
/// made.
#[derive(Drop)]
pub struct Shelf<'a> {
    first: NamedText<'a>,
    second: NamedText<'a>,
}

impl<'a> Shelf<'a> {
    /// Puts up the two files.
    pub fn new(first: NamedText<'a>, second: NamedText<'a>) -> Shelf<'a>
        ensures first { result.first ≡ first.entry }
        ensures second { result.second ≡ second.entry }
    {
        Shelf { first, second }
    }
}

impl<'a> FileStore for Shelf<'a> {
    type File = FileReader<&'a [u8]>;

    type Made = Gathering;

    ghost known = { λ shelf. files_of shelf.first.name.now shelf.first.text.now shelf.second.name.now shelf.second.text.now };

    ghost made_at = { λ _ _. ⊥ };

    fn open(&mut self, path: &str) -> Result<FileReader<&'a [u8]>, ReadFault> {
        let path = path.as_bytes();
        if path.is_empty() {
            Err(ReadFault::Read)
        } else if path == self.first.name {
            Ok(FileReader::new(self.first.text))
        } else if path == self.second.name {
            Ok(FileReader::new(self.second.text))
        } else {
            Err(ReadFault::Read)
        }
    }

    // The first clause is that of the trait, which doesn't stand beside one of its own.
    fn make(&mut self, _alloc: Global, _path: &str) -> Result<Gathering, AlbumFault>
        ensures made { MakesAs (λ _ _. ⊥) (files_of self.old.first.name.now self.old.first.text.now self.old.second.name.now self.old.second.text.now)
            (files_of self.new.first.name.now self.new.first.text.now self.new.second.name.now self.new.second.text.now) _path.now result }
        ensures unmade { result ≡ Err Write }
    {
        Err(AlbumFault::Write)
    }
}
