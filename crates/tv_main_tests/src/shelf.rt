//! Files in memory.

ghost use Rattle.std.specs.Prelude.{◌≡◌, false};

use std::alloc::Global;
use std::io;
use std::io::{ErrorKind, Read};
use tv_files::{AlbumFault, FileStore, ReadFault};
use tv_io::FileReader;
use tv_test_support::Memory;

/// What is left of a file in memory.
#[derive(Drop)]
pub struct Page<'a> {
    left: &'a [u8],
    /// It breaks off: once all was given, a read fails.
    is_torn: bool,
}

impl Read for Page<'_> {
    ghost use Rattle.std.specs.Prelude.{Some};

    ghost remaining = { λ page. Some page.left.now };

    fn read(&mut self, room: &mut [u8]) -> io::Result<usize> {
        if self.is_torn && self.left.is_empty() {
            return Err(io::Error::from(ErrorKind::Other));
        }
        self.left.read(room)
    }
}

/// A description and the file beside it. No other path has a file, and for that of `FULL` there is no memory.
#[derive(Drop)]
pub struct Shelf<'a> {
    description: &'a str,
    beside: &'a str,
    torn: Option<&'a str>,
    opened: u32,
}

impl<'a> Shelf<'a> {
    /// The path of the description.
    pub const DESCRIPTION: &'static str = "FILE";

    /// The path of the file beside it.
    pub const BESIDE: &'static str = "BESIDE";

    /// Puts up the two files with these texts. None of them was opened.
    pub fn new(description: &'a str, beside: &'a str) -> Shelf<'a> {
        Shelf {
            description,
            beside,
            torn: None,
            opened: 0,
        }
    }

    /// Puts up the two files with these texts, of which that of a path breaks off at its end.
    pub fn torn(description: &'a str, beside: &'a str, path: &'a str) -> Shelf<'a> {
        Shelf {
            description,
            beside,
            torn: Some(path),
            opened: 0,
        }
    }

    /// Returns what was opened, a digit for each call: 1 for the description, 2 for the file beside it, 4 for `FULL`, 3 for any other, and 5 for a file
    /// that was made.
    pub fn opened(&self) -> u32 {
        self.opened
    }

    fn note(&mut self, digit: u32)
        ensures description { self.new.description ≡ self.old.description }
        ensures beside { self.new.beside ≡ self.old.beside }
    {
        self.opened = self.opened.saturating_mul(10).saturating_add(digit);
    }

    // The file of a path, with this text.
    fn page(&self, path: &str, text: &'a str) -> FileReader<Page<'a>>
        ensures left { result.reader.left.now ≡ text.now }
        ensures going { result.is_ended ≡ false }
        ensures unfailed { result.failures ≡ 0 }
    {
        FileReader::new(Page {
            left: text.as_bytes(),
            is_torn: self.torn == Some(path),
        })
    }
}

impl<'a> FileStore for Shelf<'a> {
    ghost use Rattle.std.specs.Prelude.{None, false};
    ghost use Rattle.tv_main_tests.specs.Shelves.{text_at};

    type File = FileReader<Page<'a>>;

    type Made = Memory;

    ghost known = { λ s. record {
      contents = λ path. text_at s.description.now s.beside.now path;
      absent = λ _. false;
      opened = None;
      made = None;
      failures = None;
    } };

    ghost made_at = { λ _ _. Unit {0} };

    fn open(&mut self, path: &str) -> Result<FileReader<Page<'a>>, ReadFault> {
        if path == "FILE" {
            self.note(1);
            Ok(self.page(path, self.description))
        } else if path == "BESIDE" {
            self.note(2);
            Ok(self.page(path, self.beside))
        } else if path == "FULL" {
            self.note(4);
            Err(ReadFault::NoMemory)
        } else {
            self.note(3);
            Err(ReadFault::Read)
        }
    }

    fn make(&mut self, alloc: Global, path: &str) -> Result<Memory, AlbumFault> {
        if path == "NONE" {
            return Err(AlbumFault::Write);
        }
        self.note(5);
        match Memory::ample(alloc) {
            Ok(made) => Ok(made),
            Err(_) => Err(AlbumFault::NoMemory),
        }
    }
}
