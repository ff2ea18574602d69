//! Pictures in memory.

ghost use Rattle.std.specs.Prelude.{Some, []};
ghost use Rattle.tv_main_tests.specs.Galleries.{GainsExhibit};

use std::alloc::{AllocError, Global};
use tv_cells::Screen;
use tv_files::{Album, AlbumFault};
use tv_io::{WriteFailed, Writer};
use tv_terminal::write_svg;

/// A text that is written.
#[derive(Drop)]
struct Page {
    text: Vec<u8>,
    failures: u64,
}

impl Writer for Page {
    ghost seen = { λ page. record { taken = Some page.text.items; kept = []; failures = page.failures } };

    fn write(&mut self, bytes: &[u8]) -> Option<usize> {
        if self.text.extend_from_slice(bytes).is_err() {
            self.failures = self.failures.saturating_add(1);
            return None;
        }
        Some(bytes.len())
    }

    fn pass_on(&mut self) -> Result<(), WriteFailed> {
        Ok(())
    }
}

/// A picture and its name.
#[derive(Drop)]
struct Exhibit {
    name: String,
    text: Vec<u8>,
}

/// Pictures, each behind those before it, as far as there is room.
#[derive(Drop)]
pub struct Gallery {
    alloc: Global,
    hung: Vec<Exhibit>,
    /// For so many pictures in all.
    room: usize,
    /// How many there was no room for.
    failures: u64,
}

impl Gallery {
    /// With room for so many pictures.
    pub fn new(alloc: Global, room: usize) -> Gallery {
        Gallery {
            alloc,
            hung: Vec::new(alloc),
            room,
            failures: 0,
        }
    }

    /// Returns what hangs there: of each picture its name on a line, and its text.
    pub fn shown(&self) -> Result<String, AllocError> {
        let mut shown = String::new(self.alloc);
        for picture in &self.hung {
            shown.push_str(picture.name.as_str())?;
            shown.push('\n')?;
            shown.push_str(str::from_utf8(picture.text.as_slice()).unwrap_or("no text"))?;
        }
        Ok(shown)
    }
}

// Hangs a picture behind the others.
fn hang(hung: &mut Vec<Exhibit>, picture: Exhibit) -> Result<(), AlbumFault>
    ensures { GainsExhibit hung.old.items hung.new.items picture result }
{
    match hung.push(picture) {
        Ok(()) => Ok(()),
        Err(_) => Err(AlbumFault::NoMemory),
    }
}

impl Album for Gallery {
    ghost use Rattle.std.specs.Prelude.{map, string_bytes};
    ghost use Rattle.tv_program.specs.Albums.{drawn_as};

    ghost hung = { λ gallery. Some (record {
      pictures = map (λ picture. drawn_as (string_bytes picture.name) picture.text.items) gallery.hung.items;
      failures = gallery.failures;
    }) };

    fn add(&mut self, name: &str, screen: &Screen) -> Result<(), AlbumFault> {
        if self.hung.len() >= self.room {
            self.failures = self.failures.saturating_add(1);
            return Err(AlbumFault::Write);
        }
        let mut page = Page {
            text: Vec::new(self.alloc),
            failures: 0,
        };
        if write_svg(screen, &mut page).is_err() {
            return Err(AlbumFault::NoMemory);
        }
        let Ok(name) = String::from_str(self.alloc, name) else {
            return Err(AlbumFault::NoMemory);
        };
        let text = page.text;
        hang(&mut self.hung, Exhibit { name, text })
    }
}
