//! The canonical text of a description.

ghost use Rattle.std.specs.Prelude.{◌≡◌, ◌∷◌, ◌++◌, [], flat_map, map, string_bytes, IfOk};
ghost use Rattle.tv_words.specs.Canonical.{canonical_text};
ghost use Rattle.tv_declarations.specs.CanonicalDescription.{declarations_text, description_text};
ghost use Rattle.tv_declarations.specs.Spelling.{menu_declarations, start_declarations};

use crate::line::Line;
use std::alloc::{AllocError, Global};
use std::marker::Model;
use tv_declarations::{Declaration, keywords};
use tv_model::{Desc, Menu, MenuItem, StatusItem, Version};
use tv_valid::Chars;

/// Writes the canonical text of a description: each declaration on a line, one space between words, no comments.
#[tactic(auto, using(crate::proofs::PrintTextLemmas::texts_joined))]
pub fn description_text(alloc: Global, desc: &Desc) -> Result<String, AllocError>
    ensures { IfOk result (λ text. string_bytes text ≡ description_text desc.now) }
{
    let printer = Printer::new(alloc)
        .heading(desc)?
        .menus(desc.menus.as_slice())?
        .status(desc.status.as_slice())?
        .windows(desc.windows.as_slice())?
        .dialogs(desc.dialogs.as_slice())?;
    Ok(printer.text)
}

/// The text so far. Contracts see its bytes.
#[derive(Drop)]
pub struct Printer {
    pub alloc: Global,
    text: String,
}

impl Model for Printer {
    ghost use Rattle.std.specs.Prelude.{List, ℕ, string_bytes};

    ghost Value = { List ℕ };

    ghost view = { λ p. string_bytes p.text };
}

impl Printer {
    fn new(alloc: Global) -> Printer
        ensures { result ≡ [] }
    {
        Printer {
            alloc,
            text: String::new(alloc),
        }
    }

    /// Adds a line to the text.
    pub fn line(self, line: &Line<'_>) -> Result<Printer, AllocError>
        ensures { IfOk result (λ printer. printer ≡ self ++ canonical_text (line.now ∷ [])) }
    {
        let Printer { alloc, text } = self;
        let text = line.write(text)?;
        Ok(Printer { alloc, text })
    }

    /// Adds the line that ends a menu, a window, a dialog or a pane.
    pub fn end(self) -> Result<Printer, AllocError>
        ensures { IfOk result (λ printer. printer ≡ self ++ declarations_text (Declaration.End ∷ [])) }
    {
        let line = Line::new(self.alloc).keyword(keywords::END)?;
        self.line(&line)
    }

    #[tactic(auto, using(crate::proofs::PrintTextLemmas::texts_joined))]
    fn heading(self, desc: &Desc) -> Result<Printer, AllocError>
        ensures { IfOk result (λ printer. printer
            ≡ self ++ declarations_text (Declaration.Version desc.now.version
            ∷ Declaration.Screen desc.now.width desc.now.height ∷ start_declarations desc.now.start)) }
    {
        self.version(desc.version)?.screen(desc)?.start(&desc.start)
    }

    fn version(self, version: Version) -> Result<Printer, AllocError>
        ensures { IfOk result (λ printer. printer ≡ self ++ declarations_text (Declaration.Version version ∷ [])) }
    {
        let number = match version {
            Version::One => b"1",
            Version::Two => b"2",
        };
        let line = Line::new(self.alloc)
            .keyword(keywords::TVD)?
            .keyword(number)?;
        self.line(&line)
    }

    fn screen(self, desc: &Desc) -> Result<Printer, AllocError>
        ensures { IfOk result (λ printer. printer ≡ self ++ declarations_text (Declaration.Screen desc.now.width desc.now.height ∷ [])) }
    {
        let line = Line::new(self.alloc)
            .keyword(keywords::SCREEN)?
            .number(desc.width)?
            .number(desc.height)?;
        self.line(&line)
    }

    fn start(self, start: &Option<Chars>) -> Result<Printer, AllocError>
        ensures { IfOk result (λ printer. printer ≡ self ++ declarations_text (start_declarations start.now)) }
    {
        match start {
            None => Ok(self),
            Some(name) => {
                let line = Line::new(self.alloc).keyword(keywords::START)?.name(name)?;
                self.line(&line)
            }
        }
    }

    #[tactic(auto, using(crate::proofs::PrintTextLemmas::texts_joined))]
    fn menus(mut self, menus: &[Menu]) -> Result<Printer, AllocError>
        ensures { IfOk result (λ printer. printer ≡ self ++ declarations_text (flat_map menu_declarations menus.now)) }
    {
        for menu in menus {
            self = self.menu(menu)?;
        }
        Ok(self)
    }

    #[tactic(auto, using(crate::proofs::PrintTextLemmas::texts_joined))]
    fn menu(self, menu: &Menu) -> Result<Printer, AllocError>
        ensures { IfOk result (λ printer. printer ≡ self ++ declarations_text (menu_declarations menu.now)) }
    {
        self.title(menu)?.items(menu.items.as_slice())?.end()
    }

    fn title(self, menu: &Menu) -> Result<Printer, AllocError>
        ensures { IfOk result (λ printer. printer ≡ self ++ declarations_text (Declaration.Menu menu.now.id menu.now.title ∷ [])) }
    {
        let line = Line::new(self.alloc)
            .keyword(keywords::MENU)?
            .marked(&menu.title)?;
        self.line(&line)
    }

    fn items(mut self, items: &[MenuItem]) -> Result<Printer, AllocError>
        ensures { IfOk result (λ printer. printer ≡ self ++ declarations_text (map (λ item. Declaration.Item item) items.now)) }
    {
        for item in items {
            self = self.item(item)?;
        }
        Ok(self)
    }

    fn item(self, item: &MenuItem) -> Result<Printer, AllocError>
        ensures { IfOk result (λ printer. printer ≡ self ++ declarations_text (Declaration.Item item.now ∷ [])) }
    {
        let line = Line::new(self.alloc)
            .keyword(keywords::ITEM)?
            .marked(&item.text)?
            .command(item.command)?;
        self.line(&line)
    }

    fn status(mut self, items: &[StatusItem]) -> Result<Printer, AllocError>
        ensures { IfOk result (λ printer. printer ≡ self ++ declarations_text (map (λ item. Declaration.Status item) items.now)) }
    {
        for item in items {
            self = self.status_item(item)?;
        }
        Ok(self)
    }

    fn status_item(self, item: &StatusItem) -> Result<Printer, AllocError>
        ensures { IfOk result (λ printer. printer ≡ self ++ declarations_text (Declaration.Status item.now ∷ [])) }
    {
        let line = Line::new(self.alloc)
            .keyword(keywords::STATUS)?
            .text(&item.text)?
            .key(item.key)?
            .command(item.command)?;
        self.line(&line)
    }
}
