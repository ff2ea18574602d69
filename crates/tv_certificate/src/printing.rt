//! The canonical text of a certificate.

ghost use Rattle.std.specs.Prelude.{◌≡◌, [], ◌∷◌, ◌++◌, flat_map, map, IfOk, string_bytes};
ghost use Rattle.tv_words.specs.Canonical.{canonical_text, ended_line};
ghost use Rattle.tv_certificate.specs.CertificateTexts.{block_lines, certificate_lines, end_words, item_words, key_words, IsSpelledCertificate, SpellsCertificateOnly, tab_words, version_words, when_words};

use crate::certificate::{Block, Certificate, KeyLine};
use crate::version::version_number;
use std::alloc::{AllocError, Global};
use tv_lang::Line;
use tv_model::{Version, When};
use tv_valid::Chars;
use tv_words::Word;

// Adds a line of a keyword and a name to the text.
fn with_name(alloc: Global, text: String, kind: &[u8], name: &Chars) -> Result<String, AllocError>
    ensures { IfOk result (λ longer. string_bytes longer ≡ string_bytes text ++ ended_line (Word.Bare kind.now ∷ Word.Bare name.now ∷ [])) }
{
    Line::new(alloc).keyword(kind)?.name(name)?.write(text)
}

fn letter_word(alloc: Global, letter: char) -> Result<Word, AllocError>
    ensures { IfOk result (λ word. word ≡ Word.Bare (letter ∷ [])) }
{
    let mut chars = Chars::new(alloc);
    chars.push(letter)?;
    Ok(Word::Bare(chars))
}

// Adds the number of the item, where there is one.
fn with_item(line: Line<'_>, item: Option<i32>) -> Result<Line<'_>, AllocError>
    ensures { IfOk result (λ words. words ≡ line.entry ++ item_words item) }
{
    match item {
        Some(item) => line.number(item),
        None => Ok(line),
    }
}

// Adds the words of the item of radio buttons, where there is one.
fn with_when<'a>(line: Line<'a>, shown: &'a Option<When>) -> Result<Line<'a>, AllocError>
    ensures { IfOk result (λ words. words ≡ line.entry ++ when_words shown.now) }
{
    match shown {
        Some(shown) => line
            .keyword(b"when")?
            .name(&shown.radios)?
            .number(shown.item),
        None => Ok(line),
    }
}

fn key_line(alloc: Global, line: &KeyLine) -> Result<Line<'_>, AllocError>
    ensures { IfOk result (λ words. words ≡ key_words line.now) }
{
    let words = Line::new(alloc)
        .keyword(b"key")?
        .word(letter_word(alloc, line.letter)?)?
        .name(&line.owner)?;
    with_when(with_item(words, line.item)?, &line.when)
}

fn with_tabs(alloc: Global, mut text: String, block: &Block) -> Result<String, AllocError>
    ensures { IfOk result (λ longer. string_bytes longer ≡ string_bytes text ++ canonical_text (map tab_words block.now.tabs)) }
{
    for name in block.tabs.as_slice() {
        text = with_name(alloc, text, b"tab", name)?;
    }
    Ok(text)
}

fn with_keys(alloc: Global, mut text: String, block: &Block) -> Result<String, AllocError>
    ensures { IfOk result (λ longer. string_bytes longer ≡ string_bytes text ++ canonical_text (map key_words block.now.keys)) }
{
    for line in block.keys.as_slice() {
        text = key_line(alloc, line)?.write(text)?;
    }
    Ok(text)
}

fn with_block(alloc: Global, text: String, block: &Block) -> Result<String, AllocError>
    ensures { IfOk result (λ longer. string_bytes longer ≡ string_bytes text ++ canonical_text (block_lines block.now)) }
{
    let named = with_name(alloc, text, b"dialog", &block.dialog)?;
    let tabbed = with_tabs(alloc, named, block)?;
    let keyed = with_keys(alloc, tabbed, block)?;
    with_end(alloc, keyed)
}

fn with_end(alloc: Global, text: String) -> Result<String, AllocError>
    ensures { IfOk result (λ longer. string_bytes longer ≡ string_bytes text ++ ended_line end_words) }
{
    Line::new(alloc).keyword(b"end")?.write(text)
}

fn with_blocks(alloc: Global, mut text: String, blocks: &[Block]) -> Result<String, AllocError>
    ensures { IfOk result (λ longer. string_bytes longer
        ≡ string_bytes text ++ flat_map (λ block. canonical_text (block_lines block)) blocks.now) }
{
    for block in blocks {
        text = with_block(alloc, text, block)?;
    }
    Ok(text)
}

fn version_line(alloc: Global, version: Version) -> Result<String, AllocError>
    ensures { IfOk result (λ text. string_bytes text ≡ ended_line (version_words version)) }
{
    let line = Line::new(alloc)
        .keyword(b"tvcert")?
        .keyword(version_number(version))?;
    line.write(String::new(alloc))
}

fn canonical(alloc: Global, version: Version, blocks: &[Block]) -> Result<String, AllocError>
    ensures { IfOk result (λ printed. string_bytes printed ≡ canonical_text (version_words version ∷ flat_map block_lines blocks.now)) }
{
    let text = version_line(alloc, version)?;
    with_blocks(alloc, text, blocks)
}

impl Certificate {
    /// Writes the canonical text: each line with one space between its words and a line end after it.
    pub fn print(&self, alloc: Global) -> Result<String, AllocError>
        ensures text { IfOk result (λ printed. string_bytes printed ≡ canonical_text (certificate_lines self.now)) }
        ensures spelled { IfOk result (λ printed. IsSpelledCertificate self.now → SpellsCertificateOnly (string_bytes printed) self.now) }
    {
        canonical(alloc, self.version, self.blocks.as_slice())
    }
}
