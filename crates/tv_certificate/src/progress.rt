//! How far a certificate is read, declaration by declaration.

ghost use Rattle.std.specs.Prelude.{◌≡◌, IfOk, Some, option_copied, option_map};
ghost use Rattle.tv_model.specs.declared.desc.Version.TheVariants.{Two};
ghost use Rattle.tv_certificate.specs.CertificateReading.{begun, dialog_taken, finished_certificate, is_block_end, key_item_in, key_line_read, key_taken, key_when_in, letter_in, named_in, one_letter, tab_taken, certificate_line_taken, block_line_taken, when_in};
ghost use Rattle.tv_certificate.specs.CertificateTexts.{is_above, is_letter, may_follow};

use crate::alphabet::letters;
use crate::certificate::{Block, Certificate, KeyLine};
use crate::version::version_in;
use std::alloc::{AllocError, Global};
use tv_model::{Sequence, Version, When};
use tv_valid::Chars;
use tv_words::Word;

/// A certificate that is read up to some declaration.
#[derive(Drop)]
pub enum Progress {
    /// Nothing is read.
    Fresh,
    /// The first line is read: the certificate with the blocks that have ended, and what may come next.
    Begun(Certificate, Stage),
}

/// Which declarations may come after the first line.
#[derive(Drop)]
pub enum Stage {
    Between,
    /// The tab lines of this dialog so far, and no key line.
    Tabs(Chars, Sequence<Chars>),
    /// A block with its tab lines and at least one key line.
    Keys(Block),
}

impl Progress {
    /// Takes the declaration that the words spell, or returns `None` where it can't come here.
    pub fn take(self, alloc: Global, words: &[Word]) -> Result<Option<Progress>, AllocError>
        ensures { IfOk result (λ further. further ≡ certificate_line_taken self words.now) }
    {
        match self {
            Progress::Fresh => Ok(version_in(words).map(|version| begun(alloc, version))),
            Progress::Begun(read, stage) => further(alloc, read, stage, words),
        }
    }

    /// Returns the certificate, or `None` where it isn't read to its end.
    pub fn finish(self) -> Option<Certificate>
        ensures { result ≡ finished_certificate self }
    {
        match self {
            Progress::Begun(certificate, Stage::Between) => Some(certificate),
            _ => None,
        }
    }
}

// A certificate of which the first line is read.
fn begun(alloc: Global, version: Version) -> Progress
    ensures { result ≡ begun version }
{
    let blocks = Sequence::new(alloc);
    Progress::Begun(Certificate { version, blocks }, Stage::Between)
}

// Takes a declaration after the first line.
fn further(
    alloc: Global,
    read: Certificate,
    stage: Stage,
    words: &[Word],
) -> Result<Option<Progress>, AllocError>
    ensures { IfOk result (λ further. further ≡ block_line_taken read stage words.now) }
{
    match stage {
        Stage::Between => dialog(alloc, read, words),
        Stage::Tabs(dialog, tabs) => tab(alloc, read, dialog, tabs, words),
        Stage::Keys(block) => key(alloc, read, block, words),
    }
}

// The name in a line of this keyword and a name.
fn named<'a>(keyword: &[u8], words: &'a [Word]) -> Option<&'a Chars>
    ensures { option_copied result ≡ named_in keyword.now words.now }
{
    match words {
        [first, name] if first.is(keyword) => name.name(),
        _ => None,
    }
}

fn dialog(alloc: Global, read: Certificate, words: &[Word]) -> Result<Option<Progress>, AllocError>
    ensures { IfOk result (λ further. further ≡ dialog_taken read words.now) }
{
    let Some(name) = named(b"dialog", words) else {
        return Ok(None);
    };
    let stage = Stage::Tabs(name.copy(alloc)?, Sequence::new(alloc));
    Ok(Some(Progress::Begun(read, stage)))
}

fn tab(
    alloc: Global,
    read: Certificate,
    dialog: Chars,
    mut tabs: Sequence<Chars>,
    words: &[Word],
) -> Result<Option<Progress>, AllocError>
    ensures { IfOk result (λ further. further ≡ tab_taken read dialog tabs words.now) }
{
    if let Some(name) = named(b"tab", words) {
        tabs.push(name.copy(alloc)?)?;
        let stage = Stage::Tabs(dialog, tabs);
        return Ok(Some(Progress::Begun(read, stage)));
    }
    if tabs.as_slice().is_empty() {
        return Ok(None);
    }
    let keys = Sequence::new(alloc);
    key(alloc, read, Block { dialog, tabs, keys }, words)
}

fn is_end(words: &[Word]) -> bool
    ensures { result ≡ is_block_end words.now }
{
    match words {
        [keyword] => keyword.is(b"end"),
        _ => false,
    }
}

fn key(
    alloc: Global,
    mut read: Certificate,
    mut block: Block,
    words: &[Word],
) -> Result<Option<Progress>, AllocError>
    ensures { IfOk result (λ further. further ≡ key_taken read block words.now) }
{
    if is_end(words) {
        read.blocks.push(block)?;
        return Ok(Some(Progress::Begun(read, Stage::Between)));
    }
    let Some(line) = key_line(alloc, read.version, words)? else {
        return Ok(None);
    };
    if !is_above(read.version, block.keys.as_slice(), &line) {
        return Ok(None);
    }
    block.keys.push(line)?;
    Ok(Some(Progress::Begun(read, Stage::Keys(block))))
}

fn key_line(alloc: Global, version: Version, words: &[Word]) -> Result<Option<KeyLine>, AllocError>
    ensures { IfOk result (λ line. line ≡ key_line_read version words.now) }
{
    let [keyword, letter, owner, rest @ ..] = words else {
        return Ok(None);
    };
    if !keyword.is(b"key") {
        return Ok(None);
    }
    let shown = key_when_in(alloc, version, rest)?;
    match (letter_in(letter), owner.name(), item_in(rest), shown) {
        (Some(letter), Some(owner), Some(item), Some(when)) => Ok(Some(KeyLine {
            letter,
            owner: owner.copy(alloc)?,
            item,
            when,
        })),
        _ => Ok(None),
    }
}

fn is_letter(ch: char) -> bool
    ensures { result ≡ is_letter ch }
{
    letters().iter().any(|letter| *letter == ch)
}

fn one_letter(text: &[char]) -> Option<char>
    ensures { result ≡ one_letter text.now }
{
    match text {
        [ch] if is_letter(*ch) => Some(*ch),
        _ => None,
    }
}

fn letter_in(word: &Word) -> Option<char>
    ensures { result ≡ letter_in word.now }
{
    match word {
        Word::Bare(text) => one_letter(text.as_slice()),
        Word::Quoted(_) => None,
    }
}

// The number after the owner of a key line, where there is one.
fn item_in(words: &[Word]) -> Option<Option<i32>>
    ensures { result ≡ key_item_in words.now }
{
    match words {
        [] => Some(None),
        [word] => Some(Some(word.number()?)),
        [_, _, _] => Some(None),
        [word, _, _, _] => Some(Some(word.number()?)),
        _ => None,
    }
}

// The item of radio buttons that three words name in version 2.
fn when_of(
    alloc: Global,
    keyword: &Word,
    radios: &Word,
    number: &Word,
) -> Result<Option<When>, AllocError>
    ensures { IfOk result (λ shown. shown ≡ when_in Two keyword.now radios.now number.now) }
{
    if !keyword.is(b"when") {
        return Ok(None);
    }
    match (radios.name(), number.number()) {
        (Some(radios), Some(item)) => Ok(Some(When {
            radios: radios.copy(alloc)?,
            item,
        })),
        _ => Ok(None),
    }
}

// The same in any version: in version 1 no words name one.
fn when_in(
    alloc: Global,
    version: Version,
    keyword: &Word,
    radios: &Word,
    number: &Word,
) -> Result<Option<When>, AllocError>
    ensures { IfOk result (λ shown. shown ≡ when_in version keyword.now radios.now number.now) }
{
    match version {
        Version::One => Ok(None),
        Version::Two => when_of(alloc, keyword, radios, number),
    }
}

// What the three words at the end of a key line name.
fn last_three(
    alloc: Global,
    version: Version,
    keyword: &Word,
    radios: &Word,
    number: &Word,
) -> Result<Option<Option<When>>, AllocError>
    ensures { IfOk result (λ shown. shown ≡ option_map (λ one. Some one) (when_in version keyword.now radios.now number.now)) }
{
    match when_in(alloc, version, keyword, radios, number)? {
        Some(shown) => Ok(Some(Some(shown))),
        None => Ok(None),
    }
}

// The item of radio buttons at the end of a key line, where there is one.
fn key_when_in(
    alloc: Global,
    version: Version,
    words: &[Word],
) -> Result<Option<Option<When>>, AllocError>
    ensures { IfOk result (λ shown. shown ≡ key_when_in version words.now) }
{
    match words {
        [] => Ok(Some(None)),
        [_] => Ok(Some(None)),
        [keyword, radios, number] => last_three(alloc, version, keyword, radios, number),
        [_, keyword, radios, number] => last_three(alloc, version, keyword, radios, number),
        _ => Ok(None),
    }
}

// Whether a line of the second letter may come after one of the first.
fn may_follow(version: Version, earlier: char, later: char) -> bool
    ensures { result ≡ may_follow version earlier later }
{
    match version {
        Version::One => earlier < later,
        Version::Two => earlier <= later,
    }
}

// Whether the line may come after those before it.
fn is_above(version: Version, before: &[KeyLine], line: &KeyLine) -> bool
    ensures { result ≡ is_above version before.now line.now }
{
    before
        .iter()
        .all(|earlier| may_follow(version, earlier.letter, line.letter))
}
