//! The texts that an input takes.

ghost use Rattle.std.specs.Prelude.{◌≡◌, ◌↔◌, ◌<◌, ◌≤◌, ◌≤ℤ◌, ◌<ℤ◌, pos, insert, take, ℕ, length, All, Contains, IsTrue, Some, IfSome, IfNone, IfOk, IfErr};
ghost use Rattle.tv_valid.specs.Domain.{IsDomain, IsKind, RefusesKind, HasText, InDomain, IsViableText, IsTyped, IsChosen, IsFilledTo, other_case, InKind, MayBecome, HasRoomIn, FitsIn, IsNarrowKind, RefusesDomain};
ghost use Rattle.tv_valid.specs.Asking.{domain_of};
ghost use Rattle.tv_valid.specs.Deciding.{in_domain, viable, has_text};
ghost use Rattle.tv_valid.specs.Typing.{typed_of};
ghost use Rattle.tv_cells.specs.Glyph.{IsNarrow};
ghost use Rattle.tv_picture.specs.Pattern.{Begins};
ghost use Rattle.tv_picture.specs.Spelling.{spelled};

use crate::chars::Chars;
use crate::input::{DomainSpec, InputSpec};
use crate::range;
use crate::text::Text;
use std::alloc::{AllocError, Global};
use thiserror::Error;
use tv_picture::{Picture, PictureFault, Status};
use unicode_width::UnicodeWidthChar;

/// Which texts lie in a domain. Its picture is read already.
#[derive(Debug, Drop)]
pub enum Kind {
    Any,
    Filter(Chars),
    Range { least: i32, greatest: i32 },
    Picture(Picture),
}

/// Why an input has no domain.
#[derive(Clone, Copy, Debug, PartialEq, Eq, Error)]
pub enum DomainFault {
    #[error("out of memory")]
    NoMemory,
    /// The picture is wrong after so many characters.
    #[error("not a picture after {0} characters")]
    BadPicture(usize),
    /// No text lies in the domain.
    #[error("no text lies in the domain")]
    Empty,
}

impl From<PictureFault> for DomainFault {
    ghost use Rattle.std.specs.Prelude.{◌≡◌};
    ghost use Rattle.tv_valid.specs.Domain.{picture_fault};

    ghost from_gives = { λ fault e. e ≡ picture_fault fault };

    fn from(fault: PictureFault) -> DomainFault {
        match fault {
            PictureFault::NoMemory => DomainFault::NoMemory,
            PictureFault::Syntax(place) => DomainFault::BadPicture(place),
        }
    }
}

impl From<AllocError> for DomainFault {
    ghost use Rattle.std.specs.Prelude.{◌≡◌};
    ghost use Rattle.tv_valid.specs.declared.domain.DomainFault.TheVariants.{NoMemory};

    ghost from_gives = { λ _ e. e ≡ NoMemory };

    fn from(_error: AllocError) -> DomainFault {
        DomainFault::NoMemory
    }
}

/// What an input takes as its text.
#[derive(Debug, Drop)]
pub struct Domain {
    max: i32,
    kind: Kind,
    optional: bool,
    fill: bool,
}

impl Kind {
    /// Reads the picture, and copies what else the description has.
    fn new(alloc: Global, spec: &DomainSpec) -> Result<Kind, DomainFault>
        ensures ok { IfOk result (λ kind. IsKind spec.now kind) }
        ensures only { IfOk result (λ kind. (other : Kind) → IsKind spec.now other → other ≡ kind) }
        ensures err { IfErr result (λ fault. RefusesKind spec.now fault) }
    {
        Ok(match spec {
            DomainSpec::Any => Kind::Any,
            DomainSpec::Filter(set) => Kind::Filter(set.copy(alloc)?),
            DomainSpec::Range { least, greatest } => Kind::Range {
                least: *least,
                greatest: *greatest,
            },
            DomainSpec::Picture(text) => Kind::Picture(Picture::from_chars(
                alloc,
                text.as_slice(),
            )?),
        })
    }
}

impl Domain {
    /// Makes the domain that an input declares: reads its picture, and refuses a domain in which no text lies.
    pub fn new(alloc: Global, spec: &InputSpec) -> Result<Domain, DomainFault>
        ensures ok { IfOk result (λ domain. IsDomain spec.now domain × HasText domain) }
        ensures err { IfErr result (λ fault. RefusesDomain spec.now fault) }
        ensures computed { IfOk result (λ domain. (domain_of spec.now ≡ Some domain) × IsTrue (has_text domain)) }
    {
        let domain = Domain {
            max: spec.max,
            kind: Kind::new(alloc, &spec.domain)?,
            optional: spec.optional,
            fill: spec.fill,
        };
        if domain.has_text() {
            Ok(domain)
        } else {
            Err(DomainFault::Empty)
        }
    }

    /// Whether any text lies in the domain.
    fn has_text(&self) -> bool
        ensures { IsTrue result ↔ HasText self.now }
    {
        let room = match room(&self.max) {
            Some(room) => room,
            None => return false,
        };
        if self.optional {
            return true;
        }
        match &self.kind {
            Kind::Any | Kind::Filter(_) => true,
            Kind::Range { least, greatest } => range::has_text(least, greatest, room),
            Kind::Picture(picture) => picture.shortest() as usize <= room,
        }
    }

    /// Whether the text lies in the domain. A text that does can be typed from the left, through viable texts alone.
    pub fn accepts(&self, text: &Text) -> bool
        ensures accepted { IsTrue result ↔ InDomain self.now text.now }
        ensures beginnings { IsTrue result → (k : ℕ) → IsViableText self.now (take k text.now) }
        ensures computed { result ≡ in_domain self.now text.now }
    {
        let chars = text.as_slice();
        self.fits(chars) && (self.is_complete(chars) || (self.optional && chars.is_empty()))
    }

    /// Whether the text may stand in the input while it is typed. So may what is left of it when its end is deleted.
    ///
    /// It needn't be the beginning of a text of the domain: each text of a picture that begins so may be too long for
    /// the input.
    pub fn viable(&self, text: &Text) -> bool
        ensures viable { IsTrue result ↔ IsViableText self.now text.now }
        ensures beginnings { IsTrue result → (k : ℕ) → IsViableText self.now (take k text.now) }
        ensures computed { result ≡ viable self.now text.now }
    {
        let chars = text.as_slice();
        self.fits(chars) && self.may_become(chars)
    }

    /// Returns the text after `ch` was typed before the character at `at`, or `None` where that gives no viable text.
    ///
    /// For a picture, the other case of a letter is tried where its own isn't viable. With `fill`, the literals that
    /// must follow a character typed at the end are added, as long as there is room.
    pub fn typed(&self, text: &Text, at: usize, ch: char) -> Option<Text>
        requires { at ≤ length text.now }
        ensures some { IfSome result (λ out. IsTyped self.now text.now at ch out) }
        ensures viable { IfSome result (λ out. IsNarrowKind self.now.kind → IsViableText self.now out) }
        ensures none { IfNone result ((c : ℕ) → IsChosen self.now text.now at ch c → ⊥) }
        ensures computed { result ≡ typed_of self.now text.now at ch }
    {
        if text.is_full() {
            return None;
        }
        let typed = self.chosen(text, at, ch)?;
        match &self.kind {
            Kind::Picture(picture) if self.fill && at == text.len() => Some(filled(
                picture, &self.max, typed,
            )),
            _ => Some(typed),
        }
    }

    fn inserted(&self, text: &Text, at: usize, ch: char) -> Option<Text>
        requires in_bounds { at ≤ length text.now }
        requires room { length text.now < 120 }
        ensures some { IfSome result (λ out. (out ≡ insert text.now at ch) × IsViableText self.now (insert text.now at ch)) }
        ensures none { IfNone result (IsViableText self.now (insert text.now at ch) → ⊥) }
    {
        let mut typed = text.copy();
        typed.insert(at, ch);
        if self.viable(&typed) {
            Some(typed)
        } else {
            None
        }
    }

    fn chosen(&self, text: &Text, at: usize, ch: char) -> Option<Text>
        requires in_bounds { at ≤ length text.now }
        requires room { length text.now < 120 }
        ensures some { IfSome result (λ out. (c : ℕ) × IsChosen self.now text.now at ch c × (out ≡ insert text.now at c)) }
        ensures none { IfNone result ((c : ℕ) → IsChosen self.now text.now at ch c → ⊥) }
    {
        if let Some(typed) = self.inserted(text, at, ch) {
            return Some(typed);
        }
        match &self.kind {
            Kind::Picture(_) => self.inserted(text, at, in_other_case(ch)),
            _ => None,
        }
    }

    /// Whether the text is short enough, and each character takes one column.
    fn fits(&self, text: &[char]) -> bool
        requires { length text.now ≤ 120 }
        ensures { IsTrue result ↔ HasRoomIn self.now text.now }
    {
        is_within(text.len(), &self.max) && text.iter().all(|ch| ch.width() == Some(1))
    }

    fn is_complete(&self, text: &[char]) -> bool
        requires { length text.now ≤ 120 }
        ensures { IsTrue result ↔ InKind self.now.kind text.now }
    {
        match &self.kind {
            Kind::Any => true,
            Kind::Filter(set) => is_over(set, text),
            Kind::Range { least, greatest } => range::in_range(least, greatest, text),
            Kind::Picture(picture) => picture.status(text) == Status::Complete,
        }
    }

    fn may_become(&self, text: &[char]) -> bool
        requires { length text.now ≤ 120 }
        ensures { IsTrue result ↔ MayBecome self.now.kind text.now }
    {
        match &self.kind {
            Kind::Any => true,
            Kind::Filter(set) => is_over(set, text),
            Kind::Range { least, .. } => text.iter().all(|ch| range::is_range_char(least, *ch)),
            Kind::Picture(picture) => picture.status(text) != Status::Error,
        }
    }
}

/// Whether each character of the text is one of the set.
fn is_over(set: &Chars, text: &[char]) -> bool
    ensures { IsTrue result ↔ All (Contains set.now) text.now }
{
    for ch in text {
        if !is_in(set.as_slice(), *ch) {
            return false;
        }
    }
    true
}

fn is_in(set: &[char], ch: char) -> bool
    ensures { IsTrue result ↔ Contains set.now ch }
{
    set.contains(&ch)
}

fn is_within(len: usize, max: &i32) -> bool
    requires { len ≤ 120 }
    ensures { IsTrue result ↔ (pos len ≤ℤ max.now) }
{
    len as i64 <= i64::from(*max)
}

/// Returns how many characters the text may have, or `None` where it may not even be empty.
fn room(max: &i32) -> Option<usize>
    ensures some { IfSome result (λ room. (room ≤ 120) × ((n : ℕ) → (n ≤ room) ↔ ((n ≤ 120) × (pos n ≤ℤ max.now)))) }
    ensures none { IfNone result ((n : ℕ) → pos n ≤ℤ max.now → ⊥) }
{
    let max = *max;
    if max < 0 {
        None
    } else if max > 120 {
        Some(120)
    } else {
        Some(max as usize)
    }
}

fn in_other_case(ch: char) -> char
    ensures { result ≡ other_case ch }
{
    if ch.is_ascii_uppercase() {
        ch.to_ascii_lowercase()
    } else if ch.is_ascii_lowercase() {
        ch.to_ascii_uppercase()
    } else {
        ch
    }
}

/// Adds the literals that must follow the text, as long as there is room.
fn filled(picture: &Picture, max: &i32, text: Text) -> Text
    ensures filled { IsFilledTo max.now picture.now text result }
    ensures viable { All IsNarrow (spelled picture.now) → FitsIn max.now text → Begins picture.now text
        → FitsIn max.now result × Begins picture.now result }
{
    let mut text = text;
    for _ in 0..Text::CAPACITY {
        if !is_under(text.len(), max) {
            return text;
        }
        match picture.next_literal(text.as_slice()) {
            Some(ch) => text.push(ch),
            None => return text,
        }
    }
    text
}

fn is_under(len: usize, max: &i32) -> bool
    requires { len ≤ 120 }
    ensures { IsTrue result ↔ (pos len <ℤ max.now) }
{
    (len as i64) < i64::from(*max)
}
