//! Letters that are marked.

ghost use Rattle.std.specs.Prelude.{◌≡◌, ◌||◌, ℕ, nat_eq, IfOk, OnOk};
ghost use Rattle.std.specs.HashSet as set;
ghost use Rattle.tv_model.specs.Description.Marks.{marked_letter, marks, marks_any};
ghost use Rattle.tv_model.specs.Description.Letters.{marked_of};

use std::alloc::{AllocError, Global};
use std::collections::HashSet;
use std::slice;
use tv_model::{Kind, MarkedText};

/// Returns the letter that the text marks, in upper case.
pub fn letter_of(marked: &MarkedText) -> Option<char>
    ensures { result ≡ marked_letter marked.now }
{
    let letter = marked.text.as_slice().get(marked.mark?)?;
    Some(letter.to_ascii_uppercase())
}

/// Returns the texts of the declaration in which a letter may be marked.
pub fn marked_of(kind: &Kind) -> &[MarkedText]
    ensures { result.now ≡ marked_of kind.now }
{
    match kind {
        Kind::Label(label) => slice::from_ref(&label.text),
        Kind::Button(button) => slice::from_ref(&button.text),
        Kind::CheckBoxes(boxes) => boxes.items.as_slice(),
        Kind::RadioButtons(radios) => radios.items.as_slice(),
        _ => &[],
    }
}

/// Whether the text marks the letter.
pub fn marks(letter: char, text: &MarkedText) -> bool
    ensures { result ≡ marks letter text.now }
{
    match letter_of(text) {
        Some(other) => other == letter,
        None => false,
    }
}

/// Whether the text marks one of the letters.
pub fn marks_any(letters: &HashSet<char>, text: &MarkedText) -> bool
    ensures { result ≡ marks_any (set.contains nat_eq letters.now) text.now }
{
    match letter_of(text) {
        Some(letter) => letters.contains(&letter),
        None => false,
    }
}

/// Adds the letter that the text marks. Returns whether it was among the letters before.
pub fn add_letter(letters: &mut HashSet<char>, text: &MarkedText) -> Result<bool, AllocError>
    ensures again { IfOk result (λ again. again ≡ marks_any (set.contains nat_eq letters.old) text.now) }
    ensures added { OnOk result ((ch : ℕ)
        → set.contains nat_eq letters.new ch ≡ (set.contains nat_eq letters.old ch || marks ch text.now)) }
{
    match letter_of(text) {
        Some(letter) => Ok(!letters.insert(letter)?),
        None => Ok(false),
    }
}
