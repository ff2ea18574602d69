//! Why arguments ask for no box.

ghost use Rattle.std.specs.Prelude.{◌≡◌, ◌++◌, ◌-◌, IfOk, codes, encode_utf8_all, slice_get, string_bytes};
ghost use Rattle.std.specs.Char.{is_ascii_graphic};
ghost use Rattle.std.specs.List.{list_all};
ghost use Rattle.tv_boxes.specs.Misuses.{is_option, misuse_text, option_text};

use std::alloc::{AllocError, Global};
use tv_valid::Chars;

/// Why arguments ask for no box. The argument at fault is given by how many are behind it.
#[derive(Clone, Copy, Debug, PartialEq, Eq)]
pub enum Misuse {
    NoMemory,
    /// They have no option of a box.
    NoBox,
    /// They end too early.
    Missing,
    /// This one is no number from 0 to 255.
    NoNumber(usize),
    /// This one is more than the box takes.
    Extra(usize),
    /// This one is no option that can be had.
    NoOption(usize),
}

impl From<AllocError> for Misuse {
    ghost use Rattle.std.specs.Prelude.{◌≡◌};
    ghost use Rattle.tv_boxes.specs.declared.misuse.Misuse.TheVariants.{NoMemory};

    ghost from_gives = { λ _ e. e ≡ NoMemory };

    fn from(_error: AllocError) -> Misuse {
        Misuse::NoMemory
    }
}

impl Misuse {
    /// Says it of these arguments, which are counted from 1.
    pub fn told(self, alloc: Global, words: &[Chars]) -> Result<String, AllocError>
        ensures { IfOk result (λ text. string_bytes text ≡ misuse_text words.now self) }
    {
        let count = words.len();
        match self {
            Misuse::NoMemory => format!(in alloc; "out of memory"),
            Misuse::NoBox => format!(in alloc; "no box is asked for"),
            Misuse::Missing => {
                format!(in alloc; "argument {} is missing", count.saturating_add(1))
            }
            Misuse::NoNumber(behind) => {
                let number = count.saturating_sub(behind);
                format!(in alloc; "argument {number} is no number from 0 to 255")
            }
            Misuse::Extra(behind) => {
                format!(in alloc; "argument {} is one too many", count.saturating_sub(behind))
            }
            Misuse::NoOption(behind) => no_option(alloc, words, count.saturating_sub(behind)),
        }
    }
}

// Names the option where that can be shown.
fn no_option(alloc: Global, words: &[Chars], number: usize) -> Result<String, AllocError>
    ensures { IfOk result (λ text. string_bytes text ≡ option_text number (slice_get words.now (number - 1))) }
{
    match words.get(number.saturating_sub(1)) {
        Some(word) if is_option(word.as_slice()) => option_told(alloc, word.as_slice()),
        _ => format!(in alloc; "argument {number} is no option"),
    }
}

fn option_told(alloc: Global, word: &[char]) -> Result<String, AllocError>
    ensures { IfOk result (λ text. string_bytes text ≡ encode_utf8_all word.now ++ codes " can't be had") }
{
    let mut told = String::new(alloc);
    for letter in word {
        told.push(*letter)?;
    }
    told.push_str(" can't be had")?;
    Ok(told)
}

fn is_option(word: &[char]) -> bool
    ensures { result ≡ is_option word.now }
{
    word.starts_with(&['-', '-']) && is_graphic(word)
}

fn is_graphic(word: &[char]) -> bool
    ensures { result ≡ list_all is_ascii_graphic word.now }
{
    word.iter().all(|letter| letter.is_ascii_graphic())
}
