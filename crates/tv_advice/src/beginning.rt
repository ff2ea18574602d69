//! What a text is, by its first word.

ghost use Rattle.std.specs.Prelude.{◌≡◌, ◌≤◌, length, IfOk};
ghost use Rattle.tv_words.specs.Lines.{lines_of};
ghost use Rattle.tv_advice.specs.Beginnings.{answer_of, begins_certificate, first_declared, is_certificate};

use std::alloc::{AllocError, Global};
use tv_words::{Lines, Word, words_of};

// Whether a line with these words begins a certificate; nothing where there is none.
fn begins_certificate(words: &[Word]) -> Option<bool>
    ensures { result ≡ begins_certificate words.now }
{
    match words.first() {
        Some(word) => Some(word.is(b"tvcert")),
        None => None,
    }
}

// The same of a line. One whose words can't be told apart begins none.
fn answer_of(alloc: Global, line: &[u8]) -> Result<Option<bool>, AllocError>
    ensures { IfOk result (λ answer. answer ≡ answer_of line.now) }
{
    let Some(list) = words_of(alloc, line)? else {
        return Ok(Some(false));
    };
    let words = list.as_slice();
    Ok(begins_certificate(words))
}

/// Whether a text is taken for a certificate: its first word is `tvcert`.
pub fn is_certificate(alloc: Global, text: &[u8]) -> Result<bool, AllocError>
    ensures { IfOk result (λ is. is ≡ is_certificate text.now) }
{
    for line in Lines::new(text) {
        if let Some(answer) = answer_of(alloc, line)? {
            return Ok(answer);
        }
    }
    Ok(false)
}

/// Returns the number of the first line of a text that declares something.
pub fn first_declared(alloc: Global, text: &[u8]) -> Result<usize, AllocError>
    requires few { length text.now ≤ 262144 }
    ensures { IfOk result (λ number. number ≡ first_declared 1 (lines_of text.now)) }
{
    let mut number = 1;
    for line in Lines::new(text) {
        if let Some(_) = answer_of(alloc, line)? {
            return Ok(number);
        }
        number += 1;
    }
    Ok(number)
}
