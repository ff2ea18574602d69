//! The value that words give a field.

ghost use Rattle.std.specs.Prelude.{◌≡◌, ◌&&◌, ◌≤◌, IfOk, IfSome, option_and_then};
ghost use Rattle.tv_answers.specs.FieldValues.{choice_in, is_dash, item_in, marks_among, marks_in, text_for, value_for, with_mark, with_marked};
ghost use Rattle.tv_model.specs.Faults.Domains.{any_text, may_stand};
ghost use Rattle.tv_words.specs.Fields.{text_in};

use std::alloc::{AllocError, Global};
use tv_model::{Kind, Value, is_item};
use tv_valid::{Chars, Domain, DomainFault, InputSpec, Text};
use tv_words::Word;

// Whether the text may stand in the input while it is typed.
fn may_stand(alloc: Global, spec: &InputSpec, text: &Text) -> Result<bool, AllocError>
    ensures { IfOk result (λ may. may ≡ (any_text spec.now && may_stand text.now spec.now)) }
{
    match Domain::new(alloc, spec) {
        Ok(domain) => Ok(domain.viable(text)),
        Err(DomainFault::NoMemory) => Err(AllocError),
        Err(DomainFault::BadPicture(_) | DomainFault::Empty) => Ok(false),
    }
}

fn text_for(alloc: Global, spec: &InputSpec, chars: &Chars) -> Result<Option<Value>, AllocError>
    ensures { IfOk result (λ value. value ≡ text_for spec.now chars.now) }
{
    let Some(text) = Text::from_chars(chars.as_slice()) else {
        return Ok(None);
    };
    if may_stand(alloc, spec, &text)? {
        Ok(Some(Value::Text(text)))
    } else {
        Ok(None)
    }
}

fn text_value(alloc: Global, spec: &InputSpec, word: &Word) -> Result<Option<Value>, AllocError>
    ensures { IfOk result (λ value. value ≡ option_and_then (text_for spec.now) (text_in word.now)) }
{
    match word.text() {
        Some(chars) => text_for(alloc, spec, chars),
        None => Ok(None),
    }
}

// The item that a word names among so many.
fn item_in(count: usize, word: &Word) -> Option<u8>
    requires { count ≤ 255 }
    ensures item { result ≡ item_in count word.now }
    ensures within { IfSome result (λ item. (1 ≤ item) × (item ≤ count)) }
{
    let number = word.number()?;
    if is_item(&number, count) {
        Some(number as u8)
    } else {
        None
    }
}

// One more mark, of an item that comes after all that are marked.
fn with_mark(marks: u16, item: u8) -> Option<u16>
    requires { (1 ≤ item) × (item ≤ 16) }
    ensures { result ≡ with_mark marks item }
{
    let mark = 1u16 << (item - 1);
    if marks < mark {
        Some(marks + mark)
    } else {
        None
    }
}

fn with_marked(count: usize, marks: u16, word: &Word) -> Option<u16>
    requires { count ≤ 16 }
    ensures { result ≡ with_marked count marks word.now }
{
    let item = item_in(count, word)?;
    with_mark(marks, item)
}

fn marks_among(count: usize, words: &[Word]) -> Option<u16>
    requires { count ≤ 16 }
    ensures { result ≡ marks_among count words.now }
{
    let mut marks = 0;
    for word in words {
        marks = with_marked(count, marks, word)?;
    }
    Some(marks)
}

// Whether the words mark nothing.
fn is_dash(words: &[Word]) -> bool
    ensures { result ≡ is_dash words.now }
{
    match words {
        [word] => word.is(b"-"),
        _ => false,
    }
}

// The marks that words give check boxes of so many items.
fn marks_in(count: usize, words: &[Word]) -> Option<u16>
    ensures { result ≡ marks_in count words.now }
{
    if words.is_empty() {
        None
    } else if is_dash(words) {
        Some(0)
    } else {
        marks_among(count.min(16), words)
    }
}

// The choice that a word gives radio buttons or a list of so many items.
fn choice_in(count: usize, word: &Word) -> Option<Value>
    ensures { result ≡ choice_in count word.now }
{
    item_in(count.min(255), word).map(|item| Value::Item(item))
}

/// Returns the value that the words give a field of the kind, or `None` where it can't stand there.
pub fn value_for(alloc: Global, kind: &Kind, words: &[Word]) -> Result<Option<Value>, AllocError>
    ensures { IfOk result (λ value. value ≡ value_for kind.now words.now) }
{
    match (kind, words) {
        (Kind::Input(input), [word]) => text_value(alloc, &input.spec, word),
        (Kind::CheckBoxes(boxes), words) => {
            let count = boxes.items.as_slice().len();
            Ok(marks_in(count, words).map(|marks| Value::Marks(marks)))
        }
        (Kind::RadioButtons(radios), [word]) => {
            Ok(choice_in(radios.items.as_slice().len(), word))
        }
        (Kind::List(list), [word]) => Ok(choice_in(list.items.as_slice().len(), word)),
        _ => Ok(None),
    }
}
