//! The items of clusters and lists, and those that are marked at first.

ghost use Rattle.std.specs.Prelude.{◌≡◌, ◌∷◌, [], IfOk, Some, int_lt};
ghost use Rattle.tv_declarations.specs.Reading.Clusters.{item_taken, items_in, with_item, marks_in, taken_before_start, items_from};
ghost use Rattle.tv_words.specs.Reading.Steps.{steps};
ghost use Rattle.tv_declarations.specs.Spelling.Nodes.{is_rising};

use crate::keywords;
use crate::marked::marked;
use std::alloc::{AllocError, Global};
use tv_model::{MarkedText, Sequence};
use tv_valid::Chars;
use tv_words::Word;

/// The texts of items, and the numbers after `start` where that word was given.
#[derive(Drop)]
pub struct Items {
    pub texts: Sequence<Chars>,
    pub start: Option<Sequence<i32>>,
}

impl Items {
    /// Reads the texts of items and, after `start`, numbers; `None` for other words.
    pub fn read(alloc: Global, words: &[Word]) -> Result<Option<Items>, AllocError>
        ensures { IfOk result (λ found. found ≡ items_in words.now) }
    {
        let mut items = Items {
            texts: Sequence::new(alloc),
            start: None,
        };
        for word in words {
            match items.take(alloc, word)? {
                Some(more) => items = more,
                None => return Ok(None),
            }
        }
        Ok(Some(items))
    }

    // Takes one word more, or returns `None` where it can't stand there.
    fn take(self, alloc: Global, word: &Word) -> Result<Option<Items>, AllocError>
        ensures { IfOk result (λ further. further ≡ item_taken self word.now) }
    {
        let Items { texts, start } = self;
        match start {
            Some(numbers) => number_taken(texts, numbers, word),
            None => text_taken(alloc, texts, word),
        }
    }
}

fn number_taken(
    texts: Sequence<Chars>,
    mut numbers: Sequence<i32>,
    word: &Word,
) -> Result<Option<Items>, AllocError>
    ensures { IfOk result (λ further. further ≡ item_taken (items_from texts (Some numbers)) word.now) }
{
    let Some(number) = word.number() else {
        return Ok(None);
    };
    numbers.push(number)?;
    Ok(Some(Items {
        texts,
        start: Some(numbers),
    }))
}

fn text_taken(
    alloc: Global,
    mut texts: Sequence<Chars>,
    word: &Word,
) -> Result<Option<Items>, AllocError>
    ensures { IfOk result (λ further. further ≡ taken_before_start texts word.now) }
{
    match word {
        Word::Quoted(text) => {
            texts.push(text.copy(alloc)?)?;
            Ok(Some(Items { texts, start: None }))
        }
        Word::Bare(_) if word.is(keywords::START) => Ok(Some(Items {
            texts,
            start: Some(Sequence::new(alloc)),
        })),
        Word::Bare(_) => Ok(None),
    }
}

/// Reads the mark of each text; `None` where there is no text, or a `~` that marks nothing.
pub fn marks(alloc: Global, texts: &[Chars]) -> Result<Option<Sequence<MarkedText>>, AllocError>
    ensures { IfOk result (λ found. found ≡ marks_in texts.now) }
{
    if texts.is_empty() {
        return Ok(None);
    }
    marked_items(alloc, texts)
}

fn marked_items(alloc: Global, texts: &[Chars]) -> Result<Option<Sequence<MarkedText>>, AllocError>
    ensures { IfOk result (λ found. found ≡ steps with_item [] texts.now) }
{
    let mut items = Sequence::new(alloc);
    for text in texts {
        match marked(alloc, text.as_slice())? {
            Some(item) => items.push(item)?,
            None => return Ok(None),
        }
    }
    Ok(Some(items))
}

/// Whether each number is greater than the one before.
pub fn is_rising(numbers: &[i32]) -> bool
    ensures { result ≡ is_rising numbers.now }
{
    match numbers {
        [first, rest @ ..] => is_rising_from(first, rest),
        [] => true,
    }
}

fn is_rising_from(first: &i32, rest: &[i32]) -> bool
    ensures { result ≡ is_rising (first.now ∷ rest.now) }
{
    let mut last = first;
    for number in rest {
        if !is_less(last, number) {
            return false;
        }
        last = number;
    }
    true
}

fn is_less(first: &i32, second: &i32) -> bool
    ensures { result ≡ int_lt first.now second.now }
{
    *first < *second
}
