//! Lines that declare input lines.

ghost use Rattle.std.specs.Prelude.{◌≡◌, IfOk};
ghost use Rattle.std.specs.Option.{option_map};
ghost use Rattle.tv_declarations.specs.Reading.Inputs.{filter_in, picture_in, range_in, domain_in, options_in, asked_after, asked_in, input_in};

use crate::commands::skip;
use crate::keywords;
use crate::place::{Place, Position};
use std::alloc::{AllocError, Global};
use tv_model::{Input, Kind, Node};
use tv_valid::{Chars, DomainSpec, InputSpec};
use tv_words::Word;

// What an input line says after its greatest length.
#[derive(Drop)]
struct Asked {
    domain: DomainSpec,
    start: Chars,
    options: Options,
}

#[derive(Clone, Copy)]
struct Options {
    validates: bool,
    optional: bool,
    fill: bool,
}

/// Reads the input line that these fields declare; `None` where they declare none.
pub fn input(alloc: Global, at: Position, fields: &[Word]) -> Result<Option<Node>, AllocError>
    ensures { IfOk result (λ found. found ≡ input_in at fields.now) }
{
    let [name, x, y, w, max, asked_words @ ..] = fields else {
        return Ok(None);
    };
    let Some(asked) = read_asked(alloc, asked_words)? else {
        return Ok(None);
    };
    let (Some(name), Some(place), Some(max)) = (name.name(), Place::read(x, y, w), max.number())
    else {
        return Ok(None);
    };
    let Asked {
        domain,
        start,
        options,
    } = asked;
    let kind = Kind::Input(Input {
        name: name.copy(alloc)?,
        spec: InputSpec {
            max,
            domain,
            optional: options.optional,
            fill: options.fill,
        },
        start,
        validates: options.validates,
    });
    Ok(Some(place.node(at, kind)))
}

fn read_asked(alloc: Global, words: &[Word]) -> Result<Option<Asked>, AllocError>
    ensures { IfOk result (λ found. found ≡ asked_in words.now) }
{
    match domain(alloc, words)? {
        Some((domain, rest)) => asked_after(alloc, domain, rest),
        None => Ok(None),
    }
}

// The start text and the options.
fn asked_after(
    alloc: Global,
    domain: DomainSpec,
    words: &[Word],
) -> Result<Option<Asked>, AllocError>
    ensures { IfOk result (λ found. found ≡ asked_after domain words.now) }
{
    let [start, option_words @ ..] = words else {
        return Ok(None);
    };
    let (Some(start), Some(options)) = (start.text(), read_options(option_words)) else {
        return Ok(None);
    };
    let start = start.copy(alloc)?;
    Ok(Some(Asked {
        domain,
        start,
        options,
    }))
}

// The domain that the first words name, and the words after them.
fn domain<'a>(
    alloc: Global,
    words: &'a [Word],
) -> Result<Option<(DomainSpec, &'a [Word])>, AllocError>
    ensures { IfOk result (λ found. option_map (λ r. (r.0, r.1.now)) found ≡ domain_in words.now) }
{
    let [keyword, fields @ ..] = words else {
        return Ok(None);
    };
    if keyword.is(keywords::ANY) {
        Ok(Some((DomainSpec::Any, fields)))
    } else if keyword.is(keywords::FILTER) {
        filter(alloc, fields)
    } else if keyword.is(keywords::RANGE) {
        Ok(range(fields))
    } else if keyword.is(keywords::PICTURE) {
        picture(alloc, fields)
    } else {
        Ok(None)
    }
}

fn filter<'a>(
    alloc: Global,
    fields: &'a [Word],
) -> Result<Option<(DomainSpec, &'a [Word])>, AllocError>
    ensures { IfOk result (λ found. option_map (λ r. (r.0, r.1.now)) found ≡ filter_in fields.now) }
{
    let [set, rest @ ..] = fields else {
        return Ok(None);
    };
    let Some(set) = set.text() else {
        return Ok(None);
    };
    let set = set.copy(alloc)?;
    Ok(Some((DomainSpec::Filter(set), rest)))
}

fn picture<'a>(
    alloc: Global,
    fields: &'a [Word],
) -> Result<Option<(DomainSpec, &'a [Word])>, AllocError>
    ensures { IfOk result (λ found. option_map (λ r. (r.0, r.1.now)) found ≡ picture_in fields.now) }
{
    let [text, rest @ ..] = fields else {
        return Ok(None);
    };
    let Some(text) = text.text() else {
        return Ok(None);
    };
    let text = text.copy(alloc)?;
    Ok(Some((DomainSpec::Picture(text), rest)))
}

fn range(fields: &[Word]) -> Option<(DomainSpec, &[Word])>
    ensures { option_map (λ r. (r.0, r.1.now)) result ≡ range_in fields.now }
{
    let [least, greatest, rest @ ..] = fields else {
        return None;
    };
    let (Some(least), Some(greatest)) = (least.number(), greatest.number()) else {
        return None;
    };
    Some((DomainSpec::Range { least, greatest }, rest))
}

fn read_options(words: &[Word]) -> Option<Options>
    ensures { result ≡ options_in words.now }
{
    let (validates, words) = skip(words, keywords::VALIDATE);
    let (optional, words) = skip(words, keywords::OPTIONAL);
    let (fill, words) = skip(words, keywords::FILL);
    words.is_empty().then_some(Options {
        validates,
        optional,
        fill,
    })
}
