//! F15: texts that are too long.

ghost use Rattle.std.specs.Prelude.{◌≡◌, map};
ghost use Rattle.std.specs.List.{list_any};
ghost use Rattle.tv_model.specs.Kinds.InputLine.{domain_texts};
ghost use Rattle.tv_model.specs.Description.Texts.{texts_of};
ghost use Rattle.tv_model.specs.Faults.Limits.{is_too_long};

use tv_model::{Kind, MarkedText};
use tv_valid::{Chars, DomainSpec};

/// Whether the text has more than 120 characters.
pub fn is_too_long(text: &[char]) -> bool
    ensures { result ≡ is_too_long text.now }
{
    text.len() > 120
}

fn is_long_domain(domain: &DomainSpec) -> bool
    ensures { result ≡ list_any is_too_long (domain_texts domain.now) }
{
    match domain {
        DomainSpec::Filter(text) | DomainSpec::Picture(text) => is_too_long(text.as_slice()),
        DomainSpec::Any | DomainSpec::Range { .. } => false,
    }
}

fn has_long_item(items: &[MarkedText]) -> bool
    ensures { result ≡ list_any (λ item. is_too_long item.text) items.now }
{
    items.iter().any(|item| is_too_long(item.text.as_slice()))
}

fn is_long_cluster(items: &[MarkedText]) -> bool
    ensures { result ≡ list_any is_too_long (map (λ item. item.text) items.now) }
{
    has_long_item(items)
}

fn is_long_list(items: &[Chars]) -> bool
    ensures { result ≡ list_any is_too_long items.now }
{
    items.iter().any(|item| is_too_long(item.as_slice()))
}

/// Whether the declaration has a text of more than 120 characters.
pub fn has_long_text(kind: &Kind) -> bool
    ensures { result ≡ list_any is_too_long (texts_of kind.now) }
{
    match kind {
        Kind::Window(head) => is_too_long(head.title.as_slice()),
        Kind::Dialog(head) => is_too_long(head.title.as_slice()),
        Kind::Text(shown) => is_too_long(shown.text.as_slice()),
        Kind::Label(label) => is_too_long(label.text.text.as_slice()),
        Kind::Button(button) => is_too_long(button.text.text.as_slice()),
        Kind::Input(input) => {
            is_too_long(input.start.as_slice()) || is_long_domain(&input.spec.domain)
        }
        Kind::CheckBoxes(boxes) => is_long_cluster(boxes.items.as_slice()),
        Kind::RadioButtons(radios) => is_long_cluster(radios.items.as_slice()),
        Kind::List(list) => is_long_list(list.items.as_slice()),
        Kind::Pane(_) => false,
    }
}
