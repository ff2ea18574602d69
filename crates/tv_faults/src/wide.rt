//! F14: characters that don't take one column.

ghost use Rattle.std.specs.Prelude.{◌≡◌, filter, map, not};
ghost use Rattle.std.specs.List.{list_any};
ghost use Rattle.tv_cells.specs.Glyph.{is_narrow};
ghost use Rattle.tv_model.specs.Kinds.InputLine.{domain_texts};
ghost use Rattle.tv_model.specs.Screen.Faces.{is_line_end};
ghost use Rattle.tv_model.specs.Faults.Texts.{has_wide, is_wide_text};

use tv_cells::is_narrow;
use tv_model::{Kind, MarkedText, Node};
use tv_valid::{Chars, DomainSpec};

fn is_line_end(ch: char) -> bool
    ensures { result ≡ is_line_end ch }
{
    ch == '\n'
}

/// Whether a character of the text doesn't take one column.
pub fn is_wide_text(text: &[char]) -> bool
    ensures { result ≡ is_wide_text text.now }
{
    text.iter().any(|ch| !is_narrow(*ch))
}

// The same where a line end is no fault.
fn is_wide_in_lines(text: &[char]) -> bool
    ensures { result ≡ is_wide_text (filter (λ ch. not (is_line_end ch)) text.now) }
{
    text.iter()
        .filter(|ch| !is_line_end(**ch))
        .any(|ch| !is_narrow(*ch))
}

fn is_wide_domain(domain: &DomainSpec) -> bool
    ensures { result ≡ list_any is_wide_text (domain_texts domain.now) }
{
    match domain {
        DomainSpec::Filter(text) | DomainSpec::Picture(text) => is_wide_text(text.as_slice()),
        DomainSpec::Any | DomainSpec::Range { .. } => false,
    }
}

fn has_wide_item(items: &[MarkedText]) -> bool
    ensures { result ≡ list_any (λ item. is_wide_text item.text) items.now }
{
    items.iter().any(|item| is_wide_text(item.text.as_slice()))
}

fn is_wide_cluster(items: &[MarkedText]) -> bool
    ensures { result ≡ list_any is_wide_text (map (λ item. item.text) items.now) }
{
    has_wide_item(items)
}

fn is_wide_list(items: &[Chars]) -> bool
    ensures { result ≡ list_any is_wide_text items.now }
{
    items.iter().any(|item| is_wide_text(item.as_slice()))
}

/// Whether the declaration has a character that doesn't take one column. Line ends in a static text don't count.
pub fn has_wide(node: &Node) -> bool
    ensures { result ≡ has_wide node.now }
{
    match &node.kind {
        Kind::Window(head) => is_wide_text(head.title.as_slice()),
        Kind::Dialog(head) => is_wide_text(head.title.as_slice()),
        Kind::Text(shown) => is_wide_in_lines(shown.text.as_slice()),
        Kind::Label(label) => is_wide_text(label.text.text.as_slice()),
        Kind::Button(button) => is_wide_text(button.text.text.as_slice()),
        Kind::Input(input) => {
            is_wide_text(input.start.as_slice()) || is_wide_domain(&input.spec.domain)
        }
        Kind::CheckBoxes(boxes) => is_wide_cluster(boxes.items.as_slice()),
        Kind::RadioButtons(radios) => is_wide_cluster(radios.items.as_slice()),
        Kind::List(list) => is_wide_list(list.items.as_slice()),
        Kind::Pane(_) => false,
    }
}
