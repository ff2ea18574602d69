//! What is told of each fault.

use crate::ends::{
    bad_opening, lacks_cancel, lacks_end, nothing_to_focus, second_default, unknown_start,
};
use crate::index::Index;
use crate::inputs::{bad_start, empty_domain, wide_character};
use crate::letters::{
    item_again, letter_again, number_again, rules_cancel, status_key, title_again,
};
use crate::limits::{Line, line_outside, node_outside, screen_size};
use crate::names::{label_link, name_again, rule_shows_itself, rule_unknown};
use crate::naming::word_of;
use crate::places::{off_desktop, outside_owner, overlap};
use crate::saying::Saying;
use crate::subject::{Declared, Subject};
use std::alloc::{AllocError, Global};
use tv_explain::{Explained, FaultGroup, RuleFault, ViewFault, Why, group_of};
use tv_model::{Kind, Node};

// The node on the other line.
fn other_node<'a>(index: &Index<'a>, why: Why) -> Option<&'a Node> {
    index.node(why.other?)
}

// What is told of a name that is given again.
fn saying_for_name(
    alloc: Global,
    index: &Index,
    subject: Subject,
    why: Why,
) -> Result<Option<Saying>, AllocError> {
    match (subject.node(), other_node(index, why)) {
        (Some(node), Some(other)) => Ok(Some(name_again(alloc, node, other)?)),
        _ => Ok(None),
    }
}

// What is told of a dialog or a view that lies outside its owner.
fn saying_for_owner(
    alloc: Global,
    index: &Index,
    subject: Subject,
    why: Why,
) -> Result<Option<Saying>, AllocError> {
    let Some(node) = subject.node() else {
        return Ok(None);
    };
    if node.kind.is_dialog() {
        return Ok(Some(off_desktop(alloc, index, node)?));
    }
    match other_node(index, why) {
        Some(owner) => Ok(Some(outside_owner(alloc, index, node, owner)?)),
        None => Ok(None),
    }
}

// What is told of an end that a dialog lacks, or that the dialog of a button does.
fn saying_for_end(
    alloc: Global,
    index: &Index,
    subject: Subject,
    why: Why,
) -> Result<Option<Saying>, AllocError> {
    let Some(node) = subject.node() else {
        return Ok(None);
    };
    if node.kind.is_dialog() {
        return Ok(Some(lacks_cancel(alloc, node)?));
    }
    match other_node(index, why) {
        Some(dialog) => Ok(Some(lacks_end(alloc, node, dialog)?)),
        None => Ok(None),
    }
}

// What is told of a dialog that may have nothing to focus.
fn saying_for_focus(
    alloc: Global,
    subject: Subject,
    why: Why,
) -> Result<Option<Saying>, AllocError> {
    match subject.node() {
        Some(_) => Ok(Some(nothing_to_focus(alloc, why)?)),
        None => Ok(None),
    }
}

// What is told of a status item's key.
fn saying_for_key(alloc: Global, subject: Subject, why: Why) -> Result<Option<Saying>, AllocError> {
    match subject {
        Subject::Status(item) => Ok(Some(status_key(alloc, item, why.reason)?)),
        _ => Ok(None),
    }
}

// What is told of a line that is outside the limits.
fn saying_for_limits(alloc: Global, subject: Subject, why: Why) -> Result<Saying, AllocError> {
    match subject {
        Subject::Menu(_) => line_outside(alloc, Line::Menu, why.reason),
        Subject::Item(_) => line_outside(alloc, Line::Item, why.reason),
        Subject::Status(_) => line_outside(alloc, Line::Status, why.reason),
        Subject::Rule(_) => line_outside(alloc, Line::Rule, why.reason),
        Subject::Window(window) => node_outside(alloc, &window.node, why.reason),
        Subject::Node(node) => node_outside(alloc, node, why.reason),
        Subject::Other => screen_size(alloc),
    }
}

// What is told of a dialog's command, or of the `start`.
fn saying_for_opening(
    alloc: Global,
    index: &Index,
    subject: Subject,
    why: Why,
) -> Result<Option<Saying>, AllocError> {
    if let Subject::Other = subject {
        return Ok(Some(unknown_start(alloc, index.desc(), why)?));
    }
    match subject.node() {
        Some(node) => Ok(Some(bad_opening(alloc, node, why)?)),
        None => Ok(None),
    }
}

// What is told of a letter, a number or a command that a menu, an item, a window or a rule can't have.
fn saying_for_menu_letter(alloc: Global, subject: Subject) -> Result<Option<Saying>, AllocError> {
    match subject {
        Subject::Menu(menu) => Ok(Some(title_again(alloc, menu)?)),
        Subject::Item(item) => Ok(Some(item_again(alloc, item)?)),
        Subject::Window(window) => Ok(Some(number_again(alloc, window)?)),
        Subject::Rule(_) => Ok(Some(rules_cancel(alloc)?)),
        Subject::Node(_) | Subject::Status(_) | Subject::Other => Ok(None),
    }
}

// What is told of a view that overlaps another one.
fn saying_for_overlap(
    alloc: Global,
    index: &Index,
    owner: Option<&Node>,
    node: &Node,
    other: Option<&Node>,
) -> Result<Option<Saying>, AllocError> {
    match other {
        Some(other) => Ok(Some(overlap(alloc, index, owner, node, other)?)),
        None => Ok(None),
    }
}

// What is told of a letter that a view marks again.
fn saying_for_letter(
    alloc: Global,
    index: &Index,
    declared: Declared,
    node: &Node,
    other: Option<&Node>,
) -> Result<Option<Saying>, AllocError> {
    match (index.letters(declared), other) {
        (Some(letters), Some(other)) => Ok(Some(letter_again(
            alloc,
            letters,
            index.status(),
            node,
            other,
        )?)),
        _ => Ok(None),
    }
}

// What is told of an input whose domain is empty.
fn saying_for_domain(
    alloc: Global,
    node: &Node,
    why: Why,
    line: &str,
) -> Result<Option<Saying>, AllocError> {
    match &node.kind {
        Kind::Input(input) => Ok(Some(empty_domain(alloc, input, why.reason, line)?)),
        _ => Ok(None),
    }
}

// What is told of a fault that views alone can have.
fn saying_for_view(
    alloc: Global,
    kind: ViewFault,
    index: &Index,
    fault: &Explained,
    line: &str,
) -> Result<Option<Saying>, AllocError> {
    let declared = index.declared(fault.fault.line);
    let Some(node) = declared.subject.node() else {
        return Ok(None);
    };
    let other = other_node(index, fault.why);
    match kind {
        ViewFault::Overlap => saying_for_overlap(alloc, index, declared.owner, node, other),
        ViewFault::LetterTwice => saying_for_letter(alloc, index, declared, node, other),
        ViewFault::LabelLink => Ok(Some(label_link(
            alloc,
            index.view_names(declared),
            node,
            other,
        )?)),
        ViewFault::SecondDefault => Ok(Some(second_default(alloc)?)),
        ViewFault::EmptyDomain => saying_for_domain(alloc, node, fault.why, line),
        ViewFault::BadStart => bad_start(alloc, node),
    }
}

// What is told of a fault that rules alone can have.
fn saying_for_rule(
    alloc: Global,
    fault: RuleFault,
    index: &Index,
    declared: Declared,
    why: Why,
) -> Result<Option<Saying>, AllocError> {
    let Subject::Rule(rule) = declared.subject else {
        return Ok(None);
    };
    let other = other_node(index, why);
    match fault {
        RuleFault::UnknownInRule => {
            let names = index.view_names(declared);
            Ok(Some(rule_unknown(alloc, names, rule, why.reason, other)?))
        }
        RuleFault::ShowsItself => match other {
            Some(cluster) => Ok(Some(rule_shows_itself(alloc, rule, cluster)?)),
            None => Ok(None),
        },
    }
}

// The word for what stands on a line.
fn word_for(subject: Subject) -> &'static str {
    match subject {
        Subject::Menu(_) => Line::Menu.word(),
        Subject::Item(_) => Line::Item.word(),
        Subject::Status(_) => Line::Status.word(),
        Subject::Window(_) => "window",
        Subject::Node(node) => word_of(&node.kind),
        Subject::Rule(_) => Line::Rule.word(),
        Subject::Other => "line",
    }
}

/// Tells what there is to tell of a fault, the line of the text that it names being this.
pub fn saying_for(
    alloc: Global,
    index: &Index,
    fault: &Explained,
    line: &str,
) -> Result<Option<Saying>, AllocError> {
    let why = fault.why;
    let declared = index.declared(fault.fault.line);
    let subject = declared.subject;
    match group_of(fault.fault.kind) {
        FaultGroup::NameTwice => saying_for_name(alloc, index, subject, why),
        FaultGroup::OutsideOwner => saying_for_owner(alloc, index, subject, why),
        FaultGroup::StatusKey => saying_for_key(alloc, subject, why),
        FaultGroup::NothingToFocus => saying_for_focus(alloc, subject, why),
        FaultGroup::MissingEnd => saying_for_end(alloc, index, subject, why),
        FaultGroup::WideCharacter => { Ok(Some(wide_character(alloc, word_for(subject), line)?)) }
        FaultGroup::OutsideLimits => Ok(Some(saying_for_limits(alloc, subject, why)?)),
        FaultGroup::BadOpening => saying_for_opening(alloc, index, subject, why),
        FaultGroup::MenuLetter => saying_for_menu_letter(alloc, subject),
        FaultGroup::OfView(kind) => saying_for_view(alloc, kind, index, fault, line),
        FaultGroup::OfRule(fault) => saying_for_rule(alloc, fault, index, declared, why),
    }
}
