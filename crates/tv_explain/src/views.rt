//! Why a view of a window or dialog has a fault.

ghost use Rattle.std.specs.Prelude.{◌≡◌, find, IfOk, option_copied};
ghost use Rattle.tv_model.specs.Description.Names.{shares_name};
ghost use Rattle.tv_model.specs.Description.Nodes.{is_default};
ghost use Rattle.tv_explain.specs.Groups.{kind_of_view};
ghost use Rattle.tv_explain.specs.Views.{linked_line, view_why};

use crate::boxes::{overlapped, owner_line};
use crate::groups::{FaultGroup, ViewFault, group_of};
use crate::heads::shares_name;
use crate::inputs::{domain_reason, start_reason};
use crate::inside::Body;
use crate::letters::letter_line;
use crate::limits::view_limit;
use crate::lines::line_of;
use crate::why::{Reason, Why};
use std::alloc::{AllocError, Global};
use tv_model::{FaultKind, Kind, Node};
use tv_names::Names;

// The first view before that has the view's name.
fn named<'a>(before: &'a [Node], node: &Node) -> Option<&'a Node>
    ensures { option_copied result ≡ find (shares_name node.now) before.now }
{
    before.iter().find(|other| shares_name(node, other))
}

// What has the name that a label gives.
fn linked_line(names: &Names, kind: &Kind) -> Option<u32>
    ensures { result ≡ linked_line names.now kind.now }
{
    match kind {
        Kind::Label(label) => line_of(names.meant(&label.link)),
        _ => None,
    }
}

// The default button before.
fn default_of(before: &[Node]) -> Option<&Node>
    ensures { option_copied result ≡ find is_default before.now }
{
    before.iter().find(|other| other.is_default())
}

// Why a view has a fault that views alone can have.
fn own_why(
    alloc: Global,
    fault: ViewFault,
    body: &Body,
    before: &[Node],
    node: &Node,
) -> Result<Why, AllocError>
    ensures { IfOk result (λ why. why ≡ view_why (kind_of_view fault) body.now before.now node.now) }
{
    Ok(match fault {
        ViewFault::Overlap => Why::from_line(line_of(overlapped(before, node))),
        ViewFault::LetterTwice => Why::from_line(letter_line(body.shared(), before, node)),
        ViewFault::LabelLink => Why::from_line(linked_line(body.names(), &node.kind)),
        ViewFault::SecondDefault => Why::from_line(line_of(default_of(before))),
        ViewFault::EmptyDomain => Why::because(domain_reason(alloc, &node.kind)?, None),
        ViewFault::BadStart => Why::because(start_reason(&node.kind), None),
    })
}

/// Tells why a view has the fault.
pub fn view_why(
    alloc: Global,
    kind: FaultKind,
    body: &Body,
    before: &[Node],
    node: &Node,
) -> Result<Why, AllocError>
    ensures { IfOk result (λ why. why ≡ view_why kind body.now before.now node.now) }
{
    let frame = body.frame();
    match group_of(kind) {
        FaultGroup::NameTwice => Ok(Why::from_line(line_of(named(before, node)))),
        FaultGroup::OutsideOwner => Ok(Why::from_line(Some(owner_line(frame, before, node)))),
        FaultGroup::MissingEnd => Ok(Why::because(Reason::UndeclaredEnd, Some(frame.id.0))),
        FaultGroup::OutsideLimits => Ok(Why::because(view_limit(before, node), None)),
        FaultGroup::OfView(fault) => own_why(alloc, fault, body, before, node),
        FaultGroup::StatusKey
        | FaultGroup::NothingToFocus
        | FaultGroup::WideCharacter
        | FaultGroup::BadOpening
        | FaultGroup::MenuLetter
        | FaultGroup::OfRule(_) => Ok(Why::ITSELF),
    }
}
