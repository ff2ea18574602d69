//! On which line a finding stands, and which rules have to do with it.

ghost use Rattle.std.specs.Prelude.{◌≡◌, IfOk, IfSome, Some, option_copied};
ghost use Rattle.tv_warnings.specs.Warned.{IsRuleIn, IsRuleOf, StandsAt, dialog_at, line_of, ruled_in};

use crate::finding::Finding;
use std::alloc::{AllocError, Global};
use tv_model::{Desc, Dialog, Id, Rule};
use tv_reach::Goal;
use tv_ways::{Conflict, conflict_against, first_showing};

/// Rules that have to do with a finding.
#[derive(Clone, Copy)]
pub(crate) struct Rules<'a> {
    pub(crate) first: &'a Rule,
    pub(crate) last: &'a Rule,
    /// How many there are.
    pub(crate) count: usize,
}

/// Where a finding stands, by the lines of the canonical text, and the rules that have to do with it.
#[derive(Clone, Copy)]
pub(crate) struct Standing<'a> {
    pub(crate) own: Id,
    pub(crate) rules: Option<Rules<'a>>,
}

// The line of what the finding is about.
fn line_of(finding: &Finding) -> Id
    ensures { result ≡ line_of finding.now }
{
    match finding {
        Finding::NotOpened(id) | Finding::Idle(id) => *id,
        Finding::NoGiver(end) | Finding::NotGiven(end) => end.dialog,
        Finding::Blocked(end) => end.input,
        Finding::NotFocused(member) | Finding::NotShown(member) => member.view,
        Finding::Refused(end) => end.input,
        Finding::Cut(cut) => cut.id,
        Finding::Unknown(what) => what.dialog,
    }
}

/// Finds the dialog on the line.
pub(crate) fn dialog_at(desc: &Desc, id: Id) -> Option<&Dialog>
    ensures { option_copied result ≡ dialog_at desc.now id }
{
    desc.dialogs
        .as_slice()
        .iter()
        .find(|dialog| dialog.node.id == id)
}

// The rules of the dialog at these places.
fn rules_at(dialog: &Dialog, conflict: Conflict) -> Option<Rules<'_>>
    ensures { IfSome result (λ rules. IsRuleIn dialog.now rules.last.now.id) }
{
    let rules = dialog.rules.as_slice();
    let first = rules.get(conflict.first)?;
    let last = rules.get(conflict.last)?;
    Some(Rules {
        first,
        last,
        count: conflict.count,
    })
}

// The rules of a dialog because of which the goal isn't reached.
fn rules_against(
    alloc: Global,
    desc: &Desc,
    id: Id,
    goal: Goal,
) -> Result<Option<Rules<'_>>, AllocError>
    ensures { IfOk result (λ found. IfSome found (λ rules. IsRuleOf desc.now id rules.last.now.id)) }
{
    let Some(dialog) = dialog_at(desc, id) else {
        return Ok(None);
    };
    match conflict_against(alloc, dialog, goal)? {
        Some(conflict) => Ok(rules_at(dialog, conflict)),
        None => Ok(None),
    }
}

// The rule that shows a view.
fn rule_showing(
    alloc: Global,
    desc: &Desc,
    id: Id,
    view: Id,
) -> Result<Option<Rules<'_>>, AllocError> {
    let Some(dialog) = dialog_at(desc, id) else {
        return Ok(None);
    };
    match first_showing(alloc, dialog, view)? {
        Some(place) => Ok(rules_at(
            dialog,
            Conflict {
                first: place,
                last: place,
                count: 1,
            },
        )),
        None => Ok(None),
    }
}

// The finding stands on the last of the rules of the dialog because of which the goal isn't reached, or if there are none, on
// its own line.
fn ruled<'a>(
    alloc: Global,
    desc: &'a Desc,
    finding: &Finding,
    id: Id,
    goal: Goal,
) -> Result<Standing<'a>, AllocError>
    requires { ruled_in finding.now ≡ Some id }
    ensures { IfOk result (λ standing. StandsAt desc.now finding.now standing.own) }
{
    match rules_against(alloc, desc, id, goal)? {
        Some(rules) => Ok(Standing {
            own: rules.last.id,
            rules: Some(rules),
        }),
        None => Ok(Standing {
            own: line_of(finding),
            rules: None,
        }),
    }
}

/// Finds where a finding stands.
pub(crate) fn standing_of<'a>(
    alloc: Global,
    desc: &'a Desc,
    finding: &Finding,
) -> Result<Standing<'a>, AllocError>
    ensures { IfOk result (λ standing. StandsAt desc.now finding.now standing.own) }
{
    let own = line_of(finding);
    let rules = match finding {
        Finding::NotGiven(end) => {
            return ruled(alloc, desc, finding, end.dialog, Goal::Ends(end.command));
        }
        Finding::NotFocused(member) => {
            return ruled(
                alloc,
                desc,
                finding,
                member.dialog,
                Goal::Focuses(member.view),
            );
        }
        Finding::NotShown(member) => {
            rules_against(alloc, desc, member.dialog, Goal::Shows(member.view))?
        }
        Finding::Refused(end) => rule_showing(alloc, desc, end.end.dialog, end.input)?,
        _ => None,
    };
    Ok(Standing { own, rules })
}
