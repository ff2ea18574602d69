//! The findings of a description.

ghost use Rattle.std.specs.Prelude.{◌≡◌, ◌++◌, ◌∷◌, [], All, IfOk, IfSome, OnOk, Some, flat_map, map, option_copied, slice_get};
ghost use Rattle.std.specs.List.{list_any};
ghost use Rattle.tv_app.specs.Opening.{IsSpelledSound};
ghost use Rattle.tv_model.specs.declared.node.Node.{Node as Declared};
ghost use Rattle.tv_ways.specs.Cuts.{cuts_of};
ghost use Rattle.tv_ways.specs.Idle.{idle_commands};
ghost use Rattle.tv_warnings.specs.Findings.{AddsRefused, AreFindings, IsFoundAt, IsRefusedEnd, answer_found, asked_of, end_reached, ends_by, is_only_shown, is_told_of, is_ungiven_by, is_ungiven_kind, never_found, shown_goals, unknown_found, way_findings};
ghost use Rattle.tv_warnings.specs.declared.finding.Finding.TheVariants as tellings;

use crate::finding::{BlockedEnd, End, Finding, Member, RefusedEnd, Unknown};
use std::alloc::{AllocError, Global};
use tv_event::Command;
use tv_model::{CommandSpec, Desc, Dialog, Id, Kind, Node, node_of};
use tv_reach::{Answer, Goal, Reason};
use tv_valid::Sequence;
use tv_ways::{Refusal, Way, cuts_of, goals_of, idle_commands, unseen_refusal, ways_to};

/// A dialog at a place of a description, and the text that spells that.
#[derive(Clone, Copy)]
struct Placed<'a> {
    text: &'a [u8],
    desc: &'a Desc,
    place: usize,
    dialog: &'a Dialog,
}

// What there is to tell of a goal that no events reach.
fn never_found(dialog: Id, goal: Goal, why: Reason) -> Option<Finding>
    ensures { result ≡ never_found dialog goal why }
{
    match (goal, why) {
        (Goal::Opens, _) => Some(Finding::NotOpened(dialog)),
        (Goal::Ends(command), Reason::NoGiver) => Some(Finding::NoGiver(End { dialog, command })),
        (Goal::Ends(command), Reason::NotGiven) => Some(Finding::NotGiven(End { dialog, command })),
        (Goal::Ends(command), Reason::Blocked(input)) => Some(Finding::Blocked(BlockedEnd {
            end: End { dialog, command },
            input,
        })),
        (Goal::Focuses(view), Reason::NotFree) => {
            Some(Finding::NotFocused(Member { dialog, view }))
        }
        (Goal::Shows(view), Reason::NotShown) => Some(Finding::NotShown(Member { dialog, view })),
        _ => None,
    }
}

// What there is to tell of a goal that was given up. No run tells whether a label or a text is shown, so of those nothing is.
fn unknown_found(dialog: Id, goal: Goal) -> Option<Finding>
    ensures { result ≡ unknown_found dialog goal }
{
    match goal {
        Goal::Shows(_) => None,
        _ => Some(Finding::Unknown(Unknown { dialog, goal })),
    }
}

// What there is to tell of an answer.
fn answer_found(dialog: Id, goal: Goal, answer: &Answer) -> Option<Finding>
    ensures { result ≡ answer_found dialog goal answer.now }
{
    match answer {
        Answer::Way(_) => None,
        Answer::Never(why) => never_found(dialog, goal, *why),
        Answer::Unknown => unknown_found(dialog, goal),
    }
}

// Whether a button of this command ends a dialog by that one, other than by `cancel`.
fn ends_by(spec: CommandSpec, command: Command) -> bool
    ensures { result ≡ ends_by spec command.0 }
{
    match spec {
        CommandSpec::Ok => command == Command::OK,
        CommandSpec::Yes => command == Command::YES,
        CommandSpec::No => command == Command::NO,
        _ => false,
    }
}

// Whether what gives the command is never shown and enabled, by this answer.
fn is_ungiven_by(spec: CommandSpec, way: &Way) -> bool
    ensures { result ≡ is_ungiven_by spec way.now.goal way.now.answer }
{
    match (way.goal, &way.answer) {
        (Goal::Ends(command), Answer::Never(Reason::NotGiven)) => ends_by(spec, command),
        _ => false,
    }
}

fn is_any_ungiven(spec: CommandSpec, ways: &[Way]) -> bool
    ensures { result ≡ list_any (λ way. is_ungiven_by spec way.goal way.answer) ways.now }
{
    ways.iter().any(|way| is_ungiven_by(spec, way))
}

// Whether it is a button of such a command.
fn is_ungiven_kind(ways: &[Way], kind: &Kind) -> bool
    ensures { result ≡ is_ungiven_kind ways.now kind.now }
{
    match kind {
        Kind::Button(button) => is_any_ungiven(button.command, ways),
        _ => false,
    }
}

// Whether the end of the button is told of, so that the button isn't.
fn is_told_of(views: &[Node], ways: &[Way], goal: Goal) -> bool
    ensures { result ≡ is_told_of views.now ways.now goal }
{
    match goal {
        Goal::Focuses(id) => match node_of(views, id) {
            Some(node) => is_ungiven_kind(ways, &node.kind),
            None => false,
        },
        _ => false,
    }
}

// Adds what there is to tell of an answer, one of these.
fn add_way(
    found: &mut Vec<Finding>,
    dialog: &Dialog,
    ways: &[Way],
    way: &Way,
) -> Result<(), AllocError>
    ensures { OnOk result (found.new.items ≡ found.old.items ++ way_findings dialog.now ways.now way.now) }
{
    if is_told_of(dialog.views.as_slice(), ways, way.goal) {
        return Ok(());
    }
    if let Some(finding) = answer_found(dialog.node.id, way.goal, &way.answer) {
        found.push(finding)?;
    }
    Ok(())
}

fn add_ways(found: &mut Vec<Finding>, dialog: &Dialog, ways: &[Way]) -> Result<(), AllocError>
    ensures { OnOk result (found.new.items ≡ found.old.items ++ flat_map (way_findings dialog.now ways.now) ways.now) }
{
    for way in ways {
        add_way(found, dialog, ways, way)?;
    }
    Ok(())
}

// The end by which the goal is reached, if a hidden input may refuse it.
fn reached_end(way: &Way) -> Option<Command>
    ensures { result ≡ end_reached way.now }
{
    match (way.goal, &way.answer) {
        (Goal::Ends(command), Answer::Way(_)) if command != Command::CANCEL => Some(command),
        _ => None,
    }
}

// What refuses the end by the goal, if something that is hidden does.
fn refused_end(
    alloc: Global,
    placed: Placed<'_>,
    way: &Way,
) -> Result<Option<RefusedEnd>, AllocError>
    requires { IsSpelledSound placed.text.now placed.desc.now }
    ensures { IfOk result (λ found. IfSome found (IsRefusedEnd placed.entry.desc.now placed.entry.place placed.entry.dialog.now way.now)) }
{
    let Some(command) = reached_end(way) else {
        return Ok(None);
    };
    let found = unseen_refusal(alloc, placed.text, placed.desc, placed.place, command)?;
    let Some(Refusal { input, events }) = found else {
        return Ok(None);
    };
    Ok(Some(RefusedEnd {
        end: End {
            dialog: placed.dialog.node.id,
            command,
        },
        input,
        events,
    }))
}

// Adds the ends of the dialog that hidden inputs refuse.
fn add_refused(
    alloc: Global,
    found: &mut Vec<Finding>,
    placed: Placed<'_>,
    ways: &[Way],
) -> Result<(), AllocError>
    requires { IsSpelledSound placed.text.now placed.desc.now }
    ensures { OnOk result (AddsRefused placed.entry.desc.now placed.entry.place placed.entry.dialog.now ways.now
        found.old.items found.new.items) }
{
    for way in ways {
        if let Some(end) = refused_end(alloc, placed, way)? {
            found.push(Finding::Refused(end))?;
        }
    }
    Ok(())
}

fn is_only_shown(kind: &Kind) -> bool
    ensures { result ≡ is_only_shown kind.now }
{
    matches!(kind, Kind::Label(_) | Kind::Text(_))
}

fn add_shown(goals: &mut Sequence<Goal>, views: &[Node]) -> Result<(), AllocError>
    ensures { OnOk result (goals.new ≡ goals.old ++ shown_goals views.now) }
{
    for view in views {
        if is_only_shown(&view.kind) {
            goals.push(Goal::Shows(view.id))?;
        }
    }
    Ok(())
}

// What is asked of the dialog.
fn asked_of(alloc: Global, dialog: &Dialog) -> Result<Sequence<Goal>, AllocError>
    ensures { IfOk result (λ goals. goals ≡ asked_of dialog.now) }
{
    let mut goals = goals_of(alloc, dialog)?;
    goals.push(Goal::Opens)?;
    add_shown(&mut goals, dialog.views.as_slice())?;
    Ok(goals)
}

// What is found in the dialog.
fn findings_at(alloc: Global, placed: Placed<'_>) -> Result<Vec<Finding>, AllocError>
    requires { IsSpelledSound placed.text.now placed.desc.now }
    ensures { IfOk result (λ found. IsFoundAt placed.entry.desc.now placed.entry.place placed.entry.dialog.now found.items) }
{
    let goals = asked_of(alloc, placed.dialog)?;
    let goals = goals.as_slice();
    let ways = ways_to(alloc, placed.text, placed.desc, placed.place, goals)?;
    let mut found = Vec::new(alloc);
    add_ways(&mut found, placed.dialog, &ways)?;
    add_refused(alloc, &mut found, placed, &ways)?;
    Ok(found)
}

fn add_cuts(alloc: Global, found: &mut Vec<Finding>, desc: &Desc) -> Result<(), AllocError>
    ensures { OnOk result (found.new.items ≡ found.old.items ++ map (λ cut. tellings.Cut cut) (cuts_of desc.now)) }
{
    let cuts = cuts_of(alloc, desc)?;
    for cut in cuts.as_slice() {
        found.push(Finding::Cut(*cut))?;
    }
    Ok(())
}

fn add_idle(alloc: Global, found: &mut Vec<Finding>, desc: &Desc) -> Result<(), AllocError>
    ensures { OnOk result (found.new.items ≡ found.old.items ++ map (λ i. tellings.Idle i) (idle_commands desc.now)) }
{
    let ids = idle_commands(alloc, desc)?;
    for id in ids.as_slice() {
        found.push(Finding::Idle(*id))?;
    }
    Ok(())
}

/// Finds all that there is to warn of in a description, which the text spells: first in each dialog, then the texts that are cut,
/// then the commands that do nothing.
pub fn findings(alloc: Global, text: &[u8], desc: &Desc) -> Result<Vec<Finding>, AllocError>
    requires { IsSpelledSound text.now desc.now }
    ensures { IfOk result (λ found. AreFindings desc.now found.items) }
{
    let mut found = Vec::new(alloc);
    for (place, dialog) in desc.dialogs.as_slice().iter().enumerate() {
        let placed = Placed {
            text,
            desc,
            place,
            dialog,
        };
        let mut more = findings_at(alloc, placed)?;
        found.append(&mut more)?;
    }
    add_cuts(alloc, &mut found, desc)?;
    add_idle(alloc, &mut found, desc)?;
    Ok(found)
}
