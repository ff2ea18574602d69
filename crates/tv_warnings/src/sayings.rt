//! What is said of each finding.

use crate::finding::{BlockedEnd, End, Finding, Member, RefusedEnd, Unknown};
use crate::met::met_by;
use crate::page::Page;
use crate::saying::{Part, Saying};
use crate::standing::{Rules, Standing, dialog_at};
use std::alloc::{AllocError, Global};
use tv_advice::text_of;
use tv_event::Command;
use tv_model::{Desc, Dialog, Id, Kind, Node};
use tv_reach::Goal;
use tv_script::end_word;
use tv_ways::{Cut, Lost};

// The word of the command that ends a dialog.
fn end_text(command: Command) -> &'static str {
    str::from_utf8(end_word(command)).unwrap_or("")
}

fn unopened(alloc: Global, dialog: Option<&Dialog>) -> Result<Saying, AllocError> {
    let saying = Saying::new(
        alloc,
        "nothing opens this dialog",
        Part::Word(1),
        "no start, no status item and no menu item opens it",
    )?;
    let opens = match dialog {
        Some(dialog) => dialog.head().opens,
        None => None,
    };
    match opens {
        Some(number) => {
            let mend = format!(in alloc;
                "give an item the command {number}, unless your program gives it"
            )?;
            saying.mended_by(alloc, &mend)
        }
        None => saying.mended_by(
            alloc,
            "write `opens 100` before its `ends`, and give an item the command 100",
        ),
    }
}

fn no_giver(alloc: Global, end: End) -> Result<Saying, AllocError> {
    let word = end_text(end.command);
    let message = format!(in alloc; "nothing gives `{word}`")?;
    let mend = format!(in alloc;
        "add a button with `{word}`, unless your program gives it, or take it from the ends"
    )?;
    Saying::new(
        alloc,
        &message,
        Part::Named(word),
        "no button and no status item gives it",
    )?
    .mended_by(alloc, &mend)
}

// Says of rules that they never hold together, or of a finding without rules what it comes to.
fn by_rules(
    alloc: Global,
    message: &str,
    rules: Option<Rules<'_>>,
    bare: (Part, &str),
) -> Result<Saying, AllocError> {
    let Some(Rules { first, last, count }) = rules else {
        let (part, label) = bare;
        return Saying::new(alloc, message, part, label)?.mended_by(
            alloc,
            "let rules that can hold together show and enable it",
        );
    };
    if first.id == last.id {
        return Saying::new(alloc, message, Part::All, "this rule never holds")?.mended_by(
            alloc,
            "drop this rule, or let a user mark its item",
        );
    }
    let label = if count > 2 {
        let others = count.saturating_sub(2);
        format!(in alloc; "and this one, with {others} more, never hold together")?
    } else {
        String::from_str(alloc, "and this one never hold together")?
    };
    Saying::new(alloc, message, Part::All, &label)?
        .with_other(alloc, first.id, "this rule")?
        .mended_by(alloc, "drop one of these rules")
}

fn not_given(alloc: Global, end: End, rules: Option<Rules<'_>>) -> Result<Saying, AllocError> {
    let word = end_text(end.command);
    let message = format!(in alloc; "`{word}` is never given")?;
    let bare = (
        Part::Named(word),
        "what gives it is never shown and enabled",
    );
    by_rules(alloc, &message, rules, bare)
}

const STARTS_OUTSIDE: &str = "its text is outside its domain while it is hidden";

fn blocked(alloc: Global, blocked: BlockedEnd) -> Result<Saying, AllocError> {
    let word = end_text(blocked.end.command);
    let message = format!(in alloc; "`{word}` is refused by an input that is never shown")?;
    Saying::new(alloc, &message, Part::Word(1), STARTS_OUTSIDE)?.mended_by(
        alloc,
        "start it inside its domain, or make it `optional`",
    )
}

// What the finding calls the view.
fn node_in(desc: &Desc, member: Member) -> Option<&Node> {
    dialog_at(desc, member.dialog)?.node(member.view)
}

fn not_focused(
    alloc: Global,
    desc: &Desc,
    member: Member,
    rules: Option<Rules<'_>>,
) -> Result<Saying, AllocError> {
    let name = match node_in(desc, member) {
        Some(node) => tv_advice::name_of(alloc, node)?,
        None => String::new(alloc),
    };
    let message = format!(in alloc; "`{name}` never gets the focus")?;
    let bare = (Part::Word(1), "it is never shown and enabled");
    by_rules(alloc, &message, rules, bare)
}

fn not_shown(
    alloc: Global,
    desc: &Desc,
    member: Member,
    rules: Option<Rules<'_>>,
) -> Result<Saying, AllocError> {
    let message = match node_in(desc, member) {
        Some(
            Node {
                kind: Kind::Label(_),
                ..
            },
        ) => "this label is never shown",
        _ => "this text is never shown",
    };
    let saying = Saying::new(alloc, message, Part::Quoted(0), "no user sees it")?.mended_by(
        alloc,
        "let rules that can hold together show it, or drop it",
    )?;
    match rules {
        Some(rules) => saying.with_other(alloc, rules.last.id, "shown only then"),
        None => Ok(saying),
    }
}

fn refused(
    alloc: Global,
    refused: &RefusedEnd,
    rules: Option<Rules<'_>>,
) -> Result<Saying, AllocError> {
    let word = end_text(refused.end.command);
    let message = format!(in alloc; "`{word}` is refused by an input that nobody sees")?;
    let met = met_by(alloc, refused.events.as_slice())?;
    let saying = Saying::new(alloc, &message, Part::Word(1), STARTS_OUTSIDE)?.met_by(met);
    let Some(Rules { first, .. }) = rules else {
        return saying.mended_by(alloc, "start it inside its domain, or make it `optional`");
    };
    let cluster = text_of(alloc, first.cluster.as_slice())?;
    let item = first.item;
    let mend = format!(in alloc;
        "start it inside its domain, make it `optional`, or write `enable {word} when {cluster} {item}`"
    )?;
    saying
        .with_other(alloc, first.id, "shown only then")?
        .mended_by(alloc, &mend)
}

fn cut(alloc: Global, cut: Cut) -> Result<Saying, AllocError> {
    let part = Part::Quoted(cut.text);
    match cut.lost {
        Lost::Character => Saying::new(
            alloc,
            "a part of this text is never shown",
            part,
            "it is longer than its room",
        )?
        .mended_by(alloc, "make it shorter, or give it more room"),
        Lost::Letter => Saying::new(
            alloc,
            "the letter that is marked here is never shown",
            part,
            "the mark is behind the last column that is shown",
        )?
        .mended_by(alloc, "mark an earlier letter, or give the text more room"),
    }
}

// Whether a dialog has the button.
fn is_button(desc: &Desc, id: Id) -> bool {
    match desc.node(id) {
        Some(node) => node.kind.is_button(),
        None => false,
    }
}

fn idle(alloc: Global, desc: &Desc, id: Id) -> Result<Saying, AllocError> {
    if is_button(desc, id) {
        Saying::new(
            alloc,
            "this button does nothing",
            Part::BehindQuoted,
            "while a dialog is open this command does nothing",
        )?
        .mended_by(alloc, "give it another command")
    } else {
        Saying::new(
            alloc,
            "this menu item does nothing",
            Part::BehindQuoted,
            "while a menu is open there is no dialog to end",
        )?
        .mended_by(alloc, "give it another command")
    }
}

// What the goal is, as a line of `ways` begins.
fn goal_text(alloc: Global, desc: &Desc, unknown: Unknown) -> Result<String, AllocError> {
    let (word, id) = match unknown.goal {
        Goal::Opens => return String::from_str(alloc, "open"),
        Goal::Ends(command) => {
            let word = end_text(command);
            return format!(in alloc; "end {word}");
        }
        Goal::Focuses(id) => ("focus", id),
        Goal::Shows(id) => ("show", id),
    };
    let member = Member {
        dialog: unknown.dialog,
        view: id,
    };
    let name = match node_in(desc, member) {
        Some(node) => tv_advice::name_of(alloc, node)?,
        None => String::new(alloc),
    };
    format!(in alloc; "{word} {name}")
}

fn unknown(alloc: Global, desc: &Desc, unknown: Unknown) -> Result<Saying, AllocError> {
    let goal = goal_text(alloc, desc, unknown)?;
    let message = format!(in alloc; "it is unknown whether a user reaches `{goal}`")?;
    Saying::new(
        alloc,
        &message,
        Part::Word(1),
        "its radio buttons have more than 4096 choices",
    )
}

/// Says what there is to say of a finding that stands so.
pub(crate) fn saying_of(
    alloc: Global,
    page: &Page,
    finding: &Finding,
    standing: Standing<'_>,
) -> Result<Saying, AllocError> {
    let rules = standing.rules;
    match finding {
        Finding::NotOpened(id) => unopened(alloc, dialog_at(page.desc, *id)),
        Finding::NoGiver(end) => no_giver(alloc, *end),
        Finding::NotGiven(end) => not_given(alloc, *end, rules),
        Finding::Blocked(end) => blocked(alloc, *end),
        Finding::NotFocused(member) => not_focused(alloc, page.desc, *member, rules),
        Finding::NotShown(member) => not_shown(alloc, page.desc, *member, rules),
        Finding::Refused(end) => refused(alloc, end, rules),
        Finding::Cut(found) => cut(alloc, *found),
        Finding::Idle(id) => idle(alloc, page.desc, *id),
        Finding::Unknown(what) => unknown(alloc, page.desc, *what),
    }
}
