//! What is told of names, and of what rules name: F1 and F6 to F8.

use crate::naming::{called, name_of, one_of_items, text_of, with_article, word_of};
use crate::saying::{LinePart, Saying};
use crate::view_names::{Bearer, ViewNames};
use std::alloc::{AllocError, Global};
use tv_explain::Reason;
use tv_model::{Effect, Kind, Node, Rule};

/// Tells which name is given again.
pub fn name_again(alloc: Global, node: &Node, other: &Node) -> Result<Saying, AllocError> {
    let name = name_of(alloc, node)?;
    let place = if node.kind.is_window() || node.kind.is_dialog() {
        ""
    } else {
        " in this dialog"
    };
    let message = format!(in alloc; "the name `{name}` is given twice{place}")?;
    let part = LinePart::word(1);
    let mend = "give one of the two another name";
    let saying = Saying::new(alloc, &message, part, "given again here", mend)?;
    let word = word_of(&other.kind);
    let label = format!(in alloc; "this {word} has the name")?;
    saying.with_other(alloc, part, &label)
}

// How to mend a name that isn't there: by one that is near to it, or so.
fn name_mend(
    alloc: Global,
    names: Option<&ViewNames>,
    name: &str,
    bearer: Bearer,
    mend: &str,
) -> Result<String, AllocError> {
    let nearest = match names {
        Some(names) => names.nearest(alloc, name, bearer)?,
        None => None,
    };
    match nearest {
        Some(nearest) => format!(in alloc; "did you mean `{nearest}`?"),
        None => String::from_str(alloc, mend),
    }
}

// What is said of the name that a label links to, and how to mend it.
const LINK: &str = "a label stands for a button, input, cluster or list";

const LINK_MEND: &str = "name a control of this dialog";

// Tells that a label links to this, which is no control.
fn label_to(alloc: Global, name: &str, found: &Node) -> Result<Saying, AllocError> {
    let word = word_of(&found.kind);
    let message = format!(in alloc; "this label stands for `{name}`, which is a {word}")?;
    let saying = Saying::new(alloc, &message, LinePart::word(5), LINK, LINK_MEND)?;
    saying.with_other(alloc, LinePart::word(1), "this has the name")
}

// Tells that nothing has the name that a label links to.
fn label_to_nothing(
    alloc: Global,
    names: Option<&ViewNames>,
    name: &str,
) -> Result<Saying, AllocError> {
    let mend = name_mend(alloc, names, name, Bearer::Control, LINK_MEND)?;
    let message = format!(in alloc; "this label leads nowhere: no control is called `{name}`")?;
    Saying::new(alloc, &message, LinePart::word(5), LINK, &mend)
}

/// Tells where a label leads, which is to no control.
pub fn label_link(
    alloc: Global,
    names: Option<&ViewNames>,
    node: &Node,
    other: Option<&Node>,
) -> Result<Saying, AllocError> {
    let name = match &node.kind {
        Kind::Label(label) => text_of(alloc, label.link.as_slice())?,
        _ => String::new(alloc),
    };
    match other {
        Some(found) => label_to(alloc, &name, found),
        None => label_to_nothing(alloc, names, &name),
    }
}

// How many items a cluster has.
fn item_count(node: &Node) -> usize {
    match &node.kind {
        Kind::CheckBoxes(boxes) => boxes.items.as_slice().len(),
        Kind::RadioButtons(radios) => radios.items.as_slice().len(),
        _ => 0,
    }
}

// The name of what a rule shows, or an empty text.
fn target_name(alloc: Global, rule: &Rule) -> Result<String, AllocError> {
    match &rule.effect {
        Effect::Show(name) => text_of(alloc, name.as_slice()),
        Effect::Enable(_) => Ok(String::new(alloc)),
    }
}

fn unknown_target(
    alloc: Global,
    names: Option<&ViewNames>,
    rule: &Rule,
) -> Result<Saying, AllocError> {
    let name = target_name(alloc, rule)?;
    let mend = "name a control or a pane of this dialog";
    let mend = name_mend(alloc, names, &name, Bearer::ControlOrPane, mend)?;
    let message = format!(in alloc; "this rule shows `{name}`, which isn't there")?;
    let label = "no control and no pane of this dialog";
    Saying::new(alloc, &message, LinePart::word(1), label, &mend)
}

fn unknown_item(alloc: Global, rule: &Rule, cluster: &Node) -> Result<Saying, AllocError> {
    let name = text_of(alloc, rule.cluster.as_slice())?;
    let count = item_count(cluster);
    let item = rule.item;
    let message = format!(in alloc;
        "this rule goes by item {item} of `{name}`, which has {count}"
    )?;
    let mend = one_of_items(alloc, count)?;
    let part = LinePart::word(4);
    let saying = Saying::new(alloc, &message, part, "items count from 1", &mend)?;
    saying.with_other(alloc, LinePart::word(1), "the rule's cluster")
}

// How to mend what a rule goes by.
const CLUSTER_MEND: &str = "name check boxes or radio buttons of this dialog";

fn no_cluster(alloc: Global, rule: &Rule, found: &Node) -> Result<Saying, AllocError> {
    let name = text_of(alloc, rule.cluster.as_slice())?;
    let one = with_article(&found.kind);
    let message = format!(in alloc; "this rule goes by `{name}`, which is {one}")?;
    let label = "rules go by check boxes or radio buttons";
    let saying = Saying::new(alloc, &message, LinePart::word(3), label, CLUSTER_MEND)?;
    saying.with_other(alloc, LinePart::word(1), "this has the name")
}

fn unknown_cluster(
    alloc: Global,
    names: Option<&ViewNames>,
    rule: &Rule,
) -> Result<Saying, AllocError> {
    let name = text_of(alloc, rule.cluster.as_slice())?;
    let mend = name_mend(alloc, names, &name, Bearer::Cluster, CLUSTER_MEND)?;
    let message = format!(in alloc; "this rule goes by `{name}`, which isn't there")?;
    let label = "no check boxes and no radio buttons of this dialog";
    Saying::new(alloc, &message, LinePart::word(3), label, &mend)
}

/// Tells what a rule names that isn't there.
pub fn rule_unknown(
    alloc: Global,
    names: Option<&ViewNames>,
    rule: &Rule,
    reason: Reason,
    other: Option<&Node>,
) -> Result<Saying, AllocError> {
    match (reason, other) {
        (Reason::UnknownItem, Some(cluster)) => unknown_item(alloc, rule, cluster),
        (Reason::NoCluster, Some(found)) => no_cluster(alloc, rule, found),
        (Reason::UnknownCluster, _) => unknown_cluster(alloc, names, rule),
        _ => unknown_target(alloc, names, rule),
    }
}

/// Tells which cluster a rule goes by and hides.
pub fn rule_shows_itself(alloc: Global, rule: &Rule, cluster: &Node) -> Result<Saying, AllocError> {
    let cluster = called(alloc, cluster)?;
    let target = target_name(alloc, rule)?;
    let message = format!(in alloc; "this rule may hide {cluster}, by which it goes")?;
    let label = format!(in alloc; "`{target}` is hidden while the item isn't marked")?;
    let part = LinePart::word(1);
    let mend = "take the cluster out of what the rule shows";
    let saying = Saying::new(alloc, &message, part, &label, mend)?;
    saying.with_other(alloc, part, "and with it the place to mark the item")
}
