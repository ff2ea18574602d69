//! What a dialog keeps of its views and rules.

ghost use Rattle.std.specs.Prelude.{◌≡◌, ◌==◌, IfOk, Option, option_copied, find, filter_map, map, option_map};
ghost use Rattle.std.specs.List.{list_any};
ghost use Rattle.tv_model.specs.declared.node.Node.{Node};
ghost use Rattle.tv_model.specs.Description.Nodes.{has_id, is_default};
ghost use Rattle.tv_machine.specs.Leaves.{leaf_list};
ghost use Rattle.tv_dialog.specs.Placing.{placed_node};
ghost use Rattle.tv_dialog.specs.Plan.{condition_of, conditions_among, gate_of, has_button_at, has_rules, is_around, is_shown_by, leaf_plan, meant_id, plan_of, showing_of};
ghost use Rattle.tv_dialog.specs.Drawn.{default_now, lent};

use crate::condition::Condition;
use std::alloc::{AllocError, Global};
use tv_model::{Effect, Id, Node, Record, Rule, Sequence, natural};
use tv_valid::Chars;
use tv_view::Env;

/// What a dialog keeps of a leaf.
#[derive(Debug, Drop)]
pub(crate) struct LeafPlan {
    pub(crate) id: Id,
    pub(crate) is_button: bool,
    /// The conditions of all show rules over it and over the panes around it.
    pub(crate) shown_when: Sequence<Condition>,
}

/// A condition on which a command is enabled.
#[derive(Clone, Copy, Debug)]
pub(crate) struct Gate {
    pub(crate) number: u32,
    pub(crate) condition: Condition,
}

/// What a dialog keeps of its views and rules: ids and numbers, and no texts.
#[derive(Debug, Drop)]
pub(crate) struct Plan {
    /// In description order.
    pub(crate) leaves: Sequence<LeafPlan>,
    pub(crate) gates: Sequence<Gate>,
    /// The declared default button, hidden or not.
    pub(crate) default_button: Option<Id>,
    /// Whether there are rules.
    pub(crate) has_rules: bool,
}

impl LeafPlan {
    /// Whether every condition on showing it is met.
    pub(crate) fn is_shown(&self, marks: &Record) -> bool
        ensures { result ≡ is_shown_by marks.now self.now }
    {
        self.shown_when
            .as_slice()
            .iter()
            .all(|condition| condition.is_met(marks))
    }
}

// A condition on which a view is shown.
#[derive(Clone, Copy)]
struct Showing {
    target: Id,
    condition: Condition,
}

// A leaf, and the panes around it from the innermost out.
#[derive(Clone, Copy)]
struct Placed<'a> {
    node: &'a Node,
    panes: &'a [&'a Node],
}

// The first view that gives the name.
fn meant(views: &[Node], name: &Chars) -> Option<Id>
    ensures { result ≡ meant_id views.now name.now }
{
    views
        .iter()
        .find(|view| view.gives_name(name))
        .map(|view| view.id)
}

fn kept_condition(views: &[Node], rule: &Rule) -> Condition
    ensures { result ≡ condition_of views.now rule.now }
{
    Condition {
        cluster: meant(views, &rule.cluster),
        item: natural(&rule.item),
    }
}

// Returns what a rule shows, and on which condition. A rule that shows no view that there is has none.
fn kept_showing(views: &[Node], rule: &Rule) -> Option<Showing>
    ensures { result ≡ showing_of views.now rule.now }
{
    match &rule.effect {
        Effect::Show(name) => Some(Showing {
            target: meant(views, name)?,
            condition: kept_condition(views, rule),
        }),
        Effect::Enable(_) => None,
    }
}

fn kept_showings(
    alloc: Global,
    views: &[Node],
    rules: &[Rule],
) -> Result<Sequence<Showing>, AllocError>
    ensures { IfOk result (λ showings. showings ≡ filter_map (showing_of views.now) rules.now) }
{
    let mut showings = Sequence::new(alloc);
    for rule in rules {
        if let Some(showing) = kept_showing(views, rule) {
            showings.push(showing)?;
        }
    }
    Ok(showings)
}

fn any_has(panes: &[&Node], id: Id) -> bool
    ensures { result ≡ list_any (λ pane. has_id id pane.now) panes.now }
{
    panes.iter().any(|pane| pane.id == id)
}

// Whether the view of the id is the leaf or a pane around it.
fn is_around(leaf: Placed, target: Id) -> bool
    ensures { result ≡ is_around (placed_node leaf.entry) target }
{
    leaf.node.id == target || any_has(leaf.panes, target)
}

// The conditions on which the leaf is shown.
fn kept_conditions(
    alloc: Global,
    leaf: Placed,
    showings: &[Showing],
) -> Result<Sequence<Condition>, AllocError>
    ensures { IfOk result (λ conditions. conditions ≡ conditions_among (placed_node leaf.entry) showings.now) }
{
    let mut conditions = Sequence::new(alloc);
    for showing in showings {
        if is_around(leaf, showing.target) {
            conditions.push(showing.condition)?;
        }
    }
    Ok(conditions)
}

fn leaf_plans(
    alloc: Global,
    views: &[Node],
    rules: &[Rule],
) -> Result<Sequence<LeafPlan>, AllocError>
    ensures { IfOk result (λ leaves. leaves ≡ map (leaf_plan views.now rules.now) (leaf_list views.now)) }
{
    let showings = kept_showings(alloc, views, rules)?;
    let mut leaves = Sequence::new(alloc);
    let mut panes: Vec<&Node> = Vec::new(alloc);
    for view in views {
        panes.retain(|pane| pane.depth < view.depth);
        if view.kind.is_pane() {
            panes.insert(0, view)?;
        } else {
            let leaf = Placed {
                node: view,
                panes: &panes,
            };
            leaves.push(LeafPlan {
                id: view.id,
                is_button: view.kind.is_button(),
                shown_when: kept_conditions(alloc, leaf, showings.as_slice())?,
            })?;
        }
    }
    Ok(leaves)
}

fn kept_gate(views: &[Node], rule: &Rule) -> Option<Gate>
    ensures { result ≡ gate_of views.now rule.now }
{
    match &rule.effect {
        Effect::Show(_) => None,
        Effect::Enable(spec) => Some(Gate {
            number: spec.number(),
            condition: kept_condition(views, rule),
        }),
    }
}

fn kept_gates(alloc: Global, views: &[Node], rules: &[Rule]) -> Result<Sequence<Gate>, AllocError>
    ensures { IfOk result (λ gates. gates ≡ filter_map (gate_of views.now) rules.now) }
{
    let mut gates = Sequence::new(alloc);
    for rule in rules {
        if let Some(gate) = kept_gate(views, rule) {
            gates.push(gate)?;
        }
    }
    Ok(gates)
}

fn default_button(views: &[Node]) -> Option<Id>
    ensures { result ≡ option_map (λ view. view.id) (find is_default views.now) }
{
    views
        .iter()
        .find(|view| view.is_default())
        .map(|view| view.id)
}

fn has_rules(rules: &[Rule]) -> bool
    ensures { result ≡ has_rules rules.now }
{
    !rules.is_empty()
}

// The first of the leaves that has the id.
fn leaf_of(leaves: &[LeafPlan], id: Id) -> Option<&LeafPlan>
    ensures { option_copied result ≡ find (λ leaf. leaf.id.0 == id.0) leaves.now }
{
    leaves.iter().find(|leaf| leaf.id == id)
}

impl Plan {
    /// Makes the plan of these views and rules.
    pub(crate) fn of(alloc: Global, views: &[Node], rules: &[Rule]) -> Result<Plan, AllocError>
        ensures { IfOk result (λ plan. plan ≡ plan_of views.now rules.now) }
    {
        Ok(Plan {
            leaves: leaf_plans(alloc, views, rules)?,
            gates: kept_gates(alloc, views, rules)?,
            default_button: default_button(views),
            has_rules: has_rules(rules),
        })
    }

    /// Whether the first leaf of the id is a button.
    fn is_button(&self, id: Id) -> bool
        ensures { result ≡ has_button_at self.now.leaves id }
    {
        match leaf_of(self.leaves.as_slice(), id) {
            Some(leaf) => leaf.is_button,
            None => false,
        }
    }

    /// Returns what Enter presses while the focus is there: the focus if it is a button, else the declared default button.
    fn default_now(&self, focus: Id) -> Option<Id>
        ensures { result ≡ default_now self.now focus }
    {
        if self.is_button(focus) {
            Some(focus)
        } else {
            self.default_button
        }
    }

    /// Makes the environment that a dialog lends its views while the focus is there: adds who has the focus, and what
    /// Enter presses.
    pub(crate) fn lent<'a>(&self, focus: Id, env: &Env<'a>) -> Env<'a>
        ensures { result ≡ lent self.now focus env.now }
    {
        Env {
            focus: Some(focus),
            default_now: self.default_now(focus),
            ..*env
        }
    }
}
