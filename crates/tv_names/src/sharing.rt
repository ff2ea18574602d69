//! Letters that several views may mark, since other items of the same radio buttons show them.

ghost use Rattle.std.specs.Prelude.{◌≡◌, ◌<◌, ◌&&◌, ◌||◌, ℕ, ℤ, length, filter, map, nat_eq, nat_lt, take, slice_index_or, ◌==◌, IfOk, IsTrue, OnOk, option_copied};
ghost use Rattle.std.specs.HashSet as set;
ghost use Rattle.std.specs.List.{list_all};
ghost use Rattle.std.specs.Ordering.{int_eq};
ghost use Rattle.tv_model.specs.declared.node.Node.{Node as SeenNode};
ghost use Rattle.tv_model.specs.Description.Marks.{marks};
ghost use Rattle.tv_model.specs.Description.Sharing.{are_apart, is_radios, is_shared, is_shared_by, item_shown_by, marked_times, sharer_of};
ghost use Rattle.tv_names.specs.Focus.{standing};
ghost use Rattle.tv_names.specs.Marked.{is_marked_in};
ghost use Rattle.tv_names.specs.Sharing.{AreMarkersAt, AreSharedOf, AreWithin, first_item, first_separating, goes_by, groups_of, is_new, is_over, item_showing, items_at, lent_group, marker_at, or_option_item, show_rule_of, show_rules_of};
ghost use Rattle.tv_overlaps.specs.Standing.{AreOwners};

use crate::letters::{letter_of, marked_of, marks};
use crate::names::Names;
use std::alloc::{AllocError, Global};
use std::collections::HashSet;
use std::marker::Model;
use tv_model::{Effect, Id, Kind, MarkedText, Node, Rule};
use tv_overlaps::{owners, stands_over};

/// A show rule by the ids of what its names mean.
#[derive(Clone, Copy, Debug, Drop)]
pub struct ShowRule {
    cluster: Id,
    target: Id,
    item: i32,
}

/// Radio buttons, and the show rules that go by them, in their order.
#[derive(Drop)]
pub struct Group<'a> {
    radios: &'a Node,
    rules: Vec<ShowRule>,
}

/// What views share. Contracts see the views with the rules over them.
#[derive(Drop)]
pub struct Sharing<'a> {
    views: &'a [Node],
    rules: &'a [Rule],
    owners: Vec<Option<usize>>,
    shown: Vec<ShowRule>,
    groups: Vec<Group<'a>>,
}

impl<'a> Model for Sharing<'a> {
    ghost use Rattle.std.specs.Prelude.{◌≡◌, map};
    ghost use Rattle.tv_names.specs.Sharing.{RuledViews, groups_of, lent_group, show_rules_of};
    ghost use Rattle.tv_overlaps.specs.Standing.{AreOwners};

    ghost Value = { RuledViews };

    ghost view = { λ s. record { views = s.views.now; rules = s.rules.now } };

    ghost invariant = { λ s.
        AreOwners s.owners.items s.views.now
        × (s.shown.items ≡ show_rules_of s.views.now s.rules.now)
        × (map lent_group s.groups.items ≡ groups_of s.views.now s.shown.items) };
}

// What the rule says by ids, where it shows a view and both of its names mean one.
fn show_rule(names: &Names, rule: &Rule) -> Option<ShowRule>
    ensures { result ≡ show_rule_of names.now rule.now }
{
    match &rule.effect {
        Effect::Show(name) => match (names.meant(&rule.cluster), names.meant(name)) {
            (Some(cluster), Some(target)) => Some(ShowRule {
                cluster: cluster.id,
                target: target.id,
                item: rule.item,
            }),
            _ => None,
        },
        Effect::Enable(_) => None,
    }
}

fn show_rules(alloc: Global, views: &[Node], rules: &[Rule]) -> Result<Vec<ShowRule>, AllocError>
    ensures { IfOk result (λ shown. shown.items ≡ show_rules_of views.now rules.now) }
{
    let names = Names::new(alloc, views)?;
    rules
        .iter()
        .filter_map(|own| show_rule(&names, own))
        .collect(alloc)
}

// Those of the rules that go by the marks of this cluster.
fn rules_by(alloc: Global, rules: &[ShowRule], cluster: Id) -> Result<Vec<ShowRule>, AllocError>
    ensures { IfOk result (λ own. own.items ≡ filter (goes_by cluster) rules.now) }
{
    rules
        .iter()
        .filter(|own| own.cluster == cluster)
        .copied()
        .collect(alloc)
}

fn is_radios(kind: &Kind) -> bool
    ensures { result ≡ is_radios kind.now }
{
    matches!(kind, Kind::RadioButtons(_))
}

// All radio buttons among the views, each with its rules.
fn groups<'a>(
    alloc: Global,
    views: &'a [Node],
    shown: &[ShowRule],
) -> Result<Vec<Group<'a>>, AllocError>
    ensures { IfOk result (λ groups. map lent_group groups.items ≡ groups_of views.now shown.now) }
{
    let mut groups = Vec::new(alloc);
    for radios in views {
        if is_radios(&radios.kind) {
            let rules = rules_by(alloc, shown, radios.id)?;
            groups.push(Group { radios, rules })?;
        }
    }
    Ok(groups)
}

// How often the texts mark the letter.
fn times(letter: char, texts: &[MarkedText]) -> usize
    ensures { result ≡ length (filter (marks letter) texts.now) }
{
    texts.iter().filter(|text| marks(letter, text)).count()
}

fn marked_times(letter: char, view: &Node) -> usize
    ensures { result ≡ marked_times letter view.now }
{
    times(letter, marked_of(&view.kind))
}

fn marks_once(letter: char, view: &Node) -> bool
    ensures { result ≡ (marked_times letter view.now == 1) }
{
    marked_times(letter, view) == 1
}

// The places of the views that mark the letter.
fn markers_of(alloc: Global, views: &[Node], letter: char) -> Result<Vec<usize>, AllocError>
    ensures { IfOk result (λ places. AreMarkersAt views.now letter places.items) }
{
    let mut places = Vec::new(alloc);
    for (place, view) in views.iter().enumerate() {
        if marked_times(letter, view) > 0 {
            places.push(place)?;
        }
    }
    Ok(places)
}

// Whether each of the views at these places marks the letter once.
fn mark_once(views: &[Node], letter: char, places: &[usize]) -> bool
    requires { AreWithin views.now places.now }
    ensures { (view : SeenNode) → result ≡ list_all (λ place. marked_times letter (slice_index_or views.now place view) == 1) places.now }
{
    for place in places {
        if !marks_once(letter, &views[*place]) {
            return false;
        }
    }
    true
}

// Whether there are two or more of these places, and each of their views marks the letter once.
fn may_share(views: &[Node], letter: char, places: &[usize]) -> bool
    requires { AreWithin views.now places.now }
    ensures many { IsTrue result → 1 < length places.now }
    ensures value { (view : SeenNode)
        → result ≡ (nat_lt 1 (length places.now)
        && list_all (λ place. marked_times letter (slice_index_or views.now place view) == 1) places.now) }
{
    places.len() > 1 && mark_once(views, letter, places)
}

// The item of the first of the rules that goes by the cluster and shows the view at this place or a pane around it.
fn item_in(
    owners: &[Option<usize>],
    views: &[Node],
    rules: &[ShowRule],
    cluster: Id,
    place: usize,
) -> Option<i32>
    requires owners { AreOwners owners.now views.now }
    requires within { place < length views.now }
    ensures { (view : SeenNode) → result ≡ item_showing rules.now cluster (take place views.now) (slice_index_or views.now place view) }
{
    for rule in rules {
        if rule.cluster == cluster && stands_over(owners, views, rule.target, place) {
            return Some(rule.item);
        }
    }
    None
}

// The ids of the view at this place and of the panes around it.
fn standing(
    alloc: Global,
    owners: &[Option<usize>],
    views: &[Node],
    place: usize,
) -> Result<Vec<Id>, AllocError>
    requires owners { AreOwners owners.now views.now }
    requires within { place < length views.now }
    ensures { IfOk result (λ ids. (view : SeenNode) → ids.items ≡ standing (take place views.now) (slice_index_or views.now place view)) }
{
    let mut ids = Vec::new(alloc);
    let mut around = Some(place);
    while let Some(place) = around {
        ids.push(views[place].id)?;
        around = owners[place];
    }
    Ok(ids)
}

// Whether the rule shows a view of these ids.
fn is_over(rule: &ShowRule, ids: &[Id]) -> bool
    ensures { result ≡ is_over ids.now rule.now }
{
    let target = rule.target;
    ids.iter().any(|id| *id == target)
}

// The item of the first of the rules that shows a view of these ids.
fn first_item(rules: &[ShowRule], ids: &[Id]) -> Option<i32>
    ensures { result ≡ first_item rules.now ids.now }
{
    let over = rules.iter().find(|rule| is_over(rule, ids))?;
    Some(over.item)
}

// Whether the radio buttons have another item for each of the views at these places.
fn separates(
    alloc: Global,
    owners: &[Option<usize>],
    views: &[Node],
    group: &Group,
    places: &[usize],
) -> Result<bool, AllocError>
    requires owners { AreOwners owners.now views.now }
    requires within { AreWithin views.now places.now }
    ensures { IfOk result (λ is_so. (view : SeenNode) → is_so ≡ are_apart (items_at views.now (lent_group group.now) view places.now)) }
{
    let rules = group.rules.as_slice();
    let mut items = HashSet::new(alloc);
    for place in places {
        let around = standing(alloc, owners, views, *place)?;
        let ids = around.as_slice();
        let item = first_item(rules, ids);
        if !is_other(&mut items, item)? {
            return Ok(false);
        }
    }
    Ok(true)
}

// Adds the item. Returns whether there is one, and it wasn't among the items before.
fn is_other(items: &mut HashSet<i32>, item: Option<i32>) -> Result<bool, AllocError>
    ensures other { IfOk result (λ is_so. is_so ≡ is_new (set.contains int_eq items.old) item) }
    ensures added { OnOk result ((other : ℤ)
        → set.contains int_eq items.new other ≡ or_option_item (set.contains int_eq items.old) item other) }
{
    match item {
        Some(item) => Ok(items.insert(item)?),
        None => Ok(false),
    }
}

// The first radio buttons that have another item for each of the views at these places.
fn separating<'a>(
    alloc: Global,
    owners: &[Option<usize>],
    views: &[Node],
    groups: &[Group<'a>],
    places: &[usize],
) -> Result<Option<&'a Node>, AllocError>
    requires owners { AreOwners owners.now views.now }
    requires within { AreWithin views.now places.now }
    ensures { IfOk result (λ radios. (view : SeenNode)
        → option_copied radios ≡ first_separating views.now (map lent_group groups.now) view places.now) }
{
    for group in groups {
        if separates(alloc, owners, views, group, places)? {
            return Ok(Some(group.radios));
        }
    }
    Ok(None)
}

impl<'a> Sharing<'a> {
    /// Notes which rules show views by the items of radio buttons.
    pub fn new(
        alloc: Global,
        views: &'a [Node],
        rules: &'a [Rule],
    ) -> Result<Sharing<'a>, AllocError>
        ensures { IfOk result (λ sharing. sharing ≡ record { views = views.now; rules = rules.now }) }
    {
        let owners = owners(alloc, views)?;
        let shown = show_rules(alloc, views, rules)?;
        let groups = groups(alloc, views, &shown)?;
        Ok(Sharing {
            views,
            rules,
            owners,
            shown,
            groups,
        })
    }

    /// Finds the item of the radio buttons by which the view at this place is shown.
    pub fn item(&self, radios: &Node, place: usize) -> Option<i32>
        requires { place < length self.now.views }
        ensures { (view : SeenNode)
            → result ≡ item_shown_by self.now.views self.now.rules radios.now (marker_at self.now.views view place) }
    {
        let owners = self.owners.as_slice();
        let shown = self.shown.as_slice();
        item_in(owners, self.views, shown, radios.id, place)
    }

    /// Returns the places of the views that mark the letter.
    pub fn markers(&self, alloc: Global, letter: char) -> Result<Vec<usize>, AllocError>
        ensures { IfOk result (λ places. AreMarkersAt self.now.views letter places.items) }
    {
        markers_of(alloc, self.views, letter)
    }

    /// Finds the first radio buttons by which the letter is shared lawfully.
    pub fn sharer(&self, alloc: Global, letter: char) -> Result<Option<&'a Node>, AllocError>
        ensures { IfOk result (λ radios. option_copied radios ≡ sharer_of self.now.views self.now.rules letter) }
    {
        let owners = self.owners.as_slice();
        let groups = self.groups.as_slice();
        let marked = markers_of(alloc, self.views, letter)?;
        let places = marked.as_slice();
        if may_share(self.views, letter, places) {
            separating(alloc, owners, self.views, groups, places)
        } else {
            Ok(None)
        }
    }
}

// Whether the letter is shared lawfully.
fn is_shared(alloc: Global, sharing: &Sharing, letter: char) -> Result<bool, AllocError>
    ensures { IfOk result (λ is_so. is_so ≡ is_shared sharing.now.views sharing.now.rules letter) }
{
    Ok(sharing.sharer(alloc, letter)?.is_some())
}

// Notes whether the letter that the text marks is shared, where it wasn't seen before.
fn note(
    alloc: Global,
    sharing: &Sharing,
    seen: &mut HashSet<char>,
    shared: &mut HashSet<char>,
    text: &MarkedText,
) -> Result<(), AllocError>
    requires { AreSharedOf sharing.now.views sharing.now.rules (set.contains nat_eq seen.now) shared.now }
    ensures seen { OnOk result ((ch : ℕ) → set.contains nat_eq seen.new ch ≡ (set.contains nat_eq seen.old ch || marks ch text.now)) }
    ensures shared { OnOk result (AreSharedOf sharing.now.views sharing.now.rules (set.contains nat_eq seen.new) shared.new) }
{
    if let Some(letter) = letter_of(text) {
        if seen.insert(letter)? && is_shared(alloc, sharing, letter)? {
            shared.insert(letter)?;
        }
    }
    Ok(())
}

// Notes which of the letters that the texts mark are shared, where they weren't seen before.
fn note_all(
    alloc: Global,
    sharing: &Sharing,
    seen: &mut HashSet<char>,
    shared: &mut HashSet<char>,
    texts: &[MarkedText],
) -> Result<(), AllocError>
    requires { AreSharedOf sharing.now.views sharing.now.rules (set.contains nat_eq seen.now) shared.now }
    ensures seen { OnOk result ((ch : ℕ)
        → set.contains nat_eq seen.new ch ≡ (set.contains nat_eq seen.old ch || is_marked_in texts.now ch)) }
    ensures shared { OnOk result (AreSharedOf sharing.now.views sharing.now.rules (set.contains nat_eq seen.new) shared.new) }
{
    for text in texts {
        note(alloc, sharing, seen, shared, text)?;
    }
    Ok(())
}

// The letters that are shared lawfully.
fn letters(alloc: Global, views: &[Node], rules: &[Rule]) -> Result<HashSet<char>, AllocError>
    ensures { IfOk result (λ shared. (letter : ℕ) → set.contains nat_eq shared letter ≡ is_shared views.now rules.now letter) }
{
    let sharing = Sharing::new(alloc, views, rules)?;
    let mut seen = HashSet::new(alloc);
    let mut shared = HashSet::new(alloc);
    for view in views {
        note_all(
            alloc,
            &sharing,
            &mut seen,
            &mut shared,
            marked_of(&view.kind),
        )?;
    }
    Ok(shared)
}

/// Finds the letters that the views share lawfully by the rules, where there are rules.
pub fn shared_letters(
    alloc: Global,
    views: &[Node],
    sharing: Option<&[Rule]>,
) -> Result<HashSet<char>, AllocError>
    ensures { IfOk result (λ shared. (letter : ℕ)
        → set.contains nat_eq shared letter ≡ is_shared_by (option_copied sharing.entry) views.now letter) }
{
    match sharing {
        Some(rules) => letters(alloc, views, rules),
        None => Ok(HashSet::new(alloc)),
    }
}
