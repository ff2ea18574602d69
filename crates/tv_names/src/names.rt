//! Names and what they mean.

ghost use Rattle.std.specs.Prelude.{◌≡◌, ℕ, List, Some, None, MatchOption, IfOk, option_copied, bytes_eq, if◌then◌else◌};
ghost use Rattle.std.specs.Option.{option_or};
ghost use Rattle.tv_model.specs.Description.Names.{meant};
ghost use Rattle.tv_names.specs.Named.{ArePlacesOf, IsFirstAt, first_given, place_in};

use std::alloc::{AllocError, Global};
use std::collections::HashMap;
use std::marker::Model;
use tv_model::Node;
use tv_valid::Chars;

/// Views and the names that they give, each with the place of the first view that gives it. Contracts see the views.
#[derive(Drop)]
pub struct Names<'a> {
    views: &'a [Node],
    places: HashMap<&'a [char], usize>,
}

impl<'a> Model for Names<'a> {
    ghost use Rattle.std.specs.Prelude.{List};
    ghost use Rattle.tv_model.specs.declared.node.Node.{Node};
    ghost use Rattle.tv_names.specs.Named.{ArePlacesOf};

    ghost Value = { List Node };

    ghost view = { λ names. names.views.now };

    ghost invariant = { λ names. ArePlacesOf names.views.now names.places };
}

// Notes the place of the name, where the name has none yet.
fn note_place<'a>(
    places: &mut HashMap<&'a [char], usize>,
    name: &'a [char],
    place: usize,
) -> Result<(), AllocError>
    ensures { IfOk result (λ _. (other : List ℕ) →
        place_in places.new other ≡ option_or (place_in places.old other) (if bytes_eq name.now other then Some place else None)) }
{
    if !places.contains_key(name) {
        places.insert(name, place)?;
    }
    Ok(())
}

// The place of the first view that gives a name, for each name.
fn places_of<'a>(alloc: Global, views: &'a [Node]) -> Result<HashMap<&'a [char], usize>, AllocError>
    ensures { IfOk result (ArePlacesOf views.now) }
{
    let mut places = HashMap::new(alloc);
    for (i, view) in views.iter().enumerate() {
        if let Some(name) = view.kind.name() {
            note_place(&mut places, name.as_slice(), i)?;
        }
    }
    Ok(places)
}

impl<'a> Names<'a> {
    /// Collects the names that the views give.
    pub fn new(alloc: Global, views: &'a [Node]) -> Result<Names<'a>, AllocError>
        ensures { IfOk result (λ names. names ≡ views.now) }
    {
        let places = places_of(alloc, views)?;
        Ok(Names { views, places })
    }

    /// Returns the views, in their order.
    pub fn views(&self) -> &'a [Node]
        ensures { result.now ≡ self.now }
    {
        self.views
    }

    /// Finds the place of the first view that gives the name.
    pub fn place(&self, name: &Chars) -> Option<usize>
        ensures { MatchOption result (first_given self.now name.now ≡ None) (IsFirstAt self.now name.now) }
    {
        self.places.get(name.as_slice()).copied()
    }

    /// Finds what the name means: the first view that gives it.
    pub fn meant(&self, name: &Chars) -> Option<&'a Node>
        ensures { option_copied result ≡ meant self.now name.now }
    {
        self.views.get(self.place(name)?)
    }
}
