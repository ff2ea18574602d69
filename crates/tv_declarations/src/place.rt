//! Where nodes stand.

ghost use Rattle.std.specs.Prelude.{◌≡◌};
ghost use Rattle.tv_declarations.specs.Reading.Places.{node_at, place_from};

use tv_model::{Id, Kind, Node};
use tv_words::Word;

/// A node's line in the canonical text, and how many panes are around it.
#[derive(Clone, Copy)]
pub struct Position {
    pub id: Id,
    pub depth: u8,
}

/// A corner and a width.
#[derive(Clone, Copy)]
pub struct Place {
    x: i32,
    y: i32,
    w: i32,
}

impl Place {
    /// Reads the place that three numbers give; `None` where a word is no number.
    pub fn read(x: &Word, y: &Word, w: &Word) -> Option<Place>
        ensures { result ≡ place_from x.now y.now w.now }
    {
        Some(Place {
            x: x.number()?,
            y: y.number()?,
            w: w.number()?,
        })
    }

    /// Makes a node of the kind at this place.
    pub fn node(&self, at: Position, kind: Kind) -> Node
        ensures { result ≡ node_at at self.now kind }
    {
        Node {
            id: at.id,
            depth: at.depth,
            x: self.x,
            y: self.y,
            w: self.w,
            kind,
        }
    }
}
