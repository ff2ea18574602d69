//! The desktop.

use tv_cells::{Cell, Face, fill};

/// The desktop where nothing covers it.
#[derive(Clone, Copy)]
pub struct Background;

impl Face for Background {
    ghost use Rattle.tv_model.specs.Screen.Faces.{background};

    ghost face = { λ _. background };

    fn at(&self, _x: u32, _y: u32) -> Cell {
        Cell::shown('.', 0x71)
    }

    fn row(&self, _y: u32, _from: u32, cells: &mut [Cell]) {
        fill(cells, Cell::shown('.', 0x71));
    }
}
