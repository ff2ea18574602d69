//! A screen of cells.

ghost use Rattle.std.specs.Prelude.{◌≡◌, [], ◌≤◌, ◌<◌, ◌+◌, ◌-◌, ◌^◌, ◌↔◌, ℕ, pos, IfOk, IfSome, IsSome, IsErrOf, length, slice_index_or};
ghost use Rattle.tv_cells.specs.Glyph.{blank, shaded};
ghost use Rattle.tv_cells.specs.Layers.{Shows};
ghost use Rattle.tv_cells.specs.Picture.{Picture, IsAlike, IsOn, IsPlace, IsScreenSize, Changes, cell_at};
ghost use Rattle.tv_cells.specs.Rectangle.{IsIn, sized};
ghost use Rattle.tv_cells.specs.Row.{IsInRow};
ghost use Rattle.tv_cells.specs.Canvas.{whole};

use crate::canvas::Canvas;
use crate::cell::Cell;
use crate::face::Face;
use crate::rect::{Point, Rect};
use std::alloc::{AllocError, Global};
use std::marker::Model;
use thiserror::Error;

/// Why there is no screen.
#[derive(Clone, Copy, Debug, Drop, PartialEq, Eq, Error)]
pub enum ScreenFault {
    #[error("no memory")]
    NoMemory,
    #[error("a screen has 20 to 132 columns and 10 to 60 rows")]
    BadSize,
}

impl From<AllocError> for ScreenFault {
    ghost use Rattle.std.specs.Prelude.{◌≡◌};
    ghost use Rattle.tv_cells.specs.declared.screen.ScreenFault.TheVariants.{NoMemory};

    ghost from_gives = { λ _ fault. fault ≡ NoMemory };

    fn from(_error: AllocError) -> ScreenFault {
        ScreenFault::NoMemory
    }
}

/// The cells of a row from column `left` on and before `right`.
#[derive(Clone, Copy)]
pub(crate) struct RowPart {
    pub row: u32,
    pub left: u32,
    pub right: u32,
}

/// The cells of a text screen. Columns count from the left and rows from the top, from 0.
#[derive(Debug, Drop)]
pub struct Screen {
    width: u32,
    height: u32,
    cells: Vec<Cell>,
}

impl Model for Screen {
    ghost use Rattle.tv_cells.specs.Picture.{Picture, IsPictureOf};

    ghost Value = { Picture };

    ghost view = { λ s. record { width = s.width; height = s.height; cells = s.cells.items } };

    ghost invariant = { λ s. IsPictureOf s.width s.height s.cells.items };
}

impl Screen {
    /// Makes a blank screen, all spaces with attribute 00.
    ///
    /// # Errors
    ///
    /// `BadSize` unless there are 20 to 132 columns and 10 to 60 rows, else `NoMemory` where there is none for the
    /// cells.
    pub fn new(alloc: Global, width: u32, height: u32) -> Result<Screen, ScreenFault>
        ensures size { IfOk result (λ screen. (screen.width ≡ width) × (screen.height ≡ height)) }
        ensures blank { IfOk result (λ screen. Shows [] screen) }
        ensures bad { IsErrOf result ScreenFault.BadSize ↔ (IsScreenSize width height → ⊥) }
    {
        if !(20..=132).contains(&width) || !(10..=60).contains(&height) {
            return Err(ScreenFault::BadSize);
        }
        let cells = vec![in alloc; Cell::space(0); (width * height) as usize]?;
        Ok(Screen {
            width,
            height,
            cells,
        })
    }

    /// Returns a copy.
    ///
    /// # Errors
    ///
    /// `AllocError` where there is no memory for its cells.
    pub fn copy(&self, alloc: Global) -> Result<Screen, AllocError>
        ensures { IfOk result (λ copy. copy ≡ self.now) }
    {
        Ok(Screen {
            width: self.width,
            height: self.height,
            cells: self.cells.iter().copied().collect(alloc)?,
        })
    }

    /// Returns the number of columns.
    pub fn width(&self) -> u32
        ensures is { result ≡ self.now.width }
        ensures small { (20 ≤ result) × (result ≤ 132) }
    {
        self.width
    }

    /// Returns the number of rows.
    pub fn height(&self) -> u32
        ensures is { result ≡ self.now.height }
        ensures small { (10 ≤ result) × (result ≤ 60) }
    {
        self.height
    }

    /// Makes the canvas of the whole screen, with the origin in its corner.
    pub fn canvas(&self) -> Canvas
        ensures { result ≡ whole self.now.width self.now.height }
    {
        let origin = Point { x: 0, y: 0 };
        let end = Point {
            x: self.width as i32,
            y: self.height as i32,
        };
        Canvas {
            clip: Rect { a: origin, b: end },
            origin,
        }
    }

    /// Returns the cell at a point, or `None` where the point isn't on the screen.
    pub fn at(&self, point: Point) -> Option<Cell>
        ensures found { IsSome result ↔ IsIn (sized self.now.width self.now.height) point.x point.y }
        ensures value { IfSome result (λ cell. (column row : ℕ) → point.x ≡ pos column → point.y ≡ pos row
            → cell ≡ cell_at self.now column row) }
    {
        let column = u32::try_from(point.x)
            .ok()
            .filter(|column| *column < self.width)?;
        let row = u32::try_from(point.y)
            .ok()
            .filter(|row| *row < self.height)?;
        Some(self.get(column, row))
    }

    /// Returns the cell in a column and a row.
    #[inline]
    pub fn get(&self, column: u32, row: u32) -> Cell
        requires { IsOn self.now column row }
        ensures { result ≡ cell_at self.now column row }
    {
        self.cells[(row * self.width + column) as usize]
    }

    /// Sets the cell in a column and a row.
    #[inline]
    pub(crate) fn set(&mut self, column: u32, row: u32, cell: Cell)
        requires { IsOn self.old column row }
        ensures { Changes (IsPlace column row) (λ _ _ _. cell) self.old self.new }
    {
        let index = (row * self.width + column) as usize;
        self.cells[index] = cell;
    }

    // Writes row `y` of a face, from its column `from` on, into a part of a row of the screen.
    pub(crate) fn paint_row<F: Face>(&mut self, face: &F, y: u32, from: u32, part: RowPart)
        requires across { (part.left ≤ part.right) × (part.right ≤ self.old.width) }
        requires down { part.row < self.old.height }
        requires face { from + part.right ≤ 2 ^ 32 }
        ensures { Changes (IsInRow part.left part.right part.row) (λ column _ _. F.face face.now (from + (column - part.left)) y) self.old self.new }
    {
        let start = (part.row * self.width + part.left) as usize;
        let end = (part.row * self.width + part.right) as usize;
        face.row(y, from, &mut self.cells[start..end]);
    }

    // Copies the cells of the row above into a part of a row.
    pub(crate) fn copy_row_above(&mut self, part: RowPart)
        requires across { (part.left ≤ part.right) × (part.right ≤ self.old.width) }
        requires down { (0 < part.row) × (part.row < self.old.height) }
        ensures { Changes (IsInRow part.left part.right part.row) (λ column _ _. cell_at self.old column (part.row - 1)) self.old self.new }
    {
        let above = ((part.row - 1) * self.width + part.left) as usize;
        let start = (part.row * self.width + part.left) as usize;
        let count = (part.right - part.left) as usize;
        let (before, after) = self.cells.split_at_mut(start);
        after[..count].copy_from_slice(&before[above..above + count]);
    }

    // Shades the cells of a part of a row.
    pub(crate) fn shade_row(&mut self, part: RowPart)
        requires across { (part.left ≤ part.right) × (part.right ≤ self.old.width) }
        requires down { part.row < self.old.height }
        ensures { Changes (IsInRow part.left part.right part.row) (λ _ _ under. shaded under) self.old self.new }
    {
        let start = (part.row * self.width + part.left) as usize;
        let end = (part.row * self.width + part.right) as usize;
        shade_all(&mut self.cells[start..end]);
    }
}

fn shade_all(cells: &mut [Cell])
    ensures count { length cells.new ≡ length cells.old }
    ensures cells { (i : ℕ) → i < length cells.new → slice_index_or cells.new i blank ≡ shaded (slice_index_or cells.old i blank) }
{
    for i in 0..cells.len() {
        cells[i] = cells[i].shaded();
    }
}
