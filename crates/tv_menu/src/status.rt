//! The status line: the commands of keys, and of cells of the last row.

ghost use Rattle.std.specs.Prelude.{◌≡◌, All, IfOk, IfSome, ◌&&◌, find, option_copied, pos, ◌-ℤ◌};
ghost use Rattle.tv_cells.specs.Layers.{is_in};
ghost use Rattle.tv_machine.specs.State.{State};
ghost use Rattle.tv_machine.specs.Session.Step.{is_item_enabled, is_status_row, status_item_of};
ghost use Rattle.tv_machine.specs.Screen.Bars.{status_under};
ghost use Rattle.tv_model.specs.declared.desc.Desc.{Desc as Declared};
ghost use Rattle.tv_model.specs.Faults.Letters.{is_same_key};
ghost use Rattle.tv_model.specs.Description.Numbers.{IsBetween};
ghost use Rattle.tv_model.specs.Description.Rectangles.{rect};
ghost use Rattle.tv_menu.specs.Cells.{is_item_in};
ghost use Rattle.tv_menu.specs.Lawful.{AreLawfulStatusItems, IsLawfulScreen, IsLawfulStatusItem};
ghost use Rattle.tv_menu.specs.Line.{AreEnabled, IsStatusLineOf, cell_answer, line_down, line_key, line_answer, turned_by};

use crate::bars::StatusLine;
use crate::offered::Offered;
use crate::spot::{has_column, spot_in};
use std::alloc::{AllocError, Global};
use tv_cells::{Point, Rect};
use tv_event::{CommandSet, Event, Key};
use tv_faces::rect_at;
use tv_model::{Desc, StatusItem, is_same_key, natural};
use tv_view::contains;

fn copy_item(item: &StatusItem, alloc: Global) -> Result<StatusItem, AllocError>
    ensures { IfOk result (λ copy. copy ≡ item.now) }
{
    Ok(StatusItem {
        id: item.id,
        text: item.text.copy(alloc)?,
        key: item.key,
        command: item.command,
    })
}

/// Whether the set has the command of an item.
#[tactic(auto, using(crate::proofs::CommandLemmas::lawful_command, crate::proofs::CommandLemmas::small_command))]
pub(crate) fn is_enabled(item: &StatusItem, enabled: &CommandSet) -> bool
    requires { IsLawfulStatusItem item.now }
    ensures is { result ≡ is_item_in enabled.now item.now }
    ensures now { (d : Declared) (s : State) → AreEnabled d s enabled.now → result ≡ is_item_enabled d s item.now }
{
    enabled.has(item.command.command())
}

// The first enabled item that has the key.
#[tactic(auto, using(crate::proofs::LawfulLemmas::items_behind, crate::proofs::LawfulLemmas::item_ahead))]
fn item_of_key<'a>(
    items: &'a [StatusItem],
    key: Key,
    enabled: &CommandSet,
) -> Option<&'a StatusItem>
    requires { All IsLawfulStatusItem items.now }
    ensures is { (d : Declared) (s : State) → AreEnabled d s enabled.now
        → option_copied result ≡ find (λ item. is_same_key item.key key && is_item_enabled d s item) items.now }
    ensures lawful { IfSome result (λ item. IsLawfulStatusItem item.now) }
{
    let (item, others) = items.split_first()?;
    if is_same_key(item.key, key) && is_enabled(item, enabled) {
        Some(item)
    } else {
        item_of_key(others, key, enabled)
    }
}

#[tactic(auto, using(crate::proofs::CommandLemmas::lawful_command))]
fn turned_by(item: &StatusItem) -> Offered
    requires { IsLawfulStatusItem item.now }
    ensures { result ≡ turned_by item.now }
{
    Offered::Turned(item.command.command())
}

impl StatusLine {
    /// Makes the status line of a description whose numbers, counts and texts lie within the limits.
    ///
    /// # Errors
    ///
    /// `AllocError` where there is no memory for its texts.
    pub fn new(alloc: Global, desc: &Desc) -> Result<StatusLine, AllocError>
        requires screen { IsLawfulScreen desc.now.width desc.now.height }
        requires items { AreLawfulStatusItems desc.now.status }
        ensures { IfOk result (λ line. IsStatusLineOf desc.now line) }
    {
        Ok(StatusLine {
            width: desc.width,
            height: desc.height,
            items: desc.status.copy_by(alloc, copy_item)?,
        })
    }

    /// Offers the line an event, with these commands enabled. An enabled item's key, and a mouse down on its cells,
    /// become its command. Any other mouse down on the last row or off the screen is taken and does nothing.
    pub fn offer(&self, event: &Event, enabled: &CommandSet) -> Offered
        ensures { (d : Declared) (s : State) → IsStatusLineOf d self.now → AreEnabled d s enabled.now → result ≡ line_answer d s event.now }
    {
        match event {
            Event::Key(key) => self.key_answer(*key, enabled),
            Event::Down(point) => self.down_answer(*point, enabled),
            _ => Offered::Left,
        }
    }

    fn key_answer(&self, key: Key, enabled: &CommandSet) -> Offered
        ensures { (d : Declared) (s : State) → IsStatusLineOf d self.now → AreEnabled d s enabled.now
            → result ≡ line_key (status_item_of d s key) }
    {
        match item_of_key(self.items.as_slice(), key, enabled) {
            Some(item) => turned_by(item),
            None => Offered::Left,
        }
    }

    fn down_answer(&self, point: Point, enabled: &CommandSet) -> Offered
        ensures { (d : Declared) (s : State) → IsStatusLineOf d self.now → AreEnabled d s enabled.now → result ≡ line_down d s point }
    {
        if !self.is_on_screen(point) {
            Offered::Taken
        } else if self.is_status_row(point) {
            self.cell_answer(&point.x, enabled)
        } else {
            Offered::Left
        }
    }

    fn is_on_screen(&self, point: Point) -> bool
        ensures { (d : Declared) → IsStatusLineOf d self.now → result ≡ is_in (rect (pos 0) (pos 0) d.width d.height) point.x point.y }
    {
        contains(self.screen(), point)
    }

    fn is_status_row(&self, point: Point) -> bool
        ensures { (d : Declared) → IsStatusLineOf d self.now → result ≡ is_status_row d point }
    {
        point.y == self.last_row()
    }

    pub(crate) fn last_row(&self) -> i32
        ensures is { (d : Declared) → IsStatusLineOf d self.now → result ≡ (d.height -ℤ pos 1) }
        ensures few { IsBetween (pos 9) (pos 59) result }
    {
        self.height - 1
    }

    // What a mouse down in a column of the last row does.
    fn cell_answer(&self, column: &i32, enabled: &CommandSet) -> Offered
        ensures { (d : Declared) (s : State) → IsStatusLineOf d self.now → AreEnabled d s enabled.now
            → result ≡ cell_answer d s (status_under d column.now) }
    {
        match self.item_under(column) {
            Some(item) if is_enabled(item, enabled) => turned_by(item),
            _ => Offered::Taken,
        }
    }

    // The item whose cells have the column.
    fn item_under(&self, column: &i32) -> Option<&StatusItem>
        ensures is { (d : Declared) → IsStatusLineOf d self.now → option_copied result ≡ status_under d column.now }
        ensures lawful { IfSome result (λ item. IsLawfulStatusItem item.now) }
    {
        if !has_column(column, &self.width) {
            return None;
        }
        let spot = spot_in(self.items.as_slice(), 0, natural(column) as usize)?;
        Some(spot.entry)
    }

    // The whole screen.
    fn screen(&self) -> Rect
        ensures { (d : Declared) → IsStatusLineOf d self.now → result ≡ rect (pos 0) (pos 0) d.width d.height }
    {
        rect_at(&0, &0, &self.width, &self.height)
    }
}
