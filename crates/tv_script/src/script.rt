//! A script that can be performed.

ghost use Rattle.std.specs.Prelude.{◌≡◌, ◌≤ℤ◌, All, List, IfOk, IfErr, pos};
ghost use Rattle.tv_machine.specs.declared.script.Item.{Item as SeenItem};
ghost use Rattle.tv_script.specs.Lines.{IsItemOnScreen};
ghost use Rattle.tv_script.specs.Scripts.{GivesScript, RefusesScript, SpellsAScript};

use crate::script_text::{ScriptFault, parse_items};
use std::alloc::Global;
use std::marker::Model;
use tv_machine::Item;
use tv_model::Sequence;

/// A script whose points are on the largest screen, one of 132 columns and 60 rows. Contracts see the list of its items.
#[derive(Debug, Drop)]
pub struct Script {
    items: Sequence<Item>,
}

impl Model for Script {
    ghost use Rattle.std.specs.Prelude.{All, List};
    ghost use Rattle.tv_machine.specs.declared.script.Item.{Item};
    ghost use Rattle.tv_script.specs.Lines.{IsItemOnScreen};

    ghost Value = { List Item };

    ghost view = { λ s. s.items };

    ghost invariant = { λ s. All IsItemOnScreen s.items };
}

impl Script {
    /// Reads the script that a text spells for a screen of so many columns and rows.
    pub fn parse(alloc: Global, text: &[u8], width: i32, height: i32) -> Result<Script, ScriptFault>
        requires columns { width ≤ℤ pos 132 }
        requires rows { height ≤ℤ pos 60 }
        ensures spelled { IfOk result (λ script. SpellsAScript width height text.now script) }
        ensures only { (items : List SeenItem) → SpellsAScript width height text.now items → GivesScript result items }
        ensures fault { IfErr result (λ fault. RefusesScript width height text.now fault) }
    {
        let items = parse_items(alloc, text, width, height)?;
        Ok(Script { items })
    }

    /// Its items, each with a point of the largest screen, if it has one.
    pub fn items(&self) -> &[Item]
        ensures items { result.now ≡ self.now }
        ensures shown { All IsItemOnScreen result.now }
    {
        self.items.as_slice()
    }
}
