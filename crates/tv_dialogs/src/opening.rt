//! Dialogs before a run, and how one opens.

ghost use Rattle.std.specs.Prelude.{◌≡◌, ◌∷◌, ◌++◌, [], IfErr, IfOk, None, Some, slice_get, vec_capacity};
ghost use Rattle.tv_laws.specs.Runs.{HasSoundDialogs};
ghost use Rattle.tv_machine.specs.Session.Commands.{open_dialog};
ghost use Rattle.tv_machine.specs.Session.Start.{closed};
ghost use Rattle.tv_machine.specs.State.{State};
ghost use Rattle.tv_model.specs.Description.Rectangles.{corner_of};
ghost use Rattle.tv_model.specs.declared.desc.Dialog.{Dialog};
ghost use Rattle.tv_model.specs.declared.log.LogLine.TheVariants as lines;
ghost use Rattle.tv_dialogs.specs.Bodies.{AreFreshBodies};
ghost use Rattle.tv_dialogs.specs.Damage.{Keeps, OpenAlike};
ghost use Rattle.tv_dialogs.specs.Dialogs.{AreDialogs, AreOfRun, MayOpen, log_of_last};

use crate::bodies::keep_all;
use crate::colours::Colours;
use crate::dialogs::DialogsOf;
use std::alloc::{AllocError, Global};
use tv_cells::{Damage, Point};
use tv_event::CommandSet;
use tv_group::GroupOf;
use tv_model::{Desc as Declared, Node};
use tv_view::View;

// Where the corner of a node stands.
fn corner_of(node: &Node) -> Point
    ensures { result ≡ corner_of node.now }
{
    Point {
        x: node.x,
        y: node.y,
    }
}

impl<V: View> DialogsOf<V> {
    /// Makes the dialogs of a description, of which none is open, round one body for each, in order.
    ///
    /// # Errors
    ///
    /// `AllocError`, with the bodies as they were.
    pub fn new(
        alloc: Global,
        desc: &Declared,
        bodies: Vec<GroupOf<V>>,
    ) -> Result<DialogsOf<V>, (AllocError, Vec<GroupOf<V>>)>
        requires sound { HasSoundDialogs desc.now }
        requires fresh { AreFreshBodies V.meaning desc.now.dialogs bodies.items }
        ensures dialogs { IfOk result (AreDialogs V.meaning desc.now (closed desc.now)) }
        ensures quiet { IfOk result (λ dialogs. log_of_last dialogs ≡ []) }
        ensures back { IfErr result (λ e. e.1.items ≡ bodies.items) }
    {
        let kept = keep_all(alloc, desc.dialogs.as_slice(), bodies)?;
        Ok(DialogsOf {
            kept,
            open: None,
            is_held: false,
            last: None,
            commands: CommandSet::all(),
            colours: Colours::new(),
        })
    }

    /// Opens the dialog at a place, counted from 0 in description order, where it is declared, with the values of its
    /// last end other than `cancel`, and before any such end with those declared. Adds the dialog and its shadow to the
    /// damage.
    pub fn open(&mut self, desc: &Declared, place: usize, damage: &mut Damage)
        requires { MayOpen V.meaning desc.now place self.old }
        ensures dialogs { (s : State) → AreOfRun V.meaning desc.now s self.old
            → AreDialogs V.meaning desc.now (open_dialog desc.now place s) self.new }
        ensures log { (s : State) (dialog : Dialog) → AreOfRun V.meaning desc.now s self.old
            → slice_get desc.now.dialogs place ≡ Some dialog
            → (open_dialog desc.now place s).log ≡ s.log ++ lines.Open dialog.node.id ∷ log_of_last self.new }
        ensures damage { (s : State) → s.dialog ≡ None → AreOfRun V.meaning desc.now s self.old
            → OpenAlike desc.now damage.new s (open_dialog desc.now place s) }
        ensures kept { Keeps damage.old damage.new }
        ensures room { vec_capacity self.new.kept ≡ vec_capacity self.old.kept }
    {
        let declared = &desc.dialogs.as_slice()[place];
        let kept = &mut self.kept[place];
        kept.dialog.stand_at(corner_of(&declared.node));
        kept.dialog.reopen(kept.values.get(), damage);
        kept.mark(damage);
        self.open = Some(place);
        self.is_held = false;
        self.last = Some(place);
    }
}
