//! What rules show and enable.

ghost use Rattle.std.specs.Prelude.{◌≡◌, ◌≤◌, ◌<◌, ◌+◌, ◌++◌, ◌&&◌, ℕ, true, false, length, slice_index_or};
ghost use Rattle.tv_dialog.specs.Plan.{is_enabled_in_plan, passes_all, shown_among, shown_by};

use crate::plan::{Gate, LeafPlan, Plan};
use arrayvec::ArrayVec;
use tv_event::{Command, CommandSet};
use tv_model::{Id, Record};

/// Which leaves are shown and which commands are enabled, as the rules were last applied.
#[derive(Debug, Drop)]
pub(crate) struct Ruled {
    /// In description order.
    pub(crate) shown: ArrayVec<Id, 64>,
    pub(crate) commands: CommandSet,
}

// Adds those of the leaves that are shown, as far as there is room.
fn fill_shown(shown: &mut ArrayVec<Id, 64>, leaves: &[LeafPlan], marks: &Record)
    ensures { length shown.old.items + length leaves.now ≤ 64 → shown.new.items ≡ shown.old.items ++ shown_among marks.now leaves.now }
{
    for leaf in leaves {
        if leaf.is_shown(marks) && !shown.is_full() {
            shown.push(leaf.id);
        }
    }
}

// Takes out the commands that a gate blocks.
fn disable_blocked(commands: &mut CommandSet, gates: &[Gate], marks: &Record)
    ensures { (number : ℕ) → number < 256
        → slice_index_or commands.new number false ≡ (slice_index_or commands.old number false && passes_all marks.now number gates.now) }
{
    for gate in gates {
        if gate.number < 256 && !gate.condition.is_met(marks) {
            commands.disable(Command(gate.number as u8));
        }
    }
}

impl Ruled {
    /// Starts with nothing shown and every command enabled.
    pub(crate) fn new() -> Ruled
        ensures { (number : ℕ) → number < 256 → slice_index_or result.commands number false ≡ true }
    {
        Ruled {
            shown: ArrayVec::new(),
            commands: CommandSet::all(),
        }
    }

    /// Enables every command.
    pub(crate) fn enable_all(&mut self)
        ensures shown { self.new.shown ≡ self.old.shown }
        ensures commands { (number : ℕ) → number < 256 → slice_index_or self.new.commands number false ≡ true }
    {
        self.commands = CommandSet::all();
    }

    /// Notes what the plan's rules show and enable with these items marked. Takes no memory.
    pub(crate) fn update(&mut self, plan: &Plan, marks: &Record)
        ensures shown { length plan.now.leaves ≤ 64 → self.new.shown.items ≡ shown_by plan.now marks.now }
        ensures commands { (number : ℕ) → number < 256
            → slice_index_or self.new.commands number false ≡ is_enabled_in_plan plan.now marks.now number }
    {
        self.shown.clear();
        fill_shown(&mut self.shown, plan.leaves.as_slice(), marks);
        self.commands = CommandSet::all();
        disable_blocked(&mut self.commands, plan.gates.as_slice(), marks);
    }
}
