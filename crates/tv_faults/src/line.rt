//! Declarations by the lines on which they stand.

ghost use Rattle.std.specs.Prelude.{◌≡◌, ◌++◌, Bool, List, [], length, map, OnOk};
ghost use Rattle.tv_model.specs.Faults.Lines.{line_if, lines_where};
ghost use Rattle.tv_model.specs.Faults.{fault_at};
ghost use Rattle.tv_model.specs.Faults.Each.{each_after};

use std::alloc::AllocError;
use tv_model::{
    Dialog, Fault, FaultKind, Menu, MenuItem, Node, Rule, Sequence, StatusItem, Window,
};

/// A declaration with a line of its own.
pub trait Line {
    ghost use Rattle.std.specs.Prelude.{ℕ};

    ghost number: { Self → ℕ };

    /// Returns the number of its line in the canonical text.
    fn number(&self) -> u32
        ensures { result ≡ number self.now };
}

impl Line for Menu {
    ghost number = { λ menu. menu.id.0 };

    fn number(&self) -> u32 {
        self.id.0
    }
}

impl Line for MenuItem {
    ghost number = { λ item. item.id.0 };

    fn number(&self) -> u32 {
        self.id.0
    }
}

impl Line for StatusItem {
    ghost number = { λ item. item.id.0 };

    fn number(&self) -> u32 {
        self.id.0
    }
}

impl Line for Window {
    ghost number = { λ window. window.node.id.0 };

    fn number(&self) -> u32 {
        self.node.id.0
    }
}

impl Line for Dialog {
    ghost number = { λ dialog. dialog.node.id.0 };

    fn number(&self) -> u32 {
        self.node.id.0
    }
}

impl Line for Node {
    ghost number = { λ node. node.id.0 };

    fn number(&self) -> u32 {
        self.id.0
    }
}

impl Line for Rule {
    ghost number = { λ rule. rule.id.0 };

    fn number(&self) -> u32 {
        self.id.0
    }
}

/// Adds the fault of the line, where it has the fault.
pub fn add_if(
    found: &mut Sequence<Fault>,
    is_fault: bool,
    kind: FaultKind,
    line: u32,
) -> Result<(), AllocError>
    ensures { OnOk result (found.new ≡ found.old ++ map (fault_at kind) (line_if is_fault line)) }
{
    if is_fault {
        found.push(Fault { kind, line })?;
    }
    Ok(())
}

/// Adds the faults of those lines that are faulty.
pub fn add_where<L: Line>(
    found: &mut Sequence<Fault>,
    kind: FaultKind,
    lines: &[L],
    faulty: &[bool],
) -> Result<(), AllocError>
    requires { length faulty.now ≡ length lines.now }
    ensures { (has : List L → L → Bool) → faulty.now ≡ each_after has lines.now
        → OnOk result (found.new ≡ found.old ++ map (fault_at kind) (lines_where L.number has [] lines.now)) }
{
    for (i, line) in lines.iter().enumerate() {
        add_if(found, faulty[i], kind, line.number())?;
    }
    Ok(())
}
