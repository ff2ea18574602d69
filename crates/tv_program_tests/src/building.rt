//! Windows and bodies that are put together step by step, and steps that are out of order.

ghost use Rattle.std.specs.Prelude.{All};
ghost use Rattle.tv_check.specs.Plan.{IsLawfulStep};

use crate::makers::checked;
use std::alloc::Global;
use std::test::Fail;
use tv_check::BuildStep;
use tv_controls::Button;
use tv_session::{BuildFault, Building, Views};
use tv_test_support::button_views::take_step;

// A window, and a dialog with a pane: the steps are 0 and 1 for the window's beginning and end, 2 for the dialog's beginning, 3 for
// the pane's, 4 for the button, and 5 and 6 for the ends.
const NESTED: &str = r#"tvd 1
screen 20 10
window w 1 1 12 4 1 ""
end
dialog d 2 2 16 6 "" ends cancel
pane p 1 1 14 4
button c 1 1 10 "~C~ancel" cancel
end
end
"#;

// What is answered where a building takes these steps, one after the other: a mark for each, and what is built in the end.
fn answers(alloc: Global, steps: &[usize]) -> Result<String, Fail> {
    let checked = checked(alloc, NESTED)?;
    let plan = checked.build_plan(alloc)?;
    built(alloc, plan.as_slice(), steps)
}

fn built(alloc: Global, plan: &[BuildStep<'_>], steps: &[usize]) -> Result<String, Fail>
    requires { All IsLawfulStep plan.now }
{
    let mut building = Building::new(alloc);
    let mut marks = String::new(alloc);
    for step in steps {
        let step = plan.get(*step).ok_or("no such step")?;
        let taken = take_step(alloc, &mut building, step);
        marks.push(mark_of(&taken)?)?;
    }
    push_outcome(&mut marks, alloc, building.finish())?;
    Ok(marks)
}

fn mark_of(taken: &Result<(), BuildFault>) -> Result<char, Fail> {
    match taken {
        Ok(()) => Ok('+'),
        Err(BuildFault::WrongPlan) => Ok('-'),
        Err(BuildFault::NoMemory) => Err(Fail::new("no memory")),
    }
}

fn push_outcome(
    marks: &mut String,
    alloc: Global,
    outcome: Result<Views<Button>, BuildFault>,
) -> Result<(), Fail> {
    match outcome {
        Ok(views) => {
            let windows = views.windows.len();
            let bodies = views.bodies.len();
            marks.push_str(&format!(in alloc; " {windows} windows, {bodies} bodies")?)?;
        }
        Err(fault) => {
            marks.push(' ')?;
            marks.push(mark_of(&Err(fault))?)?;
        }
    }
    Ok(())
}

fn expect_built(alloc: Global, rows: &[(&[usize], &str)]) -> Result<(), Fail> {
    for (steps, wanted) in rows {
        let found = answers(alloc, steps)?;
        if found.as_str() != *wanted {
            return Err(Fail::new(format_args!("{found} in place of {wanted}")));
        }
    }
    Ok(())
}

#[test]
fn whole_plans(rt: HostRuntime) -> Result<(), Fail> {
    const ROWS: [(&[usize], &str); 5] = [
        (&[], " 0 windows, 0 bodies"),
        (&[0, 1], "++ 1 windows, 0 bodies"),
        (&[2, 6], "++ 0 windows, 1 bodies"),
        (&[0, 1, 2, 3, 4, 5, 6], "+++++++ 1 windows, 1 bodies"),
        (
            &[0, 1, 0, 1, 2, 4, 6, 2, 6],
            "+++++++++ 2 windows, 2 bodies",
        ),
    ];
    expect_built(rt.alloc(), &ROWS)
}

#[test]
fn nothing_begun(rt: HostRuntime) -> Result<(), Fail> {
    const ROWS: [(&[usize], &str); 3] = [
        (&[4], "- 0 windows, 0 bodies"),
        (&[1], "- 0 windows, 0 bodies"),
        (&[0, 1, 1], "++- 1 windows, 0 bodies"),
    ];
    expect_built(rt.alloc(), &ROWS)
}

#[test]
fn unended_views(rt: HostRuntime) -> Result<(), Fail> {
    const ROWS: [(&[usize], &str); 4] = [
        (&[2], "+ -"),
        (&[0, 2], "++ -"),
        (&[2, 3, 4, 5], "++++ -"),
        (&[0, 1, 2, 3, 5], "+++++ -"),
    ];
    expect_built(rt.alloc(), &ROWS)
}

// A pane outside of all, and a window in a dialog, which ends without it.
#[test]
fn misplaced_views(rt: HostRuntime) -> Result<(), Fail> {
    const ROWS: [(&[usize], &str); 2] = [
        (&[3, 5], "+- 0 windows, 0 bodies"),
        (&[2, 0, 1, 6], "++-+ 0 windows, 1 bodies"),
    ];
    expect_built(rt.alloc(), &ROWS)
}

// Panes in a dialog, one in another: eight groups stand, and of nine the dialog is refused as it ends.
#[test]
fn nine_groups(rt: HostRuntime) -> Result<(), Fail> {
    const ROWS: [(&[usize], &str); 2] = [
        (
            &[2, 3, 3, 3, 3, 3, 3, 3, 5, 5, 5, 5, 5, 5, 5, 6],
            "++++++++++++++++ 0 windows, 1 bodies",
        ),
        (
            &[2, 3, 3, 3, 3, 3, 3, 3, 3, 5, 5, 5, 5, 5, 5, 5, 5, 6],
            "+++++++++++++++++- 0 windows, 0 bodies",
        ),
    ];
    expect_built(rt.alloc(), &ROWS)
}

// What is answered where the first leaf of a plan begins as a group.
fn leaf_begun(alloc: Global, plan: &[BuildStep<'_>]) -> Result<Result<(), BuildFault>, Fail>
    requires { All IsLawfulStep plan.now }
{
    let mut building: Building<'_, Button> = Building::new(alloc);
    for step in plan {
        if let BuildStep::Leaf(node) = step {
            return Ok(building.begin(alloc, node));
        }
    }
    Err(Fail::new("no leaf"))
}

#[test]
fn no_group(rt: HostRuntime) -> Result<(), Fail> {
    let checked = checked(rt.alloc(), NESTED)?;
    let plan = checked.build_plan(rt.alloc())?;
    let begun = leaf_begun(rt.alloc(), plan.as_slice())?;
    assert_eq!(rt; begun, Err(BuildFault::WrongPlan));
    Ok(())
}
