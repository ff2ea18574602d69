//! F4: letters that were marked before in their dialog.

ghost use Rattle.std.specs.Prelude.{◌≡◌, ◌||◌, ℕ, nat_eq, IfOk, OnOk, option_copied};
ghost use Rattle.std.specs.HashSet as set;
ghost use Rattle.tv_model.specs.Description.Sharing.{is_shared_by};
ghost use Rattle.tv_model.specs.Faults.Letters.{marks_again};
ghost use Rattle.tv_model.specs.Faults.Each.{each_after};
ghost use Rattle.tv_names.specs.Marked.{is_marked_in, mark_again};

use crate::letters::{add_letter, marked_of, marks_any};
use crate::sharing::shared_letters;
use std::alloc::{AllocError, Global};
use std::collections::HashSet;
use tv_model::{MarkedText, Node, Rule};

// Adds the letters that the texts mark. Returns whether one of them was among the letters before, or is marked twice,
// and isn't shared.
fn add_letters(
    letters: &mut HashSet<char>,
    shared: &HashSet<char>,
    texts: &[MarkedText],
) -> Result<bool, AllocError>
    ensures again { IfOk result (λ again. again ≡ mark_again (set.contains nat_eq shared.now) (set.contains nat_eq letters.old) texts.now) }
    ensures added { OnOk result ((ch : ℕ)
        → set.contains nat_eq letters.new ch ≡ (set.contains nat_eq letters.old ch || is_marked_in texts.now ch)) }
{
    let mut again = false;
    for text in texts {
        let is_given = add_letter(letters, text)?;
        again |= is_given && !marks_any(shared, text);
    }
    Ok(again)
}

/// Returns for each view whether it marks a letter that was marked before, on an earlier line or on its own. Letters
/// that views share lawfully by the rules, where rules are given, aren't asked about.
pub fn marks_again(
    alloc: Global,
    views: &[Node],
    sharing: Option<&[Rule]>,
) -> Result<Vec<bool>, AllocError>
    ensures { IfOk result (λ again. again.items
        ≡ each_after (marks_again (is_shared_by (option_copied sharing.entry) views.now)) views.now) }
{
    let shared = shared_letters(alloc, views, sharing)?;
    let mut letters = HashSet::new(alloc);
    let mut again = Vec::new(alloc);
    for view in views {
        again.push(add_letters(&mut letters, &shared, marked_of(&view.kind))?)?;
    }
    Ok(again)
}
