//! Lines of a list, each judged after those before it.

ghost use Rattle.std.specs.Prelude.{◌≡◌, IfOk};
ghost use Rattle.tv_model.specs.Faults.Each.{each_after};

use std::alloc::{AllocError, Global};

/// What is asked of each line of a list.
pub trait Judge {
    ghost use Rattle.std.specs.Prelude.{Bool, List};

    /// A line.
    type Line;

    ghost judges: { Self → List Self.Line → Self.Line → Bool };

    /// Whether what is asked holds of the line, given the lines before it.
    fn judge(
        &self,
        alloc: Global,
        before: &[Self::Line],
        line: &Self::Line,
    ) -> Result<bool, AllocError>
        ensures { IfOk result (λ is_so. is_so ≡ judges self.now before.now line.now) };
}

/// Returns for each of the lines whether what is asked holds of it.
pub fn judge_each<J: Judge>(
    alloc: Global,
    judge: &J,
    lines: &[J::Line],
) -> Result<Vec<bool>, AllocError>
    ensures { IfOk result (λ judged. judged.items ≡ each_after (J.judges judge.now) lines.now) }
{
    let mut judged = Vec::new(alloc);
    for (i, line) in lines.iter().enumerate() {
        judged.push(judge.judge(alloc, &lines[..i], line)?)?;
    }
    Ok(judged)
}
