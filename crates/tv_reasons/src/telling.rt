//! Why an input refuses a text.

ghost use Rattle.std.specs.Prelude.{◌≡◌};
ghost use Rattle.tv_model.specs.Description.Heads.{all_nodes};
ghost use Rattle.tv_model.specs.Description.Nodes.{node_of};
ghost use Rattle.tv_reasons.specs.Reasons.{IsReason, between};

use crate::line::Line;
use crate::wanted::{Further, first_words};
use tv_model::{Desc, Id, Kind};

/// Says why the input of the id refuses a text: its name, as the log has it, and what it asks of its text. Of what is
/// no input there is nothing to say.
///
/// `amount: a number from -5 to 5`, or `amount is hidden, and has to be a number from -5 to 5`.
pub fn reason(desc: &Desc, id: Id, is_hidden: bool) -> Line
    ensures { IsReason (node_of (all_nodes desc.now) id) is_hidden result }
{
    let mut line = Line::new();
    let Some(node) = desc.node(id) else {
        return line;
    };
    if let Kind::Input(input) = &node.kind {
        line.push_all(input.name.as_slice());
        line.push_str(between(is_hidden));
        line.push_str(first_words(&input.spec.domain));
        let _ = line.push_shown(Further(&input.spec));
    }
    line
}

// What stands between the name of an input and what it asks.
fn between(is_hidden: bool) -> &'static str
    ensures { result.now ≡ between is_hidden }
{
    if is_hidden {
        " is hidden, and has to be "
    } else {
        ": "
    }
}
