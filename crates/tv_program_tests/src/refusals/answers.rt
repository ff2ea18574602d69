//! Answers that are read from a log, and put into a description.

use super::ending::{Ending, expect, expect_whole};
use super::fixtures::desc_of;
use std::alloc::Global;
use std::test::Fail;
use tv_answers::{Answers, AnswersFault, filled, read_answers};
use tv_lang::print;
use tv_model::Desc;

const FORM: &str = r#"tvd 1
screen 60 20
dialog form 1 1 40 16 "Form" ends ok cancel
input port 1 1 8 5 picture "*#" "80"
checks extras 1 3 16 "A" "B" "C" start 1
button ok 1 12 10 "OK" ok
end
"#;

const LOG: &[u8] = b"end page ok
end form ok
field port \"443\"
field extras 2 3
field theme 1
";

const FILLED: &str = r#"tvd 1
screen 60 20
dialog form 1 1 40 16 "Form" ends ok cancel
input port 1 1 8 5 picture "*#" "443"
checks extras 1 3 16 "A" "B" "C" start 2 3
button ok 1 12 10 "OK" ok
end
"#;

fn answers_of(alloc: Global, desc: &Desc) -> Result<Answers, Ending> {
    match read_answers(alloc, desc, LOG) {
        Ok(answers) => Ok(answers),
        Err(AnswersFault::NoMemory) => Err(Ending::NoMemory),
        Err(_) => Err(Ending::Other("no answers")),
    }
}

fn answered(alloc: Global) -> Result<(), Ending> {
    let desc = desc_of(alloc, FORM)?;
    let answers = answers_of(alloc, &desc)?;
    expect(answers.misfits.as_slice().len() == 2, "other misfits")?;
    let begun = filled(alloc, desc, &answers)?;
    let text = print(alloc, &begun)?;
    expect(text.as_str() == FILLED, "another text")
}

#[test]
fn answering(rt: HostRuntime) -> Result<(), Fail> {
    expect_whole(answered(rt.alloc()))
}
