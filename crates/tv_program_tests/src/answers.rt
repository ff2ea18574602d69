//! A log as long as one may be, and a longer one.

use std::alloc::Global;
use std::test::Fail;
use tv_answers::{Answers, filled, read_answers};
use tv_lang::{parse, print};
use tv_model::Desc;
use tv_test_support::{Question, expect_answer};

// The text of a description that begins with the answers of a log, or why the log has none.
#[derive(Clone, Copy)]
struct Filling<'a> {
    desc: &'a str,
}

impl Question for Filling<'_> {
    fn answer(&self, alloc: Global, text: &[u8]) -> Result<String, Fail> {
        let desc = parse(alloc, self.desc.as_bytes())?;
        match read_answers(alloc, &desc, text) {
            Ok(answers) => printed_filled(alloc, desc, &answers),
            Err(fault) => Ok(format!(in alloc; "{fault}\n")?),
        }
    }
}

fn printed_filled(alloc: Global, desc: Desc, answers: &Answers) -> Result<String, Fail> {
    if !answers.misfits.as_slice().is_empty() {
        return Err(Fail::new("something doesn't fit"));
    }
    let begun = filled(alloc, desc, answers)?;
    Ok(print(alloc, &begun)?)
}

const FORM: &str = r#"tvd 1
screen 60 20
dialog form 1 1 40 16 "Form" ends ok cancel
input port 1 1 8 5 range 1 65535 "80"
checks extras 1 3 16 "A" "B" "C" start 1
radios case 1 7 16 "X" "Y" start 1
list theme 20 1 16 3 "D" "E" "F" start 1
button ok 1 12 10 "OK" ok
end
"#;

#[test]
fn longest_log(rt: HostRuntime) -> Result<(), Fail> {
    let alloc = rt.alloc();
    let question = Filling { desc: FORM };
    let longest = "#".repeat(alloc, 1_048_576)?;
    expect_answer(&question, alloc, &longest, FORM)?;
    let too_long = "#".repeat(alloc, 1_048_577)?;
    let told = "the text is longer than 1,048,576 bytes\n";
    expect_answer(&question, alloc, &too_long, told)
}
