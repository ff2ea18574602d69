//! What is told of texts that no case has: without a last line end, without UTF-8, and as long as texts may be.

use std::alloc::{AllocError, Global};
use std::test::Fail;
use tv_advice::{Beside, Language, Manner, Told, explain_line, tell, tell_beside};
use tv_lang::parse;

const HEAD: &str = "tvd 1\nscreen 40 12\n";

// What is told of a text in the file `form.tvd`: its report, or a line.
fn told_of(alloc: Global, text: &[u8]) -> Result<String, AllocError> {
    match tell(alloc, Manner::Plain, "form.tvd", text)? {
        Told::Sound(_) => String::from_str(alloc, "sound\n"),
        Told::Faulty(report) => Ok(report),
        Told::TooLong => String::from_str(alloc, "too long\n"),
    }
}

#[test]
fn no_last_line_end(rt: HostRuntime) -> Result<(), Fail> {
    let text = b"tvd 1\nscreen 40 12\n\nstart later";
    let wanted = r#"form.tvd:4:7: F16: no dialog is called `later`
  |
4 | start later
  |       ^^^^^ a dialog is wanted here
  = mend: name a dialog, or drop the line
"#;
    assert_eq!(rt; told_of(rt.alloc(), text)?.as_str(), wanted);
    Ok(())
}

#[test]
fn other_encodings(rt: HostRuntime) -> Result<(), Fail> {
    let text = b"tvd 1\nscreen 40 12\nmenu \"\xc3\xa9\xe9\"\n";
    let wanted = r#"form.tvd:3:8: syntax: this line isn't UTF-8
  |
3 | menu "é
  |        ^ no character begins so
  = mend: save the file as UTF-8
form.tvd:4:1: syntax: the text ends too early: the `end` of the menu in line 3 is missing
  |
3 | menu "é
  | ------- this menu is open
  |
4 | 
  | ^ the text ends here
  = mend: write `end` where the menu ends
"#;
    assert_eq!(rt; told_of(rt.alloc(), text)?.as_str(), wanted);
    Ok(())
}

// What is told of these lines behind the head.
fn told_behind(alloc: Global, lines: &str) -> Result<String, AllocError> {
    let text = format!(in alloc; "{HEAD}{lines}")?;
    told_of(alloc, text.as_bytes())
}

#[test]
fn longest_text(rt: HostRuntime) -> Result<(), Fail> {
    let alloc = rt.alloc();
    let longest = "#".repeat(alloc, 262_125)?;
    assert_eq!(rt; told_behind(alloc, &longest)?.as_str(), "sound\n");
    let longer = "#".repeat(alloc, 262_126)?;
    assert_eq!(rt; told_behind(alloc, &longer)?.as_str(), "too long\n");
    Ok(())
}

// How many blocks a report has, one on each line that can't be read.
fn count_blocks(report: &str) -> usize {
    let mut count = 0_usize;
    for line in report.split('\n') {
        if line.starts_with("form.tvd:") {
            count = count.saturating_add(1);
        }
    }
    count
}

// Of an open dialog, the `end` that is missing, too, would be one block too many.
#[test]
fn most_lines(rt: HostRuntime) -> Result<(), Fail> {
    let alloc = rt.alloc();
    let frames = "frame\n".repeat(alloc, 150)?;
    assert_eq!(rt; count_blocks(&told_behind(alloc, &frames)?), 100);
    let texts = "text x\n".repeat(alloc, 100)?;
    let dialog = format!(in alloc; "dialog d 1 1 20 10 \"D\" ends cancel\n{texts}")?;
    assert_eq!(rt; count_blocks(&told_behind(alloc, &dialog)?), 100);
    Ok(())
}

// The description beside which long texts stand.
const DESCRIPTION: &str = "tvd 2
screen 20 10
dialog form 1 2 16 6 \"Form\" ends cancel
button name 2 1 9 \"~N~ame\" cancel
button more 2 2 9 \"~M~ore\" 100
end
";

// Which of the long texts is told of, of a text beside it.
fn told_beside(alloc: Global, text: &str) -> Result<&'static str, Fail> {
    let desc = parse(alloc, DESCRIPTION.as_bytes())?;
    match tell_beside(alloc, Manner::Plain, "form", desc, text.as_bytes())? {
        Beside::LongScript => Ok("a long script"),
        Beside::LongCertificate => Ok("a long certificate"),
        _ => Ok("something else"),
    }
}

#[test]
fn long_texts_beside(rt: HostRuntime) -> Result<(), Fail> {
    let alloc = rt.alloc();
    let certificate = format!(in alloc; "tvcert 2\n{}", "#".repeat(alloc, 262_144)?)?;
    assert_eq!(rt; told_beside(alloc, &certificate)?, "a long certificate");
    let script = "#".repeat(alloc, 1_048_577)?;
    assert_eq!(rt; told_beside(alloc, &script)?, "a long script");
    Ok(())
}

// A text without a line is no certificate to `tell_beside`, so it is asked about here.
#[test]
fn no_certificate(rt: HostRuntime) -> Result<(), Fail> {
    let unread = explain_line(rt.alloc(), Language::Certificate, b"", 1)?;
    assert_eq!(rt;
        unread.message.as_str(),
        "the text says nothing: its first line is `tvcert 1`"
    );
    Ok(())
}
