//! What is printed of a call that failed, and the status that it gives.

ghost use Rattle.std.specs.Prelude.{◌≡◌, ◌++◌, ◌∷◌, [], codes, flat_map, decimal, encode_utf8};
ghost use Rattle.tv_model.specs.Log.LogText.{line_of};
ghost use Rattle.tv_io.specs.Pen.{Puts};
ghost use Rattle.tv_program.specs.Report.{IsOffered, answers_message, cert_message, disabled_message, fault_line, lang_message, lang_status, line_message, out_text, err_text, refusal_text, script_message, status_of, unended_message};

use crate::answer_fault::Ending;
use crate::trouble::Trouble;
use tv_answers::AnswersFault;
use tv_check::{CertificateFault, Refusal};
use tv_io::{Pen, Writer};
use tv_lang::LangFault;
use tv_model::Fault;
use tv_script::{ScriptFault, end_word};

const SYNTAX: &[u8] = b": syntax at line ";

/// Tells why a call didn't come to its end: faults and refusals on `out`, a message on `err`. Answers the program's status.
///
/// `name` is that of the file that the fault is in. Where a writer fails, what it took is a prefix.
pub fn report<W: Writer, E: Writer>(fault: &Trouble, name: &str, out: &mut W, err: &mut E) -> u8
    ensures status { result ≡ status_of fault.now }
    ensures out { IsOffered (W.seen out.old) (W.seen out.new) (out_text fault.now) }
    ensures err { IsOffered (E.seen err.old) (E.seen err.new) (err_text name.now fault.now) }
{
    let mut out = Pen {
        out,
        stopped: false,
    };
    put_result(&mut out, fault);
    let mut err = Pen {
        out: err,
        stopped: false,
    };
    put_message(&mut err, name.as_bytes(), fault);
    status(fault)
}

fn status(fault: &Trouble) -> u8
    ensures { result ≡ status_of fault.now }
{
    match fault {
        Trouble::NoMemory
        | Trouble::Lang(LangFault::NoMemory)
        | Trouble::Script(ScriptFault::NoMemory)
        | Trouble::Answers(AnswersFault::NoMemory)
        | Trouble::Cert(CertificateFault::NoMemory)
        | Trouble::Refused(Refusal::NoMemory)
        | Trouble::Write
        | Trouble::Read => 3,
        Trouble::Lang(_)
        | Trouble::Faults(_)
        | Trouble::Script(_)
        | Trouble::Answers(_)
        | Trouble::Misfits
        | Trouble::NoAnswers
        | Trouble::Disabled(_)
        | Trouble::Unended(_)
        | Trouble::Cert(_)
        | Trouble::Refused(_)
        | Trouble::View => 1,
    }
}

fn put_result<W: Writer>(pen: &mut Pen<W>, fault: &Trouble)
    ensures { Puts W.seen pen.old pen.new (out_text fault.now) }
{
    match fault {
        Trouble::Faults(list) => put_list(pen, list.as_slice()),
        Trouble::Refused(refusal) => put_refusal(pen, refusal),
        _ => {}
    }
}

fn put_refusal<W: Writer>(pen: &mut Pen<W>, refusal: &Refusal)
    ensures { Puts W.seen pen.old pen.new (refusal_text refusal.now) }
{
    match refusal {
        Refusal::NoMemory => {}
        Refusal::Faulty(fault) => put_first(pen, fault),
        Refusal::CertVersion => put_version(pen),
        Refusal::TabOrder(place) => put_tab(pen, *place),
        Refusal::Owner(letter) => put_key(pen, *letter),
    }
}

fn put_first<W: Writer>(pen: &mut Pen<W>, fault: &Fault)
    ensures { Puts W.seen pen.old pen.new (codes "refused " ++ fault_line fault.now) }
{
    pen.put(b"refused ");
    put_fault(pen, fault);
}

fn put_version<W: Writer>(pen: &mut Pen<W>)
    ensures { Puts W.seen pen.old pen.new (line_of (codes "refused version") []) }
{
    pen.put(b"refused version\n");
}

fn put_tab<W: Writer>(pen: &mut Pen<W>, place: usize)
    ensures { Puts W.seen pen.old pen.new (line_of (codes "refused tab ") (decimal place)) }
{
    pen.put(b"refused tab ");
    pen.put_place(place);
    pen.put(b"\n");
}

fn put_key<W: Writer>(pen: &mut Pen<W>, letter: char)
    ensures { Puts W.seen pen.old pen.new (line_of (codes "refused key ") (encode_utf8 letter)) }
{
    pen.put(b"refused key ");
    pen.put_char(letter);
    pen.put(b"\n");
}

fn put_list<W: Writer>(pen: &mut Pen<W>, list: &[Fault])
    ensures { Puts W.seen pen.old pen.new (flat_map fault_line list.now) }
{
    for fault in list {
        put_fault(pen, fault);
    }
}

fn put_fault<W: Writer>(pen: &mut Pen<W>, fault: &Fault)
    ensures { Puts W.seen pen.old pen.new (fault_line fault.now) }
{
    pen.put(b"F");
    pen.put_number(u32::from(fault.kind.number()));
    pen.put(b" line ");
    pen.put_number(fault.line);
    pen.put(b"\n");
}

fn put_message<W: Writer>(pen: &mut Pen<W>, name: &[u8], fault: &Trouble)
    ensures { Puts W.seen pen.old pen.new (err_text name.now fault.now) }
{
    match fault {
        Trouble::NoMemory => put_plain(pen, b"no memory"),
        Trouble::Lang(fault) => put_lang(pen, name, *fault),
        Trouble::Faults(_) => {}
        Trouble::Cert(fault) => put_cert(pen, name, *fault),
        Trouble::Refused(Refusal::NoMemory) => put_plain(pen, b"no memory"),
        Trouble::Refused(_) => {}
        Trouble::Script(fault) => put_script(pen, name, *fault),
        Trouble::Answers(fault) => put_answers(pen, name, *fault),
        Trouble::Misfits => {}
        Trouble::NoAnswers => put_named(pen, name, b": no answers"),
        Trouble::Disabled(ending) => put_disabled(pen, name, ending),
        Trouble::Unended(ending) => put_unended(pen, name, ending),
        Trouble::View => put_plain(pen, b"view refused"),
        Trouble::Read => put_named(pen, b"cannot read ", name),
        Trouble::Write => put_plain(pen, b"cannot write"),
    }
}

fn put_lang<W: Writer>(pen: &mut Pen<W>, name: &[u8], fault: LangFault)
    ensures { Puts W.seen pen.old pen.new (lang_message name.now fault) }
{
    match fault {
        LangFault::NoMemory => put_plain(pen, b"no memory"),
        LangFault::Syntax(line) => put_line(pen, name, SYNTAX, line),
        LangFault::TooLong => put_named(pen, name, b": too long"),
        LangFault::Version => put_named(pen, name, b": unknown version"),
    }
}

fn put_script<W: Writer>(pen: &mut Pen<W>, name: &[u8], fault: ScriptFault)
    ensures { Puts W.seen pen.old pen.new (script_message name.now fault) }
{
    match fault {
        ScriptFault::NoMemory => put_plain(pen, b"no memory"),
        ScriptFault::Syntax(line) => put_line(pen, name, SYNTAX, line),
        ScriptFault::OffScreen(line) => put_line(pen, name, b": off screen at line ", line),
        ScriptFault::TooLong => put_named(pen, name, b": too long"),
    }
}

fn put_answers<W: Writer>(pen: &mut Pen<W>, name: &[u8], fault: AnswersFault)
    ensures { Puts W.seen pen.old pen.new (answers_message name.now fault) }
{
    match fault {
        AnswersFault::NoMemory => put_plain(pen, b"no memory"),
        AnswersFault::Syntax(line) => put_line(pen, name, SYNTAX, line),
        AnswersFault::TooLong => put_named(pen, name, b": too long"),
    }
}

fn put_disabled<W: Writer>(pen: &mut Pen<W>, name: &[u8], ending: &Ending)
    ensures { Puts W.seen pen.old pen.new (disabled_message name.now ending.now) }
{
    pen.put(b"tvdlg: ");
    pen.put(name);
    pen.put(b": ");
    pen.put(end_word(ending.command));
    pen.put(b" is disabled in ");
    pen.put_chars(ending.dialog.as_slice());
    pen.put(b"\n");
}

fn put_unended<W: Writer>(pen: &mut Pen<W>, name: &[u8], ending: &Ending)
    ensures { Puts W.seen pen.old pen.new (unended_message name.now ending.now) }
{
    pen.put(b"tvdlg: ");
    pen.put(name);
    pen.put(b": ");
    pen.put_chars(ending.dialog.as_slice());
    pen.put(b" refuses ");
    pen.put(end_word(ending.command));
    pen.put(b"\n");
}

fn put_cert<W: Writer>(pen: &mut Pen<W>, name: &[u8], fault: CertificateFault)
    ensures { Puts W.seen pen.old pen.new (cert_message name.now fault) }
{
    match fault {
        CertificateFault::NoMemory => put_plain(pen, b"no memory"),
        CertificateFault::Syntax(line) => put_line(pen, name, SYNTAX, line),
        CertificateFault::TooLong => put_named(pen, name, b": too long"),
    }
}

fn put_plain<W: Writer>(pen: &mut Pen<W>, text: &[u8])
    ensures { Puts W.seen pen.old pen.new (line_of (codes "tvdlg: ") text.now) }
{
    pen.put(b"tvdlg: ");
    pen.put(text);
    pen.put(b"\n");
}

fn put_named<W: Writer>(pen: &mut Pen<W>, name: &[u8], text: &[u8])
    ensures { Puts W.seen pen.old pen.new (line_of (codes "tvdlg: ") (name.now ++ text.now)) }
{
    pen.put(b"tvdlg: ");
    pen.put(name);
    pen.put(text);
    pen.put(b"\n");
}

fn put_line<W: Writer>(pen: &mut Pen<W>, name: &[u8], text: &[u8], line: usize)
    ensures { Puts W.seen pen.old pen.new (line_message name.now text.now line) }
{
    pen.put(b"tvdlg: ");
    pen.put(name);
    pen.put(text);
    pen.put_place(line);
    pen.put(b"\n");
}
