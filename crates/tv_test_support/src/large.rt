//! A description at every limit at once, other large ones, and what is answered about them.

use std::alloc::{AllocError, Global};
use std::test::Fail;

/// Menus, their items, status items, windows, dialogs, views of each and rules, as many as there may be, on the largest screen. Of
/// fifteen dialogs each has every kind of control, with as many items, characters and panes around one another as there may be; the
/// last has as many fields.
pub fn large_description(alloc: Global) -> Result<String, Fail> {
    let mut desc = String::from_str(alloc, "tvd 1\nscreen 132 60\nstart d0\n")?;
    push_menus(&mut desc, alloc)?;
    push_status_items(&mut desc, alloc)?;
    push_windows(&mut desc, alloc)?;
    push_dialogs(&mut desc, alloc)?;
    push_fields(&mut desc, alloc)?;
    Ok(desc)
}

/// A text behind a comment, so that it has this many bytes.
pub fn filled(alloc: Global, text: &str, bytes: usize) -> Result<String, Fail> {
    let comment = "#".repeat(alloc, bytes.saturating_sub(text.len()).saturating_sub(1))?;
    Ok(format!(in alloc; "{comment}\n{text}")?)
}

fn push_menus(desc: &mut String, alloc: Global) -> Result<(), AllocError> {
    let items = menu_items(alloc)?;
    for title in 1u32..=8 {
        let menu = format!(in alloc; "menu \"~{title}~ menu\"\n{items}end\n")?;
        desc.push_str(&menu)?;
    }
    Ok(())
}

fn menu_items(alloc: Global) -> Result<String, AllocError> {
    let mut items = String::new(alloc);
    for letter in "0123456789ABCDEF".chars() {
        let item = format!(in alloc; "item \"~{letter}~n item\" 100\n")?;
        items.push_str(&item)?;
    }
    Ok(items)
}

// The first seven open the first seven dialogs, and the last one the last.
fn push_status_items(desc: &mut String, alloc: Global) -> Result<(), AllocError> {
    for (key, dialog) in [
        (1u32, 0u32),
        (2, 1),
        (3, 2),
        (4, 3),
        (5, 4),
        (6, 5),
        (7, 6),
        (8, 15),
    ] {
        let item = format!(in alloc; "status \"an item\" F{key} {}\n", 100 + dialog)?;
        desc.push_str(&item)?;
    }
    Ok(())
}

fn push_windows(desc: &mut String, alloc: Global) -> Result<(), AllocError> {
    let texts = "text 1 1 9 1 \"a text\"\n".repeat(alloc, 64)?;
    for number in 1u32..=9 {
        let window = format!(in alloc;
            "window w{number} 0 0 132 60 {number} \"a window\"\n{texts}end\n"
        )?;
        desc.push_str(&window)?;
    }
    Ok(())
}

fn push_dialogs(desc: &mut String, alloc: Global) -> Result<(), AllocError> {
    let inputs = inputs(alloc)?;
    let items = items(alloc)?;
    let texts = texts(alloc, 51)?;
    let rules = "show p when k 1\nenable ok when r 2\n".repeat(alloc, 32)?;
    for dialog in 0u32..15 {
        let command = 100 + dialog;
        let dialog = format!(in alloc;
            "dialog d{dialog} 0 1 132 58 \"a dialog\" opens {command} ends ok cancel\n{inputs}{items}{texts}{rules}end\n"
        )?;
        desc.push_str(&dialog)?;
    }
    Ok(())
}

// Sixty-one inputs, three clusters and lists, and rules that show two of the inputs.
fn push_fields(desc: &mut String, alloc: Global) -> Result<(), AllocError> {
    let digits = digits(alloc)?;
    desc.push_str("dialog d15 0 1 132 58 \"a dialog\" opens 115 ends cancel\n")?;
    for field in 0u32..61 {
        let x = 1 + 21 * (field % 6);
        let y = 1 + field / 6;
        let input = format!(in alloc; "input i{field} {x} {y} 20 120 any \"{digits}\"\n")?;
        desc.push_str(&input)?;
    }
    desc.push_str(&clusters(alloc, 20)?)?;
    let rules = "show i60 when k 1\nshow i59 when r 16\n".repeat(alloc, 32)?;
    desc.push_str(&rules)?;
    desc.push_str("end\n")
}

// A text of as many characters as one may have.
fn digits(alloc: Global) -> Result<String, AllocError> {
    "0123456789".repeat(alloc, 12)
}

// A label and three inputs, one of them in as many panes as there may be, with pictures, filters and first texts of 120 characters.
fn inputs(alloc: Global) -> Result<String, AllocError> {
    let picture = "#".repeat(alloc, 120)?;
    let digits = digits(alloc)?;
    format!(in alloc;
        "label 1 1 20 \"~L~ist\" l
input i 1 2 20 120 picture \"{picture}\" \"{digits}\" validate
input f 1 3 20 120 filter \"{digits}\" \"{digits}\" optional
pane p 1 30 20 5
pane pa 0 0 20 5
pane pb 0 0 20 5
pane pc 0 0 20 5
input q 0 0 20 120 any \"{digits}\"
end
end
end
end
"
    )
}

// Check boxes and radio buttons of 16 items, a list of 100, and two buttons.
fn items(alloc: Global) -> Result<String, AllocError> {
    let clusters = clusters(alloc, 4)?;
    format!(in alloc;
        "{clusters}button o 1 40 10 \"~O~K\" ok default
button c 1 42 10 \"~C~ancel\" cancel
"
    )
}

// Check boxes and radio buttons of 16 items, and a list of 100, from this row on.
fn clusters(alloc: Global, row: u32) -> Result<String, AllocError> {
    let few = " \"an item\"".repeat(alloc, 15)?;
    let many = " \"an item\"".repeat(alloc, 100)?;
    format!(in alloc;
        "checks k 1 {row} 20 \"~A~n item\"{few} start 1 2 3 4 5 6 7 8 9 10 11 12 13 14 15 16
radios r 30 {row} 20 \"~R~ed\"{few} start 16
list l 60 {row} 20 10{many} start 100
"
    )
}

// So many texts of thirty rows.
fn texts(alloc: Global, count: usize) -> Result<String, AllocError> {
    let rows = "row\\n".repeat(alloc, 30)?;
    let text = format!(in alloc; "text 40 22 20 30 \"{rows}\"\n")?;
    text.repeat(alloc, count)
}

/// One dialog of sixty-four buttons, open at the start: `b0` gives the command 100 and `b62` 162, and `c` cancels it.
pub fn large_buttons_description(alloc: Global) -> Result<String, Fail> {
    let mut desc = String::from_str(
        alloc,
        "tvd 1\nscreen 132 60\nstart d\ndialog d 0 1 132 58 \"\" ends cancel\n",
    )?;
    for button in 0u32..63 {
        let x = 1 + 13 * (button % 10);
        let y = 1 + button / 10;
        let line = format!(in alloc;
            "button b{button} {x} {y} 10 \"a button\" {}\n",
            100 + button
        )?;
        desc.push_str(&line)?;
    }
    desc.push_str("button c 1 20 10 \"~C~ancel\" cancel\nend\n")?;
    Ok(desc)
}

/// What a run of these buttons logs at its start, and then at so many keys Tab.
pub fn large_buttons_log(alloc: Global, tabs: u32) -> Result<String, Fail> {
    let mut log = String::from_str(alloc, "open d\nfocus b0\n")?;
    for tab in 0..tabs {
        match tab % 64 {
            62 => log.push_str("focus c\n")?,
            63 => log.push_str("focus b0\n")?,
            button => {
                let line = format!(in alloc; "focus b{}\n", button + 1)?;
                log.push_str(&line)?;
            }
        }
    }
    Ok(log)
}

/// The certificate of the large description.
pub fn large_certificate(alloc: Global) -> Result<String, Fail> {
    let mut certificate = String::from_str(alloc, "tvcert 1\n")?;
    for dialog in 0u32..15 {
        let block = format!(in alloc;
            "dialog d{dialog}
tab i
tab f
tab q
tab k
tab r
tab l
tab o
tab c
key A k 1
key C c
key L l
key O o
key R r 1
end
"
        )?;
        certificate.push_str(&block)?;
    }
    certificate.push_str("dialog d15\n")?;
    push_names(&mut certificate, alloc, "tab")?;
    certificate.push_str("key A k 1\nkey R r 1\nend\n")?;
    Ok(certificate)
}

// A line for each field of the last dialog, that begins with this word.
fn push_names(text: &mut String, alloc: Global, word: &str) -> Result<(), AllocError> {
    for field in 0u32..61 {
        let line = format!(in alloc; "{word} i{field}\n")?;
        text.push_str(&line)?;
    }
    let others = format!(in alloc; "{word} k\n{word} r\n{word} l\n")?;
    text.push_str(&others)
}

/// The steps of making the views of the large description.
pub fn large_plan(alloc: Global) -> Result<String, Fail> {
    let mut plan = String::new(alloc);
    for window in 0u32..9 {
        let line = 156 + 66 * window;
        let open = format!(in alloc; "open w{}\n", window + 1)?;
        plan.push_str(&open)?;
        push_leaves(&mut plan, alloc, line + 1, 64)?;
        plan.push_str("close\n")?;
    }
    for dialog in 0u32..15 {
        let line = 750 + 134 * dialog;
        let open = format!(in alloc;
            "open d{dialog}\nleaf line {}\nleaf i\nleaf f\nopen p\nopen pa\nopen pb\nopen pc\nleaf q\n",
            line + 1
        )?;
        plan.push_str(&open)?;
        plan.push_str("close\nclose\nclose\nclose\nleaf k\nleaf r\nleaf l\nleaf o\nleaf c\n")?;
        push_leaves(&mut plan, alloc, line + 18, 51)?;
        plan.push_str("close\n")?;
    }
    plan.push_str("open d15\n")?;
    push_names(&mut plan, alloc, "leaf")?;
    plan.push_str("close\n")?;
    Ok(plan)
}

// The steps of views without names, by their lines.
fn push_leaves(plan: &mut String, alloc: Global, first: u32, count: u32) -> Result<(), AllocError> {
    for line in first..first.saturating_add(count) {
        let leaf = format!(in alloc; "leaf line {line}\n")?;
        plan.push_str(&leaf)?;
    }
    Ok(())
}

/// A script that shows the dialog at the start, the windows, of which the last comes to the front, a menu, and each dialog that a
/// key of the large description opens.
pub const LARGE_SCRIPT: &str = "\
shot
key Esc
shot
key Alt-9
shot
key Alt-1
shot
key Esc
key F1
shot
key Esc
key F2
shot
key Esc
key F3
shot
key Esc
key F4
shot
key Esc
key F5
shot
key Esc
key F6
shot
key Esc
key F7
shot
key Esc
key F8
shot
key Esc
";

/// What a run of this script writes, without the pictures' rows.
pub fn large_log(alloc: Global) -> Result<String, Fail> {
    let shot = "shot 132 60\n";
    let digits = digits(alloc)?;
    let fields = format!(in alloc;
        "field i \"{digits}\"\nfield f \"{digits}\"\nfield q \"{digits}\"\n{LAST_FIELDS}"
    )?;
    let mut log = format!(in alloc;
        "open d0\nfocus i\n{shot}end d0 cancel\n{fields}{shot}{shot}{shot}"
    )?;
    for dialog in 0u32..7 {
        let ended = format!(in alloc;
            "open d{dialog}\nfocus i\n{shot}end d{dialog} cancel\n{fields}"
        )?;
        log.push_str(&ended)?;
    }
    log.push_str("open d15\nfocus i0\nshot 132 60\nend d15 cancel\n")?;
    for field in 0u32..61 {
        let line = format!(in alloc; "field i{field} \"{digits}\"\n")?;
        log.push_str(&line)?;
    }
    log.push_str(LAST_FIELDS)?;
    Ok(log)
}

// The fields that each dialog has last.
const LAST_FIELDS: &str = "\
field k 1 2 3 4 5 6 7 8 9 10 11 12 13 14 15 16
field r 16
field l 100
";
