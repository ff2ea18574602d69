//! The forms of lines.

use crate::fitting::Want;
use crate::nearest::{Nearest, Unknown};
use std::alloc::{AllocError, Global};
use tv_words::Word;

/// What a text is.
#[derive(Clone, Copy, Debug, PartialEq, Eq)]
pub enum Language {
    Description,
    Certificate,
    Script,
}

/// What follows the first words of a line.
#[derive(Clone, Copy, Debug, PartialEq, Eq)]
pub enum Rest {
    Nothing,
    Button,
    Domain,
    Ends,
    Checks,
    Radios,
    List,
    Rule,
    Owner,
}

/// A line: how it is called, its form, its first words after the keyword, and what follows them.
pub struct Form {
    pub called: &'static str,
    pub text: &'static str,
    pub words: &'static [Want],
    pub rest: Rest,
}

impl Form {
    /// Returns the keyword of the line: the first word of its form.
    pub fn keyword(&self) -> &'static str {
        match self.text.split_once(' ') {
            Some((keyword, _)) => keyword,
            None => self.text,
        }
    }
}

const NUM: Want = Want::Num;

// The lines of descriptions.
const DESCRIPTION: [Form; 19] = [
    Form {
        called: "the first line",
        text: "tvd 1",
        words: &[NUM],
        rest: Rest::Nothing,
    },
    Form {
        called: "the screen",
        text: "screen W H",
        words: &[NUM, NUM],
        rest: Rest::Nothing,
    },
    Form {
        called: "the start",
        text: "start NAME",
        words: &[Want::Name],
        rest: Rest::Nothing,
    },
    Form {
        called: "a menu",
        text: "menu MARKED",
        words: &[Want::Marked],
        rest: Rest::Nothing,
    },
    Form {
        called: "an item",
        text: "item MARKED COMMAND",
        words: &[Want::Marked, Want::Command],
        rest: Rest::Nothing,
    },
    Form {
        called: "a status item",
        text: "status STR KEY COMMAND",
        words: &[Want::Str, Want::Key, Want::Command],
        rest: Rest::Nothing,
    },
    Form {
        called: "a window",
        text: "window NAME X Y W H N STR",
        words: &[Want::Name, NUM, NUM, NUM, NUM, NUM, Want::Str],
        rest: Rest::Nothing,
    },
    Form {
        called: "a dialog",
        text: "dialog NAME X Y W H STR [opens NUM] ends [ok] [cancel] [yes] [no]",
        words: &[Want::Name, NUM, NUM, NUM, NUM, Want::Str],
        rest: Rest::Ends,
    },
    Form {
        called: "a text",
        text: "text X Y W H STR",
        words: &[NUM, NUM, NUM, NUM, Want::Str],
        rest: Rest::Nothing,
    },
    Form {
        called: "a label",
        text: "label X Y W MARKED NAME",
        words: &[NUM, NUM, NUM, Want::Marked, Want::Name],
        rest: Rest::Nothing,
    },
    Form {
        called: "a button",
        text: "button NAME X Y W MARKED COMMAND [default] [grab]",
        words: &[Want::Name, NUM, NUM, NUM, Want::Marked, Want::Command],
        rest: Rest::Button,
    },
    Form {
        called: "an input",
        text: "input NAME X Y W MAX domain STR [validate] [optional] [fill]",
        words: &[Want::Name, NUM, NUM, NUM, NUM],
        rest: Rest::Domain,
    },
    Form {
        called: "a checks line",
        text: "checks NAME X Y W MARKED+ [start NUM+], the numbers rising",
        words: &[Want::Name, NUM, NUM, NUM, Want::Marked],
        rest: Rest::Checks,
    },
    Form {
        called: "a radios line",
        text: "radios NAME X Y W MARKED+ start NUM",
        words: &[Want::Name, NUM, NUM, NUM, Want::Marked],
        rest: Rest::Radios,
    },
    Form {
        called: "a list",
        text: "list NAME X Y W H STR+ start NUM",
        words: &[Want::Name, NUM, NUM, NUM, NUM, Want::Str],
        rest: Rest::List,
    },
    Form {
        called: "a pane",
        text: "pane NAME X Y W H",
        words: &[Want::Name, NUM, NUM, NUM, NUM],
        rest: Rest::Nothing,
    },
    Form {
        called: "a show rule",
        text: "show NAME when NAME NUM",
        words: &[Want::Name],
        rest: Rest::Rule,
    },
    Form {
        called: "an enable rule",
        text: "enable COMMAND when NAME NUM",
        words: &[Want::Command],
        rest: Rest::Rule,
    },
    Form {
        called: "an end",
        text: "end",
        words: &[],
        rest: Rest::Nothing,
    },
];

// The lines of certificates.
const CERTIFICATE: [Form; 5] = [
    Form {
        called: "the first line",
        text: "tvcert 1",
        words: &[NUM],
        rest: Rest::Nothing,
    },
    Form {
        called: "a dialog",
        text: "dialog NAME",
        words: &[Want::Name],
        rest: Rest::Nothing,
    },
    Form {
        called: "a tab line",
        text: "tab NAME",
        words: &[Want::Name],
        rest: Rest::Nothing,
    },
    Form {
        called: "a key line",
        text: "key LETTER NAME [NUM] [when NAME NUM]",
        words: &[Want::Letter, Want::Name],
        rest: Rest::Owner,
    },
    Form {
        called: "an end",
        text: "end",
        words: &[],
        rest: Rest::Nothing,
    },
];

// The lines of scripts.
const SCRIPT: [Form; 7] = [
    Form {
        called: "a key line",
        text: "key KEY",
        words: &[Want::Key],
        rest: Rest::Nothing,
    },
    Form {
        called: "a type line",
        text: "type STR",
        words: &[Want::Str],
        rest: Rest::Nothing,
    },
    Form {
        called: "a down line",
        text: "down X Y",
        words: &[NUM, NUM],
        rest: Rest::Nothing,
    },
    Form {
        called: "a move line",
        text: "move X Y",
        words: &[NUM, NUM],
        rest: Rest::Nothing,
    },
    Form {
        called: "an up line",
        text: "up X Y",
        words: &[NUM, NUM],
        rest: Rest::Nothing,
    },
    Form {
        called: "a shot line",
        text: "shot",
        words: &[],
        rest: Rest::Nothing,
    },
    Form {
        called: "a colors line",
        text: "colors",
        words: &[],
        rest: Rest::Nothing,
    },
];

fn forms_of(language: Language) -> &'static [Form] {
    match language {
        Language::Description => &DESCRIPTION,
        Language::Certificate => &CERTIFICATE,
        Language::Script => &SCRIPT,
    }
}

/// Finds the form of the line of this language that begins with this word.
pub fn form_of(language: Language, word: &Word) -> Option<&'static Form> {
    let forms = forms_of(language);
    forms.iter().find(|form| word.is(form.keyword().as_bytes()))
}

/// Finds the form of the line of this language that has this keyword.
pub fn form_named(language: Language, keyword: &str) -> Option<&'static Form> {
    forms_of(language)
        .iter()
        .find(|form| form.keyword() == keyword)
}

// The place among these forms of the one whose keyword is nearest to a word.
fn nearest_place(alloc: Global, forms: &[Form], word: &str) -> Result<Option<usize>, AllocError> {
    let unknown = Unknown::new(alloc, word)?;
    let mut nearest = Nearest::none();
    for (place, form) in forms.iter().enumerate() {
        nearest = unknown.compare(alloc, nearest, place, form.keyword())?;
    }
    Ok(nearest.place)
}

/// Finds the keyword of this language that is nearest to the first word of a line.
pub fn nearest_keyword(
    alloc: Global,
    language: Language,
    line: &str,
) -> Result<Option<&'static str>, AllocError> {
    let word = line.split_whitespace().next().unwrap_or("");
    let forms = forms_of(language);
    Ok(match nearest_place(alloc, forms, word.trim_matches('"'))? {
        Some(place) => forms.get(place).map(Form::keyword),
        None => None,
    })
}
