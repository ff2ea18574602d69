//! What may come next in a text, and why a line can't.

use crate::forms::Language;

/// The sections of a description, in their order.
#[derive(Clone, Copy, Debug, PartialEq, Eq, PartialOrd, Ord)]
pub enum Section {
    Screen,
    Start,
    Menus,
    Status,
    Windows,
    Dialogs,
}

/// What is open after some lines.
#[derive(Clone, Copy, Debug, PartialEq, Eq)]
pub enum Stage {
    Version,
    Screen,
    /// Nothing is open, this section being the last.
    Between(Section),
    /// A menu, with or without an item.
    InMenu { has_items: bool },
    InWindow,
    /// The views of a dialog, so many panes being open.
    InViews(usize),
    InRules,
    /// Views or rules that no line before them begins: nothing is said of what follows up to the next window or dialog.
    Lost,
    /// The version of a certificate.
    Heading,
    /// The dialogs of a certificate.
    Blocks,
    /// A dialog of a certificate, before its first control.
    NoTabs,
    /// The controls of a dialog, and then its letters.
    Tabs,
    /// The letters of a dialog.
    Keys,
    /// A script, in which each line stands by itself.
    Script,
}

// The most panes around one another that can be read.
const MOST_PANES: usize = 16;

// The section that a line with this keyword stands in, if nothing is open there.
fn section_of(keyword: &str) -> Option<Section> {
    Some(match keyword {
        "start" => Section::Start,
        "menu" => Section::Menus,
        "status" => Section::Status,
        "window" => Section::Windows,
        "dialog" => Section::Dialogs,
        _ => return None,
    })
}

fn is_view(keyword: &str) -> bool {
    matches!(
        keyword,
        "text" | "label" | "button" | "input" | "checks" | "radios" | "list"
    )
}

// Whether a line with this keyword can follow this section.
fn may_follow(section: Section, keyword: &str) -> bool {
    match section_of(keyword) {
        Some(Section::Start) => section == Section::Screen,
        Some(next) => section <= next,
        None => false,
    }
}

// Whether a line with this keyword can come in a menu.
fn menu_takes(has_items: bool, keyword: &str) -> bool {
    match keyword {
        "item" => true,
        "end" => has_items,
        _ => false,
    }
}

// Whether a line with this keyword can come among views, so many panes being open.
fn views_take(panes: usize, keyword: &str) -> bool {
    match keyword {
        "pane" => panes < MOST_PANES,
        "show" | "enable" => panes == 0,
        "end" => true,
        _ => is_view(keyword),
    }
}

// Whether an `end` is missing before a line with this keyword among views, so many panes being open.
fn views_lack_end(panes: usize, keyword: &str) -> bool {
    match keyword {
        "dialog" => true,
        "show" | "enable" => panes > 0,
        _ => false,
    }
}

// Whether a line with this keyword begins a menu, a status item, a window or a dialog.
fn begins_section(keyword: &str) -> bool {
    matches!(keyword, "menu" | "status" | "window" | "dialog")
}

// The stage after a line with this keyword, where nothing is open and this section was the last.
fn outside(section: Section, keyword: &str) -> Stage {
    match keyword {
        "tvd" | "screen" | "end" => Stage::Between(section),
        "start" => Stage::Between(section.max(Section::Start)),
        "menu" => Stage::InMenu { has_items: false },
        "status" => Stage::Between(Section::Status),
        "window" => Stage::InWindow,
        "dialog" => Stage::InViews(0),
        _ => Stage::Lost,
    }
}

// The stage after a line with this keyword in a menu, with or without an item.
fn in_items(has_items: bool, keyword: &str) -> Stage {
    match keyword {
        "item" => Stage::InMenu { has_items: true },
        "end" => Stage::Between(Section::Menus),
        _ if begins_section(keyword) => outside(Section::Menus, keyword),
        _ => Stage::InMenu { has_items },
    }
}

// The stage after a line with this keyword among the texts of a window.
fn among_texts(keyword: &str) -> Stage {
    match keyword {
        "end" => Stage::Between(Section::Windows),
        _ if begins_section(keyword) => outside(Section::Windows, keyword),
        _ => Stage::InWindow,
    }
}

// The stage after a line with this keyword behind lines that nothing before them begins.
fn behind_lost(keyword: &str) -> Stage {
    match keyword {
        "window" | "dialog" => outside(Section::Dialogs, keyword),
        _ => Stage::Lost,
    }
}

// The stage after a line with this keyword among views, so many panes being open.
fn among_views(panes: usize, keyword: &str) -> Stage {
    match keyword {
        "end" if panes == 0 => Stage::Between(Section::Dialogs),
        "end" => Stage::InViews(panes.saturating_sub(1)),
        "pane" => Stage::InViews(panes.saturating_add(1)),
        "show" | "enable" => Stage::InRules,
        _ if begins_section(keyword) => outside(Section::Dialogs, keyword),
        _ => Stage::InViews(panes),
    }
}

// The stage after a line with this keyword among rules.
fn among_rules(keyword: &str) -> Stage {
    match keyword {
        "end" => Stage::Between(Section::Dialogs),
        "pane" => Stage::InViews(1),
        _ if begins_section(keyword) => outside(Section::Dialogs, keyword),
        _ if is_view(keyword) => Stage::InViews(0),
        _ => Stage::InRules,
    }
}

// The stage after a line of a certificate with this keyword.
fn in_certificate(stage: Stage, keyword: &str) -> Stage {
    match keyword {
        "tvcert" => Stage::Blocks,
        "dialog" => Stage::NoTabs,
        "tab" => Stage::Tabs,
        "key" => Stage::Keys,
        "end" => Stage::Blocks,
        _ => stage,
    }
}

impl Stage {
    /// Returns the stage at the beginning of a text.
    pub fn first(language: Language) -> Stage {
        match language {
            Language::Description => Stage::Version,
            Language::Certificate => Stage::Heading,
            Language::Script => Stage::Script,
        }
    }

    /// Whether a line with this keyword can come here.
    pub fn takes(self, keyword: &str) -> bool {
        match self {
            Stage::Version => keyword == "tvd",
            Stage::Screen => keyword == "screen",
            Stage::Between(section) => may_follow(section, keyword),
            Stage::InMenu { has_items } => menu_takes(has_items, keyword),
            Stage::InWindow => matches!(keyword, "text" | "end"),
            Stage::InViews(panes) => views_take(panes, keyword),
            Stage::InRules => matches!(keyword, "show" | "enable" | "end"),
            Stage::Heading => keyword == "tvcert",
            Stage::Blocks => keyword == "dialog",
            Stage::NoTabs => keyword == "tab",
            Stage::Tabs => matches!(keyword, "tab" | "key" | "end"),
            Stage::Keys => matches!(keyword, "key" | "end"),
            Stage::Lost | Stage::Script => true,
        }
    }

    /// Returns the stage after a line with this keyword. After one that can't come here it is what the line says that it is.
    pub fn after(self, keyword: &str) -> Stage {
        match self {
            Stage::Version if keyword == "tvd" => Stage::Screen,
            Stage::Version | Stage::Screen => outside(Section::Screen, keyword),
            Stage::Between(section) => outside(section, keyword),
            Stage::InMenu { has_items } => in_items(has_items, keyword),
            Stage::InWindow => among_texts(keyword),
            Stage::InViews(panes) => among_views(panes, keyword),
            Stage::InRules => among_rules(keyword),
            Stage::Lost => behind_lost(keyword),
            Stage::Script => self,
            Stage::Heading | Stage::Blocks | Stage::NoTabs | Stage::Tabs | Stage::Keys => {
                in_certificate(self, keyword)
            }
        }
    }

    /// Whether the text may end here.
    pub fn may_end(self) -> bool {
        matches!(
            self,
            Stage::Between(_) | Stage::Lost | Stage::Blocks | Stage::Script
        )
    }

    /// Whether a line with this keyword can't come here since an `end` is missing before it.
    pub fn lacks_end(self, keyword: &str) -> bool {
        match self {
            Stage::InMenu { .. } => begins_section(keyword),
            Stage::InWindow => matches!(keyword, "window" | "dialog"),
            Stage::InViews(panes) => views_lack_end(panes, keyword),
            Stage::InRules | Stage::Tabs | Stage::Keys => keyword == "dialog",
            _ => false,
        }
    }

    /// Says how a line can begin here.
    pub fn beginnings(self) -> &'static str {
        match self {
            Stage::Version => "tvd",
            Stage::Screen => "screen",
            Stage::Between(_) => "menu, status, window or dialog",
            Stage::InMenu { .. } => "item or end",
            Stage::InWindow => "text or end",
            Stage::InViews(_) | Stage::Lost => {
                "text, label, button, input, checks, radios, list, pane, show, enable or end"
            }
            Stage::InRules => "show, enable or end",
            Stage::Heading => "tvcert",
            Stage::Blocks => "dialog",
            Stage::NoTabs | Stage::Tabs | Stage::Keys => "tab, key or end",
            Stage::Script => "key, type, down, move, up, shot or colors",
        }
    }

    /// Says which line is missing where the text ends here.
    pub fn missing(self) -> &'static str {
        match self {
            Stage::Version => "the text says nothing: its first line is `tvd 1`",
            Stage::Screen => "the second line is missing: `screen` with its columns and rows",
            Stage::Heading => "the text says nothing: its first line is `tvcert 1`",
            _ => "the text ends too early: an `end` is missing",
        }
    }

    /// Says why a line that is a declaration can't come here.
    pub fn refuses(self, keyword: &str) -> &'static str {
        match self {
            Stage::Version => "the first line is `tvd 1`, or `tvd 2`",
            Stage::Screen => "the second line is `screen` with its columns and rows",
            Stage::Between(_) | Stage::Lost => between(keyword),
            Stage::InMenu { .. } => in_menu(keyword),
            Stage::InWindow => in_window(keyword),
            Stage::InViews(panes) => in_views(keyword, panes),
            Stage::InRules => in_rules(keyword),
            Stage::Heading => "the first line is `tvcert 1`, or `tvcert 2`",
            Stage::Blocks => "here `dialog` with a name begins a dialog",
            Stage::NoTabs => "a dialog has a `tab` line at least",
            Stage::Tabs | Stage::Keys => in_block(keyword),
            Stage::Script => "a line end can't be typed: write `key Enter`",
        }
    }
}

fn between(keyword: &str) -> &'static str {
    match keyword {
        "tvd" | "screen" => "this stands at the top, once",
        "start" => "the start stands right behind the screen",
        "menu" => "menus stand before status items, windows and dialogs",
        "item" => "items stand in a menu",
        "status" => "status items stand before windows and dialogs",
        "window" => "windows stand before dialogs",
        "text" => "texts stand in a window or a dialog",
        "show" | "enable" => "rules stand in a dialog, behind its views",
        "end" => "nothing is open that could end here",
        _ => "this stands in a dialog",
    }
}

fn in_views(keyword: &str, panes: usize) -> &'static str {
    match keyword {
        "pane" => "16 panes are open already",
        "dialog" => "an `end` is missing before this line",
        "show" | "enable" if panes > 0 => {
            "rules stand behind all views: the `end` of a pane is missing before this line"
        }
        _ => between(keyword),
    }
}

fn in_menu(keyword: &str) -> &'static str {
    match keyword {
        "end" => "a menu has an item at least",
        "menu" | "status" | "window" | "dialog" => {
            "only items stand in a menu: an `end` is missing before this line"
        }
        _ => "only items stand in a menu",
    }
}

fn in_window(keyword: &str) -> &'static str {
    match keyword {
        "window" | "dialog" => "only texts stand in a window: an `end` is missing before this line",
        _ => "only texts stand in a window",
    }
}

fn in_rules(keyword: &str) -> &'static str {
    match keyword {
        "dialog" => "an `end` is missing before this line",
        "tvd" | "screen" | "start" | "menu" | "item" | "status" | "window" => between(keyword),
        _ => "views stand before the rules of a dialog",
    }
}

fn in_block(keyword: &str) -> &'static str {
    match keyword {
        "tab" => "`tab` lines stand before `key` lines",
        "key" => "letters rise, digits first",
        _ => "an `end` is missing before this line",
    }
}
