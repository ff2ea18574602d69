//! What the options before that of a box set.

ghost use Rattle.std.specs.Prelude.{◌≡◌, IfOk};
ghost use Rattle.tv_boxes.specs.Arguments.{is_chosen, setting_named, standard_settings, with_setting};

use crate::request::Labels;
use std::alloc::{AllocError, Global};
use tv_valid::Chars;
use tv_words::is_same;

/// What a box has besides what it asks.
#[derive(Drop)]
pub(crate) struct Settings {
    pub title: Chars,
    pub labels: Labels,
    pub default_no: bool,
    /// The tag of the item that a menu begins with.
    pub chosen: Option<Chars>,
}

/// An option that has a word behind it.
#[derive(Clone, Copy)]
pub(crate) enum Setting {
    Title,
    Yes,
    No,
    Ok,
    Cancel,
    Chosen,
}

impl Setting {
    /// Returns what an option sets by the word behind it.
    pub(crate) fn named(option: &[char]) -> Option<Setting>
        ensures { result ≡ setting_named option.now }
    {
        if is_same(option, b"--title") {
            Some(Setting::Title)
        } else if is_same(option, b"--yes-label") {
            Some(Setting::Yes)
        } else if is_same(option, b"--no-label") {
            Some(Setting::No)
        } else if is_same(option, b"--ok-label") {
            Some(Setting::Ok)
        } else if is_same(option, b"--cancel-label") {
            Some(Setting::Cancel)
        } else if is_same(option, b"--default-item") {
            Some(Setting::Chosen)
        } else {
            None
        }
    }
}

impl Settings {
    /// Makes those of a box without options.
    pub(crate) fn standard(alloc: Global) -> Result<Settings, AllocError>
        ensures { IfOk result (λ settings. settings ≡ standard_settings) }
    {
        Ok(Settings {
            title: Chars::new(alloc),
            labels: Labels::standard(alloc)?,
            default_no: false,
            chosen: None,
        })
    }

    /// Sets what an option sets.
    pub(crate) fn set(&mut self, setting: Setting, word: Chars)
        ensures { self.new ≡ with_setting setting word self.old }
    {
        match setting {
            Setting::Title => self.title = word,
            Setting::Yes => self.labels.yes = word,
            Setting::No => self.labels.no = word,
            Setting::Ok => self.labels.ok = word,
            Setting::Cancel => self.labels.cancel = word,
            Setting::Chosen => self.chosen = Some(word),
        }
    }
}

/// Whether a tag is that of the item that a menu begins with.
pub(crate) fn is_chosen(chosen: &Option<Chars>, tag: &Chars) -> bool
    ensures { result ≡ is_chosen chosen.now tag.now }
{
    match chosen {
        Some(word) => word.as_slice() == tag.as_slice(),
        None => false,
    }
}
