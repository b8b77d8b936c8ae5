//! The settings of a cluster file.
ghost use Rattle.std.specs.Prelude.{◌≡◌, Some};
ghost use Rattle.std.specs.Str.{bytes_eq};
ghost use Rattle.cluster_file.specs.Settings.{order_of, word_of, setting_from, due_fault, behind_fault};

use crate::error::Fault;
use std::fmt;

/// The settings, in their order in a file.
#[derive(Clone, Copy, Debug, PartialEq, Eq)]
pub enum Setting {
    /// The nodes among which placement chooses.
    Nodes,
    /// The number of members of a name's first layout.
    N,
    /// The number of fragments that give a value back.
    K,
    /// Of how many finished writes, besides the greatest, a bank keeps pieces; or `none` to keep all.
    Delta,
    /// The node that moves objects.
    Mover,
    /// The nodes that joined later.
    Later,
    /// The number of ticks after which a call is given up.
    Ticks,
}

impl Setting {
    // The place of the setting in a file, from 0.
    fn order(self) -> u8
        ensures { result ≡ order_of self }
    {
        self as u8
    }

    /// Returns the word that names the setting.
    pub fn word(self) -> &'static str
        ensures { result.now ≡ word_of self }
    {
        match self {
            Setting::Nodes => "nodes",
            Setting::N => "n",
            Setting::K => "k",
            Setting::Delta => "delta",
            Setting::Mover => "mover",
            Setting::Later => "later",
            Setting::Ticks => "ticks",
        }
    }
}

/// A setting is printed as its word.
impl fmt::Display for Setting {
    ghost output = { λ setting. Some (word_of setting) };

    fn fmt<W: fmt::Write>(&self, f: &mut fmt::Formatter<W>) -> fmt::Result {
        f.write_str(self.word())
    }
}

// Whether the word is this text.
pub(crate) fn is_text(word: &[u8], text: &[u8]) -> bool
    ensures { result ≡ bytes_eq word.now text.now }
{
    word == text
}

// The setting that a word names.
#[tactic(auto, unfolding(crate::specs::Settings::setting_from))]
fn setting_of(word: &[u8]) -> Option<Setting>
    ensures { result ≡ setting_from word.now }
{
    if is_text(word, b"nodes") {
        Some(Setting::Nodes)
    } else if is_text(word, b"n") {
        Some(Setting::N)
    } else if is_text(word, b"k") {
        Some(Setting::K)
    } else if is_text(word, b"delta") {
        Some(Setting::Delta)
    } else if is_text(word, b"mover") {
        Some(Setting::Mover)
    } else if is_text(word, b"later") {
        Some(Setting::Later)
    } else if is_text(word, b"ticks") {
        Some(Setting::Ticks)
    } else {
        None
    }
}

/// Returns what is wrong with the first word of a line where this setting is due.
pub(crate) fn due_fault(due: Setting, word: &[u8]) -> Option<Fault>
    ensures { result ≡ due_fault due word.now }
{
    match setting_of(word) {
        None => Some(Fault::UnknownSetting),
        Some(setting) => {
            if setting.order() < due.order() {
                Some(Fault::SettingTwice)
            } else if due.order() < setting.order() {
                Some(Fault::SettingMissing(due))
            } else {
                None
            }
        }
    }
}

/// What is wrong with the first word of a line after the last setting.
pub(crate) fn behind_fault(word: &[u8]) -> Fault
    ensures { result ≡ behind_fault word.now }
{
    match setting_of(word) {
        None => Fault::UnknownSetting,
        Some(_) => Fault::SettingTwice,
    }
}
