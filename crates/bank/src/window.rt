ghost use Rattle.std.specs.Prelude.{◌≡◌};
ghost use Rattle.bank.specs.Floor.{floor_of};
ghost use Rattle.bank.specs.Window.{excludes, is_excluded, admitted, after_final, late_tag, opened_window};
ghost use Rattle.bank.specs.Window.{opened_windows};

use crate::{Row, rows};
use std::collections::BTreeMap;
use tag::{Stamp, Tag};

/// The window of finalized tags whose pieces are kept: the `delta` + 1 greatest, or all while there are no more than
/// that.
///
/// It is represented by its least tag and by the number of finalized tags above that. Once the window is full, its
/// least tag only rises. So amortised over all searches for the next finalized tag, each tag is scanned at most once.
#[derive(Clone, Copy, Debug)]
pub struct Window {
    /// How many finalized tags below the greatest keep their pieces.
    pub delta: u32,
    /// The least tag of the window.
    pub least: Tag,
    /// How many finalized tags are above it.
    pub above: u32,
}

impl Window {
    // The window of a bank that was just opened.
    pub fn opened(delta: u32) -> Window
        ensures { result ≡ opened_window delta }
    {
        Window {
            delta,
            least: Tag::OPENING,
            above: 0,
        }
    }

    // Whether the window is full and `tag` is below it.
    pub fn excludes(self, tag: Tag) -> bool
        ensures { result ≡ excludes self tag }
    {
        self.above == self.delta && tag < self.least
    }

    // Admits `tag`, which has just been finalized. Returns the tag that falls out, if one does, which may be `tag`
    // itself.
    pub fn admit(&mut self, rows: &BTreeMap<Tag, Row>, tag: Tag) -> Option<Tag>
        ensures window { self.new ≡ (admitted self.old rows.now.entries tag).0 }
        ensures fallen { result ≡ (admitted self.old rows.now.entries tag).1 }
    {
        if self.above < self.delta {
            self.above += 1;
            if tag < self.least {
                self.least = tag;
            }
            return None;
        }
        if tag < self.least {
            return Some(tag);
        }
        let fallen = self.least;
        self.least = rows::next_final(rows, fallen)?;
        Some(fallen)
    }
}

// The window of a bank that was just opened, where it has a `delta`.
pub fn opened(delta: Option<u32>) -> Option<Window>
    ensures { result ≡ opened_windows delta }
{
    match delta {
        Some(delta) => Some(Window::opened(delta)),
        None => None,
    }
}

// Whether there is a window, it is full, and `tag` is below it.
pub fn is_excluded(window: Option<Window>, tag: Tag) -> bool
    ensures { result ≡ is_excluded window tag }
{
    match window {
        Some(window) => window.excludes(tag),
        None => false,
    }
}

// The floor: the least tag of the window, if there is a window and it is full.
pub fn floor(window: Option<Window>) -> Option<Tag>
    ensures { result ≡ floor_of window }
{
    match window {
        Some(window) if window.above == window.delta => Some(window.least),
        _ => None,
    }
}

// The tag itself where the bank is to drop a piece that arrives for it, and else none.
pub fn late(
    window: Option<Window>,
    retired: Option<Stamp>,
    rows: &BTreeMap<Tag, Row>,
    tag: Tag,
) -> Option<Tag>
    ensures { result ≡ late_tag window retired rows.now.entries tag }
{
    if retired.is_some() || (is_excluded(window, tag) && rows::is_final(rows, tag)) {
        Some(tag)
    } else {
        None
    }
}

// Admits `tag` to the window, if there is one and `tag` was not finalized before (`anew`). Returns the tag that falls
// out, if one does.
pub fn admit(
    window: &mut Option<Window>,
    anew: bool,
    rows: &BTreeMap<Tag, Row>,
    tag: Tag,
) -> Option<Tag>
    ensures window { window.new ≡ (after_final window.old anew rows.now.entries tag).0 }
    ensures fallen { result ≡ (after_final window.old anew rows.now.entries tag).1 }
{
    match window {
        Some(window) if anew => window.admit(rows, tag),
        _ => None,
    }
}
