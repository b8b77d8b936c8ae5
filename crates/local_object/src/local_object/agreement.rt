//! Whether the layouts in a letter are those that the node has heard of.

ghost use Rattle.std.specs.Prelude.{◌≡◌, option_copied};
ghost use Rattle.local_object.specs.Agreement.{agrees, if_there, is_heard, is_not_another, knows_all_of};
ghost use Rattle.local_object.specs.Agreement.{start_passes};
ghost use Rattle.local_object.specs.Local.{layout_here};

use crate::LocalObject;
use layout::Layout;
use letter::{Letter, SharedLayout, Start};

impl LocalObject {
    /// Whether no layout in the letter differs from the one that the node has heard of for its position. While all
    /// nodes follow the rules, this holds of every letter. It allocates no memory.
    pub fn agrees_with(&self, letter: &Letter) -> bool
        ensures { result ≡ agrees self.now letter.now }
    {
        let position = u64::from(letter.message.position);
        is_not_another(self.places.layout_of(position), letter.layout.layout())
            && self.agrees_with_next(position + 1, &letter.next)
            && self.agrees_with_start(&letter.start)
    }

    /// Whether the node has heard of each position of which the letter has the layout, and with that layout. While all
    /// nodes follow the rules, this holds of every letter that comes to the node that moves objects. It allocates no
    /// memory.
    pub fn knows_all_of(&self, letter: &Letter) -> bool
        ensures { result ≡ knows_all_of self.now letter.now }
    {
        let position = u64::from(letter.message.position);
        is_heard(self.places.layout_of(position), letter.layout.layout())
            && self.knows_next(position + 1, &letter.next)
            && self.knows_start(&letter.start)
    }

    // Whether the layout is not another one than the node has heard of for the position, if there is one.
    fn agrees_with_next(&self, position: u64, layout: &Option<SharedLayout>) -> bool
        ensures { result ≡ if_there (is_not_another (layout_here self.now position)) layout.now }
    {
        match layout {
            Some(layout) => is_not_another(self.places.layout_of(position), layout.layout()),
            None => true,
        }
    }

    // Whether the start's layout is not another one than the node has heard of for its position, if there is a start.
    fn agrees_with_start(&self, start: &Option<Start>) -> bool
        ensures { result ≡ start_passes is_not_another self.now start.now }
    {
        match start {
            Some(start) => {
                let heard = self.places.layout_of(u64::from(start.position));
                is_not_another(heard, start.layout.layout())
            }
            None => true,
        }
    }

    // Whether the layout is the one that the node has heard of for the position, if there is one.
    fn knows_next(&self, position: u64, layout: &Option<SharedLayout>) -> bool
        ensures { result ≡ if_there (is_heard (layout_here self.now position)) layout.now }
    {
        match layout {
            Some(layout) => is_heard(self.places.layout_of(position), layout.layout()),
            None => true,
        }
    }

    // Whether the start's layout is the one that the node has heard of for its position, if there is a start.
    fn knows_start(&self, start: &Option<Start>) -> bool
        ensures { result ≡ start_passes is_heard self.now start.now }
    {
        match start {
            Some(start) => is_heard(
                self.places.layout_of(u64::from(start.position)),
                start.layout.layout(),
            ),
            None => true,
        }
    }
}

// Whether no layout was heard of, or it is this one.
fn is_not_another(heard: Option<&Layout>, layout: &Layout) -> bool
    ensures { result ≡ is_not_another (option_copied heard.entry) layout.now }
{
    match heard {
        Some(heard) => heard == layout,
        None => true,
    }
}

// Whether a layout was heard of, and it is this one.
fn is_heard(heard: Option<&Layout>, layout: &Layout) -> bool
    ensures { result ≡ is_heard (option_copied heard.entry) layout.now }
{
    match heard {
        Some(heard) => heard == layout,
        None => false,
    }
}
