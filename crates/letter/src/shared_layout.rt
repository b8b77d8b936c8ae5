ghost use Rattle.std.specs.Prelude.{◌≡◌, IfOk};

use layout::Layout;
use std::alloc::{AllocError, Global};
use std::marker::Model;
use std::sync::Arc;

/// A layout that several letters and positions own together. A letter is moved by many functions, and a shared layout
/// is eight bytes long where a `Layout` has more than 256.
#[derive(Debug, Drop)]
pub struct SharedLayout {
    shared: Arc<Layout>,
}

impl Model for SharedLayout {
    ghost use Rattle.std.specs.Arc.{arc_value};
    ghost use Rattle.layout.specs.Layout.{Layout as Arrangement, IsLawful};
    ghost use Rattle.layout.specs.contracts.layout.Layout as arrangement;

    ghost Value = { Arrangement };

    ghost coded = { arrangement.the_row.coded };

    ghost view = { λ s. arc_value s.shared };

    ghost invariant = { λ s. IsLawful (arc_value s.shared) };
}

impl SharedLayout {
    /// Makes a layout that has one owner. `AllocError` is the only error.
    pub fn new(alloc: Global, layout: Layout) -> Result<SharedLayout, AllocError>
        ensures { IfOk result (λ s. s ≡ layout) }
    {
        Ok(SharedLayout {
            shared: Arc::new(alloc, layout)?,
        })
    }

    /// Returns the layout.
    pub fn layout(&self) -> &Layout
        ensures { result.now ≡ self.now }
    {
        &self.shared
    }
}

/// Returns the same layout with one more owner. `AllocError` if it has 2^63 - 1 owners.
impl Clone for SharedLayout {
    ghost use Rattle.std.specs.Prelude.{◌≡◌};

    ghost is_clone = { λ s c. c ≡ s };

    fn clone(&self) -> Result<SharedLayout, AllocError> {
        Ok(SharedLayout {
            shared: Arc::try_clone(&self.shared)?,
        })
    }
}
