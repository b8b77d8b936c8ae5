use crate::shared_layout::SharedLayout;

/// A start of an object, with the layout of its position: a position such that, at each position before it, the pointer
/// is final at a quorum. So no call has to read the positions before it.
#[derive(Debug, Drop)]
pub struct Start {
    pub position: u32,
    pub layout: SharedLayout,
}
