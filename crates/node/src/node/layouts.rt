//! What a node tells about the layout of a name.
ghost use Rattle.std.specs.Prelude.{◌≡◌, ◌∷◌, ◌++◌, IfErr, IfOk, OnOk};
ghost use Rattle.std.specs.Fmt.{decimal};
ghost use Rattle.std.specs.List.{flat_map};
ghost use Rattle.node_effects.specs.declared.error.NodeError.TheVariants.{NoMemory};
ghost use Rattle.node_keeper.specs.Written.{last_known};
ghost use Rattle.node.specs.Shown.{layout_line, node_word};

use super::Node;
use bytes::Bytes;
use layout::Layout;
use node_effects::NodeError;
use std::alloc::{AllocError, Global};

impl Node {
    /// Returns the line of the last position of a name of which the node has heard.
    pub(super) fn layout_line(&self, name: &Bytes) -> Result<Bytes, NodeError>
        ensures line { IfOk result (λ line. line ≡ layout_line (last_known self.now.keeper.objects name.now).position
            (last_known self.now.keeper.objects name.now).layout) }
        ensures refused { IfErr result (λ e. e ≡ NoMemory) }
    {
        match self.keeper.objects.last_known(name) {
            Some(place) => Ok(layout_line(self.alloc, place.position(), place.layout())?),
            None => {
                let first = self.keeper.objects.first_layout(name);
                Ok(layout_line(self.alloc, 0, &first)?)
            }
        }
    }
}

// The line of this position with this layout.
fn layout_line(alloc: Global, position: u32, layout: &Layout) -> Result<Bytes, AllocError>
    ensures { IfOk result (λ line. line ≡ layout_line position layout.now) }
{
    let k = layout.k();
    let head = format!(in alloc; "position {position} k {k} nodes")?;
    let mut line = head.into_bytes();
    push_nodes(alloc, &mut line, layout)?;
    Ok(Bytes::from_vec(line)?)
}

// Appends the numbers of the nodes of this layout, each behind a space.
fn push_nodes(alloc: Global, line: &mut Vec<u8>, layout: &Layout) -> Result<(), AllocError>
    ensures { OnOk result (line.new.items ≡ line.old.items ++ flat_map node_word layout.now.members) }
{
    for i in 0..layout.n() {
        push_node(alloc, line, layout.member(i))?;
    }
    Ok(())
}

/// Appends the number of a node behind a space.
pub(super) fn push_node(alloc: Global, line: &mut Vec<u8>, node: u8) -> Result<(), AllocError>
    ensures { OnOk result (line.new.items ≡ line.old.items ++ node_word node) }
{
    let word = format!(in alloc; " {node}")?;
    line.extend_from_slice(word.as_bytes())
}
