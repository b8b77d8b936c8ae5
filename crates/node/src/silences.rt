//! For how many ticks nodes were not heard.
ghost use Rattle.std.specs.Prelude.{◌≡◌, ◌≤◌, None, length, replicate};
ghost use Rattle.node.specs.Peers.{silence_after, silences_after};

use node_strings::Heard;

/// How many numbers of nodes there are.
pub(crate) const NUMBERS: usize = 256;

/// Returns the silences before any tick: no node was named.
pub(crate) fn no_silences() -> [Option<u32>; NUMBERS]
    ensures { result ≡ replicate NUMBERS None }
{
    [None; NUMBERS]
}

/// A tick has come that names these nodes.
pub(crate) fn count_tick(heard: &Heard, silences: &mut [Option<u32>])
    requires { length silences.old ≤ 256 }
    ensures { silences.new ≡ silences_after heard.now 0 silences.old }
{
    for node in 0..silences.len() {
        silences[node] = after(heard.has(node as u8), silences[node]);
    }
}

// The ticks since a node was named, after one more tick, which names it or not.
fn after(is_named: bool, silence: Option<u32>) -> Option<u32>
    ensures { result ≡ silence_after is_named silence }
{
    if is_named {
        return Some(0);
    }
    let ticks = silence?;
    Some(ticks.saturating_add(1))
}
