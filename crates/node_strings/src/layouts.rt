//! Layouts that are lawful, and the string of a layout.
ghost use Rattle.std.specs.Prelude.{◌≡◌, ◌↔◌, Ok, IsOk, IfOk};
ghost use Rattle.layout.specs.Layout.{IsLawful, Layout as LayoutValue};
ghost use Rattle.node_strings.specs.Layouts.{checked_layout, layout_string, layout_of_string};

use layout::Layout;

/// The layout of this k and these members, or this fault if it is not lawful: unless `1 <= k <= n <= MOST_MEMBERS`,
/// where n is the number of members, and no member is named twice.
pub fn checked_layout<E: Copy>(k: u8, members: &[u8], fault: E) -> Result<Layout, E>
    ensures lawful { IsOk result ↔ IsLawful (record { k = k; members = members.now }) }
    ensures exact { result ≡ checked_layout fault (record { k = k; members = members.now }) }
{
    match Layout::new(k, members) {
        Ok(layout) => Ok(layout),
        Err(_) => Err(fault),
    }
}

/// The layout whose string this is: a byte for k, and then one for each member. The fault is returned if the string is
/// empty or the layout is not lawful.
pub fn read_layout<E: Copy>(string: &[u8], fault: E) -> Result<Layout, E>
    // The string is that of the layout.
    ensures found { IfOk result (λ layout. IsLawful layout × (string.now ≡ layout_string layout)) }
    // The string of a lawful layout is read as that layout.
    ensures only { (layout : LayoutValue) → IsLawful layout → string.now ≡ layout_string layout → result ≡ Ok layout }
    ensures exact { result ≡ layout_of_string fault string.now }
{
    read_bytes(string, fault)
}

// Does what `read_layout` does, and promises its clause `exact` alone. The other clauses follow from that one.
#[tactic(auto, unfolding(crate::specs::Layouts::layout_of_string))]
fn read_bytes<E: Copy>(string: &[u8], fault: E) -> Result<Layout, E>
    ensures { result ≡ layout_of_string fault string.now }
{
    match string {
        [k, members @ ..] => checked_layout(*k, members, fault),
        [] => Err(fault),
    }
}
