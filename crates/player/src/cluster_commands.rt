//! The commands on layouts, objects and servers.
ghost use Rattle.std.specs.Prelude.{◌≡◌, IfOk, IfErr};
ghost use Rattle.tag.specs.declared.refusal.Refusal.TheVariants.{BadLayout};
ghost use Rattle.layout.specs.Layout.{IsLawful};
ghost use Rattle.player.specs.ClusterCommands.{AddsLayout, MakesObject, Retires, SetsServer};
ghost use Rattle.player.specs.ClusterCommands.{IsBadLayout, AreBadMembers, layout_number};

use crate::report::Report;
use arrayvec::ArrayVec;
use cluster::{Cluster, LayoutId};
use layout::Layout;
use tag::{MOST_MEMBERS, Refusal};

/// Adds a layout.
pub(crate) fn layout(cluster: &mut Cluster, k: u64, members: &[u64]) -> Report
    ensures { AddsLayout cluster.old k members.now cluster.new result }
{
    let layout = match layout_of(k, members, cluster.servers()) {
        Ok(layout) => layout,
        Err(refusal) => return Report::refused(refusal),
    };
    Report::of_layout(cluster.add_layout(layout))
}

// The layout of these numbers, over this many servers. It allocates no memory.
fn layout_of(k: u64, members: &[u64], servers: u8) -> Result<Layout, Refusal>
    ensures made { IfOk result (λ l. l ≡ record { k = k; members = members.now }) }
    ensures lawful { IfOk result IsLawful }
    ensures bad { IfErr result (λ r. (r ≡ BadLayout) × IsBadLayout (record { k = k; members = members.now }) servers) }
{
    let members = members_of(members, servers)?;
    if k > members.len() as u64 {
        return Err(Refusal::BadLayout);
    }
    Layout::new(k as u8, &members)
}

fn members_of(members: &[u64], servers: u8) -> Result<ArrayVec<u8, MOST_MEMBERS>, Refusal>
    ensures made { IfOk result (λ ms. ms.items ≡ members.now) }
    ensures bad { IfErr result (λ r. (r ≡ BadLayout) × AreBadMembers members.now servers) }
{
    if members.len() > MOST_MEMBERS {
        return Err(Refusal::BadLayout);
    }
    let mut servers_of = ArrayVec::new();
    for member in members {
        if *member >= u64::from(servers) {
            return Err(Refusal::BadLayout);
        }
        servers_of.push(*member as u8);
    }
    Ok(servers_of)
}

/// Creates an object.
pub(crate) fn object(cluster: &mut Cluster, name: &str, layout: u64, delta: Option<u32>) -> Report
    ensures { MakesObject cluster.old name.now layout delta cluster.new result }
{
    Report::of_step(cluster.create_with(name, layout_id(layout), delta))
}

/// Retires the base of an object.
pub(crate) fn retire(cluster: &mut Cluster, name: &str, position: u64) -> Report
    ensures { Retires cluster.old name.entry.now position cluster.new result }
{
    Report::of_retire(cluster.retire(name, position))
}

/// Returns a number as that of a layout. One that no layout can have becomes the number of a layout that is not there.
pub(crate) fn layout_id(number: u64) -> LayoutId
    ensures { result ≡ layout_number number }
{
    match u32::try_from(number) {
        Ok(id) => id,
        Err(_) => u32::MAX,
    }
}

/// Takes a server up or down.
pub(crate) fn server(cluster: &mut Cluster, server: u64, up: bool) -> Report
    ensures { SetsServer cluster.old server up cluster.new result }
{
    if server >= u64::from(cluster.servers()) {
        return Report::refused(Refusal::BadLayout);
    }
    Report::of_step(cluster.set_server(server as u8, up))
}
