//! The cluster with which a soak begins.
ghost use Rattle.std.specs.Prelude.{◌≡◌, None, IfErr, IfOk, OnOk};
ghost use Rattle.tag.specs.declared.refusal.Refusal.TheVariants.{NoMemory};
ghost use Rattle.cluster.specs.Causes.{layout_cause};
ghost use Rattle.cluster.specs.Steps.{with_layout};
ghost use Rattle.layout.specs.Layout.{IsLawful};
ghost use Rattle.soak_parts.specs.Setting.{five_servers, setting, with_layouts};

use cluster::Cluster;
use layout::Layout;
use std::alloc::Global;
use tag::Refusal;

const SERVERS: u8 = 5;

/// Makes a cluster of five servers, all up, with three layouts and two objects. The layouts have 4, 5 and 3 of the
/// servers, with a k of 2, 3 and 1. The objects `a` and `b` have the first layout. `NoMemory` is the only refusal.
pub fn make_setting(alloc: Global) -> Result<Cluster, Refusal>
    ensures cluster { IfOk result (λ cluster. cluster ≡ setting) }
    ensures refused { IfErr result (λ r. r ≡ NoMemory) }
{
    let mut cluster = Cluster::new(alloc, SERVERS);
    fill(&mut cluster)?;
    Ok(cluster)
}

// Adds the layouts and the objects of a soak.
fn fill(cluster: &mut Cluster) -> Result<(), Refusal>
    requires { cluster.old ≡ five_servers }
    ensures filled { OnOk result (cluster.new ≡ setting) }
    ensures refused { IfErr result (λ r. r ≡ NoMemory) }
{
    add_layouts(cluster)?;
    cluster.create("a", 0)?;
    cluster.create("b", 0)
}

// Adds the three layouts of a soak.
fn add_layouts(cluster: &mut Cluster) -> Result<(), Refusal>
    requires { cluster.old ≡ five_servers }
    ensures layouts { OnOk result (cluster.new ≡ with_layouts) }
    ensures refused { IfErr result (λ r. r ≡ NoMemory) }
{
    add(cluster, 2, &[0, 1, 2, 3])?;
    add(cluster, 3, &[0, 1, 2, 3, 4])?;
    add(cluster, 1, &[2, 3, 4])
}

// Adds a layout, which the cluster has room for.
fn add(cluster: &mut Cluster, k: u8, members: &[u8]) -> Result<(), Refusal>
    requires lawful { IsLawful (record { k = k; members = members.now }) }
    requires room { layout_cause cluster.old (record { k = k; members = members.now }) ≡ None }
    ensures added { OnOk result (cluster.new ≡ with_layout cluster.old (record { k = k; members = members.now })) }
    ensures refused { IfErr result (λ r. r ≡ NoMemory) }
{
    cluster.add_layout(Layout::new(k, members)?)?;
    Ok(())
}
