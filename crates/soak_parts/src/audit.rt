//! The accounts of a cluster, added up again from its banks and mail.
ghost use Rattle.std.specs.Prelude.{◌≡◌, ◌+◌, ◌<◌, ◌≤◌, ◌↔◌, ℕ, length, IfOk, IsTrue};
ghost use Rattle.std.specs.Io.Iter.{u64_saturate};
ghost use Rattle.cluster.specs.Accounts as all;
ghost use Rattle.soak_parts.specs.Audit.{AreAccounted, AreAdded, bank_bytes_at, missing_cause};
ghost use Rattle.tag.specs.Refusal.{IsExactlyByCause};
ghost use Rattle.record.specs.Accounts.{member_sum, mailed, stored};
ghost use Rattle.tag.specs.declared.limits.TheConstants.{MOST_MEMBERS};

use cluster::Cluster;
use register::Register;
use tag::{MOST_MEMBERS, MOST_POSITIONS, Refusal};

/// Returns whether the accounts of a cluster equal the sums over the banks and the mail of its objects `a` and `b`,
/// which are added up here. Is refused with `NoObject` if one of the objects is not there.
pub fn are_accounted(cluster: &Cluster) -> Result<bool, Refusal>
    ensures accounts { IfOk result (λ b. IsTrue b ↔ AreAccounted cluster.now) }
    ensures cause { IsExactlyByCause (missing_cause cluster.now) result }
{
    let one = cluster.register("a")?;
    let other = cluster.register("b")?;
    Ok(are_added(cluster, one, other))
}

fn are_added(cluster: &Cluster, one: &Register, other: &Register) -> bool
    ensures { IsTrue result ↔ AreAdded cluster.now one.now.object other.now.object }
{
    are_stored(cluster, one, other)
        && are_stored_together(cluster, one, other)
        && are_mailed(cluster, one, other)
}

// Whether the account of all servers equals what they store of both objects, added up again.
fn are_stored_together(cluster: &Cluster, one: &Register, other: &Register) -> bool
    ensures { IsTrue result ↔ (all.stored_all cluster.now
        ≡ member_sum (λ s. stored one.now.object s + stored other.now.object s) 0 (length cluster.now.servers)) }
{
    all_anew(cluster.servers(), one, other) == cluster.stored_all()
}

// Whether the account of the mail equals what waits for both objects, added up again.
fn are_mailed(cluster: &Cluster, one: &Register, other: &Register) -> bool
    ensures { IsTrue result ↔ (all.waiting_bytes cluster.now ≡ mailed one.now.object + mailed other.now.object) }
{
    mailed_anew(one).saturating_add(mailed_anew(other)) == cluster.mailed()
}

// Whether the account of each server equals what it stores of both objects, added up again.
fn are_stored(cluster: &Cluster, one: &Register, other: &Register) -> bool
    ensures { IsTrue result ↔ ((server : ℕ) → server < length cluster.now.servers
        → all.server_bytes cluster.now server ≡ stored one.now.object server + stored other.now.object server) }
{
    for server in 0..cluster.servers() {
        if !is_stored(cluster, one, other, server) {
            return false;
        }
    }
    true
}

fn is_stored(cluster: &Cluster, one: &Register, other: &Register, server: u8) -> bool
    requires { server < length cluster.now.servers }
    ensures { IsTrue result ↔
        (all.server_bytes cluster.now server ≡ stored one.now.object server + stored other.now.object server) }
{
    let _most = cluster.stored_all();
    both_anew(one, other, server) == cluster.stored(server)
}

// How many bytes all servers store of two objects, added up again; the greatest number where the sum is above it.
fn all_anew(servers: u8, one: &Register, other: &Register) -> u64
    ensures { result ≡ u64_saturate (member_sum (λ s. stored one.now.object s + stored other.now.object s) 0 servers) }
{
    let mut total: u64 = 0;
    for server in 0..servers {
        total = total.saturating_add(both_anew(one, other, server));
    }
    total
}

// How many bytes a server stores of two objects, added up again; the greatest number where the sum is above it.
fn both_anew(one: &Register, other: &Register, server: u8) -> u64
    ensures { result ≡ u64_saturate (stored one.now.object server + stored other.now.object server) }
{
    stored_anew(one, server).saturating_add(stored_anew(other, server))
}

// How many bytes a server stores of an object, added up again; the greatest number where the sum is above it.
fn stored_anew(register: &Register, server: u8) -> u64
    ensures { result ≡ u64_saturate (stored register.now.object server) }
{
    register.soundness();
    let mut total: u64 = 0;
    for position in 0..MOST_POSITIONS as u32 {
        total = total.saturating_add(position_anew(register, server, position));
    }
    total
}

// How many bytes it stores at one position of the object; the greatest number where the sum is above it.
fn position_anew(register: &Register, server: u8, position: u32) -> u64
    ensures { result ≡ u64_saturate (member_sum (bank_bytes_at register.now.object server position) 0 MOST_MEMBERS) }
{
    let mut total: u64 = 0;
    for member in 0..MOST_MEMBERS as u8 {
        total = total.saturating_add(member_anew(register, server, position, member));
    }
    total
}

// How many bytes it stores for one member of the position.
fn member_anew(register: &Register, server: u8, position: u32, member: u8) -> u64
    ensures { result ≡ u64_saturate (bank_bytes_at register.now.object server position member) }
{
    if register.server(position, member) != Some(server) {
        return 0;
    }
    match register.bank_view(position, member) {
        Some(bank) => bank.bytes_anew(),
        None => 0,
    }
}

// How many bytes wait in the messages of an object, added up again; the greatest number where the sum is above it.
fn mailed_anew(register: &Register) -> u64
    ensures { result ≡ u64_saturate (mailed register.now.object) }
{
    let mail = register.mail_view();
    let mut total: u64 = 0;
    for place in 0..mail.len() {
        total = total.saturating_add(mail.at(place).bytes());
    }
    total
}
