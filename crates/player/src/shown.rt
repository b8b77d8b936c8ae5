//! The commands that only show something. Each prints what it reads from the cluster at once.
ghost use Rattle.std.specs.Prelude.{◌≡◌, Some, IfOk, is_some};
ghost use Rattle.std.specs.List.{list_all};
ghost use Rattle.tag.specs.Refusal.{IsExactlyByCause};
ghost use Rattle.register.specs.Causes.{call_at, number_cause};
ghost use Rattle.register.specs.View.{view_at};
ghost use Rattle.cluster.specs.Cluster.{if_named};
ghost use Rattle.cluster.specs.Causes.{object_cause};
ghost use Rattle.player.specs.Play.{Prints};
ghost use Rattle.player.specs.Shown.{ShowsCall, ShowsMail, ShowsBank, HasNoBank};
ghost use Rattle.player.specs.Shown.{ShowsAccount, ShowsHistory, ShowsSequence, ShowsCheck, HasNoCall};

use crate::account_line::AccountLine;
use crate::player::{Stop, print, print_line, refuse};
use cluster::Cluster;
use history::{check, sequence};
use printing::{BankLine, CallLine, HistoryLines, MailLines, Outcome, SequenceLine};
use register::{CallView, Register};
use std::alloc::Global;
use std::io::Write;
use tag::{CallId, MOST_MEMBERS, MOST_POSITIONS, Refusal};

/// Prints how far a call has come.
pub(crate) fn call<W: Write>(
    cluster: &Cluster,
    name: &str,
    call: CallId,
    out: &mut W,
) -> Result<(), Stop>
    ensures { Prints (W.contents out.old) (W.contents out.new) (ShowsCall cluster.now name.now call) ⊥ result }
{
    match view_of(cluster, name, call) {
        Ok(view) => print_line(out, CallLine { call, view: &view }),
        Err(refusal) => refuse(out, refusal),
    }
}

fn view_of(cluster: &Cluster, name: &str, call: CallId) -> Result<CallView, Refusal>
    ensures view { IfOk result (λ view. if_named cluster.now name.now (λ object. view_at object call) ≡ Some view) }
    ensures cause { IsExactlyByCause (object_cause cluster.now name.now (λ object. number_cause object call)) result }
{
    cluster.register(name)?.call_view(call)
}

/// Prints the waiting messages of an object.
pub(crate) fn mail<W: Write>(cluster: &Cluster, name: &str, out: &mut W) -> Result<(), Stop>
    ensures { Prints (W.contents out.old) (W.contents out.new) (ShowsMail cluster.now name.now) ⊥ result }
{
    match cluster.register(name) {
        Ok(register) => print(out, MailLines(register.mail_view())),
        Err(refusal) => refuse(out, refusal),
    }
}

/// Prints the bank of a member at a position. Fails with `Bad` if the object is there and has no such bank.
pub(crate) fn bank<W: Write>(
    cluster: &Cluster,
    name: &str,
    position: u64,
    member: u64,
    out: &mut W,
) -> Result<(), Stop>
    ensures { Prints (W.contents out.old) (W.contents out.new) (ShowsBank cluster.now name.now position member)
        (HasNoBank cluster.now name.now position member) result }
{
    let register = match cluster.register(name) {
        Ok(register) => register,
        Err(refusal) => return refuse(out, refusal),
    };
    register.soundness();
    if position >= MOST_POSITIONS as u64 {
        return Err(Stop::Bad);
    }
    if member >= MOST_MEMBERS as u64 {
        return Err(Stop::Bad);
    }
    match register.bank_view(position as u32, member as u8) {
        Some(bank) => print_line(out, BankLine(bank)),
        None => Err(Stop::Bad),
    }
}

/// Prints the accounts.
pub(crate) fn account<W: Write>(cluster: &Cluster, out: &mut W) -> Result<(), Stop>
    ensures { Prints (W.contents out.old) (W.contents out.new) (ShowsAccount cluster.now) ⊥ result }
{
    print_line(out, AccountLine(cluster))
}

/// Prints the history of an object.
pub(crate) fn history<W: Write>(cluster: &Cluster, name: &str, out: &mut W) -> Result<(), Stop>
    ensures { Prints (W.contents out.old) (W.contents out.new) (ShowsHistory cluster.now name.now) ⊥ result }
{
    match cluster.entries(name) {
        Ok(entries) => print(out, HistoryLines(&entries)),
        Err(refusal) => refuse(out, refusal),
    }
}

/// Prints a register sequence of an object's calls.
pub(crate) fn sequence_of<W: Write>(
    alloc: Global,
    cluster: &Cluster,
    name: &str,
    out: &mut W,
) -> Result<(), Stop>
    ensures { Prints (W.contents out.old) (W.contents out.new) (ShowsSequence cluster.now name.now) ⊥ result }
{
    let register = match cluster.register(name) {
        Ok(register) => register,
        Err(refusal) => return refuse(out, refusal),
    };
    match sequence(alloc, register) {
        Ok(calls) => print_line(out, SequenceLine(&calls)),
        Err(refusal) => refuse(out, refusal),
    }
}

/// Prints whether these calls are a register sequence. Fails with `Bad` if the object is there and one of the calls is
/// not.
pub(crate) fn check_of<W: Write>(
    cluster: &Cluster,
    name: &str,
    calls: &[CallId],
    out: &mut W,
) -> Result<(), Stop>
    ensures { Prints (W.contents out.old) (W.contents out.new) (ShowsCheck cluster.now name.now calls.now)
        (HasNoCall cluster.now name.now calls.now) result }
{
    let register = match cluster.register(name) {
        Ok(register) => register,
        Err(refusal) => return refuse(out, refusal),
    };
    if !has_calls(register, calls) {
        return Err(Stop::Bad);
    }
    match register.entries() {
        Ok(entries) => print_line(out, Outcome::Checked(check(&entries, calls))),
        Err(refusal) => refuse(out, refusal),
    }
}

fn has_calls(register: &Register, calls: &[CallId]) -> bool
    ensures { result ≡ list_all (λ call. is_some (call_at register.now.object call)) calls.now }
{
    calls.iter().all(|call| register.call_view(*call).is_ok())
}
