//! The messages of an object that can be handled, and which of them is chosen.
ghost use Rattle.std.specs.Prelude.{◌≡◌, [], length, slice_get, MatchOption};
ghost use Rattle.driver.specs.Choices.{Picks, choices_from, passes};

use crate::Chooser;
use cluster::Cluster;
use mail::Message;
use register::Register;
use tag::CallId;

/// The messages of an object from which one is chosen.
#[derive(Clone, Copy, Debug)]
pub enum Filter {
    /// All that wait for the object.
    All,
    /// Those of the call of this number.
    Call(CallId),
}

/// Returns the place of the chosen message. The choice is made among the messages that pass `filter` and that can be
/// handled, from place `from` of the mail on. Of these, in mail order, it is the message at the number that the chooser
/// returns, modulo their count. A message can be handled if it is a reply, or a request to a server that is up. Returns
/// none, and makes no choice, if there is no such message.
pub fn choose<C: Chooser>(
    cluster: &Cluster,
    register: &Register,
    filter: Filter,
    from: usize,
    chooser: &mut C,
) -> Option<usize>
    ensures { MatchOption result
        ((choices_from cluster.now register.now.object filter from ≡ []) × (chooser.new ≡ chooser.old))
        (λ place. Picks C.chooses (choices_from cluster.now register.now.object filter from) chooser.old chooser.new
        place) }
{
    let (count, first) = count_choices(cluster, register, filter, from);
    if count == 0 {
        return None;
    }
    let skipped = chooser.choose(count) % count;
    if skipped == 0 {
        return first;
    }
    choice_at(cluster, register, filter, from, skipped)
}

/// Returns the place of one of the messages that pass `filter` and that can be handled, from place `from` of the mail
/// on: in mail order, the message at index `skipped`, from 0, or none if there are not so many.
pub fn choice_at(
    cluster: &Cluster,
    register: &Register,
    filter: Filter,
    from: usize,
    skipped: usize,
) -> Option<usize>
    ensures { result ≡ slice_get (choices_from cluster.now register.now.object filter from) skipped }
{
    let mail = register.mail_view();
    let mut left = skipped;
    for place in from..mail.len() {
        if passes(cluster, register, filter, mail.at(place)) {
            if left == 0 {
                return Some(place);
            }
            left -= 1;
        }
    }
    None
}

// How many messages can be handled, from a place of the mail on, and the place of the first of them.
fn count_choices(
    cluster: &Cluster,
    register: &Register,
    filter: Filter,
    from: usize,
) -> (usize, Option<usize>)
    ensures count { result.0 ≡ length (choices_from cluster.now register.now.object filter from) }
    ensures first { result.1 ≡ slice_get (choices_from cluster.now register.now.object filter from) 0 }
{
    let mail = register.mail_view();
    let mut count = 0;
    let mut first = None;
    for place in from..mail.len() {
        if passes(cluster, register, filter, mail.at(place)) {
            count += 1;
            first = first.or(Some(place));
        }
    }
    (count, first)
}

// Whether a message passes the filter and can be handled.
fn passes(cluster: &Cluster, register: &Register, filter: Filter, message: &Message) -> bool
    ensures { result ≡ passes cluster.now register.now.object filter message.now }
{
    match filter {
        Filter::All => cluster.handles(register, message),
        Filter::Call(call) => message.call == call && cluster.handles(register, message),
    }
}
