ghost use Rattle.std.specs.Prelude.{◌≡◌};
ghost use Rattle.record.specs.PhaseOrder.{later_status, shown_status, shown_tag, greatest_status, greatest_tag};

use bank::{Answer, Status};
use mail::Taken;
use tag::Tag;

/// Returns the greatest status of a pointer that the replies show, or unset if they show none.
pub fn greatest_status(replies: &[Taken]) -> Status
    ensures { result ≡ greatest_status replies.now }
{
    let mut greatest = Status::Unset;
    for taken in replies {
        greatest = later_status(greatest, shown_status(&taken.reply.answer));
    }
    greatest
}

/// Returns the greatest tag that the replies show, or the opening tag if they show none.
pub fn greatest_tag(replies: &[Taken]) -> Tag
    ensures { result ≡ greatest_tag replies.now }
{
    let mut greatest = Tag::OPENING;
    for taken in replies {
        greatest = greatest.later(shown_tag(&taken.reply.answer));
    }
    greatest
}

// The greater of two statuses.
fn later_status(a: Status, b: Status) -> Status
    ensures { result ≡ later_status a b }
{
    match (a, b) {
        (Status::Final, _) | (_, Status::Final) => Status::Final,
        (Status::Pending, _) | (_, Status::Pending) => Status::Pending,
        (Status::Unset, Status::Unset) => Status::Unset,
    }
}

// The status that an answer shows, or unset where it shows none.
fn shown_status(answer: &Answer) -> Status
    ensures { result ≡ shown_status answer.now }
{
    match answer {
        Answer::Pointer(status) => *status,
        _ => Status::Unset,
    }
}

// The tag that an answer shows, or the opening tag where it shows none.
fn shown_tag(answer: &Answer) -> Tag
    ensures { result ≡ shown_tag answer.now }
{
    match answer {
        Answer::Greatest(tag) => *tag,
        _ => Tag::OPENING,
    }
}
