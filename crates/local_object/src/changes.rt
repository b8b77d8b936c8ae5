//! Which requests may change what is kept of a bank.

ghost use Rattle.std.specs.Prelude.{◌≡◌, ℕ, not, Option, option_copied};
ghost use Rattle.bank.specs.Floor.{is_forgotten};
ghost use Rattle.bank.specs.Knowledge.{status_le};
ghost use Rattle.bank.specs.Pointer.{status_of};
ghost use Rattle.bank.specs.Serve.{greatest_final};
ghost use Rattle.local_object.specs.ChangedBanks.{changes_bank, changes_kept, whole_or_opened};
ghost use Rattle.local_object.specs.Changing.{changes_in_body};
ghost use Rattle.local_object.specs.Local.{bank_or_opened};

use crate::kept_bank::KeptBank;
use bank::{Answer, Bank, Request, Status};
use mail::Body;
use tag::Tag;

/// Returns whether a message with this body is a request that may change a bank. A bank that is not there counts as a
/// newly opened one.
pub(crate) fn changes(bank: Option<&KeptBank>, body: &Body) -> bool
    ensures { (member : ℕ) (delta : Option ℕ)
        → result ≡ changes_in_body (bank_or_opened (option_copied bank.entry) member delta) body.now }
{
    match body {
        Body::Request(request) => is_changed(bank, request),
        Body::Reply { kind: _, reply: _ } => false,
    }
}

/// Returns whether a request may change a bank. A bank that is not there counts as a newly opened one.
pub(crate) fn is_changed(bank: Option<&KeptBank>, request: &Request) -> bool
    ensures { (member : ℕ) (delta : Option ℕ)
        → result ≡ changes_kept (bank_or_opened (option_copied bank.entry) member delta) request.now }
{
    match bank {
        Some(bank) => bank.is_changed_by(request),
        None => is_whole_changed(None, request),
    }
}

/// Returns whether a request may change an open bank. A bank that is not there counts as a newly opened one.
pub(crate) fn is_whole_changed(bank: Option<&Bank>, request: &Request) -> bool
    ensures { (member : ℕ) (delta : Option ℕ)
        → result ≡ changes_bank (whole_or_opened (option_copied bank.entry) member delta) request.now }
{
    match request {
        Request::Next | Request::Query => false,
        Request::Spread(status) => rises(status_of(bank), *status),
        Request::PreWrite(tag, _) => !forgets(bank, *tag),
        Request::Finalize(tag) | Request::Fetch(tag) => {
            !(greatest_of(bank).is(*tag) || forgets(bank, *tag))
        }
    }
}

// Whether a pointer of the first status rises where it is raised to the second.
fn rises(from: Status, to: Status) -> bool
    ensures { result ≡ not (status_le to from) }
{
    match from {
        Status::Unset => match to {
            Status::Unset => false,
            Status::Pending | Status::Final => true,
        },
        Status::Pending => match to {
            Status::Unset | Status::Pending => false,
            Status::Final => true,
        },
        Status::Final => false,
    }
}

// The status of the bank's pointer.
fn status_of(bank: Option<&Bank>) -> Status
    ensures { (member : ℕ) (delta : Option ℕ)
        → result ≡ status_of (whole_or_opened (option_copied bank.entry) member delta).pointer }
{
    match bank {
        Some(bank) => bank.pointer().status(),
        None => Status::Unset,
    }
}

// Whether the bank may forget the tag.
fn forgets(bank: Option<&Bank>, tag: Tag) -> bool
    ensures { (member : ℕ) (delta : Option ℕ)
        → result ≡ is_forgotten (whole_or_opened (option_copied bank.entry) member delta) tag }
{
    match bank {
        Some(bank) => bank.is_forgotten(tag),
        None => false,
    }
}

// The greatest finalized tag of the bank.
fn greatest_of(bank: Option<&Bank>) -> Tag
    ensures { (member : ℕ) (delta : Option ℕ)
        → result ≡ greatest_final (whole_or_opened (option_copied bank.entry) member delta) }
{
    match bank {
        Some(bank) => match bank.query(0).answer {
            Answer::Greatest(tag) => tag,
            _ => Tag::OPENING,
        },
        None => Tag::OPENING,
    }
}
