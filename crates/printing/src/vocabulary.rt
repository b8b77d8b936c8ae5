//! The words for the parts of calls, messages and banks.
ghost use Rattle.std.specs.Prelude.{◌≡◌};
ghost use Rattle.printing.specs.Vocabulary.{word_of_kind, word_of_label, word_of_operation};
ghost use Rattle.printing.specs.Vocabulary.{word_of_status, word_of_took, word_of_want};

use bank::{Kind, Label, Status};
use mail::Took;
use record::{Operation, Want};

/// Returns the word for what a phase asks.
pub fn kind_word(kind: Kind) -> &'static str
    ensures { result.now ≡ word_of_kind kind }
{
    match kind {
        Kind::Next => "next",
        Kind::Spread(_) => "spread",
        Kind::Query => "query",
        Kind::PreWrite(_) => "pre",
        Kind::Finalize(_) => "fin",
        Kind::Fetch(_) => "fetch",
    }
}

/// Returns the word for what a call does.
pub fn operation_word(operation: Operation) -> &'static str
    ensures { result.now ≡ word_of_operation operation }
{
    match operation {
        Operation::Read => "read",
        Operation::Write => "write",
        Operation::Move => "move",
    }
}

/// Returns the word for what a call wants next.
pub fn want_word(want: Want) -> &'static str
    ensures { result.now ≡ word_of_want want }
{
    match want {
        Want::Replies => "replies",
        Want::Advance => "advance",
        Want::Supply { k: _, n: _ } => "supply",
        Want::Settle { k: _, len: _ } => "settle",
        Want::Again => "again",
        Want::Answer => "answer",
        Want::Done => "done",
    }
}

/// Returns the word for what a bank knows about the next position.
pub fn status_word(status: Status) -> &'static str
    ensures { result.now ≡ word_of_status status }
{
    match status {
        Status::Unset => "none",
        Status::Pending => "pending",
        Status::Final => "final",
    }
}

/// Returns the word for the label that a bank gives a tag.
pub fn label_word(label: Label) -> &'static str
    ensures { result.now ≡ word_of_label label }
{
    match label {
        Label::PreWritten { since: _ } => "pre",
        Label::Finalized { since: _ } => "fin",
    }
}

/// Returns the word for what a call did with a reply.
pub fn took_word(took: Took) -> &'static str
    ensures { result.now ≡ word_of_took took }
{
    match took {
        Took::Recorded => "recorded",
        Took::Complete => "complete",
        Took::Stale => "stale",
        Took::Doubled => "doubled",
    }
}
