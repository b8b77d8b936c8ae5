//! What replies told of their members, when a node may answer a client early by it, and that such answers are safe.
//!
//! The definitions are in `specs/`. Each law is the contract of a function with an empty body.
#![tactic(auto)]

ghost use Rattle.told_replies.specs.Laws.{
  EarlyAnswersAreAtomic,
  EarlyAnswersMayBeTold,
  EarlyReadsReturnValues,
  ToldTagsAreHeld,
};

/// A law: a world that is reached follows a sound record in which each tag is held that replies told an open call to be
/// held: more than n - k members told an unset pointer, and that they finalized the tag.
pub fn told_tags_are_held()
    ensures { ToldTagsAreHeld }
{}

/// A law: a world that is reached follows a sound record in which each answer may be told that was given early in the
/// run, by what its call was told until then.
pub fn early_answers_may_be_told()
    ensures { EarlyAnswersMayBeTold }
{}

/// A law: whatever answers were given early in the run that reached a world, each by what its call was told until then,
/// the history with these answers is atomic.
pub fn early_answers_are_atomic()
    ensures { EarlyAnswersAreAtomic }
{}

/// A law: each answer to a read that was given early in the run returned the value of a tag. The value of a tag is that
/// of the write with the tag's id, and that of the opening tag is empty.
pub fn early_reads_return_values()
    ensures { EarlyReadsReturnValues }
{}
