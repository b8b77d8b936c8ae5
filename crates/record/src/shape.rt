//! The order of phases is defined as a table of stages and as a shape of whole calls. Both definitions agree.
ghost use Rattle.std.specs.Prelude.{◌≡◌, ◌≢◌, ℕ, List, Some};
ghost use Rattle.tag.specs.declared.tag.Tag.{Tag};
ghost use Rattle.mail.specs.Phase.{Phase};
ghost use Rattle.record.specs.PhaseOrder.{IsCourse, stage_after};
ghost use Rattle.record.specs.Grammar.{FindsTag};
ghost use Rattle.record.specs.Shape.{AnsweredAreWhole, CoursesAreBeginnings, FinishedAreWhole};
ghost use Rattle.record.specs.Journals.{stage_tag};
ghost use Rattle.record.specs.declared.call.CallKind.{CallKind as Kinds};
ghost use Rattle.record.specs.declared.call.CallKind.TheVariants.{Move};
ghost use Rattle.record.specs.declared.stage.Stage.TheVariants.{ReadBegin};

/// A law: the phases of a read or a write that has its tag are attempts that were given up, a reading of the sequence
/// of positions, the queries, and the rest.
pub fn readings_come_before_tags()
    ensures { (kind : Kinds) (number : ℕ) (phases : List Phase) (tag : Tag) → kind ≢ Move
        → IsCourse kind number ReadBegin phases
        → stage_tag (stage_after kind number ReadBegin phases) ≡ Some tag → FindsTag kind number phases tag }
{}

/// A law: the table of stages and the shape of whole calls agree for finished calls. The phases of a call are those
/// that were due, up to a stage where none is due, exactly if they are the phases of a whole read, write or move, each
/// ended before the next began.
pub fn finished_calls_are_whole()
    ensures { FinishedAreWhole }
{}

/// A law: each answered call of a legal record has the phases of a whole read, write or move.
pub fn answered_calls_are_whole()
    ensures { AnsweredAreWhole }
{}

/// A law: the table and the shape agree for calls under way. The phases of a call are those that were due exactly if
/// they are the beginning of the phases of a whole read, write or move.
pub fn courses_are_beginnings()
    ensures { CoursesAreBeginnings }
{}
