//! Letters that go to the log as they have come.
ghost use Rattle.std.specs.Prelude.{◌≡◌, true, false, IfOk, IfSome, OnOk};
ghost use Rattle.std.specs.List.{AllByRecursion};
ghost use Rattle.local_object.specs.Changing.{IsUnchangedBy, is_changed_by};
ghost use Rattle.mail.specs.Message.{is_request};
ghost use Rattle.node_effects.specs.Errors.{WritesOrFails};
ghost use Rattle.node_effects.specs.Work.{IsGrown, one_entry};
ghost use Rattle.node_keeper.specs.Acts.{logged_growth};
ghost use Rattle.node_keeper.specs.Delivering.{arrival_record, served_records, taken_records};
ghost use Rattle.node_keeper.specs.Fitting.{IsLoggable};
ghost use Rattle.node_keeper.specs.Logging.{log_entry_of};
ghost use Rattle.node_keeper.specs.Objects.{objects_of};
ghost use Rattle.node_keeper.specs.Sendings.{IsFrameOf};

use super::Keeper;
use crate::post::{log_message, message_of};
use frames::Frame;
use letter::NamedLetter;
use node_effects::{NodeError, Work};

impl Keeper {
    // A request goes to the log, if it may change a bank. Returns the same letter.
    pub(crate) fn log_serve(
        &self,
        it: NamedLetter,
        came: Option<Frame>,
        work: &mut Work,
    ) -> Result<NamedLetter, NodeError>
        requires came { IfSome came (IsFrameOf self.now.digest it) }
        requires asks { is_request it.letter.message.body ≡ true }
        ensures same { IfOk result (λ same. same ≡ it) }
        ensures logged { OnOk result
            (IsGrown work.old work.new (logged_growth self.now.digest (served_records self.now it))) }
        ensures unchanged { OnOk result (is_changed_by (objects_of self.now.objects it.name) it.letter ≡ false
            → IsUnchangedBy (objects_of self.now.objects it.name) it.letter) }

        ensures writes { WritesOrFails
            (AllByRecursion (IsLoggable self.now.digest) (served_records self.now it)) result }
    {
        if !self.objects.is_changed_by(&it.name, &it.letter)? {
            return Ok(it);
        }
        self.log_arrival(it, came, work)
    }

    // A reply goes to the log, if its call is an open move. Returns the same letter.
    pub(crate) fn log_take(
        &self,
        it: NamedLetter,
        came: Option<Frame>,
        work: &mut Work,
    ) -> Result<NamedLetter, NodeError>
        requires came { IfSome came (IsFrameOf self.now.digest it) }
        requires answers { is_request it.letter.message.body ≡ false }
        ensures same { IfOk result (λ same. same ≡ it) }
        ensures logged { OnOk result
            (IsGrown work.old work.new (logged_growth self.now.digest (taken_records self.now it))) }
        ensures writes { WritesOrFails
            (AllByRecursion (IsLoggable self.now.digest) (taken_records self.now it)) result }
    {
        if !self.objects.is_open_move(&it.name, it.letter.message.call) {
            return Ok(it);
        }
        self.log_arrival(it, came, work)
    }

    // A letter goes to the log, as a request that is served, or as a reply that is taken. Returns the same letter.
    fn log_arrival(
        &self,
        it: NamedLetter,
        came: Option<Frame>,
        work: &mut Work,
    ) -> Result<NamedLetter, NodeError>
        requires { IfSome came (IsFrameOf self.now.digest it) }
        ensures same { IfOk result (λ same. same ≡ it) }
        ensures logged { OnOk result
            (IsGrown work.old work.new (one_entry (log_entry_of self.now.digest (arrival_record it)))) }
        ensures writes { WritesOrFails (IsLoggable self.now.digest (arrival_record it)) result }
    {
        let message = message_of(self.digest, it);
        log_message(self.alloc, &message, came, work)?;
        Ok(message.named)
    }
}
