//! Calls that begin, and calls that are given up.
ghost use Rattle.std.specs.Prelude.{◌≡◌, ◌≢◌, ◌<◌, ◌^◌, ◌∷◌, [], ℕ, suc, IfErr, IfOk, OnOk, Some};
ghost use Rattle.tag.specs.declared.refusal.Refusal.TheVariants.{NoMemory};
ghost use Rattle.deeds.specs.CallId.{with_next_epoch};
ghost use Rattle.local_object.specs.Doing.{give_up_events, gives_up};
ghost use Rattle.node_keeper.specs.Doing.{IsOutcomeAt};
ghost use Rattle.node_keeper.specs.Objects.{objects_of};
ghost use Rattle.node_effects.specs.Errors.{WritesOrFails};
ghost use Rattle.node_effects.specs.Work.{IsGrown, one_entry};
ghost use Rattle.node_effects.specs.declared.error.NodeError.TheVariants.{NoMemory as NoMoreMemory};
ghost use Rattle.node_effects.specs.declared.work.Work.{Work as Todo};
ghost use Rattle.node_keeper.specs.Acts.{Acts, GivesId};
ghost use Rattle.node_keeper.specs.Beginning.{BeginsCall, IsNotBegun};
ghost use Rattle.node_keeper.specs.NextIds.{IsNoEpoch, IsNoId, next_id_of};
ghost use Rattle.node_keeper.specs.Beginning.{moving_call, opened_growth, reading_call, writing_call};
ghost use Rattle.node_effects.specs.declared.notice.Notice.TheVariants as notice;
ghost use Rattle.node_keeper.specs.Delivering.{KeepsRest};
ghost use Rattle.node_keeper.specs.Fitting.{IsLoggable};
ghost use Rattle.layout.specs.Layout.{IsLawful};
ghost use Rattle.recoveries.specs.Records.{LogRecord};
ghost use Rattle.node_keeper.specs.Logging.{IsReadBack, start_entry};

use super::Keeper;
use crate::delivered::Begun;
use crate::entries::log_record;
use crate::ids::OwnIds;
use bytes::Bytes;
use layout::Layout;
use node_effects::{NodeError, Notice, Work};
use node_strings::Record;
use tag::{CallId, Refusal};

impl Keeper {
    /// Begins an epoch of the calls' ids, and logs it.
    ///
    /// Fails with `NoMoreIds` if all epochs have begun, or with `NoMemory`.
    pub fn begin_epoch(&mut self, work: &mut Work) -> Result<(), NodeError>
        ensures acts { OnOk result ((asker : ℕ) → Acts asker [] self.old work.old self.new work.new) }
        ensures more { OnOk result (suc self.old.ids.epoch < 2 ^ 24) }
        ensures ids { OnOk result (self.new.ids ≡ with_next_epoch self.old.ids) }
        ensures objects { OnOk result (self.new.objects ≡ self.old.objects) }
        ensures file { OnOk result (self.new.file ≡ self.old.file) }
        ensures entry { OnOk result (IsGrown work.old work.new (one_entry start_entry)) }
        ensures refused { IfErr result (IsNoEpoch self.old.ids) }
    {
        begin_epoch(&mut self.ids, work)
    }

    /// Begins a read of the object of this name, and sends its first requests, which ask for the next position. If all
    /// nodes are to be asked, the first of them also goes to each other node of the cluster file. So each of these
    /// nodes hears of the object's start.
    ///
    /// Fails with `NoMoreIds` if there is no id for the call, with `Unwritable` if a request is no message, or with
    /// `NoMemory`.
    pub fn begin_read(
        &mut self,
        name: &Bytes,
        asks_all: bool,
        work: &mut Work,
    ) -> Result<Begun, NodeError>
        ensures acts { OnOk result ((asker : ℕ) → Acts asker [] self.old work.old self.new work.new) }
        ensures begins { IfOk result
            (BeginsCall (reading_call name.now asks_all) self.old work.old self.new work.new) }

        ensures refused { IfErr result (IsNotBegun (reading_call name.now asks_all) self.old) }
    {
        let id = next_id(&mut self.ids, work)?;
        match self.objects.begin_read(name, id) {
            Ok(letters) => {
                work.note(Notice::Reads {
                    name: name.clone()?,
                    id,
                })?;
                self.post_requests(name, letters, asks_all, work)?;
                Ok(Begun::Open(id))
            }
            Err(refusal) => refused(refusal),
        }
    }

    /// Begins a write of a value to the object of this name, and sends its first requests.
    ///
    /// Fails with `NoMoreIds` if there is no id for the call, with `Unwritable` if a request is no message, or with
    /// `NoMemory`.
    pub fn begin_write(
        &mut self,
        name: &Bytes,
        value: Bytes,
        work: &mut Work,
    ) -> Result<Begun, NodeError>
        ensures acts { OnOk result ((asker : ℕ) → Acts asker [] self.old work.old self.new work.new) }
        ensures begins { IfOk result (BeginsCall (writing_call name.now value) self.old work.old self.new work.new) }
        ensures refused { IfErr result (IsNotBegun (writing_call name.now value) self.old) }
    {
        let id = next_id(&mut self.ids, work)?;
        let written = value.clone()?;
        match self.objects.begin_write(name, id, written) {
            Ok(letters) => {
                let name_seen = name.clone()?;
                work.note(Notice::Writes {
                    name: name_seen,
                    id,
                    value,
                })?;
                self.post(name, letters, work)?;
                Ok(Begun::Open(id))
            }
            Err(refusal) => refused(refusal),
        }
    }

    /// Begins a move of the object of this name to this layout, logs it, and sends its first requests. Only the node
    /// that moves objects may call this.
    ///
    /// Fails with `NoMoreIds` if there is no id for the call, with `Unwritable` if a request is no message or the entry
    /// for the log is too long, or with `NoMemory`.
    pub fn begin_move(
        &mut self,
        name: &Bytes,
        layout: Layout,
        work: &mut Work,
    ) -> Result<Begun, NodeError>
        requires { self.old.ids.node ≡ self.old.file.fixed.mover }
        ensures acts { OnOk result ((asker : ℕ) → Acts asker [] self.old work.old self.new work.new) }
        ensures begins { IfOk result (BeginsCall (moving_call name.now layout) self.old work.old self.new work.new) }
        ensures refused { IfErr result (IsNotBegun (moving_call name.now layout) self.old) }
    {
        let id = next_id(&mut self.ids, work)?;
        let to = layout.clone()?;
        match self.objects.begin_move(name, id, to) {
            Ok(letters) => {
                self.log_move(name, id, layout, work)?;
                self.post(name, letters, work)?;
                Ok(Begun::Open(id))
            }
            Err(refusal) => refused(refusal),
        }
    }

    // A move that began goes to the log, and clients see it.
    fn log_move(
        &self,
        name: &Bytes,
        id: CallId,
        layout: Layout,
        work: &mut Work,
    ) -> Result<(), NodeError>
        ensures logged { OnOk result (IsGrown work.old work.new (opened_growth self.now.digest
            (LogRecord.Moves name.now id layout ∷ []) (notice.Moves name.now id layout))) }
        ensures read { OnOk result
            (IsLawful layout → IsReadBack self.now.digest (LogRecord.Moves name.now id layout)) }

        ensures writes { WritesOrFails (IsLoggable self.now.digest (LogRecord.Moves name.now id layout)) result }
    {
        log_record(work, move_record(name, id, &layout)?)?;
        let name = name.clone()?;
        work.note(Notice::Moves { name, id, layout })
    }

    /// Ends the read or the write with this id at the object of this name without an answer, if one is open there.
    /// Returns whether it ended one. A move goes on.
    pub fn give_up(&mut self, name: &Bytes, id: CallId) -> bool
        ensures acts { (asker : ℕ) (work : Todo) → Acts asker [] self.old work self.new work }
        ensures given_up { result ≡ gives_up (objects_of self.old.objects name.now) id }
        ensures done { IsOutcomeAt self.old.objects name.now
            (give_up_events (objects_of self.old.objects name.now) id) self.new.objects [] }
        ensures rest { KeepsRest self.old self.new }
    {
        self.objects.give_up(name, id)
    }
}

// Makes the record of a move that began.
fn move_record(name: &Bytes, id: CallId, layout: &Layout) -> Result<Record, NodeError>
    ensures made { IfOk result (λ it. it ≡ Record.Move id name.now layout.now) }
    ensures refused { IfErr result (λ e. e ≡ NoMoreMemory) }
{
    let name = name.clone()?;
    let layout = layout.clone()?;
    Ok(Record::Move { id, name, layout })
}

// An object refused a call.
fn refused(refusal: Refusal) -> Result<Begun, NodeError>
    ensures memory { OnOk result (refusal ≢ NoMemory) }
    ensures begun { IfOk result (λ begun. begun ≡ Begun.Refused refusal) }
    ensures failed { IfErr result (λ e. e ≡ NoMoreMemory) }
{
    match refusal {
        Refusal::NoMemory => Err(NodeError::NoMemory),
        refusal => Ok(Begun::Refused(refusal)),
    }
}

// The id of a call that begins. Where the epoch has no more, the next epoch begins, and the log gets that.
fn next_id(ids: &mut OwnIds, work: &mut Work) -> Result<CallId, NodeError>
    ensures gives { IfOk result (λ id. GivesId ids.old id ids.new work.old work.new) }
    ensures next { IfOk result (λ id. next_id_of ids.old ≡ Some id) }
    ensures refused { IfErr result (IsNoId ids.old) }
{
    if let Some(id) = ids.next_id() {
        return Ok(id);
    }
    begin_epoch(ids, work)?;
    match ids.next_id() {
        Some(id) => Ok(id),
        None => Err(NodeError::NoMoreIds),
    }
}

// The next epoch begins, and the log gets that.
fn begin_epoch(ids: &mut OwnIds, work: &mut Work) -> Result<(), NodeError>
    ensures more { OnOk result (suc ids.old.epoch < 2 ^ 24) }
    ensures begun { OnOk result (ids.new ≡ with_next_epoch ids.old) }
    ensures entry { OnOk result (IsGrown work.old work.new (one_entry start_entry)) }
    ensures refused { IfErr result (IsNoEpoch ids.old) }
{
    if !ids.begin_epoch() {
        return Err(NodeError::NoMoreIds);
    }
    work.log(&Record::Start)
}
