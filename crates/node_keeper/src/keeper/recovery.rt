//! Carrying out again what the log records. Nothing is sent, and clients see nothing.
ghost use Rattle.std.specs.Prelude.{◌≡◌, ◌⊎◌, ◌∷◌, ◌^◌, [], true, false, nat_lt, suc};
ghost use Rattle.std.specs.Prelude.{IfErr, IfOk, OnOk, option_to_list};
ghost use Rattle.local_object.specs.Doing.{close_events, move_refusal, serve_events};
ghost use Rattle.local_object.specs.Events.{LocalEvent};
ghost use Rattle.node_keeper.specs.Objects.{AreSame, objects_of};
ghost use Rattle.recoveries.specs.Records.{IsNamedHearing, IsNamedOutcome, IsStarted, IsNamedReplyOutcome};
ghost use Rattle.node_effects.specs.Errors.{IsByRefusal};
ghost use Rattle.node_effects.specs.declared.error.NodeError.TheVariants.{NoMemory};
ghost use Rattle.node_keeper.specs.Delivering.{KeepsRest, first_id};
ghost use Rattle.node_keeper.specs.Keeping.{kept_of};

use super::Keeper;
use bytes::Bytes;
use layout::Layout;
use letter::NamedLetter;
use local_object::Ended;
use node_effects::NodeError;
use tag::CallId;

impl Keeper {
    /// Begins an epoch again. Returns false and changes nothing if all epochs have begun.
    pub fn start_again(&mut self) -> bool
        ensures more { result ≡ nat_lt (suc self.old.ids.epoch) (2 ^ 24) }
        ensures started { result ≡ true → IsStarted (kept_of self.old) (kept_of self.new) }
        ensures ended { result ≡ false → self.new ≡ self.old }
        ensures file { self.new.file ≡ self.old.file }
        ensures digest { self.new.digest ≡ self.old.digest }
    {
        self.ids.begin_epoch()
    }

    /// Serves a request again. Fails with `NoMemory`.
    pub fn serve_again(&mut self, it: NamedLetter) -> Result<(), NodeError>
        ensures served { OnOk result (IsNamedOutcome (kept_of self.old) it.name
            (serve_events (objects_of self.old.objects it.name) it.letter) (kept_of self.new)) }

        ensures rest { OnOk result (KeepsRest self.old self.new) }
        ensures refused { IfErr result (λ e. e ≡ NoMemory) }
    {
        let NamedLetter { name, letter } = it;
        let _reply = self.objects.serve(&name, letter)?;
        Ok(())
    }

    /// Takes a reply again. Returns the id of the call that this answers, if it answers one. Fails with `NoMemory`.
    pub fn take_again(&mut self, it: NamedLetter) -> Result<Option<CallId>, NodeError>
        ensures taken { IfOk result (λ id.
            (taken : IsNamedReplyOutcome (kept_of self.old) it.name it.letter (kept_of self.new))
            × (id ≡ first_id taken.ended)) }

        ensures rest { OnOk result (KeepsRest self.old self.new) }
        ensures refused { IfErr result (λ e. e ≡ NoMemory) }
    {
        let NamedLetter { name, letter } = it;
        let progress = self.objects.take(&name, letter)?;
        Ok(id_of(progress.ended))
    }

    /// Begins a move again. Fails with `Refused` if the object refuses the move, or with `NoMemory`.
    pub fn move_again(&mut self, name: &Bytes, id: CallId, layout: Layout) -> Result<(), NodeError>
        ensures begun { OnOk result (IsNamedOutcome (kept_of self.old) name.now (LocalEvent.BeginMove id layout ∷ [])
            (kept_of self.new)) }

        ensures rest { KeepsRest self.old self.new }
        ensures cause { IsByRefusal (move_refusal (objects_of self.old.objects name.now) id) result }
        ensures unchanged { IfErr result (λ e. (e ≡ NoMemory) ⊎ AreSame self.old.objects self.new.objects) }
    {
        let _letters = self.objects.begin_move(name, id, layout)?;
        Ok(())
    }

    /// Hears of a position again. Fails with `NoMemory`.
    pub fn hear_again(
        &mut self,
        name: &Bytes,
        position: u32,
        layout: Layout,
    ) -> Result<(), NodeError>
        ensures heard { OnOk result
            (IsNamedHearing (kept_of self.old) name.now position layout (kept_of self.new)) }

        ensures rest { OnOk result (KeepsRest self.old self.new) }
        ensures refused { IfErr result (λ e. e ≡ NoMemory) }
    {
        self.objects.hear(name, position, layout)?;
        Ok(())
    }

    /// Closes the node's bank of a position again. Nothing changes if the bank is not open, or if its pointer is not
    /// final.
    pub fn close_again(&mut self, name: &Bytes, position: u32)
        ensures closed { IsNamedOutcome (kept_of self.old) name.now
            (close_events (objects_of self.old.objects name.now) position) (kept_of self.new) }

        ensures rest { KeepsRest self.old self.new }
    {
        let _closed = self.objects.close(name, position);
    }
}

// The id of a call that was answered, if one was.
fn id_of(ended: Option<Ended>) -> Option<CallId>
    ensures { result ≡ first_id (option_to_list ended) }
{
    match ended {
        Some(ended) => Some(ended.id),
        None => None,
    }
}
