//! Replies that are taken.
ghost use Rattle.std.specs.Prelude.{◌≡◌, ◌∷◌, [], ℕ, false, IfErr, IfOk, IfSome, OnOk, Option};
ghost use Rattle.recoveries.specs.Copies.{IsHeeded};
ghost use Rattle.mail.specs.Message.{is_request};
ghost use Rattle.local_object.specs.declared.progress.Ended.{Ended as ToldCall};
ghost use Rattle.node_effects.specs.Errors.{IsUnwritten};
ghost use Rattle.node_effects.specs.Seen.{named_of};
ghost use Rattle.node_effects.specs.Work.{IsGrown};
ghost use Rattle.node_effects.specs.declared.error.NodeError.TheVariants.{NoMemory};
ghost use Rattle.node_keeper.specs.Acts.{Acts};
ghost use Rattle.node_keeper.specs.Delivering.{CanTake, TakesReply, delivered_of, tell_growth};
ghost use Rattle.node_keeper.specs.Keeping.{kept_of};
ghost use Rattle.node_keeper.specs.Sendings.{IsFrameOf};

use super::Keeper;
use crate::delivered::Delivered;
use bytes::Bytes;
use frames::Frame;
use letter::NamedLetter;
use local_object::Ended;
use node_effects::{NodeError, Notice, Work};

impl Keeper {
    // Takes a reply, and goes on with its call. A reply to an open move goes to the log first.
    pub(crate) fn take(
        &mut self,
        it: NamedLetter,
        came: Option<Frame>,
        work: &mut Work,
    ) -> Result<Delivered, NodeError>
        requires came { IfSome came (IsFrameOf self.old.digest it) }
        requires heeded { IsHeeded (kept_of self.old) it.name it.letter }
        requires answers { is_request it.letter.message.body ≡ false }
        ensures acts { OnOk result
            ((asker : ℕ) → Acts asker (named_of it ∷ []) self.old work.old self.new work.new) }

        ensures takes { IfOk result (λ taken. (ended : Option ToldCall)
            × (taken ≡ delivered_of ended) × TakesReply it self.old work.old self.new work.new ended) }

        ensures refused { IfErr result (IsUnwritten (CanTake it self.old)) }
    {
        let it = self.log_take(it, came, work)?;
        let NamedLetter { name, letter } = it;
        let progress = self.objects.take(&name, letter)?;
        self.post(&name, progress.letters, work)?;
        tell(name, progress.ended, work)
    }
}

// A reply about the object of this name was taken. Where it answered a call, clients see that.
fn tell(name: Bytes, ended: Option<Ended>, work: &mut Work) -> Result<Delivered, NodeError>
    ensures grown { OnOk result (IsGrown work.old work.new (tell_growth name ended)) }
    ensures told { IfOk result (λ told. told ≡ delivered_of ended) }
    ensures refused { IfErr result (λ e. e ≡ NoMemory) }
{
    let Some(ended) = ended else {
        return Ok(Delivered::Handled);
    };
    let told = copy_of(&ended)?;
    work.note(Notice::Tells { name, ended: told })?;
    Ok(Delivered::Ended(ended))
}

// A copy of what a client is told. Its value shares its bytes.
fn copy_of(ended: &Ended) -> Result<Ended, NodeError>
    ensures copied { IfOk result (λ copy. copy ≡ ended.now) }
    ensures refused { IfErr result (λ e. e ≡ NoMemory) }
{
    let value = match &ended.value {
        Some(value) => Some(value.clone()?),
        None => None,
    };
    Ok(Ended {
        id: ended.id,
        kind: ended.kind,
        value,
    })
}
