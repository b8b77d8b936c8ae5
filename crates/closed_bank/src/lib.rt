//! Closed banks: what a member keeps of a position whose pointer is final. No call that begins then needs the pieces of
//! the position any more (Nicolaou, Cadambe, Prakash, Trigeorgi, Konwar, Médard and Lynch, 2019), so a closed bank
//! keeps none.
#![tactic(auto)]

ghost use Rattle.std.specs.Prelude.{◌≡◌, ℕ, ◌↔◌, Option, Some, None, IsSome, false};
ghost use Rattle.tag.specs.Tag.{tag_lt};
ghost use Rattle.tag.specs.declared.tag.Tag.{Tag as Version};
ghost use Rattle.bank.specs.Bank.{Bank as Table, opened_bank};
ghost use Rattle.bank.specs.Floor.{remembered};
ghost use Rattle.bank.specs.Serve.{answer_to, reply_to, served_bank};
ghost use Rattle.bank.specs.declared.reply.Answer.{Answer as Told};
ghost use Rattle.bank.specs.declared.reply.Reply.{Reply as Sent};
ghost use Rattle.bank.specs.declared.request.Request.{Request as Asked};
ghost use Rattle.bank.specs.declared.request.Request.TheVariants as request;
ghost use Rattle.closed_bank.specs.ClosedBank.{ClosedBank as Closed, IsClosedFor, closed_of};
ghost use Rattle.closed_bank.specs.Serve.{closed_after, closed_answer, closed_reply};
ghost use Rattle.closed_bank.specs.Restore.{all_served, requests_to_closed};

pub use closed_bank::ClosedBank;

mod closed_bank;

/// A law: a closed bank belongs to a whole bank exactly if the whole bank closes to it. Whether the whole bank first
/// forgets the tags below its floor makes no difference.
pub fn closing_keeps_pointer_and_greatest_tag()
    ensures closed { (whole : Table) (closed : Closed) → (closed_of whole ≡ Some closed) ↔ IsClosedFor whole closed }
    ensures forgotten { (whole : Table) → closed_of (remembered whole) ≡ closed_of whole }
{}

/// A law: if a closed bank answers a request, its answer is that of the whole bank to which it belongs.
pub fn closed_banks_answer_the_same()
    ensures answers { (whole : Table) (closed : Closed) (q : Asked) (told : Told) → IsClosedFor whole closed
        → closed_answer closed q ≡ Some told → told ≡ answer_to whole q }

    ensures replies { (whole : Table) (closed : Closed) (q : Asked) (now : ℕ) (sent : Sent) → IsClosedFor whole closed
        → closed_reply closed q now ≡ Some sent → sent ≡ reply_to whole q now }
{}

/// A law: after both have served a request that the closed bank answers, the closed bank belongs to the whole bank
/// again. A request that it declines leaves it as it was, so it still belongs to a whole bank that does not serve the
/// request either. It declines fetches alone. If the whole bank does serve a fetch, the closed bank belongs to it
/// afterwards exactly if the fetched tag is not above the greatest finalized one.
pub fn closed_banks_go_on_the_same()
    ensures served { (whole : Table) (closed : Closed) (q : Asked) (now : ℕ) → IsClosedFor whole closed
        → IsSome (closed_answer closed q) → IsClosedFor (served_bank whole q now) (closed_after closed q) }

    ensures declined { (closed : Closed) (q : Asked) → closed_answer closed q ≡ None → closed_after closed q ≡ closed }
    ensures fetched { (whole : Table) (closed : Closed) (tag : Version) (now : ℕ) → IsClosedFor whole closed
        → IsClosedFor (served_bank whole (request.Fetch tag) now) closed ↔ (tag_lt closed.greatest tag ≡ false) }
{}

/// A law: two requests lead a newly opened bank to one that closes to a given closed bank, for each member and each
/// `delta`. So a log that has these requests gives the closed bank back. The same is true if the bank forgets after
/// each request the tags below its floor.
pub fn closed_banks_come_back()
    ensures whole { (point : ℕ) (delta : Option ℕ) (now : ℕ) (closed : Closed)
        → closed_of (all_served (λ b q. served_bank b q now) (opened_bank point delta now) (requests_to_closed closed))
        ≡ Some closed }

    ensures forgetful { (point : ℕ) (delta : Option ℕ) (now : ℕ) (closed : Closed)
        → closed_of (all_served (λ b q. remembered (served_bank b q now)) (opened_bank point delta now)
        (requests_to_closed closed)) ≡ Some closed }
{}
