//! Banks. A bank is the state that one server keeps of an object at one position: for each tag a label, and a piece or
//! none, and a pointer to the next position. The requests are those of Coded Atomic Storage (Cadambe, Lynch, Médard and
//! Musial, 2014), and for the pointer those of ARES (Nicolaou, Cadambe, Prakash, Trigeorgi, Konwar, Médard and Lynch,
//! 2019).
#![tactic(auto)]

ghost use Rattle.std.specs.Prelude.{◌≡◌, ℕ, ◌+◌, ◌<◌, ◌≤◌, ◌↔◌, Option, Some, None, IsSome, true, if◌then◌else◌};
ghost use Rattle.std.specs.FinMap as map;
ghost use Rattle.tag.specs.Tag.{opening_tag};
ghost use Rattle.tag.specs.declared.tag.Tag.{Tag as Version};
ghost use Rattle.bank.specs.Bank.{Bank as Table, opened_bank, piece_of};
ghost use Rattle.bank.specs.Bytes.{bank_bytes, added_bytes};
ghost use Rattle.bank.specs.Collect.{IsCollected, KeepsAll, collected, fetched_piece, final_pieces, retired_bank};
ghost use Rattle.bank.specs.Floor.{is_forgotten, remembered, names_forgotten};
ghost use Rattle.bank.specs.Knowledge.{finalized_at, finals_above, HadPiece, HoldsPiece, IsTrueAnswer};
ghost use Rattle.bank.specs.Facts.{IsBefore, SameBefore};
ghost use Rattle.bank.specs.Serve.{served_bank, uncollected_bank, freed_bytes, answer_to, reply_to, kind_of};
ghost use Rattle.piece.specs.declared.piece.Piece.{Piece as Fragment};
ghost use Rattle.bank.specs.declared.request.Request.{Request as Asked};

pub use bank::Bank;
pub use held_piece::HeldPiece;
pub use kind::Kind;
pub use reply::{Answer, Reply};
pub use request::Request;
pub use row::{Arrival, Label, Row};
pub use status::{Pointer, Status};

mod bank;
mod held_piece;
mod kind;
mod reply;
mod request;
mod row;
mod rows;
mod serve;
mod status;
mod window;

/// A law: neither a request at step `now` nor retiring the bank at `now` changes what the bank says about earlier
/// steps.
pub fn serving_keeps_the_past()
    ensures served { (b : Table) (q : Asked) (now : ℕ) → SameBefore b (served_bank b q now) now }
    ensures retired { (b : Table) (now : ℕ) → SameBefore b (retired_bank b now) now }
{}

/// A law: if everything that a bank has recorded happened before `now`, then after a request at `now`, or after
/// retiring it then, everything that it has recorded happened before any later step.
pub fn serving_keeps_order()
    ensures served { (b : Table) (q : Asked) (now later : ℕ)
        → now < later → IsBefore b now → IsBefore (served_bank b q now) later }
    ensures retired { (b : Table) (now later : ℕ) → now < later → IsBefore b now → IsBefore (retired_bank b now) later }
{}

/// A law: the answer to a request at step `now` is true of the bank that the request leaves. The bank must have
/// recorded nothing but earlier steps, have finalized the opening tag, and have exactly the pieces that it is to keep.
pub fn replies_are_true()
    ensures { (b : Table) (q : Asked) (now : ℕ)
        → IsBefore b now → IsSome (finalized_at b opening_tag) → IsCollected b
        → IsTrueAnswer (served_bank b q now) now (kind_of q) (answer_to b q) }
{}

/// A law: a bank has exactly the pieces that it is to keep when it is opened, after each request, and once it is
/// retired.
pub fn serving_collects()
    ensures opened { (point : ℕ) (delta : Option ℕ) (now : ℕ) → IsCollected (opened_bank point delta now) }
    ensures served { (b : Table) (q : Asked) (now : ℕ) → IsCollected b → IsCollected (served_bank b q now) }
    ensures retired { (b : Table) (now : ℕ) → IsCollected (retired_bank b now) }
{}

/// A law: a bank with `delta` has pieces of at most `delta` + 1 finalized tags, whatever requests it has served.
pub fn few_are_kept()
    ensures { (b : Table) (delta : ℕ) → IsCollected b → b.delta ≡ Some delta → final_pieces b ≤ delta + 1 }
{}

/// A law: a request adds the bytes of the piece that it brings, and subtracts those of the pieces that are then
/// dropped.
pub fn serving_adds_bytes()
    ensures { (b : Table) (q : Asked) (now : ℕ)
        → bank_bytes (served_bank b q now) + freed_bytes b q now ≡ bank_bytes b + added_bytes b q }
{}

/// A law: a bank without `delta` that is not retired drops nothing. A request leaves all that it brought, a fetch
/// returns the piece that arrived, and the bank holds each piece that it had. After a request it still has no `delta`
/// and is not retired.
pub fn serving_keeps_all()
    ensures opened { (point now : ℕ) → KeepsAll (opened_bank point None now) }
    ensures served { (b : Table) (q : Asked) (now : ℕ)
        → KeepsAll b → served_bank b q now ≡ uncollected_bank b q now }

    ensures stays { (b : Table) (q : Asked) (now : ℕ) → KeepsAll b → KeepsAll (served_bank b q now) }
    ensures fetched { (b : Table) (tag : Version) → KeepsAll b → fetched_piece b tag ≡ piece_of b tag }
    ensures holds { (b : Table) (tag : Version) (step : ℕ) → KeepsAll b → HoldsPiece b tag step ↔ HadPiece b tag step }
{}

/// A law: what a bank remembers once it has forgotten the tags below its floor. It keeps the row of each other tag as
/// it was, with its piece. So it has no more bytes than before, and if everything that it had recorded happened before
/// `now`, so did everything that it remembers. It makes no difference whether it drops pieces before it forgets or
/// after.
pub fn remembered_banks_leave_out_rows()
    ensures rows { (b : Table) (tag : Version)
        → map.get (remembered b).rows tag ≡ (if is_forgotten b tag then None else map.get b.rows tag) }

    ensures pieces { (b : Table) (tag : Version) (piece : Fragment)
        → piece_of (remembered b) tag ≡ Some piece → piece_of b tag ≡ Some piece }

    ensures bytes { (b : Table) → bank_bytes (remembered b) ≤ bank_bytes b }
    ensures order { (b : Table) (now : ℕ) → IsBefore b now → IsBefore (remembered b) now }
    ensures dropped { (b : Table) → remembered (collected b) ≡ collected (remembered b) }
    ensures kept { (b : Table) → IsCollected b → IsCollected (remembered b) }
{}

/// A law: a bank with `delta` remembers at most `delta` + 1 finalized tags besides the opening tag.
pub fn few_are_remembered()
    ensures { (b : Table) (delta : ℕ) → b.delta ≡ Some delta → finals_above (remembered b) opening_tag ≤ delta + 1 }
{}

/// A law: a bank that has forgotten the tags below its floor answers each request as the whole bank does.
pub fn remembered_banks_answer_the_same()
    ensures answers { (b : Table) (q : Asked) → answer_to (remembered b) q ≡ answer_to b q }
    ensures replies { (b : Table) (q : Asked) (now : ℕ) → reply_to (remembered b) q now ≡ reply_to b q now }
{}

/// A law: a bank that forgets after each request comes to remember exactly what the whole bank would remember if it
/// served the same requests and forgot only then. The same is true if both are retired. A bank that was just opened has
/// nothing to forget, and neither has a bank that has just forgotten.
pub fn remembered_banks_go_on_the_same()
    ensures opened { (point : ℕ) (delta : Option ℕ) (now : ℕ)
        → remembered (opened_bank point delta now) ≡ opened_bank point delta now }

    ensures again { (b : Table) → remembered (remembered b) ≡ remembered b }
    ensures served { (b : Table) (q : Asked) (now : ℕ)
        → remembered (served_bank (remembered b) q now) ≡ remembered (served_bank b q now) }

    ensures retired { (b : Table) (now : ℕ) → remembered (retired_bank b now) ≡ retired_bank (remembered b) now }
{}

/// A law: a request that names a tag below the floor changes nothing of what a bank remembers, if the bank has exactly
/// the pieces that it is to keep. A fetch of such a tag returns no piece, and the tag stays below the floor.
pub fn forgotten_tags_change_nothing()
    ensures unchanged { (b : Table) (q : Asked) (now : ℕ) → IsCollected b → names_forgotten b q ≡ true
        → remembered (served_bank (remembered b) q now) ≡ remembered b }

    ensures fetched { (b : Table) (tag : Version) → is_forgotten b tag ≡ true → fetched_piece b tag ≡ None }
    ensures stays { (b : Table) (q : Asked) (now : ℕ) (tag : Version)
        → is_forgotten b tag ≡ true → is_forgotten (served_bank b q now) tag ≡ true }
{}
