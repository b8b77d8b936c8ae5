//! Which banks are reached by requests, and that they are reached by the requests that this crate returns.
ghost use Rattle.std.specs.Prelude.{◌≡◌, ℕ, Option};
ghost use Rattle.bank.specs.Bank.{Bank as Table, opened_bank};
ghost use Rattle.bank.specs.declared.request.Request.{Request as Asked};
ghost use Rattle.local_object.specs.ChangedBanks.{bank_after};
ghost use Rattle.object_letters.specs.Reached.{IsReachedBank, after_requests};
ghost use Rattle.object_letters.specs.Requests.{requests_to};

/// A law: a newly opened bank is reached, by no request.
pub fn newly_opened_is_reached()
    ensures { (point : ℕ) (delta : Option ℕ) → IsReachedBank point (opened_bank point delta 0) }
{}

/// A law: a bank that is reached leads only to such banks, as it serves requests at step 0.
pub fn serving_reaches()
    ensures { (point : ℕ) (bank : Table) (request : Asked)
        → IsReachedBank point bank → IsReachedBank point (bank_after bank request) }
{}

/// A law: a bank that is reached by some requests is reached by those that `requests_of` returns.
pub fn requests_lead_there()
    ensures { (point : ℕ) (bank : Table)
        → IsReachedBank point bank → after_requests (opened_bank point bank.delta 0) (requests_to bank) ≡ bank }
{}
