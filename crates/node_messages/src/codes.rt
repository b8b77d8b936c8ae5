//! The codes of a head.
ghost use Rattle.std.specs.Prelude.{◌≡◌};
ghost use Rattle.node_messages.specs.Codes.{flag_from, kind_code, status_code, status_from};

use crate::error::Fault;
use bank::{Kind, Status};

/// Returns the code of a status.
pub(crate) fn status_code(status: Status) -> u8
    ensures { result ≡ status_code status }
{
    match status {
        Status::Unset => 0,
        Status::Pending => 1,
        Status::Final => 2,
    }
}

/// Returns the status for which a code stands.
#[tactic(auto, unfolding(crate::specs::Codes::status_from))]
pub(crate) fn read_status(code: u8) -> Result<Status, Fault>
    ensures { result ≡ status_from code }
{
    match code {
        0 => Ok(Status::Unset),
        1 => Ok(Status::Pending),
        2 => Ok(Status::Final),
        _ => Err(Fault::UnknownCode),
    }
}

/// Returns the code of a kind, without its status or tag.
pub(crate) fn kind_code(kind: Kind) -> u8
    ensures { result ≡ kind_code kind }
{
    match kind {
        Kind::Next => 0,
        Kind::Spread(_) => 1,
        Kind::Query => 2,
        Kind::PreWrite(_) => 3,
        Kind::Finalize(_) => 4,
        Kind::Fetch(_) => 5,
    }
}

/// Returns the answer for which a code stands: 0 is no, and 1 is yes.
#[tactic(auto, unfolding(crate::specs::Codes::flag_from))]
pub(crate) fn read_flag(code: u8) -> Result<bool, Fault>
    ensures { result ≡ flag_from code }
{
    match code {
        0 => Ok(false),
        1 => Ok(true),
        _ => Err(Fault::UnknownCode),
    }
}
