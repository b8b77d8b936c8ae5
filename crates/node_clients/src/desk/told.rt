//! What the client of an answered call is told.
ghost use Rattle.std.specs.Prelude.{◌≡◌};
ghost use Rattle.node_clients.specs.Answers.{ended_answer, told_value};

use bytes::Bytes;
use client_commands::{Answer, Wanted};
use local_object::Ended;
use record::Operation;

// The answer that the client of an answered call gets.
pub(super) fn ended_answer(wanted: Wanted, ended: Ended) -> Answer
    ensures { result ≡ ended_answer wanted ended }
{
    match ended.kind {
        Operation::Read => match ended.value {
            Some(value) => told_value(wanted, value),
            None => told_value(wanted, Bytes::new()),
        },
        Operation::Write | Operation::Move => Answer::Ok,
    }
}

// What a client is told of a value that it reads.
fn told_value(wanted: Wanted, value: Bytes) -> Answer
    ensures { result ≡ told_value wanted value }
{
    match wanted {
        Wanted::Value => {
            if value.is_empty() {
                Answer::Nil
            } else {
                Answer::Value(value)
            }
        }
        Wanted::Length => Answer::Number(value.len() as u64),
        Wanted::Existence => {
            if value.is_empty() {
                Answer::Number(0)
            } else {
                Answer::Number(1)
            }
        }
        Wanted::Nothing => Answer::Ok,
    }
}
