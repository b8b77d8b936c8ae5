//! What a node does when a reply comes in.

ghost use Rattle.std.specs.Prelude.{◌≡◌, [], None, Some};

use bytes::Bytes;
use letter::Letter;
use record::Operation;
use std::alloc::Global;
use tag::CallId;

/// A call that was answered.
#[derive(Debug, Drop)]
pub struct Ended {
    /// The id of the call.
    pub id: CallId,
    /// Whether it was a read, a write or a move.
    pub kind: Operation,
    /// What a read returns, and what a write wrote, or none for a move.
    pub value: Option<Bytes>,
}

/// What a node has to do after one of its calls took a reply.
#[derive(Debug, Drop)]
pub struct Progress {
    /// The letters that are to be sent.
    pub letters: Vec<Letter>,
    /// The call, if it was answered.
    pub ended: Option<Ended>,
}

impl Progress {
    /// Nothing is to be sent, and no call was answered. It allocates no memory.
    pub(crate) fn none(alloc: Global) -> Progress
        ensures letters { result.letters.items ≡ [] }
        ensures ended { result.ended ≡ None }
    {
        Progress {
            letters: Vec::new(alloc),
            ended: None,
        }
    }

    /// These letters are to be sent, and no call was answered.
    pub(crate) fn sent(letters: Vec<Letter>) -> Progress
        ensures letters { result.letters.items ≡ letters.items }
        ensures ended { result.ended ≡ None }
    {
        Progress {
            letters,
            ended: None,
        }
    }

    /// Nothing is to be sent, and a call was answered. It allocates no memory.
    pub(crate) fn answered(alloc: Global, ended: Ended) -> Progress
        ensures letters { result.letters.items ≡ [] }
        ensures ended { result.ended ≡ Some ended }
    {
        Progress {
            letters: Vec::new(alloc),
            ended: Some(ended),
        }
    }
}
