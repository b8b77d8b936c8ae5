//! Why a node stops.
use cluster_file::DIGEST_LENGTH;
use frames::FrameError;
use node_messages::MessageError;
use std::alloc::{AllocError, AllocFailed};
use tag::Refusal;
use thiserror::Error;

/// Why a node cannot go on. After an error nobody may use what the node keeps: the node is started again from its log.
#[derive(Clone, Copy, Debug, PartialEq, Eq, Error)]
pub enum NodeError {
    /// Memory is refused.
    #[error("out of memory")]
    NoMemory,
    /// The node has begun all of its 2^24 epochs, so it has no more ids for its calls.
    #[error("no more ids for calls")]
    NoMoreIds,
    /// A message has no frame, or an entry has too many strings or one that is too long. A node makes no such message
    /// and no such entry.
    #[error("a message that has no frame")]
    Unwritable,
    /// An object refused something that a node may always do.
    #[error("refused: {0}")]
    Refused(Refusal),
}

impl From<AllocError> for NodeError {
    ghost use Rattle.std.specs.Prelude.{◌≡◌};
    ghost use Rattle.node_effects.specs.declared.error.NodeError.TheVariants.{NoMemory};

    ghost from_gives = { λ _ error. error ≡ NoMemory };

    fn from(_error: AllocError) -> NodeError {
        NodeError::NoMemory
    }
}

impl<T: Drop> From<AllocFailed<T>> for NodeError {
    ghost use Rattle.std.specs.Prelude.{◌≡◌};
    ghost use Rattle.node_effects.specs.declared.error.NodeError.TheVariants.{NoMemory};

    ghost from_gives = { λ _ error. error ≡ NoMemory };

    fn from(_error: AllocFailed<T>) -> NodeError {
        NodeError::NoMemory
    }
}

impl From<MessageError> for NodeError {
    ghost use Rattle.std.specs.Prelude.{◌≡◌};
    ghost use Rattle.node_effects.specs.Errors.{error_of_message};

    ghost from_gives = { λ error same. same ≡ error_of_message error };

    fn from(error: MessageError) -> NodeError {
        match error {
            MessageError::NoMemory => NodeError::NoMemory,
            MessageError::Fault(_) => NodeError::Unwritable,
        }
    }
}

impl From<FrameError> for NodeError {
    ghost use Rattle.std.specs.Prelude.{◌≡◌};
    ghost use Rattle.node_effects.specs.Errors.{error_of_frame};

    ghost from_gives = { λ error same. same ≡ error_of_frame error };

    fn from(error: FrameError) -> NodeError {
        match error {
            FrameError::NoMemory => NodeError::NoMemory,
            FrameError::Fault(_) | FrameError::Failed(_) => NodeError::Unwritable,
        }
    }
}

impl From<Refusal> for NodeError {
    ghost use Rattle.std.specs.Prelude.{◌≡◌};
    ghost use Rattle.node_effects.specs.Errors.{error_of_refusal};

    ghost from_gives = { λ refusal same. same ≡ error_of_refusal refusal };

    fn from(refusal: Refusal) -> NodeError {
        match refusal {
            Refusal::NoMemory => NodeError::NoMemory,
            refusal => NodeError::Refused(refusal),
        }
    }
}

/// Why an entry of a log cannot be carried out again.
#[derive(Clone, Copy, Debug, PartialEq, Eq, Error)]
pub enum RecoveryError {
    /// The log does not begin with the entry that names the cluster and the node.
    #[error("the log does not begin with a cluster")]
    NoCluster,
    /// The log belongs to a cluster whose file has this digest, which is not that of the node's cluster file.
    #[error("the log is of another cluster: a setting that is fixed at the first start differs in the cluster file")]
    OtherCluster([u8; DIGEST_LENGTH]),
    /// The log belongs to the node with this number, which is another node.
    #[error("the log is that of node {0}")]
    OtherNode(u8),
    /// No node makes such an entry.
    #[error("no entry of a node")]
    NoEntry,
    /// The entry cannot be carried out again, because the node cannot go on.
    #[error("{0}")]
    Stopped(NodeError),
}

impl From<NodeError> for RecoveryError {
    ghost use Rattle.std.specs.Prelude.{◌≡◌};
    ghost use Rattle.node_effects.specs.declared.error.RecoveryError.TheVariants.{Stopped};

    ghost from_gives = { λ error same. same ≡ Stopped error };

    fn from(error: NodeError) -> RecoveryError {
        RecoveryError::Stopped(error)
    }
}
