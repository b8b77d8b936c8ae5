//! The numbers that the calls answer.
ghost use Rattle.std.specs.Prelude.{◌≡◌};
ghost use Rattle.node_exports.specs.Answer.{detail_of, number_of, number_of_log, number_of_node};

use cluster_file::FileError;
use node_core::CoreError;
use node_effects::{NodeError, RecoveryError};
use node_store::{ServeError, StoreError, StoreFault};

/// The answer if the handle has no node.
pub(crate) const NOT_OPEN: u8 = 10;

/// The answer if the handle has a node already.
pub(crate) const IS_OPEN: u8 = 11;

/// The answer if a buffer has another length than what is to be written to it.
pub(crate) const BAD_BUFFER: u8 = 12;

/// The answer if there is no task in a place.
pub(crate) const NO_TASK: u8 = 13;

/// The number of an error.
pub(crate) fn number(error: &CoreError) -> u8
    ensures { result ≡ number_of error.now }
{
    match error {
        CoreError::NoMemory => 1,
        CoreError::BadFile(FileError::NoMemory) => 1,
        CoreError::BadFile(FileError::Fault(_)) => 2,
        CoreError::NoNode(_) => 3,
        CoreError::OldForm => 4,
        CoreError::BadLog(error) => log_number(error),
        CoreError::Refused(error) => node_number(error),
        CoreError::Ended(ServeError::NoFrame(_)) => 7,
        CoreError::Ended(ServeError::Stopped(error)) => node_number(error),
        CoreError::Ended(_) => 9,
        CoreError::Stopped => 8,
    }
}

// The number of an error of a log.
fn log_number(error: &StoreError) -> u8
    ensures { result ≡ number_of_log error.now }
{
    match &error.fault {
        StoreFault::NoMemory => 1,
        StoreFault::NotCarriedOut(RecoveryError::Stopped(error)) => node_number(error),
        _ => 5,
    }
}

// The number of an error of a node.
fn node_number(error: &NodeError) -> u8
    ensures { result ≡ number_of_node error.now }
{
    match error {
        NodeError::NoMemory => 1,
        NodeError::NoMoreIds => 6,
        _ => 9,
    }
}

/// Where in its text or its log an error lies: the line of the cluster file, or how many bytes of the log come before
/// the entry; and otherwise 0.
pub(crate) fn detail(error: &CoreError) -> u64
    ensures { result ≡ detail_of error.now }
{
    match error {
        CoreError::BadFile(FileError::Fault(fault)) => fault.line,
        CoreError::BadLog(error) => error.at,
        _ => 0,
    }
}
