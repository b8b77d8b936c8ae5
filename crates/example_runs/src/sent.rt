//! A frame that a process wrote.
use frames::Frame;
use std::marker::Model;

/// A frame that a process wrote to a node. Its first string is the address of that node.
#[derive(Debug, Drop)]
pub struct Sent {
    /// The number of the node whose process wrote it.
    pub sender: u8,
    /// The frame.
    pub frame: Frame,
}

impl Model for Sent {
    ghost use Rattle.processes.specs.Processes.{SentFrame};

    ghost Value = { SentFrame };

    ghost view = { λ sent. record { sender = sent.sender; frame = sent.frame } };
}
