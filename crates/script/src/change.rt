//! The commands that may change the cluster.
use bytes::Bytes;

/// A command that may change the cluster, if it comes after the first one. Each number is the one on the line, even if
/// there is nothing of that number. A name is a word of any length.
#[derive(Drop)]
pub enum Change<'a> {
    /// `layout K M0 M1 ..`: adds a layout with threshold `k` and these members in order, of which there is at least
    /// one.
    Layout {
        k: u64,
        members: Vec<u64>,
    },
    /// `object NAME ID [DELTA]`: creates an object with a layout. Its banks keep every piece if the line has no delta.
    Object {
        name: &'a str,
        layout: u64,
        delta: Option<u32>,
    },
    /// `retire NAME P`: retires a position of an object, which must be its base.
    Retire {
        name: &'a str,
        position: u64,
    },
    /// `down S`: takes a server down.
    Down {
        server: u64,
    },
    /// `up S`: takes a server up.
    Up {
        server: u64,
    },
    /// `call read NAME`: makes only the step that begins a read.
    CallRead {
        name: &'a str,
    },
    /// `call write NAME HEX`: makes only the step that begins a write.
    CallWrite {
        name: &'a str,
        value: Bytes,
    },
    /// `call move NAME ID`: makes only the step that begins a move to a layout.
    CallMove {
        name: &'a str,
        layout: u64,
    },
    /// `advance NAME C`: a call begins the phase that is due.
    Advance {
        name: &'a str,
        call: u64,
    },
    /// `supply NAME C`: encodes the value of a call, and supplies the call with it.
    Supply {
        name: &'a str,
        call: u64,
    },
    /// `supply-as NAME C HEX`: encodes these bytes as a call wants its value, and supplies the call with them.
    SupplyAs {
        name: &'a str,
        call: u64,
        value: Bytes,
    },
    /// `settle NAME C`: decodes the value of a call, and the call settles it.
    Settle {
        name: &'a str,
        call: u64,
    },
    /// `post NAME C`: a call resends the requests of its current phase.
    Post {
        name: &'a str,
        call: u64,
    },
    /// `again NAME C`: restarts a call whose fetch lacks pieces.
    Again {
        name: &'a str,
        call: u64,
    },
    /// `answer NAME C`: answers a call.
    Answer {
        name: &'a str,
        call: u64,
    },
    /// `serve NAME PLACE`: serves the request at a place of the mail.
    Serve {
        name: &'a str,
        place: u64,
    },
    /// `take NAME PLACE`: takes the reply at a place of the mail.
    Take {
        name: &'a str,
        place: u64,
    },
    /// `lose NAME PLACE`: loses the message at a place of the mail.
    Lose {
        name: &'a str,
        place: u64,
    },
    /// `repeat NAME PLACE`: puts a copy of the message at a place at the end of the mail.
    Repeat {
        name: &'a str,
        place: u64,
    },
    /// `deliver NAME`: handles the messages of the object.
    Deliver {
        name: &'a str,
    },
    /// `read NAME [TURNS]`: makes a whole read; 100,000 turns if the line gives none.
    Read {
        name: &'a str,
        turns: u64,
    },
    /// `write NAME HEX [TURNS]`: makes a whole write; 100,000 turns if the line gives none.
    Write {
        name: &'a str,
        value: Bytes,
        turns: u64,
    },
    /// `move NAME ID [TURNS]`: makes a whole move to a layout; 100,000 turns if the line gives none.
    Move {
        name: &'a str,
        layout: u64,
        turns: u64,
    },
    /// `resume NAME C [TURNS]`: continues an open call to its answer; 100,000 turns if the line gives none.
    Resume {
        name: &'a str,
        call: u64,
        turns: u64,
    },
}
