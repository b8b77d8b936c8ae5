//! The limits of the store on sizes and counts, each defined in one place.
ghost use Rattle.std.specs.Prelude.{◌≡◌, ◌^◌, ◌-◌};
ghost use Rattle.tag.specs.declared.limits.TheConstants.{
  LONGEST_NAME,
  LONGEST_VALUE,
  MOST_BYTES,
  MOST_CALLS,
  MOST_LAYOUTS,
  MOST_MEMBERS,
  MOST_MESSAGES,
  MOST_OBJECTS,
  MOST_PHASES,
  MOST_POSITIONS,
  MOST_SEATS,
  MOST_SERVERS,
  MOST_STEPS,
  MOST_WORKERS,
};

/// The greatest number of members that a layout may have, and so of fragments of a value. A larger layout is refused as
/// `BadLayout`.
pub const MOST_MEMBERS: usize = 255;

/// The greatest length of a value, in bytes. A longer value is refused as `TooLong`.
pub const LONGEST_VALUE: usize = 16_777_216;

/// The greatest number of messages of one object that may wait. Steps that would exceed it are refused as `Full`.
pub const MOST_MESSAGES: usize = 1_048_576;

/// The greatest number of bytes of fragments that all servers may store, and that may wait in messages of one object.
/// Steps that would exceed either are refused as `Full`.
pub const MOST_BYTES: u64 = 1 << 62;

/// The greatest number of phases that one call may have. One more is refused as `Full`.
pub const MOST_PHASES: usize = 1_048_576;

/// The greatest number of positions that one object may have. One more is refused as `Full`.
pub const MOST_POSITIONS: usize = 4096;

/// The greatest number of calls that one object may have, answered ones included. One more is refused as `Full`.
pub const MOST_CALLS: usize = 4_294_967_295;

/// The greatest number of servers of a cluster. A server's number is a byte.
pub const MOST_SERVERS: usize = 255;

/// The greatest number of layouts that a cluster may have. One more is refused as `Full`.
pub const MOST_LAYOUTS: usize = 1024;

/// The greatest number of objects that a cluster may have. One more is refused as `Full`.
pub const MOST_OBJECTS: usize = 65_536;

/// The greatest length of an object's name, in bytes. A longer name is refused as `TooLong`.
pub const LONGEST_NAME: usize = 255;

/// The greatest number of steps that a cluster may make. One more is refused as `Full`.
pub const MOST_STEPS: u64 = 1 << 62;

/// The greatest number of seats of one store, and so of its clients. A store with more is refused as `Full`.
pub const MOST_SEATS: u32 = 1024;

/// The greatest number of worker threads that encode one value. More are refused as `Full`.
pub const MOST_WORKERS: usize = 64;

/// A law: the value of each limit, written out, so that a changed limit breaks this contract.
pub fn limits_are_these()
    ensures members { MOST_MEMBERS ≡ 255 }
    ensures value { LONGEST_VALUE ≡ 16777216 }
    ensures messages { MOST_MESSAGES ≡ 1048576 }
    ensures bytes { MOST_BYTES ≡ 2 ^ 62 }
    ensures phases { MOST_PHASES ≡ 1048576 }
    ensures positions { MOST_POSITIONS ≡ 4096 }
    ensures calls { MOST_CALLS ≡ 2 ^ 32 - 1 }
    ensures servers { MOST_SERVERS ≡ 255 }
    ensures layouts { MOST_LAYOUTS ≡ 1024 }
    ensures objects { MOST_OBJECTS ≡ 65536 }
    ensures name { LONGEST_NAME ≡ 255 }
    ensures steps { MOST_STEPS ≡ 2 ^ 62 }
    ensures seats { MOST_SEATS ≡ 1024 }
    ensures workers { MOST_WORKERS ≡ 64 }
{}
