//! The limits of a frame, and of what is copied of it.

/// The greatest number of strings in a frame.
pub const MOST_STRINGS: usize = 1024;

/// The greatest length of a string in a frame, in bytes: 16 MiB plus 64 KiB.
pub const LONGEST_STRING: usize = 16_842_752;

/// A string of so many bytes or more waits to be written where it lies. A shorter one is copied to the bytes before it.
pub const SHARED_FROM: usize = 16_384;
