//! How many bytes each server stores.
ghost use Rattle.std.specs.Prelude.{◌≡◌, ◌+◌, ◌-◌, ◌*◌, ◌≤◌, ◌<◌, length, get_or, slice_set};
ghost use Rattle.tag.specs.declared.limits.TheConstants.{MOST_BYTES};
ghost use Rattle.cluster.specs.Summed.{all_none};

use arrayvec::ArrayVec;
use std::marker::Model;
use tag::MOST_SERVERS;

/// How many bytes each server stores.
#[derive(Debug)]
pub struct Loads {
    bytes: ArrayVec<u64, MOST_SERVERS>,
}

impl Drop for Loads {
    fn drop(self) {
        let Self { bytes: _ } = self;
    }
}

impl Model for Loads {
    ghost use Rattle.std.specs.Prelude.{List, ℕ};

    ghost Value = { List ℕ };

    ghost view = { λ s. s.bytes.items };
}

impl Loads {
    /// Makes loads of zero bytes for each of this many servers. It allocates no memory.
    pub fn new(count: u8) -> Loads
        ensures { result ≡ all_none count }
    {
        let mut bytes = ArrayVec::new();
        for _ in 0..count {
            bytes.push(0);
        }
        Loads { bytes }
    }

    /// Returns how many bytes a server stores.
    pub fn at(&self, server: u8) -> u64
        requires { server < length self.now }
        ensures { result ≡ get_or self.now server 0 }
    {
        self.bytes[usize::from(server)]
    }

    /// Replaces a part of `old` bytes by one of `new` bytes in what a server stores.
    pub fn replace_part(&mut self, server: u8, old: u64, new: u64)
        requires there { server < length self.old }
        requires part { old ≤ get_or self.old server 0 + new }
        requires within { get_or self.old server 0 + new ≤ 2 * MOST_BYTES }
        ensures { self.new ≡ slice_set self.old server (get_or self.old server 0 + new - old) }
    {
        let place = usize::from(server);
        self.bytes[place] = self.bytes[place] + new - old;
    }
}
