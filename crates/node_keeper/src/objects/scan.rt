//! The names of whose objects a node keeps a written version: how many there are, and a walk through them.
ghost use Rattle.std.specs.Prelude.{◌≡◌, ◌++◌, ◌≤◌, ◌<◌, ◌^◌, ◌+◌, ◌-◌, if◌then◌else◌, length, slice_get};
ghost use Rattle.std.specs.Prelude.{false, IfErr, IfOk, None, Some, MatchOption, option_copied};
ghost use Rattle.tag.specs.declared.refusal.Refusal.TheVariants.{NoMemory};
ghost use Rattle.node_keeper.specs.Objects.{heard_names, objects_of};
ghost use Rattle.node_keeper.specs.Written.{is_written, names_between, scan_end, written_names};

use super::Objects;
use super::last::is_written;
use bytes::Bytes;
use tag::Refusal;

/// Names, and where the walk through all names goes on.
#[derive(Debug, Drop)]
pub struct Page {
    /// The cursor with which the walk goes on, or 0 if it is at its end.
    pub next: u64,
    /// The names of whose objects the node keeps a written version.
    pub names: Vec<Bytes>,
}

impl Objects {
    /// Returns of how many objects the node keeps a written version in its bank of the last position of which it has
    /// heard. It takes time linear in the number of objects in the map.
    pub fn count_written(&self) -> u64
        ensures { result ≡ length (written_names self.now) }
    {
        let mut count = 0;
        for index in 0..self.count() {
            count += one_if(self.is_written_at(index));
        }
        count
    }

    // Whether the node keeps a written version of the object at this place of the map, if there is one.
    fn is_written_at(&self, index: usize) -> bool
        ensures { MatchOption (slice_get (heard_names self.now) index) (result ≡ false)
            (λ name. result ≡ is_written (objects_of self.now name)) }
    {
        match self.named(index) {
            Some((_, object)) => is_written(object),
            None => false,
        }
    }
    /// Looks at so many places of the map, downwards from a cursor, which is the number of places that are left, and
    /// returns the names there of whose objects the node keeps a written version. Cursor 0 is the end of the map, and
    /// so is one beyond it.
    ///
    /// `NoMemory` is the only refusal.
    pub fn scan(&self, cursor: u64, count: u64) -> Result<Page, Refusal>
        // Where it goes on.
        ensures next { IfOk result (λ page. page.next ≡ scan_end self.now cursor - count) }
        // The names from there up to the cursor.
        ensures names { IfOk result (λ page.
            page.names.items ≡ names_between self.now (scan_end self.now cursor - count) (scan_end self.now cursor)) }
        // What is left at the cursor is what is left where it goes on, and these names.
        ensures rest { IfOk result (λ page. names_between self.now 0 (scan_end self.now cursor)
            ≡ names_between self.now 0 page.next ++ page.names.items) }
        ensures refused { IfErr result (λ e. e ≡ NoMemory) }
    {
        let end = self.scan_end(cursor);
        let next = end.saturating_sub(count);
        let names = self.names_from(next as usize, (end - next) as usize)?;
        Ok(Page { next, names })
    }

    // How many places are left at a cursor.
    fn scan_end(&self, cursor: u64) -> u64
        ensures end { result ≡ scan_end self.now cursor }
    {
        let count = self.count() as u64;
        if cursor == 0 {
            return count;
        }
        cursor.min(count)
    }

    // The names, of so many from this place on, of whose objects the node keeps a written version.
    fn names_from(&self, first: usize, count: usize) -> Result<Vec<Bytes>, Refusal>
        requires within { first + count ≤ length (heard_names self.now) }
        requires fits { first + count < 2 ^ 64 }
        ensures names { IfOk result (λ names. names.items ≡ names_between self.now first (first + count)) }
        ensures refused { IfErr result (λ e. e ≡ NoMemory) }
    {
        let mut names = Vec::new(self.alloc);
        for step in 0..count {
            if let Some(name) = self.written_name(first + step) {
                names.push(name.clone()?)?;
            }
        }
        Ok(names)
    }

    // The name at this place of the map, if the node keeps a written version of its object.
    fn written_name(&self, index: usize) -> Option<&Bytes>
        ensures { MatchOption (slice_get (heard_names self.now) index) (option_copied result ≡ None)
            (λ name. option_copied result ≡ (if is_written (objects_of self.now name) then Some name else None)) }
    {
        match self.named(index) {
            Some((name, object)) => { if is_written(object) { Some(name) } else { None } }
            None => None,
        }
    }
}

// 1 if it is so, and 0 otherwise.
fn one_if(is: bool) -> u64
    ensures { result ≡ (if is then 1 else 0) }
{
    u64::from(is)
}
