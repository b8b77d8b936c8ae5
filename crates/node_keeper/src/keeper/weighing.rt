//! How long a log would be that is written anew.
use super::Keeper;
use crate::objects::sizes::tags_in;
use local_object::{KeptBank, Place};

// How many bytes the entries of one tag take, without a piece and without the object's name.
const TAG_BYTES: u64 = 250;

impl Keeper {
    /// About how many bytes a log would have that is written anew: those of all pieces in the banks, some 250 for each
    /// tag of a bank, and two names for each tag. A closed bank counts as two tags. It is `u64::MAX` if there are more.
    /// This is an estimate, by which a host may decide when to write the log anew; no promise depends on it.
    ///
    /// It takes time linear in the number of tags.
    pub fn needed_bytes(&self) -> u64 {
        let mut bytes = self.objects.bytes_stored();
        for index in 0..self.objects.count() {
            if let Some((name, object)) = self.objects.named(index) {
                let each = (name.len() as u64)
                    .saturating_mul(2)
                    .saturating_add(TAG_BYTES);
                let tags = tags_in(object.places()).saturating_add(closed_in(object.places()));
                bytes = bytes.saturating_add(each.saturating_mul(tags));
            }
        }
        bytes
    }
}

// Two for each closed bank in these places, which takes four entries, as two tags do.
fn closed_in(places: &[Place]) -> u64 {
    let mut count = 0u64;
    for place in places {
        if let Some(KeptBank::Closed(_)) = place.bank() {
            count = count.saturating_add(2);
        }
    }
    count
}
