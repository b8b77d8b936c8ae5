//! A log that is cut or damaged.
use super::sample::{
    FORM_2_HEAD, FORM_3_HEAD, FORM_4_HEAD, OLD_HEAD, SET, SET_AND_NOTHING, with_zeros,
};
use node_log::{Chain, Damage, Entry, HEAD_LENGTH, LogError, is_old_head, read_entry};
use std::alloc::Global;

fn read(alloc: Global, log: &[u8]) -> Result<Option<Entry>, LogError> {
    read_entry(alloc, &mut &*log, Chain::new())
}

pub(crate) fn ends(alloc: Global, log: &[u8]) -> bool {
    matches!(read(alloc, log), Ok(None))
}

fn is_damaged(alloc: Global, log: &[u8], damage: Damage) -> bool {
    match read(alloc, log) {
        Err(LogError::Damaged(found)) => found == damage,
        _ => false,
    }
}

// The damage where the byte at this place is another one.
fn damage_at(place: usize) -> Damage {
    if place < HEAD_LENGTH {
        Damage::WrongHead
    } else {
        Damage::WrongDigest
    }
}

/// The log ends within its entry, wherever that is cut.
#[test]
fn a_cut_at_every_byte(rt: HostRuntime) {
    for len in 0..SET.len() {
        assert!(rt; ends(rt.alloc(), &SET[..len]));
    }
}

/// It ends there too where zeros stand in place of the bytes that are missing, and where more zeros stand behind them.
#[test]
fn zeros_behind_a_cut(rt: HostRuntime) {
    for len in 0..SET.len() {
        let first = &SET[..len];
        assert!(rt;
            ends(
                rt.alloc(),
                &with_zeros(&rt, rt.alloc(), first, SET.len() - len, b"")
            )
        );
        assert!(rt; ends(rt.alloc(), &with_zeros(&rt, rt.alloc(), first, 5000, b"")));
    }
}

/// Zeros with another byte behind them are damage.
#[test]
fn a_byte_behind_zeros(rt: HostRuntime) {
    let log = with_zeros(&rt, rt.alloc(), b"", 40, b"\x01");
    assert!(rt; is_damaged(rt.alloc(), &log, Damage::WrongHead));
    let log = with_zeros(&rt, rt.alloc(), &SET[..30], 5000, b"\x01");
    assert!(rt; is_damaged(rt.alloc(), &log, Damage::WrongDigest));
}

/// Whichever byte is another one, and whichever other one a byte of the length in the head is, the damage is reported,
/// also where that length leads beyond the end of the log, or to another byte of it.
#[test]
fn a_changed_byte(rt: HostRuntime) {
    for place in 0..SET.len() {
        let last = if place < 8 { 255 } else { 1 };
        for change in 1..=last {
            let mut log = Vec::from_slice(rt.alloc(), SET).expect(&rt, "memory");
            log[place] = log[place] ^ change;
            assert!(rt; is_damaged(rt.alloc(), &log, damage_at(place)));
        }
    }
}

/// Logs whose first bytes are no entry.
static NO_ENTRIES: [(&str, &[u8], Damage); 4] = [
    (
        "a body with a right digest that is no frame",
        b"\x05\x00\x00\x00\x00\x00\x00\x0f\xf26\xd2e\xc2\xd3.\xf2SET photo hello",
        Damage::NoFrame,
    ),
    (
        "a body with a right digest that is two frames",
        b"\x05\x00\x00\x00\x00\x00\x00\x08\xdc\xd3\x00}\x9f\xcb\x1dq*0\r\n*0\r\n",
        Damage::NoFrame,
    ),
    (
        "an empty body with a right digest, and the entry without strings behind it",
        b"\x05\x00\x00\x00\x00\x00\x00\x00\x00\x00\x00\x00\xdf\xd61\xad\
            \x05\x00\x00\x00\x00\x00\x00\x04\xecY\x8b\x9e-\xd2\xa0\xbc*0\r\n",
        Damage::NoFrame,
    ),
    (
        "no head",
        b"*1\r\n$8\r\n\xe3\xb0\xc4B\x98\xfc\x1c\x14\r\n",
        Damage::WrongHead,
    ),
];

#[test]
fn no_entries(rt: HostRuntime) {
    for &(story, log, damage) in &NO_ENTRIES {
        assert!(rt; is_damaged(rt.alloc(), log, damage), "{story}");
    }
}

/// An entry that was written behind another one is damage at the beginning of a log.
#[test]
fn an_entry_in_another_place(rt: HostRuntime) {
    let second = &SET_AND_NOTHING[SET.len()..];
    assert!(rt; is_damaged(rt.alloc(), second, Damage::WrongHead));
}

/// A head of an older form is known as one, and is no head today. A changed one is neither.
#[test]
fn a_head_of_an_older_form(rt: HostRuntime) {
    for head in [&OLD_HEAD, &FORM_2_HEAD, &FORM_3_HEAD, &FORM_4_HEAD] {
        assert!(rt; is_old_head(head));
        assert!(rt; is_damaged(rt.alloc(), head, Damage::WrongHead));
    }
    let mut changed = OLD_HEAD;
    changed[7] = 0;
    assert!(rt; !is_old_head(&changed));
    changed.copy_from_slice(&SET[..HEAD_LENGTH]);
    assert!(rt; !is_old_head(&changed));
}
