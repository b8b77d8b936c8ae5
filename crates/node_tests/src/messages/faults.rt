//! Frames that are no messages, and why.
use super::samples::{
    ASK_NEXT, NEXT, PIECE, START, STEP, Sample, TAG, head, sample_strings, strings,
};
use bytes::Bytes;
use frames::Frame;
use node_messages::{Fault, MessageError, read_message};
use std::alloc::Global;
use std::process::Abort;

/// A sample, and its fault.
struct Row(Sample, Fault);

const SPREAD: Sample = Sample {
    codes: [0, 1, 1],
    next: NEXT,
    ..ASK_NEXT
};

const PRE_WRITE: Sample = Sample {
    codes: [0, 3, 0],
    tag: TAG,
    piece: PIECE,
    bytes: Some(b"abcd"),
    ..ASK_NEXT
};

const SPREAD_DONE: Sample = Sample {
    codes: [1, 1, 2],
    step: STEP,
    ..ASK_NEXT
};

const NONE_FETCHED: Sample = Sample {
    codes: [1, 5, 0],
    tag: TAG,
    step: STEP,
    ..ASK_NEXT
};

static ROWS: [Row; 21] = [
    Row(
        Sample {
            codes: [0, 1, 3],
            ..SPREAD
        },
        Fault::UnknownCode,
    ),
    Row(
        Sample {
            codes: [1, 0, 3],
            ..ASK_NEXT
        },
        Fault::UnknownCode,
    ),
    Row(
        Sample {
            codes: [0, 1, 0],
            ..SPREAD
        },
        Fault::BadLayout,
    ),
    Row(
        Sample {
            next: b"",
            ..SPREAD
        },
        Fault::BadLayout,
    ),
    Row(
        Sample {
            next: &[2, 1, 9],
            ..SPREAD
        },
        Fault::BadLayout,
    ),
    Row(
        Sample {
            next: &[2, 3, 9, 0],
            ..SPREAD
        },
        Fault::BadLayout,
    ),
    Row(
        Sample {
            next: &[1, 1, 9, 0],
            ..SPREAD
        },
        Fault::BadLayout,
    ),
    Row(
        Sample {
            step: STEP,
            ..SPREAD
        },
        Fault::UnusedPlace,
    ),
    Row(Sample { tag: TAG, ..SPREAD }, Fault::UnusedPlace),
    Row(
        Sample {
            next: NEXT,
            ..SPREAD_DONE
        },
        Fault::BadLayout,
    ),
    Row(
        Sample {
            tag: TAG,
            ..SPREAD_DONE
        },
        Fault::UnusedPlace,
    ),
    Row(
        Sample {
            start: &[0, 0, 0, 5, 3, 2, 7, 8, 9, 0],
            ..SPREAD
        },
        Fault::LongHead,
    ),
    Row(
        Sample {
            start: &[0, 0, 0, 5, 3, 2, 7, 8, 8],
            ..SPREAD
        },
        Fault::BadLayout,
    ),
    Row(
        Sample {
            piece: [0; 6],
            ..PRE_WRITE
        },
        Fault::WrongCount,
    ),
    Row(
        Sample {
            bytes: None,
            ..PRE_WRITE
        },
        Fault::WrongCount,
    ),
    Row(
        Sample {
            piece: [2, 3, 0, 0, 0, 11],
            ..PRE_WRITE
        },
        Fault::UnknownCode,
    ),
    Row(
        Sample {
            codes: [0, 3, 1],
            ..PRE_WRITE
        },
        Fault::UnusedPlace,
    ),
    Row(
        Sample {
            step: STEP,
            ..PRE_WRITE
        },
        Fault::UnusedPlace,
    ),
    Row(
        Sample {
            codes: [0, 4, 0],
            ..PRE_WRITE
        },
        Fault::UnusedPlace,
    ),
    Row(
        Sample {
            piece: [0, 3, 0, 0, 0, 0],
            ..NONE_FETCHED
        },
        Fault::UnusedPlace,
    ),
    Row(
        Sample {
            bytes: Some(b""),
            ..NONE_FETCHED
        },
        Fault::WrongCount,
    ),
];

/// The strings of a request Next in form 2.
static OLD: [&[u8]; 9] = [
    b"0123456789abcdef",
    b"photo",
    b"\x02\x03\x04\x05\x06",
    b"7",
    b"2",
    b"1",
    b"3",
    b"request",
    b"next",
];

fn fault_of(alloc: Global, frame: Frame) -> Option<Fault> {
    match read_message(alloc, &frame).err() {
        Some(MessageError::Fault(fault)) => Some(fault),
        _ => None,
    }
}

pub(crate) fn assert_fault<R: Abort>(rt: &R, alloc: Global, list: Vec<Bytes>, wanted: Fault) {
    let frame = Frame::new(list).expect(rt, "a frame");
    let found = fault_of(alloc, frame);
    assert!(rt; found == Some(wanted), "{wanted}");
}

#[test]
fn what_a_message_says(rt: HostRuntime) {
    for row in &ROWS {
        let list = sample_strings(&rt, rt.alloc(), &row.0);
        assert_fault(&rt, rt.alloc(), list, row.1);
    }
}

/// The head of a sample that is cut to this length has this fault.
fn assert_cut<R: Abort>(rt: &R, alloc: Global, sample: &Sample, len: usize, wanted: Fault) {
    let mut head = head(rt, alloc, sample);
    head.truncate(len);
    assert_fault(rt, alloc, strings(rt, alloc, head, b"photo", None), wanted);
}

#[test]
fn a_head_that_is_cut(rt: HostRuntime) {
    for len in 0..90usize {
        assert_cut(&rt, rt.alloc(), &SPREAD, len, Fault::OtherForm);
    }
    for len in 90..100usize {
        assert_cut(&rt, rt.alloc(), &SPREAD, len, Fault::BadLayout);
    }
}

/// A head that is cut right before the start is one that tells none.
#[test]
fn a_start_that_is_cut(rt: HostRuntime) {
    let sample = Sample {
        start: START,
        ..SPREAD
    };
    for len in 101..109usize {
        assert_cut(&rt, rt.alloc(), &sample, len, Fault::BadLayout);
    }
}

#[test]
fn strings_too_few_or_too_many(rt: HostRuntime) {
    for len in 0..3usize {
        let mut list = sample_strings(&rt, rt.alloc(), &PRE_WRITE);
        list.truncate(len);
        assert_fault(&rt, rt.alloc(), list, Fault::WrongCount);
    }
    let mut list = sample_strings(&rt, rt.alloc(), &PRE_WRITE);
    list.push(Bytes::new()).expect(&rt, "memory");
    assert_fault(&rt, rt.alloc(), list, Fault::WrongCount);
}

#[test]
fn a_long_name(rt: HostRuntime) {
    let head = head(&rt, rt.alloc(), &ASK_NEXT);
    let list = strings(&rt, rt.alloc(), head, &[b'a'; 256], None);
    assert_fault(&rt, rt.alloc(), list, Fault::NameTooLong);
}

#[test]
fn an_older_form(rt: HostRuntime) {
    let mut list = Vec::new(rt.alloc());
    for string in OLD {
        list.push(Bytes::from_static(string)).expect(&rt, "memory");
    }
    assert_fault(&rt, rt.alloc(), list, Fault::OtherForm);
}
