//! Words that are just inside or outside the form of numbers or bytes, and lines with each kind of end.
use crate::same::assert_row;
use std::alloc::Global;
use std::process::Abort;
use words::{Hexadecimal, first_digit, parse_bytes, parse_number, split_lines, with_digit};

static NUMBERS: [(&str, Option<u64>); 14] = [
    ("0", Some(0)),
    ("0007", Some(7)),
    ("18446744073709551615", Some(u64::MAX)),
    ("18446744073709551616", None),
    ("99999999999999999999999999", None),
    ("99999999999999999999999999x", None),
    ("00000000000000000000000002", Some(2)),
    ("", None),
    ("+1", None),
    ("-1", None),
    ("1_0", None),
    ("0x1", None),
    ("1 ", None),
    ("٣", None),
];

#[test]
fn numbers(rt: HostRuntime) {
    for place in 0..NUMBERS.len() {
        let (word, number) = NUMBERS[place];
        assert_row(&rt, place, parse_number(word) == number);
    }
}

static BYTES: [(&str, Option<&str>); 8] = [
    (".", Some(".")),
    ("00ff", Some("00ff")),
    ("0aBC", Some("0abc")),
    ("", None),
    ("0", None),
    ("0g", None),
    ("..", None),
    ("-", None),
];

fn is_printed(rt: &impl Abort, alloc: Global, bytes: &[u8], expected: &str) -> bool {
    let text = format!(in alloc; "{}", Hexadecimal(bytes)).expect(rt, "a text");
    text.as_str() == expected
}

// Whether the bytes of a word are printed so, or there are none where it has not the form of bytes.
fn prints(rt: &impl Abort, alloc: Global, word: &str, expected: Option<&str>) -> bool {
    match parse_bytes(alloc, word).expect(rt, "an answer") {
        Some(bytes) => match expected {
            Some(expected) => is_printed(rt, alloc, bytes.as_slice(), expected),
            None => false,
        },
        None => expected.is_none(),
    }
}

#[test]
fn bytes_of_words(rt: HostRuntime) {
    for place in 0..BYTES.len() {
        let (word, expected) = BYTES[place];
        assert_row(&rt, place, prints(&rt, rt.alloc(), word, expected));
    }
}

// Whether these are the lines.
fn are_lines(found: &[&[u8]], lines: &[&str]) -> bool {
    for place in 0..found.len() {
        match lines.get(place) {
            Some(line) if *found[place] == *line.as_bytes() => {}
            _ => return false,
        }
    }
    found.len() == lines.len()
}

fn splits(rt: &impl Abort, alloc: Global, text: &str, lines: &[&str]) -> bool {
    let found = split_lines(alloc, text.as_bytes()).expect(rt, "lines");
    are_lines(&found, lines)
}

static TEXTS: [(&str, &[&str]); 5] = [
    ("", &[]),
    ("one", &["one"]),
    ("one\n\ntwo\r\n", &["one", "", "two"]),
    ("one\r", &["one\r"]),
    ("\r\n\n", &["", ""]),
];

#[test]
fn lines_of_texts(rt: HostRuntime) {
    for place in 0..TEXTS.len() {
        let (text, lines) = TEXTS[place];
        assert_row(&rt, place, splits(&rt, rt.alloc(), text, lines));
    }
}

#[test]
fn digits(rt: HostRuntime) {
    assert!(rt; first_digit(b'9', 1) == Ok(9) && first_digit(b'+', 1) == Err(1));
    assert!(rt;
        with_digit(25, b'5', 255, 1, 2) == Ok(255) && with_digit(25, b'6', 255, 1, 2) == Err(2)
    );
    assert!(rt;
        with_digit(0, b'1', 255, 1, 2) == Err(1) && with_digit(1, b'x', 255, 1, 2) == Err(1)
    );
}
