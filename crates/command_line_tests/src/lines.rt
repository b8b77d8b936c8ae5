//! Command lines, with all that they print and their exit status, as worked out by hand from the rules of the store.
use command_line::{run_words, run_words_with_progress};
use std::alloc::Global;
use std::process::Abort;
use std::rt::Files;
use std::sync::Wait;
use std::thread::Threads;
use std::time::Clock;

/// The words of a command line, parted by one space each, what they print, and the exit status.
struct Line {
    words: &'static str,
    out: &'static [u8],
    err: &'static [u8],
    status: u8,
}

/// What a command line printed, and its exit status.
#[derive(Drop)]
struct Run {
    out: Vec<u8>,
    err: Vec<u8>,
    status: u8,
}

static LINES: [Line; 8] = [
    Line {
        words: "fragments 2 4 68656c6c6f",
        out: b"0:68656c 1:040a6c 2:b0bb6c 3:dcd46c\n",
        err: b"",
        status: 0,
    },
    Line {
        words: "decode 2 5 3:dcd46c 2:b0bb6c",
        out: b"68656c6c6f\n",
        err: b"",
        status: 0,
    },
    Line {
        words: "run /dev/null",
        out: b"",
        err: b"",
        status: 0,
    },
    Line {
        words: "soak 2 3 2 1",
        out: b"calls 6\nreceipts 6\nmoves 2\ncheck true\naccounts true\n",
        err: b"",
        status: 0,
    },
    Line {
        words: "decode 2 5 1:040a6c 1:040a6c",
        out: b"",
        err: b"refused 15 BadPieces\n",
        status: 1,
    },
    Line {
        words: "fragments 2 4 4g",
        out: b"",
        err: b"bad argument\n",
        status: 2,
    },
    Line {
        words: "soak 0 4 0 7",
        out: b"",
        err: b"bad argument\n",
        status: 2,
    },
    Line {
        words: "run /there/is/no/such/file",
        out: b"",
        err: b"cannot read /there/is/no/such/file\n",
        status: 2,
    },
];

fn words_of(rt: &impl Abort, alloc: Global, text: &str) -> Vec<String> {
    let mut words = Vec::new(alloc);
    for word in text.split(' ') {
        let word = String::from_str(alloc, word).expect(rt, "a word");
        words.push(word).expect(rt, "room for a word");
    }
    words
}

fn run_of<R: Files + AllocGlobal + Threads + Wait + Clock + Sync + Abort>(
    rt: &R,
    words: &[String],
) -> Run {
    let mut out = Vec::new(rt.alloc());
    let mut err = Vec::new(rt.alloc());
    let status = run_words(rt, words, &mut out, &mut err);
    Run { out, err, status }
}

/// As `run_of`, for a caller that shows progress. None of the lines takes two seconds, so there is none to show.
fn shown_run_of<R: Files + AllocGlobal + Threads + Wait + Clock + Sync + Abort>(
    rt: &R,
    words: &[String],
) -> Run {
    let mut out = Vec::new(rt.alloc());
    let mut err = Vec::new(rt.alloc());
    let status = run_words_with_progress(rt, words, &mut out, &mut err, true);
    Run { out, err, status }
}

fn is_as(run: &Run, line: &Line) -> bool {
    run.status == line.status && run.out.as_slice() == line.out && run.err.as_slice() == line.err
}

fn assert_run(rt: &impl Abort, line: &Line, run: &Run) {
    assert!(rt; is_as(run, line), "words: {}", line.words);
}

#[test]
fn lines_print_what_was_worked_out(rt: HostRuntime) {
    for place in 0..LINES.len() {
        let words = words_of(&rt, rt.alloc(), LINES[place].words);
        assert_run(&rt, &LINES[place], &run_of(&rt, words.as_slice()));
    }
}

#[test]
fn lines_print_the_same_with_progress(rt: HostRuntime) {
    for place in 0..LINES.len() {
        let words = words_of(&rt, rt.alloc(), LINES[place].words);
        assert_run(&rt, &LINES[place], &shown_run_of(&rt, words.as_slice()));
    }
}

/// Returns whether the words are no command line: nothing is printed on standard output, and a text says so.
fn is_usage(run: &Run) -> bool {
    run.status == 2 && run.out.is_empty() && !run.err.is_empty()
}

fn assert_usage(rt: &impl Abort, run: &Run) {
    assert!(rt; is_usage(run));
}

#[test]
fn other_words_end_with_status_2(rt: HostRuntime) {
    for text in ["fragment 2 4 41", "fragments 2 4", "soak 1 2 3 4 5"] {
        let words = words_of(&rt, rt.alloc(), text);
        assert_usage(&rt, &run_of(&rt, words.as_slice()));
    }
    assert_usage(&rt, &run_of(&rt, &[]));
}
