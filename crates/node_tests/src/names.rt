//! What a node tells about the names that it keeps.
use crate::alone::{Step, play_alone};

// How many names have a written version: a name that was only read has none.
static SIZES: [Step; 5] = [
    Step {
        words: "client 1|DBSIZE",
        answers: "[Frame { strings: [b\"client 1\", b\":0\\r\\n\"] }]",
        outputs: Some(0),
    },
    Step {
        words: "client 1|SET|photo|hello",
        answers: "[Frame { strings: [b\"client 1\", b\"+OK\\r\\n\"] }]",
        outputs: Some(2),
    },
    Step {
        words: "client 1|SET|letter|",
        answers: "[Frame { strings: [b\"client 1\", b\"+OK\\r\\n\"] }]",
        outputs: Some(2),
    },
    Step {
        words: "client 1|GET|never written",
        answers: "[Frame { strings: [b\"client 1\", b\"$-1\\r\\n\"] }]",
        outputs: None,
    },
    Step {
        words: "client 1|dbsize",
        answers: "[Frame { strings: [b\"client 1\", b\":2\\r\\n\"] }]",
        outputs: Some(0),
    },
];

#[test]
fn sizes(rt: HostRuntime) {
    play_alone(&rt, rt.alloc(), &SIZES);
}

// The layout of a name of which the node has not heard, and that of one that was moved.
static LAYOUTS: [Step; 3] = [
    Step {
        words: "client 1|LAYOUT|photo",
        answers: "[Frame { strings: [b\"client 1\", b\"$22\\r\\n\", b\"position 0 k 1 nodes 1\", b\"\\r\\n\"] }]",
        outputs: Some(0),
    },
    Step {
        words: "client 1|MOVE|photo|1|1",
        answers: "[Frame { strings: [b\"client 1\", b\"+OK\\r\\n\"] }]",
        outputs: None,
    },
    Step {
        words: "client 1|layout|photo",
        answers: "[Frame { strings: [b\"client 1\", b\"$22\\r\\n\", b\"position 1 k 1 nodes 1\", b\"\\r\\n\"] }]",
        outputs: Some(0),
    },
];

#[test]
fn layouts(rt: HostRuntime) {
    play_alone(&rt, rt.alloc(), &LAYOUTS);
}

// A walk through all names: at once, and one name after another, from the newest on.
static SCANS: [Step; 7] = [
    Step {
        words: "client 1|SCAN|0",
        answers: "[Frame { strings: [b\"client 1\", b\"*2\\r\\n$1\\r\\n0\\r\\n*0\\r\\n\"] }]",
        outputs: Some(0),
    },
    Step {
        words: "client 1|SET|photo|hello",
        answers: "[Frame { strings: [b\"client 1\", b\"+OK\\r\\n\"] }]",
        outputs: Some(2),
    },
    Step {
        words: "client 1|SET|letter|dear",
        answers: "[Frame { strings: [b\"client 1\", b\"+OK\\r\\n\"] }]",
        outputs: Some(2),
    },
    Step {
        words: "client 1|SCAN|0",
        answers: "[Frame { strings: [b\"client 1\", b\"*2\\r\\n$1\\r\\n0\\r\\n*2\\r\\n$5\\r\\nphoto\\r\\n\
            $6\\r\\nletter\\r\\n\"] }]",
        outputs: Some(0),
    },
    Step {
        words: "client 1|SCAN|0|COUNT|1",
        answers: "[Frame { strings: [b\"client 1\", b\"*2\\r\\n$1\\r\\n1\\r\\n*1\\r\\n$6\\r\\nletter\\r\\n\"] }]",
        outputs: Some(0),
    },
    Step {
        words: "client 1|SCAN|0|MATCH|p*",
        answers: "[Frame { strings: [b\"client 1\", b\"*2\\r\\n$1\\r\\n0\\r\\n*1\\r\\n$5\\r\\nphoto\\r\\n\"] }]",
        outputs: Some(0),
    },
    Step {
        words: "client 1|scan|1|count|1",
        answers: "[Frame { strings: [b\"client 1\", b\"*2\\r\\n$1\\r\\n0\\r\\n*1\\r\\n$5\\r\\nphoto\\r\\n\"] }]",
        outputs: Some(0),
    },
];

#[test]
fn scans(rt: HostRuntime) {
    play_alone(&rt, rt.alloc(), &SCANS);
}
