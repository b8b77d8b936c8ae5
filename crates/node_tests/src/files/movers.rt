//! Texts whose mover is no node, and one whose mover is read before a fault of the later nodes.
use super::rows::Row;
use cluster_file::Fault;

pub(crate) static MOVERS: [Row; 5] = [
    Row {
        story: "a mover that is no node",
        text: b"nodes 1 2\nn 2\nk 1\ndelta none\nmover 3\nlater 4 33\nticks 9\n",
        line: 5,
        word: 2,
        fault: Fault::NoNode,
    },
    Row {
        story: "a mover that is no node, before a fault of the later ones",
        text: b"nodes 1 2\nn 2\nk 1\ndelta none\nmover 3\nlater 4 x\nticks 9\n",
        line: 5,
        word: 2,
        fault: Fault::NoNode,
    },
    Row {
        story: "a mover that another setting names, where the later nodes are due",
        text: b"nodes 1 2\nn 2\nk 1\ndelta none\nmover 9\nticks 9\n",
        line: 5,
        word: 2,
        fault: Fault::NoNode,
    },
    Row {
        story: "a mover that is no node, at the end",
        text: b"nodes 1 2\nn 2\nk 1\ndelta none\nmover 3",
        line: 5,
        word: 2,
        fault: Fault::NoNode,
    },
    Row {
        story: "a mover behind a later node that is there",
        text: b"nodes 1 2\nn 2\nk 1\ndelta none\nmover 3\nlater 2 3\nticks 9\n",
        line: 6,
        word: 2,
        fault: Fault::NodeTwice,
    },
];
